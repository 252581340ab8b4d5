//! Why a file or a port can't be had.
ghost use Rattle.std.specs.Prelude.{Some};
ghost use Rattle.relay_report.specs.Reasons.{reason_text};

use std::fmt;
use std::fmt::{Display, Formatter};

/// Why a file or a port can't be had. Its text is what the program prints below the line that names
/// it.
#[derive(Clone, Copy)]
pub enum Reason {
    /// The name of the file is no UTF-8.
    NoText,
    /// The file's folder isn't there.
    NoFolder,
    /// The file may not be read and written, or the port not be taken.
    NoRight,
    /// It is a folder, a pipe, or something else than a regular file or a block device.
    NotRegular,
    /// Another relay holds the file.
    Held,
    /// It is the file of an earlier buffer.
    Shared,
    /// The disk, or who may write to it, has no room for the file.
    NoRoom,
    /// No file may be as large as the buffer.
    TooLarge,
    /// The device is smaller than the buffer.
    TooSmall,
    /// A block of the file can't be written.
    Unwritten,
    /// The port is taken.
    InUse,
    /// The machine hasn't the address.
    NoAddress,
    /// The system refused it for another reason.
    Refused,
}

impl Display for Reason {
    ghost output = { λ reason. Some (reason_text reason) };

    fn fmt<W: fmt::Write>(&self, formatter: &mut Formatter<W>) -> fmt::Result {
        formatter.write_str(match self {
            Reason::NoText => "the name is no UTF-8",
            Reason::NoFolder => "no such folder",
            Reason::NoRight => "no right to it",
            Reason::NotRegular => "not a regular file",
            Reason::Held => "locked by another relay",
            Reason::Shared => "the file of an earlier buffer",
            Reason::NoRoom => "no room on the disk",
            Reason::TooLarge => "no file may be so large",
            Reason::TooSmall => "the device is smaller than the buffer",
            Reason::Unwritten => "a block can't be written",
            Reason::InUse => "in use",
            Reason::NoAddress => "no such address on this machine",
            Reason::Refused => "refused by the system",
        })
    }
}
