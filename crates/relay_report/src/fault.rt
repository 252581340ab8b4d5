//! Why a relay is not served to its end.
ghost use Rattle.std.specs.Prelude.{◌≡◌, Some};
ghost use Rattle.relay_report.specs.ServeText.{lost_file_text, lost_port_text, text_of};
ghost use Rattle.relay_report.specs.declared.fault.ServeError.TheVariants as faults;

use crate::keeping::{StartFault, StopFault};
use crate::reason::Reason;
use std::alloc::AllocError;
use std::error::Error;
use std::fmt;
use std::fmt::{Display, Formatter};

/// A file that can't be had, by its name in cycbuff.conf, and why. Its text is two lines.
#[derive(Drop)]
pub struct LostFile {
    pub name: String,
    pub reason: Reason,
}

impl Display for LostFile {
    ghost output = { λ lost. Some (lost_file_text lost) };

    fn fmt<W: fmt::Write>(&self, formatter: &mut Formatter<W>) -> fmt::Result {
        let LostFile { name, reason } = self;
        write!(formatter, "{name}: unusable\n{reason}")
    }
}

/// A port that can't be had, by its number, and why. Its text is two lines.
#[derive(Drop)]
pub struct LostPort {
    pub number: u16,
    pub reason: Reason,
}

impl Display for LostPort {
    ghost output = { λ lost. Some (lost_port_text lost) };

    fn fmt<W: fmt::Write>(&self, formatter: &mut Formatter<W>) -> fmt::Result {
        let LostPort { number, reason } = self;
        write!(formatter, "serve: {number}: unusable\n{reason}")
    }
}

/// Why a relay was not served, or its report not printed (docs/PROTOCOL.md, Statuses). Its text is
/// what the program prints.
#[derive(Drop)]
pub enum ServeError {
    /// The file of a buffer can't be had. Nothing was served.
    File(LostFile),
    /// A port can't be had. Nothing was served.
    Port(LostPort),
    /// The socket by which a relay is told to stop can't be had. Nothing was served.
    Control,
    /// The relay can't start from its files. Nothing was served.
    Start(StartFault),
    /// The system had no random numbers to seed the relay's tables with. Nothing was served.
    Unseeded,
    /// Memory was refused. What was served before stands.
    Memory,
    /// A thread couldn't be started. What the others served stands.
    NoThread,
    /// The relay couldn't be stopped so that it can start again. All was served.
    Stop(StopFault),
    /// The writer of the report failed. All was served.
    Unwritten,
}

impl Display for ServeError {
    ghost output = { λ error. Some (text_of error) };

    fn fmt<W: fmt::Write>(&self, formatter: &mut Formatter<W>) -> fmt::Result {
        let text = match self {
            ServeError::File(lost) => return Display::fmt(lost, formatter),
            ServeError::Port(lost) => return Display::fmt(lost, formatter),
            ServeError::Start(fault) => return Display::fmt(fault, formatter),
            ServeError::Stop(fault) => return Display::fmt(fault, formatter),
            ServeError::Control => "control: unusable",
            ServeError::Unseeded => "relay: no random numbers to be had",
            ServeError::Memory => "out of memory",
            ServeError::NoThread => "serve: no thread to be had",
            ServeError::Unwritten => "stdout: unwritten",
        };
        formatter.write_str(text)
    }
}

impl fmt::Debug for ServeError {
    fn fmt<W: fmt::Write>(&self, formatter: &mut Formatter<W>) -> fmt::Result {
        Display::fmt(self, formatter)
    }
}

impl Error for ServeError {}

impl From<AllocError> for ServeError {
    ghost from_gives = { λ _ made. made ≡ faults.Memory };

    fn from(_error: AllocError) -> ServeError {
        ServeError::Memory
    }
}
