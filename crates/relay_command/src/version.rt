//! Which version of the program this is (docs/PROTOCOL.md, Commands).
ghost use Rattle.relay_report.specs.Written.{Writes};
ghost use Rattle.relay_command.specs.Version.{version_line};

use relay_report::{Unwritten, put_all};
use std::io::Write;

/// The version of the program: the newest that CHANGELOG.md names.
pub const VERSION: &str = "0.1.0";

/// Writes the program's name and its version in one line.
pub fn tell_version<W: Write>(writer: &mut W) -> Result<(), Unwritten>
    ensures { Writes result version_line (W.contents writer.old) (W.contents writer.new) }
{
    put_all(writer, &[b"cnrelay ", VERSION.as_bytes(), b"\n"])
}
