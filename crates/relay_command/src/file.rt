//! Files that are read whole (docs/PROTOCOL.md, Statuses).
ghost use Rattle.std.specs.Prelude.{◌≡◌, IfErr};
ghost use Rattle.relay_command.specs.Files.{CannotBeRead, unopened_as};

use relay_drill::{DrillError, read_all};
use std::alloc::Global;
use std::fs;
use std::fs::Files;
use std::io::ErrorKind;

/// All that the file of this path has.
pub fn read_file<R: Files>(rt: &R, alloc: Global, path: &str) -> Result<Vec<u8>, DrillError>
    ensures { IfErr result CannotBeRead }
{
    match fs::File::open(rt, path) {
        Ok(mut opened) => read_all(alloc, &mut opened),
        Err(error) => Err(unopened(error.kind())),
    }
}

/// Why a file could not be opened.
fn unopened(kind: ErrorKind) -> DrillError
    ensures { result ≡ unopened_as kind }
{
    match kind {
        ErrorKind::OutOfMemory => DrillError::Memory,
        _ => DrillError::Unreadable,
    }
}
