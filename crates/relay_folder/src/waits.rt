//! Which faults of a connection are waits.
ghost use Rattle.std.specs.Prelude.{◌↔◌, IsTrue};
ghost use Rattle.std.specs.IoError.{error_kind};
ghost use Rattle.relay_folder.specs.Files.{IsWait};

use std::io;
use std::io::ErrorKind;

/// Whether a part of a wait has passed, and nothing came.
pub(crate) fn is_wait(error: &io::Error) -> bool
    ensures { IsTrue result ↔ IsWait (error_kind error.now) }
{
    matches!(
        error.kind(),
        ErrorKind::WouldBlock | ErrorKind::TimedOut | ErrorKind::Interrupted
    )
}
