//! The seed of a relay's tables, without which none begins.
ghost use Rattle.std.specs.Prelude.{◌≡◌, IfErr};
ghost use Rattle.buffer_files.specs.Faults.{IsRunFault, unbegun_as};

use relay_report::ServeError;
use std::hash::RandomState;
use std::io::ErrorKind;
use std::random::RandomSource;

/// The seed of the relay's tables.
pub fn hasher_of<R: RandomSource>(rt: &R) -> Result<RandomState, ServeError>
    ensures fault { IfErr result IsRunFault }
{
    match RandomState::new(rt) {
        Ok(hasher) => Ok(hasher),
        Err(error) => Err(unbegun(error.kind())),
    }
}

/// Why a relay could not begin: memory ran out, or the system has no random numbers.
pub fn unbegun(kind: ErrorKind) -> ServeError
    ensures error { result ≡ unbegun_as kind }
    ensures fault { IsRunFault result }
{
    match kind {
        ErrorKind::OutOfMemory => ServeError::Memory,
        _ => ServeError::Unseeded,
    }
}
