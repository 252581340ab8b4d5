//! Why the texts that are found aren't read.
ghost use Rattle.std.specs.Prelude.{◌≡◌};
ghost use Rattle.found_texts.specs.declared.fault.ReadFault.TheVariants as ReadFault;

use std::alloc::{AllocError, AllocFailed};

/// Why the texts that are found aren't all read, in the order of trial at each of them.
#[derive(Clone, Copy, Debug, PartialEq, Eq)]
pub enum ReadFault {
    /// Memory was refused.
    Memory,
    /// The device of the buffer of this number failed.
    Device(u8),
}

impl From<AllocError> for ReadFault {
    ghost from_gives = { λ _ made. made ≡ ReadFault.Memory };

    fn from(_error: AllocError) -> ReadFault {
        ReadFault::Memory
    }
}

impl<T: Drop> From<AllocFailed<T>> for ReadFault {
    ghost from_gives = { λ _ made. made ≡ ReadFault.Memory };

    fn from(_error: AllocFailed<T>) -> ReadFault {
        ReadFault::Memory
    }
}
