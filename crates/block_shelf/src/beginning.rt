//! Why a relay over stores doesn't begin.
ghost use Rattle.std.specs.Prelude.{List};
ghost use Rattle.block_shelf.specs.Filling.{IsBufferSetRefusal, IsBeginRefusal, IsHost};

use crate::filling::BufferSetError;
use cyc_block::BlockStore;
use std::alloc::AllocError;
use std::io;
use std::io::ErrorKind;

/// Why a relay doesn't begin.
#[derive(Drop)]
pub enum BeginError<S: BlockStore> {
    /// No seed for its tables was to be had, or memory.
    Host(io::Error),
    /// The device of the buffer of this number failed while its head block was written; its store.
    Device(u8, S),
}

impl<S: BlockStore> From<io::Error> for BeginError<S> {
    ghost from_gives = { λ _ made. IsHost made };

    fn from(error: io::Error) -> BeginError<S> {
        BeginError::Host(error)
    }
}

impl<S: BlockStore> From<AllocError> for BeginError<S> {
    ghost from_gives = { λ _ made. IsHost made };

    fn from(error: AllocError) -> BeginError<S> {
        BeginError::Host(io::Error::from(error))
    }
}

/// Why a relay whose buffers aren't made doesn't begin.
pub fn unbegun<S: BlockStore>(error: BufferSetError<S>) -> BeginError<S>
    ensures { (stores : List S) → IsBufferSetRefusal ⟦<S as BlockStore>⟧ stores error
        → IsBeginRefusal ⟦<S as BlockStore>⟧ stores result }
{
    match error {
        BufferSetError::Memory => BeginError::Host(io::Error::from(ErrorKind::OutOfMemory)),
        BufferSetError::Device(number, store) => BeginError::Device(number, store),
    }
}
