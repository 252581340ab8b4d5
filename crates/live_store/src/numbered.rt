//! What lies under a buffer's lock.
ghost use Rattle.live_store.specs.Tied.{Tied};

use crate::open_write::OpenWrite;
use crate::record::{RecordNumber, StorePremises};
use cyc_block::BlockStore;
use cyc_buffer::Buffer;
use std::marker::PhantomData;

/// A buffer, its open write, and for each block the number of the article that begins there. It is
/// the value of a lock: each of its steps is one call of the buffer.
pub struct NumberedBuffer<S: BlockStore, J: StorePremises> {
    pub(crate) buffer: Buffer<S>,
    pub(crate) open_write: Option<OpenWrite>,
    pub(crate) numbers: Vec<Option<RecordNumber>>,
    pub(crate) of: PhantomData<J>,
    ghost tied: { ∥ Tied J.trusted J.register buffer open_write numbers.items ∥₁ },
}

impl<S: BlockStore, J: StorePremises> NumberedBuffer<S, J> {
    ghost use Rattle.std.specs.Prelude.{◌≡◌};

    /// The buffer, what stands beside it, and the numbers at its blocks.
    pub(crate) fn into_parts(self) -> (Buffer<S>, Option<OpenWrite>, Vec<Option<RecordNumber>>)
        ensures buffer { result.0 ≡ self.buffer }
        ensures open_write { result.1 ≡ self.open_write }
        ensures numbers { result.2 ≡ self.numbers }
    {
        let NumberedBuffer {
            buffer,
            open_write,
            numbers,
            of: _,
        } = self;
        (buffer, open_write, numbers)
    }
}

impl<S: BlockStore + Drop, J: StorePremises> Drop for NumberedBuffer<S, J> {
    fn drop(self) {
        let NumberedBuffer {
            buffer: _,
            open_write,
            numbers: _,
            of: _,
        } = self;
        if let Some(
            OpenWrite {
                write,
                shown: _,
                written: _,
                broken: _,
            },
        ) = open_write
        {
            let _token = write.into_token();
        }
    }
}
