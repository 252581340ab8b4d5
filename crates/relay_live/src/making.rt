//! The buffers of what is shared are made, before anything has come.
ghost use Rattle.std.specs.Prelude.{◌≡◌, ◌≤◌, true, All, length, IfErr, IfOk};
ghost use Rattle.block_shelf.specs.Each.{AreEach};
ghost use Rattle.block_shelf.specs.Filling.{IsBufferSetRefusal};
ghost use Rattle.relay_live.specs.Beginning.{IsNewOver};

use block_shelf::{BufferSetError, unformatted};
use cyc_block::BlockStore;
use live_store::{NumberedBuffer, StorePremises};
use std::alloc::Global;

/// A buffer over each store, whose number is the store's place, before anything is begun.
pub(crate) fn new_buffers<S: BlockStore + Drop, J: StorePremises>(
    alloc: Global,
    stores: Vec<S>,
) -> Result<Vec<NumberedBuffer<S, J>>, BufferSetError<S>>
    requires few { length stores.items ≤ 256 }
    requires honest { J.trusted ≡ true → All S.honest stores.items }
    ensures over { IfOk result (λ buffers. AreEach IsNewOver stores.items buffers.items) }
    ensures refusal { IfErr result (IsBufferSetRefusal ⟦<S as BlockStore>⟧ stores.items) }
{
    let mut buffers = Vec::with_capacity(alloc, stores.len())?;
    for store in stores {
        let number = buffers.len() as u8;
        let buffer = match NumberedBuffer::format(alloc, store, number, 0) {
            Ok(buffer) => buffer,
            Err(refused) => return Err(unformatted(refused, number)),
        };
        buffers.push_reserved(buffer);
    }
    Ok(buffers)
}
