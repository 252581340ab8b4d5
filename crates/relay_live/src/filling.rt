//! How far started buffers are filled.
ghost use Rattle.std.specs.Prelude.{◌≡◌, IfOk, map};
ghost use Rattle.block_shelf.specs.Filled.{filled_in};
ghost use Rattle.cyc_buffer.specs.Filled.{filled_view};
ghost use Rattle.live_store.specs.Started.{unopened_in};

use crate::started::StartedBuffers;
use cyc_block::BlockStore;
use cyc_buffer::Filled;
use live_store::StorePremises;
use std::alloc::{AllocError, Global};

/// How far these buffers are filled, in the order of their numbers.
pub(crate) fn all_filled<S: BlockStore + Drop, J: StorePremises>(
    alloc: Global,
    started: &StartedBuffers<S, J>,
) -> Result<Vec<Filled>, AllocError>
    ensures { IfOk result (λ filled. map filled_view filled.items
        ≡ map filled_in (map unopened_in started.now.buffers.items)) }
{
    let mut filled = Vec::with_capacity(alloc, started.buffers.len())?;
    for unopened in &started.buffers {
        filled.push_reserved(unopened.buffer().filled());
    }
    Ok(filled)
}
