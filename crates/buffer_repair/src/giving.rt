//! The stores of buffers that were found again are given back, without memory.
ghost use Rattle.std.specs.Prelude.{◌≡◌, ◌≤◌, ◌+◌, ◌++◌, map, vec_len, vec_capacity};
ghost use Rattle.buffer_repair.specs.Parts.{store_in};

use cyc_block::BlockStore;
use cyc_buffer::Started;

/// The stores of buffers that were found again, put where there is room for them.
pub(crate) fn give_found<S: BlockStore + Drop>(found: Vec<Started<S>>, room: Vec<S>) -> Vec<S>
    requires { vec_len found + vec_len room ≤ vec_capacity room }
    ensures items { result.items ≡ room.items ++ map (λ one. store_in one) found.items }
    ensures capacity { vec_capacity result ≡ vec_capacity room }
{
    let mut stores = room;
    for one in found {
        stores.push_reserved(one.buffer.into_store());
    }
    stores
}
