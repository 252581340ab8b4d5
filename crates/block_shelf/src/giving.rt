//! The stores of buffers are given back, without memory.
ghost use Rattle.std.specs.Prelude.{◌≡◌, ◌≤◌, ◌+◌, ◌++◌, map, vec_len, vec_capacity};
ghost use Rattle.cyc_buffer.specs.Agreement.{store_of};
ghost use Rattle.cyc_buffer.specs.Head.{inside};

use cyc_block::BlockStore;
use cyc_buffer::{Buffer, Unopened};

/// The stores of started buffers, put where there is room for them.
pub(crate) fn give_back<S: BlockStore + Drop>(buffers: Vec<Unopened<S>>, room: Vec<S>) -> Vec<S>
    requires { vec_len buffers + vec_len room ≤ vec_capacity room }
    ensures items { result.items ≡ room.items ++ map (λ one. store_of (inside one)) buffers.items }
    ensures capacity { vec_capacity result ≡ vec_capacity room }
{
    let mut stores = room;
    for unopened in buffers {
        stores.push_reserved(unopened.into_store());
    }
    stores
}

/// The stores of buffers, put where there is room for them.
pub(crate) fn give_up<S: BlockStore + Drop>(buffers: Vec<Buffer<S>>, room: Vec<S>) -> Vec<S>
    requires { vec_len buffers + vec_len room ≤ vec_capacity room }
    ensures items { result.items ≡ room.items ++ map (λ one. store_of one) buffers.items }
    ensures capacity { vec_capacity result ≡ vec_capacity room }
{
    let mut stores = room;
    for buffer in buffers {
        stores.push_reserved(buffer.into_store());
    }
    stores
}
