//! How a relay is stopped that no thread shares any more (docs/PROTOCOL.md, Clean stop and start).
ghost use Rattle.std.specs.Prelude.{◌≡◌, ◌≤◌, ◌<◌, ◌+◌, [], None, map, vec_len, vec_capacity};
ghost use Rattle.std.specs.Prelude.{ℕ, List, Some, true, false, length, slice_get};
ghost use Rattle.block_shelf.specs.Stopping.{IsStopped, StopsNext};
ghost use Rattle.cyc_buffer.specs.Head.{is_busy};
ghost use Rattle.id_history.specs.Shards.{EachKeeps};
ghost use Rattle.live_store.specs.Steps.{buffer_of};
ghost use Rattle.post_history.specs.Shards.{shards_in};
ghost use Rattle.relay_live.specs.Stopping.{AreKnown, IsShutAll};
ghost use Rattle.relay_model.specs.Claims.{Claim, is_storing};
ghost use Rattle.relay_model.specs.Run.{shard_of};

use crate::alone::Alone;
use block_shelf::number_of;
use cyc_block::BlockStore;
use live_store::{NumberedBuffer, StorePremises, Unshut};
use post_history::{Naming, RememberingShard};
use relay_core::{Stopped, next_stop};
use std::alloc::Global;
use std::sync::ledger::Ledger;

/// Why it isn't stopped, in the order of trial; want of memory comes last before the devices.
#[derive(Drop)]
pub(crate) enum Unstopped<S: BlockStore + Drop, J: StorePremises + Naming, L: Ledger> {
    /// A message-id is being stored, or a write is open in a buffer. The relay is as it was.
    NotIdle(Alone<S, J, L>),
    /// Memory was refused. The relay is as it was, and nothing was written.
    Memory(Alone<S, J, L>),
    /// The device of the buffer of this number failed. All stores; heads may say that they are
    /// closed.
    Device(u8, Vec<S>),
}

impl<S: BlockStore + Drop, J: StorePremises + Naming, L: Ledger> Alone<S, J, L> {
    ghost use Rattle.relay_live.specs.Stopping.{ShutGives};

    /// Stops the relay: the stores of its buffers, and the text of its history. Where a message-id
    /// is being stored or a write is open it isn't.
    pub(crate) fn shut(self, alloc: Global) -> Result<Stopped<S>, Unstopped<S, J, L>>
        ensures { ShutGives self result }
    {
        if !none_is_stored(&self.shards) {
            return Err(Unstopped::NotIdle(self));
        }
        if !none_is_written(&self.buffers) {
            return Err(Unstopped::NotIdle(self));
        }
        // The text has its memory before a device is called: a head that says closed without it
        // could not be started again.
        let stop = next_stop(self.stop);
        let history = match self.text(alloc, stop) {
            Ok(history) => history,
            Err(_) => return Err(Unstopped::Memory(self)),
        };
        let Ok(room) = Vec::with_capacity(alloc, self.buffers.len()) else {
            return Err(Unstopped::Memory(self));
        };
        let Alone { buffers, desk, .. } = self;
        drop(desk);
        match shut_all(buffers, stop, room) {
            (None, stores) => Ok(Stopped { stores, history }),
            (Some(number), stores) => Err(Unstopped::Device(number, stores)),
        }
    }
}

/// Whether no message-id of these shards is being stored.
fn none_is_stored<J: Naming>(shards: &[RememberingShard<J>]) -> bool
    ensures none { result ≡ true → (claims : List ℕ → Claim)
        → EachKeeps (shards_in shards.now) claims
        → (id : List ℕ) → shard_of id < length shards.now → is_storing (claims id) ≡ false }
    ensures some { result ≡ false → (claims : List ℕ → Claim)
        → EachKeeps (shards_in shards.now) claims
        → (id : List ℕ) × (is_storing (claims id) ≡ true) }
{
    for shard in shards {
        if shard.shard.counts().storing > 0 {
            return false;
        }
    }
    true
}

/// Whether no write is open in these buffers.
fn none_is_written<S: BlockStore, J: StorePremises>(buffers: &[NumberedBuffer<S, J>]) -> bool
    ensures none { result ≡ true → (b : ℕ) (code : _)
        → slice_get (map buffer_of buffers.now) b ≡ Some code → is_busy code ≡ false }
    ensures some { result ≡ false → (b : ℕ) × (code : _)
        × (slice_get (map buffer_of buffers.now) b ≡ Some code) × (is_busy code ≡ true) }
{
    for buffer in buffers {
        if buffer.is_busy() {
            return false;
        }
    }
    true
}

/// Stops each buffer under this number, until the device of one fails. The number of that one, and
/// the stores of all in their order, put where there is room for them.
fn shut_all<S: BlockStore + Drop, J: StorePremises>(
    buffers: Vec<NumberedBuffer<S, J>>,
    stop: u64,
    room: Vec<S>,
) -> (Option<u8>, Vec<S>)
    requires few { vec_len buffers ≤ 256 }
    requires none { room.items ≡ [] }
    requires room { vec_len buffers ≤ vec_capacity room }
    ensures { IsShutAll stop buffers.items result.0 result.1.items }
{
    let mut stores = room;
    let mut failed = None;
    for buffer in buffers {
        failed = shut_next(buffer, stop, failed, &mut stores);
    }
    match failed {
        Some(place) => (Some(number_of(place)), stores),
        None => (None, stores),
    }
}

/// Stops the next buffer where none before it has failed, and puts its store behind those of the
/// buffers before it. The place of the buffer that has failed.
fn shut_next<S: BlockStore + Drop, J: StorePremises>(
    buffer: NumberedBuffer<S, J>,
    stop: u64,
    failed: Option<usize>,
    stores: &mut Vec<S>,
) -> Option<usize>
    requires { vec_len stores.old < vec_capacity stores.old }
    ensures stops { StopsNext stop (buffer_of buffer) failed stores.old.items result
        stores.new.items }
    ensures known { AreKnown S.BlockStore J.StorePremises stop failed stores.old.items
        → AreKnown S.BlockStore J.StorePremises stop result stores.new.items }
    ensures count { vec_len stores.new ≡ vec_len stores.old + 1 }
    ensures room { vec_capacity stores.new ≡ vec_capacity stores.old }
{
    if failed.is_some() {
        stores.push_reserved(buffer.into_store());
        return failed;
    }
    match buffer.shut(stop) {
        Ok(store) => {
            stores.push_reserved(store);
            None
        }
        Err(Unshut { buffer, error: _ }) => {
            let place = stores.len();
            stores.push_reserved(buffer.into_store());
            Some(place)
        }
    }
}
