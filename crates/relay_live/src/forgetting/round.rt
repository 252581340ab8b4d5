//! A round of forgetting. What it has done this file alone says.
ghost use Rattle.std.specs.Prelude.{◌≡◌, ◌≤◌, length, vec_capacity};
ghost use Rattle.relay_model.specs.Terms.{shard_count};

use crate::locked::Held;
use cyc_block::BlockStore;
use cyc_buffer::Front;
use id_history::SHARD_COUNT;
use live_store::{NumberedBuffer, StorePremises};
use post_history::{Naming, RememberingShard};
use std::alloc::{AllocError, Global};
use std::mem::size_of;
use std::snapshot::Snapshot;

/// The most buffers of a relay (docs/FORMATS.md, cycbuff.conf).
const MOST_BUFFERS: usize = 256;

/// A shard that a round has gone over: its number, and how many fronts had been read by then.
#[derive(Clone, Copy)]
pub(crate) struct ShardRound {
    shard: usize,
    fronts: usize,
}

/// That a round of forgetting was gone: at which moment, for how long ids are remembered, by which
/// fronts of which buffers, and over which shards. `expire_round` alone gives one. Its parts are
/// for contracts alone: it takes no memory.
#[derive(Drop)]
pub struct Round {
    times: Snapshot<(u64, u64)>,
    buffers: Snapshot<Vec<usize>>,
    fronts: Snapshot<Vec<Front>>,
    shards: Snapshot<Vec<ShardRound>>,
}

// What its comment says of its memory.
const _: () = prove!(size_of::<Round>() == 0);

/// What a round goes by: the moment and how long ids are remembered, the fronts that it has read,
/// with the numbers of their buffers, and the shards that it has gone over. It has room for the
/// fronts of all buffers, and for all shards.
#[derive(Drop)]
pub(crate) struct Rounds {
    /// The moment, and for how many seconds ids are remembered.
    times: (u64, u64),
    buffers: Vec<usize>,
    fronts: Vec<Front>,
    shards: Vec<ShardRound>,
    ghost as_many: { length buffers.items ≡ length fronts.items },
    ghost buffers_room: { 256 ≤ vec_capacity buffers },
    ghost fronts_room: { 256 ≤ vec_capacity fronts },
    ghost shards_room: { shard_count ≤ vec_capacity shards },
}

impl Rounds {
    ghost use Rattle.std.specs.Prelude.{◌≡◌, ◌<◌, ◌++◌, [], ◌∷◌, ℕ, Bool, List, length, map};
    ghost use Rattle.cyc_buffer.specs.Agreement.{Agrees};
    ghost use Rattle.cyc_buffer.specs.Answers.{front_view};
    ghost use Rattle.cyc_buffer.specs.History.{History, front_of};
    ghost use Rattle.id_history.specs.Expiry.{passed_view};
    ghost use Rattle.id_history.specs.Shard.{Keeps};
    ghost use Rattle.live_store.specs.Steps.{buffer_of};
    ghost use Rattle.post_history.specs.Shards.{shard_in};
    ghost use Rattle.relay_live.specs.Locked.{held_number, held_value};
    ghost use Rattle.relay_live.specs.Rounds.{buffers_in, fronts_in, shards_in, times_of, IsOf};
    ghost use Rattle.relay_model.specs.Claims.{Claim, after_expire};
    ghost use Rattle.relay_model.specs.Terms.{shard_count};

    /// Before the first round, with the room for all fronts and shards.
    pub(crate) fn new(alloc: Global) -> Result<Rounds, AllocError> {
        let buffers = Vec::with_capacity(alloc, MOST_BUFFERS)?;
        let fronts = Vec::with_capacity(alloc, MOST_BUFFERS)?;
        let shards = Vec::with_capacity(alloc, SHARD_COUNT)?;
        Ok(Rounds {
            times: (0, 0),
            buffers,
            fronts,
            shards,
        })
    }

    /// Begins a round at this moment, where ids are remembered for so many seconds.
    pub(super) fn begin(&mut self, now: u64, remember: u64)
        ensures times { times_of self.new ≡ (now, remember) }
        ensures none { (buffers_in self.new ≡ []) × (fronts_in self.new ≡ []) }
        ensures no_shard { shards_in self.new ≡ [] }
    {
        self.times = (now, remember);
        self.buffers.clear();
        self.fronts.clear();
        self.shards.clear();
    }

    /// Reads the front of a buffer that is held, the next one, before any shard.
    pub(super) fn read<S: BlockStore, J: StorePremises>(
        &mut self,
        buffer: &Held<'_, NumberedBuffer<S, J>>,
    )
        requires few { length (fronts_in self.old) < 256 }
        requires next { held_number buffer.now ≡ length (fronts_in self.old) }
        requires no_shard { shards_in self.old ≡ [] }
        ensures front { (trusted : Bool) (h : History)
            → Agrees trusted (buffer_of (held_value buffer.now)) h
            → fronts_in self.new ≡ fronts_in self.old ++ front_view h.buffer (front_of h) ∷ [] }
        ensures number { buffers_in self.new ≡ buffers_in self.old ++ held_number buffer.now ∷ [] }
        ensures same_times { times_of self.new ≡ times_of self.old }
        ensures same_shards { shards_in self.new ≡ shards_in self.old }
    {
        self.buffers.push_reserved(buffer.number());
        self.fronts.push_reserved(buffer.guard.passed());
    }

    /// Forgets in a shard that is held, the next one, what may be forgotten at the round's moment,
    /// by the fronts that it has read.
    pub(crate) fn expire<J: Naming>(&mut self, shard: &mut Held<'_, RememberingShard<J>>)
        requires next { held_number shard.old ≡ length (shards_in self.old) }
        requires left { length (shards_in self.old) < shard_count }
        ensures claims { (claims : List ℕ → Claim) → Keeps (shard_in (held_value shard.old)) claims
            → Keeps (shard_in (held_value shard.new))
            (λ id. after_expire (times_of self.old).0 (times_of self.old).1
            (map passed_view (fronts_in self.old)) (claims id)) }
        ensures one_more { shards_in self.new ≡ shards_in self.old ++ record {
          shard = held_number shard.old;
          fronts = length (fronts_in self.old);
        } ∷ [] }
        ensures same_times { times_of self.new ≡ times_of self.old }
        ensures same_buffers { buffers_in self.new ≡ buffers_in self.old }
        ensures same_fronts { fronts_in self.new ≡ fronts_in self.old }
    {
        let (now, remember) = self.times;
        shard.guard.expire(now, remember, self.fronts.as_slice());
        self.shards.push_reserved(ShardRound {
            shard: shard.number(),
            fronts: self.fronts.len(),
        });
    }

    /// The round as it has gone so far.
    pub(super) fn round(&self) -> Round
        ensures { IsOf self.now result }
    {
        Round {
            times: Snapshot::of(&self.times),
            buffers: Snapshot::of(&self.buffers),
            fronts: Snapshot::of(&self.fronts),
            shards: Snapshot::of(&self.shards),
        }
    }
}
