//! An Expire: the next bit of forgetting (docs/PROTOCOL.md, Forgetting).
ghost use Rattle.std.specs.Prelude.{◌≤◌, vec_capacity};

use crate::event::{CoreError, Output};
use crate::system::System;
use block_shelf::BufferSet;
use cyc_block::BlockStore;
use cyc_buffer::Front;
use id_history::{LAST_MOMENT, SHARD_COUNT, Shards};
use std::alloc::{AllocError, Global};

/// The buffers that there can be.
const BUFFER_LIMIT: usize = 256;

/// How many Expires forget with the fronts of one reading, after the first of them.
const MORE_FORGET: u8 = 15;

/// What an Expire does next.
#[derive(Clone, Copy)]
pub(crate) enum Stage {
    /// It reads the next front, or with all of them it forgets.
    Reading,
    /// It forgets, and so do so many Expires with it.
    Forgetting { left: u8 },
}

/// How far forgetting has come: the fronts that were read, in the order of the buffers, and what an
/// Expire does next. The fronts of all buffers have room from the start.
#[derive(Drop)]
pub(crate) struct Expirer {
    pub(crate) fronts: Vec<Front>,
    pub(crate) stage: Stage,
    ghost room: { 256 ≤ vec_capacity fronts },
}

impl Expirer {
    ghost use Rattle.std.specs.Prelude.{◌≡◌, ◌<◌, ◌++◌, ◌∷◌, [], IfOk, IfSome, length, map};
    ghost use Rattle.id_history.specs.Expiry.{passed_view};
    ghost use Rattle.relay_core.specs.Expiring.{Forgets, IsNextFront, expirer_view, fronts_of};
    ghost use Rattle.relay_model.specs.Run.{forgetter};
    ghost use Rattle.relay_model.specs.Terms.{shard_count};
    ghost use Rattle.relay_model.specs.World.{Reading};

    /// No front was read.
    pub(crate) fn new(alloc: Global) -> Result<Expirer, AllocError>
        ensures { IfOk result (λ expirer. expirer_view expirer ≡ Reading []) }
    {
        let fronts = Vec::with_capacity(alloc, BUFFER_LIMIT)?;
        Ok(Expirer {
            fronts,
            stage: Stage::Reading,
        })
    }

    /// The next front was read.
    fn read(&mut self, front: Front)
        requires { length (fronts_of self.old) < 256 }
        ensures { expirer_view self.new
            ≡ Reading (map passed_view (fronts_of self.old ++ front ∷ [])) }
    {
        self.fronts.push_reserved(front);
        self.stage = Stage::Reading;
    }

    /// The front that is read next, unless all were read.
    fn next_front<S: BlockStore>(&self, buffer_set: &BufferSet<S>) -> Option<Front>
        ensures front { IsNextFront buffer_set.now self.now result }
        ensures room { IfSome result (λ _. length (fronts_of self.now) < 256) }
    {
        let read = self.fronts.len();
        if read >= BUFFER_LIMIT {
            return None;
        }
        buffer_set.front(read as u8)
    }

    /// Forgets in a shard, with the fronts that were read; so many more Expires do so.
    fn forget_old(
        &mut self,
        shards: &mut Shards,
        shard: usize,
        now: u64,
        remember: Option<u64>,
        left: u8,
    )
        requires { shard < shard_count }
        ensures { Forgets shard now remember left shards.old shards.new self.old self.new }
    {
        if let Some(remember) = remember {
            shards.expire(shard, now, remember, &self.fronts);
        }
        self.leave(left);
    }

    /// An Expire forgot; so many more do so with these fronts, then they are read anew.
    fn leave(&mut self, left: u8)
        ensures { expirer_view self.new
            ≡ forgetter (map passed_view (fronts_of self.old)) left }
    {
        if left == 0 {
            self.fronts.clear();
            self.stage = Stage::Reading;
        } else {
            self.stage = Stage::Forgetting { left };
        }
    }
}

impl<S: BlockStore> System<S> {
    ghost use Rattle.relay_model.specs.Run as run;
    ghost use Rattle.relay_core.specs.Refusals.{RefusesRightly};
    ghost use Rattle.relay_core.specs.Sharing.{KeepsFrame};
    ghost use Rattle.relay_core.specs.Steps.{StepsAs};

    /// The next bit of forgetting: the next front is read, or with all fronts the ids of the shard
    /// are forgotten that may be. It takes no memory.
    pub(crate) fn expire(&mut self, shard: usize, now: u64) -> Output
        ensures steps { StepsAs (run.Expire shard now) self.old result self.new }
        ensures refused { RefusesRightly (run.Expire shard now) self.old result self.new }
        ensures frame { KeepsFrame self.old self.new }
    {
        if shard >= SHARD_COUNT {
            return Output::Refused(CoreError::NoShard);
        }
        if now > LAST_MOMENT {
            return Output::Refused(CoreError::BadMoment);
        }
        let remember = self.config.relay.remember;
        match self.expirer.stage {
            Stage::Reading => match self.expirer.next_front(&self.buffer_set) {
                Some(front) => {
                    self.expirer.read(front);
                    Output::Quiet
                }
                None => {
                    self.expirer
                        .forget_old(&mut self.shards, shard, now, remember, MORE_FORGET);
                    Output::Quiet
                }
            },
            Stage::Forgetting { left } => {
                let less = left.saturating_sub(1);
                self.expirer
                    .forget_old(&mut self.shards, shard, now, remember, less);
                Output::Quiet
            }
        }
    }
}
