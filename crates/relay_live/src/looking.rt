//! What the report says of what is shared: each look is under one lock, and no event
//! (docs/PROTOCOL.md, Threads 9).
ghost use Rattle.std.specs.Prelude.{◌≡◌, ◌+◌, ◌^◌, Bool};
ghost use Rattle.block_shelf.specs.Figures.{figures_view};
ghost use Rattle.cyc_buffer.specs.Agreement.{Agrees};
ghost use Rattle.cyc_buffer.specs.History.{History};
ghost use Rattle.id_history.specs.Counts.{AtMost};
ghost use Rattle.live_store.specs.Steps.{buffer_of};
ghost use Rattle.relay_live.specs.Figures.{figures_by};

use crate::shared::Shared;
use block_shelf::BufferFigures;
use cyc_block::BlockStore;
use feed_queue::Counts as FeedCounts;
use id_history::Counts;
use live_store::{NumberedBuffer, StorePremises};
use post_history::Naming;
use std::sync::Wait;
use std::sync::ledger::Ledger;

impl<S: BlockStore + Drop, J: StorePremises + Naming, L: Ledger> Shared<S, J, L> {
    ghost use Rattle.std.specs.Prelude.{◌≡◌, ◌≤◌, ◌+◌, ◌↔◌, None, IfSome};
    ghost use Rattle.relay_live.specs.Making.{buffers_in, feeds_in};

    /// The figures of the buffer of this number, where there is one.
    pub fn buffer_figures<R: Wait>(&self, rt: &R, number: usize) -> Option<BufferFigures>
        ensures missing { (result ≡ None) ↔ (buffers_in self.now ≤ number) }
    {
        if number >= self.buffers.len() {
            return None;
        }
        Some(figures_of(&self.buffers.hold(rt, number).guard))
    }

    /// The counts of the feed of this number, where there is one. That the desk has as many feeds
    /// each time that its lock is taken no type says, so none may come of a feed that there is.
    pub fn feed_counts<R: Wait>(&self, rt: &R, feed: u16) -> Option<FeedCounts>
        ensures within { IfSome result (λ counts.
            counts.taken + counts.waiting ≤ counts.gained) }
        ensures missing { feeds_in self.now ≤ feed → result ≡ None }
    {
        if usize::from(feed) >= self.feeds {
            return None;
        }
        self.desk.lock(rt).counted.counts(feed)
    }

    /// How many message-ids are known, by kind: what one shard after the other counts.
    pub fn id_counts<R: Wait>(&self, rt: &R) -> Counts {
        let mut all = Counts {
            offered: 0,
            storing: 0,
            stored: 0,
            refused: 0,
        };
        for shard in &self.shards {
            all = sum(all, shard.hold(rt).guard.shard.counts());
        }
        all
    }
}

/// The figures of a buffer that is held.
fn figures_of<S: BlockStore, J: StorePremises>(buffer: &NumberedBuffer<S, J>) -> BufferFigures
    ensures { (trusted : Bool) (h : History) → Agrees trusted (buffer_of buffer.now) h
        → figures_view result ≡ figures_by h }
{
    BufferFigures {
        cycle: buffer.cycle(),
        front: buffer.front(),
        begun: buffer.begun(),
        stored: buffer.stored(),
    }
}

/// Each count with the other's.
fn sum(one: Counts, other: Counts) -> Counts
    requires one { AtMost (2 ^ 100) one }
    requires other { AtMost (2 ^ 63) other }
    ensures { result ≡ record {
      offered = one.offered + other.offered;
      storing = one.storing + other.storing;
      stored = one.stored + other.stored;
      refused = one.refused + other.refused;
    } }
{
    Counts {
        offered: one.offered + other.offered,
        storing: one.storing + other.storing,
        stored: one.stored + other.stored,
        refused: one.refused + other.refused,
    }
}
