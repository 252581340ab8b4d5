//! How the relay is closed (docs/PROTOCOL.md, Clean stop and start).
ghost use Rattle.std.specs.Prelude.{◌≡◌, ◌≤◌, IfOk};
ghost use Rattle.relay_core.specs.Stopping.{TellsFeeds, next_stop};

use crate::idle::is_idle;
use crate::stopped::{Stopped, Unstopped};
use crate::system::System;
use block_shelf::Unshut;
use cyc_block::BlockStore;
use feed_queue::FeedDesk;
use id_history::{History, KeptFeed, write};
use std::alloc::{AllocError, Global};

/// The groups that there can be.
pub const GROUP_LIMIT: usize = 256;

impl<S: BlockStore> System<S> {
    ghost use Rattle.std.specs.Prelude.{◌≡◌, IfErr, IfOk};
    ghost use Rattle.relay_core.specs.Stopping.{ComesBack, Shuts, TellsHistory, stop_of};

    /// Closes the relay: gives the stores of its buffers, and the text of its history. Where a
    /// message-id is being stored it isn't.
    pub fn shut(self) -> Result<Stopped<S>, Unstopped<S>>
    where
        S: Drop,
        ensures shut { IfOk result (λ shut. Shuts self shut.stores.items shut.history.items) }
        ensures back { IfErr result (ComesBack self) }
    {
        if !is_idle(&self.shards) {
            return Err(Unstopped::NotIdle(self));
        }
        // The text has its memory before a device is called: a head that says closed without it
        // could not be started again.
        let stop = next_stop(self.stop);
        let history = match self.text(stop) {
            Ok(history) => history,
            Err(_) => return Err(Unstopped::Memory(self)),
        };
        let alloc = self.alloc;
        let (buffer_set, unbuffered) = self.take_apart();
        match buffer_set.shut(alloc, stop) {
            Ok(stores) => {
                drop(unbuffered);
                Ok(Stopped { stores, history })
            }
            Err(Unshut::Device(number, stores)) => {
                drop(unbuffered);
                Err(Unstopped::Device(number, stores))
            }
            Err(Unshut::Busy(buffer_set)) => Err(Unstopped::NotIdle(unbuffered.with(buffer_set))),
            Err(Unshut::Memory(buffer_set)) => Err(Unstopped::Memory(unbuffered.with(buffer_set))),
        }
    }

    /// The number of its last stop: 0 before the first.
    pub fn stop(&self) -> u64
        ensures { result ≡ stop_of self.now }
    {
        self.stop
    }

    /// The text of its history, as it is now, at its last stop.
    pub fn history(&self) -> Result<Vec<u8>, AllocError>
        ensures { IfOk result (λ text. TellsHistory self.now (stop_of self.now) text.items) }
    {
        self.text(self.stop)
    }

    /// The text of its history at this stop.
    pub(crate) fn text(&self, stop: u64) -> Result<Vec<u8>, AllocError>
        ensures { IfOk result (λ text. TellsHistory self.now stop text.items) }
    {
        let positions = self.buffer_set.positions(self.alloc)?;
        // There are no more groups.
        if positions.len() > GROUP_LIMIT {
            return Err(AllocError);
        }
        let feeds = kept_feeds(self.alloc, &self.desk, self.config.relay.feeds.len())?;
        let ids = self.shards.entries(self.alloc)?;
        let history = History {
            stop,
            newest: self.newest.unwrap_or(0),
            positions,
            feeds,
            ids,
        };
        let text = write(self.alloc, &history);
        drop(history);
        text
    }
}

/// What is left of so many feeds.
fn kept_feeds(alloc: Global, desk: &FeedDesk, count: usize) -> Result<Vec<KeptFeed>, AllocError>
    requires { count ≤ 1024 }
    ensures { IfOk result (λ kept. TellsFeeds desk.now count kept.items) }
{
    let mut kept = Vec::with_capacity(alloc, count)?;
    for number in 0..count {
        if let Some(one) = desk.kept(alloc, number as u16)? {
            kept.push_reserved(one);
        }
    }
    Ok(kept)
}

/// The number of the stop after this one: after the greatest it is 1 again.
pub fn next_stop(last: u64) -> u64
    ensures { result ≡ next_stop last }
{
    match last.checked_add(1) {
        Some(next) => next,
        None => 1,
    }
}
