//! What the report says of the relay: its buffers, its feeds and its message-ids
//! (docs/FORMATS.md, Report).
ghost use Rattle.std.specs.Prelude.{◌≡◌, ◌+◌, ◌≤◌, ℕ, IfOk};
ghost use Rattle.feed_queue.specs.Taking.{AreCounts};
ghost use Rattle.relay_model.specs.Figures as model;
ghost use Rattle.relay_model.specs.State.{Feed};
ghost use Rattle.relay_core.specs.Figures.{TellBuffers, TellFeeds};
ghost use Rattle.relay_report.specs.Figures.{feed_figures_view};

use crate::system::System;
use block_shelf::BufferSet;
use cyc_block::BlockStore;
use feed_queue::{Counts as FeedCounts, FeedDesk};
use line_words::Octets;
use relay_conf::Config;
use relay_report::{FeedFigures, Figures, NamedBuffer, NamedFeed};
use std::alloc::{AllocError, Global};

impl<S: BlockStore> System<S> {
    ghost use Rattle.std.specs.Prelude.{Bool, IfOk};
    ghost use Rattle.relay_core.specs.Agreement.{Agrees};
    ghost use Rattle.relay_core.specs.Figures.{config_of};
    ghost use Rattle.relay_report.specs.Figures.{AreFigures};
    ghost use Rattle.relay_model.specs.World.{World};

    /// The figures of the relay as it is. The error is want of memory for the lists and the names.
    pub fn figures(&self) -> Result<Figures, AllocError>
        ensures { IfOk result (λ figures. (trusted : Bool) (x : World)
            → Agrees trusted self.now x → AreFigures (config_of self.now) x.state figures) }
    {
        Ok(Figures {
            buffers: named_buffers(self.alloc, &self.config, &self.buffer_set)?,
            feeds: named_feeds(self.alloc, &self.config, &self.desk)?,
            ids: self.shards.counts(),
        })
    }
}

/// Each buffer with its figures.
fn named_buffers<S: BlockStore>(
    alloc: Global,
    config: &Config,
    buffer_set: &BufferSet<S>,
) -> Result<Vec<NamedBuffer>, AllocError>
    ensures { IfOk result (λ named. TellBuffers config.now buffer_set.now named.items) }
{
    let buffers = &config.buffers.buffers;
    let mut named = Vec::with_capacity(alloc, buffers.len())?;
    for (number, buffer) in buffers.iter().enumerate() {
        if let Some(figures) = buffer_set.figures(number as u8) {
            let name = Octets::copied(alloc, buffer.name.as_slice())?;
            named.push_reserved(NamedBuffer { name, figures });
        }
    }
    Ok(named)
}

/// Each feed with its figures.
fn named_feeds(
    alloc: Global,
    config: &Config,
    desk: &FeedDesk,
) -> Result<Vec<NamedFeed>, AllocError>
    ensures { IfOk result (λ named. TellFeeds config.now desk.now named.items) }
{
    let feeds = &config.relay.feeds;
    let mut named = Vec::with_capacity(alloc, feeds.len())?;
    for (number, feed) in feeds.iter().enumerate() {
        if let Some(counts) = desk.counts(number as u16) {
            let name = &config.relay.peers[usize::from(feed.peer)].name;
            let peer = Octets::copied(alloc, name.as_slice())?;
            named.push_reserved(NamedFeed {
                peer,
                figures: feed_figures(&counts),
            });
        }
    }
    Ok(named)
}

/// The figures of a feed with these counts: what was gained, and neither was taken nor waits, was
/// overwritten.
fn feed_figures(counts: &FeedCounts) -> FeedFigures
    requires { counts.now.taken + counts.now.waiting ≤ counts.now.gained }
    ensures { (size : ℕ) (feed : Feed) → AreCounts counts.now size feed
        → feed_figures_view result ≡ model.feed_figures size feed }
{
    FeedFigures {
        waiting: counts.waiting,
        gained: counts.gained,
        overwritten: counts.gained - counts.taken - counts.waiting,
    }
}
