//! What is counted of a relay in threads, once these have ended (docs/PROTOCOL.md, Threads 9) or
//! while they run.
ghost use Rattle.std.specs.Prelude.{◌≡◌, ◌+◌, ◌≤◌, ◌<◌, IfOk, map, length, slice_get};
ghost use Rattle.std.specs.Option.{ForSome};
ghost use Rattle.live_jobs.specs.Desks.{posts_in};
ghost use Rattle.relay_report.specs.Figures.{feed_figures_view, name_of};
ghost use Rattle.relay_live.specs.Counts.{accepted_in, posted_in};
ghost use Rattle.relay_live.specs.Making.{buffers_in};
ghost use Rattle.relay_report.specs.Serve.{AreOf};
ghost use Rattle.relay_serve.specs.Figures.{HasNames, figures_by};
ghost use Rattle.relay_serve.specs.RunTotals.{totals_in};
ghost use Rattle.relay_serve.specs.Running.{CountsOf};

use crate::run_totals::RunTotals;
use cyc_block::BlockStore;
use feed_queue::Counts;
use line_words::Octets;
use live_store::StorePremises;
use post_history::Naming;
use relay_conf::{Config, Feed, Peer};
use relay_live::{Counted, Shared};
use relay_report::{FeedFigures, Figures, NamedBuffer, NamedFeed, Totals};
use std::alloc::{AllocError, Global};
use std::sync::Wait;
use std::sync::ledger::Ledger;

/// What was counted of a run, with the figures of what its threads share.
pub(crate) fn totals_of<S: BlockStore + Drop, J: StorePremises + Naming, L: Ledger, R: Wait>(
    rt: &R,
    alloc: Global,
    config: &Config,
    shared: &Shared<S, J, L>,
    counted: &Counted,
) -> RunTotals
    requires buffers { buffers_in shared.now ≡ length config.now.buffers.buffers.items }
    requires posted { posts_in (posted_in counted.now) ≡ accepted_in counted.now }
    ensures totals { IfOk (totals_in result) (AreOf config.now) }
    ensures counted { IfOk (totals_in result) (λ totals. CountsOf totals counted.now) }
{
    RunTotals::of(try_totals(rt, alloc, config, shared, counted))
}

/// The same, where there is memory for it.
fn try_totals<S: BlockStore + Drop, J: StorePremises + Naming, L: Ledger, R: Wait>(
    rt: &R,
    alloc: Global,
    config: &Config,
    shared: &Shared<S, J, L>,
    counted: &Counted,
) -> Result<Totals, AllocError>
    requires buffers { buffers_in shared.now ≡ length config.now.buffers.buffers.items }
    requires posted { posts_in (posted_in counted.now) ≡ accepted_in counted.now }
    ensures totals { IfOk result (AreOf config.now) }
    ensures counted { IfOk result (λ totals. CountsOf totals counted.now) }
{
    Ok(Totals {
        figures: figures_of(rt, alloc, config, shared)?,
        accepted: counted.accepted(),
        posted: counted.posted().count(),
        mismatched_receipts: counted.mismatched_receipts(),
    })
}

/// The figures of what the threads of a relay share: each lock is taken once, one after the other.
pub(crate) fn figures_of<S: BlockStore + Drop, J: StorePremises + Naming, L: Ledger, R: Wait>(
    rt: &R,
    alloc: Global,
    config: &Config,
    shared: &Shared<S, J, L>,
) -> Result<Figures, AllocError>
    requires { buffers_in shared.now ≡ length config.now.buffers.buffers.items }
    ensures names { IfOk result (HasNames config.now) }
{
    let buffers = buffers_of(rt, alloc, config, shared)?;
    let feeds = feeds_of(rt, alloc, config, shared)?;
    Ok(Figures {
        buffers,
        feeds,
        ids: shared.id_counts(rt),
    })
}

/// Each buffer with its figures.
fn buffers_of<S: BlockStore + Drop, J: StorePremises + Naming, L: Ledger, R: Wait>(
    rt: &R,
    alloc: Global,
    config: &Config,
    shared: &Shared<S, J, L>,
) -> Result<Vec<NamedBuffer>, AllocError>
    requires { buffers_in shared.now ≡ length config.now.buffers.buffers.items }
    ensures { IfOk result (λ named. map (λ one. one.name) named.items
        ≡ map (λ buffer. buffer.name) config.now.buffers.buffers.items) }
{
    let buffers = &config.buffers.buffers;
    let mut named = Vec::with_capacity(alloc, buffers.len())?;
    for (number, buffer) in buffers.iter().enumerate() {
        let name = Octets::copied(alloc, buffer.name.as_slice())?;
        let Some(figures) = shared.buffer_figures(rt, number) else {
            unreachable!()
        };
        named.push_reserved(NamedBuffer { name, figures });
    }
    Ok(named)
}

/// Each feed with its figures.
fn feeds_of<S: BlockStore + Drop, J: StorePremises + Naming, L: Ledger, R: Wait>(
    rt: &R,
    alloc: Global,
    config: &Config,
    shared: &Shared<S, J, L>,
) -> Result<Vec<NamedFeed>, AllocError>
    ensures { IfOk result (λ named. map (λ one. one.peer) named.items
        ≡ map (λ feed. name_of (slice_get config.now.relay.peers.items feed.peer))
        config.now.relay.feeds.items) }
{
    let feeds = &config.relay.feeds;
    let mut named = Vec::with_capacity(alloc, feeds.len())?;
    for (number, feed) in feeds.iter().enumerate() {
        let peer = peer_name(alloc, &config.relay.peers, feed)?;
        let figures = feed_figures(shared.feed_counts(rt, number as u16));
        named.push_reserved(NamedFeed { peer, figures });
    }
    Ok(named)
}

/// The name of a feed's peer.
fn peer_name(alloc: Global, peers: &[Peer], feed: &Feed) -> Result<Octets, AllocError>
    ensures { IfOk result (λ name. name ≡ name_of (slice_get peers.now feed.now.peer)) }
{
    match peers.get(usize::from(feed.peer)) {
        Some(peer) => Octets::copied(alloc, peer.name.as_slice()),
        None => Octets::copied(alloc, b""),
    }
}

/// The figures of a feed with these counts: what was gained, and neither was taken nor waits, was
/// overwritten. A feed without counts gained nothing.
fn feed_figures(counts: Option<Counts>) -> FeedFigures
    requires { ForSome counts (λ c. c.taken + c.waiting ≤ c.gained) }
    ensures { feed_figures_view result ≡ figures_by counts }
{
    match counts {
        Some(counts) => FeedFigures {
            waiting: counts.waiting,
            gained: counts.gained,
            overwritten: counts.gained - counts.taken - counts.waiting,
        },
        None => FeedFigures {
            waiting: 0,
            gained: 0,
            overwritten: 0,
        },
    }
}
