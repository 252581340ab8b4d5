//! One feed, whose ring may be of another size than before.
ghost use Rattle.std.specs.Prelude.{◌≡◌, ◌≤◌, length, option_map, IfOk};
ghost use Rattle.id_history.specs.Views.{feed_view};
ghost use Rattle.named_history.specs.Fitting as terms;

use id_history::KeptFeed;
use std::alloc::{AllocError, Global};

/// A feed that gained nothing.
pub(crate) fn new_feed(alloc: Global) -> KeptFeed
    ensures { feed_view result ≡ terms.new_feed }
{
    KeptFeed {
        gained: 0,
        passed: 0,
        taken: 0,
        waiting: Vec::new(alloc),
    }
}

/// What is left of the feed, with a ring of this size.
fn fitted(ring: u32, feed: KeptFeed) -> Result<KeptFeed, AllocError>
    ensures fitted { IfOk result (λ new. feed_view new ≡ terms.fitted ring (feed_view feed)) }
    ensures room { IfOk result (λ new. length new.waiting.items ≤ ring) }
{
    let count = feed.waiting.len();
    let room = u64::from(ring).min(feed.gained.saturating_sub(feed.passed));
    if count as u64 == room {
        return Ok(feed);
    }
    let mut left = feed;
    let newest = left.waiting.split_off(count.saturating_sub(ring as usize))?;
    left.passed = left.gained.saturating_sub(newest.len() as u64);
    left.waiting = newest;
    Ok(left)
}

/// A feed with a ring of this size, of which this is kept, if anything is.
pub(crate) fn feed_by(
    alloc: Global,
    ring: u32,
    kept: Option<KeptFeed>,
) -> Result<KeptFeed, AllocError>
    ensures feed { IfOk result (λ new.
        feed_view new ≡ terms.feed_by ring (option_map feed_view kept)) }
    ensures room { IfOk result (λ new. length new.waiting.items ≤ ring) }
{
    match kept {
        None => Ok(new_feed(alloc)),
        Some(feed) => fitted(ring, feed),
    }
}

/// A copy of the feed.
pub(crate) fn copied(alloc: Global, feed: &KeptFeed) -> Result<KeptFeed, AllocError>
    ensures { IfOk result (λ copy. feed_view copy ≡ feed_view feed.now) }
{
    Ok(KeptFeed {
        gained: feed.gained,
        passed: feed.passed,
        taken: feed.taken,
        waiting: Vec::from_slice(alloc, &feed.waiting)?,
    })
}
