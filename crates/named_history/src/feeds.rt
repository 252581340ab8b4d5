//! Feeds, taken by name.
ghost use Rattle.std.specs.Prelude.{◌≡◌, ◌<◌, ◌^◌, ℕ, List, All, IfOk, IsSome, OnOk, length, map};
ghost use Rattle.std.specs.Prelude.{option_map};
ghost use Rattle.id_history.specs.Views.{feed_view};
ghost use Rattle.named_history.specs.Naming as terms;
ghost use Rattle.named_history.specs.Places.{place_of, under};

use crate::fitting::{copied, feed_by, new_feed};
use crate::places::place_of;
use id_history::KeptFeed;
use line_words::Octets;
use std::alloc::{AllocError, Global};
use std::mem;

/// What is kept under the name, if anything is. It is moved out of what is left, which has the same
/// as before under each later name.
fn take_kept(
    alloc: Global,
    name: &[u8],
    known: &[Octets],
    left: &mut Vec<KeptFeed>,
    later: &[Octets],
) -> Result<Option<KeptFeed>, AllocError>
    ensures kept { IfOk result (λ kept. option_map feed_view kept
        ≡ under name.now known.now (map feed_view left.old.items)) }
    ensures left { OnOk result ((other : List ℕ) → IsSome (place_of other later.now)
        → under other known.now (map feed_view left.new.items)
        ≡ under other known.now (map feed_view left.old.items)) }
{
    let Some(place) = place_of(name, known) else {
        return Ok(None);
    };
    if place >= left.len() {
        return Ok(None);
    }
    if place_of(name, later).is_some() {
        let copy = copied(alloc, &left[place])?;
        return Ok(Some(copy));
    }
    Ok(Some(mem::replace(&mut left[place], new_feed(alloc))))
}

/// Feeds of these names, each with its ring: of each is kept what the history has under its name.
pub(crate) fn feeds_by(
    alloc: Global,
    known: &[Octets],
    kept: Vec<KeptFeed>,
    own: &[Octets],
    rings: &[u32],
) -> Result<Vec<KeptFeed>, AllocError>
    ensures feeds { IfOk result (λ feeds. map feed_view feeds.items
        ≡ terms.feeds_by known.now (map feed_view kept.items) own.now rings.now) }
    ensures count { IfOk result (λ feeds. length feeds.items < 2 ^ 32) }
    ensures room { IfOk result (λ feeds.
        All (λ (feed : KeptFeed). length feed.waiting.items < 2 ^ 32) feeds.items) }
{
    let count = own.len().min(rings.len());
    if count > u32::MAX as usize {
        return Err(AllocError);
    }
    let mut left = kept;
    let mut feeds = Vec::with_capacity(alloc, count)?;
    for place in 0..count {
        let kept = take_kept(
            alloc,
            own[place].as_slice(),
            known,
            &mut left,
            &own[place + 1..],
        )?;
        feeds.push(feed_by(alloc, rings[place], kept)?)?;
    }
    Ok(feeds)
}
