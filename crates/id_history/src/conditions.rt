//! What a history has to fit.
ghost use Rattle.std.specs.Prelude.{◌≡◌, ◌<◌, ◌≤◌, ◌^◌, ◌↔◌, IsTrue, map};
ghost use Rattle.std.specs.List.{AllByRecursion, AllZip};
ghost use Rattle.cyc_token.specs.Token.{token_view};
ghost use Rattle.relay_model.specs.Terms.{last_moment};
ghost use Rattle.id_history.specs.Conditions.{are_positions, are_there, feed_holds, feeds_hold};
ghost use Rattle.id_history.specs.Conditions.{id_holds, ids_hold, is_before, rise, holds};
ghost use Rattle.id_history.specs.Views.{id_view, feed_view, history_view, setting_view};

use crate::kept::{History, KeptFeed, KeptId, Setting};
use cyc_token::Token;
use std::cmp::Ordering;

/// The last moment that there is, in seconds since 1970-01-01 00:00:00 UTC: the end of the year
/// 9998 (docs/PROTOCOL.md, Limits).
pub const LAST_MOMENT: u64 = 253_370_764_799;

/// The most tokens that a feed may have gained.
const MOST_GAINED: u64 = 1 << 62;

/// Whether each position is one of its group's buffers.
fn are_positions(positions: &[u32], groups: &[u32]) -> bool
    ensures { result ≡ are_positions positions.now groups.now }
{
    let mut left = positions;
    let mut counts = groups;
    while let Some((position, others)) = left.split_first() {
        let Some((count, more)) = counts.split_first() else {
            return false;
        };
        if *position >= *count {
            return false;
        }
        left = others;
        counts = more;
    }
    counts.is_empty()
}

/// Whether each token names one of so many buffers.
fn are_there(buffers: u32, tokens: &[Token]) -> bool
    ensures { result ≡ are_there buffers (map token_view tokens.now) }
{
    let mut left = tokens;
    while let Some((token, others)) = left.split_first() {
        if u32::from(token.buffer) >= buffers {
            return false;
        }
        left = others;
    }
    true
}

/// Whether a feed whose ring holds so many tokens can have come to this.
pub fn feed_holds(buffers: u32, feed: &KeptFeed, ring: u32) -> bool
    ensures { result ≡ feed_holds buffers (feed_view feed.now) ring }
{
    if feed.taken > feed.passed || feed.passed > feed.gained || feed.gained > MOST_GAINED {
        return false;
    }
    let waiting = u64::from(ring).min(feed.gained - feed.passed);
    feed.waiting.len() as u64 == waiting && are_there(buffers, &feed.waiting)
}

/// Whether each feed can have come to this, with its ring.
pub fn feeds_hold(buffers: u32, feeds: &[KeptFeed], rings: &[u32]) -> bool
    ensures { result ≡ feeds_hold buffers (map feed_view feeds.now) rings.now }
{
    let mut left = feeds;
    let mut sizes = rings;
    while let Some((feed, others)) = left.split_first() {
        let Some((ring, more)) = sizes.split_first() else {
            return false;
        };
        if !feed_holds(buffers, feed, *ring) {
            return false;
        }
        left = others;
        sizes = more;
    }
    sizes.is_empty()
}

/// Whether a message-id can have come to this.
fn id_holds(buffers: u32, one: &KeptId) -> bool
    ensures { result ≡ id_holds buffers (id_view one.now) }
{
    if one.moment > LAST_MOMENT {
        return false;
    }
    match one.token {
        None => true,
        Some(token) => u32::from(token.buffer) < buffers,
    }
}

/// Whether each message-id can have come to this.
pub fn ids_hold(buffers: u32, ids: &[KeptId]) -> bool
    ensures { result ≡ ids_hold buffers (map id_view ids.now) }
{
    let mut left = ids;
    while let Some((one, others)) = left.split_first() {
        if !id_holds(buffers, one) {
            return false;
        }
        left = others;
    }
    true
}

/// Whether the message-id comes before the first of the others, where there are some.
fn is_before(one: &KeptId, others: &[KeptId]) -> bool
    ensures { result ≡ is_before (id_view one.now) (map id_view others.now) }
{
    match others.first() {
        None => true,
        Some(next) => one.id.as_bytes().cmp(next.id.as_bytes()) == Ordering::Less,
    }
}

/// Whether each message-id comes before the next by its octets.
pub fn rise(ids: &[KeptId]) -> bool
    ensures { result ≡ rise (map id_view ids.now) }
{
    let mut left = ids;
    while let Some((one, others)) = left.split_first() {
        if !is_before(one, others) {
            return false;
        }
        left = others;
    }
    true
}

/// Whether a relay with this setting can have stopped so.
pub(crate) fn holds(setting: &Setting, history: &History) -> bool
    ensures { result ≡ holds (setting_view setting.now) (history_view history.now) }
{
    are_positions(&history.positions, &setting.groups)
        && feeds_hold(setting.buffers, &history.feeds, &setting.rings)
        && ids_hold(setting.buffers, &history.ids)
        && rise(&history.ids)
}
