//! Whether a history knows of more than the buffers hold.
ghost use Rattle.std.specs.Prelude.{◌≡◌, map, nat_lt};
ghost use Rattle.std.specs.List.{list_any};
ghost use Rattle.cyc_buffer.specs.Filled.{filled_view};
ghost use Rattle.cyc_token.specs.Token.{token_view};
ghost use Rattle.id_history.specs.Views.{feed_view, history_view, id_view};
ghost use Rattle.news_terms.specs.Places.{on_line};
ghost use Rattle.relay_core.specs.Ahead.{all_stored, is_ahead, is_feed_ahead, is_id_ahead};
ghost use Rattle.relay_core.specs.Ahead.{is_unbegun};

use cyc_buffer::Filled;
use cyc_token::Token;
use id_history::{History, KeptFeed, KeptId};

/// Whether the history knows of more than the buffers hold.
pub fn is_ahead(filled: &[Filled], history: &History) -> bool
    ensures { result ≡ is_ahead (map filled_view filled.now) (history_view history.now) }
{
    is_any_id_ahead(filled, &history.ids) || is_any_feed_ahead(filled, &history.feeds)
}

/// Whether an id is stored under a token of no article that was begun.
fn is_any_id_ahead(filled: &[Filled], ids: &[KeptId]) -> bool
    ensures { result
        ≡ list_any (is_id_ahead (map filled_view filled.now)) (map id_view ids.now) }
{
    let mut left = ids;
    while let Some((one, others)) = left.split_first() {
        if is_id_ahead(filled, one) {
            return true;
        }
        left = others;
    }
    false
}

/// Whether the id is stored under a token of no article that was begun.
fn is_id_ahead(filled: &[Filled], one: &KeptId) -> bool
    ensures { result ≡ is_id_ahead (map filled_view filled.now) (id_view one.now) }
{
    match one.token {
        None => false,
        Some(token) => is_unbegun(filled, &token),
    }
}

/// Whether a feed gained more than is stored, or what waits for it was not begun.
fn is_any_feed_ahead(filled: &[Filled], feeds: &[KeptFeed]) -> bool
    ensures { result
        ≡ list_any (is_feed_ahead (map filled_view filled.now)) (map feed_view feeds.now) }
{
    let mut left = feeds;
    while let Some((feed, others)) = left.split_first() {
        if is_more(filled, feed.gained) || is_any_unbegun(filled, &feed.waiting) {
            return true;
        }
        left = others;
    }
    false
}

/// Whether it is more than is stored in all buffers together.
fn is_more(filled: &[Filled], gained: u64) -> bool
    ensures { result ≡ nat_lt (all_stored (map filled_view filled.now)) gained }
{
    let mut above = gained;
    let mut left = filled;
    while let Some((one, others)) = left.split_first() {
        above = above.saturating_sub(one.stored);
        left = others;
    }
    above > 0
}

/// Whether one of the tokens is of no article that was begun.
fn is_any_unbegun(filled: &[Filled], tokens: &[Token]) -> bool
    ensures { result
        ≡ list_any (is_unbegun (map filled_view filled.now)) (map token_view tokens.now) }
{
    let mut left = tokens;
    while let Some((token, others)) = left.split_first() {
        if is_unbegun(filled, token) {
            return true;
        }
        left = others;
    }
    false
}

/// Whether no article was begun under the token: its place isn't below the front of its buffer.
fn is_unbegun(filled: &[Filled], token: &Token) -> bool
    ensures { result ≡ is_unbegun (map filled_view filled.now) (token_view token.now) }
{
    match filled.get(usize::from(token.buffer)) {
        None => true,
        Some(one) => place_of(one.blocks, token.cycle, token.first) >= one.front,
    }
}

/// Where a place lies on the endless line of so many blocks.
fn place_of(blocks: u32, cycle: u32, first: u32) -> u64
    ensures { result ≡ on_line blocks cycle first }
{
    u64::from(cycle) * u64::from(blocks) + u64::from(first)
}
