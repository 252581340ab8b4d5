//! Which articles a crash has cost a relay.
ghost use Rattle.std.specs.Prelude.{◌≡◌, ◌+◌, map, option_map, slice_get, nat_lt, IfOk, IfErr};
ghost use Rattle.std.specs.Prelude.{IsTrue, ◌↔◌};
ghost use Rattle.cyc_block.specs.Heads.{head_view};
ghost use Rattle.cyc_token.specs.Token.{token_view};
ghost use Rattle.id_history.specs.History.{Rises};
ghost use Rattle.id_history.specs.Views.{id_view};
ghost use Rattle.relay_startup.specs.Recovered as told;

use cyc_block::HeadNumbers;
use cyc_token::Token;
use id_history::KeptId;

/// Whether the crash has cost an id of the last stop its article, where these are the ids that are
/// found, and the heads of the buffers: it isn't found, and was not overwritten either.
pub(crate) fn is_lost(heads: &[HeadNumbers], found: &[KeptId], one: &KeptId) -> bool
    requires rises { Rises (map id_view found.now) }
    ensures { result ≡ told.is_lost (map head_view heads.now) (map id_view found.now)
        (id_view one.now) }
{
    !is_found(found, one) && !is_overwritten(heads, one.token)
}

/// Whether the id stands among these, under the same token.
pub(crate) fn is_found(found: &[KeptId], one: &KeptId) -> bool
    requires rises { Rises (map id_view found.now) }
    ensures { result ≡ told.is_found (map id_view found.now) (id_view one.now) }
{
    match found.binary_search_by(|other| other.id.as_bytes().cmp(one.id.as_bytes())) {
        Ok(place) => is_same(found[place].token, one.token),
        Err(_) => false,
    }
}

/// Whether two tokens are there, and the same.
fn is_same(one: Option<Token>, other: Option<Token>) -> bool
    ensures { result ≡ told.is_same_token (option_map token_view one)
        (option_map token_view other) }
{
    match (one, other) {
        (Some(one), Some(other)) => one == other,
        _ => false,
    }
}

/// Whether the article under a token was overwritten, by the heads of the buffers.
pub(crate) fn is_overwritten(heads: &[HeadNumbers], token: Option<Token>) -> bool
    ensures { result ≡ told.is_overwritten (map head_view heads.now)
        (option_map token_view token) }
{
    let Some(token) = token else {
        return false;
    };
    match heads.get(usize::from(token.buffer)) {
        Some(head) => has_passed(head, token),
        None => false,
    }
}

/// Whether the front that a head says has passed what lies under a token of its buffer.
fn has_passed(head: &HeadNumbers, token: Token) -> bool
    ensures { result ≡ told.has_passed (head_view head.now) (token_view token) }
{
    let blocks = u128::from(head.blocks);
    let place = u128::from(token.cycle) * blocks + u128::from(token.first);
    let front = u128::from(head.cycle) * blocks + u128::from(head.head);
    place + blocks < front
}
