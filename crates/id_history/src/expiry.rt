//! What may be forgotten (docs/PROTOCOL.md, Forgetting), and which offers have run out (Claims).
ghost use Rattle.std.specs.Prelude.{◌≡◌, ◌+◌, ◌*◌, map, nat_le, nat_lt};
ghost use Rattle.cyc_token.specs.Token.{token_view};
ghost use Rattle.relay_model.specs.Claims as claims;
ghost use Rattle.id_history.specs.Expiry.{passed_view};

use cyc_buffer::Front;
use cyc_token::Token;

/// Whether the front has passed what lies under the token, which is one of its buffer.
fn has_passed(front: &Front, token: Token) -> bool
    ensures { result ≡ nat_lt
        (token.cycle * front.now.blocks + token.first + front.now.blocks) front.now.front }
{
    let blocks = u128::from(front.blocks());
    let place = u128::from(token.cycle) * blocks + u128::from(token.first);
    place + blocks < u128::from(front.front())
}

/// Whether the front that was read of the token's buffer has passed what lies under the token.
pub(crate) fn is_passed(fronts: &[Front], token: Token) -> bool
    ensures { result ≡ claims.is_passed (map passed_view fronts.now) (token_view token) }
{
    let mut left = fronts;
    while let Some((one, others)) = left.split_first() {
        if one.buffer() == token.buffer {
            return has_passed(one, token);
        }
        left = others;
    }
    false
}

/// Whether what was so at a moment has been remembered long enough.
pub(crate) fn is_over(moment: u64, remember: u64, now: u64) -> bool
    ensures { result ≡ nat_le (moment + remember) now }
{
    u128::from(moment) + u128::from(remember) <= u128::from(now)
}

/// Whether an offer that was made then has run out now, where offers last so many seconds.
pub fn has_run_out(lasting: Option<u64>, since: u64, now: u64) -> bool
    ensures { result ≡ claims.has_run_out lasting since now }
{
    match lasting {
        Some(seconds) => u128::from(since) + u128::from(seconds) < u128::from(now),
        None => false,
    }
}
