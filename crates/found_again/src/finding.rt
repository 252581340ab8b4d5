//! The message-ids of a relay that is found again.
ghost use Rattle.std.specs.Prelude.{◌≡◌, ◌<◌, ◌≤◌, ℕ, List, All, map, IfOk, OnOk};
ghost use Rattle.std.specs.List.{AllByRecursion, AllZip};
ghost use Rattle.cyc_token.specs.Token.{token_view};
ghost use Rattle.id_history.specs.Changes.{ChangesClaim};
ghost use Rattle.id_history.specs.History.{IdHolds, Rises};
ghost use Rattle.id_history.specs.Lasting.{AreLasting};
ghost use Rattle.id_history.specs.Shards.{KeepsAll};
ghost use Rattle.id_history.specs.Views.{id_view};
ghost use Rattle.relay_model.specs.Claims.{Claim, Unknown};
ghost use Rattle.relay_model.specs.Crash.{Found, claim_again};
ghost use Rattle.relay_model.specs.Terms.{Terms, last_moment};
ghost use Rattle.found_again.specs.Finding.{after_found, all_found, all_refused};
ghost use Rattle.found_again.specs.Texts.{HasSome, IsText, listed_view};

use crate::text::FoundText;
use cyc_token::Token;
use id_history::{KeptId, Shards, Take};
use nntp_text::MsgId;
use std::alloc::{AllocError, Global};
use std::hash::RandomState;

/// The session for which all that is found is stored: there is no other.
pub(crate) const REPAIR: u64 = 0;

/// Shards to which every message-id is unknown.
pub(crate) fn nothing_known(alloc: Global, hasher: RandomState) -> Result<Shards, AllocError>
    ensures { IfOk result (λ shards. KeepsAll shards (λ id. Unknown)) }
{
    let shards = Shards::resume(alloc, hasher, Vec::new(alloc))?;
    Ok(shards)
}

/// A text of the id is found under this token: it is stored since now, where nothing is known of
/// it.
fn find(shards: &mut Shards, id: &MsgId, token: Token, now: u64) -> Result<(), AllocError>
    ensures { OnOk result (ChangesClaim (KeepsAll shards.old) (KeepsAll shards.new) id.now
        (after_found (token_view token) now)) }
{
    match shards.take(id, REPAIR)? {
        Take::Mine => {
            // Its feeds gain it elsewhere: each has room for some of what is found alone.
            if let Some(settled) = shards.settle(id, REPAIR, token, now) {
                settled.spend();
            }
        }
        Take::Held | Take::Seen => {}
    }
    Ok(())
}

/// The texts are found, in turn.
fn find_all(shards: &mut Shards, texts: &[FoundText], now: u64) -> Result<(), AllocError>
    ensures keeps { OnOk result ((claims : List ℕ → Claim) → KeepsAll shards.old claims
        → KeepsAll shards.new (all_found now claims texts.now)) }
    ensures some { OnOk result (AllByRecursion HasSome texts.now) }
{
    for text in texts {
        if let Some(id) = &text.id {
            let _octets = id.as_bytes();
            find(shards, id, text.token, now)?;
        }
    }
    Ok(())
}

/// The ids were refused, each at its moment, where nothing is known of them.
fn refuse_all(shards: &mut Shards, listed: &[KeptId]) -> Result<(), AllocError>
    ensures { OnOk result ((claims : List ℕ → Claim) → KeepsAll shards.old claims
        → KeepsAll shards.new (all_refused claims listed.now)) }
{
    for one in listed {
        shards.refuse(&one.id, REPAIR, one.moment, None)?;
    }
    Ok(())
}

/// The ids that are remembered of a relay that is found again at this moment, with these texts,
/// and with these ids listed. What is found is put first: where it is listed too, that is past.
pub(crate) fn ids_again(
    alloc: Global,
    hasher: RandomState,
    texts: &[FoundText],
    listed: &[KeptId],
    now: u64,
) -> Result<Vec<KeptId>, AllocError>
    ensures ids { IfOk result (λ ids. (w : Terms) (found : Found)
        → AllZip (IsText w) texts.now found.texts → found.listed ≡ map listed_view listed.now
        → found.moment ≡ now → AreLasting (map id_view ids.items) (claim_again found)) }
    ensures rises { IfOk result (λ ids. Rises (map id_view ids.items)) }
    ensures holds { IfOk result (λ ids. (buffers : ℕ)
        → All (λ (text : FoundText). text.token.buffer < buffers) texts.now
        → All (λ (one : KeptId). one.moment ≤ last_moment) listed.now → now ≤ last_moment
        → AllByRecursion (IdHolds buffers) (map id_view ids.items)) }
{
    let mut shards = nothing_known(alloc, hasher)?;
    find_all(&mut shards, texts, now)?;
    refuse_all(&mut shards, listed)?;
    let ids = shards.entries(alloc)?;
    Ok(ids)
}
