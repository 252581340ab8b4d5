//! The history of a relay that is found again.
ghost use Rattle.std.specs.Prelude.{◌≡◌, ◌<◌, ◌^◌, ℕ, length, map, IfOk};
ghost use Rattle.feed_queue.specs.Left.{AreLeft};
ghost use Rattle.id_history.specs.History.{Holds};
ghost use Rattle.id_history.specs.History as terms;
ghost use Rattle.id_history.specs.Lasting.{AreLasting};
ghost use Rattle.id_history.specs.Room.{HasRoom};
ghost use Rattle.id_history.specs.Views.{feed_view, history_view, id_view};
ghost use Rattle.relay_facts.specs.Started.{newest_kept};
ghost use Rattle.relay_model.specs.Crash.{Found, claim_again, state_again};
ghost use Rattle.relay_model.specs.Terms.{Terms};
ghost use Rattle.found_again.specs.Texts.{FitsSetting, IsOf, ids_listed, newest_of};

use crate::feeds::feeds_again;
use crate::finding::ids_again;
use crate::text::FoundText;
use id_history::{History, KeptId};
use std::alloc::{AllocError, Global};
use std::hash::RandomState;

/// The history of a relay that is found again at this moment, under this number of a stop: with
/// these texts, the newest last; with the history of its last stop, if there was one; with these
/// positions of its groups; and with feeds whose rings have room for so many tokens each.
pub fn history_again(
    alloc: Global,
    hasher: RandomState,
    texts: &[FoundText],
    old: Option<&History>,
    positions: Vec<u32>,
    rings: &[u32],
    stop: u64,
    now: u64,
) -> Result<History, AllocError>
    // An id is stored under its text's token since now, or remembered as refused where it is listed
    // alone; each feed has the newest that it may have, as many as its ring holds.
    ensures ids { IfOk result (λ history. (w : Terms) (found : Found)
        → IsOf w texts.now old.entry rings.now now found
        → AreLasting (map id_view history.ids.items) (claim_again found)) }
    ensures feeds { IfOk result (λ history. (w : Terms) (found : Found)
        → IsOf w texts.now old.entry rings.now now found
        → AreLeft (map feed_view history.feeds.items) rings.now (state_again w found).feed) }

    // The rest is as it was, or as it is given.
    ensures newest { IfOk result (λ history.
        history.newest ≡ newest_kept (newest_of old.entry)) }
    ensures stop { IfOk result (λ history. history.stop ≡ stop) }
    ensures positions { IfOk result (λ history. history.positions ≡ positions) }

    // So it can be written, and read back in a setting to which all fits.
    ensures room { IfOk result (λ history. length positions.items < 2 ^ 32
        → length rings.now < 2 ^ 32 → HasRoom history) }
    ensures holds { IfOk result (λ history. (setting : terms.Setting)
        → FitsSetting setting texts.now old.entry positions.items rings.now now
        → Holds setting (history_view history)) }
{
    let feeds = feeds_again(alloc, texts, rings)?;
    let ids = ids_again(alloc, hasher, texts, listed_in(old), now)?;
    let newest = match old {
        Some(old) => old.newest,
        None => 0,
    };
    Ok(History {
        stop,
        newest,
        positions,
        feeds,
        ids,
    })
}

/// The message-ids that a history lists; none without one.
fn listed_in(old: Option<&History>) -> &[KeptId]
    ensures { result.now ≡ ids_listed old.entry }
{
    match old {
        Some(old) => &old.ids,
        None => &[],
    }
}
