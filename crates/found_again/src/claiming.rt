//! Which text has a message-id, of several that are found of it.
ghost use Rattle.std.specs.Prelude.{◌≡◌, ◌∷◌, ◌≤◌, ℕ, List, count_by, IfOk, OnOk};
ghost use Rattle.std.specs.List.{list_any};
ghost use Rattle.id_history.specs.Shards.{KeepsAll};
ghost use Rattle.found_again.specs.Claiming.{claimed_by_last, has_id, is_had};
ghost use Rattle.found_again.specs.Taken.{taken};

use crate::finding::{REPAIR, nothing_known};
use crate::text::FoundText;
use id_history::{Shards, Take};
use nntp_text::MsgId;
use std::alloc::{AllocError, Global};
use std::hash::RandomState;

/// The texts, the newest last, in their order: of several of one message-id the last has it, and
/// the others are no id's. Those can be read by their tokens alone.
pub fn claim_ids(
    alloc: Global,
    hasher: RandomState,
    texts: Vec<FoundText>,
) -> Result<Vec<FoundText>, AllocError>
    ensures last { IfOk result (λ claimed. claimed.items ≡ claimed_by_last texts.items) }

    // So each id has one text, and each that had one has one still.
    ensures once { IfOk result (λ claimed. (id : List ℕ)
        → count_by (has_id id) claimed.items ≤ 1) }
    ensures kept { IfOk result (λ claimed. (id : List ℕ)
        → list_any (has_id id) claimed.items ≡ list_any (has_id id) texts.items) }
{
    let mut known = nothing_known(alloc, hasher)?;
    let mut newest_first = Vec::with_capacity(alloc, texts.len())?;
    let mut left = texts;
    while let Some(text) = left.pop() {
        let had = is_taken(&mut known, &text.id)?;
        newest_first.push(text.unless_had(had))?;
    }
    newest_first.reverse();
    Ok(newest_first)
}

/// Whether the id, if there is one, was taken before; from now on it is.
fn is_taken(known: &mut Shards, id: &Option<MsgId>) -> Result<bool, AllocError>
    ensures answer { IfOk result (λ answer. (later : List FoundText)
        → KeepsAll known.old (taken later) → answer ≡ is_had id.now later) }
    ensures after { OnOk result ((text : FoundText) (later : List FoundText)
        → text.id ≡ id.now → KeepsAll known.old (taken later)
        → KeepsAll known.new (taken (text ∷ later))) }
{
    match id {
        None => Ok(false),
        Some(id) => match known.take(id, REPAIR)? {
            Take::Mine => Ok(false),
            Take::Held | Take::Seen => Ok(true),
        },
    }
}
