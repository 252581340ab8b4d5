//! The journal of a history is folded in.
ghost use Rattle.std.specs.Prelude.{◌≡◌, ◌∷◌, [], None, Some, List, map, IfOk, OnOk};
ghost use Rattle.std.specs.List.{AllByRecursion};
ghost use Rattle.cyc_token.specs.Token.{token_view};
ghost use Rattle.id_history.specs.History.{Holds, Setting};
ghost use Rattle.id_history.specs.Lasting.{AreLasting};
ghost use Rattle.id_history.specs.Room.{HasRoom};
ghost use Rattle.id_history.specs.Shards.{KeepsAll};
ghost use Rattle.id_history.specs.Views.{history_view, id_view};
ghost use Rattle.relay_log.specs.Folding.{IsFolded, all_told, last_said, nothing, told};
ghost use Rattle.relay_log.specs.Journal.{IsEntry};
ghost use Rattle.relay_log.specs.Knowing.{KnowsBefore};
ghost use Rattle.relay_log.specs.Views.{entry_view, journal_view};

use crate::journal::{Entry, Journal};
use cyc_token::Token;
use id_history::{History, KeptId, Shards, Take};
use nntp_text::MsgId;
use std::alloc::{AllocError, Global};
use std::hash::RandomState;

/// The session for which all that is stored was stored: there is no other.
const FOLDING: u64 = 0;

/// The history with what its journal says of message-ids: each id of either is there once, with
/// what was said of it last. An entry whose token names none of so many buffers is left out; takes
/// of feeds aren't folded yet. A journal of another stop leaves the history as it is. It takes a
/// time that is linear in the ids, but for their sort.
pub fn folded(
    alloc: Global,
    hasher: RandomState,
    history: History,
    journal: Journal,
    buffers: u32,
) -> Result<History, AllocError>
    ensures folded { IfOk result (λ new. (setting : Setting) → setting.buffers ≡ buffers
        → IsFolded (history_view history) (journal_view journal) setting (history_view new)) }

    // So it can be written, and read back in a setting that the history held.
    ensures room { IfOk result (λ new. HasRoom history → HasRoom new) }
    ensures holds { IfOk result (λ new. (setting : Setting) → setting.buffers ≡ buffers
        → Holds setting (history_view history)
        → AllByRecursion IsEntry (map entry_view journal.entries.items)
        → Holds setting (history_view new)) }
{
    if journal.stop != history.stop {
        return Ok(history);
    }
    let History {
        stop,
        newest,
        positions,
        feeds,
        ids,
    } = history;
    match ids_folded(alloc, hasher, ids, journal.entries, buffers) {
        Ok(ids) => Ok(History {
            stop,
            newest,
            positions,
            feeds,
            ids,
        }),
        Err(error) => Err(error),
    }
}

/// The ids with what was said of each last, in a store with so many buffers.
fn ids_folded(
    alloc: Global,
    hasher: RandomState,
    ids: Vec<KeptId>,
    entries: Vec<Entry>,
    buffers: u32,
) -> Result<Vec<KeptId>, AllocError>
    ensures { IfOk result (λ new. AreLasting (map id_view new.items)
        (last_said buffers (map id_view ids.items) (map entry_view entries.items))) }
{
    let mut shards = nothing_said(alloc, hasher)?;
    say_entries(&mut shards, entries, buffers)?;
    say_ids(&mut shards, ids)?;
    let new = shards.entries(alloc)?;
    Ok(new)
}

/// Shards to which every message-id is unknown.
fn nothing_said(alloc: Global, hasher: RandomState) -> Result<Shards, AllocError>
    ensures { IfOk result (λ shards. KeepsAll shards nothing) }
{
    let shards = Shards::resume(alloc, hasher, Vec::new(alloc))?;
    Ok(shards)
}

/// What the entries say was said, before all that the shards know: the last of them comes first.
fn say_entries(shards: &mut Shards, entries: Vec<Entry>, buffers: u32) -> Result<(), AllocError>
    ensures { OnOk result (KnowsBefore shards.old shards.new
        (all_told buffers (map entry_view entries.items))) }
{
    let mut left = entries;
    while let Some(entry) = left.pop() {
        say_entry(shards, &entry, buffers)?;
    }
    Ok(())
}

/// The ids are what was said, before all that the shards know: the last of them comes first.
fn say_ids(shards: &mut Shards, ids: Vec<KeptId>) -> Result<(), AllocError>
    ensures { OnOk result (KnowsBefore shards.old shards.new (map id_view ids.items)) }
{
    let mut left = ids;
    while let Some(one) = left.pop() {
        say_id(shards, &one)?;
    }
    Ok(())
}

/// The id is what was said, before all that the shards know.
fn say_id(shards: &mut Shards, one: &KeptId) -> Result<(), AllocError>
    ensures { OnOk result (KnowsBefore shards.old shards.new (id_view one.now ∷ [])) }
{
    match one.token {
        Some(token) => say_stored(shards, &one.id, one.moment, token),
        None => say_refused(shards, &one.id, one.moment),
    }
}

/// What an entry says was said, before all that the shards know.
fn say_entry(shards: &mut Shards, entry: &Entry, buffers: u32) -> Result<(), AllocError>
    ensures { OnOk result (KnowsBefore shards.old shards.new
        (told buffers (entry_view entry.now))) }
{
    match entry {
        Entry::Refused { id, moment } => say_refused(shards, id, *moment),
        Entry::Stored { id, moment, token } => {
            if u32::from(token.buffer) < buffers {
                say_stored(shards, id, *moment, *token)
            } else {
                Ok(())
            }
        }
        Entry::Taken { .. } => Ok(()),
    }
}

/// The id was refused then, where nothing was said of it later.
fn say_refused(shards: &mut Shards, id: &MsgId, moment: u64) -> Result<(), AllocError>
    ensures { OnOk result (KnowsBefore shards.old shards.new
        (record { id = id.now; token = None; moment = moment } ∷ [])) }
{
    shards.refuse(id, FOLDING, moment, None)?;
    Ok(())
}

/// The id is stored under the token since then, where nothing was said of it later.
fn say_stored(shards: &mut Shards, id: &MsgId, moment: u64, token: Token) -> Result<(), AllocError>
    ensures { OnOk result (KnowsBefore shards.old shards.new
        (record { id = id.now; token = Some (token_view token); moment = moment } ∷ [])) }
{
    match shards.take(id, FOLDING)? {
        Take::Mine => {
            // Its feeds have it from the history: the journal says nothing of them here.
            if let Some(settled) = shards.settle(id, FOLDING, token, moment) {
                settled.spend();
            }
        }
        Take::Held | Take::Seen => {}
    }
    Ok(())
}
