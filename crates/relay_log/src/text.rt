//! A journal is folded in to the text of a history.
ghost use Rattle.std.specs.Prelude.{◌≡◌, IfErr, IfOk, Option};
ghost use Rattle.id_history.specs.History as terms;
ghost use Rattle.id_history.specs.History.{Holds, Kept};
ghost use Rattle.id_history.specs.Room.{HasRoom};
ghost use Rattle.id_history.specs.Views.{history_view, setting_view};
ghost use Rattle.id_history.specs.declared.fault.HistoryError.TheVariants as errors;
ghost use Rattle.relay_log.specs.FoldedText.{IsFoldedBy, IsTextOf, IsTextWith};
ghost use Rattle.relay_log.specs.Journal.{Journal};

use crate::folding::folded;
use crate::reading;
use id_history::{History, HistoryError, Setting, read, write};
use std::alloc::{AllocError, Global};
use std::hash::RandomState;

/// The text of a history with its journal folded in, by the texts of both. A text that is no
/// journal leaves the history as it is, and one that is torn is folded in as far as it is read.
pub fn folded_text(
    alloc: Global,
    hasher: RandomState,
    text: &[u8],
    journal: &[u8],
    setting: &Setting,
) -> Result<Vec<u8>, HistoryError>
    ensures folded { IfOk result (λ new.
        IsTextWith (setting_view setting.now) text.now journal.now new.items) }

    // It is told that the text is no history of the setting only where that is so.
    ensures bad { IfErr result (λ error. error ≡ errors.BadHistory
        → (kept : Kept) → ¬ IsTextOf (setting_view setting.now) kept text.now) }
{
    let history = read(alloc, text, setting)?;
    let new = history_with(alloc, hasher, history, journal, setting.buffers)?;
    let written = write(alloc, &new)?;
    Ok(written)
}

/// The history with the journal folded in that the text begins with, as it is where that is none.
/// An entry whose token names none of so many buffers is left out.
pub fn history_with(
    alloc: Global,
    hasher: RandomState,
    history: History,
    text: &[u8],
    buffers: u32,
) -> Result<History, AllocError>
    ensures folded { IfOk result (λ new. (setting : terms.Setting) → setting.buffers ≡ buffers
        → (found : Option Journal)
        × IsFoldedBy (history_view history) text.now setting (history_view new) found) }
    ensures room { IfOk result (λ new. HasRoom history → HasRoom new) }
    ensures holds { IfOk result (λ new. (setting : terms.Setting) → setting.buffers ≡ buffers
        → Holds setting (history_view history) → Holds setting (history_view new)) }
{
    match reading::read(alloc, text)? {
        Some(journal) => folded(alloc, hasher, history, journal, buffers),
        None => Ok(history),
    }
}
