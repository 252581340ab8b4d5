//! Ids of which the journal alone says that they are stored, and whose articles a crash has cost,
//! are forgotten: a peer may send them again.
ghost use Rattle.std.specs.Prelude.{◌≡◌, IfErr, IfOk, map};
ghost use Rattle.cyc_block.specs.Heads.{head_view};
ghost use Rattle.id_history.specs.History.{Rises};
ghost use Rattle.id_history.specs.Views.{id_view};
ghost use Rattle.buffer_files.specs.Faults.{IsServeFault};
ghost use Rattle.relay_startup.specs.Unsaved as told;
ghost use Rattle.relay_startup.specs.Unsaved.{AreIdsOf, IsWithoutUnsaved};

use crate::lost::{is_found, is_overwritten};
use crate::stop_number::no_history;
use crate::unstopped::history_of;
use buffer_files::Synced;
use cyc_block::HeadNumbers;
use id_history::{History, HistoryError, KeptId, write};
use relay_conf::Config;
use relay_core::{Stopped, read_history};
use relay_report::ServeError;
use std::alloc::Global;

/// What a repair gave, without the ids that its crash has cost their articles, if the journal alone
/// says that they are stored: `kept` is the text of the last history as it is kept, `last` with the
/// journal folded in, and the heads are those that the repair wrote.
pub fn without_unsaved<S: Synced + Drop>(
    alloc: Global,
    config: &Config,
    kept: &[u8],
    last: &[u8],
    heads: &[HeadNumbers],
    stopped: Stopped<S>,
) -> Result<Stopped<S>, ServeError>
    ensures stores { IfOk result (λ left. left.stores ≡ stopped.stores) }
    ensures text { IfOk result (λ left. IsWithoutUnsaved config.now kept.now last.now
        (map head_view heads.now) stopped.history.items left.history.items) }
    ensures fault { IfErr result (IsServeFault config.now) }
{
    let Stopped {
        stores,
        history: text,
    } = stopped;
    let left = forgotten(alloc, config, kept, last, heads, &text);
    drop(text);
    match left {
        Ok(history) => Ok(Stopped { stores, history }),
        Err(error) => {
            drop(stores);
            Err(no_history(error))
        }
    }
}

/// The text of a history that was made by a repair, without such ids.
fn forgotten(
    alloc: Global,
    config: &Config,
    kept: &[u8],
    last: &[u8],
    heads: &[HeadNumbers],
    text: &[u8],
) -> Result<Vec<u8>, HistoryError>
    ensures { IfOk result (λ left. IsWithoutUnsaved config.now kept.now last.now
        (map head_view heads.now) text.now left.items) }
{
    let kept = ids_of(alloc, config, kept)?;
    let last = ids_of(alloc, config, last)?;
    let history = read_history(alloc, config, text)?;
    let history = forget_unsaved(history, heads, &last, &kept);
    let left = write(alloc, &history);
    drop(history);
    drop(last);
    drop(kept);
    Ok(left?)
}

/// The ids of the history that a text is, none where it is empty.
fn ids_of(alloc: Global, config: &Config, text: &[u8]) -> Result<Vec<KeptId>, HistoryError>
    ensures ids { IfOk result (λ ids. AreIdsOf config.now text.now (map id_view ids.items)) }
    ensures rises { IfOk result (λ ids. Rises (map id_view ids.items)) }
{
    match history_of(text) {
        Some(text) => {
            let History {
                stop: _,
                newest: _,
                positions,
                feeds,
                ids,
            } = read_history(alloc, config, text)?;
            drop(positions);
            drop(feeds);
            Ok(ids)
        }
        None => Ok(Vec::new(alloc)),
    }
}

/// A history without such ids.
fn forget_unsaved(
    history: History,
    heads: &[HeadNumbers],
    last: &[KeptId],
    kept: &[KeptId],
) -> History
    requires last { Rises (map id_view last.now) }
    requires kept { Rises (map id_view kept.now) }
    ensures ids { map id_view result.ids.items ≡ told.left_of (map head_view heads.now)
        (map id_view last.now) (map id_view kept.now) (map id_view history.ids.items) }
    ensures stop { result.stop ≡ history.stop }
    ensures newest { result.newest ≡ history.newest }
    ensures positions { result.positions ≡ history.positions }
    ensures feeds { result.feeds ≡ history.feeds }
{
    let mut left = history;
    left.ids.retain(|one| !is_unsaved(heads, last, kept, one));
    left
}

/// Whether the crash has cost an id its article, of which the journal alone has told: it is listed
/// without one.
fn is_unsaved(heads: &[HeadNumbers], last: &[KeptId], kept: &[KeptId], one: &KeptId) -> bool
    requires last { Rises (map id_view last.now) }
    requires kept { Rises (map id_view kept.now) }
    ensures { result ≡ told.is_unsaved (map head_view heads.now) (map id_view last.now)
        (map id_view kept.now) (id_view one.now) }
{
    if one.token.is_some() {
        return false;
    }
    match last.binary_search_by(|other| other.id.as_bytes().cmp(one.id.as_bytes())) {
        Ok(place) => is_said_since(heads, kept, &last[place]),
        Err(_) => false,
    }
}

/// Whether the journal alone tells of the article of an id, by these ids of the history that is
/// kept, and no front has passed that.
fn is_said_since(heads: &[HeadNumbers], kept: &[KeptId], one: &KeptId) -> bool
    requires kept { Rises (map id_view kept.now) }
    ensures { result ≡ told.is_said_since (map head_view heads.now) (map id_view kept.now)
        (id_view one.now) }
{
    one.token.is_some() && !is_overwritten(heads, one.token) && !is_found(kept, one)
}
