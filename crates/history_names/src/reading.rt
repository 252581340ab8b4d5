//! The text of a history is taken by name.
ghost use Rattle.std.specs.Prelude.{◌≡◌, [], None, Some, IfErr, IfOk, false, option_map};
ghost use Rattle.history_names.specs.Named.{IsAs, IsNamed, IsNamedFault, IsNamesFault, IsNoneOr};
ghost use Rattle.history_names.specs.Named.{TellsChanged, TellsChanges, TellsNames, named_known};
ghost use Rattle.history_names.specs.Named.{told_at};
ghost use Rattle.id_history.specs.Views.{history_view};
ghost use Rattle.named_history.specs.Naming.{is_of as is_of_kept};
ghost use Rattle.relay_folder.specs.Keeping.{IsAsBefore};
ghost use Rattle.relay_names.specs.Views.{names_view};
ghost use Rattle.relay_report.specs.declared.fault.ServeError.TheVariants as faults;
ghost use Rattle.relay_report.specs.declared.keeping.HistoryFault.TheVariants as causes;
ghost use Rattle.relay_report.specs.declared.keeping.StartFault.TheVariants as starts;

use crate::changes::told_changes;
use id_history::{History, HistoryError, read_any};
use named_history::{is_of, text_by};
use relay_conf::Config;
use relay_core::rings;
use relay_folder::HistoryPlace;
use relay_names::{Names, NamesError, names_of, read_names};
use relay_report::{HistoryFault, ServeError, StartFault};
use std::alloc::Global;
use std::io::ErrorKind;

/// The text of a history, as a start goes by it.
pub struct NamedText {
    pub text: Vec<u8>,
    /// The names of the history that was read; `None` where they aren't known.
    pub known: Option<Names>,
    /// What has changed by name, a line each; nothing where the names aren't known.
    pub changes: Vec<u8>,
}

/// The text of a history by the names that are kept at a place: as a relay of this configuration
/// has it, where they are known, else as it is. Nothing is changed at the place.
pub fn named_text<N: HistoryPlace>(
    alloc: Global,
    config: &Config,
    place: &mut N,
    text: Vec<u8>,
) -> Result<NamedText, ServeError>
    ensures named { N.honest place.old
        → IfOk result (IsNamed config.now (N.kept place.old) text.items) }
    ensures changes { IfOk result (TellsChanges config.now text.items) }
    ensures bad { N.honest place.old
        → IfErr result (TellsNames config.now (N.kept place.old) text.items) }
    ensures same { N.honest place.old → IsAsBefore N.HistoryPlace place.old place.new }
    ensures honest { N.honest place.old → N.honest place.new }
    ensures fault { IfErr result IsNamedFault }
{
    match place.read(alloc) {
        Ok(Some(names)) => text_by_names(alloc, config, &names, text),
        Ok(None) => Ok(unnamed(alloc, text)),
        Err(error) => {
            drop(text);
            Err(unread(error.kind()))
        }
    }
}

/// Why the names can't be read.
pub(crate) fn unread(kind: ErrorKind) -> ServeError
    ensures { IsNamesFault result }
{
    match kind {
        ErrorKind::OutOfMemory => ServeError::Memory,
        _ => ServeError::Start(StartFault::Names),
    }
}

/// The text as it is, of which no names are known.
fn unnamed(alloc: Global, text: Vec<u8>) -> NamedText
    ensures text { result.text ≡ text }
    ensures known { result.known ≡ None }
    ensures changes { result.changes.items ≡ [] }
{
    NamedText {
        text,
        known: None,
        changes: Vec::new(alloc),
    }
}

/// The text of a history by this text of names.
fn text_by_names(
    alloc: Global,
    config: &Config,
    names: &[u8],
    text: Vec<u8>,
) -> Result<NamedText, ServeError>
    ensures named { IfOk result (IsNamed config.now (Some names.now) text.items) }
    ensures changes { IfOk result (TellsChanges config.now text.items) }
    ensures bad { IfErr result (TellsNames config.now (Some names.now) text.items) }
    ensures fault { IfErr result IsNamedFault }
{
    // Nothing is asked of a text that is no history: whoever starts from it tells why.
    let history = match read_any(alloc, &text) {
        Ok(history) => history,
        Err(HistoryError::BadHistory) => return Ok(unnamed(alloc, text)),
        Err(HistoryError::Memory) => {
            drop(text);
            return Err(ServeError::Memory);
        }
    };
    match known_at(alloc, names, history.stop) {
        Ok(Some(known)) => {
            drop(text);
            text_known(alloc, config, known, history)
        }
        Ok(None) => {
            drop(history);
            Ok(unnamed(alloc, text))
        }
        Err(error) => {
            drop(history);
            drop(text);
            Err(error)
        }
    }
}

/// The names that a text of names tells of the history of this stop, none where it tells nothing.
fn known_at(alloc: Global, names: &[u8], stop: u64) -> Result<Option<Names>, ServeError>
    ensures known { IfOk result (λ known.
        told_at names.now stop ≡ Some (option_map names_view known)) }
    ensures bad { IfErr result (IsNoneOr (told_at names.now stop ≡ None)) }
{
    if names.is_empty() {
        return Ok(None);
    }
    match read_names(alloc, names) {
        Ok(told) => Ok(told.into_names_at(stop)),
        Err(NamesError::BadNames) => Err(bad_names()),
        Err(NamesError::Memory) => Err(ServeError::Memory),
    }
}

/// The text of a history with these names, as a relay of the configuration has it.
fn text_known(
    alloc: Global,
    config: &Config,
    known: Names,
    history: History,
) -> Result<NamedText, ServeError>
    ensures named { IfOk result (IsAs (named_known config.now (names_view known)
        (history_view history))) }
    ensures changes { IfOk result (TellsChanged config.now (Some (history_view history))) }
    ensures bad { IfErr result (IsNoneOr
        (is_of_kept (names_view known) (history_view history) ≡ false)) }
{
    if !is_of(&known, &history) {
        drop(history);
        drop(known);
        return Err(bad_names());
    }
    let own = names_of(alloc, config)?;
    let rings = rings(alloc, &config.relay.feeds)?;
    let changes = told_changes(alloc, &known, &own, &rings, &history)?;
    let text = text_by(alloc, &known, &own, &rings, history)?;
    drop(own);
    Ok(NamedText {
        text,
        known: Some(known),
        changes,
    })
}

/// There is no history, for its names.
fn bad_names() -> ServeError
    ensures { result ≡ faults.Start (starts.BadHistory causes.Names) }
{
    ServeError::Start(StartFault::BadHistory(HistoryFault::Names))
}
