//! The number of the stop that a relay's history is of, or the cause why there is no history.
ghost use Rattle.std.specs.Prelude.{◌≡◌, IfErr, IfOk};
ghost use Rattle.relay_folder.specs.Keeping.{IsAsBefore};
ghost use Rattle.relay_startup.specs.StopNumbers.{IsHistoryFault, IsStopBegun, IsStopIn, TellsNone};
ghost use Rattle.relay_startup.specs.StopNumbers.{no_history_as};
ghost use Rattle.relay_startup.specs.Naming.{IsNamedHistoryFault, IsStopByName};
ghost use Rattle.relay_startup.specs.Naming.{TellsNamedCause, TellsNoneByName};
ghost use Rattle.relay_startup.specs.Causes.{HasStopOrCause, TellsCause, TellsCauseBegun};
ghost use Rattle.std.specs.Prelude.{Some};

use crate::causes::unfit;
use buffer_files::unread;
use history_names::{NamedText, named_text};
use id_history::{HistoryError, read_any};
use relay_conf::Config;
use relay_core::rings;
use relay_folder::{HistoryPlace, Origin};
use relay_report::{HistoryFault, ServeError, StartFault};
use std::alloc::{AllocError, Global};

/// The number of the stop of the history that is kept, which has to be one of this configuration by
/// the names that are kept. Nothing is changed.
pub fn stop_kept<P: HistoryPlace, N: HistoryPlace>(
    alloc: Global,
    config: &Config,
    place: &mut P,
    names: &mut N,
) -> Result<u64, ServeError>
    ensures stop { P.honest place.old → N.honest names.old
        → IfOk result (IsStopByName config.now (N.kept names.old) (P.kept place.old)) }
    ensures none { P.honest place.old → N.honest names.old
        → IfErr result (TellsNoneByName config.now (N.kept names.old) (P.kept place.old)) }
    ensures cause { P.honest place.old → N.honest names.old
        → IfErr result (TellsNamedCause config.now (N.kept names.old) (P.kept place.old)) }
    ensures same { P.honest place.old → P.kept place.new ≡ P.kept place.old }
    ensures names { N.honest names.old → IsAsBefore N.HistoryPlace names.old names.new }
    ensures fault { IfErr result IsNamedHistoryFault }
{
    match place.read(alloc) {
        Ok(Some(text)) => stop_by_name(alloc, config, names, text),
        Ok(None) => Err(ServeError::Start(StartFault::BadHistory(HistoryFault::Missing))),
        Err(error) => Err(unread(error.kind())),
    }
}

/// The number of the stop of a history that is one of this configuration by the names that are
/// kept.
fn stop_by_name<N: HistoryPlace>(
    alloc: Global,
    config: &Config,
    names: &mut N,
    text: Vec<u8>,
) -> Result<u64, ServeError>
    ensures stop { N.honest names.old
        → IfOk result (IsStopByName config.now (N.kept names.old) (Some text.items)) }
    ensures none { N.honest names.old
        → IfErr result (TellsNoneByName config.now (N.kept names.old) (Some text.items)) }
    ensures cause { N.honest names.old
        → IfErr result (TellsNamedCause config.now (N.kept names.old) (Some text.items)) }
    ensures names { N.honest names.old → IsAsBefore N.HistoryPlace names.old names.new }
    ensures fault { IfErr result IsNamedHistoryFault }
{
    let NamedText {
        text,
        known,
        changes,
    } = named_text(alloc, config, names, text)?;
    drop(known);
    drop(changes);
    stop_in(alloc, config, &text)
}

/// The number of the stop of a history that is one of this configuration.
pub(crate) fn stop_in(alloc: Global, config: &Config, text: &[u8]) -> Result<u64, ServeError>
    ensures stop { IfOk result (IsStopIn config.now text.now) }
    ensures none { IfErr result (TellsNone config.now (Some text.now)) }
    ensures cause { IfErr result (TellsCause config.now (Some text.now)) }
    ensures fault { IfErr result IsHistoryFault }
{
    match stop_or_cause(alloc, config, text) {
        Ok(Ok(stop)) => Ok(stop),
        Ok(Err(cause)) => Err(ServeError::Start(StartFault::BadHistory(cause))),
        Err(_) => Err(ServeError::Memory),
    }
}

/// The number of the stop of the history that a text is, or the cause why it is none of this
/// configuration. Reading takes a time that is linear in the text.
fn stop_or_cause(
    alloc: Global,
    config: &Config,
    text: &[u8],
) -> Result<Result<u64, HistoryFault>, AllocError>
    ensures { IfOk result (HasStopOrCause config.now text.now) }
{
    if text.is_empty() {
        return Ok(Err(HistoryFault::Missing));
    }
    let rings = rings(alloc, &config.relay.feeds)?;
    match read_any(alloc, text) {
        Ok(history) => {
            let cause = unfit(config, &rings, &history);
            let stop = history.stop;
            drop(history);
            match cause {
                None => Ok(Ok(stop)),
                Some(cause) => Ok(Err(cause)),
            }
        }
        Err(HistoryError::BadHistory) => Ok(Err(HistoryFault::Text)),
        Err(HistoryError::Memory) => Err(AllocError),
    }
}

/// The number of the stop that a relay goes on from: 0 where it begins from nothing.
pub fn stop_begun(alloc: Global, config: &Config, origin: &Origin) -> Result<u64, ServeError>
    ensures stop { IfOk result (IsStopBegun config.now origin.now) }
    ensures cause { IfErr result (TellsCauseBegun config.now origin.now) }
    ensures fault { IfErr result IsHistoryFault }
{
    match origin {
        Origin::Formatted => Ok(0),
        Origin::Stopped(text) => stop_in(alloc, config, text),
    }
}

/// Why a text isn't read as a history that was read as one before, or was made of one.
pub(crate) fn no_history(error: HistoryError) -> ServeError
    ensures error { result ≡ no_history_as error }
    ensures fault { IsHistoryFault result }
{
    match error {
        HistoryError::Memory => ServeError::Memory,
        HistoryError::BadHistory => ServeError::Start(StartFault::BadHistory(HistoryFault::Text)),
    }
}
