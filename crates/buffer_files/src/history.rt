//! The history of a relay is read and kept (docs/FORMATS.md, History file).
ghost use Rattle.std.specs.Prelude.{◌≡◌, ◌⊎◌, ◌∷◌, [], Some, IfErr, IfOk, IsTrue, OnErr, OnOk};
ghost use Rattle.relay_folder.specs.Keeping.{IsNotKept, IsNotTakenAway};
ghost use Rattle.relay_folder.specs.Origin.{begins_from, origin_view, IsFormatted};
ghost use Rattle.buffer_files.specs.History.{IsForgotten, IsOriginFault, kept_by};
ghost use Rattle.buffer_files.specs.Faults.{IsStopFault};
ghost use Rattle.relay_report.specs.declared.fault.ServeError.TheVariants as faults;
ghost use Rattle.relay_report.specs.declared.keeping.StopFault.TheVariants as stops;

use relay_folder::{HistoryPlace, Origin, keep, origin_of, take_away};
use relay_report::{ServeError, StartFault, StopFault};
use std::alloc::Global;
use std::io::ErrorKind;

/// What a relay begins from: `fresh` asks for nothing, `blank` says that nothing was kept in any
/// buffer's file. The error is want of memory, or that the history can't be read, or not be taken
/// away where all is to be formatted.
pub(crate) fn begun_from<P: HistoryPlace>(
    alloc: Global,
    place: &mut P,
    fresh: bool,
    blank: bool,
) -> Result<Origin, ServeError>
    ensures origin { P.honest place.old → IfOk result (λ origin.
        origin_view origin ≡ begins_from fresh blank (P.kept place.old)) }
    // From nothing only where that is asked for, or no buffer was kept, whatever the place gives.
    ensures formatted { IfOk result (λ origin. IsFormatted origin
        → IsTrue fresh ⊎ IsTrue blank) }
    ensures kept { P.honest place.old → OnOk result (P.kept place.new
        ≡ kept_by fresh (P.kept place.old)) }
    ensures refused { P.honest place.old
        → OnErr result (IsNotTakenAway P.HistoryPlace place.old place.new) }
    ensures fault { IfErr result IsOriginFault }
{
    match origin_of(alloc, place, fresh, blank) {
        Ok(origin) => Ok(origin),
        Err(error) => Err(unread(error.kind())),
    }
}

/// Takes the text of a place away for good, before all is formatted. The error is want of memory,
/// or that it can't be taken away.
pub(crate) fn forget<P: HistoryPlace>(place: &mut P) -> Result<(), ServeError>
    ensures gone { OnOk result (IsForgotten P.HistoryPlace place.old place.new) }
    ensures refused { P.honest place.old
        → OnErr result (IsNotTakenAway P.HistoryPlace place.old place.new) }
    ensures fault { IfErr result IsOriginFault }
{
    match take_away(place) {
        Ok(()) => Ok(()),
        Err(error) => Err(unread(error.kind())),
    }
}

/// Why it isn't known what a relay begins from.
pub fn unread(kind: ErrorKind) -> ServeError
    ensures { IsOriginFault result }
{
    match kind {
        ErrorKind::OutOfMemory => ServeError::Memory,
        _ => ServeError::Start(StartFault::History),
    }
}

/// Keeps the history of a relay that was stopped.
pub fn keep_history<P: HistoryPlace>(place: &mut P, text: &[u8]) -> Result<(), ServeError>
    ensures kept { P.honest place.old → OnOk result (P.kept place.new ≡ Some text.now) }
    ensures lasts { P.honest place.old
        → OnOk result (P.lasting place.new ≡ Some text.now ∷ []) }
    ensures refused { P.honest place.old
        → OnErr result (IsNotKept P.HistoryPlace text.now place.old place.new) }
    ensures fault { IfErr result (λ error. error ≡ faults.Stop stops.History) }
    ensures stop { IfErr result IsStopFault }
{
    match keep(place, text) {
        Ok(()) => Ok(()),
        Err(_) => Err(ServeError::Stop(StopFault::History)),
    }
}
