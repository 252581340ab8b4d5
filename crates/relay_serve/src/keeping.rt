//! What a relay that has run was stopped with is kept.
ghost use Rattle.std.specs.Prelude.{◌≡◌, ◌∷◌, [], Ok, Some, IfErr, IfOk};
ghost use Rattle.relay_serve.specs.RunTotals.{totals_in};
ghost use Rattle.buffer_files.specs.Faults.{IsStopFault};

use crate::running::Finished;
use buffer_files::Synced;
use relay_folder::HistoryPlace;
use relay_report::{ServeError, Totals};
use relay_startup::keep_stopped;

/// Keeps what a relay that has run was stopped with, and gives its totals, where there was memory
/// for them.
pub(crate) fn keep_finished<S: Synced + Drop, H: HistoryPlace>(
    history: &mut H,
    finished: Finished<S>,
) -> Result<Totals, ServeError>
    ensures totals { IfOk result (λ totals. totals_in finished.totals ≡ Ok totals) }
    ensures kept { H.honest history.old → IfOk result (λ totals.
        H.kept history.new ≡ Some finished.stopped.history.items) }
    ensures lasts { H.honest history.old → IfOk result (λ totals.
        H.lasting history.new ≡ Some finished.stopped.history.items ∷ []) }
    ensures fault { IfErr result IsStopFault }
{
    let Finished {
        counted: _,
        totals,
        stopped,
    } = finished;
    totals.told(keep_stopped(history, stopped))
}
