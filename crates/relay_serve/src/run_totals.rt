//! The totals of a run, before its history is kept.
ghost use Rattle.std.specs.Prelude.{◌≡◌, Ok, IfErr, IfOk, IsOk, OnOk};
ghost use Rattle.relay_serve.specs.RunTotals.{totals_in};
ghost use Rattle.buffer_files.specs.Faults.{IsStopFault};

use relay_report::{ServeError, Totals};
use std::alloc::AllocError;

/// The totals of a run, or that there was no memory for them. Nobody sees which before it was tried
/// to keep the history: a relay is stopped, and its history kept, without totals too.
#[derive(Drop)]
pub(crate) struct RunTotals {
    totals: Result<Totals, AllocError>,
}

impl RunTotals {
    /// These, or that there was no memory for them.
    pub(crate) fn of(totals: Result<Totals, AllocError>) -> RunTotals
        ensures { totals_in result ≡ totals }
    {
        RunTotals { totals }
    }

    /// The totals, once it was tried to keep the history. Where that failed, that is told first.
    pub(crate) fn told(self, kept: Result<(), ServeError>) -> Result<Totals, ServeError>
        ensures totals { IfOk result (λ totals. totals_in self ≡ Ok totals) }
        ensures kept { OnOk result (IsOk kept) }
        ensures fault { IfErr kept IsStopFault → IfErr result IsStopFault }
    {
        match kept {
            Ok(()) => match self.totals {
                Ok(totals) => Ok(totals),
                Err(_) => Err(ServeError::Memory),
            },
            Err(error) => Err(error),
        }
    }
}
