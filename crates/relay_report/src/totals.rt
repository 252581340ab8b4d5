//! The report of a relay in threads, once all its seats have come back.
ghost use Rattle.std.specs.Prelude.{◌≡◌, IfOk};
ghost use Rattle.relay_report.specs.Totals.{text_of_totals};

use crate::figures::Figures;
use crate::text::text_of;
use std::alloc::{AllocError, Global};

/// What is known of a relay in threads once all its seats have come back (docs/PROTOCOL.md,
/// Threads 9).
pub struct Totals {
    /// Its figures, which the report tells.
    pub figures: Figures,
    /// How many jobs the writers kept.
    pub accepted: u64,
    /// How many posts the feed desk made.
    pub posted: u64,
    /// How many kept answers and jobs weren't borne out (docs/PROTOCOL.md, Threads).
    pub mismatched_receipts: u128,
}

// Written out, so that no crate above proves anew how each part is let go.
impl Drop for Totals {
    fn drop(self) {
        let Totals {
            figures: _,
            accepted: _,
            posted: _,
            mismatched_receipts: _,
        } = self;
    }
}

/// The report of the totals (docs/FORMATS.md, Report), in the form of a relay's own. The error is
/// want of memory.
pub fn report_totals(alloc: Global, totals: &Totals) -> Result<Vec<u8>, AllocError>
    ensures { IfOk result (λ text. text.items ≡ text_of_totals totals.now) }
{
    text_of(alloc, &totals.figures)
}
