//! Worked counts, computed.
ghost use Rattle.std.specs.Prelude.{◌≡◌};
ghost use Rattle.live_jobs.specs.Examples as examples;
ghost use Rattle.live_jobs.specs.Mismatches.{mismatched_receipts_in};

use crate::desk::Posted;
use crate::forgetting::Forgotten;
use cyc_buffer::Fault;
use live_store::{Receipt, StorePremises};

/// Three kept answers of two ends, by the receipts of records 3 and 5: where each writer has the
/// same receipt for the job none is a mismatched receipt; where one has another, one told of a
/// failed job, and one more job is in conflict, these are three.
pub fn worked_mismatched_receipts<J: StorePremises>(
    one: &Receipt<J>,
    two: &Receipt<J>,
    posted: &Posted,
    fault: &Fault,
    forgotten: &Forgotten,
)
    requires one { one.now.shown.index ≡ 3 }
    requires two { two.now.shown.index ≡ 5 }
    ensures none { mismatched_receipts_in (examples.answers one.now two.now)
        (examples.all_stand posted.now one.now two.now) ≡ 0 }
    ensures three { mismatched_receipts_in (examples.answers one.now two.now)
        (examples.three_mismatched_receipts posted.now one.now fault.now forgotten.now)
        ≡ 3 }
{}
