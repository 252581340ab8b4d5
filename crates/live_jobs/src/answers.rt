//! Kept answers whose writers have no such receipt (docs/PROTOCOL.md, Threads).
ghost use Rattle.std.specs.Prelude.{◌≡◌, ◌<◌, ◌^◌, ◌||◌, ℕ, map, IfOk, OnOk};
ghost use Rattle.std.specs.List.{list_any};
ghost use Rattle.live_jobs.specs.Gathered.{all_told};
ghost use Rattle.live_jobs.specs.Sets.{has_job, unlisted_of, unlisted_from};
ghost use Rattle.live_jobs.specs.Mismatches.{mismatched_receipts_in, conflicts_in, is_receipt_of};
ghost use Rattle.live_jobs.specs.Mismatches.{AllBorneOut};
ghost use Rattle.live_jobs.specs.Mismatches.{NoneConflicts};

use crate::finished::FinishedList;
use crate::store_result::{KeptJob, StoreResult};
use crate::writer::WriterSeat;
use live_store::StorePremises;
use std::alloc::{AllocError, Global};
use std::collections::BTreeSet;
use std::sync::ledger::Ledger;

/// The number of the kept answers whose register number isn't that of the writer's receipt for the
/// same job, plus the number of the jobs that are in conflict (docs/PROTOCOL.md, Threads 11). The
/// answers stand in a list for each end, in the order of the ends' numbers. The error is want of
/// memory.
pub fn mismatched_receipts<L: Ledger, J: StorePremises>(
    alloc: Global,
    answers: &[&[KeptJob<J>]],
    writers: &[WriterSeat<L, StoreResult<J>>],
) -> Result<u128, AllocError>
    ensures count { IfOk result (λ n. n ≡ mismatched_receipts_in (map (λ a. a.now) answers.now)
        (map (λ w. w.finished.items) writers.now)) }
    // Where there is none, each kept answer is borne out by its writer, and no job is in conflict.
    ensures borne_out { IfOk result (λ n. n ≡ 0 → AllBorneOut (map (λ a. a.now) answers.now)
        (all_told (map (λ w. w.finished.items) writers.now))) }
    ensures none_conflicts { IfOk result (λ n. n ≡ 0
        → NoneConflicts (all_told (map (λ w. w.finished.items) writers.now))) }
{
    let mut jobs = BTreeSet::new(alloc);
    let mut conflict = 0u128;
    for writer in writers {
        conflict += add_jobs(&mut jobs, &writer.finished)? as u128;
    }
    Ok(conflict + all_mismatched(&jobs, answers))
}

/// The kept jobs of which writers tell: end, number, and the number of the record.
type Jobs = BTreeSet<(u64, u64, usize)>;

/// Adds the kept jobs, and says how many are in conflict.
fn add_jobs<J: StorePremises>(
    jobs: &mut Jobs,
    finished: &FinishedList<StoreResult<J>>,
) -> Result<u64, AllocError>
    ensures jobs { OnOk result ((end number register : ℕ) → has_job jobs.new end number register
        ≡ (has_job jobs.old end number register
        || list_any (is_receipt_of end number register) finished.now.items)) }
    ensures conflict { IfOk result (λ n. n ≡ conflicts_in finished.now.items) }
    ensures few { IfOk result (λ n. n < 2 ^ 63) }
{
    let mut conflict = 0;
    let told = finished.all();
    for one in told {
        match &one.outcome {
            StoreResult::Kept(receipt, _) => {
                jobs.insert((one.end, one.number, receipt.number()))?;
                continue;
            }
            StoreResult::Failed(_, _) => continue,
            StoreResult::Conflict(_) => conflict += 1,
        }
    }
    Ok(conflict)
}

/// How many answers of the end are for no kept job of the set.
fn mismatched<J: StorePremises>(jobs: &Jobs, end: u64, answers: &[KeptJob<J>]) -> u64
    ensures count { result ≡ unlisted_of jobs.now end answers.now }
    ensures few { result < 2 ^ 62 }
{
    let mut mismatched = 0;
    for answer in answers {
        let job = (end, answer.number, answer.register);
        if jobs.contains(&job) {
            continue;
        }
        mismatched += 1;
    }
    mismatched
}

/// How many answers of all ends are for no kept job of the set.
fn all_mismatched<J: StorePremises>(jobs: &Jobs, answers: &[&[KeptJob<J>]]) -> u128
    ensures count { result ≡ unlisted_from jobs.now 0 (map (λ a. a.now) answers.now) }
    ensures few { result < 2 ^ 126 }
{
    let mut all = 0u128;
    for end in 0..answers.len() {
        all += mismatched(jobs, end as u64, answers[end]) as u128;
    }
    all
}
