//! What is so of a text that is fetched under the number of a kept answer.
ghost use Rattle.std.specs.Prelude.{◌≡◌, ◌<◌, ℕ, true, IsSomeAnd, List, length, Some, slice_get};
ghost use Rattle.job_queue.specs.declared.parcel.Handed.{Handed};
ghost use Rattle.live_jobs.specs.Gathered.{all_told};
ghost use Rattle.live_jobs.specs.StoreResults.{FitsJob};
ghost use Rattle.live_jobs.specs.Mismatches.{BearsOut};
ghost use Rattle.live_jobs.specs.Texts.{RunJob, ToldJob, IsHandedIn, number_in, octets_in};
ghost use Rattle.live_jobs.specs.Texts.{IsGivenOf, record_of};
ghost use Rattle.live_jobs.specs.Gathered.{AllTold};

use crate::store_result::{KeptJob, StoreResult};
use live_store::{ArticleLog, OneRecord, StorePremises, Text, same_record, same_text};

/// Where a job that a writer told of bears out a kept answer of an end, a text that is fetched
/// whole under the answer's register number is that of a job of the answer's number which the end
/// handed over: in any thread, over honest stores.
///
/// The premises are what is known of a run once all seats have come back: `serve_all` of relay_live
/// says `told` of its lists (`jobs`); where it counted no mismatched receipts,
/// `mismatched_receipts` (`borne_out`) gives for each kept answer of each end a job that bears it
/// out, among all that were told of; and that is one by `is_told_job`.
pub fn fetched_is_handed_in<J: StorePremises>(
    register: &ArticleLog,
    text: &Text<J>,
    answer: &KeptJob<J>,
    outcome: &StoreResult<J>,
)
    ghost job: { RunJob J J.StorePremises }
    requires outcome { outcome.now ≡ job.finished.outcome }
    requires register { register.now ≡ J.register }
    requires number { number_in text.now ≡ answer.now.register }
    requires told { AllTold (FitsJob J.holds) job.run.finished_lists job.run.hands }
    requires among { ToldJob job.run job.finished }
    requires borne { BearsOut job.run.end answer.now job.finished }
    ensures { J.trusted ≡ true
        → ∥ IsHandedIn job.run.hands job.run.end answer.now.number (octets_in text.now) ∥₁ }
{
    if let StoreResult::Kept(receipt, _) = outcome {
        same_text(register, text, receipt.shown());
    }
}

/// Where a job that a writer told of bears out a kept answer of an end, what a session reads of the
/// record of the answer's register number is, block by block, the text of a job of the answer's
/// number which the end handed over: in any thread, over honest stores. What it reads is what
/// `Shares::read` of live_session gives, which says of each chunk that it is one of the record that
/// the session's reads are of (`chunk`), and that these keep to their record (`kept`).
///
/// The premises are those of `fetched_is_handed_in`, but that the reads are of the answer's record.
pub fn given_is_handed_in<J: StorePremises>(
    register: &ArticleLog,
    reads: &OneRecord<J>,
    answer: &KeptJob<J>,
    outcome: &StoreResult<J>,
)
    ghost job: { RunJob J J.StorePremises }
    requires outcome { outcome.now ≡ job.finished.outcome }
    requires register { register.now ≡ J.register }
    requires number { IsSomeAnd (record_of reads.now) (λ own. own.index ≡ answer.now.register) }
    requires told { AllTold (FitsJob J.holds) job.run.finished_lists job.run.hands }
    requires among { ToldJob job.run job.finished }
    requires borne { BearsOut job.run.end answer.now job.finished }
    ensures { ∥ IsGivenOf J.register (record_of reads.now) job.run.hands job.run.end
        answer.now.number ∥₁ }
{
    if let StoreResult::Kept(receipt, _) = outcome {
        same_record(register, reads, receipt.shown());
    }
}

/// A job that stands among all that the writers told of is one that the writer of some group told
/// of. `serve_all` of relay_live says of its lists that there is one of each end (`lefts`), in it
/// one for each group (`lists`), and as many writers as groups (`writers`).
pub fn is_told_job<J: StorePremises>()
    ghost job: { RunJob J J.StorePremises }
    requires told { (j : ℕ) × (slice_get (all_told job.run.finished_lists) j ≡ Some job.finished) }
    requires ends { job.run.end < length job.run.hands }
    requires lists { (e : ℕ) (lists : List (List Handed)) → slice_get job.run.hands e ≡ Some lists
        → length lists ≡ length job.run.finished_lists }
    ensures { ∥ ToldJob job.run job.finished ∥₁ }
{}
