//! What became of a job, and what a session is told of it.
ghost use Rattle.std.specs.Prelude.{◌≡◌};
ghost use Rattle.boxcar.specs.Table.{Shows, Where};
ghost use Rattle.live_jobs.specs.StoreResults.{IsAnswerOf};
ghost use Rattle.live_store.specs.declared.writing.entering.Record.{Record};

use crate::desk::Posted;
use crate::forgetting::Forgotten;
use crate::outcome::Outcome;
use cyc_buffer::Fault;
use live_store::{Receipt, StorePremises};
use std::marker::{Brand, PhantomData};
use std::mem::size_of;

/// What became of a job in its writer's hands (docs/PROTOCOL.md, Threads).
pub enum StoreResult<J: StorePremises> {
    /// The article is stored, the id is Stored and the feeds have its token: what the store and
    /// what the settling say of it.
    Kept(Receipt<J>, Posted),
    /// The device failed, or the buffer has no further cycle; the article was given up.
    Failed(Fault, Forgotten),
    /// What the core can't meet: another write was open, or the text is none for the buffer. The
    /// article was given up.
    Conflict(Forgotten),
}

// Written out, so that no crate above proves anew how each part is let go.
impl<J: StorePremises> Drop for StoreResult<J> {
    fn drop(self) {
        match self {
            StoreResult::Kept(_, _) => {}
            StoreResult::Failed(_, _) => {}
            StoreResult::Conflict(_) => {}
        }
    }
}

// What the README says of the memory of what became of a job.
const _: () = prove!(size_of::<StoreResult<Brand>>() == 16);

impl<J: StorePremises> Outcome for StoreResult<J> {
    ghost use Rattle.live_jobs.specs.StoreResults.{is_kept, FitsJob};

    ghost kept = { is_kept };

    ghost fits = { FitsJob J.holds };

    fn is_kept(&self) -> bool {
        matches!(self, StoreResult::Kept(..))
    }
}

/// What a writer tells the session whose job it had, and the session is told of it.
#[derive(Drop)]
pub struct JobAnswer<J: StorePremises> {
    /// The number of the job among those of its end.
    pub number: u64,
    /// Its receipt, where the article is kept; none where the job failed.
    pub receipt: Option<Receipt<J>>,
}

/// A job of this end's that was answered kept (239, 235): its number in the end's order, and the
/// number in the register of the receipt that came with the answer.
#[derive(Drop)]
pub struct KeptJob<J: StorePremises> {
    pub number: u64,
    pub register: usize,
    pub(crate) of: PhantomData<J>,
    // The register had a record under the number.
    ghost shown: { ∥ ((w : Where Record) × Shows J.register w × (w.index ≡ register)) ∥₁ },
}

// What the README says of the memory of an answer.
const _: () = prove!(size_of::<KeptJob<Brand>>() == 16);

impl<J: StorePremises> KeptJob<J> {
    /// The job of this number, answered kept with this receipt.
    pub fn new(number: u64, receipt: &Receipt<J>) -> KeptJob<J>
        ensures { (result.number ≡ number) × (result.register ≡ receipt.now.shown.index) }
    {
        KeptJob {
            number,
            register: receipt.number(),
            of: PhantomData,
        }
    }
}

/// What the store result of the job of this number tells the session.
pub fn answer_of<J: StorePremises>(number: u64, store_result: &StoreResult<J>) -> JobAnswer<J>
    ensures number { result.number ≡ number }
    ensures receipt { IsAnswerOf store_result.now result }
{
    let receipt = match store_result {
        StoreResult::Kept(receipt, _) => Some(receipt.again()),
        StoreResult::Failed(_, _) | StoreResult::Conflict(_) => None,
    };
    JobAnswer { number, receipt }
}
