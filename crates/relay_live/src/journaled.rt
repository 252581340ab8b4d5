//! What became of a job, once the journal was told of it.
ghost use Rattle.std.specs.Prelude.{◌≡◌, false};
ghost use Rattle.live_jobs.specs.StoreResults.{is_kept};
ghost use Rattle.live_jobs.specs.declared.store_result.StoreResult.TheVariants as store_results;
ghost use Rattle.relay_live.specs.Journaling.{IsJournaled, SaysPosted};

use live_jobs::{Posted, StoreResult};
use live_journal::Said;
use live_store::{Receipt, StorePremises};

/// What became of a job; where it is kept, the journal was told of it. A slot is told this, so no
/// end hears of an article that wasn't said to be stored before.
#[derive(Drop)]
pub struct Journaled<J: StorePremises> {
    store_result: StoreResult<J>,
    said: Option<Said>,
    ghost told: { ∥ IsJournaled store_result said ∥₁ },
}

impl<J: StorePremises> Journaled<J> {
    /// A job that is kept: the journal was told of the article that was posted.
    pub(crate) fn kept(receipt: Receipt<J>, posted: Posted, said: Said) -> Journaled<J>
        requires { ∥ SaysPosted posted said ∥₁ }
        ensures { result.store_result ≡ store_results.Kept receipt posted }
    {
        Journaled {
            store_result: StoreResult::Kept(receipt, posted),
            said: Some(said),
        }
    }

    /// A job that isn't kept, of which the journal isn't told.
    pub(crate) fn given_up(store_result: StoreResult<J>) -> Journaled<J>
        requires { is_kept store_result ≡ false }
        ensures { result.store_result ≡ store_result }
    {
        Journaled {
            store_result,
            said: None,
        }
    }

    /// What became of it.
    pub(crate) fn store_result(&self) -> &StoreResult<J>
        ensures { result.now ≡ self.now.store_result }
    {
        &self.store_result
    }

    /// What became of it, alone.
    pub(crate) fn into_store_result(self) -> StoreResult<J>
        ensures { result ≡ self.store_result }
    {
        let Journaled {
            store_result,
            said: _,
        } = self;
        store_result
    }
}
