//! What stores the jobs of the writers.
ghost use Rattle.std.specs.Prelude.{◌≡◌, ◌<◌, ◌+◌, IfSome};
ghost use Rattle.live_jobs.specs.Forgotten.{IsForgotten};
ghost use Rattle.live_jobs.specs.StoreResults.{is_kept, FitsJob};
ghost use Rattle.live_jobs.specs.Taken.{worth};
ghost use Rattle.live_store.specs.Stores.{IsStored};
ghost use Rattle.relay_live.specs.Holding.{has_buffer};
ghost use Rattle.relay_live.specs.Keepers.{was_begun};
ghost use Rattle.relay_live.specs.Settling.{SettlesJob};

use crate::holding;
use crate::journaled::Journaled;
use crate::posting::RelayDesk;
use crate::register_ref::RegisterRef;
use crate::shared::Shared;
use block_shelf::{Place, PlacedGroup};
use buffer_group::{Accepted, Job, Pick};
use cyc_block::BlockStore;
use cyc_buffer::FaultKind;
use cyc_token::Token;
use job_queue::Handed;
use live_jobs::{Forgotten, Posted, Store, StoreResult, Unsettled};
use live_journal::PendingJournal;
use live_session::Clock;
use live_store::{StorePremises, Stored};
use post_history::Naming;
use relay_conf::Buffers;
use std::sync::ledger::{Ledger, Share};
use std::sync::{Mutex, Wait};
use std::thread;

/// What all writers store by: what the threads share, the register of these store premises, the
/// buffers' settings, a clock, and the journal that is told of what is stored.
#[derive(Drop)]
pub struct Keeper<
    'a,
    S: BlockStore + Drop,
    J: StorePremises + Naming,
    L: Ledger,
    C: Clock,
    Q: RegisterRef,
> {
    pub(crate) shared: &'a Shared<S, J, L>,
    pub(crate) register: &'a Q,
    settings: &'a Buffers,
    pub(crate) clock: &'a C,
    pub(crate) journal: &'a PendingJournal,
    ghost here: { Q.lent register.now ≡ J.register },
    ghost holds: { J.holds ≡ has_buffer settings.now },
}

impl<
    'a,
    S: BlockStore + Drop,
    J: StorePremises + Naming,
    L: Ledger,
    C: Clock,
    Q: RegisterRef,
> Keeper<'a, S, J, L, C, Q> {
    ghost use Rattle.relay_live.specs.Making.{ends_in, slots_of};

    /// What stores into these buffers, of which the store premises say which are of a group.
    pub fn new(
        shared: &'a Shared<S, J, L>,
        register: &'a Q,
        settings: &'a Buffers,
        clock: &'a C,
        journal: &'a PendingJournal,
    ) -> Keeper<'a, S, J, L, C, Q>
        requires register { Q.lent register.now ≡ J.register }
        requires holds { J.holds ≡ has_buffer settings.now }
        ensures slots { slots_of result ≡ ends_in shared.now }
    {
        Keeper {
            shared,
            register,
            settings,
            clock,
            journal,
        }
    }

    /// The article's text is stored in the buffer that its group picks, in a new cycle where the
    /// pick asks for one; the group goes on once it was begun there. `None` where there is no such
    /// group or buffer.
    fn write<R: Wait>(&self, rt: &R, article: &Accepted) -> Option<Stored<J>>
        ensures { IfSome result (IsStored article.now.class article.now.text) }
    {
        let placed_group = self
            .shared
            .placed_groups
            .get(usize::from(article.group))?
            .mutex();
        let length = article.length();
        let Place { pick, number } = place_of(rt, placed_group, length)?;
        let buffer = self.shared.buffers.locks().get(number)?;
        let text = article.text.as_vec();
        let stored = live_store::store(
            rt,
            buffer,
            self.register.register(),
            article.class,
            pick.fresh,
            text,
        );
        if is_begun(&stored) {
            take_up(rt, placed_group, &pick, length);
        }
        Some(stored)
    }

    /// The article is settled at this moment, where the job's id is its session's and the desk
    /// makes a further post.
    fn try_settle<R: Wait>(
        &self,
        rt: &R,
        share: &mut Share<L>,
        job: &Job,
        token: Token,
        moment: u64,
    ) -> Option<Posted>
        requires { 0 < share.old.parts }
        ensures { SettlesJob job.now.id job.now.session token job.now.article.permitted.items
            share.old.amount share.new.amount share.old.parts share.new.parts result }
    {
        let permitted = &job.article.permitted;
        let article = Unsettled {
            id: &job.id,
            session: job.session,
            token,
            permitted,
            moment,
        };
        let claims = self.shared.claims(&job.id);
        claims.settle(rt, &self.shared.desk, share, &article)
    }

    /// The article is settled at this moment. It is tried again until the job's id is its
    /// session's, and `None` only where the desk makes no further post.
    fn settle<R: Wait>(
        &self,
        rt: &R,
        share: &mut Share<L>,
        job: &Job,
        token: Token,
        moment: u64,
    ) -> Option<Posted>
        requires { 0 < share.old.parts }
        ensures { SettlesJob job.now.id job.now.session token job.now.article.permitted.items
            share.old.amount share.new.amount share.old.parts share.new.parts result }
    {
        for _ in rt.forever() {
            if let Some(posted) = self.try_settle(rt, share, job, token, moment) {
                return Some(posted);
            }
            if is_full(rt, &self.shared.desk) {
                return None;
            }
            thread::yield_now();
        }
        unreachable!()
    }

    /// The text is stored and the article settled, or given up: then its id is unknown. What is
    /// kept is said to the journal, once it is settled and all locks are free.
    fn keep<R: Wait>(&self, rt: &R, share: &mut Share<L>, handed: &Handed) -> Journaled<J>
        requires part { share.old.parts ≡ 1 }
        ensures part { share.new.parts ≡ 1 }
        ensures counted { share.new.amount
            ≡ share.old.amount + worth (is_kept result.store_result) }
        ensures fits { FitsJob J.holds result.store_result handed.now }
    {
        let job = &handed.job;
        match self.write(rt, &job.article) {
            Some(Stored::Kept(finished)) => {
                let token = finished.token();
                let moment = self.clock.now();
                match self.settle(rt, share, job, token, moment) {
                    Some(posted) => {
                        let said = self.journal.stored(rt, &job.id, &token, moment);
                        Journaled::kept(finished.into_receipt(), posted, said)
                    }
                    None => Journaled::given_up(StoreResult::Conflict(self.forget(rt, job))),
                }
            }
            Some(Stored::Failed(fault)) => {
                let forgotten = self.forget(rt, job);
                if holding::has_buffer(self.settings, job.article.group, fault.buffer()) {
                    Journaled::given_up(StoreResult::Failed(fault, forgotten))
                } else {
                    Journaled::given_up(StoreResult::Conflict(forgotten))
                }
            }
            Some(Stored::Conflict(_)) | None => {
                Journaled::given_up(StoreResult::Conflict(self.forget(rt, job)))
            }
        }
    }

    /// The job's article is given up.
    fn forget<R: Wait>(&self, rt: &R, job: &Job) -> Forgotten
        ensures { IsForgotten job.now.id job.now.session result }
    {
        self.shared.claims(&job.id).forget(rt, &job.id, job.session)
    }
}

/// Whether the desk makes no further post.
fn is_full<J: Naming, L: Ledger, R: Wait>(rt: &R, desk: &Mutex<RelayDesk<J, L>>) -> bool {
    desk.lock(rt).counted.is_full()
}

/// Where the group stores a text of this length, picked under its lock.
fn place_of<R: Wait>(rt: &R, placed_group: &Mutex<PlacedGroup>, length: u32) -> Option<Place> {
    placed_group.lock(rt).pick(length)
}

/// Takes up for the group, under its lock, that a text of this length was begun where it picked.
fn take_up<R: Wait>(rt: &R, placed_group: &Mutex<PlacedGroup>, pick: &Pick, length: u32) {
    placed_group.lock(rt).begun(pick, length);
}

/// Whether the text was begun in its buffer.
fn is_begun<J: StorePremises>(stored: &Stored<J>) -> bool
    ensures { result ≡ was_begun stored.now }
{
    match stored {
        Stored::Kept(_) => true,
        Stored::Failed(fault) => match fault.kind() {
            FaultKind::Read => false,
            FaultKind::Write => true,
            FaultKind::Worn => false,
        },
        Stored::Conflict(_) => false,
    }
}

impl<
    'a,
    S: BlockStore + Drop,
    J: StorePremises + Naming,
    L: Ledger,
    C: Clock,
    Q: RegisterRef,
    R: Wait,
> Store<L, StoreResult<J>, R> for Keeper<'a, S, J, L, C, Q> {
    fn store(&self, rt: &R, share: &mut Share<L>, handed: &Handed) -> StoreResult<J> {
        let journaled = self.keep(rt, share, handed);
        if let Some(slot) = self.shared.slots.get(handed.end as usize) {
            let _told = slot.tell(rt, handed.number, &journaled);
        }
        journaled.into_store_result()
    }
}
