//! A shard of the history under its lock.
ghost use Rattle.std.specs.Prelude.{◌≡◌, ◌≢◌, ◌<◌, IfOk};
ghost use Rattle.id_history.specs.declared.claims.Take.TheVariants as takes;
ghost use Rattle.live_jobs.specs.Forgotten.{IsForgotten};
ghost use Rattle.relay_live.specs.Settling.{SettlesJob};

use crate::pausing::offer_remembering;
use crate::posting::{RelayDesk, settle};
use crate::refusing::{forget_remembering, refuse_remembering};
use id_history::{Offer, Take};
use job_queue::{Crowd, Looked};
use live_jobs::{Forgotten, Posted, Unsettled};
use nntp_text::MsgId;
use post_history::{Naming, RememberingShard};
use std::alloc::AllocError;
use std::sync::ledger::{Ledger, Share};
use std::sync::{Mutex, Wait};

/// A shard, and those who wait until an article of it is no longer being stored. What neither waits
/// nor ends a storing goes to the shard itself; each call here is that of `Shard` of this name.
#[derive(Drop)]
pub(crate) struct Claims<J: Naming> {
    pub(crate) shard: Mutex<RememberingShard<J>>,
    // Told of each article whose storing ended.
    ended: Crowd,
}

impl<J: Naming> Claims<J> {
    /// The shard, behind its lock.
    pub(crate) fn over(shard: RememberingShard<J>) -> Claims<J> {
        Claims {
            shard: Mutex::new(shard),
            ended: Crowd::new(),
        }
    }

    /// The shard, which nobody waits for any more.
    pub(crate) fn into_shard(self) -> RememberingShard<J> {
        let Claims { shard, ended: _ } = self;
        shard.into_inner()
    }

    /// While no new articles are taken none is wanted.
    pub(crate) fn offer<R: Wait>(
        &self,
        rt: &R,
        paused: bool,
        id: &MsgId,
        session: u64,
        now: u64,
        lasting: Option<u64>,
    ) -> Result<Offer, AllocError> {
        offer_remembering(&mut self.shard.lock(rt), paused, id, session, now, lasting)
    }

    pub(crate) fn take<R: Wait>(
        &self,
        rt: &R,
        id: &MsgId,
        session: u64,
    ) -> Result<Take, AllocError> {
        self.shard.lock(rt).take(id, session)
    }

    /// Whether the id was marked.
    pub(crate) fn refuse<R: Wait>(
        &self,
        rt: &R,
        id: &MsgId,
        session: u64,
        now: u64,
        lasting: Option<u64>,
    ) -> Result<bool, AllocError> {
        refuse_remembering(&mut self.shard.lock(rt), id, session, now, lasting)
    }

    /// As `take`, but where another session stores an article of the id it waits until that has
    /// ended.
    pub(crate) fn take_later<R: Wait>(
        &self,
        rt: &R,
        id: &MsgId,
        session: u64,
    ) -> Result<Take, AllocError>
        ensures { IfOk result (λ take. take ≢ takes.Held) }
    {
        for _ in rt.forever() {
            let (take, looked) = self.take_last(rt, id, session)?;
            match take {
                Take::Held => looked.wait(rt),
                answer => return Ok(answer),
            }
        }
        unreachable!()
    }

    // As `take`, as the last look of one who may wait then.
    fn take_last<R: Wait>(
        &self,
        rt: &R,
        id: &MsgId,
        session: u64,
    ) -> Result<(Take, Looked<'_>), AllocError> {
        let (mut shard, looked) = self.ended.lock_last(rt, &self.shard);
        Ok((shard.take(id, session)?, looked))
    }

    pub(crate) fn forget<R: Wait>(&self, rt: &R, id: &MsgId, session: u64) -> Forgotten
        ensures { IsForgotten id.now session result }
    {
        let mut shard = self.shard.lock(rt);
        let forgotten = forget_remembering(&mut shard, id, session);
        self.ended.unlock(shard);
        forgotten
    }

    /// Settles in any thread: this lock is taken first, and the desk's while it is held. No other
    /// call of the relay posts, so whoever posts holds both.
    pub(crate) fn settle<L: Ledger, R: Wait>(
        &self,
        rt: &R,
        desk: &Mutex<RelayDesk<J, L>>,
        share: &mut Share<L>,
        article: &Unsettled<'_>,
    ) -> Option<Posted>
        requires { 0 < share.old.parts }
        ensures { SettlesJob article.now.id.now article.now.session article.now.token
            article.now.permitted.now.items share.old.amount share.new.amount share.old.parts
            share.new.parts result }
    {
        let posted = self.settle_both(rt, desk, share, article);
        if posted.is_some() {
            self.ended.tell();
        }
        posted
    }

    // The locks are let go before anybody is told.
    fn settle_both<L: Ledger, R: Wait>(
        &self,
        rt: &R,
        desk: &Mutex<RelayDesk<J, L>>,
        share: &mut Share<L>,
        article: &Unsettled<'_>,
    ) -> Option<Posted>
        requires { 0 < share.old.parts }
        ensures { SettlesJob article.now.id.now article.now.session article.now.token
            article.now.permitted.now.items share.old.amount share.new.amount share.old.parts
            share.new.parts result }
    {
        let mut shard = self.shard.lock(rt);
        let mut desk = desk.lock(rt);
        settle(&mut shard, &mut desk, share, article)
    }
}
