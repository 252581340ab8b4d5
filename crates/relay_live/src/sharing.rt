//! What sessions share: each call is one step under one lock.

use crate::shared::Shared;
use cyc_block::{BlockStore, CHUNK_OCTETS};
use cyc_buffer::Fault;
use cyc_token::Token;
use feed_queue::Taken;
use id_history::{Offer, Take};
use job_queue::{Change, Parcels};
use live_jobs::{JobAnswer, JobChannel, KeptJob, OwnThreads, WriterTurns};
use live_session::Shares;
use live_store::{ArticleLog, OneRead, OneRecord, StorePremises};
use nntp_text::MsgId;
use post_history::Naming;
use std::alloc::{AllocError, Global};
use std::sync::Wait;
use std::sync::ledger::Ledger;

impl<S: BlockStore + Drop, J: StorePremises + Naming, L: Ledger, R: Wait> Shares<J, R>
    for Shared<S, J, L> {
    fn offer(
        &self,
        rt: &R,
        id: &MsgId,
        session: u64,
        now: u64,
        lasting: Option<u64>,
    ) -> Result<Offer, AllocError> {
        let paused = self.pausing.is_paused();
        self.claims(id).offer(rt, paused, id, session, now, lasting)
    }

    fn look(&self, rt: &R, id: &MsgId) -> Option<Token> {
        self.claims(id).shard.lock(rt).shard.look(id)
    }

    fn refuse(
        &self,
        rt: &R,
        id: &MsgId,
        session: u64,
        now: u64,
        lasting: Option<u64>,
    ) -> Result<(), AllocError> {
        let claims = self.claims(id);
        claims.shard.lock(rt).refuse(id, session, now, lasting)
    }

    fn take(&self, rt: &R, id: &MsgId, session: u64) -> Result<Take, AllocError> {
        self.claims(id).take(rt, id, session)
    }

    fn take_later(&self, rt: &R, id: &MsgId, session: u64) -> Result<Take, AllocError> {
        self.claims(id).take_later(rt, id, session)
    }

    fn release(&self, rt: &R, id: &MsgId, session: u64) {
        self.claims(id).shard.lock(rt).release(id, session);
    }

    fn take_queue(
        &self,
        rt: &R,
        alloc: Global,
        feed: u16,
        most: usize,
    ) -> Result<Taken, AllocError> {
        let taken = self.desk.lock(rt).take(alloc, feed, most)?;
        match taken {
            Some(taken) => Ok(taken),
            None => Ok(Taken {
                missed: 0,
                items: Vec::new(alloc),
            }),
        }
    }

    fn read(
        &self,
        rt: &R,
        register: &ArticleLog,
        reads: &mut OneRecord<J>,
        token: &Token,
        k: u32,
        chunk: &mut [u8; CHUNK_OCTETS],
    ) -> Result<OneRead, Fault> {
        reads.read(rt, self.buffers.locks(), register, token, k, chunk)
    }

    fn write(&self, _rt: &R, channel: &JobChannel, _group: usize, change: Change<Parcels>) {
        channel.tell(change);
    }

    fn outcome(&self, rt: &R, end: u64, number: u64, _kept: &Vec<KeptJob<J>>) -> JobAnswer<J> {
        self.told(rt, end, number, &OwnThreads)
    }
}

impl<S: BlockStore + Drop, J: StorePremises + Naming, L: Ledger> Shared<S, J, L> {
    ghost use Rattle.std.specs.Prelude.{◌≡◌};

    /// Waits until a writer has told what became of this end's job of this number, and takes that
    /// out of the end's slot. Between its looks it does the writers' work.
    pub(crate) fn told<N: WriterTurns<R>, R: Wait>(
        &self,
        rt: &R,
        end: u64,
        number: u64,
        turns: &N,
    ) -> JobAnswer<J>
        ensures { result.number ≡ number }
    {
        match self.slots.get(end as usize) {
            Some(slot) => slot.wait(rt, number, turns),
            None => JobAnswer {
                number,
                receipt: None,
            },
        }
    }
}
