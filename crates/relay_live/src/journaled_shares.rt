//! What sessions share, with the journal that is told of what they refuse.

use crate::shared::Shared;
use cyc_block::{BlockStore, CHUNK_OCTETS};
use cyc_buffer::Fault;
use cyc_token::Token;
use feed_queue::Taken;
use id_history::{LAST_MOMENT, Offer, Take};
use job_queue::{Change, Parcels};
use live_jobs::{JobAnswer, JobChannel, KeptJob, WriterTurns};
use live_journal::PendingJournal;
use live_session::Shares;
use live_store::{ArticleLog, OneRead, OneRecord, StorePremises};
use nntp_text::MsgId;
use post_history::Naming;
use std::alloc::{AllocError, Global};
use std::sync::Wait;
use std::sync::ledger::Ledger;

/// What the threads share, the journal, and the writers' turns. Each call is that of `Shared`.
/// Where an id is marked as refused the journal is told, once the shard's lock is free; a job is
/// stored by who brings it, where no other thread does.
#[derive(Drop)]
pub struct JournaledShares<'a, S: BlockStore + Drop, J: StorePremises + Naming, L: Ledger, N> {
    shared: &'a Shared<S, J, L>,
    journal: &'a PendingJournal,
    turns: &'a N,
}

impl<'a, S: BlockStore + Drop, J: StorePremises + Naming, L: Ledger, N> JournaledShares<
    'a,
    S,
    J,
    L,
    N,
> {
    /// These together.
    pub fn new(
        shared: &'a Shared<S, J, L>,
        journal: &'a PendingJournal,
        turns: &'a N,
    ) -> JournaledShares<'a, S, J, L, N> {
        JournaledShares {
            shared,
            journal,
            turns,
        }
    }
}

impl<
    'a,
    S: BlockStore + Drop,
    J: StorePremises + Naming,
    L: Ledger,
    N: WriterTurns<R>,
    R: Wait,
> Shares<J, R> for JournaledShares<'a, S, J, L, N> {
    fn offer(
        &self,
        rt: &R,
        id: &MsgId,
        session: u64,
        now: u64,
        lasting: Option<u64>,
    ) -> Result<Offer, AllocError> {
        self.shared.offer(rt, id, session, now, lasting)
    }

    fn look(&self, rt: &R, id: &MsgId) -> Option<Token> {
        self.shared.look(rt, id)
    }

    fn refuse(
        &self,
        rt: &R,
        id: &MsgId,
        session: u64,
        now: u64,
        lasting: Option<u64>,
    ) -> Result<(), AllocError> {
        let claims = self.shared.claims(id);
        let marked = claims.refuse(rt, id, session, now, lasting)?;
        if marked {
            // A session's moment is its clock's, which is never past the last.
            let _said = self.journal.refused(rt, id, now.min(LAST_MOMENT));
        }
        Ok(())
    }

    fn take(&self, rt: &R, id: &MsgId, session: u64) -> Result<Take, AllocError> {
        self.shared.take(rt, id, session)
    }

    fn take_later(&self, rt: &R, id: &MsgId, session: u64) -> Result<Take, AllocError> {
        self.shared.take_later(rt, id, session)
    }

    fn release(&self, rt: &R, id: &MsgId, session: u64) {
        self.shared.release(rt, id, session);
    }

    fn take_queue(
        &self,
        rt: &R,
        alloc: Global,
        feed: u16,
        most: usize,
    ) -> Result<Taken, AllocError> {
        self.shared.take_queue(rt, alloc, feed, most)
    }

    fn read(
        &self,
        rt: &R,
        register: &ArticleLog,
        reads: &mut OneRecord<J>,
        token: &Token,
        k: u32,
        chunk: &mut [u8; CHUNK_OCTETS],
    ) -> Result<OneRead, Fault> {
        self.shared.read(rt, register, reads, token, k, chunk)
    }

    fn write(&self, rt: &R, channel: &JobChannel, group: usize, change: Change<Parcels>) {
        self.turns.write(rt, channel, group, change);
    }

    fn outcome(&self, rt: &R, end: u64, number: u64, _kept: &Vec<KeptJob<J>>) -> JobAnswer<J> {
        self.shared.told(rt, end, number, self.turns)
    }
}
