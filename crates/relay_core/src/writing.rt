//! A Write: the next bit of the work of a group's writer, one call of one part.
ghost use Rattle.std.specs.Prelude.{◌≡◌, ◌≤◌, ℕ, length};
ghost use Rattle.news_terms.specs.Places.{size_of};
ghost use Rattle.buffer_group.specs.declared.writer.Writer.TheVariants as writers;
ghost use Rattle.relay_core.specs.Writing.{AdvancesBy, writer_of};

use crate::event::{CoreError, Output};
use crate::system::{System, let_go};
use block_shelf::{Begun, BufferSet};
use buffer_group::{Job, Writer};
use cyc_block::BlockStore;
use cyc_token::Token;
use id_history::LAST_MOMENT;
use peer_session::Outcome;
use std::mem;

impl<S: BlockStore> System<S> {
    ghost use Rattle.std.specs.Prelude.{ℕ, ◌<◌, vec_len};
    ghost use Rattle.buffer_group.specs.declared.writer.Writer.TheVariants as writers;
    ghost use Rattle.relay_model.specs.Run as run;
    ghost use Rattle.relay_core.specs.Refusals.{RefusesRightly};
    ghost use Rattle.relay_core.specs.Steps.{StepsAs};
    ghost use Rattle.relay_core.specs.Sharing.{KeepsFrame};
    ghost use Rattle.relay_core.specs.Writing.{Advances};

    /// The next bit of the work of a group's writer. It takes no memory.
    pub(crate) fn write(&mut self, group: usize, now: u64) -> Output
        ensures steps { StepsAs (run.Write group now) self.old result self.new }
        ensures refused { RefusesRightly (run.Write group now) self.old result self.new }
        ensures frame { KeepsFrame self.old self.new }
    {
        if group >= self.group_writers.len() {
            return Output::Refused(CoreError::NoGroup);
        }
        if now > LAST_MOMENT {
            return Output::Refused(CoreError::BadMoment);
        }
        let taken = mem::replace(&mut self.group_writers[group].writer, Writer::Idle);
        let writer = self.advance(group, taken, now);
        let_go(mem::replace(&mut self.group_writers[group].writer, writer));
        Output::Quiet
    }

    /// What the writer of a group does, taken out of its group writer.
    fn advance(&mut self, group: usize, writer: Writer<Begun>, now: u64) -> Writer<Begun>
        requires { group < vec_len self.old.group_writers }
        ensures advances { Advances group now writer self.old result self.new }
        ensures frame { KeepsFrame self.old self.new }
    {
        match writer {
            Writer::Idle => writer_of(self.group_writers[group].queue.pop()),
            Writer::Popped(job) => begin(&mut self.buffer_set, job),
            Writer::Writing(job, begun, written) => {
                write_next(&mut self.buffer_set, job, begun, written)
            }
            Writer::Finished(job, token) => self.settle(job, token, now),
            Writer::Failed(job, open_one) => match open_one {
                // A block of the open write couldn't be written.
                Some(begun) => {
                    self.buffer_set.abandon(begun);
                    Writer::Failed(job, None)
                }
                // The article is given up: its id is unknown.
                None => {
                    let session = job.session;
                    self.shards.forget(&job.id, session);
                    drop(job);
                    Writer::Forgotten(session)
                }
            },
            Writer::Settled(session) => {
                self.peers.tell(session, Outcome::Kept);
                Writer::Idle
            }
            Writer::Forgotten(session) => {
                self.peers.tell(session, Outcome::Failed);
                Writer::Idle
            }
        }
    }

    /// It settles the job: the id is stored, and each permitted feed gains its token.
    fn settle(&mut self, job: Job, token: Token, now: u64) -> Writer<Begun>
        ensures advances { (group : ℕ)
            → Advances group now (writers.Finished job token) self.old result self.new }
        ensures frame { KeepsFrame self.old self.new }
    {
        let session = job.session;
        match self.shards.settle(&job.id, session, token, now) {
            Some(settled) => {
                self.desk.post(&job.article.permitted, settled);
                drop(job);
                Writer::Settled(session)
            }
            None => {
                drop(job);
                Writer::Settled(session)
            }
        }
    }
}

/// The writer that goes on with the job, if there is one.
fn writer_of(job: Option<Job>) -> Writer<Begun>
    ensures { result ≡ writer_of job }
{
    match job {
        Some(job) => Writer::Popped(job),
        None => Writer::Idle,
    }
}

/// A writer begins the job in a buffer of the group, where a token has room for the cycle.
fn begin<S: BlockStore>(buffer_set: &mut BufferSet<S>, job: Job) -> Writer<Begun>
    ensures { (group now : ℕ)
        → AdvancesBy group now (writers.Popped job) buffer_set.old result buffer_set.new }
{
    let length = job.article.length();
    match buffer_set.begin(job.article.group, job.article.class, length) {
        Some(begun) => Writer::Writing(job, begun, 0),
        None => Writer::Failed(job, None),
    }
}

/// It writes the next block of the job's text, or finishes the write once all are written.
fn write_next<S: BlockStore>(
    buffer_set: &mut BufferSet<S>,
    job: Job,
    begun: Begun,
    written: u32,
) -> Writer<Begun>
    ensures { (group now : ℕ) → AdvancesBy group now (writers.Writing job begun written)
        buffer_set.old result buffer_set.new }
{
    if written >= job.article.blocks() {
        return finish(buffer_set, job, begun);
    }
    match buffer_set.write_next(&begun, job.article.text.as_slice()) {
        Ok(_last) => Writer::Writing(job, begun, written + 1),
        Err(_fault) => Writer::Failed(job, Some(begun)),
    }
}

/// It finishes the write, all of whose blocks are written.
fn finish<S: BlockStore>(buffer_set: &mut BufferSet<S>, job: Job, begun: Begun) -> Writer<Begun>
    ensures { (group now written : ℕ) → size_of (length job.article.text) ≤ written
        → AdvancesBy group now (writers.Writing job begun written)
        buffer_set.old result buffer_set.new }
{
    match buffer_set.finish(begun) {
        Ok(token) => Writer::Finished(job, token),
        Err(back) => Writer::Failed(job, Some(back)),
    }
}
