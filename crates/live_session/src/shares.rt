//! What sessions share, the clock, and what lets commands in.
ghost use Rattle.std.specs.Prelude.{◌≡◌, ◌≢◌, ◌≤◌, ◌<◌, true, length, IfOk, IfErr, IfSome, Some};
ghost use Rattle.std.specs.Prelude.{vec_capacity, vec_len};
ghost use Rattle.cyc_buffer.specs.Answers.{HasRoom};
ghost use Rattle.cyc_token.specs.Token.{token_view};
ghost use Rattle.id_history.specs.declared.claims.Take.TheVariants as takes;
ghost use Rattle.live_store.specs.Steps.{IsFoundIn, IsFoundGone, IsOneUnfound, IsReadFault};
ghost use Rattle.live_store.specs.Steps.{IsRecordAfter, ones_found};
ghost use Rattle.relay_model.specs.Terms.{last_moment};

use crate::commands::Command;
use crate::remarks::Remark;
use crate::wire::Finish;
use cyc_block::CHUNK_OCTETS;
use cyc_buffer::Fault;
use cyc_token::Token;
use feed_queue::Taken;
use id_history::{Offer, Take};
use job_queue::{Change, Parcels};
use live_jobs::{JobAnswer, JobChannel, KeptJob};
use live_store::{ArticleLog, OneRead, OneRecord, StorePremises};
use live_wire::Tally;
use nntp_text::MsgId;
use std::alloc::{AllocError, Global};
use std::net::Ipv6Addr;

/// What sessions share with each other and with the writers: each call is one step under one lock
/// (docs/PROTOCOL.md, Threads).
pub trait Shares<J: StorePremises, R> {
    /// The id is offered to the session at this moment, where offers last so many seconds
    /// (`Shards::offer` of its shard).
    fn offer(
        &self,
        rt: &R,
        id: &MsgId,
        session: u64,
        now: u64,
        lasting: Option<u64>,
    ) -> Result<Offer, AllocError>;

    /// The token of the article of the id, where it is stored.
    fn look(&self, rt: &R, id: &MsgId) -> Option<Token>;

    /// The session's article of the id is refused at this moment, where offers last so long.
    fn refuse(
        &self,
        rt: &R,
        id: &MsgId,
        session: u64,
        now: u64,
        lasting: Option<u64>,
    ) -> Result<(), AllocError>;

    /// The session has an accepted article of the id.
    fn take(&self, rt: &R, id: &MsgId, session: u64) -> Result<Take, AllocError>;

    /// As `take`, but where another session stores an article of the id it waits until that has
    /// ended, so the answer is never `Held`.
    fn take_later(&self, rt: &R, id: &MsgId, session: u64) -> Result<Take, AllocError>
        ensures { IfOk result (λ told. told ≢ takes.Held) };

    /// The session's offer of the id ends.
    fn release(&self, rt: &R, id: &MsgId, session: u64);

    /// At most so many tokens of the feed's ring, none of a feed that isn't there.
    fn take_queue(&self, rt: &R, alloc: Global, feed: u16, most: usize) -> Result<Taken, AllocError>
        ensures { IfOk result (λ taken. length taken.items.items ≤ most) };

    /// Reads block k of the token's article, for a session whose reads are of one record. A token
    /// of a buffer that isn't there is Unknown.
    fn read(
        &self,
        rt: &R,
        register: &ArticleLog,
        reads: &mut OneRecord<J>,
        token: &Token,
        k: u32,
        chunk: &mut [u8; CHUNK_OCTETS],
    ) -> Result<OneRead, Fault>
        requires { register.now ≡ J.register }
        // A chunk is that of the record, which has the token.
        ensures chunk { J.trusted ≡ true → IfOk (ones_found result)
            (IsFoundIn J.register (token_view token.now) k chunk.new reads.new.shown) }
        // Once there is a record it stays.
        ensures kept { IfSome reads.old.shown (λ w. reads.new.shown ≡ Some w) }
        // With a chunk there is one, over any store; else it is as it was.
        ensures after { IsRecordAfter (ones_found result) reads.old.shown reads.new.shown }
        ensures room { IfOk (ones_found result) HasRoom }
        ensures gone { IfOk (ones_found result) (IsFoundGone (token_view token.now)) }
        // Unknown has its cause: of another record a chunk is only where there was one before.
        ensures unknown { IfOk result (IsOneUnfound k reads.old.shown) }
        ensures fault { IfErr result (IsReadFault (token_view token.now)) };

    /// A job was handed over to the group, over its channel. What is left there is stored here,
    /// where no other thread takes it.
    fn write(&self, rt: &R, channel: &JobChannel, group: usize, change: Change<Parcels>);

    /// Waits until the writer has told what became of this end's job of this number, and takes that
    /// out of the end's slot, once the end's list of kept jobs has room for one more.
    fn outcome(&self, rt: &R, end: u64, number: u64, kept: &Vec<KeptJob<J>>) -> JobAnswer<J>
        requires room { vec_len kept.now < vec_capacity kept.now }
        ensures { result.number ≡ number };
}

/// A clock: seconds since the first of 1970, within the limits.
pub trait Clock {
    /// The moment.
    fn now(&self) -> u64
        ensures { result ≤ last_moment };
}

/// What lets commands in, one by one, and is told of sessions.
pub trait Gate<R> {
    ghost use Rattle.std.specs.Prelude.{◌≡◌, Bool, false, true};
    ghost use Rattle.live_session.specs.declared.commands.Command.{Command};

    /// What is so of a command to which it says no.
    ghost refuses: { Self → Command → Type 0 };

    /// What is so of a command that it lets in.
    ghost admits: { Self → Command → Type 0 };

    /// Whether it lets commands in one by one.
    ghost one_by_one: { Self → Bool };

    /// Before a command of a session: whether it may go on. It may wait.
    fn enter(&self, rt: &R, command: Command) -> bool
        ensures no { result ≡ false → ∥ refuses self.now command ∥₁ }
        ensures yes { result ≡ true → ∥ admits self.now command ∥₁ };

    /// Whether each reply is written before the next command is let in, so that `leave` tells it.
    fn is_one_by_one(&self) -> bool
        ensures { result ≡ one_by_one self.now };

    /// After the reply of the newest command of a session was written, which was let in.
    fn leave(&self, rt: &R, command: Command)
        requires { ∥ admits self.now command ∥₁ };

    /// A session of a peer begins, connected from this address.
    fn opened(&self, _rt: &R, _peer: usize, _session: u64, _from: Ipv6Addr) {}

    /// Whether it wants to be told of articles that are stored.
    fn wants_stored(&self) -> bool {
        false
    }

    /// This became of an article that a session of a peer was sent, and this is the reply to it; of
    /// one that is stored only where that is wanted.
    fn remarked(&self, _rt: &R, _peer: usize, _reply: &[u8], _remark: &Remark) {}

    /// A session of a peer has so many offers open, of which it was told to have so many before: it
    /// is told before the session waits for its peer, and once it has ended.
    fn offers(&self, _rt: &R, _peer: usize, _had: usize, _has: usize) {}

    /// A session of a peer has said and read this much more: it is told before the session waits
    /// for its peer, and once it has ended.
    fn counted(&self, _rt: &R, _peer: usize, _more: &Tally) {}

    /// A session of a peer, connected from this address, has ended so, after so many seconds; it
    /// said and read this in all.
    fn closed(
        &self,
        _rt: &R,
        _peer: usize,
        _session: u64,
        _from: Ipv6Addr,
        _finish: Finish,
        _tally: &Tally,
        _seconds: u64,
    ) {}
}
