//! The one step of what is shared that a turn takes, by each of its kinds.
ghost use Rattle.std.specs.Prelude.{◌≡◌, ◌≢◌, ℕ, Bool, List, true, IfOk};
ghost use Rattle.article_fetch.specs.Chunks.{chunk_view};
ghost use Rattle.cyc_token.specs.Token.{token_view};
ghost use Rattle.cyc_token.specs.declared.Token as codes;
ghost use Rattle.id_history.specs.declared.claims.Take.TheVariants as takes;
ghost use Rattle.live_jobs.specs.Seats.{IsSeatOf};
ghost use Rattle.live_session.specs.Going.{IsFrontOf, IsReadAt, ReadsFor, begun_at};
ghost use Rattle.live_session.specs.Turns.{DidStep};
ghost use Rattle.live_store.specs.Steps.{ones_found};
ghost use Rattle.peer_session.specs.Session.{holds_article};
ghost use Rattle.peer_session.specs.declared.steps.Step.TheVariants as steps;

use crate::live::{LiveSession, StepContext};
use crate::pushing::{look_in_slot, push};
use crate::shares::Shares;
use article_fetch::Chunk;
use cyc_block::CHUNK_OCTETS;
use cyc_buffer::Fault;
use cyc_token::Token;
use id_history::Take;
use live_store::{ArticleLog, OneRead, OneRecord, StorePremises};
use nntp_text::MsgId;
use peer_session::{Answer, Step};
use std::alloc::{AllocError, Global};
use std::sync::Wait;

/// Does the step that the session planned, but for a read (`share_read`). Where memory is refused
/// nothing is done.
pub(crate) fn share<'a, S: Shares<J, R>, J: StorePremises, R: Wait>(
    rt: &R,
    context: &StepContext<S>,
    live: &mut LiveSession<J>,
    step: &Step,
) -> Answer<'a>
    requires unread { (token : codes.Token) (k : ℕ) → step.now ≢ steps.Read token k }
    requires register { context.now.register.now ≡ J.register }
    requires seat { IsSeatOf context.now.channels.now live.old.seat }
    ensures { DidStep context.now.channels.now step.now live.old result live.new }
{
    let shares = context.shares;
    let session = live.number;
    match step {
        Step::Nothing => Answer::Nothing,
        Step::Offer(id) => match shares.offer(rt, id, session, context.moment, context.lasting) {
            Ok(offer) => Answer::Offer(offer),
            Err(_) => Answer::Memory,
        },
        Step::Look(id) => Answer::Look(shares.look(rt, id)),
        Step::Read(_, _) => unreachable!(),
        Step::TakeQueue(feed, most) => match shares.take_queue(rt, context.alloc, *feed, *most) {
            Ok(taken) => Answer::Queue(taken),
            Err(_) => Answer::Memory,
        },
        Step::Refuse(id, _) => match shares.refuse(
            rt,
            id,
            session,
            context.moment,
            context.lasting,
        ) {
            Ok(()) => Answer::Nothing,
            Err(_) => Answer::Memory,
        },
        Step::Take(id) => match take(rt, shares, live, id) {
            Ok(told) => Answer::Take(told),
            Err(_) => Answer::Memory,
        },
        Step::Push(group) => push(rt, shares, context.channels, live, usize::from(*group)),
        Step::Slot => look_in_slot(rt, shares, live),
        Step::Release(id) => {
            shares.release(rt, id, session);
            Answer::Nothing
        }
    }
}

/// Does a step that reads block k of the token's article into this room, whose octets the answer
/// lends.
pub(crate) fn share_read<'a, S: Shares<J, R>, J: StorePremises, R: Wait>(
    rt: &R,
    context: &StepContext<S>,
    live: &mut LiveSession<J>,
    token: &Token,
    k: u32,
    room: &'a mut [u8; CHUNK_OCTETS],
) -> Answer<'a>
    requires register { context.now.register.now ≡ J.register }
    requires seat { IsSeatOf context.now.channels.now live.old.seat }
    ensures { DidStep context.now.channels.now (steps.Read token.now k) live.old result live.new }
{
    let reads = &mut live.reads;
    let (shares, register) = (context.shares, context.register);
    Answer::Chunk(read(rt, context.alloc, shares, register, reads, token, k, room))
}

/// Takes an accepted article of the id. A session that holds one waits until no other stores one.
fn take<S: Shares<J, R>, J: StorePremises, R: Wait>(
    rt: &R,
    shares: &S,
    live: &LiveSession<J>,
    id: &MsgId,
) -> Result<Take, AllocError>
    ensures once { holds_article live.now.session.phase ≡ true
        → IfOk result (λ told. told ≢ takes.Held) }
{
    if live.session.is_holding() {
        shares.take_later(rt, id, live.number)
    } else {
        shares.take(rt, id, live.number)
    }
}

/// Reads block k of the token's article into this room, whose octets the chunk lends. With block 0
/// the reads of a record begin.
fn read<'a, S: Shares<J, R>, J: StorePremises, R: Wait>(
    rt: &R,
    alloc: Global,
    shares: &S,
    register: &ArticleLog,
    reads: &mut OneRecord<J>,
    token: &Token,
    k: u32,
    room: &'a mut [u8; CHUNK_OCTETS],
) -> Chunk<'a>
    requires register { register.now ≡ J.register }
    ensures reads { (honest : Bool) → (honest ≡ true → J.trusted ≡ true)
        → ReadsFor honest J.register (token_view token.now) k reads.old.shown result
        reads.new.shown }
    ensures cause { ∥ IsReadAt k reads.old.shown reads.new.shown result ∥₁ }
{
    begin_reads(alloc, reads, k);
    let read = shares.read(rt, register, reads, token, k, room);
    chunk_of(read, room)
}

/// What the session hears of a read, with the octets of the block at the front of its room.
fn chunk_of<'a>(read: Result<OneRead, Fault>, room: &'a [u8; CHUNK_OCTETS]) -> Chunk<'a>
    ensures { result ≡ chunk_view (ones_found read) room.now }
{
    match read {
        Ok(one) => Chunk::of_read(Ok(one.into_found()), room),
        Err(fault) => Chunk::of_read(Err(fault), room),
    }
}

/// The reads of an article begin with its block 0.
fn begin_reads<J: StorePremises>(alloc: Global, reads: &mut OneRecord<J>, k: u32)
    ensures begun { reads.new.shown ≡ begun_at k reads.old.shown }
    ensures front { (gathered : List ℕ) → IsFrontOf reads.old.shown k gathered
        → IsFrontOf reads.new.shown k gathered }
{
    if k == 0 {
        *reads = OneRecord::new(alloc);
    }
}
