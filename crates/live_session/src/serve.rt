//! A session is served over a connection.
ghost use Rattle.std.specs.Prelude.{◌≡◌, ◌≤◌, ◌<◌, ◌^◌, Bool, true, false, [], length, IfOk};
ghost use Rattle.std.specs.Prelude.{IfSome};
ghost use Rattle.std.specs.Prelude.{None, Some, Ok};
ghost use Rattle.std.specs.Prelude.{is_some};
ghost use Rattle.article_verdict.specs.Config.{terms_of};
ghost use Rattle.live_jobs.specs.Seats.{IsSeatOf, count_of, end_of};
ghost use Rattle.live_session.specs.Carried.{Begins, CarriesSame, IsFormed, IsServed, IsServedBy};
ghost use Rattle.live_session.specs.Carried.{Lasts, Refusal, ServesOn, carried};
ghost use Rattle.live_session.specs.Commands.{WasLetIn, newest_in};
ghost use Rattle.live_session.specs.Counts.{most_turns, most_waiting, turns_in};
ghost use Rattle.live_session.specs.Going.{hands_at};
ghost use Rattle.live_session.specs.Waiting.{WaitsLittle};
ghost use Rattle.live_session.specs.Turns.{Conversed, HadRound, HasRead, ServedThrough};
ghost use Rattle.live_session.specs.declared.wire.Finish.TheVariants as finishes;
ghost use Rattle.peer_session.specs.Session.{session_view};
ghost use Rattle.relay_model.specs.Run.{is_running};

use crate::commands::{Command, Commands};
use crate::counts::Counts;
use crate::leaving::{break_off, leave};
use crate::live::{Connection, Conversation, LiveSession, Served, SessionContext, Turned};
use crate::remarks::Remarks;
use crate::shares::{Clock, Gate, Shares};
use crate::turn::turn;
use crate::wire::{Finish, Wire, flush, say, stop};
use live_jobs::{KeptJob, SessionSeat};
use live_store::{OneRecord, StorePremises};
use live_wire::{Hears, Says, Tally};
use nntp_text::{Reply, reply_bytes};
use peer_session::Session;
use relay_conf::Config;
use std::alloc::{AllocError, Global};
use std::hash::RandomState;
use std::io::ErrorKind;
use std::sync::Wait;

/// Turns of a session, at most.
const TURNS: u64 = 1 << 40;

/// Jobs of an end: with so many or more, no connection of it is greeted.
const MOST_JOBS: u64 = 1 << 62;

/// Octets that are read at once, at most.
const PIECE: usize = 65_536;

/// Octets of replies that wait, at most, before they are written.
const WAITING: usize = 65_536;

/// Serves a connection as its session, from the greeting until it is closed. What was written is
/// what its machine says to the bytes read; where the connection broke, a front of that. A session
/// whose connection breaks, that is held or has had 2^40 turns leaves, as the other ones do: its
/// job is handed over, and its open offers end, however often it is refused memory for that. Where
/// the end has handed over 2^62 jobs or more, the connection is broken before its greeting
/// (docs/PROTOCOL.md, Threads).
pub fn serve_session<
    S: Shares<J, R>,
    C: Clock,
    G: Gate<R>,
    J: StorePremises,
    H: Hears,
    W: Says,
    R: Wait,
>(
    rt: &R,
    alloc: Global,
    hasher: RandomState,
    context: &SessionContext<S, C, G>,
    seat: SessionSeat,
    kept: Vec<KeptJob<J>>,
    connection: Connection<H, W>,
) -> Served<J, H, W>
    requires register { context.now.register.now ≡ J.register }
    requires seat { IsSeatOf context.now.channels.now seat }
    ensures seat { IsSeatOf context.now.channels.now result.seat }
    ensures end { end_of result.seat ≡ end_of seat }
    ensures served { J.trusted ≡ true → ∥ IsServed J.register (terms_of context.now.config.now)
        connection.number (end_of seat) connection.peer (hands_at seat kept.items)
        (H.heard connection.reader) (W.said connection.writer)
        result.finish (hands_at result.seat result.kept.items) (H.heard result.reader)
        (W.said result.writer) ∥₁ }
    ensures formed { ∥ IsFormed J.register (terms_of context.now.config.now)
        connection.number (end_of seat) connection.peer (hands_at seat kept.items)
        (H.heard connection.reader) (W.said connection.writer)
        result.finish (hands_at result.seat result.kept.items) (H.heard result.reader)
        (W.said result.writer) ∥₁ }
    ensures many { 2 ^ 62 ≤ count_of seat → (result.finish ≡ finishes.Broken)
        × (H.heard result.reader ≡ H.heard connection.reader)
        × (W.said result.writer ≡ W.said connection.writer) }
    // It is ended for its turns alone where it has had them all.
    ensures spent { result.finish ≡ finishes.TurnsSpent → result.turns ≡ most_turns }
    // It is held only where the gate said no to a command.
    ensures held { result.finish ≡ finishes.Held → Refusal (G.refuses context.now.gate.now) }
{
    let Ok(Some(opened)) = begin(alloc, hasher, context.config, connection.peer, &seat) else {
        return unserved(seat, kept, connection);
    };
    served(rt, alloc, context, opened, seat, kept, connection)
}

/// Serves a connection as the session that was opened for it, from the greeting until it is closed.
fn served<S: Shares<J, R>, C: Clock, G: Gate<R>, J: StorePremises, H: Hears, W: Says, R: Wait>(
    rt: &R,
    alloc: Global,
    context: &SessionContext<S, C, G>,
    opened: Opened,
    seat: SessionSeat,
    kept: Vec<KeptJob<J>>,
    connection: Connection<H, W>,
) -> Served<J, H, W>
    requires register { context.now.register.now ≡ J.register }
    requires seat { IsSeatOf context.now.channels.now seat }
    requires begins { Begins (terms_of context.now.config.now) connection.peer opened.session
        opened.greeting.items }
    ensures seat { IsSeatOf context.now.channels.now result.seat }
    ensures end { end_of result.seat ≡ end_of seat }
    ensures served { (honest : Bool) → (honest ≡ true → J.trusted ≡ true)
        → ∥ IsServedBy honest J.register (terms_of context.now.config.now)
        connection.number (end_of seat) connection.peer (hands_at seat kept.items)
        (H.heard connection.reader) (W.said connection.writer)
        result.finish (hands_at result.seat result.kept.items) (H.heard result.reader)
        (W.said result.writer) ∥₁ }
    ensures spent { result.finish ≡ finishes.TurnsSpent → result.turns ≡ most_turns }
    ensures held { result.finish ≡ finishes.Held → Refusal (G.refuses context.now.gate.now) }
{
    let mut talk = Conversation {
        live: LiveSession {
            number: connection.number,
            session: opened.session,
            reads: OneRecord::new(alloc),
            seat,
            kept,
        },
        wire: Wire {
            reader: connection.reader,
            writer: connection.writer,
            outbox: opened.greeting,
            piece: opened.piece,
            finish: None,
        },
        counts: Counts::of(connection.peer),
    };
    serve_through(rt, alloc, context, &mut talk);
    let Conversation { live, wire, counts } = talk;
    drop(live.session);
    drop(live.reads);
    Served {
        seat: live.seat,
        kept: live.kept,
        finish: wire.finish.unwrap_or(Finish::Broken),
        reader: wire.reader,
        writer: wire.writer,
        tally: counts.told(),
        turns: counts.turns(),
    }
}

/// Serves a session that has had no turn until it is closed and nothing waits to be written.
fn serve_through<
    S: Shares<J, R>,
    C: Clock,
    G: Gate<R>,
    J: StorePremises,
    H: Hears,
    W: Says,
    R: Wait,
>(rt: &R, alloc: Global, context: &SessionContext<S, C, G>, talk: &mut Conversation<J, H, W>)
    requires register { context.now.register.now ≡ J.register }
    requires seat { IsSeatOf context.now.channels.now talk.old.live.seat }
    requires none { turns_in talk.old.counts ≡ 0 }
    requires begun { talk.old.wire.finish ≡ None }
    ensures { ServedThrough (terms_of context.now.config.now) (G.refuses context.now.gate.now)
        context.now.channels.now talk.old.live talk.new.live
        (carried (H.heard talk.old.wire.reader) (W.said talk.old.wire.writer)
        talk.old.wire.outbox talk.old.wire.finish)
        (carried (H.heard talk.new.wire.reader) (W.said talk.new.wire.writer)
        talk.new.wire.outbox talk.new.wire.finish) talk.new.counts }
{
    converse(rt, alloc, context, talk);
    break_off(&mut talk.live);
    leave(rt, alloc, context, talk);
    flush(&mut talk.wire);
    stop(&mut talk.wire, Finish::TurnsSpent);
    talk.counts.tell(rt, context.gate, 0);
}

/// What is left of a connection that is broken before its greeting.
fn unserved<J: StorePremises, H: Hears, W: Says>(
    seat: SessionSeat,
    kept: Vec<KeptJob<J>>,
    connection: Connection<H, W>,
) -> Served<J, H, W>
    ensures seat { result.seat ≡ seat }
    ensures hands { hands_at result.seat result.kept.items ≡ hands_at seat kept.items }
    ensures finish { result.finish ≡ finishes.Broken }
    ensures heard { H.heard result.reader ≡ H.heard connection.reader }
    ensures said { W.said result.writer ≡ W.said connection.writer }
{
    Served {
        seat,
        kept,
        finish: Finish::Broken,
        reader: connection.reader,
        writer: connection.writer,
        tally: Tally::none(),
        turns: 0,
    }
}

/// What a session begins with: its machine, its greeting and the room for what is read.
#[derive(Drop)]
struct Opened {
    session: Session,
    greeting: Vec<u8>,
    piece: Vec<u8>,
    ghost room: { length piece.items ≡ 65536 },
}

/// What a session of this seat begins with; none where the end has handed over all its jobs. The
/// error is want of memory.
fn begin(
    alloc: Global,
    hasher: RandomState,
    config: &Config,
    peer: usize,
    seat: &SessionSeat,
) -> Result<Option<Opened>, AllocError>
    ensures begins { IfOk result (λ one. IfSome one (λ opened. Begins (terms_of config.now) peer
        opened.session opened.greeting.items)) }
    ensures many { 2 ^ 62 ≤ count_of seat.now → result ≡ Ok None }
    ensures few { result ≡ Ok None → 2 ^ 62 ≤ count_of seat.now }
{
    if seat.handed() >= MOST_JOBS {
        return Ok(None);
    }
    let opened = open(alloc, hasher, config, peer)?;
    Ok(Some(opened))
}

/// A session of a peer to which nothing has come.
fn open(
    alloc: Global,
    hasher: RandomState,
    config: &Config,
    peer: usize,
) -> Result<Opened, AllocError>
    ensures { IfOk result (λ opened. Begins (terms_of config.now) peer opened.session
        opened.greeting.items) }
{
    let greeting = reply_bytes(alloc, &Reply::Greeting)?;
    let mut piece = Vec::new(alloc);
    piece.resize(PIECE, 0)?;
    let session = Session::open(alloc, hasher, config, peer)?;
    Ok(Opened {
        session,
        greeting,
        piece,
    })
}

/// Turns, reads and writes, until the connection has ended or the session has had all its turns.
fn converse<S: Shares<J, R>, C: Clock, G: Gate<R>, J: StorePremises, H: Hears, W: Says, R: Wait>(
    rt: &R,
    alloc: Global,
    context: &SessionContext<S, C, G>,
    talk: &mut Conversation<J, H, W>,
)
    requires register { context.now.register.now ≡ J.register }
    requires seat { IsSeatOf context.now.channels.now talk.old.live.seat }
    requires none { turns_in talk.old.counts ≡ 0 }
    ensures conversed { Conversed (terms_of context.now.config.now)
        (G.refuses context.now.gate.now) context.now.channels.now talk.old.live talk.new.live
        (carried (H.heard talk.old.wire.reader) (W.said talk.old.wire.writer)
        talk.old.wire.outbox talk.old.wire.finish)
        (carried (H.heard talk.new.wire.reader) (W.said talk.new.wire.writer)
        talk.new.wire.outbox talk.new.wire.finish) }
    ensures turns { talk.new.wire.finish ≡ None → turns_in talk.new.counts ≡ most_turns }
{
    let mut commands = Commands::of(talk.live.number);
    let mut remarks = Remarks::new(context.gate.wants_stored());
    for _ in 0..TURNS {
        if talk.wire.finish.is_some() {
            break;
        }
        talk.counts.turn();
        round(rt, alloc, context, talk, &mut commands, &mut remarks);
    }
}

/// One turn with its reply; where none is due, what waits is written, and the session reads.
fn round<S: Shares<J, R>, C: Clock, G: Gate<R>, J: StorePremises, H: Hears, W: Says, R: Wait>(
    rt: &R,
    alloc: Global,
    context: &SessionContext<S, C, G>,
    talk: &mut Conversation<J, H, W>,
    commands: &mut Commands,
    remarks: &mut Remarks,
)
    requires register { context.now.register.now ≡ J.register }
    requires seat { IsSeatOf context.now.channels.now talk.old.live.seat }
    requires newest { WasLetIn (G.admits context.now.gate.now) (newest_in commands.old) }
    ensures { HadRound (terms_of context.now.config.now) (G.refuses context.now.gate.now)
        (G.admits context.now.gate.now) context.now.channels.now talk.old.live talk.new.live
        (carried (H.heard talk.old.wire.reader) (W.said talk.old.wire.writer)
        talk.old.wire.outbox talk.old.wire.finish)
        (carried (H.heard talk.new.wire.reader) (W.said talk.new.wire.writer)
        talk.new.wire.outbox talk.new.wire.finish) talk.old.counts talk.new.counts commands.new }
{
    match turn(rt, alloc, context, &mut talk.live, commands, remarks) {
        Turned::Says(said) => {
            let was_known = talk.counts.remark(rt, context.gate, &said, remarks.take());
            say(talk, said, was_known);
            write_on(rt, context.gate, &mut talk.wire, commands.newest());
        }
        Turned::Rests => {
            let offers = talk.live.session.open_offers();
            talk.counts.tell(rt, context.gate, offers);
            flush(&mut talk.wire);
            receive(talk);
        }
        Turned::Held => stop(&mut talk.wire, Finish::Held),
        Turned::Memory => {
            flush(&mut talk.wire);
            stop(&mut talk.wire, Finish::Broken);
        }
    }
}

/// Writes what waits where that is much, or where the gate lets commands in one by one; that is
/// told of the newest command then.
fn write_on<G: Gate<R>, H: Hears, W: Says, R>(
    rt: &R,
    gate: &G,
    wire: &mut Wire<H, W>,
    newest: Option<Command>,
)
    requires newest { WasLetIn (G.admits gate.now) newest }
    ensures waiting { WaitsLittle wire.new.outbox.items }
    ensures written { G.one_by_one gate.now ≡ true → wire.new.outbox.items ≡ [] }
    ensures few { length wire.new.outbox.items < most_waiting }
    ensures same { CarriesSame
        (carried (H.heard wire.old.reader) (W.said wire.old.writer) wire.old.outbox wire.old.finish)
        (carried (H.heard wire.new.reader) (W.said wire.new.writer)
        wire.new.outbox wire.new.finish) }
    ensures ends { Lasts wire.old.finish wire.new.finish }
{
    if gate.is_one_by_one() {
        if !wire.outbox.is_empty() {
            flush(wire);
            if let Some(command) = newest {
                gate.leave(rt, command);
            }
        }
        return;
    }
    if wire.outbox.len() >= WAITING {
        flush(wire);
    }
}

/// Reads once, where the session reads: a peer isn't waited for while it is to hear something. The
/// connection is broken where the input has ended or fails, or there is no memory for what came.
fn receive<J: StorePremises, H: Hears, W: Says>(talk: &mut Conversation<J, H, W>)
    requires none { talk.old.wire.outbox.items ≡ [] }
    ensures { HasRead talk.old.live talk.new.live
        (carried (H.heard talk.old.wire.reader) (W.said talk.old.wire.writer)
        talk.old.wire.outbox talk.old.wire.finish)
        (carried (H.heard talk.new.wire.reader) (W.said talk.new.wire.writer)
        talk.new.wire.outbox talk.new.wire.finish) talk.old.counts talk.new.counts }
{
    if talk.wire.finish.is_some() {
        return;
    }
    if !talk.live.session.is_reading() {
        return;
    }
    match talk.wire.reader.hear(&mut talk.wire.piece) {
        Ok(0) => talk.wire.finish = Some(Finish::Broken),
        Ok(n) => {
            talk.counts.read(n);
            match talk.live.session.feed(&talk.wire.piece[..n]) {
                Ok(()) => {}
                Err(_) => talk.wire.finish = Some(Finish::Broken),
            }
        }
        Err(error) => match error.kind() {
            ErrorKind::Interrupted => {}
            _ => talk.wire.finish = Some(Finish::Broken),
        },
    }
}
