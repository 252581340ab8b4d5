//! Doing what the lines of a script ask of the relay, and printing what it answers.
ghost use Rattle.std.specs.Prelude.{◌≡◌, ◌<◌, Bool, length, map};
ghost use Rattle.relay_core.specs.Views.{event_view, output_view};
ghost use Rattle.relay_drill.specs.Fault.{line_view};
ghost use Rattle.relay_drill.specs.Play as played;
ghost use Rattle.relay_drill.specs.Progress.{Leads, Performs, stand_view};
ghost use Rattle.relay_drill.specs.Todo as todo;
ghost use Rattle.relay_drill.specs.Todo.{Todo, behind_line, bring_each, is_armed};
ghost use Rattle.relay_drill.specs.Todo.{line_asks, lines_ask};
ghost use Rattle.relay_drill.specs.Todo.{pieces_in, pieces_of, round_each, turn_each};
ghost use Rattle.relay_drill.specs.Todo.{with_session, write_each};

use crate::crashing::{crash, cut};
use crate::fault::{DrillError, Ended};
use crate::life::{Life, noted};
use crate::line::Line;
use crate::manner::{Manner, Stand, is_cut};
use crate::power::Supply;
use crate::print::{print, print_restart};
use crate::report::report;
use cyc_block::BlockStore;
use line_words::Octets;
use relay_core::{Event, Output, System};
use relay_report::put;
use std::alloc::Global;
use std::io::Write;
use std::random::RandomSource;

/// Does what the lines of a script ask, one after the other, in this manner, in which no crash is
/// ahead. `rt` seeds the hashers of a relay that is started behind a crash.
pub fn play<W: Write>(
    rt: &impl RandomSource,
    alloc: Global,
    life: Life,
    manner: Manner,
    supply: &Supply,
    lines: &[Line],
    writer: &mut W,
) -> Result<Life, DrillError>
    ensures { Leads manner.reasons result
        (lines_ask manner.groups (map line_view lines.now) todo.first_stand) todo.Done
        life (W.contents writer.old) (W.contents writer.new) }
{
    let mut living = life;
    let mut stand = Stand {
        sessions: Vec::new(alloc),
        piece: None,
        moment: 0,
        armed: false,
    };
    for line in lines {
        living = play_one(rt, alloc, living, manner, supply, &mut stand, line, writer)?;
    }
    Ok(living)
}

/// Does what a line of a script asks: `crash` and `fail` of a relay over devices that have power,
/// all else of any.
fn play_one<W: Write>(
    rt: &impl RandomSource,
    alloc: Global,
    life: Life,
    manner: Manner,
    supply: &Supply,
    stand: &mut Stand,
    line: &Line,
    writer: &mut W,
) -> Result<Life, DrillError>
    ensures { (next : Bool → todo.Stand → Todo) → Leads manner.reasons result
        (line_asks manner.groups (line_view line.now) (stand_view stand.old)
        (behind_line (is_armed stand.old.armed (line_view line.now)) next))
        (next stand.new.armed (stand_view stand.new))
        life (W.contents writer.old) (W.contents writer.new) }
{
    match line {
        Line::Crash => crash(rt, alloc, life, supply, stand, writer),
        Line::CrashAt(buffer, call) => {
            supply.end(*buffer, *call);
            stand.armed = true;
            Ok(life)
        }
        Line::Fail(buffer, call) => {
            supply.fail(*buffer, *call);
            Ok(life)
        }
        _ => play_on(rt, alloc, life, manner, supply, stand, line, writer),
    }
}

/// Does what a line asks of a relay over any devices; where the power goes in it, the relay is
/// repaired.
fn play_on<W: Write>(
    rt: &impl RandomSource,
    alloc: Global,
    life: Life,
    manner: Manner,
    supply: &Supply,
    stand: &mut Stand,
    line: &Line,
    writer: &mut W,
) -> Result<Life, DrillError>
    ensures { (next : Bool → todo.Stand → Todo) → Leads manner.reasons result
        (line_asks manner.groups (line_view line.now) (stand_view stand.old)
        (behind_line stand.old.armed next))
        (next stand.new.armed (stand_view stand.new))
        life (W.contents writer.old) (W.contents writer.new) }
{
    let mut life = life;
    let stop = life.relay.stop();
    let manner = Manner {
        groups: manner.groups,
        reasons: manner.reasons,
        armed: stand.armed,
    };
    match play_line(alloc, &mut life.relay, manner, supply, stand, line, writer) {
        Ok(()) => noted(life, stop),
        Err(Ended::Cut) => cut(rt, alloc, life, stop, supply, stand, writer),
        Err(Ended::Faulty(error)) => {
            life.let_go();
            Err(error)
        }
    }
}

/// Does what a line of a script asks. What `crash` and `fail` ask is asked elsewhere.
fn play_line<S: BlockStore, W: Write>(
    alloc: Global,
    relay: &mut System<S>,
    manner: Manner,
    supply: &Supply,
    stand: &mut Stand,
    line: &Line,
    writer: &mut W,
) -> Result<(), Ended>
    ensures done { (next : todo.Stand → Todo) → Performs manner.reasons manner.armed result
        (line_asks manner.groups (line_view line.now) (stand_view stand.old) next)
        (next (stand_view stand.new))
        relay.old relay.new (W.contents writer.old) (W.contents writer.new) }
    ensures armed { stand.new.armed ≡ stand.old.armed }
{
    match *line {
        Line::Open(session, peer) => open(relay, stand, session, peer, manner, writer),
        Line::Bring(session, ref octets) => {
            let size = piece_size(stand, octets);
            bring(alloc, relay, session, octets, size, manner, supply, writer)
        }
        Line::Split(size) => {
            stand.piece = Some(size);
            Ok(())
        }
        Line::Turn(session, now) => {
            stand.moment = now;
            perform(relay, Event::Turn { session, now }, manner, supply, writer)
        }
        Line::Write(group, now) => {
            stand.moment = now;
            perform(relay, Event::Write { group, now }, manner, supply, writer)
        }
        Line::Rounds(count, now) => {
            stand.moment = now;
            rounds(relay, manner, supply, &stand.sessions, count, now, writer)
        }
        Line::Break(session) => perform(relay, Event::Break { session }, manner, supply, writer),
        Line::Expire(shard, now) => {
            stand.moment = now;
            perform(relay, Event::Expire { shard, now }, manner, supply, writer)
        }
        Line::Fail(_, _) => Ok(()),
        Line::CrashAt(_, _) => Ok(()),
        // Devices of no kind are repaired here.
        Line::Crash => Err(Ended::Faulty(DrillError::Unrepaired)),
        Line::Restart => restart(relay, manner, supply, writer),
        Line::Report => print_report(alloc, relay, writer),
    }
}

/// Prints the report of the relay as it is (docs/FORMATS.md, Report).
fn print_report<S: BlockStore, W: Write>(
    alloc: Global,
    relay: &System<S>,
    writer: &mut W,
) -> Result<(), Ended>
    ensures { (reasons armed : Bool) (more : Todo)
        → Performs reasons armed result (todo.Report more) more
        relay.now relay.now (W.contents writer.old) (W.contents writer.new) }
{
    let text = report(alloc, relay)?;
    put(writer, &text)?;
    Ok(())
}

/// How many octets a piece of these has: all of them, unless octets are split.
fn piece_size(stand: &Stand, octets: &[u8]) -> usize
    ensures pieces { pieces_of (stand_view stand.now).piece octets.now
        ≡ pieces_in (length octets.now) result octets.now }
    ensures some { 0 < length octets.now → 0 < result }
{
    match stand.piece {
        Some(size) => size.octets,
        None => octets.len(),
    }
}

/// A session opens, and is one of those that are open unless that is refused.
fn open<S: BlockStore, W: Write>(
    relay: &mut System<S>,
    stand: &mut Stand,
    session: u64,
    peer: usize,
    manner: Manner,
    writer: &mut W,
) -> Result<(), Ended>
    ensures armed { stand.new.armed ≡ stand.old.armed }
    ensures done { (next : todo.Stand → Todo) → Performs manner.reasons manner.armed result
        (todo.Opening session peer (next (with_session (stand_view stand.old) session))
        (next (stand_view stand.old)))
        (next (stand_view stand.new))
        relay.old relay.new (W.contents writer.old) (W.contents writer.new) }
{
    let event = Event::Open { session, peer };
    let output = relay.step(&event);
    drop(event);
    let printed = print(writer, &output, manner.reasons);
    let refused = is_refused(&output);
    drop(output);
    printed?;
    if refused {
        return Ok(());
    }
    stand.sessions.push(session)?;
    Ok(())
}

/// Whether the event was refused.
fn is_refused(output: &Output) -> bool
    ensures { result ≡ played.is_refused (output_view output.now) }
{
    matches!(output, Output::Refused(_))
}

/// The octets of a session come, in pieces of this size.
fn bring<S: BlockStore, W: Write>(
    alloc: Global,
    relay: &mut System<S>,
    session: u64,
    octets: &[u8],
    size: usize,
    manner: Manner,
    supply: &Supply,
    writer: &mut W,
) -> Result<(), Ended>
    requires { 0 < length octets.now → 0 < size }
    ensures { (more : Todo) → Performs manner.reasons manner.armed result
        (bring_each session (pieces_in (length octets.now) size octets.now) more) more
        relay.old relay.new (W.contents writer.old) (W.contents writer.new) }
{
    let mut rest = octets;
    while !rest.is_empty() {
        let (piece, after) = rest.split_at(size.min(rest.len()));
        let piece = Octets::copied(alloc, piece)?;
        perform(
            relay,
            Event::Bytes { session, piece },
            manner,
            supply,
            writer,
        )?;
        rest = after;
    }
    Ok(())
}

/// So many times each of the sessions that isn't closed has its Turn, then the writer of each group
/// its Write.
fn rounds<S: BlockStore, W: Write>(
    relay: &mut System<S>,
    manner: Manner,
    supply: &Supply,
    sessions: &[u64],
    count: u64,
    now: u64,
    writer: &mut W,
) -> Result<(), Ended>
    ensures { (more : Todo) → Performs manner.reasons manner.armed result
        (round_each manner.groups now sessions.now count more) more
        relay.old relay.new (W.contents writer.old) (W.contents writer.new) }
{
    for passed in 0..count {
        let _passed = passed;
        turn_all(relay, sessions, now, manner, supply, writer)?;
        write_all(relay, manner, supply, now, writer)?;
    }
    Ok(())
}

/// Each of the sessions has its Turn, where it isn't closed.
fn turn_all<S: BlockStore, W: Write>(
    relay: &mut System<S>,
    sessions: &[u64],
    now: u64,
    manner: Manner,
    supply: &Supply,
    writer: &mut W,
) -> Result<(), Ended>
    ensures { (more : Todo) → Performs manner.reasons manner.armed result
        (turn_each now sessions.now more) more
        relay.old relay.new (W.contents writer.old) (W.contents writer.new) }
{
    for session in sessions {
        turn_open(relay, *session, now, manner, supply, writer)?;
    }
    Ok(())
}

/// The session has its Turn, where it isn't closed.
fn turn_open<S: BlockStore, W: Write>(
    relay: &mut System<S>,
    session: u64,
    now: u64,
    manner: Manner,
    supply: &Supply,
    writer: &mut W,
) -> Result<(), Ended>
    ensures { (more : Todo) → Performs manner.reasons manner.armed result
        (todo.TurnOf session now more) more
        relay.old relay.new (W.contents writer.old) (W.contents writer.new) }
{
    if !relay.is_running(session) {
        return Ok(());
    }
    perform(relay, Event::Turn { session, now }, manner, supply, writer)
}

/// The writer of each group has its Write.
fn write_all<S: BlockStore, W: Write>(
    relay: &mut System<S>,
    manner: Manner,
    supply: &Supply,
    now: u64,
    writer: &mut W,
) -> Result<(), Ended>
    ensures { (more : Todo) → Performs manner.reasons manner.armed result
        (write_each now 0 manner.groups more) more
        relay.old relay.new (W.contents writer.old) (W.contents writer.new) }
{
    for group in 0..manner.groups {
        perform(relay, Event::Write { group, now }, manner, supply, writer)?;
    }
    Ok(())
}

/// The relay is closed and started again, and it is printed whether it was.
fn restart<S: BlockStore, W: Write>(
    relay: &mut System<S>,
    manner: Manner,
    supply: &Supply,
    writer: &mut W,
) -> Result<(), Ended>
    ensures { (more : Todo) → Performs manner.reasons manner.armed result
        (todo.Restarting more) more
        relay.old relay.new (W.contents writer.old) (W.contents writer.new) }
{
    let event = Event::Restart;
    let output = relay.step(&event);
    drop(event);
    if is_cut(manner, supply) {
        drop(output);
        return Err(Ended::Cut);
    }
    let printed = print_restart(writer, &output, manner.reasons);
    drop(output);
    printed?;
    Ok(())
}

/// Does one event, and prints what it is answered.
fn perform<S: BlockStore, W: Write>(
    relay: &mut System<S>,
    event: Event,
    manner: Manner,
    supply: &Supply,
    writer: &mut W,
) -> Result<(), Ended>
    ensures { (more : Todo) → Performs manner.reasons manner.armed result
        (todo.Next (event_view event) more) more
        relay.old relay.new (W.contents writer.old) (W.contents writer.new) }
{
    let output = relay.step(&event);
    drop(event);
    if is_cut(manner, supply) {
        drop(output);
        return Err(Ended::Cut);
    }
    let printed = print(writer, &output, manner.reasons);
    drop(output);
    printed?;
    Ok(())
}
