//! A turn: the session plans, its step is done, and it hears the answer.
ghost use Rattle.std.specs.Prelude.{◌≡◌, ◌≢◌, ◌≤◌, [], false, true};
ghost use Rattle.article_verdict.specs.Config.{terms_of};
ghost use Rattle.live_jobs.specs.Seats.{IsSeatOf, end_of};
ghost use Rattle.live_session.specs.Carried.{Refusal};
ghost use Rattle.live_session.specs.Commands.{WasAsked, WasLetIn, newest_in};
ghost use Rattle.live_session.specs.Going.{KeepsButSession, LetsGo};
ghost use Rattle.live_session.specs.Going.{TakesPlanned, said_in};
ghost use Rattle.live_session.specs.Remarks.{RemarksOn};
ghost use Rattle.live_session.specs.Turns.{HadTurn, HasHeard};
ghost use Rattle.live_session.specs.declared.live.Turned.TheVariants as turns;
ghost use Rattle.peer_session.specs.declared.steps.Step.TheVariants as steps;
ghost use Rattle.relay_model.specs.Terms.{Terms, last_moment};

use crate::commands::Commands;
use crate::live::{LiveSession, SessionContext, StepContext, Turned};
use crate::remarks::Remarks;
use crate::shares::{Clock, Gate, Shares};
use crate::sharing::{share, share_read};
use cyc_block::CHUNK_OCTETS;
use cyc_token::Token;
use live_store::StorePremises;
use peer_session::{Answer, Step};
use std::alloc::Global;
use std::sync::Wait;

/// A turn of the session, where one is due and its command is let in.
pub(crate) fn turn<S: Shares<J, R>, C: Clock, G: Gate<R>, J: StorePremises, R: Wait>(
    rt: &R,
    alloc: Global,
    context: &SessionContext<S, C, G>,
    live: &mut LiveSession<J>,
    commands: &mut Commands,
    remarks: &mut Remarks,
) -> Turned
    requires register { context.now.register.now ≡ J.register }
    requires seat { IsSeatOf context.now.channels.now live.old.seat }
    requires newest { WasLetIn (G.admits context.now.gate.now) (newest_in commands.old) }
    ensures { HadTurn (terms_of context.now.config.now) (G.refuses context.now.gate.now)
        (G.admits context.now.gate.now) context.now.channels.now live.old live.new commands.old
        commands.new result }
{
    let at_command = live.session.is_at_command();
    let now = context.clock.now();
    let Ok(step) = live.session.plan(context.config, now) else {
        return Turned::Memory;
    };
    if live.session.is_resting() {
        give_up(live, step);
        return Turned::Rests;
    }
    if !is_let_in(rt, context.gate, commands, at_command) {
        give_up(live, step);
        return Turned::Held;
    }
    let context = StepContext {
        alloc,
        shares: context.shares,
        register: context.register,
        channels: context.channels,
        moment: now,
        lasting: context.config.relay.offers,
    };
    take_planned(rt, &context, live, step, remarks)
}

/// The step that the session planned at the moment is done, and it hears the answer; what is
/// remarked is of that.
fn take_planned<S: Shares<J, R>, J: StorePremises, R: Wait>(
    rt: &R,
    context: &StepContext<S>,
    live: &mut LiveSession<J>,
    step: Step,
    remarks: &mut Remarks,
) -> Turned
    requires register { context.now.register.now ≡ J.register }
    requires seat { IsSeatOf context.now.channels.now live.old.seat }
    requires moment { context.now.moment ≤ last_moment }
    ensures seat { IsSeatOf context.now.channels.now live.new.seat }
    ensures end { end_of live.new.seat ≡ end_of live.old.seat }
    ensures went { (w : Terms) → TakesPlanned w context.now.moment step live.old
        (said_in result) live.new }
    ensures let_in { result ≢ turns.Held }
    ensures remark { RemarksOn context.now.channels.now step live.old result live.new remarks.old
        remarks.new }
{
    match step {
        Step::Read(token, k) => {
            drop(step);
            take_read(rt, context, live, token, k)
        }
        _ => {
            remarks.prepare(context.alloc, &step, live.session.in_hand());
            let answer = share(rt, context, live, &step);
            remarks.note(step, &answer);
            hear(live, answer)
        }
    }
}

/// The same of a step that reads block k of the token's article. Room for the block's octets is
/// made here and in no other turn.
fn take_read<S: Shares<J, R>, J: StorePremises, R: Wait>(
    rt: &R,
    context: &StepContext<S>,
    live: &mut LiveSession<J>,
    token: Token,
    k: u32,
) -> Turned
    requires register { context.now.register.now ≡ J.register }
    requires seat { IsSeatOf context.now.channels.now live.old.seat }
    requires moment { context.now.moment ≤ last_moment }
    ensures seat { IsSeatOf context.now.channels.now live.new.seat }
    ensures end { end_of live.new.seat ≡ end_of live.old.seat }
    ensures went { (w : Terms) → TakesPlanned w context.now.moment (steps.Read token k) live.old
        (said_in result) live.new }
    ensures let_in { result ≢ turns.Held }
{
    let mut room = [0; CHUNK_OCTETS];
    let answer = share_read(rt, context, live, &token, k, &mut room);
    hear(live, answer)
}

/// The step isn't done, and the session forgets what it planned.
fn give_up<J: StorePremises>(live: &mut LiveSession<J>, step: Step)
    ensures gone { LetsGo live.old [] live.new }
    ensures rest { KeepsButSession live.old live.new }
    ensures seat { live.new.seat ≡ live.old.seat }
{
    drop(step);
    forget(live);
}

/// Whether the session may go on: where it is at a command, whether the gate lets that in.
fn is_let_in<G: Gate<R>, R>(rt: &R, gate: &G, commands: &mut Commands, at_command: bool) -> bool
    requires newest { WasLetIn (G.admits gate.now) (newest_in commands.old) }
    ensures no { result ≡ false → Refusal (G.refuses gate.now) }
    ensures yes { result ≡ true → WasLetIn (G.admits gate.now) (newest_in commands.new) }
    ensures asked { WasAsked at_command commands.old commands.new }
{
    if !at_command {
        return true;
    }
    let command = commands.next();
    gate.enter(rt, command)
}

/// The session hears the answer to what it planned. Where that is want of memory it forgets what it
/// planned.
fn hear<J: StorePremises>(live: &mut LiveSession<J>, answer: Answer<'_>) -> Turned
    ensures { HasHeard live.old answer.entry result live.new }
{
    if let Answer::Memory = answer {
        forget(live);
        return Turned::Memory;
    }
    Turned::Says(live.session.absorb(live.number, answer))
}

/// The session forgets what it planned, and says nothing.
fn forget<J: StorePremises>(live: &mut LiveSession<J>)
    ensures gone { LetsGo live.old [] live.new }
    ensures rest { KeepsButSession live.old live.new }
    ensures seat { live.new.seat ≡ live.old.seat }
{
    drop(live.session.absorb(live.number, Answer::Memory));
}
