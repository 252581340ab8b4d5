//! A session leaves.
ghost use Rattle.std.specs.Prelude.{◌≡◌};
ghost use Rattle.article_verdict.specs.Config.{terms_of};
ghost use Rattle.live_jobs.specs.Seats.{IsSeatOf};
ghost use Rattle.live_session.specs.Carried.{Carried, ServesOn, carried};
ghost use Rattle.live_session.specs.Turns.{HadLastTurn, LeftClosed};
ghost use Rattle.relay_model.specs.Terms.{Terms};

use crate::commands::Commands;
use crate::live::{Conversation, LiveSession, SessionContext, Turned};
use crate::remarks::Remarks;
use crate::shares::{Clock, Gate, Shares};
use crate::turn::turn;
use crate::wire::say;
use live_store::StorePremises;
use live_wire::{Hears, Says};
use std::alloc::Global;
use std::sync::Wait;
use std::thread;

/// Turns of a session that leaves, until it is closed: its job is handed over and its open offers
/// end, since an id that stays offered is lost to every peer. What it still says is to be written.
pub(crate) fn leave<
    S: Shares<J, R>,
    C: Clock,
    G: Gate<R>,
    J: StorePremises,
    H: Hears,
    W: Says,
    R: Wait,
>(rt: &R, alloc: Global, context: &SessionContext<S, C, G>, talk: &mut Conversation<J, H, W>)
    requires register { context.now.register.now ≡ J.register }
    requires seat { IsSeatOf context.now.channels.now talk.old.live.seat }
    ensures { LeftClosed (terms_of context.now.config.now) context.now.channels.now
        talk.old.live talk.new.live
        (carried (H.heard talk.old.wire.reader) (W.said talk.old.wire.writer)
        talk.old.wire.outbox talk.old.wire.finish)
        (carried (H.heard talk.new.wire.reader) (W.said talk.new.wire.writer)
        talk.new.wire.outbox talk.new.wire.finish) talk.old.counts talk.new.counts }
{
    for _ in rt.forever() {
        if !talk.live.session.is_running() {
            return;
        }
        last_turn(rt, alloc, context, talk);
    }
    unreachable!()
}

/// One turn of a session that leaves. Where it is refused memory it gives way.
fn last_turn<S: Shares<J, R>, C: Clock, G: Gate<R>, J: StorePremises, H: Hears, W: Says, R: Wait>(
    rt: &R,
    alloc: Global,
    context: &SessionContext<S, C, G>,
    talk: &mut Conversation<J, H, W>,
)
    requires register { context.now.register.now ≡ J.register }
    requires seat { IsSeatOf context.now.channels.now talk.old.live.seat }
    ensures { HadLastTurn (terms_of context.now.config.now) context.now.channels.now
        talk.old.live talk.new.live
        (carried (H.heard talk.old.wire.reader) (W.said talk.old.wire.writer)
        talk.old.wire.outbox talk.old.wire.finish)
        (carried (H.heard talk.new.wire.reader) (W.said talk.new.wire.writer)
        talk.new.wire.outbox talk.new.wire.finish) talk.old.counts talk.new.counts }
{
    let mut commands = Commands::of(talk.live.number);
    let mut remarks = Remarks::new(false);
    let turned = turn(
        rt,
        alloc,
        context,
        &mut talk.live,
        &mut commands,
        &mut remarks,
    );
    drop(remarks);
    match turned {
        Turned::Says(said) => say(talk, said, false),
        Turned::Rests | Turned::Held => {}
        Turned::Memory => thread::yield_now(),
    }
}

/// A session that still reads breaks off.
pub(crate) fn break_off<J: StorePremises>(live: &mut LiveSession<J>)
    ensures seat { live.new.seat ≡ live.old.seat }
    ensures gone { (w : Terms) (c : Carried) → ServesOn w live.old live.new c c }
{
    if live.session.is_reading() {
        live.session.break_off();
    }
}
