//! A session's job is handed over, and its outcome looked for.
ghost use Rattle.std.specs.Prelude.{◌≡◌};
ghost use Rattle.live_jobs.specs.Seats.{IsSeatOf};
ghost use Rattle.live_session.specs.Turns.{DidStep, LookedInSlot};
ghost use Rattle.peer_session.specs.declared.steps.Answer.TheVariants as answers;
ghost use Rattle.peer_session.specs.declared.steps.Step.TheVariants as steps;

use crate::live::LiveSession;
use crate::shares::Shares;
use live_jobs::{JobAnswer, JobChannel, KeptJob};
use live_store::StorePremises;
use peer_session::{Answer, Outcome};
use std::sync::Wait;

/// Numbers of an end's jobs. Since a session begins with fewer than 2^62 and hands over at most one
/// job a turn, it doesn't come to the last of them.
const JOB_NUMBERS: u64 = 1 << 63;

/// Hands the job in the session's hand over to its group, and stores it where no other thread does.
/// It waits until there is room.
pub(crate) fn push<'a, S: Shares<J, R>, J: StorePremises, R: Wait>(
    rt: &R,
    shares: &S,
    channels: &[JobChannel],
    live: &mut LiveSession<J>,
    group: usize,
) -> Answer<'a>
    requires seat { IsSeatOf channels.now live.old.seat }
    ensures did { DidStep channels.now (steps.Push group) live.old result live.new }
    ensures memory { result ≡ answers.Memory → ⊥ }
{
    if group >= channels.len() {
        return Answer::Pushed(false);
    }
    if live.seat.handed() >= JOB_NUMBERS {
        return Answer::Pushed(false);
    }
    match live.session.hand_over() {
        Some(job) => {
            let (_number, change) = live.seat.hand_over(rt, channels, group, job);
            shares.write(rt, &channels[group], group, change);
            Answer::Pushed(true)
        }
        None => Answer::Pushed(false),
    }
}

/// Waits for the outcome of the job that was handed over last. The receipt of one that is kept
/// joins those of the end.
pub(crate) fn look_in_slot<'a, S: Shares<J, R>, J: StorePremises, R: Wait>(
    rt: &R,
    shares: &S,
    live: &mut LiveSession<J>,
) -> Answer<'a>
    ensures { LookedInSlot live.old result live.new }
{
    let handed = live.seat.handed();
    if handed == 0 {
        return Answer::Slot(None);
    }
    if live.kept.reserve(1).is_err() {
        return Answer::Memory;
    }
    let end = live.seat.end();
    let JobAnswer { number, receipt } = shares.outcome(rt, end, handed - 1, &live.kept);
    match receipt {
        Some(receipt) => {
            live.kept.push_reserved(KeptJob::new(number, &receipt));
            Answer::Slot(Some(Outcome::Kept))
        }
        None => Answer::Slot(Some(Outcome::Failed)),
    }
}
