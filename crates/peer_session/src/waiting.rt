//! An accepted article that is held or whose outcome is awaited.
ghost use Rattle.std.specs.Prelude.{◌≡◌, ◌≢◌, ◌≤◌, Option, Some, None, IfOk, option_map};
ghost use Rattle.buffer_group.specs.Jobs.{article_view};
ghost use Rattle.buffer_group.specs.declared.job.Accepted.{Accepted};
ghost use Rattle.id_history.specs.declared.claims.Take.{Take};
ghost use Rattle.id_history.specs.Answers.{take_view};
ghost use Rattle.relay_model.specs.Hears.{outcome_heard, slot_heard, take_heard};
ghost use Rattle.relay_model.specs.State as model;
ghost use Rattle.relay_model.specs.State.{in_phase};
ghost use Rattle.peer_session.specs.Asking.{IsHeldAsked, IsPushOf, IsWaitingAsked};
ghost use Rattle.peer_session.specs.Hearing.{HeardIs, HeardUnless};
ghost use Rattle.peer_session.specs.Session.{outcome_view, session_view, transfer_view};

use crate::phase::{Due, Phase, Todo, Transfer};
use crate::room::Room;
use crate::session::Session;
use crate::steps::{Answer, Outcome, Step};
use buffer_group::Job;
use nntp_text::{MsgId, Reply};
use std::alloc::{AllocError, Global};
use std::mem;

/// What is due where an article of this id is held: it is tried again.
pub(crate) fn held_due(alloc: Global, id: &MsgId) -> Result<Due, AllocError>
    ensures { IfOk result (IsHeldAsked id.now) }
{
    let copy = id.copied(alloc)?;
    let step = Step::Take(id.copied(alloc)?);
    Ok(Due {
        todo: Todo::TakeHeld(copy),
        read: 0,
        step,
    })
}

/// What is due where the outcome of an article is awaited: the job in hand is pushed first.
pub(crate) fn waiting_due(hand: &Option<Job>) -> Due
    ensures { IsWaitingAsked hand.now result }
{
    match hand {
        Some(job) => push_due(job),
        None => Due {
            todo: Todo::Slot,
            read: 0,
            step: Step::Slot,
        },
    }
}

/// The job in hand is pushed.
pub(crate) fn push_due(job: &Job) -> Due
    ensures { IsPushOf job.now result }
{
    Due {
        todo: Todo::Push,
        read: 0,
        step: Step::Push(job.article.group),
    }
}

impl Session {
    /// The answer to a held article.
    pub(crate) fn hear_held(&mut self, number: u64, copy: MsgId, answer: Answer<'_>) -> Vec<u8>
        ensures { HeardUnless
            ((article : Accepted) (room : Room) (told : Take) → answer.entry ≡ Answer.Take told
            → self.old.phase ≡ Phase.Holds copy article room → self.old.cutter.dropped ≡ 0
            → HeardIs result.items self.old
            (take_heard number (in_phase (session_view self.old) model.Ready) model.TakesThis copy
            (article_view article) (take_view told)) self.new)
            ((told : Take) → answer.entry ≢ Answer.Take told)
            result.items self.old self.new }
    {
        match answer {
            Answer::Take(told) => match mem::replace(&mut self.phase, Phase::Ready) {
                Phase::Holds(id, article, room) => {
                    let job = Job {
                        session: number,
                        id: copy,
                        article,
                    };
                    self.hear_take(Transfer::TakesThis, id, job, room, told)
                }
                other => {
                    self.enter(other);
                    Vec::new(self.alloc)
                }
            },
            _ => self.unheard(answer),
        }
    }

    /// What was found in the slot.
    pub(crate) fn hear_slot(&mut self, answer: Answer<'_>) -> Vec<u8>
        ensures { HeardUnless
            ((transfer : Transfer) (id : MsgId) (room : Room) (told : Option Outcome)
            → answer.entry ≡ Answer.Slot told → self.old.phase ≡ Phase.Waits transfer id room
            → self.old.cutter.dropped ≡ 0
            → HeardIs result.items self.old (slot_heard (session_view self.old)
            (transfer_view transfer) id (option_map outcome_view told)) self.new)
            ((told : Option Outcome) → answer.entry ≢ Answer.Slot told)
            result.items self.old self.new }
    {
        match answer {
            Answer::Slot(Some(outcome)) => match mem::replace(&mut self.phase, Phase::Ready) {
                Phase::Waits(transfer, id, room) => self.hear_outcome(transfer, id, room, outcome),
                other => {
                    self.enter(other);
                    Vec::new(self.alloc)
                }
            },
            _ => self.unheard(answer),
        }
    }

    /// How the storing of the session's article ended.
    fn hear_outcome(
        &mut self,
        transfer: Transfer,
        id: MsgId,
        room: Room,
        outcome: Outcome,
    ) -> Vec<u8>
        ensures { self.old.phase ≡ Phase.Ready → self.old.cutter.dropped ≡ 0
            → HeardIs result.items self.old (outcome_heard (session_view self.old)
            (transfer_view transfer) id (outcome_view outcome)) self.new }
    {
        match transfer {
            Transfer::TakesThis => match outcome {
                Outcome::Kept => room.say(Reply::Kept(&id)),
                Outcome::Failed => {
                    self.enter(Phase::Leaving);
                    room.say(Reply::NotStored)
                }
            },
            Transfer::Has => match outcome {
                Outcome::Kept => room.say(Reply::IhaveKept),
                Outcome::Failed => room.say(Reply::IhaveLater),
            },
        }
    }
}
