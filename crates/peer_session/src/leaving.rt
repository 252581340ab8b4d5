//! A session that leaves gives up what it had, one thing a turn.
ghost use Rattle.std.specs.Prelude.{◌≡◌, ◌≢◌, ℕ, List, ◌∷◌, IfOk, IsOk};
ghost use Rattle.relay_model.specs.Hears.{silent};
ghost use Rattle.relay_model.specs.State as model;
ghost use Rattle.relay_model.specs.State.{OpenOffer, in_phase, with_offers};
ghost use Rattle.peer_session.specs.Asking.{IsLeavingAsked, IsReleaseOf};
ghost use Rattle.peer_session.specs.Hearing.{HeardIs, HeardUnless};
ghost use Rattle.peer_session.specs.Session.{HasAll, HasReadNone, LeavesFree, session_view};

use crate::offers::OpenOffers;
use crate::phase::{Due, Phase, Todo};
use crate::session::Session;
use crate::steps::{Answer, Step};
use crate::waiting::push_due;
use buffer_group::Job;
use nntp_text::MsgId;
use std::alloc::{AllocError, Global};

/// What is due where a session leaves: the job in hand is pushed, then the oldest open offer ends,
/// then the session.
pub(crate) fn leaving_due(
    alloc: Global,
    hand: &Option<Job>,
    offers: &OpenOffers,
) -> Result<Due, AllocError>
    ensures due { IfOk result (IsLeavingAsked hand.now offers.now) }
    ensures free { LeavesFree hand.now offers.now → IsOk result }
{
    if let Some(job) = hand {
        return Ok(push_due(job));
    }
    match offers.oldest() {
        Some(id) => release_due(alloc, id),
        None => Ok(Due {
            todo: Todo::End,
            read: 0,
            step: Step::Nothing,
        }),
    }
}

/// The open offer of this id, the oldest, ends.
pub(crate) fn release_due(alloc: Global, id: &MsgId) -> Result<Due, AllocError>
    ensures { IfOk result (IsReleaseOf id.now) }
{
    let copy = id.copied(alloc)?;
    Ok(Due {
        todo: Todo::Release,
        read: 0,
        step: Step::Release(copy),
    })
}

impl Session {
    /// The oldest open offer was released.
    pub(crate) fn hear_released(&mut self, answer: Answer<'_>) -> Vec<u8>
        ensures { HeardUnless
            ((id : List ℕ) (since : ℕ) (later : List OpenOffer) → answer.entry ≡ Answer.Nothing
            → HasReadNone self.old.phase → HasAll self.old.phase self.old.cutter.dropped
            → self.old.offers ≡ record { id = id; since = since } ∷ later
            → HeardIs result.items self.old (silent (with_offers (session_view self.old) later))
            self.new)
            (answer.entry ≢ Answer.Nothing)
            result.items self.old self.new }
    {
        if let Answer::Nothing = answer {
            drop(self.offers.close_oldest());
        }
        self.unheard(answer)
    }

    /// Nothing was left.
    pub(crate) fn hear_ended(&mut self, answer: Answer<'_>) -> Vec<u8>
        ensures { HeardUnless
            (answer.entry ≡ Answer.Nothing → HeardIs result.items self.old
            (silent (in_phase (session_view self.old) model.Ended)) self.new)
            (answer.entry ≢ Answer.Nothing)
            result.items self.old self.new }
    {
        if let Answer::Nothing = answer {
            self.enter(Phase::Ended);
        }
        self.unheard(answer)
    }
}
