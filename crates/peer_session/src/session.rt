//! The session: what it plans, what it makes of an answer, and what comes to it.
ghost use Rattle.std.specs.Prelude.{◌≡◌, ◌≢◌, ◌≤◌, [], length, IfOk, IsOk, OnErr};
ghost use Rattle.std.specs.Option.{option_copied};
ghost use Rattle.article_verdict.specs.Config.{terms_of};
ghost use Rattle.news_terms.specs.Reply.{Reply};
ghost use Rattle.relay_model.specs.Hears.{parts, says, silent};
ghost use Rattle.relay_model.specs.Run as run;
ghost use Rattle.relay_model.specs.State as model;
ghost use Rattle.relay_model.specs.State.{in_phase};
ghost use Rattle.relay_model.specs.Terms.{last_moment};
ghost use Rattle.peer_session.specs.Answers.{IsOther};
ghost use Rattle.peer_session.specs.Asking.{DueOf, IsAwaitingBlock};
ghost use Rattle.peer_session.specs.Given.{HearsPlanned, HeedsRead};
ghost use Rattle.peer_session.specs.Hearing.{Forgets, HeardIs, HeardUnless, Heeds, LeavesAsIs};
ghost use Rattle.peer_session.specs.Planning.{DueGiven, HandsOver, rests};
ghost use Rattle.peer_session.specs.Said.{IsReply};
ghost use Rattle.peer_session.specs.Session.{BrokenOff, Fed, IsBounded, NewStands, PlansFree};
ghost use Rattle.peer_session.specs.Session.{StandsAsBefore, has_parted, holds_article, passed};
ghost use Rattle.peer_session.specs.Session.{reads_command, session_view, without_plan};
ghost use Rattle.stream_cut.specs.Stream.{HasRoom};
ghost use Rattle.peer_session.specs.declared.steps.Answer.TheVariants as answers;

use crate::chains::Opened;
use crate::fetches::reading_due;
use crate::leaving::leaving_due;
use crate::offers::OpenOffers;
use crate::phase::{Due, Phase, Plan, Planned, Todo, Transfer};
use crate::steps::{Answer, Step};
use crate::waiting::{held_due, waiting_due};
use buffer_group::Job;
use nntp_text::MsgId;
use relay_conf::Config;
use std::alloc::{AllocError, Global};
use std::hash::RandomState;
use std::mem;
use stream_cut::Cutter;

/// A session of a peer (RFC 3977, RFC 4644; docs/PROTOCOL.md, Sessions). It is the same machine for
/// every command, and touches nothing that is shared: `plan` names one step of that, somebody does
/// it, and `absorb` is told the answer.
pub struct Session {
    pub(crate) alloc: Global,
    pub(crate) peer: usize,
    pub(crate) cutter: Cutter,
    pub(crate) offers: OpenOffers,
    pub(crate) phase: Phase,
    /// The accepted article that isn't pushed yet.
    pub(crate) hand: Option<Job>,
    pub(crate) planned: Plan,
}

// Written out, so that no crate above proves anew how each part is let go.
impl Drop for Session {
    fn drop(self) {
        let Session {
            alloc: _,
            peer: _,
            cutter: _,
            offers: _,
            phase,
            hand,
            planned,
        } = self;
        drop(phase);
        drop(hand);
        drop(planned);
    }
}

impl Session {
    /// A session of the peer of this number. It takes the memory for all open offers that it may
    /// ever have.
    pub fn open(
        alloc: Global,
        hasher: RandomState,
        config: &Config,
        peer: usize,
    ) -> Result<Session, AllocError>
        ensures { IfOk result (λ session. NewStands (terms_of config.now) session peer) }
    {
        let offers = OpenOffers::new(alloc, hasher)?;
        Ok(Session {
            alloc,
            peer,
            cutter: Cutter::new(alloc, config.relay.max_article as usize),
            offers,
            phase: Phase::Ready,
            hand: None,
            planned: Plan::new(Planned {
                todo: Todo::Rest,
                read: 0,
            }),
        })
    }

    /// Whether it has turns: it isn't closed.
    pub fn is_running(&self) -> bool
        ensures { result ≡ run.is_running (session_view self.now).phase }
    {
        match &self.phase {
            Phase::Ended => false,
            _ => true,
        }
    }

    /// Whether it reads: octets may come, and the connection may break.
    pub fn is_reading(&self) -> bool
        ensures { result ≡ run.is_reading (session_view self.now).phase }
    {
        match &self.phase {
            Phase::Leaving | Phase::Ended => false,
            _ => true,
        }
    }

    /// Whether it has said its last reply.
    pub fn has_parted(&self) -> bool
        ensures { result ≡ has_parted self.now }
    {
        match &self.phase {
            Phase::Leaving => true,
            _ => false,
        }
    }

    /// Whether it reads a command next.
    pub fn is_at_command(&self) -> bool
        ensures { result ≡ reads_command self.now.phase }
    {
        match &self.phase {
            Phase::Ready => true,
            _ => false,
        }
    }

    /// Whether it holds an accepted article while another session stores one of its id.
    pub fn is_holding(&self) -> bool
        ensures { result ≡ holds_article self.now.phase }
    {
        match &self.phase {
            Phase::Holds(_, _, _) => true,
            _ => false,
        }
    }

    /// The job that it has accepted and hasn't pushed yet, if there is one.
    pub fn in_hand(&self) -> Option<&Job>
        ensures { option_copied result ≡ self.now.hand }
    {
        match &self.hand {
            Some(job) => Some(job),
            None => None,
        }
    }

    /// How many offers it has open.
    pub fn open_offers(&self) -> usize
        ensures { result ≡ length (session_view self.now).offers }
    {
        self.offers.len()
    }

    /// Whether the plan is that nothing is due.
    pub fn is_resting(&self) -> bool
        ensures { result ≡ rests self.now.planned.todo }
    {
        self.planned.is_resting()
    }

    /// What is due in a turn at this moment, in seconds since the first of 1970: at most one line
    /// or one block is read, and at most one step of what is shared is named. All memory that the
    /// answer can need is taken here; where none is given the session stays as it is. Where nothing
    /// is due none is taken, nor for a push, a look into the slot, or a fetch that was prepared
    /// before (`PlansFree`). Of a block that isn't whole no more is kept than one within the limit
    /// takes.
    pub fn plan(&mut self, config: &Config, now: u64) -> Result<Step, AllocError>
        requires { now ≤ last_moment }
        ensures due { IfOk result (λ step.
            DueGiven (terms_of config.now) self.old now step self.new) }
        ensures err { OnErr result (StandsAsBefore self.old self.new) }
        ensures free { PlansFree (terms_of config.now).offers now self.old → IsOk result }
        ensures bounded { IsAwaitingBlock self.old.phase → IsBounded self.new.cutter }
    {
        let due = self.due(config, now)?;
        let Due { todo, read, step } = due;
        let planned = Plan::new(Planned { todo, read });
        drop(mem::replace(&mut self.planned, planned));
        Ok(step)
    }

    /// What is due by the phase.
    fn due(&mut self, config: &Config, now: u64) -> Result<Due, AllocError>
        requires { now ≤ last_moment }
        ensures { DueOf (terms_of config.now) now self.old result self.new }
    {
        match &mut self.phase {
            Phase::Ready => self.command_due(config, now),
            Phase::AwaitsBlock(_, _) => self.block_due(config, now),
            Phase::Holds(id, _, _) => held_due(self.alloc, id),
            Phase::Waits(_, _, _) => Ok(waiting_due(&self.hand)),
            Phase::Fetches(reading) => reading_due(reading),
            Phase::Leaving => leaving_due(self.alloc, &self.hand, &self.offers),
            Phase::Ended => Ok(Due::rest()),
        }
    }

    /// The session of this number hears the answer to the step that it planned: what it says, in
    /// octets. It takes no memory. The answer `Memory` leaves the session as it was before the
    /// plan, and nothing planned; so does one to another step, and nothing is said.
    pub fn absorb(&mut self, number: u64, answer: Answer<'_>) -> Vec<u8>
        ensures heard { Heeds number self.old answer.entry result.items self.new }
        ensures given { HeedsRead self.old answer.entry result.items self.new }
        ensures other { IsOther self.old.planned.todo answer.entry
            → LeavesAsIs result.items (without_plan self.old) self.new }
        ensures memory { answer.entry ≡ answers.Memory → Forgets self.old self.new }
        ensures plan { answer.entry ≡ answers.Memory → self.new ≡ without_plan self.old }
        ensures quiet { answer.entry ≡ answers.Memory → result.items ≡ [] }
    {
        let rest = Plan::new(Planned {
            todo: Todo::Rest,
            read: 0,
        });
        let planned = mem::replace(&mut self.planned, rest);
        if let Answer::Memory = answer {
            drop(planned);
            return Vec::new(self.alloc);
        }
        self.hear(number, planned.into_planned(), answer)
    }

    /// The answer to the step of this plan, which is the session's no more.
    fn hear(&mut self, number: u64, planned: Planned, answer: Answer<'_>) -> Vec<u8>
        ensures { HearsPlanned number (record self.old { planned = planned }) self.old answer.entry
            result.items self.new }
    {
        let Planned { todo, read } = planned;
        match todo {
            Todo::Rest => self.unheard(answer),
            Todo::Owe(id) => self.hear_owed(read, id, answer),
            Todo::Say(octets) => self.hear_said(read, octets, answer),
            Todo::Leave(octets) => self.hear_left(read, octets, answer),
            Todo::Check(id, room, since) => {
                let offer = Opened { id, since };
                self.hear_offer(read, Transfer::TakesThis, offer, None, room, answer)
            }
            Todo::Ihave(id, copy, room, since) => {
                let offer = Opened { id, since };
                self.hear_offer(read, Transfer::Has, offer, Some(copy), room, answer)
            }
            Todo::Look(part, id, room) => self.hear_look(read, part, id, room, answer),
            Todo::Fetch(reading) => self.hear_first(read, reading, answer),
            Todo::ReadOn => self.hear_next(answer),
            Todo::Queue(room) => self.hear_queue(read, room, answer),
            Todo::Refuse(room) => self.hear_refused(read, room, answer),
            Todo::Take(copy, article, room) => {
                self.hear_taken(number, read, copy, article, room, answer)
            }
            Todo::TakeHeld(copy) => self.hear_held(number, copy, answer),
            Todo::Push => self.unheard(answer),
            Todo::Slot => self.hear_slot(answer),
            Todo::Release => self.hear_released(answer),
            Todo::End => self.hear_ended(answer),
        }
    }

    /// Nothing is said, and a block of this id follows.
    fn hear_owed(&mut self, read: usize, id: Option<MsgId>, answer: Answer<'_>) -> Vec<u8>
        ensures { HeardUnless
            (answer.entry ≡ answers.Nothing
            → HeardIs result.items self.old (silent (in_phase (passed read self.old)
            (model.AwaitsBlock model.TakesThis id))) self.new)
            (answer.entry ≢ answers.Nothing)
            result.items self.old self.new }
    {
        if let Answer::Nothing = answer {
            self.cutter.pass(read);
            self.enter(Phase::AwaitsBlock(Transfer::TakesThis, id));
        }
        self.unheard(answer)
    }

    /// This is said.
    fn hear_said(&mut self, read: usize, octets: Vec<u8>, answer: Answer<'_>) -> Vec<u8>
        ensures { HeardUnless
            ((reply : Reply) → answer.entry ≡ answers.Nothing → IsReply octets.items reply
            → HeardIs result.items self.old
            (says (in_phase (passed read self.old) model.Ready) reply) self.new)
            (answer.entry ≢ answers.Nothing)
            result.items self.old self.new }
    {
        match answer {
            Answer::Nothing => {
                drop(answer);
                self.cutter.pass(read);
                self.enter(Phase::Ready);
                octets
            }
            _ => self.unheard(answer),
        }
    }

    /// This is said, and the session leaves.
    fn hear_left(&mut self, read: usize, octets: Vec<u8>, answer: Answer<'_>) -> Vec<u8>
        ensures { HeardUnless
            ((reply : Reply) → answer.entry ≡ answers.Nothing → IsReply octets.items reply
            → HeardIs result.items self.old
            (parts (passed read self.old) reply) self.new)
            (answer.entry ≢ answers.Nothing)
            result.items self.old self.new }
    {
        match answer {
            Answer::Nothing => {
                drop(answer);
                self.cutter.pass(read);
                self.enter(Phase::Leaving);
                octets
            }
            _ => self.unheard(answer),
        }
    }

    /// Nothing is said, and the answer is let go.
    pub(crate) fn unheard(&self, answer: Answer<'_>) -> Vec<u8>
        ensures { result.items ≡ [] }
    {
        drop(answer);
        Vec::new(self.alloc)
    }

    /// The job whose push is planned: it is in the session's hand no more. The answer to hear is
    /// `Pushed(true)` then.
    pub fn hand_over(&mut self) -> Option<Job>
        ensures { HandsOver self.old result self.new }
    {
        self.hand.take()
    }

    /// Octets come. Memory is refused only where the room that there is doesn't do.
    pub fn feed(&mut self, piece: &[u8]) -> Result<(), AllocError>
        ensures fed { IfOk result (λ _. Fed self.old piece.now self.new) }
        ensures err { OnErr result (StandsAsBefore self.old self.new) }
        ensures room { HasRoom self.old.cutter (length piece.now) → IsOk result }
    {
        match self.cutter.feed(piece) {
            Ok(()) => Ok(()),
            Err(_) => Err(AllocError),
        }
    }

    /// The connection is gone: the session leaves, and what it gathered of a fetch is let go.
    pub fn break_off(&mut self)
        ensures { BrokenOff self.old self.new }
    {
        self.enter(Phase::Leaving);
    }

    /// This phase follows, and what the one before it had is let go.
    pub(crate) fn enter(&mut self, phase: Phase)
        ensures { self.new ≡ record self.old { phase = phase } }
    {
        drop(mem::replace(&mut self.phase, phase));
    }
}
