//! What a session does next, and what it has planned.
use crate::room::Room;
use crate::steps::Step;
use article_fetch::Reading;
use buffer_group::Accepted;
use nntp_text::{MsgId, Part};
use std::marker::Model;

/// How a peer sends an article.
#[derive(Clone, Copy)]
pub(crate) enum Transfer {
    /// By TAKETHIS, after CHECK or without it (RFC 4644 section 2.5).
    TakesThis,
    /// By IHAVE (RFC 3977 section 6.3.2).
    Has,
}

/// What a session does next (docs/PROTOCOL.md, Phases). Where a later reply is certain its room is
/// there.
#[derive(Drop)]
pub(crate) enum Phase {
    /// It reads a command.
    Ready,
    /// It owes the block of this command; `None` where its argument was no message-id.
    AwaitsBlock(Transfer, Option<MsgId>),
    /// It holds an accepted article while another session stores one of its id.
    Holds(MsgId, Accepted, Room),
    /// Its job in hand is pushed, then it waits for the outcome of its article.
    Waits(Transfer, MsgId, Room),
    /// It fetches a stored article, a block a turn.
    Fetches(Reading),
    /// It has ended, and gives up what it had.
    Leaving,
    /// It is closed.
    Ended,
}

/// What a plan asks, with the memory that its answer can need.
#[derive(Drop)]
pub(crate) enum Todo {
    /// Nothing is due.
    Rest,
    /// Nothing is said; a block follows, and `None` stands for its id where there is none.
    Owe(Option<MsgId>),
    /// These octets are said.
    Say(Vec<u8>),
    /// These octets are said, and the session leaves.
    Leave(Vec<u8>),
    /// CHECK: the id is offered at this moment.
    Check(MsgId, Room, u64),
    /// IHAVE: the id is offered at this moment. It is there twice, for its open offer and for its
    /// block.
    Ihave(MsgId, MsgId, Room, u64),
    /// The token of the id is looked up.
    Look(Part, MsgId, Room),
    /// XFETCH: the fetch begins with the first block.
    Fetch(Reading),
    /// The fetch of the phase reads its next block.
    ReadOn,
    /// A feed's queue is taken.
    Queue(Room),
    /// The block that was owed was refused.
    Refuse(Room),
    /// The block that was owed was accepted; its id once more, for the job.
    Take(MsgId, Accepted, Room),
    /// The article that the session holds is tried again; its id once more, for the job.
    TakeHeld(MsgId),
    /// The job in hand is pushed.
    Push,
    /// The outcome is looked for.
    Slot,
    /// The oldest open offer ends.
    Release,
    /// Nothing is left to give up.
    End,
}

/// What a session has planned: how many of its unread octets count as read once the answer is
/// heard.
#[derive(Drop)]
pub(crate) struct Planned {
    pub(crate) todo: Todo,
    pub(crate) read: usize,
}

/// What a session has planned, as it lies there until the answer comes. A contract sees what is
/// planned.
#[derive(Drop)]
pub(crate) struct Plan {
    planned: Planned,
}

impl Model for Plan {
    ghost use Rattle.peer_session.specs.declared.phase.Planned.{Planned};

    ghost Value = { Planned };

    ghost view = { λ plan. plan.planned };
}

impl Plan {
    ghost use Rattle.std.specs.Prelude.{◌≡◌};
    ghost use Rattle.peer_session.specs.Planning.{rests};

    /// This is planned.
    pub(crate) fn new(planned: Planned) -> Plan
        ensures { result ≡ planned }
    {
        Plan { planned }
    }

    /// Whether nothing is due.
    pub(crate) fn is_resting(&self) -> bool
        ensures { result ≡ rests self.now.todo }
    {
        match &self.planned.todo {
            Todo::Rest => true,
            _ => false,
        }
    }

    /// What was planned.
    pub(crate) fn into_planned(self) -> Planned
        ensures { result ≡ self }
    {
        self.planned
    }
}

/// What is due: what is planned, and the step that it names.
#[derive(Drop)]
pub(crate) struct Due {
    pub(crate) todo: Todo,
    pub(crate) read: usize,
    pub(crate) step: Step,
}

impl Due {
    ghost use Rattle.std.specs.Prelude.{◌≡◌};
    ghost use Rattle.peer_session.specs.declared.phase.Todo.TheVariants as todos;
    ghost use Rattle.peer_session.specs.declared.steps.Step.TheVariants as steps;

    /// Nothing is due.
    pub(crate) fn rest() -> Due
        ensures { result ≡ record { todo = todos.Rest; read = 0; step = steps.Nothing } }
    {
        Due {
            todo: Todo::Rest,
            read: 0,
            step: Step::Nothing,
        }
    }
}
