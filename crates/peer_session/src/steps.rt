//! What a session asks of what is shared, and what it is answered.
ghost use Rattle.std.specs.Prelude.{◌≡◌, option_map};
ghost use Rattle.article_verdict.specs.Verdict.{reason_view};
ghost use Rattle.peer_session.specs.Answers.{reason_in};

use article_fetch::Chunk;
use article_verdict::Reason;
use cyc_token::Token;
use feed_queue::Taken;
use id_history::{Offer, Take};
use nntp_text::MsgId;

/// The one step of what is shared that a turn takes (docs/PROTOCOL.md, Atomic steps).
#[derive(Drop)]
pub enum Step {
    /// None.
    Nothing,
    /// The id is offered.
    Offer(MsgId),
    /// The token of the id is looked up.
    Look(MsgId),
    /// The block of this number, counted from 0, is read of the token's article.
    Read(Token, u32),
    /// At most so many tokens are taken of this feed's ring.
    TakeQueue(u16, usize),
    /// The article of the id was refused, for this reason.
    Refuse(MsgId, Reason),
    /// The article of the id was accepted.
    Take(MsgId),
    /// The job in hand is pushed to the queue of this group, if that has room: then
    /// `Session::hand_over` gives it, and the answer is `Pushed(true)`.
    Push(u16),
    /// The outcome is taken out of the session's slot.
    Slot,
    /// The session's own offer of the id is released.
    Release(MsgId),
}

impl Step {
    /// The reason for which an article was refused, where the step is that.
    pub fn reason(&self) -> Option<Reason>
        ensures { option_map reason_view result ≡ reason_in self.now }
    {
        match self {
            Step::Refuse(_, reason) => Some(*reason),
            _ => None,
        }
    }
}

/// How the storing of an article ended.
#[derive(Clone, Copy)]
pub enum Outcome {
    /// It is stored.
    Kept,
    /// It couldn't be stored.
    Failed,
}

/// What the step was answered.
#[derive(Drop)]
pub enum Answer<'a> {
    /// Memory was refused, and nothing was done.
    Memory,
    /// It is done: the answer to `Nothing`, `Refuse` and `Release`.
    Nothing,
    Offer(Offer),
    Look(Option<Token>),
    /// What was read of a block: its octets are lent.
    Chunk(Chunk<'a>),
    Queue(Taken),
    Take(Take),
    Pushed(bool),
    Slot(Option<Outcome>),
}
