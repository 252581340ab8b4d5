//! Blocks: the article of one is judged, and what is made of the answer.
ghost use Rattle.std.specs.Prelude.{◌≡◌, ◌≢◌, ◌≤◌, Option, Some, None, IfOk, IsOk, OnErr};
ghost use Rattle.std.specs.Option.{option_copied};
ghost use Rattle.article_verdict.specs.Config.{terms_of};
ghost use Rattle.buffer_group.specs.Jobs.{article_view};
ghost use Rattle.id_history.specs.Answers.{take_view};
ghost use Rattle.news_terms.specs.Blocks.{Unfinished, next_block};
ghost use Rattle.nntp_text.specs.Reply.{reply_room, reply_view, room_of};
ghost use Rattle.relay_model.specs.Hears as hears;
ghost use Rattle.relay_model.specs.Hears.{says, take_heard};
ghost use Rattle.relay_model.specs.Terms.{last_moment};
ghost use Rattle.stream_cut.specs.Stream.{ShowsBlock};
ghost use Rattle.peer_session.specs.Asking.{IsOwedAsked, IsAwaitingBlock, TakesOwed};
ghost use Rattle.peer_session.specs.Asking.{TextAt};
ghost use Rattle.peer_session.specs.Hearing.{HeardIs, HeardUnless};
ghost use Rattle.peer_session.specs.Planning.{Plans, block_passed};
ghost use Rattle.peer_session.specs.Session.{HasAll, IsBounded, StandsAsBefore, session_view};
ghost use Rattle.peer_session.specs.Session.{transfer_view};

use crate::lines::{room_and_copy, said};
use crate::phase::{Due, Phase, Todo, Transfer};
use crate::room::Room;
use crate::session::Session;
use crate::steps::{Answer, Step};
use article_verdict::verdict;
use buffer_group::{Accepted, Job};
use id_history::Take;
use nntp_text::{MsgId, Reply};
use relay_conf::Config;
use std::alloc::{AllocError, Global};
use std::mem;
use stream_cut::{FoundBlock, unstuff};

impl Session {
    /// What is due where a block is owed: nothing until one is whole.
    pub(crate) fn block_due(&mut self, config: &Config, now: u64) -> Result<Due, AllocError>
        requires { IsAwaitingBlock self.old.phase }
        ensures due { IfOk result (λ due. Plans (terms_of config.now) self.old now due self.new) }
        ensures err { OnErr result (StandsAsBefore self.old self.new) }
        ensures free { next_block self.old.cutter.limit self.old.cutter.unread ≡ Unfinished
            → IsOk result }
        ensures bounded { IsBounded self.new.cutter }
    {
        match self.cutter.find_block() {
            FoundBlock::Whole { octets, dots } => self.due_of_block(config, now, octets, dots),
            FoundBlock::Oversize(read) => self.due_of_text(config, now, read, None),
            FoundBlock::Unfinished => Ok(Due::rest()),
        }
    }

    /// What is due of a block whose lines take so many octets, and so many of them begin with a
    /// dot. A text without such lines isn't copied.
    fn due_of_block(
        &self,
        config: &Config,
        now: u64,
        octets: usize,
        dots: usize,
    ) -> Result<Due, AllocError>
        requires owes { IsAwaitingBlock self.now.phase }
        requires shown { ShowsBlock self.now.cutter octets dots }
        ensures { IfOk result (λ due. Plans (terms_of config.now) self.now now due self.now) }
    {
        let lines = &self.cutter.kept()[..octets];
        if dots == 0 {
            return self.due_of_text(config, now, octets + 3, Some(lines));
        }
        let text = unstuff(self.alloc, lines, octets - dots)?;
        self.due_of_text(config, now, octets + 3, Some(&text))
    }

    /// What is due of a block of so many octets with this text, `None` where it was oversize.
    fn due_of_text(
        &self,
        config: &Config,
        now: u64,
        read: usize,
        text: Option<&[u8]>,
    ) -> Result<Due, AllocError>
        requires owes { IsAwaitingBlock self.now.phase }
        requires text { TextAt read (option_copied text) self.now.cutter }
        ensures { IfOk result (λ due. Plans (terms_of config.now) self.now now due self.now) }
    {
        match &self.phase {
            Phase::AwaitsBlock(_, id) => {
                let (todo, step) = owed_asked(self.alloc, config, self.peer, now, id, text)?;
                Ok(Due { todo, read, step })
            }
            _ => Ok(Due::rest()),
        }
    }

    /// The block counts as read, and the open offer of its id ends: what was owed.
    fn take_owed(&mut self, read: usize) -> Option<(Transfer, MsgId)>
        ensures { TakesOwed read self.old result self.new }
    {
        match mem::replace(&mut self.phase, Phase::Ready) {
            Phase::AwaitsBlock(transfer, Some(id)) => {
                self.cutter.pass(read);
                self.offers.close(&id);
                Some((transfer, id))
            }
            other => {
                self.enter(other);
                None
            }
        }
    }

    /// The answer to a refusal.
    pub(crate) fn hear_refused(&mut self, read: usize, room: Room, answer: Answer<'_>) -> Vec<u8>
        ensures { HeardUnless
            ((transfer : Transfer) (id : MsgId) → answer.entry ≡ Answer.Nothing
            → self.old.phase ≡ Phase.AwaitsBlock transfer (Some id)
            → HeardIs result.items self.old (says (block_passed read self.old id)
            (hears.rejected (transfer_view transfer) id)) self.new)
            (answer.entry ≢ Answer.Nothing)
            result.items self.old self.new }
    {
        match answer {
            Answer::Nothing => match self.take_owed(read) {
                Some((transfer, id)) => room.say(rejected(transfer, &id)),
                None => Vec::new(self.alloc),
            },
            _ => self.unheard(answer),
        }
    }

    /// The answer to an accepted article.
    pub(crate) fn hear_taken(
        &mut self,
        number: u64,
        read: usize,
        copy: MsgId,
        article: Accepted,
        room: Room,
        answer: Answer<'_>,
    ) -> Vec<u8>
        ensures { HeardUnless
            ((transfer : Transfer) (told : Take) → answer.entry ≡ Answer.Take told
            → self.old.phase ≡ Phase.AwaitsBlock transfer (Some copy)
            → HeardIs result.items self.old (take_heard number (block_passed read self.old copy)
            (transfer_view transfer) copy (article_view article) (take_view told)) self.new)
            ((told : Take) → answer.entry ≢ Answer.Take told)
            result.items self.old self.new }
    {
        match answer {
            Answer::Take(told) => match self.take_owed(read) {
                Some((transfer, id)) => {
                    let job = Job {
                        session: number,
                        id: copy,
                        article,
                    };
                    self.hear_take(transfer, id, job, room, told)
                }
                None => Vec::new(self.alloc),
            },
            _ => self.unheard(answer),
        }
    }

    /// The job comes into the session's hand, or the id is remembered, or another article of the id
    /// is being stored.
    pub(crate) fn hear_take(
        &mut self,
        transfer: Transfer,
        id: MsgId,
        job: Job,
        room: Room,
        told: Take,
    ) -> Vec<u8>
        ensures { job.id ≡ id → self.old.phase ≡ Phase.Ready → self.old.cutter.dropped ≡ 0
            → HeardIs result.items self.old (take_heard job.session (session_view self.old)
            (transfer_view transfer) id (article_view job.article) (take_view told)) self.new }
    {
        match told {
            Take::Mine => {
                drop(self.hand.replace(job));
                self.enter(Phase::Waits(transfer, id, room));
                Vec::new(self.alloc)
            }
            Take::Seen => {
                drop(job);
                room.say(rejected(transfer, &id))
            }
            Take::Held => match transfer {
                Transfer::TakesThis => {
                    self.enter(Phase::Holds(id, job.article, room));
                    Vec::new(self.alloc)
                }
                Transfer::Has => {
                    drop(job);
                    room.say(Reply::IhaveLater)
                }
            },
        }
    }
}

/// What is asked of a block from the peer of this number that was owed under this id, once its text
/// is judged; where there is no id, that is said.
fn owed_asked(
    alloc: Global,
    config: &Config,
    peer: usize,
    now: u64,
    id: &Option<MsgId>,
    text: Option<&[u8]>,
) -> Result<(Todo, Step), AllocError>
    ensures { IfOk result
        (IsOwedAsked (terms_of config.now) peer now id.now (option_copied text.entry)) }
{
    let Some(id) = id else {
        return said(alloc, Reply::SyntaxError);
    };
    let (room, asked) = room_and_copy(alloc, id)?;
    match verdict(alloc, config, id, peer, text, now)? {
        Ok(article) => match id.copied(alloc) {
            Ok(copy) => Ok((Todo::Take(copy, article, room), Step::Take(asked))),
            Err(error) => {
                drop(article);
                Err(error)
            }
        },
        Err(reason) => Ok((Todo::Refuse(room), Step::Refuse(asked, reason))),
    }
}

/// What is said of an article that isn't taken.
fn rejected(transfer: Transfer, id: &MsgId) -> Reply<'_>
    ensures reply { reply_view result ≡ hears.rejected (transfer_view transfer) id.now }
    ensures room { room_of result ≡ reply_room }
{
    match transfer {
        Transfer::TakesThis => Reply::Rejected(id),
        Transfer::Has => Reply::IhaveRejected,
    }
}
