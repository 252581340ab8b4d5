//! Command lines: what each asks, and what is made of the answer to an offer.
ghost use Rattle.std.specs.Prelude.{◌≡◌, ◌≢◌, ◌≤◌, ◌<◌, ◌==◌, ℕ, false, Ok, IfOk, IfSome, IsOk};
ghost use Rattle.std.specs.Prelude.{OnErr, None, Some, length, map, position};
ghost use Rattle.article_verdict.specs.Config.{terms_of};
ghost use Rattle.feed_queue.specs.Permission.{feed_view};
ghost use Rattle.id_history.specs.Answers.{offer_view};
ghost use Rattle.news_terms.specs.Command.{command_of};
ghost use Rattle.news_terms.specs.Command as commands;
ghost use Rattle.news_terms.specs.Lines.{Incomplete, next_line};
ghost use Rattle.nntp_text.specs.Command.{command_view};
ghost use Rattle.nntp_text.specs.Reply.{reply_room, reply_view, room_of};
ghost use Rattle.relay_model.specs.Asks.{feed_of, is_full, run_out};
ghost use Rattle.relay_model.specs.Hears.{offer_heard};
ghost use Rattle.relay_model.specs.State as model;
ghost use Rattle.relay_model.specs.Terms.{FeedTerms, last_moment};
ghost use Rattle.relay_model.specs.World.{Speaks};
ghost use Rattle.stream_cut.specs.Stream.{ShowsLine};
ghost use Rattle.peer_session.specs.Asking.{IsAskedBy, IsFetching, IsLeaving, IsLooking};
ghost use Rattle.peer_session.specs.Asking.{IsOffering, IsSaying};
ghost use Rattle.peer_session.specs.Hearing.{HeardIs, HeardUnless};
ghost use Rattle.peer_session.specs.Planning.{Plans, offering};
ghost use Rattle.peer_session.specs.Session.{StandsAsBefore, passed, transfer_view};

use crate::chains::Opened;
use crate::leaving::release_due;
use crate::offers::OpenOffers;
use crate::phase::{Due, Phase, Todo, Transfer};
use crate::room::Room;
use crate::session::Session;
use crate::steps::{Answer, Step};
use article_fetch::{Asked, Reading};
use cyc_token::Token;
use date_rules::stamp;
use id_history::Offer;
use nntp_text::{CmdError, Command, MsgId, Part, Reply};
use relay_conf::{Config, Feed};
use std::alloc::{AllocError, Global};
use stream_cut::FoundLine;

impl Session {
    /// What is due where a command is read: the oldest open offer ends where it has run out, else
    /// it is by a line.
    pub(crate) fn command_due(&mut self, config: &Config, now: u64) -> Result<Due, AllocError>
        requires moment { now ≤ last_moment }
        requires ready { self.old.phase ≡ Phase.Ready }
        ensures due { IfOk result (λ due. Plans (terms_of config.now) self.old now due self.new) }
        ensures err { OnErr result (StandsAsBefore self.old self.new) }
        ensures free { run_out (terms_of config.now).offers now self.old.offers ≡ None
            → next_line self.old.cutter.unread ≡ Incomplete → IsOk result }
    {
        if let Some(id) = self.offers.oldest_ended(config.relay.offers, now) {
            return release_due(self.alloc, id);
        }
        self.line_due(config, now)
    }

    /// What is due where a line is read: nothing until one is whole.
    fn line_due(&mut self, config: &Config, now: u64) -> Result<Due, AllocError>
        requires moment { now ≤ last_moment }
        requires ready { self.old.phase ≡ Phase.Ready }
        requires lasting { run_out (terms_of config.now).offers now self.old.offers ≡ None }
        ensures due { IfOk result (λ due. Plans (terms_of config.now) self.old now due self.new) }
        ensures err { OnErr result (StandsAsBefore self.old self.new) }
        ensures free { next_line self.old.cutter.unread ≡ Incomplete → IsOk result }
    {
        // a session that reads a command is never in the middle of a block
        if self.cutter.is_passing() {
            return Ok(Due::rest());
        }
        match self.cutter.find_line() {
            FoundLine::Whole(end) => self.due_of_line(config, now, end),
            FoundLine::TooLong => {
                let (todo, step) = left(self.alloc, Reply::LineTooLong)?;
                Ok(Due {
                    todo,
                    read: 0,
                    step,
                })
            }
            FoundLine::Incomplete => Ok(Due::rest()),
        }
    }

    /// What the line of so many octets asks that is unread.
    fn due_of_line(&self, config: &Config, now: u64, end: usize) -> Result<Due, AllocError>
        requires moment { now ≤ last_moment }
        requires ready { self.now.phase ≡ Phase.Ready }
        requires lasting { run_out (terms_of config.now).offers now self.now.offers ≡ None }
        requires shown { ShowsLine self.now.cutter end }
        ensures { IfOk result (λ due. Plans (terms_of config.now) self.now now due self.now) }
    {
        let line = &self.cutter.kept()[..end];
        let (todo, step) = self.line_asked(config, now, line)?;
        Ok(Due {
            todo,
            read: end + 2,
            step,
        })
    }

    /// What a line asks.
    fn line_asked(&self, config: &Config, now: u64, line: &[u8]) -> Result<(Todo, Step), AllocError>
        requires { now ≤ last_moment }
        ensures { IfOk result (λ one.
            IsAskedBy (terms_of config.now) now self.now (command_of line.now) one) }
    {
        match Command::parse(self.alloc, line) {
            Ok(command) => self.asked(config, now, command),
            Err(CmdError::Unknown) => said(self.alloc, Reply::UnknownCommand),
            Err(CmdError::Syntax) => said(self.alloc, Reply::SyntaxError),
            Err(CmdError::Memory) => Err(AllocError),
        }
    }

    /// What a command asks.
    fn asked(
        &self,
        config: &Config,
        now: u64,
        command: Command<'_>,
    ) -> Result<(Todo, Step), AllocError>
        requires { now ≤ last_moment }
        ensures { IfOk result (λ one.
            IsAskedBy (terms_of config.now) now self.now (Ok (command_view command.entry)) one) }
    {
        match command {
            Command::Check(id) => check_asked(self.alloc, &self.offers, id, now),
            Command::Ihave(id) => ihave_asked(self.alloc, &self.offers, id, now),
            Command::TakeThis(id) => Ok((Todo::Owe(id), Step::Nothing)),
            Command::Fetch(part, id) => look_asked(self.alloc, part, id),
            Command::FetchToken(word) => token_asked(self.alloc, word),
            Command::TakeQueue(most) => queue_asked(self.alloc, config, self.peer, most),
            Command::NeedsGroup => said(self.alloc, Reply::NoGroup),
            Command::Quit => left(self.alloc, Reply::Bye),
            Command::AskDate => said(self.alloc, Reply::DateIs(stamp(now))),
            Command::AskCapabilities => said(self.alloc, Reply::CapabilityList),
            Command::AskHelp => said(self.alloc, Reply::HelpText),
            Command::ModeStream => said(self.alloc, Reply::StreamingPermitted),
            Command::ModeReader => said(self.alloc, Reply::PostingProhibited),
        }
    }

    /// The answer to CHECK or IHAVE of an id at this moment. After IHAVE the block of the id is
    /// owed where the article is wanted; after CHECK none is.
    pub(crate) fn hear_offer(
        &mut self,
        read: usize,
        transfer: Transfer,
        offer: Opened,
        owed: Option<MsgId>,
        room: Room,
        answer: Answer<'_>,
    ) -> Vec<u8>
        ensures { HeardUnless
            ((told : Offer) → answer.entry ≡ Answer.Offer told
            → (transfer ≡ Transfer.Has → owed ≡ Some offer.id)
            → is_full self.old.offers offer.id ≡ false → self.old.phase ≡ Phase.Ready
            → HeardIs result.items self.old (offer_heard
            (offering read self.old offer.id offer.since) (transfer_view transfer) offer.id
            (offer_view told)) self.new)
            ((told : Offer) → answer.entry ≢ Answer.Offer told)
            result.items self.old self.new }
    {
        let Opened { id, since } = offer;
        match answer {
            Answer::Offer(told) => {
                drop(answer);
                self.cutter.pass(read);
                let octets = room.say(offer_reply(transfer, told, &id));
                match told {
                    Offer::Wanted => {
                        self.offers.open(id, since);
                        if let Transfer::TakesThis = transfer {
                            drop(owed);
                            return octets;
                        }
                        self.enter(Phase::AwaitsBlock(transfer, owed));
                        octets
                    }
                    _ => {
                        self.offers.close(&id);
                        drop(owed);
                        octets
                    }
                }
            }
            _ => self.unheard(answer),
        }
    }
}

/// What is said of an id that was offered so.
fn offer_reply(transfer: Transfer, told: Offer, id: &MsgId) -> Reply<'_>
    ensures reply { (session : model.Session)
        → (offer_heard session (transfer_view transfer) id.now (offer_view told)).said
        ≡ Speaks (reply_view result) }
    ensures room { room_of result ≡ reply_room }
{
    match told {
        Offer::Wanted => match transfer {
            Transfer::TakesThis => Reply::SendIt(id),
            Transfer::Has => Reply::IhaveSend,
        },
        Offer::Later => match transfer {
            Transfer::TakesThis => Reply::AskLater(id),
            Transfer::Has => Reply::IhaveLater,
        },
        Offer::Seen => match transfer {
            Transfer::TakesThis => Reply::NotWanted(id),
            Transfer::Has => Reply::IhaveNotWanted,
        },
    }
}

/// These words are said, and nothing is shared.
pub(crate) fn said(alloc: Global, reply: Reply<'_>) -> Result<(Todo, Step), AllocError>
    requires { room_of reply ≡ reply_room }
    ensures { IfOk result (IsSaying (reply_view reply.entry)) }
{
    let octets = Room::for_items(alloc, 0)?.say(reply);
    Ok((Todo::Say(octets), Step::Nothing))
}

/// These words are said, and the session leaves.
fn left(alloc: Global, reply: Reply<'_>) -> Result<(Todo, Step), AllocError>
    requires { room_of reply ≡ reply_room }
    ensures { IfOk result (IsLeaving (reply_view reply.entry)) }
{
    let octets = Room::for_items(alloc, 0)?.say(reply);
    Ok((Todo::Leave(octets), Step::Nothing))
}

/// Room for the reply to a step of this id, which shows no items, and the id once more, for the
/// step.
pub(crate) fn room_and_copy(alloc: Global, id: &MsgId) -> Result<(Room, MsgId), AllocError>
    ensures room { IfOk result (λ pair. pair.0 ≡ 0) }
    ensures copy { IfOk result (λ pair. pair.1 ≡ id.now) }
{
    let room = Room::for_items(alloc, 0)?;
    let copy = id.copied(alloc)?;
    Ok((room, copy))
}

/// CHECK of an id at this moment, where these offers are open.
fn check_asked(
    alloc: Global,
    offers: &OpenOffers,
    id: MsgId,
    now: u64,
) -> Result<(Todo, Step), AllocError>
    ensures { IfOk result (IsOffering offers.now now model.TakesThis id) }
{
    if offers.is_full(&id) {
        return said(alloc, Reply::AskLater(&id));
    }
    let (room, copy) = room_and_copy(alloc, &id)?;
    Ok((Todo::Check(id, room, now), Step::Offer(copy)))
}

/// IHAVE of an id at this moment, where these offers are open.
fn ihave_asked(
    alloc: Global,
    offers: &OpenOffers,
    id: MsgId,
    now: u64,
) -> Result<(Todo, Step), AllocError>
    ensures { IfOk result (IsOffering offers.now now model.Has id) }
{
    if offers.is_full(&id) {
        return said(alloc, Reply::IhaveLater);
    }
    let copy = id.copied(alloc)?;
    let (room, asked) = room_and_copy(alloc, &id)?;
    Ok((Todo::Ihave(id, copy, room, now), Step::Offer(asked)))
}

/// XTAKE of at most so many by the peer of this number.
fn queue_asked(
    alloc: Global,
    config: &Config,
    peer: usize,
    most: u16,
) -> Result<(Todo, Step), AllocError>
    ensures { IfOk result (λ one. (now : ℕ) (session : Session) → session.peer ≡ peer
        → IsAskedBy (terms_of config.now) now session (Ok (commands.TakeQueue most)) one) }
{
    match feed_number(config, peer) {
        Some(feed) => {
            let room = Room::for_items(alloc, most)?;
            Ok((Todo::Queue(room), Step::TakeQueue(feed, usize::from(most))))
        }
        None => said(alloc, Reply::NoFeed),
    }
}

/// ARTICLE, HEAD, BODY, OVER or STAT of an id.
fn look_asked(alloc: Global, part: Part, id: MsgId) -> Result<(Todo, Step), AllocError>
    ensures { IfOk result (IsLooking part id) }
{
    let (room, copy) = room_and_copy(alloc, &id)?;
    Ok((Todo::Look(part, id, room), Step::Look(copy)))
}

/// XFETCH of a word.
fn token_asked(alloc: Global, word: &[u8]) -> Result<(Todo, Step), AllocError>
    ensures { IfOk result (IsFetching word.now) }
{
    match Token::parse(word) {
        Ok(token) => {
            let mut reading = Reading::new(alloc, Asked::OfToken, token);
            match reading.prepare() {
                Ok(()) => Ok((Todo::Fetch(reading), Step::Read(token, 0))),
                Err(error) => {
                    drop(reading);
                    Err(error)
                }
            }
        }
        Err(_) => said(alloc, Reply::SyntaxError),
    }
}

/// The number of a peer's feed, where it has one.
fn feed_number(config: &Config, peer: usize) -> Option<u16>
    ensures number { result ≡ feed_of (terms_of config.now) peer }
    ensures within { IfSome result (λ feed. feed < length (terms_of config.now).feeds) }
{
    let place = feed_place(&config.relay.feeds, peer)?;
    Some(place as u16)
}

/// The place of a peer's feed.
fn feed_place(feeds: &[Feed], peer: usize) -> Option<usize>
    ensures place { result
        ≡ position (λ (feed : FeedTerms). feed.peer == peer) (map feed_view feeds.now) }
    ensures within { IfSome result (λ place. place < length feeds.now) }
{
    for (place, feed) in feeds.iter().enumerate() {
        if usize::from(feed.peer) == peer {
            return Some(place);
        }
    }
    None
}
