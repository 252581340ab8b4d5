//! The parts of a reply: the words of its first line, what that names, and what follows it.
ghost use Rattle.std.specs.Prelude.{◌≡◌, ◌+◌, ◌≤◌};
ghost use Rattle.news_terms.specs.Reply.{reply_text};
ghost use Rattle.nntp_text.specs.Reply as terms;
ghost use Rattle.nntp_text.specs.Reply.{HasWords, first_room, reply_view, room_of, text_of};

use crate::id::MsgId;
use crate::reply::Reply;
use cyc_token::Token;

/// What the first line of a reply names after its words.
#[derive(Drop)]
pub(crate) enum Named<'a> {
    Nothing,
    Id(&'a MsgId),
    Token(Token),
    Gone(Token),
    Unknown(Token),
    Digits([u8; 14]),
}

/// What follows the first line of a reply.
#[derive(Drop)]
pub(crate) enum Rest<'a> {
    Nothing,
    /// A text, as a block.
    Text(&'a [u8]),
    /// A line and the end.
    Line(&'a [u8]),
    /// A number, a line for each item, and the end.
    Queue(u64, &'a [(u64, Token)]),
}

/// The parts of a reply.
#[derive(Drop)]
pub(crate) struct Parts<'a> {
    pub(crate) words: &'static [u8],
    pub(crate) named: Named<'a>,
    pub(crate) rest: Rest<'a>,
}

/// The parts of a reply.
pub(crate) fn parts_of<'a>(reply: &Reply<'a>) -> Parts<'a>
    ensures text { reply_text (reply_view reply.now) ≡ text_of result }
    ensures first { first_room result ≤ terms.reply_room }
    ensures room { first_room result + terms.rest_room result.rest ≤ room_of reply.now }
{
    Parts {
        words: words_of(reply),
        named: named_of(reply),
        rest: rest_of(reply),
    }
}

/// The words of the first line of a reply.
fn words_of(reply: &Reply<'_>) -> &'static [u8]
    ensures { HasWords reply.now result.now }
{
    match *reply {
        Reply::Greeting => GREETING,
        Reply::CapabilityList => CAPABILITIES,
        Reply::HelpText => HELP,
        Reply::DateIs(_) => b"111 ",
        Reply::Bye => b"205 Bye",
        Reply::StreamingPermitted => b"203 Streaming permitted",
        Reply::PostingProhibited => b"201 Posting prohibited",
        Reply::SendIt(_) => b"238 ",
        Reply::AskLater(_) => b"431 ",
        Reply::NotWanted(_) => b"438 ",
        Reply::Kept(_) => b"239 ",
        Reply::Rejected(_) => b"439 ",
        Reply::NotStored => b"400 Not stored, closing",
        Reply::IhaveSend => b"335 Send it",
        Reply::IhaveNotWanted => b"435 Not wanted",
        Reply::IhaveLater => b"436 Try again later",
        Reply::IhaveKept => b"235 Transferred",
        Reply::IhaveRejected => b"437 Rejected",
        Reply::ArticleFollows(_, _) => b"220 0 ",
        Reply::HeaderFollows(_, _) => b"221 0 ",
        Reply::BodyFollows(_, _) => b"222 0 ",
        Reply::Exists(_) => b"223 0 ",
        Reply::OverviewFollows(_) => b"224 Overview follows",
        Reply::NoArticle => b"430 No such article",
        Reply::NoGroup => b"412 No group selected",
        Reply::DeviceFault => b"403 Device fault",
        Reply::QueueFollows(_, _) => QUEUE,
        Reply::NoFeed => b"490 No feed",
        Reply::TokenFollows(_, _) => b"292 ",
        Reply::TokenGone(_) => b"492 ",
        Reply::TokenUnknown(_) => b"493 ",
        Reply::UnknownCommand => b"500 Unknown command",
        Reply::SyntaxError => b"501 Syntax error",
        Reply::LineTooLong => b"501 Line too long",
    }
}

/// What the first line of a reply names.
fn named_of<'a>(reply: &Reply<'a>) -> Named<'a>
    ensures { result ≡ terms.named_of reply.now }
{
    match *reply {
        Reply::DateIs(digits) => Named::Digits(digits),
        Reply::SendIt(id)
        | Reply::AskLater(id)
        | Reply::NotWanted(id)
        | Reply::Kept(id)
        | Reply::Rejected(id)
        | Reply::ArticleFollows(id, _)
        | Reply::HeaderFollows(id, _)
        | Reply::BodyFollows(id, _)
        | Reply::Exists(id) => Named::Id(id),
        Reply::TokenFollows(token, _) => Named::Token(token),
        Reply::TokenGone(token) => Named::Gone(token),
        Reply::TokenUnknown(token) => Named::Unknown(token),
        _ => Named::Nothing,
    }
}

/// What follows the first line of a reply.
fn rest_of<'a>(reply: &Reply<'a>) -> Rest<'a>
    ensures { result ≡ terms.rest_of reply.now }
{
    match *reply {
        Reply::ArticleFollows(_, text)
        | Reply::HeaderFollows(_, text)
        | Reply::BodyFollows(_, text)
        | Reply::TokenFollows(_, text) => Rest::Text(text),
        Reply::OverviewFollows(line) => Rest::Line(line),
        Reply::QueueFollows(missed, items) => Rest::Queue(missed, items),
        _ => Rest::Nothing,
    }
}

/// The first line of a session, but its end.
const GREETING: &[u8] = b"201 cnrelay ready, posting prohibited";

/// The first line of what is taken of a queue, but its end.
const QUEUE: &[u8] = b"290 Queue follows";

/// CAPABILITIES: all lines but the end of the last.
const CAPABILITIES: &[u8] = b"101 Capability list:\r\n\
    VERSION 2\r\n\
    IMPLEMENTATION cnrelay\r\n\
    IHAVE\r\n\
    STREAMING\r\n\
    XTAKE\r\n\
    XFETCH\r\n\
    .";

/// HELP: all lines but the end of the last.
const HELP: &[u8] = b"100 Help text follows\r\n\
    CHECK TAKETHIS IHAVE STAT ARTICLE HEAD BODY OVER XTAKE XFETCH MODE DATE CAPABILITIES HELP QUIT\
    \r\n.";
