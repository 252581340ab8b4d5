//! What a session says, and its octets.
ghost use Rattle.std.specs.Prelude.{◌≡◌, ◌+◌, ◌*◌, ◌^◌, ◌≤◌, ◌<◌, ◌++◌, length, map, flat_map};
ghost use Rattle.std.specs.Prelude.{decimal, IfOk, vec_len, vec_capacity};
ghost use Rattle.cyc_token.specs.Token.{token_view};
ghost use Rattle.news_terms.specs.Blocks.{stuffed_room};
ghost use Rattle.news_terms.specs.Reply.{line_of, queue_line, reply_text};
ghost use Rattle.news_terms.specs.Token.{token_text};
ghost use Rattle.nntp_text.specs.Reply as terms;
ghost use Rattle.nntp_text.specs.Reply.{first_room, item_view, named_after, reply_view};
ghost use Rattle.nntp_text.specs.Reply.{rest_after, room_of, text_of};

use crate::id::MsgId;
use crate::parts::{Named, Parts, Rest, parts_of};
use cyc_token::Token;
use line_words::{put_decimal, put_octets};
use std::alloc::{AllocError, Global};
use stream_cut::put_stuffed;

/// What a session says (docs/FORMATS.md, Replies).
#[derive(Clone, Copy)]
pub enum Reply<'a> {
    /// The first line of a session (RFC 3977 section 5.1).
    Greeting,
    /// CAPABILITIES: what the server can do (RFC 3977 section 5.2).
    CapabilityList,
    /// HELP: which commands there are (RFC 3977 section 7.2).
    HelpText,
    /// DATE: the moment in UTC, as 14 digits (RFC 3977 section 7.1).
    DateIs([u8; 14]),
    /// QUIT: the last line of a session (RFC 3977 section 5.4).
    Bye,
    /// MODE STREAM (RFC 4644 section 2.3).
    StreamingPermitted,
    /// MODE READER (RFC 3977 section 5.3).
    PostingProhibited,
    /// CHECK: the article is to be sent (RFC 4644 section 2.4).
    SendIt(&'a MsgId),
    /// CHECK: the peer is to ask again later.
    AskLater(&'a MsgId),
    /// CHECK: the article isn't wanted.
    NotWanted(&'a MsgId),
    /// TAKETHIS: the article was kept (RFC 4644 section 2.5).
    Kept(&'a MsgId),
    /// TAKETHIS: the article was refused.
    Rejected(&'a MsgId),
    /// TAKETHIS: the article couldn't be stored; the session ends.
    NotStored,
    /// IHAVE: the article is to be sent (RFC 3977 section 6.3.2).
    IhaveSend,
    /// IHAVE: the article isn't wanted.
    IhaveNotWanted,
    /// IHAVE: the peer is to try again later.
    IhaveLater,
    /// IHAVE: the article was kept.
    IhaveKept,
    /// IHAVE: the article was refused.
    IhaveRejected,
    /// ARTICLE: the whole text (RFC 3977 section 6.2.1).
    ArticleFollows(&'a MsgId, &'a [u8]),
    /// HEAD: the lines of the header (RFC 3977 section 6.2.2).
    HeaderFollows(&'a MsgId, &'a [u8]),
    /// BODY: the lines of the body (RFC 3977 section 6.2.3).
    BodyFollows(&'a MsgId, &'a [u8]),
    /// STAT: the article is there (RFC 3977 section 6.2.4).
    Exists(&'a MsgId),
    /// OVER: the overview line (RFC 3977 section 8.3).
    OverviewFollows(&'a [u8]),
    /// No article of this message-id is there.
    NoArticle,
    /// The command wants a group, and none is selected.
    NoGroup,
    /// The device failed while the article was read.
    DeviceFault,
    /// XTAKE: how many tokens were overwritten untaken, and the next ones with their numbers.
    QueueFollows(u64, &'a [(u64, Token)]),
    /// XTAKE: the peer has no feed.
    NoFeed,
    /// XFETCH: the article of a token.
    TokenFollows(Token, &'a [u8]),
    /// XFETCH: the article of this token was overwritten.
    TokenGone(Token),
    /// XFETCH: no article was stored under this token.
    TokenUnknown(Token),
    /// The line is no command.
    UnknownCommand,
    /// The keyword is followed by other words than it takes.
    SyntaxError,
    /// The line has more octets than a line may have; the session ends.
    LineTooLong,
}

/// The most octets of a reply but for what it shows of an article or a queue: `223 0 `, a
/// message-id of 250 octets, and CRLF.
pub const REPLY_ROOM: usize = 258;

/// The most octets of a line of a queue: a serial number of 20 digits, SP, a token, and CRLF.
pub const ITEM_ROOM: usize = 53;

/// The octets of a reply (docs/FORMATS.md, Replies).
pub fn reply_bytes(alloc: Global, reply: &Reply) -> Result<Vec<u8>, AllocError>
    ensures { IfOk result (λ octets. octets.items ≡ reply_text (reply_view reply.now)) }
{
    let parts = parts_of(reply);
    let room = rest_room(&parts.rest)?;
    let mut octets = Vec::with_capacity(alloc, REPLY_ROOM + room)?;
    put_parts(&mut octets, &parts);
    Ok(octets)
}

/// Adds a reply where there is room for it: it doesn't fail, whatever memory there is.
pub fn put_reply(out: &mut Vec<u8>, reply: &Reply)
    requires { vec_len out.old + room_of reply.now ≤ vec_capacity out.old }
    ensures items { out.new.items ≡ out.old.items ++ reply_text (reply_view reply.now) }
    ensures room { length (reply_text (reply_view reply.now)) ≤ room_of reply.now }
    ensures capacity { vec_capacity out.new ≡ vec_capacity out.old }
{
    put_parts(out, &parts_of(reply));
}

/// The most octets of what follows the first line, where a `usize` has room for the number.
fn rest_room(rest: &Rest<'_>) -> Result<usize, AllocError>
    ensures { IfOk result (λ room. (room ≡ terms.rest_room rest.now) × (room + 258 < 2 ^ 64)) }
{
    match *rest {
        Rest::Nothing => Ok(0),
        Rest::Text(text) => Ok(text_room(text)),
        Rest::Line(line) => Ok(line_room(line)),
        Rest::Queue(_, items) => queue_room(items),
    }
}

/// The most octets of a text as a block.
fn text_room(text: &[u8]) -> usize
    ensures room { result ≡ stuffed_room (length text.now) }
    ensures fits { result + 258 < 2 ^ 64 }
{
    stream_cut::stuffed_room(text.len())
}

/// The octets of a line and the end.
fn line_room(line: &[u8]) -> usize
    ensures room { result ≡ length line.now + 5 }
    ensures fits { result + 258 < 2 ^ 64 }
{
    line.len() + 5
}

/// The most octets of a number, a line for each item, and the end. Memory has no room for as many
/// items as a `usize` couldn't count the octets of.
fn queue_room(items: &[(u64, Token)]) -> Result<usize, AllocError>
    ensures { IfOk result (λ room.
        (room ≡ terms.item_room * length items.now + 25) × (room + 258 < 2 ^ 64)) }
{
    if items.len() > 1 << 56 {
        return Err(AllocError);
    }
    Ok(ITEM_ROOM * items.len() + 25)
}

/// Adds a reply by its parts.
fn put_parts(out: &mut Vec<u8>, parts: &Parts<'_>)
    requires { vec_len out.old + first_room parts.now + terms.rest_room parts.now.rest
        ≤ vec_capacity out.old }
    ensures items { out.new.items ≡ out.old.items ++ text_of parts.now }
    ensures room { length (text_of parts.now)
        ≤ first_room parts.now + terms.rest_room parts.now.rest }
    ensures capacity { vec_capacity out.new ≡ vec_capacity out.old }
{
    put_octets(out, parts.words);
    put_named(out, &parts.named);
    put_octets(out, b"\r\n");
    put_rest(out, &parts.rest);
}

/// Adds what a first line names.
fn put_named(out: &mut Vec<u8>, named: &Named<'_>)
    requires { vec_len out.old + terms.named_room named.now ≤ vec_capacity out.old }
    ensures items { out.new.items ≡ named_after out.old.items named.now }
    ensures len { vec_len out.new ≤ vec_len out.old + terms.named_room named.now }
    ensures capacity { vec_capacity out.new ≡ vec_capacity out.old }
{
    match *named {
        Named::Nothing => {}
        Named::Id(id) => put_octets(out, id.as_bytes()),
        Named::Token(token) => put_token(out, &token),
        Named::Gone(token) => {
            put_token(out, &token);
            put_octets(out, b" gone");
        }
        Named::Unknown(token) => {
            put_token(out, &token);
            put_octets(out, b" unknown");
        }
        Named::Digits(digits) => put_digits(out, &digits),
    }
}

/// Adds what follows a first line.
#[tactic(auto, using(line_words::proofs::Numerals::decimal_within))]
fn put_rest(out: &mut Vec<u8>, rest: &Rest<'_>)
    requires { vec_len out.old + terms.rest_room rest.now ≤ vec_capacity out.old }
    ensures items { out.new.items ≡ rest_after out.old.items rest.now }
    ensures len { vec_len out.new ≤ vec_len out.old + terms.rest_room rest.now }
    ensures capacity { vec_capacity out.new ≡ vec_capacity out.old }
{
    match *rest {
        Rest::Nothing => {}
        Rest::Text(text) => put_stuffed(out, text),
        Rest::Line(line) => {
            put_line(out, line);
            put_line(out, b".");
        }
        Rest::Queue(missed, items) => {
            put_decimal(out, missed);
            put_octets(out, b"\r\n");
            put_items(out, items);
            put_line(out, b".");
        }
    }
}

/// Adds a line for each item of a queue.
fn put_items(out: &mut Vec<u8>, items: &[(u64, Token)])
    requires { vec_len out.old + terms.item_room * length items.now ≤ vec_capacity out.old }
    ensures items { out.new.items
        ≡ out.old.items ++ flat_map queue_line (map item_view items.now) }
    ensures len { vec_len out.new ≤ vec_len out.old + terms.item_room * length items.now }
    ensures capacity { vec_capacity out.new ≡ vec_capacity out.old }
{
    for item in items {
        put_item(out, item);
    }
}

/// Adds a line of a queue: the serial number and the token.
#[tactic(auto, using(line_words::proofs::Numerals::decimal_within))]
fn put_item(out: &mut Vec<u8>, item: &(u64, Token))
    requires { vec_len out.old + terms.item_room ≤ vec_capacity out.old }
    ensures items { out.new.items ≡ out.old.items ++ queue_line (item_view item.now) }
    ensures len { vec_len out.new ≤ vec_len out.old + terms.item_room }
    ensures capacity { vec_capacity out.new ≡ vec_capacity out.old }
{
    put_decimal(out, item.0);
    put_octets(out, b" ");
    put_token(out, &item.1);
    put_octets(out, b"\r\n");
}

/// Adds the text of a token.
fn put_token(out: &mut Vec<u8>, token: &Token)
    requires { vec_len out.old + 30 ≤ vec_capacity out.old }
    ensures items { out.new.items ≡ out.old.items ++ token_text (token_view token.now) }
    ensures len { vec_len out.new ≡ vec_len out.old + 30 }
    ensures capacity { vec_capacity out.new ≡ vec_capacity out.old }
{
    let text = token.to_text();
    put_octets(out, &text);
}

/// Adds the digits of a moment.
fn put_digits(out: &mut Vec<u8>, digits: &[u8; 14])
    requires { vec_len out.old + 14 ≤ vec_capacity out.old }
    ensures items { out.new.items ≡ out.old.items ++ digits.now }
    ensures len { vec_len out.new ≡ vec_len out.old + 14 }
    ensures capacity { vec_capacity out.new ≡ vec_capacity out.old }
{
    put_octets(out, digits);
}

/// Adds a line with its CRLF.
fn put_line(out: &mut Vec<u8>, line: &[u8])
    requires { vec_len out.old + length line.now + 2 ≤ vec_capacity out.old }
    ensures items { out.new.items ≡ out.old.items ++ line_of line.now }
    ensures len { vec_len out.new ≡ vec_len out.old + length line.now + 2 }
    ensures capacity { vec_capacity out.new ≡ vec_capacity out.old }
{
    put_octets(out, line);
    put_octets(out, b"\r\n");
}
