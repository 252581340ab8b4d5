//! What is said at the end of a fetch, in room that is there: nothing here takes memory.
ghost use Rattle.std.specs.Prelude.{◌≡◌, ◌+◌, ◌≤◌, [], flat_map, length, vec_capacity};
ghost use Rattle.cyc_token.specs.Token.{token_view};
ghost use Rattle.news_terms.specs.Article.{Article, IsLaidOut, field_text};
ghost use Rattle.news_terms.specs.Blocks.{stuffed_room};
ghost use Rattle.news_terms.specs.Command as commands;
ghost use Rattle.news_terms.specs.Overview.{overview_line};
ghost use Rattle.news_terms.specs.Reply.{reply_text};
ghost use Rattle.news_terms.specs.Reply as terms;
ghost use Rattle.nntp_text.specs.Command.{part_view};
ghost use Rattle.nntp_text.specs.Reply.{reply_room, reply_view, room_of};
ghost use Rattle.relay_model.specs.Fetches as fetches;
ghost use Rattle.article_fetch.specs.Fetch.{asked_view, Replies};
ghost use Rattle.article_fetch.specs.Given.{ReplyToAny, SaysSuch, ShowsAny, ShowsAsked, found_with};
ghost use Rattle.article_fetch.specs.Malformed.{FaultsAsked, FaultsLast, FaultsPart, IsNoArticle};
ghost use Rattle.article_fetch.specs.Shown.{SaysLast, ShowsArticle, ShowsPart, most_by};

use crate::asked::Asked;
use crate::chunk::Chunk;
use crate::layout::empty_line_place;
use crate::overview::put_line;
use cyc_token::Token;
use line_words::put_octets;
use nntp_text::{MsgId, Part, Reply, put_reply};

/// What is said by what was read last, and by the text that was gathered (docs/FORMATS.md,
/// Replies).
pub(crate) fn last_reply(
    room: Vec<u8>,
    asked: &Asked,
    token: Token,
    chunk: &Chunk<'_>,
    text: &[u8],
) -> Vec<u8>
    requires empty { room.items ≡ [] }
    requires room { most_by chunk.now text.now ≤ vec_capacity room }
    ensures says { SaysLast (asked_view asked.now) (token_view token) chunk.now text.now
        result.items }
    ensures given { SaysSuch (ReplyToAny (asked_view asked.now) (token_view token)
        (found_with chunk.now text.now)) result.items }
    ensures fault { FaultsLast (asked_view asked.now) chunk.now text.now result.items }
    ensures some { 1 ≤ length result.items }
{
    match chunk {
        Chunk::Found(_) => found_reply(room, asked, token, text),
        Chunk::Gone(_) => gone_reply(room, asked, token),
        Chunk::Unknown => unknown_reply(room, asked, token),
        Chunk::Device(_) => said(room, Reply::DeviceFault),
    }
}

/// What is said where the article was overwritten.
fn gone_reply(room: Vec<u8>, asked: &Asked, token: Token) -> Vec<u8>
    requires empty { room.items ≡ [] }
    requires room { reply_room ≤ vec_capacity room }
    ensures says { Replies (asked_view asked.now) (token_view token) fetches.Gone result.items }
    ensures some { 1 ≤ length result.items }
{
    match asked {
        Asked::OfId(_, _) => said(room, Reply::NoArticle),
        Asked::OfToken => said(room, Reply::TokenGone(token)),
    }
}

/// What is said where no article is whole under the token.
fn unknown_reply(room: Vec<u8>, asked: &Asked, token: Token) -> Vec<u8>
    requires empty { room.items ≡ [] }
    requires room { reply_room ≤ vec_capacity room }
    ensures says { Replies (asked_view asked.now) (token_view token) fetches.NotKnown
        result.items }
    ensures some { 1 ≤ length result.items }
{
    match asked {
        Asked::OfId(_, _) => said(room, Reply::NoArticle),
        Asked::OfToken => said(room, Reply::TokenUnknown(token)),
    }
}

/// What is said where the article was found.
fn found_reply(room: Vec<u8>, asked: &Asked, token: Token, text: &[u8]) -> Vec<u8>
    requires empty { room.items ≡ [] }
    requires room { reply_room + stuffed_room (length text.now) ≤ vec_capacity room }
    ensures says { ShowsArticle (asked_view asked.now) (token_view token) text.now result.items }
    ensures given { SaysSuch (ShowsAsked (asked_view asked.now) (token_view token) text.now)
        result.items }
    ensures fault { FaultsAsked (asked_view asked.now) text.now result.items }
    ensures some { 1 ≤ length result.items }
{
    match asked {
        Asked::OfId(part, id) => part_reply(room, *part, id, text),
        Asked::OfToken => said(room, Reply::TokenFollows(token, text)),
    }
}

/// The reply that shows a part of an article (RFC 3977, sections 6.2 and 8.3).
fn part_reply(room: Vec<u8>, part: Part, id: &MsgId, text: &[u8]) -> Vec<u8>
    requires empty { room.items ≡ [] }
    requires room { reply_room + stuffed_room (length text.now) ≤ vec_capacity room }
    ensures says { ShowsPart (part_view part) id.now text.now result.items }
    ensures given { SaysSuch (ShowsAny (part_view part) id.now text.now) result.items }
    ensures fault { FaultsPart (part_view part) text.now result.items }
    ensures some { 1 ≤ length result.items }
{
    match part {
        Part::WholeText => said(room, Reply::ArticleFollows(id, text)),
        Part::Header => header_reply(room, id, text),
        Part::BodyLines => body_reply(room, id, text),
        Part::OverviewLine => overview_reply(room, text),
        Part::Presence => said(room, Reply::Exists(id)),
    }
}

/// The reply with the lines of the header (RFC 3977, section 6.2.2). What isn't laid out as an
/// article was not read as it was stored: the device is at fault.
fn header_reply(room: Vec<u8>, id: &MsgId, text: &[u8]) -> Vec<u8>
    requires empty { room.items ≡ [] }
    requires room { reply_room + stuffed_room (length text.now) ≤ vec_capacity room }
    ensures octets { (a : Article) → IsLaidOut text.now a → result.items
        ≡ reply_text (terms.HeaderFollows id.now (flat_map field_text a.fields)) }
    ensures given { SaysSuch (ShowsAny commands.Header id.now text.now) result.items }
    ensures fault { IsNoArticle text.now → result.items ≡ reply_text terms.DeviceFault }
    ensures some { 1 ≤ length result.items }
{
    match empty_line_place(text) {
        Some(at) => said(room, Reply::HeaderFollows(id, &text[..at])),
        None => said(room, Reply::DeviceFault),
    }
}

/// The reply with the lines of the body (RFC 3977, section 6.2.3), or that the device is at fault,
/// as above.
fn body_reply(room: Vec<u8>, id: &MsgId, text: &[u8]) -> Vec<u8>
    requires empty { room.items ≡ [] }
    requires room { reply_room + stuffed_room (length text.now) ≤ vec_capacity room }
    ensures octets { (a : Article) → IsLaidOut text.now a → result.items
        ≡ reply_text (terms.BodyFollows id.now a.body) }
    ensures given { SaysSuch (ShowsAny commands.BodyLines id.now text.now) result.items }
    ensures fault { IsNoArticle text.now → result.items ≡ reply_text terms.DeviceFault }
    ensures some { 1 ≤ length result.items }
{
    match empty_line_place(text) {
        Some(at) => said(room, Reply::BodyFollows(id, &text[at + 2..])),
        None => said(room, Reply::DeviceFault),
    }
}

/// The reply with the overview line (RFC 3977, section 8.3.2), or that the device is at fault, as
/// above. The line is put where it is said, and nowhere else before.
fn overview_reply(mut room: Vec<u8>, text: &[u8]) -> Vec<u8>
    requires empty { room.items ≡ [] }
    requires room { reply_room + stuffed_room (length text.now) ≤ vec_capacity room }
    ensures octets { (a : Article) → IsLaidOut text.now a → result.items
        ≡ reply_text (terms.OverviewFollows (overview_line a)) }
    ensures given { SaysSuch (ShowsAny commands.OverviewLine [] text.now) result.items }
    ensures fault { IsNoArticle text.now → result.items ≡ reply_text terms.DeviceFault }
    ensures some { 1 ≤ length result.items }
{
    put_octets(&mut room, b"224 Overview follows\r\n");
    match put_line(&mut room, text) {
        Ok(()) => {
            put_octets(&mut room, b"\r\n.\r\n");
            room
        }
        Err(_) => {
            room.clear();
            said(room, Reply::DeviceFault)
        }
    }
}

/// The octets of a reply, in the room that was made for it.
fn said(mut room: Vec<u8>, reply: Reply<'_>) -> Vec<u8>
    requires empty { room.items ≡ [] }
    requires room { room_of reply ≤ vec_capacity room }
    ensures octets { result.items ≡ reply_text (reply_view reply.entry) }
    ensures some { 1 ≤ length result.items }
{
    put_reply(&mut room, &reply);
    room
}
