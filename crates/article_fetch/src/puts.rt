//! The parts of an overview line, put into room that is there: nothing here takes memory.
ghost use Rattle.std.specs.Prelude.{◌≡◌, ◌+◌, ◌≤◌, ◌∷◌, ◌++◌, ◌==◌, length, decimal, if◌then◌else◌};
ghost use Rattle.std.specs.Prelude.{vec_len, vec_capacity};
ghost use Rattle.news_terms.specs.Article.{tab, space, unfolded};
ghost use Rattle.news_terms.specs.Article as terms;
ghost use Rattle.news_terms.specs.Overview.{line_count, without_tabs};
ghost use Rattle.article_fetch.specs.Parts.{line_of, shown};

use crate::parts::Parts;
use article_parse::begins_white;
use line_words::put_decimal;

/// Puts an overview line (RFC 3977, section 8.3.2).
pub(crate) fn put_parts(room: &mut Vec<u8>, parts: &Parts<'_>)
    requires { vec_len room.old + length (line_of parts.now) ≤ vec_capacity room.old }
    ensures items { room.new.items ≡ room.old.items ++ line_of parts.now }
    ensures capacity { vec_capacity room.new ≡ vec_capacity room.old }
{
    room.push_reserved(b'0');
    put_text(room, parts.subject);
    put_text(room, parts.from);
    put_text(room, parts.date);
    put_text(room, parts.id);
    put_text(room, parts.references);
    put_number(room, parts.octets);
    put_number(room, count_lines(parts.body));
}

/// Puts a TAB and the text of a content: in one line, each TAB of it as an SP.
fn put_text(room: &mut Vec<u8>, content: &[u8])
    requires { vec_len room.old + 1 + length (shown content.now) ≤ vec_capacity room.old }
    ensures items { room.new.items ≡ room.old.items ++ tab ∷ shown content.now }
    ensures len { vec_len room.new ≡ vec_len room.old + 1 + length (shown content.now) }
    ensures capacity { vec_capacity room.new ≡ vec_capacity room.old }
{
    room.push_reserved(b'\t');
    put_spaced(room, without_front(content));
}

/// Puts a TAB and a number in decimal.
fn put_number(room: &mut Vec<u8>, number: usize)
    requires { vec_len room.old + 1 + length (decimal number) ≤ vec_capacity room.old }
    ensures items { room.new.items ≡ room.old.items ++ tab ∷ decimal number }
    ensures len { vec_len room.new ≡ vec_len room.old + 1 + length (decimal number) }
    ensures capacity { vec_capacity room.new ≡ vec_capacity room.old }
{
    room.push_reserved(b'\t');
    put_decimal(room, number as u64);
}

/// Puts a text without its CRLF pairs, each TAB as an SP.
fn put_spaced(room: &mut Vec<u8>, text: &[u8])
    requires { vec_len room.old + length (without_tabs (terms.without_crlf text.now))
        ≤ vec_capacity room.old }
    ensures items { room.new.items
        ≡ room.old.items ++ without_tabs (terms.without_crlf text.now) }
    ensures len { vec_len room.new
        ≡ vec_len room.old + length (without_tabs (terms.without_crlf text.now)) }
    ensures capacity { vec_capacity room.new ≡ vec_capacity room.old }
{
    let mut at = 0;
    while at < text.len() {
        if text[at..].starts_with(b"\r\n") {
            at += 2;
        } else {
            room.push_reserved(spaced(text[at]));
            at += 1;
        }
    }
}

/// An octet, or an SP for a TAB.
fn spaced(octet: u8) -> u8
    ensures { result ≡ (if octet == tab then space else octet) }
{
    if octet == b'\t' { b' ' } else { octet }
}

/// A content without what stands in front of its line once it is unfolded: CRLF pairs, and one SP
/// or TAB (RFC 5322, section 2.2.3).
fn without_front(content: &[u8]) -> &[u8]
    ensures { terms.without_crlf result.now ≡ unfolded content.now }
{
    let mut at = 0;
    while content[at..].starts_with(b"\r\n") {
        at += 2;
    }
    if begins_white(&content[at..]) {
        return &content[at + 1..];
    }
    &content[at..]
}

/// The lines of a body, each of which an LF ends (RFC 3977, section 8.1.2).
fn count_lines(body: &[u8]) -> usize
    ensures { result ≡ line_count body.now }
{
    let mut lines = 0;
    for octet in body {
        if *octet == b'\n' {
            lines += 1;
        }
    }
    lines
}
