//! Reading a drill script (docs/FORMATS.md, Drill scripts): all of it, before anything runs.
ghost use Rattle.std.specs.Prelude.{◌≡◌, ◌++◌, ℕ, map, option_map, vec_items, IfOk};
ghost use Rattle.std.specs.List.{join_with_byte};
ghost use Rattle.std.specs.Option.{option_and_then};
ghost use Rattle.news_terms.specs.Lines.{crlf};
ghost use Rattle.line_words.specs.Parts.{one_of, parts_after, two_of};
ghost use Rattle.relay_drill.specs.Drill.{names_of};
ghost use Rattle.relay_drill.specs.Script.{break_line, crash_at_line, crash_line, expire_line};
ghost use Rattle.relay_drill.specs.Script.{fail_line, line_alone, line_of};
ghost use Rattle.relay_drill.specs.Script.{both, open_line, raw_line};
ghost use Rattle.relay_drill.specs.Script.{rounds_line, script_of, send_line, split_line};
ghost use Rattle.relay_drill.specs.Script.{turn_line, write_line};
ghost use Rattle.relay_drill.specs.Script as terms;
ghost use Rattle.relay_drill.specs.Words as words;
ghost use Rattle.relay_drill.specs.Fault.{LineGives, ScriptGives, keyword_among, keyword_view};
ghost use Rattle.relay_drill.specs.Fault.{line_view};

use crate::fault::DrillError;
use crate::line::{Line, PieceSize};
use crate::words::{LAST_NUMBER, buffer_of, number, number_within, octets_of, peer_of};
use line_words::{cut, is, is_skipped, one_part, two_parts};
use relay_conf::{BufferConf, Config, Peer};
use std::alloc::{AllocError, Global};

/// Reads a whole script, which may use the names of this configuration.
pub fn read_script(alloc: Global, config: &Config, text: &[u8]) -> Result<Vec<Line>, DrillError>
    ensures { ScriptGives vec_items result (script_of (names_of config.now) text.now) }
{
    let mut lines = Vec::new(alloc);
    let mut unread = Some(text);
    let mut number: u64 = 0;
    while let Some(rest) = unread {
        let (line, after) = cut(rest, b'\n');
        number += 1;
        unread = after;
        if !is_skipped(line) {
            match read_line(alloc, config, line)? {
                Some(line) => lines.push(line)?,
                None => return Err(DrillError::Line(number)),
            }
        }
    }
    Ok(lines)
}

/// The first words of lines.
#[derive(Clone, Copy)]
enum Keyword {
    Open,
    Send,
    Raw,
    Split,
    Turn,
    Write,
    Rounds,
    Break,
    Expire,
    Fail,
    Restart,
    Crash,
    Report,
}

/// How each keyword is spelled.
const KEYWORDS: [(&[u8], Keyword); 13] = [
    (b"open", Keyword::Open),
    (b"send", Keyword::Send),
    (b"raw", Keyword::Raw),
    (b"split", Keyword::Split),
    (b"turn", Keyword::Turn),
    (b"write", Keyword::Write),
    (b"rounds", Keyword::Rounds),
    (b"break", Keyword::Break),
    (b"expire", Keyword::Expire),
    (b"fail", Keyword::Fail),
    (b"restart", Keyword::Restart),
    (b"crash", Keyword::Crash),
    (b"report", Keyword::Report),
];

/// Reads a line, or answers `None` where it is bad.
fn read_line(alloc: Global, config: &Config, line: &[u8]) -> Result<Option<Line>, AllocError>
    ensures { LineGives result (line_of (names_of config.now) line.now) }
{
    let (word, rest) = cut(line, b' ');
    match keyword_of(word) {
        Some(Keyword::Open) => Ok(open(&config.relay.peers, rest)),
        Some(Keyword::Send) => send(alloc, rest),
        Some(Keyword::Raw) => raw(alloc, rest),
        Some(Keyword::Split) => Ok(split(rest)),
        Some(Keyword::Turn) => Ok(turn(rest)),
        Some(Keyword::Write) => Ok(write(rest)),
        Some(Keyword::Rounds) => Ok(rounds(rest)),
        Some(Keyword::Break) => Ok(break_off(rest)),
        Some(Keyword::Expire) => Ok(expire(rest)),
        Some(Keyword::Fail) => Ok(fail(&config.buffers.buffers, rest)),
        Some(Keyword::Restart) => Ok(alone(Line::Restart, rest)),
        Some(Keyword::Crash) => Ok(crash(&config.buffers.buffers, rest)),
        Some(Keyword::Report) => Ok(alone(Line::Report, rest)),
        None => Ok(None),
    }
}

/// The keyword that the word is.
fn keyword_of(word: &[u8]) -> Option<Keyword>
    ensures { option_map keyword_view result ≡ terms.keyword_of word.now }
{
    keyword_among(&KEYWORDS, word)
}

/// The keyword that is spelled so, of these.
fn keyword_among(spelled: &[(&[u8], Keyword)], word: &[u8]) -> Option<Keyword>
    ensures { option_map keyword_view result
        ≡ keyword_among (map (λ one. (one.0.now, keyword_view one.1)) spelled.now) word.now }
{
    for (spelling, keyword) in spelled {
        if is(word, spelling) {
            return Some(*keyword);
        }
    }
    None
}

/// `open S PEER`, by what follows the keyword.
fn open(peers: &[Peer], rest: Option<&[u8]>) -> Option<Line>
    ensures { option_map line_view result ≡ option_and_then
        (open_line (map (λ peer. peer.name) peers.now)) (two_of (parts_after 32 rest.entry)) }
{
    let (session, peer) = two_parts(rest, b' ')?;
    let (session, peer) = number(session).zip(peer_of(peers, peer))?;
    Some(Line::Open(session, peer))
}

/// `send S TEXT`, by what follows the keyword: the text is all that follows the space after S.
fn send(alloc: Global, rest: Option<&[u8]>) -> Result<Option<Line>, AllocError>
    ensures { LineGives result (send_line (parts_after 32 rest.entry)) }
{
    let Some(rest) = rest else {
        return Ok(None);
    };
    let (session, text) = cut(rest, b' ');
    let Some(session) = number(session) else {
        return Ok(None);
    };
    let octets = ended_line(alloc, joined(text))?;
    Ok(Some(Line::Bring(session, octets)))
}

/// The words that follow, with the spaces between them.
fn joined<'a>(after: Option<&'a [u8]>) -> &'a [u8]
    ensures { result.now ≡ join_with_byte 32 (parts_after 32 after.entry) }
{
    match after {
        Some(text) => text,
        None => b"",
    }
}

/// The line with its CRLF.
fn ended_line(alloc: Global, line: &[u8]) -> Result<Vec<u8>, AllocError>
    ensures { IfOk result (λ octets. octets.items ≡ line.now ++ crlf) }
{
    let mut octets = Vec::from_slice(alloc, line)?;
    octets.extend_from_slice(b"\r\n")?;
    Ok(octets)
}

/// `raw S HEX`, by what follows the keyword.
fn raw(alloc: Global, rest: Option<&[u8]>) -> Result<Option<Line>, AllocError>
    ensures { LineGives result
        (option_and_then raw_line (two_of (parts_after 32 rest.entry))) }
{
    let Some((session, digits)) = two_parts(rest, b' ') else {
        return Ok(None);
    };
    let Some(session) = number(session) else {
        return Ok(None);
    };
    match octets_of(alloc, digits)? {
        Some(octets) => Ok(Some(Line::Bring(session, octets))),
        None => Ok(None),
    }
}

/// `split N`, by what follows the keyword.
fn split(rest: Option<&[u8]>) -> Option<Line>
    ensures { option_map line_view result
        ≡ option_and_then split_line (one_of (parts_after 32 rest.entry)) }
{
    let octets = number_within(1, 4_096, one_part(rest, b' ')?)? as usize;
    Some(Line::Split(PieceSize { octets }))
}

/// Two numbers, the first of them in this range, by what follows the keyword.
fn two_numbers(least: u64, most: u64, rest: Option<&[u8]>) -> Option<(u64, u64)>
    ensures { (line : ℕ → ℕ → terms.Line) → option_map (λ two. line two.0 two.1) result
        ≡ option_and_then (λ two. both line (words.number_within least most two.0)
        (words.number two.1)) (two_of (parts_after 32 rest.entry)) }
{
    let (first, second) = two_parts(rest, b' ')?;
    number_within(least, most, first).zip(number(second))
}

/// `turn S MOMENT`, by what follows the keyword.
fn turn(rest: Option<&[u8]>) -> Option<Line>
    ensures { option_map line_view result
        ≡ option_and_then turn_line (two_of (parts_after 32 rest.entry)) }
{
    let (session, moment) = two_numbers(0, LAST_NUMBER, rest)?;
    Some(Line::Turn(session, moment))
}

/// `write G MOMENT`, by what follows the keyword.
fn write(rest: Option<&[u8]>) -> Option<Line>
    ensures { option_map line_view result
        ≡ option_and_then write_line (two_of (parts_after 32 rest.entry)) }
{
    let (group, moment) = two_numbers(0, LAST_NUMBER, rest)?;
    Some(Line::Write(group as usize, moment))
}

/// `rounds N MOMENT`, by what follows the keyword.
fn rounds(rest: Option<&[u8]>) -> Option<Line>
    ensures { option_map line_view result
        ≡ option_and_then rounds_line (two_of (parts_after 32 rest.entry)) }
{
    let (count, moment) = two_numbers(1, 100_000, rest)?;
    Some(Line::Rounds(count, moment))
}

/// `break S`, by what follows the keyword.
fn break_off(rest: Option<&[u8]>) -> Option<Line>
    ensures { option_map line_view result
        ≡ option_and_then break_line (one_of (parts_after 32 rest.entry)) }
{
    Some(Line::Break(number(one_part(rest, b' ')?)?))
}

/// `expire K MOMENT`, by what follows the keyword.
fn expire(rest: Option<&[u8]>) -> Option<Line>
    ensures { option_map line_view result
        ≡ option_and_then expire_line (two_of (parts_after 32 rest.entry)) }
{
    let (shard, moment) = two_numbers(0, LAST_NUMBER, rest)?;
    Some(Line::Expire(shard as usize, moment))
}

/// `fail BUFFER K`, by what follows the keyword.
fn fail(buffers: &[BufferConf], rest: Option<&[u8]>) -> Option<Line>
    ensures { option_map line_view result ≡ option_and_then
        (fail_line (map (λ buffer. buffer.name) buffers.now)) (two_of (parts_after 32 rest.entry)) }
{
    let (buffer, call) = two_parts(rest, b' ')?;
    let (buffer, call) = buffer_of(buffers, buffer).zip(number_within(1, 1_000_000, call))?;
    Some(Line::Fail(buffer, call))
}

/// `crash` and `crash BUFFER K`, by what follows the keyword.
fn crash(buffers: &[BufferConf], rest: Option<&[u8]>) -> Option<Line>
    ensures { option_map line_view result ≡ crash_line (map (λ buffer. buffer.name) buffers.now)
        (parts_after 32 rest.entry) }
{
    match rest {
        None => Some(Line::Crash),
        Some(_) => crash_at(buffers, rest),
    }
}

/// `crash BUFFER K`, by what follows the keyword.
fn crash_at(buffers: &[BufferConf], rest: Option<&[u8]>) -> Option<Line>
    ensures { option_map line_view result ≡ option_and_then
        (crash_at_line (map (λ buffer. buffer.name) buffers.now))
        (two_of (parts_after 32 rest.entry)) }
{
    let (buffer, call) = two_parts(rest, b' ')?;
    let (buffer, call) = buffer_of(buffers, buffer).zip(number_within(1, 1_000_000, call))?;
    Some(Line::CrashAt(buffer, call))
}

/// `restart` and `report`, by what follows the keyword: nothing.
fn alone(line: Line, rest: Option<&[u8]>) -> Option<Line>
    ensures { option_map line_view result
        ≡ line_alone (line_view line) (parts_after 32 rest.entry) }
{
    match rest {
        None => Some(line),
        Some(_) => None,
    }
}
