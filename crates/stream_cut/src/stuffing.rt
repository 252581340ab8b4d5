//! Dot-stuffing (RFC 3977 section 3.1.1).
ghost use Rattle.std.specs.Prelude.{◌≡◌, ◌+◌, ◌^◌, ◌≤◌, ◌<◌, ◌++◌, [], ◌∷◌, length, List, ℕ};
ghost use Rattle.std.specs.Prelude.{drop, IfOk, OnOk, MatchOption, vec_len, vec_capacity};
ghost use Rattle.news_terms.specs.Lines.{spelled};
ghost use Rattle.news_terms.specs.Blocks.{stuffed, stuffed_line, text_lines};
ghost use Rattle.news_terms.specs.Blocks.{unstuffed, unstuffed_line};
ghost use Rattle.news_terms.specs.Blocks as terms;
ghost use Rattle.stream_cut.specs.Dots.{HasNoInnerDot, IsNextDot, end_of};

use crate::look::inner_dot;
use line_words::put_octets;
use std::alloc::{AllocError, Global};

/// The most octets of the block that sends a text of so many: a third more and six.
pub fn stuffed_room(octets: usize) -> usize
    requires { octets < 2 ^ 63 }
    ensures { result ≡ terms.stuffed_room octets }
{
    octets + octets / 3 + 6
}

/// The block that sends a text: each line that begins with a dot gets one more, a CRLF ends the
/// last line where none did, and the line of a lone dot closes it (RFC 3977 section 3.1.1).
pub fn stuff(alloc: Global, text: &[u8]) -> Result<Vec<u8>, AllocError>
    ensures { IfOk result (λ v. v.items ≡ stuffed text.now) }
{
    let mut block = Vec::with_capacity(alloc, stuffed_room(text.len()))?;
    put_stuffed(&mut block, text);
    Ok(block)
}

/// Adds the block that sends a text, as `stuff` makes it, where there is room: it doesn't fail,
/// whatever memory there is.
pub fn put_stuffed(block: &mut Vec<u8>, text: &[u8])
    requires { vec_len block.old + terms.stuffed_room (length text.now) ≤ vec_capacity block.old }
    ensures items { block.new.items ≡ block.old.items ++ stuffed text.now }
    ensures capacity { vec_capacity block.new ≡ vec_capacity block.old }
{
    let mut at = 0;
    while let Some(next) = next_dot(text, at) {
        put_stuffed_line(block, &text[at..next]);
        at = next;
    }
    put_last(block, &text[at..]);
}

/// Where behind place `at` the first line begins that begins with a dot, but not the line there.
fn next_dot(octets: &[u8], at: usize) -> Option<usize>
    requires { at ≤ length octets.now }
    ensures { MatchOption result (HasNoInnerDot (drop at octets.now)) (IsNextDot octets.now at) }
{
    match inner_dot(&octets[at..], 0) {
        Some(end) => Some(at + end),
        None => None,
    }
}

/// Adds the block that sends octets of which no line but the first begins with a dot.
fn put_last(block: &mut Vec<u8>, rest: &[u8])
    requires dots { HasNoInnerDot rest.now }
    requires room { vec_len block.old + length (stuffed rest.now) ≤ vec_capacity block.old }
    ensures items { block.new.items ≡ block.old.items ++ stuffed rest.now }
    ensures capacity { vec_capacity block.new ≡ vec_capacity block.old }
{
    let lacks_end = lacks_end(rest);
    put_stuffed_line(block, rest);
    if lacks_end {
        put_octets(block, b"\r\n");
    }
    put_octets(block, b".\r\n");
}

/// Whether octets stand behind the last CRLF: one more has to end them.
fn lacks_end(rest: &[u8]) -> bool
    requires { HasNoInnerDot rest.now }
    ensures { stuffed rest.now ≡ (stuffed_line rest.now ++ end_of result) ++ 46 ∷ 13 ∷ 10 ∷ [] }
{
    !rest.is_empty() && !rest.ends_with(b"\r\n".as_slice())
}

/// Adds a line, or lines of which the first alone may begin with a dot: with one more dot before
/// them where it does.
fn put_stuffed_line(block: &mut Vec<u8>, line: &[u8])
    requires { vec_len block.old + length (stuffed_line line.now) ≤ vec_capacity block.old }
    ensures items { block.new.items ≡ block.old.items ++ stuffed_line line.now }
    ensures len { vec_len block.new ≡ vec_len block.old + length (stuffed_line line.now) }
    ensures capacity { vec_capacity block.new ≡ vec_capacity block.old }
{
    if line.first() == Some(&b'.') {
        put_octets(block, b".");
    }
    put_octets(block, line);
}

/// The text that whole lines of a block stand for: each without the dot that it begins with (RFC
/// 3977 section 3.1.1). Room for `len` octets is made first, best as many as the text has.
pub fn unstuff(alloc: Global, lines: &[u8], len: usize) -> Result<Vec<u8>, AllocError>
    requires { spelled (text_lines lines.now) ≡ lines.now }
    ensures { IfOk result (λ v. v.items ≡ unstuffed (text_lines lines.now)) }
{
    let mut text = Vec::with_capacity(alloc, len)?;
    let mut at = 0;
    while let Some(next) = next_dot(lines, at) {
        push_unstuffed(&mut text, &lines[at..next])?;
        at = next;
    }
    push_unstuffed(&mut text, &lines[at..])?;
    Ok(text)
}

/// Adds a line, or lines of which the first alone may begin with a dot: without their first octet
/// where that is one.
fn push_unstuffed(text: &mut Vec<u8>, line: &[u8]) -> Result<(), AllocError>
    ensures { OnOk result (text.new.items ≡ text.old.items ++ unstuffed_line line.now) }
{
    match line {
        [b'.', rest @ ..] => text.extend_from_slice(rest),
        _ => text.extend_from_slice(line),
    }
}
