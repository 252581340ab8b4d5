//! The lines of cycbuff.conf, each read alone.
ghost use Rattle.std.specs.Prelude.{◌≡◌};
ghost use Rattle.std.specs.List.{list_all};
ghost use Rattle.line_words.specs.Parts.{parts, parts_after};
ghost use Rattle.relay_conf.specs.Cycbuff.{members_of};
ghost use Rattle.relay_conf.specs.Cycbuff as terms;
ghost use Rattle.relay_conf.specs.Settings.{said_by};
ghost use Rattle.relay_conf.specs.Words as words;

use crate::cycbuff::Mode;
use crate::faults::Fault;
use crate::words::is_name;
use line_words::{cut, is, is_skipped, number_within, three_parts, trim, two_parts};

/// What a line says, without fault.
#[derive(Clone, Copy)]
pub(crate) enum Line<'a> {
    /// A comment, an empty line, or a key that is accepted and ignored.
    Skipped,
    /// A buffer: its name, its file and its blocks of 512 octets.
    Buffer(&'a [u8], &'a [u8], u32),
    /// A group: its name, its list and its mode.
    Group(&'a [u8], &'a [u8], Mode),
}

/// Reads a line alone.
pub(crate) fn cycbuff_line(line: &[u8]) -> Result<Line<'_>, Fault>
    ensures { said_by result ≡ terms.cycbuff_line line.now }
{
    let line = trim(line);
    if is_skipped(line) {
        return Ok(Line::Skipped);
    }
    let (word, rest) = cut(line, b':');
    if is(word, b"cycbuff") {
        buffer_line(rest)
    } else if is(word, b"metacycbuff") {
        group_line(rest)
    } else if is(word, b"cycbuffupdate") || is(word, b"refreshinterval") {
        ignored_line(rest)
    } else {
        Err(Fault::UnknownKey)
    }
}

/// Reads what follows `cycbuff`.
fn buffer_line<'a>(rest: Option<&'a [u8]>) -> Result<Line<'a>, Fault>
    ensures { said_by result ≡ terms.buffer_line (parts_after 58 rest.entry) }
{
    let Some((name, file, size)) = three_parts(rest, b':') else {
        return Err(Fault::Syntax);
    };
    if !is_name(name) || !is_file(file) {
        return Err(Fault::Syntax);
    }
    match number_within(1, 2_097_152, size) {
        Some(kilobytes) => Ok(Line::Buffer(name, file, 2 * kilobytes as u32)),
        None => Err(Fault::Number),
    }
}

/// Whether a text may be the path of a file: one octet or more, none of them NUL.
pub(crate) fn is_file(file: &[u8]) -> bool
    ensures { result ≡ terms.is_file file.now }
{
    !file.is_empty() && !file.contains(&0)
}

/// Reads what follows `metacycbuff`.
fn group_line<'a>(rest: Option<&'a [u8]>) -> Result<Line<'a>, Fault>
    ensures { said_by result ≡ terms.group_line (parts_after 58 rest.entry) }
{
    if let Some((name, list)) = two_parts(rest, b':') {
        return group_moded(name, list, Some(Mode::Interleave));
    }
    match three_parts(rest, b':') {
        Some((name, list, mode)) => group_moded(name, list, mode_of(mode)),
        None => Err(Fault::Syntax),
    }
}

/// The group of a name, a list and a mode.
fn group_moded<'a>(name: &'a [u8], list: &'a [u8], mode: Option<Mode>) -> Result<Line<'a>, Fault>
    ensures { said_by result ≡ terms.group_moded name.now list.now mode }
{
    let Some(mode) = mode else {
        return Err(Fault::Syntax);
    };
    if is_name(name) && are_names(list) {
        Ok(Line::Group(name, list, mode))
    } else {
        Err(Fault::Syntax)
    }
}

/// Whether a list is names between commas, or empty.
fn are_names(list: &[u8]) -> bool
    ensures { result ≡ list_all words.is_name (members_of list.now) }
{
    list.is_empty() || has_names_alone(list)
}

/// Whether each part between commas is a name.
fn has_names_alone(list: &[u8]) -> bool
    ensures { result ≡ list_all words.is_name (parts 44 list.now) }
{
    let mut unread = Some(list);
    while let Some(rest) = unread {
        let (name, after) = cut(rest, b',');
        if !is_name(name) {
            return false;
        }
        unread = after;
    }
    true
}

/// The mode that the word is.
fn mode_of(word: &[u8]) -> Option<Mode>
    ensures { result ≡ terms.mode_of word.now }
{
    if is(word, b"INTERLEAVE") {
        Some(Mode::Interleave)
    } else if is(word, b"SEQUENTIAL") {
        Some(Mode::Sequential)
    } else {
        None
    }
}

/// Reads what follows an ignored key.
fn ignored_line<'a>(rest: Option<&'a [u8]>) -> Result<Line<'a>, Fault>
    ensures { said_by result ≡ terms.ignored_line (parts_after 58 rest.entry) }
{
    match rest {
        Some(_) => Ok(Line::Skipped),
        None => Err(Fault::Syntax),
    }
}
