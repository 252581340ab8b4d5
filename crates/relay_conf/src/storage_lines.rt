//! The lines of storage.conf, each read alone.
ghost use Rattle.std.specs.Prelude.{◌≡◌, ◌∷◌, [], option_map};
ghost use Rattle.relay_conf.specs.StorageLines as terms;
ghost use Rattle.relay_conf.specs.StorageViews.{raw_by, raw_view};
ghost use Rattle.relay_conf.specs.Words.{words};
ghost use Rattle.line_words.specs.Parts.{parts};

use crate::faults::Fault;
use crate::words::{first_word, is_name, three_words};
use line_words::{cut, is, is_skipped, number_within, trim};

/// The sizes that an entry takes, in octets; no upper limit is `None`.
#[derive(Clone, Copy)]
pub(crate) struct Sizes {
    pub(crate) smallest: u64,
    pub(crate) largest: Option<u64>,
}

/// Where a line of the file stands.
#[derive(Clone, Copy)]
pub(crate) enum Place {
    /// Outside an entry.
    Outside,
    /// In an entry of cnfs.
    InEntry,
    /// In an entry of another method, whose lines are that method's.
    InOther,
}

/// What a line says, without fault.
#[derive(Clone, Copy)]
pub(crate) enum Line<'a> {
    /// A comment, an empty line, or a line that is another method's.
    Skipped,
    /// The beginning of an entry, with its method.
    Opens(&'a [u8]),
    /// The end of an entry of cnfs.
    Closes,
    /// The end of an entry of another method.
    Ends,
    /// The class.
    Class(u8),
    /// The text of the expression.
    Newsgroups(&'a [u8]),
    /// The name of the group of buffers.
    Options(&'a [u8]),
    /// The sizes.
    Size(Sizes),
    /// Whether each newsgroup has to match.
    ExactMatch(bool),
}

/// Reads a line alone, but for its expression; what it says rests on where it stands.
pub(crate) fn storage_line(place: Place, line: &[u8]) -> Result<Line<'_>, Fault>
    ensures { raw_by result ≡ terms.storage_line place line.now }
{
    let line = trim(line);
    match place {
        Place::Outside => outside_line(line),
        Place::InEntry => inside_line(line),
        Place::InOther => Ok(other_line(line)),
    }
}

/// Reads a line inside an entry of another method: all but its end says nothing.
fn other_line<'a>(line: &[u8]) -> Line<'a>
    ensures { raw_view result ≡ terms.other_line line.now }
{
    if is(line, b"}") {
        Line::Ends
    } else {
        Line::Skipped
    }
}

/// Reads a line outside an entry.
fn outside_line(line: &[u8]) -> Result<Line<'_>, Fault>
    ensures { raw_by result ≡ terms.outside_line line.now }
{
    if is_skipped(line) {
        return Ok(Line::Skipped);
    }
    let Some((first, method, last)) = three_words(line) else {
        return Err(Fault::Syntax);
    };
    if is(first, b"method") && is_name(method) && is(last, b"{") {
        Ok(Line::Opens(method))
    } else {
        Err(Fault::Syntax)
    }
}

/// Reads a line inside an entry of cnfs.
fn inside_line(line: &[u8]) -> Result<Line<'_>, Fault>
    ensures { raw_by result ≡ terms.inside_line line.now }
{
    if is_skipped(line) {
        return Ok(Line::Skipped);
    }
    if is(line, b"}") {
        return Ok(Line::Closes);
    }
    match key_and_value(line) {
        Some((key, value)) => unquoted_line(key, trim(value)),
        None => Err(bare_fault(line)),
    }
}

/// The key of a line of storage.conf and what follows it: the octets before the first colon and
/// those behind it, where there is one (docs/FORMATS.md, Configuration).
pub fn key_and_value(line: &[u8]) -> Option<(&[u8], &[u8])>
    ensures { option_map (λ two. (two.0.now, two.1.now)) result ≡ terms.key_and_value line.now }
{
    for (at, octet) in line.iter().enumerate() {
        if *octet == b':' {
            return Some((&line[..at], &line[at + 1..]));
        }
    }
    None
}

/// The fault of a line of an entry that has no colon.
fn bare_fault(line: &[u8]) -> Fault
    ensures { result ≡ terms.bare_fault (words line.now) }
{
    match first_word(line) {
        Some((word, _)) if is_known_word(word) => Fault::Syntax,
        _ => Fault::UnknownKey,
    }
}

/// Whether the file knows the word at the front of a line.
fn is_known_word(word: &[u8]) -> bool
    ensures { result ≡ terms.is_known_word word.now }
{
    is_key(word) || is(word, b"method") || is(word, b"}")
}

/// Whether the word is a key of an entry.
fn is_key(word: &[u8]) -> bool
    ensures { result ≡ terms.is_key word.now }
{
    is(word, b"class")
        || is(word, b"newsgroups")
        || is(word, b"options")
        || is(word, b"size")
        || is(word, b"exactmatch")
}

/// Reads a key and its value, which may not be quoted.
fn unquoted_line<'a>(key: &[u8], value: &'a [u8]) -> Result<Line<'a>, Fault>
    ensures { raw_by result ≡ terms.unquoted_line key.now value.now }
{
    if is_key(key) && value.starts_with(b"\"") {
        return Err(Fault::Syntax);
    }
    setting_line(key, value)
}

/// Reads a key and its value.
fn setting_line<'a>(key: &[u8], value: &'a [u8]) -> Result<Line<'a>, Fault>
    ensures { raw_by result ≡ terms.setting_line key.now value.now }
{
    if is(key, b"class") {
        class_line(value)
    } else if is(key, b"newsgroups") {
        Ok(Line::Newsgroups(value))
    } else if is(key, b"options") {
        options_line(value)
    } else if is(key, b"size") {
        size_line(value)
    } else if is(key, b"exactmatch") {
        exact_line(value)
    } else {
        Err(Fault::UnknownKey)
    }
}

/// Reads the value of `class`.
fn class_line<'a>(value: &[u8]) -> Result<Line<'a>, Fault>
    ensures { raw_by result ≡ terms.class_line value.now }
{
    if value.is_empty() {
        return Err(Fault::Syntax);
    }
    match number_within(0, 255, value) {
        Some(class) => Ok(Line::Class(class as u8)),
        None => Err(Fault::Number),
    }
}

/// Reads the value of `options`.
fn options_line(value: &[u8]) -> Result<Line<'_>, Fault>
    ensures { raw_by result ≡ terms.options_line value.now }
{
    if is_name(value) {
        Ok(Line::Options(value))
    } else {
        Err(Fault::Syntax)
    }
}

/// Reads the value of `size`.
fn size_line<'a>(value: &[u8]) -> Result<Line<'a>, Fault>
    ensures { raw_by result ≡ terms.size_line value.now }
{
    if value.is_empty() {
        return Err(Fault::Syntax);
    }
    Ok(Line::Size(sizes_of(value)?))
}

/// The sizes that a value says: `min` or `min,max`.
fn sizes_of(value: &[u8]) -> Result<Sizes, Fault>
    ensures { result ≡ terms.sizes_of (parts 44 value.now) }
{
    let (smallest, rest) = cut(value, b',');
    let Some(rest) = rest else {
        return sizes_between(size_in(smallest), Some(0));
    };
    match cut(rest, b',') {
        (largest, None) => sizes_between(size_in(smallest), largest_in(largest)),
        (_, Some(_)) => Err(Fault::Syntax),
    }
}

/// The sizes from a lower to an upper limit, where 0 is no limit.
fn sizes_between(smallest: Option<u64>, largest: Option<u64>) -> Result<Sizes, Fault>
    ensures { result ≡ terms.sizes_between smallest largest }
{
    let (Some(smallest), Some(largest)) = (smallest, largest) else {
        return Err(Fault::Number);
    };
    Ok(Sizes {
        smallest,
        largest: limit_of(largest),
    })
}

/// An upper limit, where 0 is none.
fn limit_of(size: u64) -> Option<u64>
    ensures { result ≡ terms.limit_of size }
{
    if size == 0 { None } else { Some(size) }
}

/// The upper limit that the word is; no word is 0.
fn largest_in(word: &[u8]) -> Option<u64>
    ensures { result ≡ terms.largest_in word.now }
{
    if word.is_empty() {
        Some(0)
    } else {
        size_in(word)
    }
}

/// The size in octets that the word is.
fn size_in(word: &[u8]) -> Option<u64>
    ensures { result ≡ terms.size_in word.now }
{
    number_within(0, u64::MAX, word)
}

/// Reads the value of `exactmatch`.
fn exact_line<'a>(value: &[u8]) -> Result<Line<'a>, Fault>
    ensures { raw_by result ≡ terms.exact_line value.now }
{
    if is_one_of(value, b"true", b"yes", b"on") {
        Ok(Line::ExactMatch(true))
    } else if is_one_of(value, b"false", b"no", b"off") {
        Ok(Line::ExactMatch(false))
    } else {
        Err(Fault::Syntax)
    }
}

/// Whether the word is one of these, without regard to ASCII case.
fn is_one_of(word: &[u8], first: &[u8], second: &[u8], third: &[u8]) -> bool
    ensures { result ≡ terms.is_one_of (first.now ∷ second.now ∷ third.now ∷ []) word.now }
{
    word.eq_ignore_ascii_case(first)
        || word.eq_ignore_ascii_case(second)
        || word.eq_ignore_ascii_case(third)
}
