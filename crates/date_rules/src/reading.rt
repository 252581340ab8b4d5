//! How the content of a date is read.
ghost use Rattle.std.specs.Prelude.{◌≡◌, ◌≤◌, ◌-◌, ◌==◌, not, length, pos, IfOk};
ghost use Rattle.std.specs.Int.{int_div_euclid};
ghost use Rattle.std.specs.List.{list_all, prefix_len, suffix_len};
ghost use Rattle.std.specs.Char.{is_ascii, is_ascii_alphabetic};
ghost use Rattle.std.specs.Str.{byte};
ghost use Rattle.jiff_core.specs.Timestamp.{IsTimestampNanos};
ghost use Rattle.news_terms.specs.Article.{is_white};
ghost use Rattle.news_terms.specs.Dates as terms;
ghost use Rattle.date_rules.specs.Seconds.{second_of, second_in, second_read};

use article_parse::unfolded;
use jiff::fmt::rfc2822::DateTimeParser;
use line_words::trim;
use std::alloc::{AllocError, Global};

/// The nanoseconds of a second.
const NANOSECONDS: i128 = 1_000_000_000;

/// The second that a date's content reads as, since the first of 1970, or `None` where it reads as
/// none (RFC 5322, section 3.3; docs/FORMATS.md, Dates).
pub fn seconds(alloc: Global, content: &[u8]) -> Result<Option<i64>, AllocError>
    ensures { IfOk result (λ second. second ≡ second_of content.now) }
{
    let line = unfolded(alloc, content)?;
    let text = without_comment(without_day_name(trim(&line)));
    let text = with_numeric_zone(alloc, text)?;
    Ok(second_in(&text))
}

/// The second that a prepared text reads as, where it is ASCII.
fn second_in(text: &[u8]) -> Option<i64>
    ensures { result ≡ second_in text.now }
{
    if is_ascii(text) {
        return second_read(text);
    }
    None
}

/// Whether each octet is ASCII.
fn is_ascii(text: &[u8]) -> bool
    ensures { result ≡ list_all is_ascii text.now }
{
    for octet in text {
        if !octet.is_ascii() {
            return false;
        }
    }
    true
}

/// The second that a text reads as.
fn second_read(text: &[u8]) -> Option<i64>
    ensures { result ≡ second_read text.now }
{
    match DateTimeParser::new().parse_timestamp(text) {
        Ok(moment) => Some(whole_second(moment.nanosecond)),
        Err(_) => None,
    }
}

/// The whole second of a moment, rounded down.
fn whole_second(nanosecond: i128) -> i64
    requires { IsTimestampNanos nanosecond }
    ensures { result ≡ int_div_euclid nanosecond (pos 1_000_000_000) }
{
    let second = nanosecond.div_euclid(NANOSECONDS);
    second as i64
}

/// A date without the name of its day and the comma (RFC 5322, section 3.3, day-of-week).
fn without_day_name(text: &[u8]) -> &[u8]
    ensures { result.now ≡ terms.without_day_name text.now }
{
    let letters = letters(text);
    let rest = &text[letters..];
    if letters > 0 && rest.starts_with(b",") {
        return trim(&rest[1..]);
    }
    text
}

/// How many ASCII letters stand at the front of a text.
fn letters(text: &[u8]) -> usize
    ensures value { result ≡ prefix_len is_ascii_alphabetic text.now }
    ensures within { result ≤ length text.now }
{
    let mut at = 0;
    while at < text.len() && text[at].is_ascii_alphabetic() {
        at += 1;
    }
    at
}

/// A date that ends with `)` without all from its last `(` on (RFC 5322, section 3.2.2).
fn without_comment(text: &[u8]) -> &[u8]
    ensures { result.now ≡ terms.without_comment text.now }
{
    if text.ends_with(b")") && text.contains(&b'(') {
        return trim(&text[..after_opening(text).saturating_sub(1)]);
    }
    text
}

/// The place behind the last `(`, or 0 where there is none.
fn after_opening(text: &[u8]) -> usize
    ensures value { result ≡ length text.now - suffix_len (λ c. not (c == byte "(")) text.now }
    ensures within { result ≤ length text.now }
{
    let mut end = text.len();
    while end > 0 && text[end - 1] != b'(' {
        end -= 1;
    }
    end
}

/// The place behind the last SP or TAB, or 0 where there is none.
fn after_white(text: &[u8]) -> usize
    ensures value { result ≡ length text.now - suffix_len (λ c. not (is_white c)) text.now }
    ensures within { result ≤ length text.now }
{
    let mut end = text.len();
    while end > 0 && text[end - 1] != b' ' && text[end - 1] != b'\t' {
        end -= 1;
    }
    end
}

/// A date with its zone as a number where a word for Greenwich ends it (RFC 5322, section 4.3).
fn with_numeric_zone(alloc: Global, text: &[u8]) -> Result<Vec<u8>, AllocError>
    ensures { IfOk result (λ date. date.items ≡ terms.with_numeric_zone text.now) }
{
    let place = after_white(text);
    if !is_greenwich(&text[place..]) {
        return Vec::from_slice(alloc, text);
    }
    let mut date = Vec::from_slice(alloc, &text[..place])?;
    date.extend_from_slice(b"+0000")?;
    Ok(date)
}

/// Whether the word stands for the zone of Greenwich.
fn is_greenwich(word: &[u8]) -> bool
    ensures { result ≡ terms.is_greenwich word.now }
{
    word.eq_ignore_ascii_case(b"gmt")
        || word.eq_ignore_ascii_case(b"ut")
        || word.eq_ignore_ascii_case(b"utc")
}
