//! The part of the articles that a feed may have, as a line says it (docs/FORMATS.md,
//! Configuration).
ghost use Rattle.std.specs.Prelude.{◌≡◌};
ghost use Rattle.line_words.specs.Parts.{parts, parts_after};
ghost use Rattle.relay_conf.specs.HashLines as terms;
ghost use Rattle.relay_conf.specs.Words.{words};

use crate::faults::Fault;
use crate::hash_feeds::HashFeed;
use crate::words::{first_word, two_words};
use line_words::{cut, is, number_within, one_part};

/// The largest number of a part.
const MOST: u64 = 4_294_967_295;

/// What stands behind the expression of a feed: nothing, or the word `hash` and a part.
pub(crate) fn hash_behind(rest: &[u8]) -> Result<Option<HashFeed>, Fault>
    ensures { result ≡ terms.hash_behind (words rest.now) }
{
    if first_word(rest).is_none() {
        return Ok(None);
    }
    match two_words(rest) {
        Some((key, word)) if is(key, b"hash") => Ok(Some(part_of(word)?)),
        _ => Err(Fault::Syntax),
    }
}

/// The part that a word is: `FROM-TO/OF`, or `N/OF`.
fn part_of(word: &[u8]) -> Result<HashFeed, Fault>
    ensures { result ≡ terms.part_of word.now }
{
    let (ends, rest) = cut(word, b'/');
    match one_part(rest, b'/') {
        Some(of) => hash_among(ends, of),
        None => Err(Fault::Syntax),
    }
}

/// The part between these ends, `FROM-TO` or `N`, among so many.
fn hash_among(ends: &[u8], of: &[u8]) -> Result<HashFeed, Fault>
    ensures { result ≡ terms.hash_among (parts 45 ends.now) of.now }
{
    let (first, rest) = cut(ends, b'-');
    let Some(rest) = rest else {
        return hash_pieces(first, first, of);
    };
    match one_part(Some(rest), b'-') {
        Some(last) => hash_pieces(first, last, of),
        None => Err(Fault::Syntax),
    }
}

/// The part of these three pieces, of which none may be empty.
fn hash_pieces(first: &[u8], last: &[u8], of: &[u8]) -> Result<HashFeed, Fault>
    ensures { result ≡ terms.hash_pieces first.now last.now of.now }
{
    if first.is_empty() || last.is_empty() || of.is_empty() {
        return Err(Fault::Syntax);
    }
    match hash_numbers(first, last, of) {
        Some(hash) => Ok(hash),
        None => Err(Fault::Number),
    }
}

/// The part of the numbers that these pieces are, where they are in order.
fn hash_numbers(first: &[u8], last: &[u8], of: &[u8]) -> Option<HashFeed>
    ensures { result ≡ terms.hash_numbers first.now last.now of.now }
{
    let first = number_within(0, MOST, first)?;
    let last = number_within(0, MOST, last)?;
    let parts = number_within(0, MOST, of)?;
    hash_part(first as u32, last as u32, parts as u32)
}

/// The part from one place to another among so many, where these numbers are in order.
fn hash_part(first: u32, last: u32, parts: u32) -> Option<HashFeed>
    ensures { result ≡ terms.hash_part first last parts }
{
    if 1 <= first && first <= last && last <= parts {
        return Some(HashFeed { first, last, parts });
    }
    None
}
