//! The words of a line.
ghost use Rattle.std.specs.Prelude.{◌≡◌, ◌≤◌, ◌∷◌, [], bytes_eq, length, not, MatchOption};
ghost use Rattle.std.specs.List.{position_or_len};
ghost use Rattle.line_words.specs.Words.{words};
ghost use Rattle.line_words.specs.Words as terms;

use crate::white::is_white;

/// What stands between the words of a line, one octet or more.
#[derive(Clone, Copy)]
pub enum Between {
    /// SPs alone (docs/FORMATS.md, Configuration).
    Spaces,
    /// SPs and TABs (docs/FORMATS.md, Command lines).
    White,
}

/// Whether the word is this one.
pub fn is(word: &[u8], this: &[u8]) -> bool
    ensures { result ≡ bytes_eq word.now this.now }
{
    word == this
}

/// The first word of a line and what follows it, or `None` where the line has no word.
pub fn first_word(line: &[u8], between: Between) -> Option<(&[u8], &[u8])>
    ensures { MatchOption result (words between line.now ≡ [])
        (λ cut. words between line.now ≡ cut.0.now ∷ words between cut.1.now) }
{
    let line = &line[separators_before(line, between)..];
    if line.is_empty() {
        return None;
    }
    Some(line.split_at(word_length(line, between)))
}

/// How many octets stand before the first word.
fn separators_before(line: &[u8], between: Between) -> usize
    ensures value { result ≡ position_or_len (λ c. not (terms.separates between c)) line.now }
    ensures within { result ≤ length line.now }
{
    line.iter()
        .position(|octet| !separates(between, *octet))
        .unwrap_or(line.len())
}

/// How many octets stand before the first that is no part of a word.
fn word_length(line: &[u8], between: Between) -> usize
    ensures value { result ≡ position_or_len (terms.separates between) line.now }
    ensures within { result ≤ length line.now }
{
    line.iter()
        .position(|octet| separates(between, *octet))
        .unwrap_or(line.len())
}

/// Whether the octet stands between words.
fn separates(between: Between, octet: u8) -> bool
    ensures { result ≡ terms.separates between octet }
{
    match between {
        Between::Spaces => octet == b' ',
        Between::White => is_white(octet),
    }
}
