//! The numbers of a line.
ghost use Rattle.std.specs.Prelude.{◌≡◌, ◌∷◌, ℕ, IfOk, List, MatchOption, None, map, option_map};
ghost use Rattle.std.specs.Option.{option_copied};
ghost use Rattle.line_words.specs.Numbers.{is_numeral};
ghost use Rattle.line_words.specs.Words.{words};
ghost use Rattle.line_words.specs.declared.words.Between.TheVariants.{Spaces};
ghost use Rattle.relay_metrics.specs.Lines as terms;

use line_words::{Between, first_word, has_only_digits, is};
use std::alloc::{AllocError, Global};

/// The numbers that the words of a line are, each behind its key; none where a word is no such
/// number, one is missing, or one too many.
pub(crate) fn numbers_by<'a>(
    alloc: Global,
    keys: &[&[u8]],
    rest: &'a [u8],
) -> Result<Option<Vec<&'a [u8]>>, AllocError>
    ensures { IfOk result (λ numbers.
        option_map (λ some. map (λ number. number.now) some.items) numbers
        ≡ terms.numbers_by (map (λ key. key.now) keys.now) (words Spaces rest.now)) }
{
    let mut numbers = Vec::new(alloc);
    let mut left = rest;
    for key in keys {
        let Some((number, more)) = next_number(key, left) else {
            return Ok(None);
        };
        numbers.push(number)?;
        left = more;
    }
    match first_word(left, Between::Spaces) {
        Some(_) => Ok(None),
        None => Ok(Some(numbers)),
    }
}

/// The number that the first word is behind this key, and what follows that word; none where there
/// is no such number.
fn next_number<'a>(key: &[u8], left: &'a [u8]) -> Option<(&'a [u8], &'a [u8])>
    ensures { (keys : List (List ℕ)) → MatchOption result
        (terms.numbers_by (key.now ∷ keys) (words Spaces left.now) ≡ None)
        (λ next. terms.numbers_by (key.now ∷ keys) (words Spaces left.now)
        ≡ option_map (λ more. next.0.now ∷ more)
        (terms.numbers_by keys (words Spaces next.1.now))) }
{
    let (word, rest) = first_word(left, Between::Spaces)?;
    Some((number_behind(key, word)?, rest))
}

/// The number that a word is behind this key.
fn number_behind<'a>(key: &[u8], word: &'a [u8]) -> Option<&'a [u8]>
    ensures { option_copied result ≡ terms.number_behind key.now word.now }
{
    let number = behind_key(key, word)?;
    if is_numeral(number) {
        Some(number)
    } else {
        None
    }
}

/// What stands in a word behind this key, where the key stands before it.
pub(crate) fn behind_key<'a>(key: &[u8], word: &'a [u8]) -> Option<&'a [u8]>
    ensures { option_copied result ≡ terms.behind_key key.now word.now }
{
    if word.len() < key.len() {
        return None;
    }
    let (front, rest) = word.split_at(key.len());
    if is(front, key) { Some(rest) } else { None }
}

/// Whether the word is a number as it is written.
fn is_numeral(word: &[u8]) -> bool
    ensures { result ≡ is_numeral word.now }
{
    !word.is_empty() && has_only_digits(word)
}
