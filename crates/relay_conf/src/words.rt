//! The words of a configuration file's lines.
ghost use Rattle.std.specs.Prelude.{◌≡◌, ◌∷◌, [], option_map, MatchOption};
ghost use Rattle.std.specs.Option.{option_copied};
ghost use Rattle.std.specs.List.{list_all};
ghost use Rattle.line_words.specs.Parts.{one_of, two_of, three_of};
ghost use Rattle.relay_conf.specs.Words.{words};
ghost use Rattle.relay_conf.specs.Words as terms;

use line_words::Between;

/// Whether the word is a name: 1 to 16 octets of names.
pub(crate) fn is_name(word: &[u8]) -> bool
    ensures { result ≡ terms.is_name word.now }
{
    !word.is_empty() && word.len() <= 16 && has_name_octets(word)
}

/// Whether each octet may stand in a name.
fn has_name_octets(word: &[u8]) -> bool
    ensures { result ≡ list_all terms.is_name_octet word.now }
{
    for octet in word {
        if !is_name_octet(*octet) {
            return false;
        }
    }
    true
}

/// Whether the octet may stand in a name.
fn is_name_octet(octet: u8) -> bool
    ensures { result ≡ terms.is_name_octet octet }
{
    octet.is_ascii_alphanumeric() || octet == b'-' || octet == b'_' || octet == b'.'
}

/// The first word of a line between spaces and what follows it, or `None` where there is none.
pub(crate) fn first_word(line: &[u8]) -> Option<(&[u8], &[u8])>
    ensures { MatchOption result (words line.now ≡ [])
        (λ cut. words line.now ≡ cut.0.now ∷ words cut.1.now) }
{
    line_words::first_word(line, Between::Spaces)
}

/// The one word of a line, where there is just one.
pub(crate) fn one_word(line: &[u8]) -> Option<&[u8]>
    ensures { option_copied result ≡ one_of (words line.now) }
{
    let (word, rest) = first_word(line)?;
    match first_word(rest) {
        None => Some(word),
        Some(_) => None,
    }
}

/// The two words of a line, where there are just two.
pub(crate) fn two_words(line: &[u8]) -> Option<(&[u8], &[u8])>
    ensures { option_map (λ two. (two.0.now, two.1.now)) result ≡ two_of (words line.now) }
{
    let (first, rest) = first_word(line)?;
    Some((first, one_word(rest)?))
}

/// The three words of a line, where there are just three.
pub(crate) fn three_words(line: &[u8]) -> Option<(&[u8], &[u8], &[u8])>
    ensures { option_map (λ three. (three.0.now, three.1.now, three.2.now)) result
        ≡ three_of (words line.now) }
{
    let (first, rest) = first_word(line)?;
    let (second, third) = two_words(rest)?;
    Some((first, second, third))
}

/// Whether the word is an identity: 1 to 64 octets of names, the first no dot.
pub(crate) fn is_identity(word: &[u8]) -> bool
    ensures { result ≡ terms.is_identity word.now }
{
    !word.is_empty() && word.len() <= 64 && has_name_octets(word) && !word.starts_with(b".")
}
