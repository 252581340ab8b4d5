//! What is odd in the text of an expression over newsgroups.
ghost use Rattle.std.specs.Prelude.{◌≡◌};
ghost use Rattle.std.specs.Option.{option_copied};
ghost use Rattle.relay_explain.specs.Patterns as terms;
ghost use Rattle.relay_explain.specs.Text.{Adds};

use crate::text::{Text, put_odd, put_odd_number};

/// The octets of a name that are no letters and no digits.
const NAME_MARKS: &[u8] = b"+-_.";

/// The octets that a pattern may have besides.
const PATTERN_MARKS: &[u8] = b"*?[]^\\!@,";

/// Where an octet of an expression stands.
#[derive(Clone, Copy)]
pub(crate) enum Place {
    /// At the front of a pattern.
    Front,
    /// Inside of one.
    Inside,
    /// Behind a backslash.
    Escaped,
    /// Between brackets.
    InSet,
}

/// Puts what is odd in the text of an expression.
#[tactic(auto, unfolding(crate::specs::Patterns::pattern_odds))]
pub(crate) fn put_pattern_odds(text: Text, file: &[u8], line: usize, expression: &[u8]) -> Text
    ensures { Adds text result (terms.pattern_odds file.now line expression.now) }
{
    let text = put_octet(text, file, line, odd_octet(expression));
    put_odd(
        text,
        !has_taking(expression),
        file,
        line,
        b"no newsgroup matches",
    )
}

/// Puts what is told of an octet that no newsgroup's name has.
#[tactic(auto, unfolding(crate::specs::Patterns::octet_text))]
fn put_octet(text: Text, file: &[u8], line: usize, octet: Option<&u8>) -> Text
    ensures { Adds text result (terms.octet_text file.now line (option_copied octet.entry)) }
{
    let Some(octet) = octet else {
        return text;
    };
    let after = b", which no newsgroup has: it matches none by it";
    put_odd_number(
        text,
        file,
        line,
        b"a pattern has the octet ",
        *octet as u128,
        after,
    )
}

/// The first octet of an expression that neither a name nor a pattern has.
#[tactic(auto, unfolding(crate::specs::Patterns::odd_octet))]
fn odd_octet(expression: &[u8]) -> Option<&u8>
    ensures { option_copied result ≡ terms.odd_octet expression.now }
{
    for octet in expression {
        if !(is_of_name(*octet) || is_of_patterns(*octet)) {
            return Some(octet);
        }
    }
    None
}

/// Whether a newsgroup's name may have the octet.
fn is_of_name(octet: u8) -> bool
    ensures { result ≡ terms.is_of_name octet }
{
    (97 <= octet && octet <= 122)
        || (65 <= octet && octet <= 90)
        || (48 <= octet && octet <= 57)
        || NAME_MARKS.contains(&octet)
}

/// Whether a pattern may have the octet besides.
fn is_of_patterns(octet: u8) -> bool
    ensures { result ≡ terms.is_of_patterns octet }
{
    PATTERN_MARKS.contains(&octet)
}

/// Whether an expression has a pattern that takes what it matches.
fn has_taking(expression: &[u8]) -> bool
    ensures { result ≡ terms.has_taking expression.now }
{
    let mut place = Place::Front;
    for octet in expression {
        match behind(place, *octet) {
            None => return true,
            Some(next) => place = next,
        }
    }
    false
}

/// Where the next octet stands, where none that takes has begun yet.
fn behind(place: Place, octet: u8) -> Option<Place>
    ensures { result ≡ terms.behind place octet }
{
    match place {
        Place::Front => behind_front(octet),
        Place::Inside => Some(behind_inside(octet)),
        Place::Escaped => Some(Place::Inside),
        Place::InSet if octet == b']' => Some(Place::Inside),
        Place::InSet => Some(Place::InSet),
    }
}

/// Where the next octet stands, behind one at the front of a pattern.
fn behind_front(octet: u8) -> Option<Place>
    ensures { result ≡ terms.behind_front octet }
{
    if octet == b',' {
        Some(Place::Front)
    } else if octet == b'!' || octet == b'@' {
        Some(Place::Inside)
    } else {
        None
    }
}

/// Where the next octet stands, behind one inside of a pattern.
fn behind_inside(octet: u8) -> Place
    ensures { result ≡ terms.behind_inside octet }
{
    if octet == b',' {
        Place::Front
    } else if octet == b'\\' {
        Place::Escaped
    } else if octet == b'[' {
        Place::InSet
    } else {
        Place::Inside
    }
}
