//! Parts of patterns: how they are written, and which octets they take.
ghost use Rattle.std.specs.Prelude.{◌≡◌, ◌==◌, ◌∷◌, true};
ghost use Rattle.std.specs.List.{position};
ghost use Rattle.std.specs.Str.{byte};
ghost use Rattle.news_terms.specs.Pattern.{has_no_bracket};
ghost use Rattle.uwild.specs.Expression.{item_view};
ghost use Rattle.uwild.specs.Reads.{FrontGives, BetweenGives, SetGives};
ghost use Rattle.uwild.specs.Walks.{takes};

use crate::expression::WildError;
use crate::set::{SetFault, is_of_set, set_fault};
use std::alloc::Global;

/// A part of a pattern (docs/FORMATS.md, Patterns).
#[derive(Drop)]
pub(crate) enum Item {
    /// `*`: some text.
    Star,
    /// `?`: one octet, whichever.
    AnyOctet,
    /// This octet.
    Literal(u8),
    /// This octet, written behind a `\`.
    Escaped(u8),
    /// One octet of the set that stands between the brackets.
    OneOf(Vec<u8>),
    /// One octet that is not of the set that stands between `[^` and `]`.
    NoneOf(Vec<u8>),
}

/// What stands at the front of a text within a pattern.
#[derive(Drop)]
pub(crate) enum Front<'a> {
    /// A part of the pattern, and what follows it.
    Item(Item, &'a [u8]),
    /// A comma, and what follows it: another pattern.
    Comma(&'a [u8]),
    /// The end of the text.
    End,
}

impl Item {
    /// Whether the part, no star, takes the octet.
    pub(crate) fn takes(&self, octet: u8) -> bool
        ensures { result ≡ takes (item_view self.now) octet }
    {
        match self {
            Item::Star => false,
            Item::AnyOctet => true,
            Item::Literal(own) => *own == octet,
            Item::Escaped(own) => *own == octet,
            Item::OneOf(set) => is_of_set(set, octet),
            Item::NoneOf(set) => !is_of_set(set, octet),
        }
    }
}

/// Reads what stands at the front of a text within a pattern.
pub(crate) fn read_front(alloc: Global, text: &[u8]) -> Result<Front<'_>, WildError>
    ensures { FrontGives text.now result }
{
    let Some((octet, rest)) = text.split_first() else {
        return Ok(Front::End);
    };
    match *octet {
        b',' => Ok(Front::Comma(rest)),
        b'*' => Ok(Front::Item(Item::Star, rest)),
        b'?' => Ok(Front::Item(Item::AnyOctet, rest)),
        b'[' => read_set(alloc, rest),
        b'\\' => read_escaped(rest),
        0x80.. => Err(WildError::NonAscii),
        own => Ok(Front::Item(Item::Literal(own), rest)),
    }
}

/// Reads the octet behind a `\`.
fn read_escaped(text: &[u8]) -> Result<Front<'_>, WildError>
    ensures { FrontGives (byte "\\" ∷ text.now) result }
{
    match text.split_first() {
        None => Err(WildError::DanglingEscape),
        Some((0x80.., _)) => Err(WildError::NonAscii),
        Some((own, rest)) => Ok(Front::Item(Item::Escaped(*own), rest)),
    }
}

/// Reads the set, or the reverse of one, behind a `[`.
fn read_set(alloc: Global, text: &[u8]) -> Result<Front<'_>, WildError>
    ensures { FrontGives (byte "[" ∷ text.now) result }
{
    let Some(end) = bracket_place(text) else {
        return Err(WildError::OpenSet);
    };
    let item = set_between(alloc, &text[..end])?;
    Ok(Front::Item(item, &text[end + 1..]))
}

/// Where the first `]` stands.
fn bracket_place(text: &[u8]) -> Option<usize>
    ensures { result ≡ position (λ c. c == byte "]") text.now }
{
    for (place, octet) in text.iter().enumerate() {
        if *octet == b']' {
            return Some(place);
        }
    }
    None
}

/// The set, or the reverse of one, that stands between brackets.
fn set_between(alloc: Global, between: &[u8]) -> Result<Item, WildError>
    requires { has_no_bracket between.now ≡ true }
    ensures { BetweenGives between.now result }
{
    if between.starts_with(b"^") {
        let set = checked_set(alloc, &between[1..])?;
        return Ok(Item::NoneOf(set));
    }
    let set = checked_set(alloc, between)?;
    Ok(Item::OneOf(set))
}

/// A copy of the octets between brackets, if they have no fault.
fn checked_set(alloc: Global, set: &[u8]) -> Result<Vec<u8>, WildError>
    requires { has_no_bracket set.now ≡ true }
    ensures { SetGives set.now result }
{
    if set.is_empty() {
        return Err(WildError::EmptySet);
    }
    match set_fault(set) {
        Some(SetFault::BadRange) => Err(WildError::BadRange),
        Some(SetFault::NonAscii) => Err(WildError::NonAscii),
        None => Ok(Vec::from_slice(alloc, set)?),
    }
}
