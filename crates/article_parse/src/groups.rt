//! Lists of newsgroup names (RFC 5536, section 3.1.4).
ghost use Rattle.std.specs.Prelude.{◌≡◌, ◌==◌, map, IfOk};
ghost use Rattle.std.specs.List.{list_all, slice_split};
ghost use Rattle.std.specs.Str.{byte};
ghost use Rattle.news_terms.specs.Article.{without_outer_white};
ghost use Rattle.news_terms.specs.Article as terms;

use line_words::{cut, trim};
use std::alloc::{AllocError, Global};

/// The pieces of a line cut at commas, each without white space at its ends.
pub(crate) fn names_in(alloc: Global, line: &[u8]) -> Result<Vec<&[u8]>, AllocError>
    ensures { IfOk result (λ names. map (λ name. name.now) names.items
        ≡ map without_outer_white (slice_split (λ c. c == byte ",") line.now)) }
{
    let mut names = Vec::new(alloc);
    let mut unread = Some(line);
    while let Some(rest) = unread {
        let (piece, after) = cut(rest, b',');
        names.push(trim(piece))?;
        unread = after;
    }
    Ok(names)
}

/// Whether each piece of a text cut at commas is a newsgroup name, without white space at its ends.
pub(crate) fn are_newsgroup_names(text: &[u8]) -> bool
    ensures { result ≡ list_all (λ piece. terms.is_newsgroup_name (without_outer_white piece))
        (slice_split (λ c. c == byte ",") text.now) }
{
    let mut unread = Some(text);
    while let Some(rest) = unread {
        let (name, after) = cut(rest, b',');
        if !is_newsgroup_name(trim(name)) {
            return false;
        }
        unread = after;
    }
    true
}

/// Whether a text is components joined by dots.
fn is_newsgroup_name(text: &[u8]) -> bool
    ensures { result ≡ terms.is_newsgroup_name text.now }
{
    let mut unread = Some(text);
    while let Some(rest) = unread {
        let (component, after) = cut(rest, b'.');
        if !is_component(component) {
            return false;
        }
        unread = after;
    }
    true
}

/// Whether a text is one or more octets of a component.
fn is_component(text: &[u8]) -> bool
    ensures { result ≡ terms.is_component text.now }
{
    !text.is_empty() && has_component_octets(text)
}

/// Whether each octet may stand in a component.
fn has_component_octets(text: &[u8]) -> bool
    ensures { result ≡ list_all terms.is_component_octet text.now }
{
    for octet in text {
        if !is_component_octet(*octet) {
            return false;
        }
    }
    true
}

/// Whether the octet may stand in a component.
fn is_component_octet(octet: u8) -> bool
    ensures { result ≡ terms.is_component_octet octet }
{
    octet.is_ascii_alphanumeric() || octet == b'+' || octet == b'-' || octet == b'_'
}
