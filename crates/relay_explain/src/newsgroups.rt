//! Names of newsgroups (RFC 5536, section 3.1.4).
ghost use Rattle.std.specs.Prelude.{◌≡◌, find, map, not, IfOk};
ghost use Rattle.std.specs.List.{list_all};
ghost use Rattle.std.specs.Option.{option_copied, option_map};
ghost use Rattle.news_terms.specs.Article as terms;
ghost use Rattle.relay_explain.specs.Choice.{names_in};

use line_words::{cut, trim};
use std::alloc::{AllocError, Global};

/// The names of newsgroups with commas between them, each without white space at its ends.
pub(crate) fn names_in(alloc: Global, newsgroups: &[u8]) -> Result<Vec<&[u8]>, AllocError>
    ensures { IfOk result (λ names. map (λ name. name.now) names.items
        ≡ names_in newsgroups.now) }
{
    let mut names = Vec::new(alloc);
    let mut unread = Some(newsgroups);
    while let Some(rest) = unread {
        let (name, after) = cut(rest, b',');
        names.push(trim(name))?;
        unread = after;
    }
    Ok(names)
}

/// The first of these that is no newsgroup's name.
pub(crate) fn first_wrong<'a>(names: &[&'a [u8]]) -> Option<&'a [u8]>
    ensures { option_map (λ name. name.now) result
        ≡ find (λ name. not (terms.is_newsgroup_name name)) (map (λ name. name.now) names.now) }
{
    for name in names {
        if !is_newsgroup_name(name) {
            return Some(*name);
        }
    }
    None
}

/// Whether a text is components with dots between them.
fn is_newsgroup_name(text: &[u8]) -> bool
    ensures { result ≡ terms.is_newsgroup_name text.now }
{
    let mut unread = Some(text);
    while let Some(rest) = unread {
        let (component, after) = cut(rest, b'.');
        if !is_component(component) {
            return false;
        }
        unread = after;
    }
    true
}

/// Whether a text is one or more octets of a component.
fn is_component(text: &[u8]) -> bool
    ensures { result ≡ terms.is_component text.now }
{
    !text.is_empty() && has_component_octets(text)
}

/// Whether each octet may stand in a component.
fn has_component_octets(text: &[u8]) -> bool
    ensures { result ≡ list_all terms.is_component_octet text.now }
{
    for octet in text {
        if !is_component_octet(*octet) {
            return false;
        }
    }
    true
}

/// Whether the octet may stand in a component.
fn is_component_octet(octet: u8) -> bool
    ensures { result ≡ terms.is_component_octet octet }
{
    octet.is_ascii_alphanumeric() || octet == b'+' || octet == b'-' || octet == b'_'
}
