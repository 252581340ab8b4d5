//! The pieces of a Path, and what each is.
ghost use Rattle.std.specs.Prelude.{◌≡◌, ◌==◌};
ghost use Rattle.std.specs.List.{list_all, position};
ghost use Rattle.std.specs.Char.{is_ascii_graphic};
ghost use Rattle.std.specs.Str.{byte};
ghost use Rattle.news_terms.specs.Path.{path_octets, leftmost_identity};
ghost use Rattle.news_terms.specs.Path as terms;
ghost use Rattle.path_rules.specs.Pieces.{CutGives};

use crate::words::{begins, is_folding, is_same, spells};

/// A piece of a Path, and what stands behind the `!` that ends it.
#[derive(Clone, Copy)]
pub(crate) struct Cut<'a> {
    pub(crate) piece: &'a [u8],
    pub(crate) rest: &'a [u8],
}

/// The first piece of a Path that has a `!`.
pub(crate) fn first_piece(path: &[u8]) -> Option<Cut<'_>>
    ensures { CutGives path.now result }
{
    match bang_place(path) {
        Some(end) => Some(Cut {
            piece: &path[..end],
            rest: &path[end + 1..],
        }),
        None => None,
    }
}

/// The place of the first `!`.
fn bang_place(path: &[u8]) -> Option<usize>
    ensures { result ≡ position (λ c. c == byte "!") path.now }
{
    for (place, octet) in path.iter().enumerate() {
        if *octet == b'!' {
            return Some(place);
        }
    }
    None
}

/// Whether each octet is printable, white space left out.
pub(crate) fn is_good(path: &[u8]) -> bool
    ensures { result ≡ list_all is_ascii_graphic (path_octets path.now) }
{
    for octet in path {
        if !is_folding(*octet) && !octet.is_ascii_graphic() {
            return false;
        }
    }
    true
}

/// Whether the piece says that the article was injected (RFC 5537, section 3.2.1).
pub(crate) fn is_posted(piece: &[u8]) -> bool
    ensures { result ≡ terms.is_posted (path_octets piece.now) }
{
    spells(piece, b".POSTED") || begins(piece, b".POSTED.")
}

/// Whether the piece is the identity of an agent (RFC 5537, section 3.2).
pub(crate) fn is_identity(piece: &[u8]) -> bool
    ensures { result ≡ terms.is_identity (path_octets piece.now) }
{
    !spells(piece, b"") && !begins(piece, b".")
}

/// Whether the leftmost identity is the expected one (RFC 5537, section 3.2.1).
pub(crate) fn is_from(path: &[u8], expected: &[u8]) -> bool
    ensures { result ≡ terms.is_expected expected.now (leftmost_identity path.now) }
{
    match first_piece(path) {
        Some(cut) => is_same(cut.piece, expected),
        None => false,
    }
}
