//! A piece of a Path against a word. The white space that folds a Path is passed over where it
//! stands, so that nothing is copied to leave it out.
ghost use Rattle.std.specs.Prelude.{◌≡◌, nat_eq, bytes_eq};
ghost use Rattle.std.specs.List.{starts_with};
ghost use Rattle.std.specs.Str.{str_eq_ignore_ascii_case};
ghost use Rattle.news_terms.specs.Path.{path_octets};
ghost use Rattle.news_terms.specs.Path as terms;

/// Whether the octet is SP, TAB, CR or LF, by which a Path may be folded.
pub(crate) fn is_folding(octet: u8) -> bool
    ensures { result ≡ terms.is_folding octet }
{
    octet == b' ' || octet == b'\t' || octet == b'\r' || octet == b'\n'
}

/// Whether the octets of the piece are those of the word.
pub(crate) fn spells(piece: &[u8], word: &[u8]) -> bool
    ensures { result ≡ bytes_eq (path_octets piece.now) word.now }
{
    let mut rest = word;
    for octet in piece {
        if is_folding(*octet) {
            continue;
        }
        match rest.split_first() {
            Some((first, others)) if *first == *octet => rest = others,
            _ => return false,
        }
    }
    rest.is_empty()
}

/// Whether the octets of the piece are those of the word, without regard to ASCII case.
pub(crate) fn is_same(piece: &[u8], word: &[u8]) -> bool
    ensures { result ≡ str_eq_ignore_ascii_case (path_octets piece.now) word.now }
{
    let mut rest = word;
    for octet in piece {
        if is_folding(*octet) {
            continue;
        }
        match rest.split_first() {
            Some((first, others)) if first.eq_ignore_ascii_case(octet) => rest = others,
            _ => return false,
        }
    }
    rest.is_empty()
}

/// Whether the octets of the piece begin with the word.
pub(crate) fn begins(piece: &[u8], word: &[u8]) -> bool
    ensures { result ≡ starts_with nat_eq (path_octets piece.now) word.now }
{
    let mut rest = word;
    for octet in piece {
        let Some((first, others)) = rest.split_first() else {
            return true;
        };
        if is_folding(*octet) {
            continue;
        }
        if *first != *octet {
            return false;
        }
        rest = others;
    }
    rest.is_empty()
}
