//! The lines of a text, and the tests of a whole text.
ghost use Rattle.std.specs.Prelude.{◌≡◌, true, IsTrue, MatchOption};
ghost use Rattle.news_terms.specs.Article as terms;
ghost use Rattle.article_parse.specs.Header.{is_plain, IsLineCut};

use memchr::{memchr, memchr2};

/// Whether an octet 0 stands in the text (docs/FORMATS.md, Articles).
pub fn has_nul(text: &[u8]) -> bool
    ensures { result ≡ terms.has_nul text.now }
{
    memchr(0, text).is_some()
}

/// Whether each CR is followed by LF and each LF preceded by CR (docs/FORMATS.md, Articles).
pub fn is_paired(text: &[u8]) -> bool
    ensures { result ≡ terms.is_paired text.now }
{
    let mut at = 0;
    while let Some(place) = memchr2(b'\r', b'\n', &text[at..]) {
        let end = at + place;
        if !text[end..].starts_with(b"\r\n") {
            return false;
        }
        at = end + 2;
    }
    true
}

/// Where the first line of a text ends, if a CRLF ends it.
pub(crate) fn line_end(text: &[u8]) -> Option<usize>
    requires { IsTrue (terms.is_paired text.now) }
    ensures { MatchOption result (is_plain text.now ≡ true) (IsLineCut text.now) }
{
    memchr2(b'\r', b'\n', text)
}

/// Whether the text has an empty line (RFC 5536, section 2.1).
pub(crate) fn has_empty_line(text: &[u8]) -> bool
    requires { IsTrue (terms.is_paired text.now) }
    ensures { result ≡ terms.has_empty_line text.now }
{
    let mut at = 0;
    while let Some(end) = line_end(&text[at..]) {
        if end == 0 {
            return true;
        }
        at = at + end + 2;
    }
    false
}
