//! Where the header of an article ends.
ghost use Rattle.std.specs.Prelude.{◌≡◌, MatchOption, IsTrue, false};
ghost use Rattle.news_terms.specs.Article.{Article, IsLaidOut};
ghost use Rattle.news_terms.specs.Article as terms;
ghost use Rattle.article_fetch.specs.Layout.{IsEmptyLinePlace};

use article_parse::{Front, front_of, has_nul, is_paired};

/// The place of the empty line of an article's text: before it stand the lines of the header, and
/// two octets behind it the body (RFC 5536, section 2.1).
pub(crate) fn empty_line_place(text: &[u8]) -> Option<usize>
    ensures { MatchOption result ((a : Article) → ¬ IsLaidOut text.now a)
        (IsEmptyLinePlace text.now) }
{
    if has_nul(text) || !is_paired(text) {
        return None;
    }
    header_end(text)
}

/// The same of a text without octet 0 whose line ends are pairs.
fn header_end(text: &[u8]) -> Option<usize>
    requires nul { terms.has_nul text.now ≡ false }
    requires paired { IsTrue (terms.is_paired text.now) }
    ensures { MatchOption result ((a : Article) → ¬ IsLaidOut text.now a)
        (IsEmptyLinePlace text.now) }
{
    let mut at = 0;
    loop {
        match front_of(&text[at..]) {
            Front::Field(_, octets) => at += octets,
            Front::EmptyLine => return Some(at),
            Front::NoBlankLine => return None,
            Front::BadHeader => return None,
        }
    }
}
