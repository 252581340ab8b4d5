//! White space: SP and TAB.
ghost use Rattle.std.specs.Prelude.{◌≡◌};
ghost use Rattle.news_terms.specs.Article.{without_outer_white, without_leading_white};
ghost use Rattle.news_terms.specs.Article as terms;
ghost use Rattle.line_words.specs.White.{without_trailing_white};

/// A text without the SPs and TABs at both ends (docs/FORMATS.md, Articles and Configuration).
pub fn trim(text: &[u8]) -> &[u8]
    ensures { result.now ≡ without_outer_white text.now }
{
    trim_end(trim_start(text))
}

/// A text from its first octet that is no SP or TAB.
fn trim_start(text: &[u8]) -> &[u8]
    ensures { result.now ≡ without_leading_white text.now }
{
    let mut at = 0;
    while at < text.len() && is_white(text[at]) {
        at += 1;
    }
    &text[at..]
}

/// A text up to its last octet that is no SP or TAB.
fn trim_end(text: &[u8]) -> &[u8]
    ensures { result.now ≡ without_trailing_white text.now }
{
    let mut end = text.len();
    while end > 0 && is_white(text[end - 1]) {
        end -= 1;
    }
    &text[..end]
}

/// Whether the octet is SP or TAB.
pub fn is_white(octet: u8) -> bool
    ensures { result ≡ terms.is_white octet }
{
    octet == b' ' || octet == b'\t'
}
