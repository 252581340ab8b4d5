//! The content of a field in one line, and whether it has anything.
ghost use Rattle.std.specs.Prelude.{◌≡◌, IfOk};
ghost use Rattle.news_terms.specs.Article.{is_empty, trimmed};
ghost use Rattle.news_terms.specs.Article as terms;
ghost use Rattle.article_parse.specs.Content.{begins_white};

use line_words::is_white;
use std::alloc::{AllocError, Global};

/// A content in one line: without its CRLF pairs, then without a first SP or TAB (RFC 5322, section
/// 2.2.3; docs/FORMATS.md, Articles). A CR or LF alone, which no article has, stays.
pub fn unfolded(alloc: Global, content: &[u8]) -> Result<Vec<u8>, AllocError>
    ensures { IfOk result (λ line. line.items ≡ terms.unfolded content.now) }
{
    let mut line = without_crlf(alloc, content)?;
    if begins_white(&line) {
        line.remove(0);
    }
    Ok(line)
}

/// A text without its CRLF pairs.
fn without_crlf(alloc: Global, text: &[u8]) -> Result<Vec<u8>, AllocError>
    ensures { IfOk result (λ kept. kept.items ≡ terms.without_crlf text.now) }
{
    let mut kept = Vec::with_capacity(alloc, text.len())?;
    let mut at = 0;
    while at < text.len() {
        if text[at..].starts_with(b"\r\n") {
            at += 2;
        } else {
            kept.push(text[at])?;
            at += 1;
        }
    }
    Ok(kept)
}

/// Whether the first octet is SP or TAB.
pub fn begins_white(text: &[u8]) -> bool
    ensures { result ≡ begins_white text.now }
{
    match text.first() {
        Some(first) => is_white(*first),
        None => false,
    }
}

/// Whether a content has nothing but white space and CRLF pairs: trimmed, it is empty
/// (docs/FORMATS.md, Articles).
pub fn is_blank(content: &[u8]) -> bool
    ensures { result ≡ is_empty (trimmed content.now) }
{
    let mut at = 0;
    while at < content.len() {
        if content[at..].starts_with(b"\r\n") {
            at += 2;
        } else if is_white(content[at]) {
            at += 1;
        } else {
            return false;
        }
    }
    true
}
