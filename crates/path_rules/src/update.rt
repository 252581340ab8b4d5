//! The article with its Path updated by a relaying agent.
ghost use Rattle.std.specs.Prelude.{◌≡◌, ◌↔◌, ◌++◌, ◌∷◌, ◌-◌, ◌^◌, min, length, List, ℕ, IsTrue};
ghost use Rattle.std.specs.Prelude.{Err, IfOk, OnOk};
ghost use Rattle.news_terms.specs.Article.{article_text, content_or_empty, field_text, name_of};
ghost use Rattle.news_terms.specs.Article.{space};
ghost use Rattle.news_terms.specs.Article.{Path, IsArticleText};
ghost use Rattle.std.specs.Str.{str_eq_ignore_ascii_case};
ghost use Rattle.news_terms.specs.Path.{HasBadPath, updated_article, updated_field};
ghost use Rattle.news_terms.specs.Path.{updated_content, is_agent, IsUpdateOf};
ghost use Rattle.news_terms.specs.Path as path;
ghost use Rattle.news_terms.specs.Article as terms;
ghost use Rattle.article_parse.specs.Article.{article_view};
ghost use Rattle.article_parse.specs.Header.{field_view};

use crate::pieces::{is_from, is_good};
use crate::rules::PathError;
use crate::words::is_folding;
use article_parse::{Article, Field};
use std::alloc::{AllocError, Global};

/// The octets of the article with its Path updated by the relaying agent `own`, which took it from
/// the agent `expected`; all else stays octet by octet (RFC 5537, sections 3.2.1 and 3.6). Both
/// identities are written as they are given.
pub fn updated(
    alloc: Global,
    article: &Article<'_>,
    own: &[u8],
    expected: &[u8],
) -> Result<Vec<u8>, PathError>
    ensures bad { (result ≡ Err PathError.BadPath)
        ↔ HasBadPath (content_or_empty (name_of Path) (article_view article.now).fields) }
    ensures text { IfOk result (λ text. text.items
        ≡ article_text (updated_article own.now expected.now (article_view article.now))) }
{
    if !is_good(article.field(b"Path").unwrap_or(b"")) {
        return Err(PathError::BadPath);
    }
    let text = updated_text(alloc, article, own, expected)?;
    Ok(text)
}

/// The update of an article by agents is an article again,
/// with the updated fields (RFC 5537, section 3.6).
pub fn update_parses()
    ensures { (own expected text update : List ℕ) → IsTrue (is_agent own)
        → IsTrue (is_agent expected)
        → IsUpdateOf own expected text update
        → (received : terms.Article) × IsArticleText text received
        × IsArticleText update (updated_article own expected received) }
{}

/// The octets of the updated article, whatever its Path: what `updated` gives where the Path is
/// not refused. The error is want of memory, which is taken once.
pub fn updated_text(
    alloc: Global,
    article: &Article<'_>,
    own: &[u8],
    expected: &[u8],
) -> Result<Vec<u8>, AllocError>
    ensures { IfOk result (λ text. text.items
        ≡ article_text (updated_article own.now expected.now (article_view article.now))) }
{
    let mut text = Vec::with_capacity(alloc, updated_octets(article, own, expected))?;
    for field in article.fields() {
        write_field(&mut text, field, own, expected)?;
    }
    text.extend_from_slice(b"\r\n")?;
    text.extend_from_slice(article.body())?;
    Ok(text)
}

/// Writes a field as the update has it.
fn write_field(
    text: &mut Vec<u8>,
    field: &Field<'_>,
    own: &[u8],
    expected: &[u8],
) -> Result<(), AllocError>
    ensures { OnOk result (text.new.items ≡ text.old.items
        ++ field_text (updated_field own.now expected.now (field_view field.now))) }
{
    text.extend_from_slice(field.name)?;
    text.extend_from_slice(b":")?;
    if is_path(field) {
        write_path(text, field.content, own, expected)?;
    } else {
        text.extend_from_slice(field.content)?;
    }
    text.extend_from_slice(b"\r\n")
}

/// Writes an SP and the new Path.
fn write_path(
    text: &mut Vec<u8>,
    content: &[u8],
    own: &[u8],
    expected: &[u8],
) -> Result<(), AllocError>
    ensures { OnOk result (text.new.items ≡ text.old.items
        ++ space ∷ updated_content own.now expected.now content.now) }
{
    text.extend_from_slice(b" ")?;
    text.extend_from_slice(own)?;
    if is_from(content, expected) {
        text.extend_from_slice(b"!!")?;
    } else {
        text.extend_from_slice(b"!.MISMATCH.")?;
        text.extend_from_slice(expected)?;
        text.extend_from_slice(b"!")?;
    }
    text.extend_from_slice(without_leading_folding(content))
}

/// How many octets the updated article has, or the most that a number can say. It takes no memory,
/// and goes over the header once.
pub fn updated_octets(article: &Article<'_>, own: &[u8], expected: &[u8]) -> usize
    ensures { result ≡ min (length (article_text
        (updated_article own.now expected.now (article_view article.now)))) (2 ^ 64 - 1) }
{
    let mut octets = article.body().len().saturating_add(b"\r\n".len());
    for field in article.fields() {
        octets = octets.saturating_add(field_octets(field, own, expected));
    }
    octets
}

/// The octets of a field as the update has it, or the most that a number can say.
fn field_octets(field: &Field<'_>, own: &[u8], expected: &[u8]) -> usize
    ensures { result ≡ min (length (field_text
        (updated_field own.now expected.now (field_view field.now)))) (2 ^ 64 - 1) }
{
    let content = if is_path(field) {
        path_octets(field.content, own, expected)
    } else {
        field.content.len()
    };
    field
        .name
        .len()
        .saturating_add(b":\r\n".len())
        .saturating_add(content)
}

/// The octets of an SP and the new Path, or the most that a number can say.
fn path_octets(content: &[u8], own: &[u8], expected: &[u8]) -> usize
    ensures { result ≡ min (length (space ∷ updated_content own.now expected.now content.now))
        (2 ^ 64 - 1) }
{
    let source = if is_from(content, expected) {
        b"!!".len()
    } else {
        expected.len().saturating_add(b"!.MISMATCH.!".len())
    };
    without_leading_folding(content)
        .len()
        .saturating_add(b" ".len())
        .saturating_add(own.len())
        .saturating_add(source)
}

/// Whether the field is the Path, its name without regard to ASCII case.
fn is_path(field: &Field<'_>) -> bool
    ensures { result ≡ str_eq_ignore_ascii_case field.now.name.now (name_of Path) }
{
    field.name.eq_ignore_ascii_case(b"Path")
}

/// The octets from the first that is no white space and of no line end.
fn without_leading_folding(content: &[u8]) -> &[u8]
    ensures { result.now ≡ path.without_leading_folding content.now }
{
    let mut at = 0;
    while at < content.len() && is_folding(content[at]) {
        at += 1;
    }
    &content[at..]
}
