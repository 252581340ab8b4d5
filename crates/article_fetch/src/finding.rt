//! The parts of an overview line, taken from an article or found in a text.
ghost use Rattle.std.specs.Prelude.{◌≡◌, ◌≤◌, ◌∷◌, ◌++◌, [], List, false, IsTrue, length};
ghost use Rattle.std.specs.Prelude.{MatchOption};
ghost use Rattle.std.specs.Option.{option_copied};
ghost use Rattle.news_terms.specs.Article as terms;
ghost use Rattle.news_terms.specs.Article.{IsLaidOut};
ghost use Rattle.article_parse.specs.Article.{article_view};
ghost use Rattle.article_parse.specs.Header.{field_view};
ghost use Rattle.article_fetch.specs.Parts.{ArePartsOf, AreFoundIn, first_or, IsMadeOf};

use crate::parts::Parts;
use article_parse::{Article, Field, Front, front_of, has_nul, is_paired};

/// The parts of an article.
pub(crate) fn parts_of<'a>(article: &Article<'a>) -> Parts<'a>
    ensures { ArePartsOf result (article_view article.now) }
{
    Parts {
        subject: article.field(b"Subject").unwrap_or(b""),
        from: article.field(b"From").unwrap_or(b""),
        date: article.field(b"Date").unwrap_or(b""),
        id: article.field(b"Message-ID").unwrap_or(b""),
        references: article.field(b"References").unwrap_or(b""),
        octets: article.text().len(),
        body: article.body(),
    }
}

/// The parts of a text that is laid out as an article.
pub(crate) fn parts_in(text: &[u8]) -> Option<Parts<'_>>
    ensures { MatchOption result ((a : terms.Article) → ¬ IsLaidOut text.now a)
        (λ parts. IsMadeOf text.now parts) }
{
    if has_nul(text) || !is_paired(text) {
        return None;
    }
    read_parts(text)
}

/// Reads the parts of a text without octet 0 whose line ends are pairs.
fn read_parts(text: &[u8]) -> Option<Parts<'_>>
    requires nul { terms.has_nul text.now ≡ false }
    requires paired { IsTrue (terms.is_paired text.now) }
    ensures { MatchOption result ((a : terms.Article) → ¬ IsLaidOut text.now a)
        (λ parts. IsMadeOf text.now parts) }
{
    let mut found = Found::nothing();
    let mut at = 0;
    loop {
        match front_of(&text[at..]) {
            Front::Field(field, octets) => {
                found = found.with(&field);
                at += octets;
            }
            Front::EmptyLine => return Some(found.parts(text.len(), &text[at + 2..])),
            Front::NoBlankLine => return None,
            Front::BadHeader => return None,
        }
    }
}

/// The contents found so far, each of the first field of its name.
#[derive(Clone, Copy)]
struct Found<'a> {
    subject: Option<&'a [u8]>,
    from: Option<&'a [u8]>,
    date: Option<&'a [u8]>,
    id: Option<&'a [u8]>,
    references: Option<&'a [u8]>,
}

impl<'a> Found<'a> {
    /// Nothing is found among no fields.
    fn nothing() -> Found<'a>
        ensures { AreFoundIn [] result }
    {
        Found {
            subject: None,
            from: None,
            date: None,
            id: None,
            references: None,
        }
    }

    /// What is found once this field is passed too.
    fn with(&self, field: &Field<'a>) -> Found<'a>
        ensures { (fields : List terms.Field) → AreFoundIn fields self.now
            → AreFoundIn (fields ++ field_view field.now ∷ []) result }
    {
        Found {
            subject: first(self.subject, field, b"Subject"),
            from: first(self.from, field, b"From"),
            date: first(self.date, field, b"Date"),
            id: first(self.id, field, b"Message-ID"),
            references: first(self.references, field, b"References"),
        }
    }

    /// The parts of the article whose fields these were found in.
    fn parts(&self, octets: usize, body: &'a [u8]) -> Parts<'a>
        requires { length body.now ≤ octets }
        ensures { (a : terms.Article) → AreFoundIn a.fields self.now
            → octets ≡ length (terms.article_text a) → body.now ≡ a.body → ArePartsOf result a }
    {
        Parts {
            subject: self.subject.unwrap_or(b""),
            from: self.from.unwrap_or(b""),
            date: self.date.unwrap_or(b""),
            id: self.id.unwrap_or(b""),
            references: self.references.unwrap_or(b""),
            octets,
            body,
        }
    }
}

/// What was found before, or else the content of a field of the name, without regard to ASCII case
/// (RFC 5536, section 2.2).
fn first<'a>(found: Option<&'a [u8]>, field: &Field<'a>, name: &[u8]) -> Option<&'a [u8]>
    ensures { option_copied result
        ≡ first_or (option_copied found.entry) (field_view field.now) name.now }
{
    match found {
        Some(content) => Some(content),
        None if field.name.eq_ignore_ascii_case(name) => Some(field.content),
        None => None,
    }
}
