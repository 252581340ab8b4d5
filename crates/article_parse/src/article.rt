//! Articles, read from their text.
ghost use Rattle.std.specs.Prelude.{◌≡◌, [], ◌∷◌, map, false, IsTrue, IfOk, IfErr};
ghost use Rattle.std.specs.Option.{option_copied};
ghost use Rattle.news_terms.specs.Article.{first_content, message_id, BadId, BadGroups};
ghost use Rattle.news_terms.specs.Article.{IsArticleText, article_text};
ghost use Rattle.news_terms.specs.Article as terms;
ghost use Rattle.article_parse.specs.Content.{unfolded_newsgroups};
ghost use Rattle.article_parse.specs.Reads.{IsHeader};
ghost use Rattle.article_parse.specs.Header.{field_view};
ghost use Rattle.article_parse.specs.Faults.{FaultGives, IsFaultOf, first_that, is_wrong};
ghost use Rattle.article_parse.specs.Faults.{field_faults};

use crate::content::unfolded;
use crate::faults::{ArtError, is_named, try_names};
use crate::groups::{are_newsgroup_names, names_in};
use crate::header::{Field, Header, HeaderFault, read_header};
use crate::lines::{has_empty_line, has_nul, is_paired};
use line_words::trim;
use nntp_text::{IdError, MsgId};
use std::alloc::{AllocError, Global};

/// An article (RFC 5536, section 2.1). It borrows its text, and keeps where each field and the body
/// stand in it, and a copy of its Newsgroups in one line.
pub struct Article<'a> {
    text: &'a [u8],
    fields: Vec<Field<'a>>,
    body: &'a [u8],
    body_at: usize,
    id: MsgId,
    newsgroups_line: Vec<u8>,
    ghost is_id: { id ≡ message_id (map field_view fields.items) },
    ghost is_newsgroups_line: { newsgroups_line.items
        ≡ unfolded_newsgroups (map field_view fields.items) },
    ghost is_article: { ∥ IsArticleText text.now
        (record { fields = map field_view fields.items; body = body.now }) ∥₁ },
}

// Written out, so that no crate above proves anew how each part is let go.
impl Drop for Article<'_> {
    fn drop(self) {
        let Article {
            text: _,
            fields: _,
            body: _,
            body_at: _,
            id: _,
            newsgroups_line: _,
        } = self;
    }
}

/// What the contents of the fields say: the message-id, and the Newsgroups in one line.
#[derive(Drop)]
struct Contents {
    id: MsgId,
    newsgroups_line: Vec<u8>,
}

impl<'a> Article<'a> {
    ghost use Rattle.article_parse.specs.Article.{IsReadFrom, article_view, body_place, id_view};

    /// Reads a text as an article. The body is looked through for octet 0 and line ends, and
    /// nothing of it is copied.
    pub fn parse(alloc: Global, text: &'a [u8]) -> Result<Article<'a>, ArtError>
        ensures read { IfOk result (IsReadFrom text.now) }
        ensures fault { IfErr result (IsFaultOf text.now) }
    {
        if has_nul(text) {
            return Err(ArtError::Nul);
        }
        if !is_paired(text) {
            return Err(ArtError::BareCrLf);
        }
        if !has_empty_line(text) {
            return Err(ArtError::NoBlankLine);
        }
        match read_header(alloc, text) {
            Ok(header) => Article::with_header(alloc, text, header),
            Err(HeaderFault::Memory) => Err(ArtError::Memory),
            Err(HeaderFault::NoBlankLine) => Err(ArtError::NoBlankLine),
            Err(HeaderFault::BadHeader) => Err(ArtError::BadHeader),
        }
    }

    /// Reads the article whose header was read.
    fn with_header(
        alloc: Global,
        text: &'a [u8],
        header: Header<'a>,
    ) -> Result<Article<'a>, ArtError>
        requires nul { terms.has_nul text.now ≡ false }
        requires paired { IsTrue (terms.is_paired text.now) }
        requires header { IsHeader text.now (map field_view header.fields.items) header.body_at }
        ensures read { IfOk result (IsReadFrom text.now) }
        ensures fault { IfErr result (IsFaultOf text.now) }
    {
        match try_fields(alloc, &header.fields) {
            Ok(contents) => Ok(Article {
                text,
                fields: header.fields,
                body: &text[header.body_at..],
                body_at: header.body_at,
                id: contents.id,
                newsgroups_line: contents.newsgroups_line,
            }),
            Err(error) => Err(error),
        }
    }

    /// The octets of the article: its text (RFC 5536, section 2.1).
    pub fn text(&self) -> &'a [u8]
        ensures { result.now ≡ article_text (article_view self.now) }
    {
        self.text
    }

    /// The octets after the colon of the first field of that name, without regard to ASCII case.
    pub fn field(&self, name: &[u8]) -> Option<&'a [u8]>
        ensures { option_copied result ≡ first_content name.now (article_view self.now).fields }
    {
        content_of(&self.fields, name)
    }

    /// The fields in their order, each with its name and the octets after its colon (RFC 5536,
    /// section 2.2).
    pub fn fields(&self) -> &[Field<'a>]
        ensures { map field_view result.now ≡ (article_view self.now).fields }
    {
        &self.fields
    }

    /// The message-id: the Message-ID without white space at its ends (RFC 5536, section 3.1.3).
    pub fn id(&self) -> &MsgId
        ensures kept { result.now ≡ id_view self.now }
        ensures content { result.now ≡ message_id (article_view self.now).fields }
    {
        &self.id
    }

    /// The newsgroups that the article is posted to, in order (RFC 5536, section 3.1.4).
    pub fn groups(&self, alloc: Global) -> Result<Vec<&[u8]>, AllocError>
        ensures { IfOk result (λ names. map (λ name. name.now) names.items
            ≡ terms.newsgroups (article_view self.now).fields) }
    {
        names_in(alloc, trim(&self.newsgroups_line))
    }

    /// The octets behind the empty line.
    pub fn body(&self) -> &'a [u8]
        ensures { result.now ≡ (article_view self.now).body }
    {
        self.body
    }

    /// The place in the text where the body begins.
    pub fn body_at(&self) -> usize
        ensures { result ≡ body_place self.now }
    {
        self.body_at
    }
}

/// Tries the faults of the fields, and gives what their contents say.
fn try_fields(alloc: Global, fields: &[Field<'_>]) -> Result<Contents, ArtError>
    ensures id { IfOk result (λ contents. contents.id ≡ message_id (map field_view fields.now)) }
    ensures newsgroups { IfOk result (λ contents. contents.newsgroups_line.items
        ≡ unfolded_newsgroups (map field_view fields.now)) }
    ensures fault { FaultGives result
        (first_that (is_wrong (map field_view fields.now)) field_faults) }
{
    match try_names(fields) {
        Ok(()) => try_contents(alloc, fields),
        Err(error) => Err(error),
    }
}

/// Tries the faults of the Message-ID and of the newsgroups, and gives what they say.
fn try_contents(alloc: Global, fields: &[Field<'_>]) -> Result<Contents, ArtError>
    ensures id { IfOk result (λ contents. contents.id ≡ message_id (map field_view fields.now)) }
    ensures newsgroups { IfOk result (λ contents. contents.newsgroups_line.items
        ≡ unfolded_newsgroups (map field_view fields.now)) }
    ensures fault { FaultGives result
        (first_that (is_wrong (map field_view fields.now)) (BadId ∷ BadGroups ∷ [])) }
{
    match id_of(alloc, fields) {
        Ok(id) => match newsgroups_of(alloc, fields) {
            Ok(newsgroups_line) => Ok(Contents {
                id,
                newsgroups_line,
            }),
            Err(error) => Err(error),
        },
        Err(error) => Err(error),
    }
}

/// The message-id of the fields.
fn id_of(alloc: Global, fields: &[Field<'_>]) -> Result<MsgId, ArtError>
    ensures id { IfOk result (λ id. id ≡ message_id (map field_view fields.now)) }
    ensures fault { FaultGives result
        (first_that (is_wrong (map field_view fields.now)) (BadId ∷ [])) }
{
    let line = unfolded(alloc, content_or_empty(fields, b"Message-ID"))?;
    match MsgId::parse(alloc, trim(&line)) {
        Ok(id) => Ok(id),
        Err(IdError::Memory) => Err(ArtError::Memory),
        Err(IdError::Length | IdError::Brackets | IdError::Octet) => Err(ArtError::BadId),
    }
}

/// The Newsgroups of the fields in one line, where they are named as newsgroups are.
fn newsgroups_of(alloc: Global, fields: &[Field<'_>]) -> Result<Vec<u8>, ArtError>
    ensures line { IfOk result (λ line. line.items
        ≡ unfolded_newsgroups (map field_view fields.now)) }
    ensures fault { FaultGives result
        (first_that (is_wrong (map field_view fields.now)) (BadGroups ∷ [])) }
{
    let line = unfolded(alloc, content_or_empty(fields, b"Newsgroups"))?;
    if are_newsgroup_names(trim(&line)) {
        return Ok(line);
    }
    Err(ArtError::BadGroups)
}

/// The content of the first field of a name, empty where there is none.
fn content_or_empty<'a>(fields: &[Field<'a>], name: &[u8]) -> &'a [u8]
    ensures { result.now ≡ terms.content_or_empty name.now (map field_view fields.now) }
{
    match content_of(fields, name) {
        Some(content) => content,
        None => b"",
    }
}

/// The content of the first field of a name.
fn content_of<'a>(fields: &[Field<'a>], name: &[u8]) -> Option<&'a [u8]>
    ensures { option_copied result ≡ first_content name.now (map field_view fields.now) }
{
    for field in fields {
        if is_named(field, name) {
            return Some(field.content);
        }
    }
    None
}
