//! The header of an article, cut into its fields.
ghost use Rattle.std.specs.Prelude.{◌≡◌, ◌+◌, ◌<◌, ◌≤◌, ◌==◌, false, length, drop, IsTrue};
ghost use Rattle.std.specs.Prelude.{MatchOption};
ghost use Rattle.std.specs.List.{list_all, position_or_len};
ghost use Rattle.std.specs.Str.{byte};
ghost use Rattle.news_terms.specs.Article.{has_empty_line, is_paired};
ghost use Rattle.news_terms.specs.Article as terms;
ghost use Rattle.article_parse.specs.Header.{IsLineCut, IsWholeContent};
ghost use Rattle.article_parse.specs.Reads.{FrontGives, HeaderGives};

use crate::content::begins_white;
use crate::lines::line_end;
use line_words::is_white;
use memchr::memchr;
use std::alloc::Global;

/// A field of an article: its name, and the octets after the colon up to the CRLF that ends it,
/// folded lines included (RFC 5536, section 2.2).
#[derive(Clone, Copy)]
pub struct Field<'a> {
    /// The name as it was received.
    pub name: &'a [u8],
    /// The octets after the colon.
    pub content: &'a [u8],
}

/// What stands at the front of a text that is read as a header (RFC 5536, section 2.2).
#[derive(Clone, Copy)]
pub enum Front<'a> {
    /// A field, and its octets with the CRLF that ends it.
    Field(Field<'a>, usize),
    /// The empty line, behind which the body stands.
    EmptyLine,
    /// The text has no empty line.
    NoBlankLine,
    /// A line before the empty line neither begins a field nor continues one.
    BadHeader,
}

/// The fields of a header, and where the body begins.
#[derive(Drop)]
pub(crate) struct Header<'a> {
    pub(crate) fields: Vec<Field<'a>>,
    pub(crate) body_at: usize,
}

/// Why a text has no header.
pub(crate) enum HeaderFault {
    /// Memory ran out.
    Memory,
    /// The text has no empty line.
    NoBlankLine,
    /// A line neither begins a field nor continues one.
    BadHeader,
}

/// Reads the fields in front of the first empty line.
pub(crate) fn read_header<'a>(alloc: Global, text: &'a [u8]) -> Result<Header<'a>, HeaderFault>
    requires { IsTrue (is_paired text.now) }
    ensures { HeaderGives text.now result }
{
    let mut fields = Vec::new(alloc);
    let mut at = 0;
    loop {
        match front_of(&text[at..]) {
            Front::Field(field, octets) => {
                if fields.push(field).is_err() {
                    return Err(HeaderFault::Memory);
                }
                at += octets;
            }
            Front::EmptyLine => {
                return Ok(Header {
                    fields,
                    body_at: at + 2,
                });
            }
            Front::NoBlankLine => return Err(HeaderFault::NoBlankLine),
            Front::BadHeader => return Err(HeaderFault::BadHeader),
        }
    }
}

/// What stands at the front of a text whose line ends are pairs. It takes no memory: a header is
/// gone over by asking again behind each field.
pub fn front_of(text: &[u8]) -> Front<'_>
    requires { IsTrue (is_paired text.now) }
    ensures { FrontGives text.now result }
{
    match line_end(text) {
        Some(first) if first > 0 => first_field(text, first),
        Some(_) => Front::EmptyLine,
        None => Front::NoBlankLine,
    }
}

/// Reads the field at the front of a text whose first line ends at `first`.
fn first_field(text: &[u8], first: usize) -> Front<'_>
    requires paired { IsTrue (is_paired text.now) }
    requires cut { IsLineCut text.now first }
    requires some { 0 < first }
    ensures { FrontGives text.now result }
{
    let colon = colon_place(&text[..first]);
    if !begins_field(&text[..first], colon) {
        return Front::BadHeader;
    }
    let content = &text[colon + 1..];
    let Some(end) = content_end(content, first - (colon + 1)) else {
        return Front::NoBlankLine;
    };
    let field = Field {
        name: &text[..colon],
        content: &content[..end],
    };
    Front::Field(field, colon + 1 + end + 2)
}

/// Where a content ends whose first line ends at `first`: at the first CRLF behind which no line
/// continues it.
fn content_end(text: &[u8], first: usize) -> Option<usize>
    requires { IsLineCut text.now first }
    ensures { MatchOption result (has_empty_line (drop (first + 2) text.now) ≡ false)
        (IsWholeContent text.now first) }
{
    let mut end = first;
    while begins_white(&text[end + 2..]) {
        let Some(line) = line_end(&text[end + 2..]) else {
            return None;
        };
        end = end + 2 + line;
    }
    Some(end)
}

/// Where the first colon stands, or the length where there is none.
fn colon_place(line: &[u8]) -> usize
    ensures value { result ≡ position_or_len (λ c. c == byte ":") line.now }
    ensures within { result ≤ length line.now }
{
    memchr(b':', line).unwrap_or(line.len())
}

/// Whether a line begins a field whose name ends at `colon`: a name, a colon, and then the line's
/// end, or an SP or TAB and anything (RFC 5536, section 2.2).
fn begins_field(line: &[u8], colon: usize) -> bool
    requires value { colon ≡ position_or_len (λ c. c == byte ":") line.now }
    requires within { colon ≤ length line.now }
    ensures { result ≡ terms.begins_field line.now }
{
    if colon == line.len() {
        return false;
    }
    is_field_name(&line[..colon]) && is_set_off(&line[colon + 1..])
}

/// Whether a text is one or more octets of a name.
fn is_field_name(text: &[u8]) -> bool
    ensures { result ≡ terms.is_field_name text.now }
{
    !text.is_empty() && has_name_octets(text)
}

/// Whether each octet may stand in a name.
fn has_name_octets(text: &[u8]) -> bool
    ensures { result ≡ list_all terms.is_name_octet text.now }
{
    for octet in text {
        if !octet.is_ascii_graphic() || *octet == b':' {
            return false;
        }
    }
    true
}

/// Whether what follows a colon is the line's end, or begins with an SP or TAB.
fn is_set_off(text: &[u8]) -> bool
    ensures { result ≡ terms.is_set_off text.now }
{
    match text.first() {
        Some(octet) => is_white(*octet) || *octet == b'\r',
        None => true,
    }
}
