//! What the lines of a report say (docs/FORMATS.md, Report).
ghost use Rattle.std.specs.Prelude.{◌≡◌, ◌∷◌, ◌++◌, IfOk, OnOk, map, option_map};
ghost use Rattle.line_words.specs.Words.{words};
ghost use Rattle.line_words.specs.declared.words.Between.TheVariants.{Spaces};
ghost use Rattle.relay_metrics.specs.Forms.{form_view};
ghost use Rattle.relay_metrics.specs.Lines.{line_view, report_lines, said_line, said_of};
ghost use Rattle.relay_metrics.specs.Lines.{unread_line};
ghost use Rattle.relay_metrics.specs.Lines as terms;

use crate::forms::{FORMS, Form};
use crate::numbers::{behind_key, numbers_by};
use line_words::{Between, cut, first_word, is};
use std::alloc::{AllocError, Global};

/// What a line of a report is about.
#[derive(Clone, Copy)]
pub enum Subject {
    /// A buffer of a relay that is served.
    Buffer,
    /// A feed.
    Feed,
    /// The message-ids.
    Ids,
    /// A peer.
    Peer,
    /// What was refused of a peer, by the reason.
    Refusals,
    /// The address that the newest connection of a peer came from.
    Address,
    /// How large a buffer is, and how much of it is filled.
    Size,
    /// Since when the oldest article is there that a buffer still has.
    Oldest,
    /// That the relay is being repaired.
    Recovering,
    /// A buffer of a relay that is being repaired.
    Repaired,
    /// That the relay takes no new articles for now.
    Paused,
    /// Nothing that is known here.
    Unread,
}

/// What a line of a report says.
#[derive(Drop)]
pub struct Line<'a> {
    /// What it is about.
    pub subject: Subject,
    /// The name that it has, empty where it has none.
    pub name: &'a [u8],
    /// Its numbers in their order, as they are written.
    pub numbers: Vec<&'a [u8]>,
}

/// What the lines of a report say.
pub fn lines_of<'a>(alloc: Global, report: &'a [u8]) -> Result<Vec<Line<'a>>, AllocError>
    ensures { IfOk result (λ lines. map line_view lines.items ≡ report_lines report.now) }
{
    let mut lines = Vec::new(alloc);
    let mut unread = Some(report);
    while let Some(left) = unread {
        let (line, rest) = cut(left, b'\n');
        put_line(alloc, &mut lines, line, rest.is_some())?;
        unread = rest;
    }
    Ok(lines)
}

/// Puts what a line says behind what those before it say. What no LF ends is no line.
fn put_line<'a>(
    alloc: Global,
    lines: &mut Vec<Line<'a>>,
    line: &'a [u8],
    is_ended: bool,
) -> Result<(), AllocError>
    ensures { OnOk result (map line_view lines.new.items
        ≡ map line_view lines.old.items ++ said_of is_ended line.now) }
{
    if is_ended {
        lines.push(line_of(alloc, line)?)?;
    } else if !line.is_empty() {
        lines.push(unread(alloc))?;
    }
    Ok(())
}

/// A line that isn't known.
fn unread<'a>(alloc: Global) -> Line<'a>
    ensures { line_view result ≡ unread_line }
{
    Line {
        subject: Subject::Unread,
        name: b"",
        numbers: Vec::new(alloc),
    }
}

/// What a line of a report says.
fn line_of<'a>(alloc: Global, line: &'a [u8]) -> Result<Line<'a>, AllocError>
    ensures { IfOk result (λ said. line_view said ≡ said_line line.now) }
{
    first_said(alloc, FORMS, line)
}

/// What a line says by the first of these forms that it has.
fn first_said<'a>(alloc: Global, forms: &[Form], line: &'a [u8]) -> Result<Line<'a>, AllocError>
    ensures { IfOk result (λ said. line_view said
        ≡ terms.said_by (map form_view forms.now) (words Spaces line.now)) }
{
    for form in forms {
        if let Some(said) = line_by(alloc, form, line)? {
            return Ok(said);
        }
    }
    Ok(unread(alloc))
}

/// What a line says that has this form.
fn line_by<'a>(alloc: Global, form: &Form, line: &'a [u8]) -> Result<Option<Line<'a>>, AllocError>
    ensures { IfOk result (λ said. option_map line_view said
        ≡ terms.line_by (form_view form.now) (words Spaces line.now)) }
{
    match first_word(line, Between::Spaces) {
        Some((word, rest)) if is(word, form.word) => behind_word(alloc, form, rest),
        _ => Ok(None),
    }
}

/// What a line says whose first word is that of this form, by what follows that.
fn behind_word<'a>(
    alloc: Global,
    form: &Form,
    rest: &'a [u8],
) -> Result<Option<Line<'a>>, AllocError>
    ensures { IfOk result (λ said. option_map line_view said
        ≡ terms.behind_word (form_view form.now) (words Spaces rest.now)) }
{
    if !form.is_named {
        return with_numbers(alloc, form, b"", rest);
    }
    match first_word(rest, Between::Spaces) {
        Some((word, rest)) => named(alloc, form, word, rest),
        None => Ok(None),
    }
}

/// What a line of this form says whose name is in this word, by what follows that.
fn named<'a>(
    alloc: Global,
    form: &Form,
    word: &'a [u8],
    rest: &'a [u8],
) -> Result<Option<Line<'a>>, AllocError>
    ensures { IfOk result (λ said. option_map line_view said
        ≡ terms.behind_name (form_view form.now) (word.now ∷ words Spaces rest.now)) }
{
    match behind_key(form.name_key, word) {
        Some(name) => with_numbers(alloc, form, name, rest),
        None => Ok(None),
    }
}

/// What a line of this form with this name says, by its numbers.
fn with_numbers<'a>(
    alloc: Global,
    form: &Form,
    name: &'a [u8],
    rest: &'a [u8],
) -> Result<Option<Line<'a>>, AllocError>
    ensures { IfOk result (λ said. option_map line_view said
        ≡ terms.with_numbers (form_view form.now) name.now (words Spaces rest.now)) }
{
    match numbers_by(alloc, form.keys, rest)? {
        None => Ok(None),
        Some(numbers) => Ok(Some(Line {
            subject: form.subject,
            name,
            numbers,
        })),
    }
}
