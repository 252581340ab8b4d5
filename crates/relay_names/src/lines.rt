//! The lines of a text of names, each read alone.
ghost use Rattle.std.specs.Prelude.{◌≡◌, option_map, IfOk};
ghost use Rattle.std.specs.Option.{option_copied};
ghost use Rattle.line_words.specs.Parts.{one_of};
ghost use Rattle.line_words.specs.Words.{words};
ghost use Rattle.line_words.specs.declared.words.Between.TheVariants.{Spaces};
ghost use Rattle.relay_names.specs.Text.{group_said, line_said, stop_said};
ghost use Rattle.relay_names.specs.Text as terms;
ghost use Rattle.relay_names.specs.Views.{line_view};

use crate::names::push_name;
use line_words::{Between, Octets, first_word, is, number_within};
use std::alloc::{AllocError, Global};

/// What a line says.
#[derive(Clone, Copy)]
pub(crate) enum Line<'a> {
    /// What follows is of the history of the stop of this number.
    At(u64),
    /// What follows is of the history of any later stop.
    After(u64),
    /// The name of a buffer.
    Buffer(&'a [u8]),
    /// The name of a group, and a text whose words are the names of its buffers.
    Group(&'a [u8], &'a [u8]),
    /// The name of a feed's peer.
    Feed(&'a [u8]),
}

/// Reads a line, where it is one of names.
pub(crate) fn line_of(line: &[u8]) -> Option<Line<'_>>
    ensures { option_map line_view result ≡ line_said line.now }
{
    let (kind, rest) = first_word(line, Between::Spaces)?;
    if is(kind, b"at") {
        return Some(Line::At(stop_in(rest)?));
    }
    if is(kind, b"after") {
        return Some(Line::After(stop_in(rest)?));
    }
    if is(kind, b"buffer") {
        return Some(Line::Buffer(one_word(rest)?));
    }
    if is(kind, b"group") {
        return group_in(rest);
    }
    if is(kind, b"feed") {
        return Some(Line::Feed(one_word(rest)?));
    }
    None
}

/// The number of a stop that the one word of a text is.
fn stop_in(text: &[u8]) -> Option<u64>
    ensures { result ≡ stop_said (words Spaces text.now) }
{
    number_within(0, u64::MAX, one_word(text)?)
}

/// The group that a text names.
fn group_in(text: &[u8]) -> Option<Line<'_>>
    ensures { option_map line_view result ≡ group_said (words Spaces text.now) }
{
    let (name, buffers) = first_word(text, Between::Spaces)?;
    Some(Line::Group(name, buffers))
}

/// The one word of a text, where there is just one.
fn one_word(text: &[u8]) -> Option<&[u8]>
    ensures { option_copied result ≡ one_of (words Spaces text.now) }
{
    let (word, rest) = first_word(text, Between::Spaces)?;
    match first_word(rest, Between::Spaces) {
        None => Some(word),
        Some(_) => None,
    }
}

/// The words of a text, each kept.
pub(crate) fn words_of(alloc: Global, text: &[u8]) -> Result<Vec<Octets>, AllocError>
    ensures { IfOk result (λ kept. kept.items ≡ words Spaces text.now) }
{
    let mut kept = Vec::new(alloc);
    let mut unread = text;
    while let Some((word, rest)) = first_word(unread, Between::Spaces) {
        push_name(alloc, &mut kept, word)?;
        unread = rest;
    }
    Ok(kept)
}

/// Whether a line begins a part.
pub(crate) fn is_mark(line: Line<'_>) -> bool
    ensures { result ≡ terms.is_mark (line_view line.entry) }
{
    match line {
        Line::At(_) | Line::After(_) => true,
        Line::Buffer(_) | Line::Group(_, _) | Line::Feed(_) => false,
    }
}
