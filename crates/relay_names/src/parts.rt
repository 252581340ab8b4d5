//! The parts of a text of names.
ghost use Rattle.std.specs.Prelude.{◌≡◌, ◌≤◌, IfOk, length, map, option_map};
ghost use Rattle.std.specs.List.{list_any, position_or_len};
ghost use Rattle.relay_names.specs.Text.{later_told, names_said, told_after, told_said};
ghost use Rattle.relay_names.specs.Text as terms;
ghost use Rattle.relay_names.specs.Views.{line_view, names_view, told_view, TextGives};

use crate::lines::{Line, is_mark};
use crate::names::Names;
use crate::told::{NamesError, Told};
use std::alloc::{AllocError, Global};

/// What lines tell, all of them.
pub(crate) fn told_by(alloc: Global, lines: &[Line<'_>]) -> Result<Told, NamesError>
    ensures { TextGives told_view result (told_said (map line_view lines.now)) }
{
    match lines.split_first() {
        Some((Line::At(stop), rest)) => told_at(alloc, *stop, rest),
        Some((Line::After(stop), rest)) => later_by(alloc, *stop, None, rest),
        _ => Err(NamesError::BadNames),
    }
}

/// What is told where the own names of a stop come first.
fn told_at(alloc: Global, stop: u64, lines: &[Line<'_>]) -> Result<Told, NamesError>
    ensures { TextGives told_view result (terms.told_at stop (map line_view lines.now)) }
{
    let (front, next) = lines.split_at(lines_before(lines));
    let last = names_by(alloc, front)?;
    told_behind(alloc, stop, Some(last), next)
}

/// What is told of a stop with these names of its own, where its later names come next.
fn told_behind(
    alloc: Global,
    stop: u64,
    last: Option<Names>,
    lines: &[Line<'_>],
) -> Result<Told, NamesError>
    ensures { TextGives told_view result
        (told_after stop (option_map names_view last) (map line_view lines.now)) }
{
    match lines.split_first() {
        Some((Line::After(other), rest)) if *other == stop => later_by(alloc, stop, last, rest),
        _ => Err(NamesError::BadNames),
    }
}

/// What is told of a stop with these names of its own, where these lines are all of its later
/// names.
fn later_by(
    alloc: Global,
    stop: u64,
    last: Option<Names>,
    lines: &[Line<'_>],
) -> Result<Told, NamesError>
    ensures { TextGives told_view result
        (later_told stop (option_map names_view last) (map line_view lines.now)) }
{
    if has_mark(lines) {
        return Err(NamesError::BadNames);
    }
    let later = names_by(alloc, lines)?;
    Ok(Told { stop, last, later })
}

/// The names that lines say.
fn names_by(alloc: Global, lines: &[Line<'_>]) -> Result<Names, AllocError>
    ensures { IfOk result (λ names. names_view names ≡ names_said (map line_view lines.now)) }
{
    let mut names = Names::new(alloc);
    for line in lines {
        names.add(alloc, *line)?;
    }
    Ok(names)
}

/// Whether one of the lines begins a part.
fn has_mark(lines: &[Line<'_>]) -> bool
    ensures { result ≡ list_any terms.is_mark (map line_view lines.now) }
{
    for line in lines {
        if is_mark(*line) {
            return true;
        }
    }
    false
}

/// How many lines stand before the first that begins a part.
fn lines_before(lines: &[Line<'_>]) -> usize
    ensures value { result ≡ position_or_len terms.is_mark (map line_view lines.now) }
    ensures within { result ≤ length lines.now }
{
    let mut before = 0;
    while before < lines.len() && !is_mark(lines[before]) {
        before += 1;
    }
    before
}
