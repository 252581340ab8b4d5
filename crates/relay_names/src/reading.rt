//! How a text of names is read.
ghost use Rattle.std.specs.Prelude.{◌≡◌, map};
ghost use Rattle.relay_names.specs.Text.{all_said, lines_said, told_of};
ghost use Rattle.relay_names.specs.Views.{line_view, told_view, TextGives};

use crate::lines::{Line, line_of};
use crate::parts::told_by;
use crate::told::{NamesError, Told};
use relay_conf::lines_of;
use std::alloc::Global;

/// Reads a text of names.
pub fn read_names(alloc: Global, text: &[u8]) -> Result<Told, NamesError>
    ensures { TextGives told_view result (told_of text.now) }
{
    let lines = lines_of(alloc, text)?;
    let said = all_lines(alloc, &lines)?;
    told_by(alloc, &said)
}

/// Reads lines, the last of which is what no LF ends: nothing of it is there.
fn all_lines<'a>(alloc: Global, lines: &[&'a [u8]]) -> Result<Vec<Line<'a>>, NamesError>
    ensures { TextGives (λ said. map line_view said.items) result
        (all_said (map (λ line. line.now) lines.now)) }
{
    let Some((last, ended)) = lines.split_last() else {
        return Err(NamesError::BadNames);
    };
    if !last.is_empty() {
        return Err(NamesError::BadNames);
    }
    each_line(alloc, ended)
}

/// Reads lines.
fn each_line<'a>(alloc: Global, lines: &[&'a [u8]]) -> Result<Vec<Line<'a>>, NamesError>
    ensures { TextGives (λ said. map line_view said.items) result
        (lines_said (map (λ line. line.now) lines.now)) }
{
    let mut said = Vec::new(alloc);
    for line in lines {
        match line_of(line) {
            Some(one) => said.push(one)?,
            None => return Err(NamesError::BadNames),
        }
    }
    Ok(said)
}
