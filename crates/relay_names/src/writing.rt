//! How names are written.
ghost use Rattle.std.specs.Prelude.{◌≡◌, ◌++◌, ◌∷◌, [], IfOk, OnOk, decimal, flat_map, map};
ghost use Rattle.std.specs.Prelude.{option_map};
ghost use Rattle.news_terms.specs.Lines.{space};
ghost use Rattle.relay_names.specs.Text.{group_words, line_octets, names_words, part_words};
ghost use Rattle.relay_names.specs.Text.{told_octets};
ghost use Rattle.relay_names.specs.Views.{group_view, names_view};

use crate::names::{GroupNames, Names};
use itoa::Buffer;
use line_words::Octets;
use std::alloc::{AllocError, Global};

/// The text that tells these names of the history of a stop, where they are known, and these of
/// the history of any later one.
pub fn write_names(
    alloc: Global,
    stop: u64,
    last: Option<&Names>,
    later: &Names,
) -> Result<Vec<u8>, AllocError>
    ensures { IfOk result (λ text. text.items ≡ told_octets (record {
      stop = stop;
      last = option_map (λ names. names_view names.now) last.entry;
      later = names_view later.now;
    })) }
{
    let mut text = Vec::new(alloc);
    if let Some(names) = last {
        push_part(&mut text, b"at", stop, names)?;
    }
    push_part(&mut text, b"after", stop, later)?;
    Ok(text)
}

/// Writes a part.
fn push_part(text: &mut Vec<u8>, kind: &[u8], stop: u64, names: &Names) -> Result<(), AllocError>
    ensures { OnOk result (text.new.items ≡ text.old.items
        ++ flat_map line_octets (part_words kind.now stop (names_view names.now))) }
{
    let mut digits = Buffer::new();
    push_line(text, kind, digits.format(stop).as_bytes())?;
    push_each(text, b"buffer", &names.buffers)?;
    push_groups(text, &names.groups)?;
    push_each(text, b"feed", &names.feeds)?;
    Ok(())
}

/// Writes a line of each name behind this word.
fn push_each(text: &mut Vec<u8>, kind: &[u8], names: &[Octets]) -> Result<(), AllocError>
    ensures { OnOk result (text.new.items ≡ text.old.items
        ++ flat_map line_octets (map (λ name. kind.now ∷ name ∷ []) names.now)) }
{
    for name in names {
        push_line(text, kind, name.as_slice())?;
    }
    Ok(())
}

/// Writes a line of each group.
fn push_groups(text: &mut Vec<u8>, groups: &[GroupNames]) -> Result<(), AllocError>
    ensures { OnOk result (text.new.items ≡ text.old.items
        ++ flat_map line_octets (map group_words (map group_view groups.now))) }
{
    for group in groups {
        push_group(text, group)?;
    }
    Ok(())
}

/// Writes the line of a group.
fn push_group(text: &mut Vec<u8>, group: &GroupNames) -> Result<(), AllocError>
    ensures { OnOk result (text.new.items
        ≡ text.old.items ++ line_octets (group_words (group_view group.now))) }
{
    text.extend_from_slice(b"group ")?;
    text.extend_from_slice(group.name.as_slice())?;
    push_words(text, &group.buffers)?;
    text.push(b'\n')?;
    Ok(())
}

/// Writes words, a space before each.
fn push_words(text: &mut Vec<u8>, words: &[Octets]) -> Result<(), AllocError>
    ensures { OnOk result (text.new.items
        ≡ text.old.items ++ flat_map (λ word. space ∷ word) words.now) }
{
    for word in words {
        text.push(b' ')?;
        text.extend_from_slice(word.as_slice())?;
    }
    Ok(())
}

/// Writes a line of two words.
fn push_line(text: &mut Vec<u8>, first: &[u8], second: &[u8]) -> Result<(), AllocError>
    ensures { OnOk result (text.new.items
        ≡ text.old.items ++ line_octets (first.now ∷ second.now ∷ [])) }
{
    text.extend_from_slice(first)?;
    text.push(b' ')?;
    text.extend_from_slice(second)?;
    text.push(b'\n')?;
    Ok(())
}
