//! How the text of marks is written.
ghost use Rattle.std.specs.Prelude.{◌≡◌, ◌++◌, ◌∷◌, IfOk, OnOk, decimal, flat_map, map};
ghost use Rattle.buffer_ages.specs.Text.{ages_octets, buffer_octets, mark_octets};
ghost use Rattle.buffer_ages.specs.Views.{ages_view};

use crate::marks::{BufferMarks, Mark};
use itoa::Buffer;
use std::alloc::{AllocError, Global};

/// The text of the marks of these buffers.
pub fn write_ages(alloc: Global, ages: &[BufferMarks]) -> Result<Vec<u8>, AllocError>
    ensures { IfOk result (λ text. text.items ≡ ages_octets (map ages_view ages.now)) }
{
    let mut text = Vec::new(alloc);
    for buffer in ages {
        push_buffer(&mut text, buffer)?;
    }
    Ok(text)
}

/// Writes the marks of a buffer, a line each.
fn push_buffer(text: &mut Vec<u8>, buffer: &BufferMarks) -> Result<(), AllocError>
    ensures { OnOk result (text.new.items
        ≡ text.old.items ++ buffer_octets (ages_view buffer.now)) }
{
    push_marks(text, buffer.name.as_slice(), &buffer.marks)
}

/// Writes these marks of the buffer of this name.
fn push_marks(text: &mut Vec<u8>, name: &[u8], marks: &[Mark]) -> Result<(), AllocError>
    ensures { OnOk result (text.new.items
        ≡ text.old.items ++ flat_map (mark_octets name.now) marks.now) }
{
    for mark in marks {
        push_mark(text, name, *mark)?;
    }
    Ok(())
}

/// Writes the line of a mark.
fn push_mark(text: &mut Vec<u8>, name: &[u8], mark: Mark) -> Result<(), AllocError>
    ensures { OnOk result (text.new.items ≡ text.old.items ++ mark_octets name.now mark) }
{
    text.extend_from_slice(name)?;
    push_number(text, mark.front)?;
    push_number(text, mark.moment)?;
    text.push(b'\n')?;
    Ok(())
}

/// Writes a number behind a space.
fn push_number(text: &mut Vec<u8>, number: u64) -> Result<(), AllocError>
    ensures { OnOk result (text.new.items ≡ text.old.items ++ 32 ∷ decimal number) }
{
    let mut digits = Buffer::new();
    text.push(b' ')?;
    text.extend_from_slice(digits.format(number).as_bytes())
}
