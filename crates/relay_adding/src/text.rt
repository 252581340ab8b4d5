//! What is told of buffers that are added to a relay that was stopped (docs/PROTOCOL.md,
//! `add-buffer`).
ghost use Rattle.std.specs.Prelude.{◌≡◌, ◌++◌, drop, IfOk, OnOk};
ghost use Rattle.relay_adding.specs.Telling.{added_line, added_lines, added_text, named};

use itoa::Buffer;
use relay_conf::BufferConf;
use std::alloc::{AllocError, Global};

/// What is told where the buffers from this number on are added under this stop. The error is want
/// of memory.
pub fn added_text(
    alloc: Global,
    buffers: &[BufferConf],
    first: usize,
    stop: u64,
) -> Result<Vec<u8>, AllocError>
    ensures { IfOk result (λ text. text.items ≡ added_text first stop buffers.now) }
{
    let mut text = Vec::new(alloc);
    if first >= buffers.len() {
        text.extend_from_slice(b"nothing to add\n")?;
        return Ok(text);
    }
    put_lines(&mut text, buffers, first, stop)?;
    Ok(text)
}

/// Puts a line for each of the buffers from this number on.
fn put_lines(
    text: &mut Vec<u8>,
    buffers: &[BufferConf],
    first: usize,
    stop: u64,
) -> Result<(), AllocError>
    ensures { OnOk result (text.new.items
        ≡ text.old.items ++ added_lines first stop (drop first buffers.now)) }
{
    for number in first..buffers.len() {
        put_line(text, &buffers[number], number as u64, stop)?;
    }
    Ok(())
}

/// Puts the line of the buffer of this number.
fn put_line(
    text: &mut Vec<u8>,
    buffer: &BufferConf,
    number: u64,
    stop: u64,
) -> Result<(), AllocError>
    ensures { OnOk result (text.new.items
        ≡ text.old.items ++ added_line number stop buffer.now) }
{
    text.extend_from_slice(b"added buffer=")?;
    text.extend_from_slice(buffer.name.as_slice())?;
    put_named(text, b" number=", number)?;
    put_named(text, b" blocks=", u64::from(buffer.blocks))?;
    put_named(text, b" stop=", stop)?;
    text.extend_from_slice(b"\n")
}

/// Puts a number behind its name.
fn put_named(text: &mut Vec<u8>, name: &[u8], number: u64) -> Result<(), AllocError>
    ensures { OnOk result (text.new.items ≡ text.old.items ++ named name.now number) }
{
    let mut buffer = Buffer::new();
    text.extend_from_slice(name)?;
    text.extend_from_slice(buffer.format(number).as_bytes())
}
