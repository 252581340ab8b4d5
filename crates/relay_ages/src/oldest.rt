//! Since when the oldest articles are there that the buffers of a served relay still have
//! (docs/FORMATS.md, Report).
ghost use Rattle.std.specs.Prelude.{◌≡◌, ◌++◌, IfOk, OnOk, Some, map};
ghost use Rattle.buffer_ages.specs.Views.{ages_view};
ghost use Rattle.relay_ages.specs.Ages.{oldest_line, oldest_text, since_line};
ghost use Rattle.relay_ages.specs.Ages as terms;

use buffer_ages::{BufferMarks, noted, since};
use itoa::Buffer;
use line_words::Octets;
use relay_conf::BufferConf;
use relay_report::NamedBuffer;
use std::alloc::{AllocError, Global};

/// The marks of these buffers, once it is noted how far they are at this moment by their figures.
pub(crate) fn noted_all(
    alloc: Global,
    ages: &[BufferMarks],
    buffers: &[BufferConf],
    figures: &[NamedBuffer],
    moment: u64,
) -> Result<Vec<BufferMarks>, AllocError>
    ensures { IfOk result (λ now. map ages_view now.items
        ≡ terms.noted_all moment ages.now buffers.now figures.now) }
{
    let mut now = Vec::new(alloc);
    let (mut others, mut left) = (buffers, figures);
    for one in ages {
        let Some((buffer, behind)) = others.split_first() else {
            return Ok(now);
        };
        let Some((named, rest)) = left.split_first() else {
            return Ok(now);
        };
        now.push(noted_one(alloc, one, buffer, named, moment)?)?;
        others = behind;
        left = rest;
    }
    Ok(now)
}

/// The marks of a buffer, once it is noted how far it is.
fn noted_one(
    alloc: Global,
    ages: &BufferMarks,
    buffer: &BufferConf,
    named: &NamedBuffer,
    moment: u64,
) -> Result<BufferMarks, AllocError>
    ensures { IfOk result (λ now.
        ages_view now ≡ terms.noted_one moment ages.now buffer.now named.now) }
{
    let name = Octets::copied(alloc, ages.name.as_slice())?;
    let front = named.figures.front;
    let marks = noted(alloc, &ages.marks, front, u64::from(buffer.blocks), moment)?;
    Ok(BufferMarks { name, marks })
}

/// Puts a line for each of these buffers behind a text of whose oldest article it is known since
/// when it is there, by their marks and figures.
pub(crate) fn put_oldest(
    text: &mut Vec<u8>,
    ages: &[BufferMarks],
    buffers: &[BufferConf],
    figures: &[NamedBuffer],
) -> Result<(), AllocError>
    ensures { OnOk result (text.new.items
        ≡ text.old.items ++ oldest_text ages.now buffers.now figures.now) }
{
    let (mut others, mut left) = (buffers, figures);
    for one in ages {
        let Some((buffer, behind)) = others.split_first() else {
            return Ok(());
        };
        let Some((named, rest)) = left.split_first() else {
            return Ok(());
        };
        put_one(text, one, buffer, named)?;
        others = behind;
        left = rest;
    }
    Ok(())
}

/// Puts the line of a buffer, where there is one.
fn put_one(
    text: &mut Vec<u8>,
    ages: &BufferMarks,
    buffer: &BufferConf,
    named: &NamedBuffer,
) -> Result<(), AllocError>
    ensures { OnOk result (text.new.items
        ≡ text.old.items ++ oldest_line ages.now buffer.now named.now) }
{
    match since(&ages.marks, named.figures.front, u64::from(buffer.blocks)) {
        Some(moment) => put_since(text, named.name.as_slice(), moment),
        None => Ok(()),
    }
}

/// Puts the line of the buffer of this name.
fn put_since(text: &mut Vec<u8>, name: &[u8], moment: u64) -> Result<(), AllocError>
    ensures { OnOk result (text.new.items ≡ text.old.items ++ since_line name.now (Some moment)) }
{
    let mut digits = Buffer::new();
    text.extend_from_slice(b"oldest buffer=")?;
    text.extend_from_slice(name)?;
    text.extend_from_slice(b" since=")?;
    text.extend_from_slice(digits.format(moment).as_bytes())?;
    text.extend_from_slice(b"\n")
}
