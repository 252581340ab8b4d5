//! How large the buffers of a relay are that is served, and how much of them is filled
//! (docs/FORMATS.md, Report).
ghost use Rattle.std.specs.Prelude.{◌≡◌, ◌++◌, OnOk};
ghost use Rattle.relay_serve.specs.Filled.{blocks_text, filled_blocks, size_line, sizes_text};

use itoa::Buffer;
use relay_conf::BufferConf;
use relay_report::NamedBuffer;
use std::alloc::AllocError;

/// Puts a line for each of these buffers behind a text, whose figures are these.
pub(crate) fn put_sizes(
    text: &mut Vec<u8>,
    buffers: &[BufferConf],
    figures: &[NamedBuffer],
) -> Result<(), AllocError>
    ensures { OnOk result (text.new.items
        ≡ text.old.items ++ sizes_text buffers.now figures.now) }
{
    let mut left = figures;
    for buffer in buffers {
        let Some((named, rest)) = left.split_first() else {
            return Ok(());
        };
        put_size(text, buffer, named)?;
        left = rest;
    }
    Ok(())
}

/// Puts the line of a buffer.
fn put_size(text: &mut Vec<u8>, buffer: &BufferConf, named: &NamedBuffer) -> Result<(), AllocError>
    ensures { OnOk result (text.new.items
        ≡ text.old.items ++ size_line buffer.now named.now) }
{
    text.extend_from_slice(b"size buffer=")?;
    text.extend_from_slice(named.name.as_slice())?;
    put_blocks(text, b" blocks=", u64::from(buffer.blocks))?;
    put_blocks(text, b" filled=", filled_blocks(buffer, named))?;
    text.extend_from_slice(b"\n")
}

/// How many blocks of a buffer hold something: in its first cycle those before its front, from then
/// on all of them.
fn filled_blocks(buffer: &BufferConf, named: &NamedBuffer) -> u64
    ensures { result ≡ filled_blocks buffer.now named.now }
{
    named.figures.front.min(u64::from(buffer.blocks))
}

/// Puts a number of blocks behind its key.
fn put_blocks(text: &mut Vec<u8>, key: &[u8], blocks: u64) -> Result<(), AllocError>
    ensures { OnOk result (text.new.items ≡ text.old.items ++ blocks_text key.now blocks) }
{
    let mut digits = Buffer::new();
    text.extend_from_slice(key)?;
    text.extend_from_slice(digits.format(blocks).as_bytes())
}
