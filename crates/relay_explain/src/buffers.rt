//! What is told of the buffers of cycbuff.conf.
ghost use Rattle.std.specs.Prelude.{◌≡◌, map};
ghost use Rattle.std.specs.Option.{option_copied};
ghost use Rattle.relay_explain.specs.Found.{cycbuff};
ghost use Rattle.relay_explain.specs.Lines.{told_line};
ghost use Rattle.relay_explain.specs.Text.{Adds};
ghost use Rattle.relay_explain.specs.Buffers as terms;

use crate::found::{CYCBUFF, Found, put_found};
use crate::lines::named_line;
use crate::rows::first_ones;
use crate::text::{Text, begin_line, put, put_odd, put_odd_number, put_shared};
use cyc_block::head_count;
use line_words::is;
use relay_conf::{BufferConf, Config, GroupConf};

/// The octets of an article that a block holds.
const BLOCK_ROOM: u64 = 480;

/// The octets of a block.
const BLOCK_OCTETS: u64 = 512;

/// The octets that are put into the Path of an article at most.
const MOST_ADDED: u64 = 140;

/// The octets of a file of so many blocks, with its head blocks.
#[tactic(auto, unfolding(crate::specs::Buffers::file_octets))]
pub(crate) fn file_octets(blocks: u32) -> u64
    ensures { result ≡ terms.file_octets blocks }
{
    (u64::from(blocks) + u64::from(head_count(blocks))) * BLOCK_OCTETS
}

/// The octets of articles that so many blocks hold.
#[tactic(auto, unfolding(crate::specs::Buffers::room_of))]
pub(crate) fn room_of(blocks: u32) -> u64
    ensures { result ≡ terms.room_of blocks }
{
    u64::from(blocks) * BLOCK_ROOM
}

/// The octets of the largest article, as it is stored.
#[tactic(auto, unfolding(crate::specs::Buffers::largest_stored))]
pub(crate) fn largest_stored(config: &Config) -> u64
    ensures { result ≡ terms.largest_stored config.now }
{
    u64::from(config.relay.max_article) + MOST_ADDED
}

/// Puts what is told of all buffers, with what lies where their files are to be.
#[tactic(auto, unfolding(crate::specs::Buffers::buffers_text))]
pub(crate) fn put_buffers(mut text: Text, config: &Config, lines: &[&[u8]], found: &[Found]) -> Text
    ensures { Adds text result
        (terms.buffers_text config.now (map (λ line. line.now) lines.now) found.now) }
{
    for (number, buffer) in config.buffers.buffers.iter().enumerate() {
        text = put_buffer(text, config, lines, found, number, buffer);
    }
    text
}

/// Puts what is told of the buffer of this number.
fn put_buffer(
    text: Text,
    config: &Config,
    lines: &[&[u8]],
    found: &[Found],
    number: usize,
    buffer: &BufferConf,
) -> Text
    ensures { Adds text result
        (terms.buffer_text config.now (map (λ line. line.now) lines.now) found.now (
          number,
          buffer.now,
        )) }
{
    let line = named_line(lines, b"cycbuff", buffer.name.as_slice());
    let text = put_buffer_line(text, line, buffer);
    let text = put_found(text, line, buffer.file.as_slice(), found.get(number));
    put_odds(text, config, line, number, buffer)
}

/// Puts the line of a buffer.
#[tactic(auto, unfolding(crate::specs::Buffers::buffer_told))]
fn put_buffer_line(text: Text, line: usize, buffer: &BufferConf) -> Text
    ensures { Adds text result (told_line cycbuff line (terms.buffer_told buffer.now)) }
{
    let name = buffer.name.as_slice();
    let file = buffer.file.as_slice();
    let text = begin_line(text, CYCBUFF, line);
    let text = put(text, &[b"buffer ", name, b", file ", file, b": "]);
    put_sizes(text, buffer.blocks).add(b"\n")
}

/// Puts what so many blocks are and hold.
#[tactic(auto, unfolding(crate::specs::Buffers::sizes_text))]
fn put_sizes(text: Text, blocks: u32) -> Text
    ensures { Adds text result (terms.sizes_text blocks) }
{
    text.add_number(blocks as u128)
        .add(b" blocks, ")
        .add_number(room_of(blocks) as u128)
        .add(b" octets of articles, ")
        .add_number(file_octets(blocks) as u128)
        .add(b" octets of disk")
}

/// Puts what is odd in a buffer of this number.
#[tactic(auto, unfolding(crate::specs::Buffers::buffer_odds))]
fn put_odds(text: Text, config: &Config, line: usize, number: usize, buffer: &BufferConf) -> Text
    ensures { Adds text result (terms.buffer_odds config.now line number buffer.now) }
{
    let file = buffer.file.as_slice();
    let first = first_with(first_ones(&config.buffers.buffers, number), file);
    let text = put_odd(
        text,
        !is_in_group(&config.buffers.groups, number),
        CYCBUFF,
        line,
        b"the buffer is in no group: it takes no article",
    );
    let text = put_shared(text, CYCBUFF, line, b"the file is that of buffer ", first);
    put_room_odd(text, line, buffer.blocks, largest_stored(config))
}

/// Puts what is odd in a buffer of so many blocks: the largest article finds no room.
#[tactic(auto, unfolding(crate::specs::Buffers::room_odd))]
fn put_room_odd(text: Text, line: usize, blocks: u32, largest: u64) -> Text
    ensures { Adds text result (terms.room_odd line blocks largest) }
{
    if room_of(blocks) < largest {
        let told = b"the buffer has no room for the largest article, of ";
        put_odd_number(text, CYCBUFF, line, told, largest as u128, b" octets")
    } else {
        text
    }
}

/// Whether a group has the buffer of this number.
#[tactic(auto, unfolding(crate::specs::Buffers::is_in_group))]
fn is_in_group(groups: &[GroupConf], number: usize) -> bool
    ensures { result ≡ terms.is_in_group number groups.now }
{
    for group in groups {
        if group.buffers.contains(&number) {
            return true;
        }
    }
    false
}

/// The name of the first buffer that has this file.
#[tactic(auto, unfolding(crate::specs::Buffers::first_with))]
fn first_with<'a>(buffers: &'a [BufferConf], file: &[u8]) -> Option<&'a [u8]>
    ensures { option_copied result ≡ terms.first_with file.now buffers.now }
{
    for buffer in buffers {
        if is(buffer.file.as_slice(), file) {
            return Some(buffer.name.as_slice());
        }
    }
    None
}
