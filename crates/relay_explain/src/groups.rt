//! What is told of the groups of cycbuff.conf.
ghost use Rattle.std.specs.Prelude.{◌≡◌, ◌++◌, codes, flat_map, map, slice_get};
ghost use Rattle.relay_explain.specs.Buffers as terms;
ghost use Rattle.relay_explain.specs.Text.{Adds};

use crate::found::CYCBUFF;
use crate::lines::named_line;
use crate::text::{Text, begin_line};
use relay_conf::{BufferConf, Config, GroupConf, Mode};

/// Puts what is told of all groups.
#[tactic(auto, unfolding(crate::specs::Buffers::groups_text))]
pub(crate) fn put_groups(mut text: Text, config: &Config, lines: &[&[u8]]) -> Text
    ensures { Adds text result
        (terms.groups_text config.now (map (λ line. line.now) lines.now)) }
{
    for group in &config.buffers.groups {
        text = put_group(text, config, lines, group);
    }
    text
}

/// Puts what is told of a group.
fn put_group(text: Text, config: &Config, lines: &[&[u8]], group: &GroupConf) -> Text
    ensures { Adds text result
        (terms.group_text config.now (map (λ line. line.now) lines.now) group.now) }
{
    let line = named_line(lines, b"metacycbuff", group.name.as_slice());
    let text = begin_line(text, CYCBUFF, line);
    put_group_told(text, &config.buffers.buffers, group).add(b"\n")
}

/// Puts a group, its mode, and its buffers in their order.
#[tactic(auto, unfolding(crate::specs::Buffers::group_told))]
pub(crate) fn put_group_told(text: Text, buffers: &[BufferConf], group: &GroupConf) -> Text
    ensures { Adds text result (terms.group_told buffers.now group.now) }
{
    let text = put_mode(text, group);
    put_members(text, buffers, &group.buffers)
}

/// Puts a group and how it fills its buffers.
#[tactic(auto, unfolding(crate::specs::Buffers::mode_text))]
fn put_mode(text: Text, group: &GroupConf) -> Text
    ensures { Adds text result
        (codes "group " ++ group.now.name ++ terms.mode_text group.now.mode) }
{
    let text = text.add(b"group ").add(group.name.as_slice());
    match group.mode {
        Mode::Interleave => text.add(b", article by article in turn:"),
        Mode::Sequential => text.add(b", one to its end before the next:"),
    }
}

/// Puts the names of the buffers of these numbers.
fn put_members(mut text: Text, buffers: &[BufferConf], numbers: &[usize]) -> Text
    ensures { Adds text result (flat_map (terms.member_text buffers.now) numbers.now) }
{
    for number in numbers {
        text = text.add(b" ").add(buffer_name(buffers, *number));
    }
    text
}

/// The name of the buffer of this number; one that isn't there has none.
fn buffer_name(buffers: &[BufferConf], number: usize) -> &[u8]
    ensures { result.now ≡ terms.buffer_name (slice_get buffers.now number) }
{
    match buffers.get(number) {
        Some(buffer) => buffer.name.as_slice(),
        None => b"",
    }
}
