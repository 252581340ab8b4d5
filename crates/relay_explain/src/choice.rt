//! Where an article goes by its newsgroups and its size, or why it is refused by these.
ghost use Rattle.std.specs.Prelude.{◌≡◌, ◌++◌, codes, decimal, find, length, map, not, slice_get};
ghost use Rattle.std.specs.Prelude.{option_map, IfOk};
ghost use Rattle.std.specs.Option.{option_copied};
ghost use Rattle.relay_model.specs.Terms.{Grammar, Size, TooLarge};
ghost use Rattle.relay_explain.specs.Buffers.{room_of};
ghost use Rattle.relay_explain.specs.Choice.{refused_text};
ghost use Rattle.relay_explain.specs.Choice as terms;
ghost use Rattle.relay_explain.specs.Text.{Adds};

use crate::buffers::{largest_stored, room_of};
use crate::groups::put_group_told;
use crate::newsgroups::{first_wrong, names_in};
use crate::text::Text;
use relay_conf::{BufferConf, Config, GroupConf, choose};
use std::alloc::{AllocError, Global};

/// The text of where an article goes of these newsgroups, with commas between them, and of so many
/// octets as it is stored: its class, its group and the buffers of that; or the first reason for
/// which the relay refuses it by its newsgroups or its size.
pub fn explain_choice(
    alloc: Global,
    config: &Config,
    newsgroups: &[u8],
    size: u64,
) -> Result<Vec<u8>, AllocError>
    ensures { IfOk result (λ text. text.items
        ≡ terms.choice_text config.now newsgroups.now size) }
{
    let names = names_in(alloc, newsgroups)?;
    let text = put_article(Text::new(alloc), newsgroups, size);
    put_fate(text, config, &names, size).whole()
}

/// Puts of which article it is told where it goes.
fn put_article(text: Text, newsgroups: &[u8], size: u64) -> Text
    ensures { Adds text result
        (newsgroups.now ++ codes ", " ++ decimal size ++ codes " octets: ") }
{
    text.add(newsgroups)
        .add(b", ")
        .add_number(size as u128)
        .add(b" octets: ")
}

/// Puts where an article of these newsgroups goes, or why it is refused.
fn put_fate(text: Text, config: &Config, names: &[&[u8]], size: u64) -> Text
    ensures { Adds text result
        (terms.fate_text config.now (map (λ name. name.now) names.now) size) }
{
    let largest = largest_stored(config);
    if largest < size {
        return put_largest(text, largest);
    }
    match first_wrong(names) {
        Some(name) => put_wrong(text, names.len(), name),
        None => put_taken(
            text,
            config,
            size,
            choose(&config.storage_entries, names, size),
        ),
    }
}

/// Puts that an article is larger than the largest.
fn put_largest(text: Text, largest: u64) -> Text
    ensures { Adds text result (refused_text Size
        (codes "the largest article has " ++ decimal largest ++ codes " octets")) }
{
    text.add(b"refused: 1 Size, the largest article has ")
        .add_number(largest as u128)
        .add(b" octets")
        .add(b"\n")
}

/// Puts that this one of so many names is no newsgroup's.
fn put_wrong(text: Text, names: usize, name: &[u8]) -> Text
    ensures { Adds text result (refused_text Grammar (terms.name_words names name.now)) }
{
    let text = text.add(b"refused: 2 Grammar, ");
    if name.len() > 0 {
        return text.add(name).add(b" is no newsgroup's name").add(b"\n");
    }
    if names > 1 {
        return text.add(b"a newsgroup's name is empty\n");
    }
    text.add(b"there is no newsgroup\n")
}

/// Puts what is told of an article by the class and the group that it is given.
#[tactic(auto, unfolding(crate::specs::Choice::taken_text))]
fn put_taken(text: Text, config: &Config, size: u64, taken: Option<(u8, u16)>) -> Text
    ensures { Adds text result (terms.taken_text config.now size taken) }
{
    match taken {
        None => text.add(b"refused: 7 NoClass, no entry takes it\n"),
        Some((class, group)) => {
            let group = group_at(config, group);
            put_class(text, &config.buffers.buffers, size, class, group)
        }
    }
}

/// The group of this number, where it is there.
pub(crate) fn group_at(config: &Config, group: u16) -> Option<&GroupConf>
    ensures { option_copied result ≡ slice_get config.now.buffers.groups.items group }
{
    config.buffers.groups.get(usize::from(group))
}

/// Puts what is told of an article by its class and the group of that, where it is there.
#[tactic(auto, unfolding(crate::specs::Choice::class_text))]
fn put_class(
    text: Text,
    buffers: &[BufferConf],
    size: u64,
    class: u8,
    group: Option<&GroupConf>,
) -> Text
    ensures { Adds text result
        (terms.class_text buffers.now size class (option_copied group.entry)) }
{
    match group {
        None => put_number(text, class).add(b"\n"),
        Some(group) => {
            let small = first_small(buffers, &group.buffers, size);
            put_placed(text, buffers, class, group, small)
        }
    }
}

/// Puts the number of a class.
fn put_number(text: Text, class: u8) -> Text
    ensures { Adds text result (codes "class " ++ decimal class) }
{
    text.add(b"class ").add_number(class as u128)
}

/// Puts a class and a group with its buffers, or that this one of them has no room.
#[tactic(auto, unfolding(crate::specs::Choice::placed_text))]
fn put_placed(
    text: Text,
    buffers: &[BufferConf],
    class: u8,
    group: &GroupConf,
    small: Option<&BufferConf>,
) -> Text
    ensures { Adds text result
        (terms.placed_text buffers.now class group.now (option_copied small.entry)) }
{
    match small {
        None => {
            let text = put_number(text, class).add(b", ");
            put_group_told(text, buffers, group).add(b"\n")
        }
        Some(buffer) => put_small(text, group, buffer),
    }
}

/// Puts that this buffer of a group has no room.
fn put_small(text: Text, group: &GroupConf, buffer: &BufferConf) -> Text
    ensures { Adds text result (refused_text TooLarge
        (codes "buffer " ++ buffer.now.name ++ codes " of group " ++ group.now.name
        ++ codes " has room for " ++ decimal (room_of buffer.now.blocks)
        ++ codes " octets")) }
{
    text.add(b"refused: 8 TooLarge, buffer ")
        .add(buffer.name.as_slice())
        .add(b" of group ")
        .add(group.name.as_slice())
        .add(b" has room for ")
        .add_number(room_of(buffer.blocks) as u128)
        .add(b" octets")
        .add(b"\n")
}

/// The first buffer of these numbers that has no room for so many octets.
#[tactic(auto, unfolding(crate::specs::Choice::first_small))]
fn first_small<'a>(
    buffers: &'a [BufferConf],
    numbers: &[usize],
    size: u64,
) -> Option<&'a BufferConf>
    ensures { option_copied result ≡ terms.first_small buffers.now numbers.now size }
{
    for number in numbers {
        let Some(buffer) = buffers.get(*number) else {
            continue;
        };
        if room_of(buffer.blocks) < size {
            return Some(buffer);
        }
    }
    None
}
