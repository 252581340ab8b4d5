//! cycbuff.conf: the buffers and their groups (docs/FORMATS.md, Configuration).
ghost use Rattle.std.specs.Prelude.{◌≡◌, ◌∷◌, ◌++◌, [], map, option_map, vec_items, bytes_eq, IfOk};
ghost use Rattle.std.specs.Prelude.{OnOk, List};
ghost use Rattle.std.specs.Option.{option_to_list};
ghost use Rattle.std.specs.List.{list_any};
ghost use Rattle.relay_conf.specs.Cycbuff.{cycbuff_of, buffers_said, groups_said, name_fault};
ghost use Rattle.relay_conf.specs.Cycbuff.{line_fault, buffer_of, group_name_of, list_fault};
ghost use Rattle.relay_conf.specs.Cycbuff.{listed_fault, group_of, members_of, number_of};
ghost use Rattle.relay_conf.specs.Cycbuff as terms;
ghost use Rattle.relay_conf.specs.CycbuffDraft.{HasBuffers, HasGroups};
ghost use Rattle.relay_conf.specs.declared.cycbuff.BufferConf.{BufferConf};
ghost use Rattle.relay_conf.specs.Faults.{ConfGives, LineGives};
ghost use Rattle.relay_conf.specs.Lines.{lines_of};
ghost use Rattle.relay_conf.specs.Places.{group_view};
ghost use Rattle.relay_conf.specs.Settings.{buffers_view};
ghost use Rattle.line_words.specs.Parts.{parts};

use crate::cycbuff_lines::{Line, cycbuff_line};
use crate::drafts::{LineByLine, read_lines};
use crate::faults::{ConfError, Fault, LineFault, Refusal};
use crate::settings::Buffers;
use line_words::{Octets, cut, is};
use std::alloc::{AllocError, Global};

/// A buffer: its name, the path of its file, and its size in blocks of 512 octets.
#[derive(Drop)]
pub struct BufferConf {
    pub name: Octets,
    pub file: Octets,
    pub blocks: u32,
}

/// The order in which a group fills its buffers.
#[derive(Clone, Copy)]
pub enum Mode {
    /// Article by article, one buffer after the other.
    Interleave,
    /// Each buffer to its end before the next.
    Sequential,
}

/// A group of buffers: its name, the numbers of its buffers in the order of its list, and its mode.
#[derive(Drop)]
pub struct GroupConf {
    pub name: Octets,
    pub buffers: Vec<usize>,
    pub mode: Mode,
}

/// Reads the text of cycbuff.conf.
pub fn read_cycbuff(alloc: Global, text: &[u8]) -> Result<Buffers, ConfError>
    ensures { ConfGives buffers_view result (cycbuff_of (lines_of text.now)) }
{
    let buffers = read_buffers(alloc, text)?;
    let groups = read_groups(alloc, text, &buffers)?;
    Ok(Buffers { buffers, groups })
}

/// Reads the lines up to the first fault that is looked for line by line, and gives the buffers.
fn read_buffers(alloc: Global, text: &[u8]) -> Result<Vec<BufferConf>, ConfError>
    ensures { ConfGives vec_items result
        (buffers_said (map terms.cycbuff_line (lines_of text.now))) }
{
    let draft = read_lines(alloc, &(), BufferDraft::new(alloc), text)?;
    let BufferDraft { buffers, names } = draft;
    if names.is_empty() {
        return Err(ConfError::Faulty(LineFault {
            line: 0,
            fault: Fault::NoBuffers,
        }));
    }
    Ok(buffers)
}

/// The buffers so far, and the names of the groups.
#[derive(Drop)]
pub(crate) struct BufferDraft {
    buffers: Vec<BufferConf>,
    names: Vec<Octets>,
}

impl LineByLine for BufferDraft {
    ghost use Rattle.std.specs.Prelude.{Result};
    ghost use Rattle.relay_conf.specs.Cycbuff.{CycbuffLine, early_fault};
    ghost use Rattle.relay_conf.specs.CycbuffDraft.{LineSays, HasBuffers};
    ghost use Rattle.relay_conf.specs.declared.faults.Fault.{Fault};

    type Over = ();

    ghost Said = { Result CycbuffLine Fault };

    ghost Says = { LineSays };

    ghost wrong = { λ over. early_fault };

    ghost Draws = { λ over. HasBuffers };

    fn add_line(
        &mut self,
        alloc: Global,
        _over: &(),
        _number: usize,
        line: &[u8],
    ) -> Result<(), Refusal> {
        add_line(alloc, &mut self.buffers, &mut self.names, line)
    }
}

impl BufferDraft {
    fn new(alloc: Global) -> BufferDraft
        ensures { HasBuffers [] result }
    {
        BufferDraft {
            buffers: Vec::new(alloc),
            names: Vec::new(alloc),
        }
    }
}

/// Adds what a line says to the buffers and the names of the groups.
fn add_line(
    alloc: Global,
    buffers: &mut Vec<BufferConf>,
    names: &mut Vec<Octets>,
    line: &[u8],
) -> Result<(), Refusal>
    ensures fault { LineGives result
        (line_fault buffers.old.items names.old.items (terms.cycbuff_line line.now)) }
    ensures buffers { OnOk result (buffers.new.items
        ≡ buffers.old.items ++ option_to_list (buffer_of (terms.cycbuff_line line.now))) }
    ensures names { OnOk result (names.new.items
        ≡ names.old.items ++ option_to_list (group_name_of (terms.cycbuff_line line.now))) }
{
    match cycbuff_line(line) {
        Ok(Line::Skipped) => Ok(()),
        Ok(Line::Buffer(name, file, blocks)) => { add_buffer(alloc, buffers, name, file, blocks) }
        Ok(Line::Group(name, _list, _mode)) => add_name(alloc, names, name),
        Err(fault) => Err(Refusal::Faulty(fault)),
    }
}

/// Adds a buffer.
fn add_buffer(
    alloc: Global,
    buffers: &mut Vec<BufferConf>,
    name: &[u8],
    file: &[u8],
    blocks: u32,
) -> Result<(), Refusal>
    ensures fault { LineGives result
        (name_fault (map (λ buffer. buffer.name) buffers.old.items) name.now) }
    ensures buffers { OnOk result (buffers.new.items ≡ buffers.old.items
        ++ record { name = name.now; file = file.now; blocks = blocks } ∷ []) }
{
    if buffers.len() >= 256 {
        return Err(Refusal::Faulty(Fault::Number));
    }
    if has_buffer(buffers, name) {
        return Err(Refusal::Faulty(Fault::Duplicate));
    }
    push_buffer(alloc, buffers, name, file, blocks)?;
    Ok(())
}

/// Keeps a buffer.
fn push_buffer(
    alloc: Global,
    buffers: &mut Vec<BufferConf>,
    name: &[u8],
    file: &[u8],
    blocks: u32,
) -> Result<(), AllocError>
    ensures { OnOk result (buffers.new.items ≡ buffers.old.items
        ++ record { name = name.now; file = file.now; blocks = blocks } ∷ []) }
{
    let name = Octets::copied(alloc, name)?;
    let file = Octets::copied(alloc, file)?;
    buffers.push(BufferConf { name, file, blocks })?;
    Ok(())
}

/// Whether a buffer has this name.
fn has_buffer(buffers: &[BufferConf], name: &[u8]) -> bool
    ensures { result ≡ list_any (bytes_eq name.now) (map (λ buffer. buffer.name) buffers.now) }
{
    for buffer in buffers {
        if is(name, buffer.name.as_slice()) {
            return true;
        }
    }
    false
}

/// Whether one of the names is this.
fn is_among(names: &[Octets], name: &[u8]) -> bool
    ensures { result ≡ list_any (bytes_eq name.now) names.now }
{
    for other in names {
        if is(name, other.as_slice()) {
            return true;
        }
    }
    false
}

/// Adds the name of a group.
fn add_name(alloc: Global, names: &mut Vec<Octets>, name: &[u8]) -> Result<(), Refusal>
    ensures fault { LineGives result (name_fault names.old.items name.now) }
    ensures names { OnOk result (names.new.items ≡ names.old.items ++ name.now ∷ []) }
{
    if names.len() >= 256 {
        return Err(Refusal::Faulty(Fault::Number));
    }
    if is_among(names, name) {
        return Err(Refusal::Faulty(Fault::Duplicate));
    }
    names.push(Octets::copied(alloc, name)?)?;
    Ok(())
}

/// The number of the buffer of a name, where there is one.
fn place_of(buffers: &[BufferConf], name: &[u8]) -> Option<usize>
    ensures { result ≡ terms.place_of buffers.now name.now }
{
    for (number, buffer) in buffers.iter().enumerate() {
        if is(name, buffer.name.as_slice()) {
            return Some(number);
        }
    }
    None
}

/// Reads the groups of lines that are each without fault, up to the first fault that is looked for
/// after the last line.
fn read_groups(
    alloc: Global,
    text: &[u8],
    buffers: &Vec<BufferConf>,
) -> Result<Vec<GroupConf>, ConfError>
    ensures { ConfGives (λ groups. map group_view groups.items) result
        (groups_said buffers.now.items (map terms.cycbuff_line (lines_of text.now))) }
{
    let draft = read_lines(alloc, buffers, GroupDraft::new(alloc), text)?;
    Ok(draft.groups)
}

/// The groups so far.
#[derive(Drop)]
pub(crate) struct GroupDraft {
    groups: Vec<GroupConf>,
}

impl LineByLine for GroupDraft {
    ghost use Rattle.std.specs.Prelude.{Result};
    ghost use Rattle.relay_conf.specs.Cycbuff.{CycbuffLine, late_fault};
    ghost use Rattle.relay_conf.specs.CycbuffDraft.{LineSays, HasGroups};
    ghost use Rattle.relay_conf.specs.declared.faults.Fault.{Fault};

    type Over = Vec<BufferConf>;

    ghost Said = { Result CycbuffLine Fault };

    ghost Says = { LineSays };

    ghost wrong = { λ buffers. late_fault buffers.items };

    ghost Draws = { λ buffers. HasGroups buffers.items };

    fn add_line(
        &mut self,
        alloc: Global,
        over: &Vec<BufferConf>,
        _number: usize,
        line: &[u8],
    ) -> Result<(), Refusal> {
        add_group_line(alloc, over, &mut self.groups, line)
    }
}

impl GroupDraft {
    fn new(alloc: Global) -> GroupDraft
        ensures { (known : List BufferConf) → HasGroups known [] result }
    {
        GroupDraft {
            groups: Vec::new(alloc),
        }
    }
}

/// Adds the group that a line says, if it says one.
fn add_group_line(
    alloc: Global,
    buffers: &[BufferConf],
    groups: &mut Vec<GroupConf>,
    line: &[u8],
) -> Result<(), Refusal>
    ensures fault { LineGives result
        (listed_fault buffers.now (map group_view groups.old.items)
        (terms.cycbuff_line line.now)) }
    ensures groups { OnOk result (map group_view groups.new.items ≡ map group_view groups.old.items
        ++ option_to_list (group_of buffers.now (terms.cycbuff_line line.now))) }
{
    if let Ok(Line::Group(name, list, mode)) = cycbuff_line(line) {
        let numbers = listed_buffers(alloc, buffers, groups, list)?;
        groups.push(GroupConf {
            name: Octets::copied(alloc, name)?,
            buffers: numbers,
            mode,
        })?;
    }
    Ok(())
}

/// The numbers of the buffers of a list, in its order.
fn listed_buffers(
    alloc: Global,
    buffers: &[BufferConf],
    groups: &[GroupConf],
    list: &[u8],
) -> Result<Vec<usize>, Refusal>
    ensures fault { LineGives result
        (list_fault buffers.now (map group_view groups.now) (members_of list.now)) }
    ensures numbers { IfOk result (λ numbers.
        numbers.items ≡ map (number_of buffers.now) (members_of list.now)) }
{
    if list.is_empty() {
        return Err(Refusal::Faulty(Fault::NoBuffers));
    }
    let Some(numbers) = known_numbers(alloc, buffers, list)? else {
        return Err(Refusal::Faulty(Fault::UnknownName));
    };
    if is_shared(groups, &numbers) {
        return Err(Refusal::Faulty(Fault::Shared));
    }
    Ok(numbers)
}

/// The numbers of the buffers of names between commas, or `None` where one is of no buffer.
fn known_numbers(
    alloc: Global,
    buffers: &[BufferConf],
    list: &[u8],
) -> Result<Option<Vec<usize>>, AllocError>
    ensures { IfOk result (λ numbers. option_map vec_items numbers
        ≡ terms.known_numbers buffers.now (parts 44 list.now)) }
{
    let mut numbers = Vec::new(alloc);
    let mut unread = Some(list);
    while let Some(rest) = unread {
        let (name, after) = cut(rest, b',');
        match place_of(buffers, name) {
            Some(number) => numbers.push(number)?,
            None => return Ok(None),
        }
        unread = after;
    }
    Ok(Some(numbers))
}

/// Whether a number stands in one of the groups, or twice among the numbers.
fn is_shared(groups: &[GroupConf], numbers: &[usize]) -> bool
    ensures { result ≡ terms.is_shared (map group_view groups.now) [] numbers.now }
{
    for (index, number) in numbers.iter().enumerate() {
        if is_listed(groups, *number) || numbers[..index].contains(number) {
            return true;
        }
    }
    false
}

/// Whether a number stands in one of the groups.
fn is_listed(groups: &[GroupConf], number: usize) -> bool
    ensures { result ≡ terms.is_listed (map group_view groups.now) number }
{
    for group in groups {
        if group.buffers.contains(&number) {
            return true;
        }
    }
    false
}
