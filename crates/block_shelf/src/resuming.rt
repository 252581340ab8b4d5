//! The groups of a buffer set that is started, as they were.
ghost use Rattle.std.specs.Prelude.{◌≡◌, ◌≤◌, ◌<◌, Bool, ℕ, IfOk, length, slice_get, unwrap_or};
ghost use Rattle.block_shelf.specs.Each.{AreEach};
ghost use Rattle.block_shelf.specs.Resuming.{AreUsed, IsResumedAt, ResumesByUse};
ghost use Rattle.block_shelf.specs.Resuming.{ResumesPlacedGroup};
ghost use Rattle.block_shelf.specs.Starting.{ResumePlacedGroups, buffers_inside};
ghost use Rattle.cyc_buffer.specs.Agreement.{Agrees};
ghost use Rattle.cyc_buffer.specs.History.{History};
ghost use Rattle.cyc_buffer.specs.Stopped.{used_of};
ghost use Rattle.relay_conf.specs.Places.{group_view, group_over, numbered_buffers};
ghost use Rattle.relay_conf.specs.declared.cycbuff.Mode.TheVariants as modes;

use crate::buffer_set::PlacedGroup;
use crate::filling::{Members, members_of};
use buffer_group::Group;
use cyc_block::BlockStore;
use cyc_buffer::{Buffer, Unopened};
use relay_conf::{BufferConf, Buffers, GroupConf, Mode};
use std::alloc::{AllocError, Global};

/// The placed groups of all groups, at these positions, over started buffers.
pub(crate) fn placed_groups_over<S: BlockStore>(
    alloc: Global,
    settings: &Buffers,
    buffers: &[Unopened<S>],
    positions: &[u32],
) -> Result<Vec<PlacedGroup>, AllocError>
    ensures { IfOk result (λ placed_groups. ResumePlacedGroups settings.now positions.now
        (buffers_inside buffers.now) placed_groups.items) }
{
    let used = all_used(alloc, buffers)?;
    let placed_groups = resume_placed_groups(alloc, settings, &used, positions)?;
    Ok(placed_groups)
}

/// Of each started buffer the blocks used in its cycle.
fn all_used<S: BlockStore>(alloc: Global, buffers: &[Unopened<S>]) -> Result<Vec<u32>, AllocError>
    ensures { IfOk result (λ used. AreUsed (buffers_inside buffers.now) used.items) }
{
    let mut used = Vec::with_capacity(alloc, buffers.len())?;
    for unopened in buffers {
        used.push_reserved(used_in(unopened.buffer()));
    }
    Ok(used)
}

/// The placed groups of all groups, at these positions, over buffers in whose cycles so many blocks
/// are used, for who has the buffers elsewhere. A position past the buffers of its group stands for
/// the first one.
pub fn resume_placed_groups(
    alloc: Global,
    settings: &Buffers,
    used: &[u32],
    positions: &[u32],
) -> Result<Vec<PlacedGroup>, AllocError>
    ensures placed_groups { IfOk result (λ placed_groups.
        ResumesByUse settings.now positions.now used.now placed_groups.items) }
    ensures count { IfOk result (λ placed_groups.
        length placed_groups.items ≡ length settings.now.groups.items) }
{
    placed_groups_at(alloc, settings, used, positions)
}

/// The placed groups of all groups, each at its position, or at its first buffer where there is
/// none, over buffers in whose cycles so many blocks are used.
pub(crate) fn placed_groups_at(
    alloc: Global,
    settings: &Buffers,
    used: &[u32],
    positions: &[u32],
) -> Result<Vec<PlacedGroup>, AllocError>
    ensures { IfOk result (λ placed_groups.
        AreEach (IsResumedAt settings.now.buffers.items positions.now used.now)
        settings.now.groups.items placed_groups.items) }
{
    let mut placed_groups = Vec::with_capacity(alloc, settings.groups.len())?;
    for (place, group) in settings.groups.iter().enumerate() {
        let position = at_place(positions, place) as usize;
        placed_groups.push_reserved(PlacedGroup::resume(
            alloc,
            &settings.buffers,
            group,
            position,
            used,
        )?);
    }
    Ok(placed_groups)
}

impl PlacedGroup {
    /// The placed group of a group, at this position of it, over buffers with so many blocks used.
    fn resume(
        alloc: Global,
        all: &[BufferConf],
        group: &GroupConf,
        position: usize,
        used: &[u32],
    ) -> Result<PlacedGroup, AllocError>
        requires { 1 ≤ length
            (group_over (numbered_buffers all.now) (group_view group.now)).buffers }
        ensures { IfOk result (ResumesPlacedGroup
            (group_over (numbered_buffers all.now) (group_view group.now)) position used.now) }
    {
        let Members { numbers, blocks } = members_of(alloc, all, group)?;
        let position = within(position, blocks.len());
        let used = used_by(group.mode, used, number_at(&numbers, position));
        Ok(PlacedGroup {
            group: Group::resume(group.mode, blocks, position, used),
            numbers,
        })
    }
}

/// The position, or the first one where a group of so many buffers hasn't it.
fn within(position: usize, count: usize) -> usize
    requires { 0 < count }
    ensures within { result < count }
    ensures same { position < count → result ≡ position }
{
    if position < count { position } else { 0 }
}

/// The number at this place of a list; 0 where there is none.
fn number_at(numbers: &[usize], place: usize) -> usize
    ensures { result ≡ unwrap_or (slice_get numbers.now place) 0 }
{
    match numbers.get(place) {
        Some(number) => *number,
        None => 0,
    }
}

/// The blocks used of the run of a group whose current buffer has this number: where buffers take
/// turns these are none.
fn used_by(mode: Mode, used: &[u32], number: usize) -> u32
    ensures turns { mode ≡ modes.Interleave → result ≡ 0 }
    ensures filled { mode ≡ modes.Sequential
        → result ≡ unwrap_or (slice_get used.now number) 0 }
{
    match mode {
        Mode::Interleave => 0,
        Mode::Sequential => at_place(used, number),
    }
}

/// What stands at this place of a list; 0 where nothing does.
fn at_place(list: &[u32], place: usize) -> u32
    ensures { result ≡ unwrap_or (slice_get list.now place) 0 }
{
    match list.get(place) {
        Some(one) => *one,
        None => 0,
    }
}

/// The blocks used in the cycle of a buffer: its front less the place at which the cycle begins.
pub fn used_in<S: BlockStore>(buffer: &Buffer<S>) -> u32
    ensures { (trusted : Bool) (h : History) → Agrees trusted buffer.now h → result ≡ used_of h }
{
    let blocks = u64::from(buffer.blocks());
    let begins = u64::from(buffer.cycle()) * blocks;
    buffer.front().saturating_sub(begins).min(blocks) as u32
}
