//! Whose turn it is in each group of a relay that is found again.
ghost use Rattle.std.specs.Prelude.{◌≡◌, ◌^◌, ◌<◌, ◌≤◌, if◌then◌else◌, nat_lt, length, map, IfOk};
ghost use Rattle.relay_conf.specs.Places.{group_over, group_view, mode_view, numbered_buffers};
ghost use Rattle.relay_conf.specs.Settings.{places_of_groups};
ghost use Rattle.relay_remains.specs.Positions.{ArePositionsAgain, IsLatest, IsPositionIn};
ghost use Rattle.relay_remains.specs.Positions.{cycles_in, kept_position, newest_cycle};

use buffer_repair::FoundBufferSet;
use cyc_block::BlockStore;
use id_history::History;
use relay_conf::{BufferConf, Buffers, GroupConf, Mode};
use std::alloc::{AllocError, Global};

/// The position of each group: one that goes from buffer to buffer goes on where the history has
/// it, or at its first one, and one that fills one after the other in the buffer of its latest run.
pub fn positions_again<S: BlockStore + Drop>(
    alloc: Global,
    settings: &Buffers,
    old: Option<&History>,
    found_set: &FoundBufferSet<S>,
) -> Result<Vec<u32>, AllocError>
    ensures { IfOk result (λ positions. ArePositionsAgain (places_of_groups settings.now) old.entry
        found_set.now positions.items) }
{
    let mut positions = Vec::with_capacity(alloc, settings.groups.len())?;
    for (place, group) in settings.groups.iter().enumerate() {
        let cycles = newest_cycles(alloc, &settings.buffers, group, found_set)?;
        positions.push_reserved(position_again(group.mode, &cycles, kept_position(old, place)));
    }
    Ok(positions)
}

/// The position that the history has of the group at this place, or its first one.
fn kept_position(old: Option<&History>, place: usize) -> u32
    ensures { result ≡ kept_position old.entry place }
{
    match old {
        Some(old) => old.positions.get(place).copied().unwrap_or(0),
        None => 0,
    }
}

/// Of each buffer of a group the cycle of the newest article that is found in it, if one is.
fn newest_cycles<S: BlockStore + Drop>(
    alloc: Global,
    all: &[BufferConf],
    group: &GroupConf,
    found_set: &FoundBufferSet<S>,
) -> Result<Vec<Option<u32>>, AllocError>
    requires { length all.now ≤ 256 }
    ensures { IfOk result (λ cycles. cycles.items ≡ cycles_in found_set.now
        (group_over (numbered_buffers all.now) (group_view group.now)).buffers) }
{
    let mut cycles = Vec::with_capacity(alloc, group.buffers.len())?;
    for number in &group.buffers {
        if *number < all.len() {
            cycles.push_reserved(newest_cycle(found_set, *number as u8));
        }
    }
    Ok(cycles)
}

/// The cycle of the newest article that is found in the buffer of this number.
fn newest_cycle<S: BlockStore + Drop>(found_set: &FoundBufferSet<S>, number: u8) -> Option<u32>
    ensures { result ≡ newest_cycle found_set.now number }
{
    let count = found_set.token_count(number);
    let newest = found_set.token(number, count.saturating_sub(1))?;
    Some(newest.cycle)
}

/// The position of a group of this mode in whose buffers the newest articles are of these cycles,
/// where the history has this one.
fn position_again(mode: Mode, cycles: &[Option<u32>], kept: u32) -> u32
    requires some { 1 ≤ length cycles.now }
    requires few { length cycles.now ≤ 2 ^ 8 }
    ensures is { IsPositionIn (mode_view mode) cycles.now kept result }
    ensures within { result < length cycles.now }
{
    match mode {
        Mode::Interleave => within(kept, cycles.len()),
        Mode::Sequential => latest(cycles) as u32,
    }
}

/// The position, or the first one where a group of so many buffers hasn't it.
fn within(position: u32, count: usize) -> u32
    ensures { result ≡ (if nat_lt position count then position else 0) }
{
    if (position as usize) < count {
        position
    } else {
        0
    }
}

/// The place of the latest of these cycles, the last of equal ones; the first place where there is
/// none.
fn latest(cycles: &[Option<u32>]) -> usize
    ensures latest { IsLatest cycles.now result }
    ensures within { 1 ≤ length cycles.now → result < length cycles.now }
{
    let mut latest = 0;
    let mut cycle = 0;
    for (place, newest) in cycles.iter().enumerate() {
        if let Some(found) = *newest {
            if found >= cycle {
                cycle = found;
                latest = place;
            }
        }
    }
    latest
}
