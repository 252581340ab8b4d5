//! The positions of groups, taken by name.
ghost use Rattle.std.specs.Prelude.{◌≡◌, ◌<◌, ◌^◌, IfOk, IfSome, length, map};
ghost use Rattle.id_history.specs.Conditions.{are_positions};
ghost use Rattle.named_history.specs.Naming as terms;
ghost use Rattle.named_history.specs.Places.{place_of, under};
ghost use Rattle.relay_names.specs.Views.{group_view};

use crate::places::first_place;
use line_words::{Octets, is};
use relay_names::GroupNames;
use std::alloc::{AllocError, Global};

/// Whether each position is one of its group's buffers.
pub(crate) fn are_positions(positions: &[u32], groups: &[GroupNames]) -> bool
    ensures { result ≡ are_positions positions.now
        (map terms.buffer_count (map group_view groups.now)) }
{
    let mut left = positions;
    let mut others = groups;
    while let Some((position, later)) = left.split_first() {
        let Some((group, more)) = others.split_first() else {
            return false;
        };
        if *position as usize >= group.buffers.len() {
            return false;
        }
        left = later;
        others = more;
    }
    others.is_empty()
}

/// Where a group goes on that had these buffers.
fn turn_by(known: &[Octets], position: u32, own: &[Octets]) -> usize
    ensures { result ≡ terms.turn_by known.now position own.now }
{
    let turn = known.len().min(position as usize);
    let (before, from) = known.split_at(turn);
    match first_place(from, own) {
        Some(place) => place,
        None => first_place(before, own).unwrap_or(0),
    }
}

/// The place of the first group of this name, counted from 0.
fn group_place(name: &[u8], groups: &[GroupNames]) -> Option<usize>
    ensures place { result ≡ place_of name.now (map terms.name_of (map group_view groups.now)) }
    ensures within { IfSome result (λ place. place < length groups.now) }
{
    for place in 0..groups.len() {
        if is(name, groups[place].name.as_slice()) {
            return Some(place);
        }
    }
    None
}

/// The position of one group.
fn position_by(known: &[GroupNames], kept: &[u32], own: &GroupNames) -> usize
    ensures { result ≡ terms.position_of (map group_view known.now) kept.now
        (group_view own.now) }
{
    let Some(place) = group_place(own.name.as_slice(), known) else {
        return 0;
    };
    if place >= kept.len() {
        return 0;
    }
    turn_by(&known[place].buffers, kept[place], &own.buffers)
}

/// The positions of these groups.
pub(crate) fn positions_by(
    alloc: Global,
    known: &[GroupNames],
    kept: &[u32],
    own: &[GroupNames],
) -> Result<Vec<u32>, AllocError>
    ensures positions { IfOk result (λ positions. positions.items
        ≡ terms.positions_by (map group_view known.now) kept.now (map group_view own.now)) }
    ensures count { IfOk result (λ positions. length positions.items < 2 ^ 32) }
{
    if own.len() > u32::MAX as usize {
        return Err(AllocError);
    }
    let mut positions = Vec::with_capacity(alloc, own.len())?;
    for group in own {
        let Ok(position) = u32::try_from(position_by(known, kept, group)) else {
            return Err(AllocError);
        };
        positions.push(position)?;
    }
    Ok(positions)
}
