//! The parts of a relay go behind their locks, and come out again.
ghost use Rattle.std.specs.Prelude.{◌≡◌, ◌≤◌, [], length, map, IfOk, vec_capacity};
ghost use Rattle.relay_live.specs.Locked.{AreInOrder, freed_number, freed_value};
ghost use Rattle.relay_live.specs.Locked.{number_of};
ghost use Rattle.relay_live.specs.Locking.{HasFreeRoom, HasLockRoom, HasLocks, HasRoom};

use crate::buffer_locks::BufferLocks;
use crate::claims::Claims;
use crate::forgetting::Rounds;
use crate::locked::{Freed, LockOf, Locked};
use crate::pausing::Pausing;
use crate::slot::Slot;
use block_shelf::PlacedGroup;
use cyc_block::BlockStore;
use id_history::SHARD_COUNT;
use live_store::{NumberedBuffer, StorePremises};
use post_history::{Naming, RememberingShard};
use std::alloc::{AllocError, Global};
use std::sync::Mutex;

/// Room for the shards, the buffers and the groups of a relay.
#[derive(Drop)]
pub(crate) struct Room<A: Drop, B: Drop, C: Drop> {
    pub(crate) shards: Vec<A>,
    pub(crate) buffers: Vec<B>,
    pub(crate) placed_groups: Vec<C>,
}

/// A shard behind its lock, with those who wait for it.
pub(crate) type LockedShard<J> = Locked<RememberingShard<J>, Claims<J>>;

/// A group behind its lock.
pub(crate) type LockedGroup = Locked<PlacedGroup, Mutex<PlacedGroup>>;

/// Room for them behind their locks.
#[derive(Drop)]
pub(crate) struct LockRoom<S: BlockStore + Drop, J: StorePremises + Naming> {
    pub(crate) shards: Vec<LockedShard<J>>,
    pub(crate) buffers: BufferLocks<S, J>,
    pub(crate) placed_groups: Vec<LockedGroup>,
}

/// Room for them as they come out of their locks, and for them alone.
#[derive(Drop)]
pub(crate) struct FreeRoom<S: BlockStore + Drop, J: StorePremises + Naming> {
    pub(crate) freed: Room<
        Freed<RememberingShard<J>>,
        Freed<NumberedBuffer<S, J>>,
        Freed<PlacedGroup>,
    >,
    pub(crate) parts: Room<RememberingShard<J>, NumberedBuffer<S, J>, PlacedGroup>,
}

/// Room for the locks of a relay's parts, with what stands beside these: a slot for each end, what
/// rounds go by, and whether no new articles are taken.
#[derive(Drop)]
pub(crate) struct Locks<S: BlockStore + Drop, J: StorePremises + Naming> {
    pub(crate) rooms: LockRoom<S, J>,
    pub(crate) slots: Vec<Slot<J>>,
    pub(crate) rounds: Mutex<Rounds>,
    pub(crate) pausing: Pausing,
}

impl<A: Drop, B: Drop, C: Drop> Room<A, B, C> {
    /// Room for all shards, and for so many buffers and groups.
    pub(crate) fn new(
        alloc: Global,
        buffers: usize,
        placed_groups: usize,
    ) -> Result<Room<A, B, C>, AllocError>
        ensures { IfOk result (HasRoom buffers placed_groups) }
    {
        let (shards, buffers, placed_groups) = rooms(alloc, SHARD_COUNT, buffers, placed_groups)?;
        Ok(Room {
            shards,
            buffers,
            placed_groups,
        })
    }
}

impl<S: BlockStore + Drop, J: StorePremises + Naming> LockRoom<S, J> {
    /// Room for all shards, and for so many buffers and groups.
    pub(crate) fn new(
        alloc: Global,
        buffers: usize,
        placed_groups: usize,
    ) -> Result<LockRoom<S, J>, AllocError>
        ensures { IfOk result (HasLockRoom buffers placed_groups) }
    {
        let shards = Vec::with_capacity(alloc, SHARD_COUNT)?;
        let buffers = BufferLocks::with_room(alloc, buffers)?;
        let placed_groups = Vec::with_capacity(alloc, placed_groups)?;
        Ok(LockRoom {
            shards,
            buffers,
            placed_groups,
        })
    }
}

impl<S: BlockStore + Drop, J: StorePremises + Naming> FreeRoom<S, J> {
    /// Room for all shards, and for so many buffers and groups.
    pub(crate) fn new(
        alloc: Global,
        buffers: usize,
        placed_groups: usize,
    ) -> Result<FreeRoom<S, J>, AllocError>
        ensures { IfOk result (HasFreeRoom buffers placed_groups) }
    {
        let freed = Room::new(alloc, buffers, placed_groups)?;
        let parts = Room::new(alloc, buffers, placed_groups)?;
        Ok(FreeRoom { freed, parts })
    }
}

/// Room for so many of three kinds.
pub(crate) fn rooms<A: Drop, B: Drop, C: Drop>(
    alloc: Global,
    one: usize,
    other: usize,
    third: usize,
) -> Result<(Vec<A>, Vec<B>, Vec<C>), AllocError>
    ensures none { IfOk result (λ rooms.
        (rooms.0.items ≡ []) × (rooms.1.items ≡ []) × (rooms.2.items ≡ [])) }
    ensures room { IfOk result (λ rooms. (one ≤ vec_capacity rooms.0)
        × (other ≤ vec_capacity rooms.1) × (third ≤ vec_capacity rooms.2)) }
{
    let of_one = Vec::with_capacity(alloc, one)?;
    let of_other = Vec::with_capacity(alloc, other)?;
    let of_third = Vec::with_capacity(alloc, third)?;
    Ok((of_one, of_other, of_third))
}

impl<S: BlockStore + Drop, J: StorePremises + Naming> Locks<S, J> {
    /// For so many buffers, groups and ends, before the first round.
    pub(crate) fn new(
        alloc: Global,
        buffers: usize,
        placed_groups: usize,
        ends: usize,
    ) -> Result<Locks<S, J>, AllocError>
        ensures { IfOk result (HasLocks buffers placed_groups ends) }
    {
        let slots = new_slots(alloc, ends)?;
        let rounds = Rounds::new(alloc)?;
        let rooms = LockRoom::new(alloc, buffers, placed_groups)?;
        Ok(Locks {
            rooms,
            slots,
            rounds: Mutex::new(rounds),
            pausing: Pausing::new(),
        })
    }
}

/// So many empty slots.
fn new_slots<J: StorePremises>(alloc: Global, ends: usize) -> Result<Vec<Slot<J>>, AllocError>
    ensures { IfOk result (λ slots. length slots.items ≡ ends) }
{
    let mut slots = Vec::with_capacity(alloc, ends)?;
    for _end in 0..ends {
        slots.push_reserved(Slot::new());
    }
    Ok(slots)
}

/// Values behind their locks, each with the number of its place, put where there is room for them.
pub(crate) fn lock_all<T: Drop, K: LockOf<T> + Drop>(
    values: Vec<T>,
    room: Vec<Locked<T, K>>,
) -> Vec<Locked<T, K>>
    requires none { room.items ≡ [] }
    requires room { length values.items ≤ vec_capacity room }
    ensures order { AreInOrder (map number_of result.items) }
    ensures count { length result.items ≡ length values.items }
{
    let mut locks = room;
    for value in values {
        locks.push_reserved(Locked::over(locks.len(), value));
    }
    locks
}

/// Values out of their locks, each with the number of its lock, put where there is room for them.
pub(crate) fn free_all<T: Drop, K: LockOf<T> + Drop>(
    locks: Vec<Locked<T, K>>,
    room: Vec<Freed<T>>,
) -> Vec<Freed<T>>
    requires none { room.items ≡ [] }
    requires room { length locks.items ≤ vec_capacity room }
    ensures numbers { map freed_number result.items ≡ map number_of locks.items }
    ensures count { length result.items ≡ length locks.items }
{
    let mut values = room;
    for locked in locks {
        values.push_reserved(locked.free());
    }
    values
}

/// Values that came out of their locks in order, put where there is room for them.
pub(crate) fn values_of<T: Drop>(freed: Vec<Freed<T>>, room: Vec<T>) -> Vec<T>
    requires order { AreInOrder (map freed_number freed.items) }
    requires none { room.items ≡ [] }
    requires room { length freed.items ≤ vec_capacity room }
    ensures values { result.items ≡ map freed_value freed.items }
    ensures count { length result.items ≡ length freed.items }
{
    let mut values = room;
    for one in freed {
        values.push_reserved(one.into_value());
    }
    values
}
