//! The buffers of a relay behind their locks, in the row that reads go through.
ghost use Rattle.std.specs.Prelude.{◌≡◌, length};
ghost use Rattle.std.specs.Vec.Iter.{into_iter_len};

use crate::locked::{Freed, Held};
use cyc_block::BlockStore;
use live_store::{NumberedBuffer, StorePremises};
use std::alloc::{AllocError, Global};
use std::sync::{Mutex, Wait};
use std::vec::IntoIter;

/// Buffers behind their locks, and the number of each. A lock and its number go in together, and
/// come out together.
#[derive(Drop)]
pub(crate) struct BufferLocks<S: BlockStore + Drop, J: StorePremises> {
    locks: Vec<Mutex<NumberedBuffer<S, J>>>,
    numbers: Vec<usize>,
    ghost as_many: { length locks.items ≡ length numbers.items },
}

/// Those that have still to come out.
#[derive(Drop)]
struct LocksLeft<S: BlockStore + Drop, J: StorePremises> {
    locks: IntoIter<Mutex<NumberedBuffer<S, J>>>,
    numbers: IntoIter<usize>,
    ghost as_many: { into_iter_len locks ≡ into_iter_len numbers },
}

impl<S: BlockStore + Drop, J: StorePremises> BufferLocks<S, J> {
    ghost use Rattle.std.specs.Prelude.{◌≡◌, ◌≤◌, ◌<◌, ◌++◌, ◌∷◌, [], length, map, IfOk};
    ghost use Rattle.std.specs.Prelude.{vec_capacity};
    ghost use Rattle.relay_live.specs.BufferLocks.{HasRoomFor, count_in, lock_room, number_room};
    ghost use Rattle.relay_live.specs.BufferLocks.{numbers_in, numbers_left};
    ghost use Rattle.relay_live.specs.Locked.{AreInOrder, freed_number, held_number};

    /// None yet, with room for so many.
    pub(crate) fn with_room(alloc: Global, count: usize) -> Result<BufferLocks<S, J>, AllocError>
        ensures { IfOk result (HasRoomFor count) }
    {
        let locks = Vec::with_capacity(alloc, count)?;
        let numbers = Vec::with_capacity(alloc, count)?;
        Ok(BufferLocks { locks, numbers })
    }

    /// These buffers behind their locks, each with the number of its place, put where there is room
    /// for them.
    pub(crate) fn over(
        buffers: Vec<NumberedBuffer<S, J>>,
        room: BufferLocks<S, J>,
    ) -> BufferLocks<S, J>
        requires { HasRoomFor (length buffers.items) room }
        ensures order { AreInOrder (numbers_in result) }
        ensures count { count_in result ≡ length buffers.items }
    {
        let mut row = room;
        for buffer in buffers {
            row.push(buffer);
        }
        row
    }

    /// The next buffer goes behind a lock, and has the number of its place.
    fn push(&mut self, buffer: NumberedBuffer<S, J>)
        requires lock_room { count_in self.old < lock_room self.old }
        requires number_room { count_in self.old < number_room self.old }
        ensures numbers { numbers_in self.new ≡ numbers_in self.old ++ count_in self.old ∷ [] }
        ensures rooms { (lock_room self.new ≡ lock_room self.old)
            × (number_room self.new ≡ number_room self.old) }
    {
        self.numbers.push_reserved(self.numbers.len());
        self.locks.push_reserved(Mutex::new(buffer));
    }

    /// How many there are.
    pub(crate) fn len(&self) -> usize
        ensures { result ≡ count_in self.now }
    {
        self.numbers.len()
    }

    /// The locks, in the order of their numbers.
    pub(crate) fn locks(&self) -> &[Mutex<NumberedBuffer<S, J>>]
        ensures { length result.now ≡ count_in self.now }
    {
        self.locks.as_slice()
    }

    /// Takes the lock at this place.
    pub(crate) fn hold<R: Wait>(&self, rt: &R, place: usize) -> Held<'_, NumberedBuffer<S, J>>
        requires within { place < count_in self.now }
        requires order { AreInOrder (numbers_in self.now) }
        ensures { held_number result ≡ place }
    {
        Held::of(self.numbers[place], self.locks[place].lock(rt))
    }

    /// The buffers out of their locks, each with the number of its lock, put where there is room
    /// for them.
    pub(crate) fn free(
        self,
        room: Vec<Freed<NumberedBuffer<S, J>>>,
    ) -> Vec<Freed<NumberedBuffer<S, J>>>
        requires none { room.items ≡ [] }
        requires room { count_in self ≤ vec_capacity room }
        ensures numbers { map freed_number result.items ≡ numbers_in self }
        ensures count { length result.items ≡ count_in self }
    {
        let BufferLocks { locks, numbers } = self;
        let mut values = room;
        let mut left = LocksLeft {
            locks: locks.into_iter(),
            numbers: numbers.into_iter(),
        };
        while let Some(freed) = left.next() {
            values.push_reserved(freed);
        }
        values
    }
}

impl<S: BlockStore + Drop, J: StorePremises> LocksLeft<S, J> {
    ghost use Rattle.std.specs.Prelude.{◌≡◌, ◌∷◌, [], IfSome, IfNone};
    ghost use Rattle.relay_live.specs.BufferLocks.{numbers_left};
    ghost use Rattle.relay_live.specs.Locked.{freed_number};

    /// The next one, which is out.
    fn next(&mut self) -> Option<Freed<NumberedBuffer<S, J>>>
        ensures some { IfSome result (λ freed.
            numbers_left self.old ≡ freed_number freed ∷ numbers_left self.new) }
        ensures none { IfNone result (numbers_left self.old ≡ []) }
    {
        let lock = self.locks.next()?;
        let number = self.numbers.next()?;
        Some(Freed::of(number, lock.into_inner()))
    }
}
