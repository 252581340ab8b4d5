//! How a buffer set is stopped: each of its buffers says on its store what it keeps.
ghost use Rattle.std.specs.Prelude.{◌≡◌, ◌<◌, ◌+◌, ◌^◌, true, false, IfErr, IfOk};
ghost use Rattle.std.specs.Prelude.{vec_len, vec_capacity};
ghost use Rattle.block_shelf.specs.Stopping.{AreIdle, AreShut, HoldsKept, HoldsKeptLeft};
ghost use Rattle.block_shelf.specs.Stopping.{IsBusyAnswer, LeavesNext};
ghost use Rattle.block_shelf.specs.Stopping.{TellsPositions};
ghost use Rattle.block_shelf.specs.Stopping.{IsBusyBufferSet, IsUnshut, StopsNext, TellsPosition};

use crate::buffer_set::{BufferSet, PlacedGroup};
use cyc_block::BlockStore;
use cyc_buffer::Buffer;
use std::alloc::{AllocError, Global};

/// Why a buffer set isn't stopped, in the order of trial.
#[derive(Drop)]
pub enum Unshut<S: BlockStore> {
    /// A write is open in one of its buffers; the buffer set, as it was.
    Busy(BufferSet<S>),
    /// Memory was refused for the list of its stores; the buffer set, as it was.
    Memory(BufferSet<S>),
    /// The device of the buffer of this number failed; all stores, in the order of their buffers.
    Device(u8, Vec<S>),
}

impl PlacedGroup {
    /// The place of the group's current buffer in it, counted from 0.
    pub fn position(&self) -> u32
        ensures { TellsPosition 0 self.now result }
    {
        u32::try_from(self.group.position()).unwrap_or(u32::MAX)
    }
}

impl<S: BlockStore> BufferSet<S> {
    /// The place of the current buffer of each group in it, counted from 0.
    pub fn positions(&self, alloc: Global) -> Result<Vec<u32>, AllocError>
        ensures { IfOk result (λ positions. TellsPositions self.now positions.items) }
    {
        let mut positions = Vec::with_capacity(alloc, self.placed_groups.len())?;
        for placed_group in &self.placed_groups {
            positions.push_reserved(placed_group.position());
        }
        Ok(positions)
    }

    /// Whether a write is open in one of its buffers.
    pub(crate) fn is_busy(&self) -> bool
        ensures busy { result ≡ true → IsBusyBufferSet self.now }
        ensures idle { result ≡ false → AreIdle self.now }
    {
        for buffer in &self.buffers {
            if buffer.is_busy() {
                return true;
            }
        }
        false
    }

    /// Stops each buffer under this number, and gives their stores, in their order. The memory for
    /// their list is taken before a device is called.
    pub fn shut(self, alloc: Global, stop: u64) -> Result<Vec<S>, Unshut<S>>
    where
        S: Drop,
        // What was kept over honest stores is held by them, where no write was open.
        ensures held { IfOk result (λ stores. HoldsKept stop self stores.items) }
        ensures shut { IfOk result (λ stores. AreShut stop self stores.items) }
        // A crash may leave them, where it may have left those that the buffer set had.
        ensures left { IfOk result (λ stores. HoldsKeptLeft stop self stores.items) }
        ensures refusal { IfErr result (IsUnshut self) }
        // A buffer set with an open write is refused as Busy.
        ensures busy { IsBusyBufferSet self → IsBusyAnswer result }
    {
        if self.is_busy() {
            return Err(Unshut::Busy(self));
        }
        let Ok(mut stores) = Vec::with_capacity(alloc, self.buffers.len()) else {
            return Err(Unshut::Memory(self));
        };
        let BufferSet { buffers, .. } = self;
        let mut failed = None;
        for buffer in buffers {
            failed = shut_next(buffer, stop, failed, &mut stores);
        }
        match failed {
            Some(place) => Err(Unshut::Device(number_of(place), stores)),
            None => Ok(stores),
        }
    }
}

/// Stops the next buffer where none before it has failed, and puts its store behind those of the
/// buffers before it. The place of the buffer that has failed.
fn shut_next<S: BlockStore>(
    buffer: Buffer<S>,
    stop: u64,
    failed: Option<usize>,
    stores: &mut Vec<S>,
) -> Option<usize>
    requires { vec_len stores.old < vec_capacity stores.old }
    ensures stops { StopsNext stop buffer failed stores.old.items result stores.new.items }
    // Whether it is stopped or not, its store is as it was but for its head blocks.
    ensures leaves { LeavesNext buffer stores.old.items stores.new.items }
    ensures count { vec_len stores.new ≡ vec_len stores.old + 1 }
    ensures room { vec_capacity stores.new ≡ vec_capacity stores.old }
{
    if failed.is_some() {
        stores.push_reserved(buffer.into_store());
        return failed;
    }
    match buffer.shut(stop) {
        Ok(store) => {
            stores.push_reserved(store);
            None
        }
        Err(unstopped) => {
            let place = stores.len();
            stores.push_reserved(unstopped.buffer.into_store());
            Some(place)
        }
    }
}

/// The number of the buffer at this place of a buffer set.
pub fn number_of(place: usize) -> u8
    ensures { place < 2 ^ 8 → result ≡ place }
{
    u8::try_from(place).unwrap_or(u8::MAX)
}
