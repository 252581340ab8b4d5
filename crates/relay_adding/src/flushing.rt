//! Buffers are added, and their devices take them.
ghost use Rattle.std.specs.Prelude.{◌≡◌, ◌≤◌, ◌+◌, ℕ, List, length, All, IfErr, IfOk, OnOk};
ghost use Rattle.relay_adding.specs.Flushing.{IsAmong, IsOfAdded};
ghost use Rattle.relay_adding.specs.Making.{AreAdded, IsUnadded};

use crate::making::add_buffers;
use block_shelf::BufferSetError;
use cyc_block::{BlockStore, DeviceFailed};
use file_blocks::FileBlocks;
use std::alloc::Global;

/// A store whose device can be had to take what was written.
pub trait Flush {
    /// The device has all that was written.
    ghost flushed: { Self → Type 0 };

    /// Has the device take all that was written.
    fn flush(&self) -> Result<(), DeviceFailed>
        ensures { OnOk result (flushed self.now) };
}

impl Flush for FileBlocks {
    // Of a file of the machine nothing is promised.
    ghost flushed = { λ store. Unit {0} };

    fn flush(&self) -> Result<(), DeviceFailed> {
        self.sync()
    }
}

/// Why buffers aren't added.
#[derive(Clone, Copy)]
pub enum Unadded {
    /// Memory was refused.
    Memory,
    /// The device of the buffer of this number failed.
    Device(u8),
}

/// Makes a buffer on each of these stores, as a stop of this number leaves one in which nothing was
/// begun, and has their devices take them. The first of them has this number.
pub fn add_each<S: BlockStore + Flush + Drop>(
    alloc: Global,
    stores: Vec<S>,
    first: usize,
    stop: u64,
) -> Result<Vec<S>, Unadded>
    requires { first + length stores.items ≤ 256 }
    ensures added { IfOk result (λ left.
        AreAdded ⟦<S as BlockStore>⟧ first stop stores.items left.items) }
    ensures flushed { IfOk result (λ left. All S.flushed left.items) }
    ensures fault { IfErr result (IsOfAdded first (length stores.items)) }
{
    match add_buffers(alloc, stores, first, stop) {
        Ok(left) => flush_all(left, first),
        Err(error) => Err(refusal_of(error)),
    }
}

/// Why buffers aren't added where they aren't made.
fn refusal_of<S: BlockStore + Drop>(error: BufferSetError<S>) -> Unadded
    ensures { (first : ℕ) (stores : List S) → IsUnadded ⟦<S as BlockStore>⟧ first stores error
        → IsOfAdded first (length stores) result }
{
    match error {
        BufferSetError::Memory => Unadded::Memory,
        BufferSetError::Device(number, store) => {
            drop(store);
            Unadded::Device(number)
        }
    }
}

/// The stores, whose devices have taken what was written. The first of them is of the buffer of
/// this number.
fn flush_all<S: Flush + Drop>(stores: Vec<S>, first: usize) -> Result<Vec<S>, Unadded>
    requires { first + length stores.items ≤ 256 }
    ensures same { IfOk result (λ all. all ≡ stores) }
    ensures flushed { IfOk result (λ all. All S.flushed all.items) }
    ensures fault { IfErr result (IsOfAdded first (length stores.items)) }
{
    match flush_each(&stores, first) {
        Ok(()) => Ok(stores),
        Err(number) => {
            drop(stores);
            Err(Unadded::Device(number))
        }
    }
}

/// Has the device of each store take what was written. The first of them is of the buffer of this
/// number; the error is the number of the one whose device failed.
fn flush_each<S: Flush>(stores: &[S], first: usize) -> Result<(), u8>
    requires { first + length stores.now ≤ 256 }
    ensures flushed { OnOk result (All S.flushed stores.now) }
    ensures fault { IfErr result (IsAmong first (length stores.now)) }
{
    for place in 0..stores.len() {
        if stores[place].flush().is_err() {
            return Err((first + place) as u8);
        }
    }
    Ok(())
}
