//! A buffer set whose stores fail on purpose.
ghost use Rattle.block_shelf.specs.Arming.{Arms};
ghost use Rattle.block_shelf.specs.Calls.{KeepsAll};
ghost use Rattle.block_shelf.specs.Devices.{CallsNone};

use crate::buffer_set::BufferSet;
use cyc_block::{BlockStore, FailAt};

impl<S: BlockStore> BufferSet<FailAt<S>> {
    /// From here call number k of the store of the buffer of this number fails, once, counted from
    /// 1; with 0 none does. A call that was to fail before no longer is. Where there is no such
    /// buffer nothing is armed.
    pub fn arm(&mut self, number: usize, k: u64)
        ensures armed { Arms number k self.old self.new }
        // All that was kept still is.
        ensures kept { KeepsAll self.old self.new }
        ensures calls { CallsNone self.old self.new }
    {
        match self.buffers.get_mut(number) {
            Some(buffer) => buffer.arm(k),
            None => {}
        }
    }
}
