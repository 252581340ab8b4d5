//! The relay over stores that fail on purpose.
ghost use Rattle.relay_core.specs.Arming.{AgreesStill, Arms, StaysLeft};
ghost use Rattle.relay_core.specs.Sharing.{KeepsFrame};

use crate::system::System;
use cyc_block::{BlockStore, FailAt};

impl<S: BlockStore> System<FailAt<S>> {
    /// From here call number k of the store of this buffer fails, once, counted from 1; with 0 none
    /// does. A call that was to fail before no longer is. Where there is no such buffer nothing is
    /// armed.
    pub fn arm(&mut self, buffer: usize, k: u64)
        ensures armed { Arms buffer k self.old self.new }
        // No world can tell that it was armed.
        ensures agrees { AgreesStill self.old self.new }
        ensures leaves { StaysLeft self.old self.new }
        ensures frame { KeepsFrame self.old self.new }
    {
        self.buffer_set.arm(buffer, k);
    }
}
