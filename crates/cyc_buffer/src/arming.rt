//! A buffer whose store fails on purpose.
ghost use Rattle.cyc_buffer.specs.Agreement.{Follows};
ghost use Rattle.cyc_buffer.specs.Arming.{Arms};

use crate::buffer::Buffer;
use cyc_block::{BlockStore, FailAt};

impl<S: BlockStore> Buffer<FailAt<S>> {
    /// From here call number k of the buffer's store fails, once, counted from 1; with 0 none does.
    /// A call that was to fail before no longer is.
    pub fn arm(&mut self, k: u64)
        ensures armed { Arms k self.old self.new }
        // It agrees with the same histories, whether its store is trusted or not.
        ensures same { Follows (λ h. h) self.old self.new }
    {
        self.store.arm(k);
    }
}
