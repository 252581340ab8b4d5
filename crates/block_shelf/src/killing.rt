//! A buffer set whose program is killed: its stores stay as they are.
ghost use Rattle.std.specs.Prelude.{◌≡◌, IfErr, IfOk};
ghost use Rattle.block_shelf.specs.Killing.{LeavesStores, stores_of};

use crate::buffer_set::BufferSet;
use crate::giving::give_up;
use cyc_block::BlockStore;
use std::alloc::Global;

impl<S: BlockStore + Drop> BufferSet<S> {
    /// The stores as they are, in the order of the buffers: no device is called. The memory for
    /// their list is taken first; where it is refused the buffer set comes back as it was.
    pub fn kill(self, alloc: Global) -> Result<Vec<S>, BufferSet<S>>
        ensures stores { IfOk result (λ stores. stores.items ≡ stores_of self) }
        // A crash may leave them, of each state that was kept.
        ensures left { IfOk result (λ stores. LeavesStores self stores.items) }
        ensures back { IfErr result (λ back. back ≡ self) }
    {
        let Ok(room) = Vec::with_capacity(alloc, self.buffers.len()) else {
            return Err(self);
        };
        let BufferSet { buffers, .. } = self;
        Ok(give_up(buffers, room))
    }
}
