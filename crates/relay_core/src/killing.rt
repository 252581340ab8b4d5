//! The relay, where its program is killed: its stores stay as they are (docs/PROTOCOL.md, Crashes).
use crate::stopped::LeftBehind;
use crate::system::System;
use cyc_block::BlockStore;

impl<S: BlockStore + Drop> System<S> {
    ghost use Rattle.std.specs.Prelude.{◌≡◌, IfErr, IfOk};
    ghost use Rattle.relay_core.specs.Killing.{LeavesKilled};

    /// The stores of its buffers, in their order, whatever it is at, and its settings: no device is
    /// called, and all else is let go. The memory for the stores' list is taken first; where it is
    /// refused the relay comes back as it was.
    pub fn kill(self) -> Result<LeftBehind<S>, System<S>>
        ensures config { IfOk result (λ killed. killed.config ≡ self.config) }
        ensures left { IfOk result (λ killed. LeavesKilled self killed.stores.items) }
        ensures back { IfErr result (λ back. back ≡ self) }
    {
        let alloc = self.alloc;
        let (buffer_set, unbuffered) = self.take_apart();
        match buffer_set.kill(alloc) {
            Ok(stores) => {
                let config = unbuffered.into_config();
                Ok(LeftBehind { config, stores })
            }
            Err(buffer_set) => Err(unbuffered.with(buffer_set)),
        }
    }
}
