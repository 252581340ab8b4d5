//! What may be seen of the relay without an event.
use crate::system::System;
use cyc_block::BlockStore;

impl<S: BlockStore> System<S> {
    ghost use Rattle.std.specs.Prelude.{◌≡◌, Bool};
    ghost use Rattle.relay_model.specs.Run as run;
    ghost use Rattle.relay_model.specs.World.{World};
    ghost use Rattle.relay_core.specs.Agreement.{Agrees};

    /// Whether the session of this number is here and has Turns.
    pub fn is_running(&self, session: u64) -> bool
        ensures { (trusted : Bool) (x : World) → Agrees trusted self.now x
            → result ≡ run.is_there run.is_running (x.state.session session) }
    {
        self.peers.is_running(session)
    }
}
