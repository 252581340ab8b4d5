//! Stores whose devices have what was written to them, or don't.
ghost use Rattle.std.specs.Prelude.{◌≡◌, ℕ, OnErr, OnOk, length};
ghost use Rattle.buffer_files.specs.Synced.{IsUncalled};

use cyc_block::{BlockStore, DeviceFailed};

/// A store of which is known whether its device has what was written.
pub trait Synced: BlockStore {
    /// The device was had take all that was written, and has said that it did.
    ghost is_synced: { Self → Type 0 };

    /// Has the device take all that was written. Nothing is read or written.
    fn sync(&mut self) -> Result<(), DeviceFailed>
        ensures synced { OnOk result (is_synced self.new) }
        ensures failed { OnErr result (¬ is_synced self.new) }
        ensures uncalled { (number : ℕ)
            → IsUncalled ⟦<Self as BlockStore>⟧ number self.old self.new }
        ensures blocks { length (Self.blocks self.new) ≡ length (Self.blocks self.old) };
}
