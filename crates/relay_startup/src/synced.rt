//! Stores whose devices are had take what was written.
ghost use Rattle.std.specs.Prelude.{◌≡◌, All, Any, OnErr, OnOk, length, map};
ghost use Rattle.block_shelf.specs.Each.{AreEach};
ghost use Rattle.buffer_files.specs.Synced.{IsUncalled};

use buffer_files::Synced;
use cyc_block::{BlockStore, DeviceFailed};

/// Has the device of each store take all that was written, one after the other, up to the first
/// that fails.
pub(crate) fn sync_all<S: Synced>(stores: &mut [S]) -> Result<(), DeviceFailed>
    ensures synced { OnOk result (All S.is_synced stores.new) }
    ensures failed { OnErr result (Any (λ store. ¬ S.is_synced store) stores.new) }
    ensures uncalled { AreEach (IsUncalled ⟦<S as BlockStore>⟧) stores.old stores.new }
    ensures blocks { map (λ store. length (S.blocks store)) stores.new
        ≡ map (λ store. length (S.blocks store)) stores.old }
{
    for store in stores.iter_mut() {
        store.sync()?;
    }
    Ok(())
}
