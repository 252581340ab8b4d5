//! What a relay was stopped with is kept.
ghost use Rattle.std.specs.Prelude.{◌≡◌, ◌∷◌, [], Some, All, IfErr, IfOk, OnOk};
ghost use Rattle.std.specs.Prelude.{length, map};
ghost use Rattle.block_shelf.specs.Each.{AreEach};
ghost use Rattle.relay_startup.specs.Keeping.{IsKeptAs, TellsKeeping};
ghost use Rattle.buffer_files.specs.Faults.{IsStopFault};
ghost use Rattle.buffer_files.specs.Synced.{IsUncalled};

use crate::synced::sync_all;
use buffer_files::{Synced, keep_history};
use cyc_block::BlockStore;
use relay_core::Stopped;
use relay_folder::HistoryPlace;
use relay_report::{ServeError, StopFault};

/// Keeps what a relay was stopped with.
pub fn keep_stopped<S: Synced + Drop, H: HistoryPlace>(
    history: &mut H,
    stopped: Stopped<S>,
) -> Result<(), ServeError>
    ensures kept { H.honest history.old
        → OnOk result (H.kept history.new ≡ Some stopped.history.items) }
    ensures lasts { H.honest history.old
        → OnOk result (H.lasting history.new ≡ Some stopped.history.items ∷ []) }
    ensures fault { IfErr result IsStopFault }
{
    let Stopped {
        mut stores,
        history: text,
    } = stopped;
    let kept = keep_synced(history, &mut stores, &text);
    drop(stores);
    drop(text);
    kept
}

/// Keeps what a repair gave: its history once all of its stores are on their devices.
pub fn keep_repaired<S: Synced + Drop, H: HistoryPlace>(
    history: &mut H,
    stopped: Stopped<S>,
) -> Result<Stopped<S>, ServeError>
    ensures stores { IfOk result (λ kept.
        map (λ store. length (S.blocks store)) kept.stores.items
        ≡ map (λ store. length (S.blocks store)) stopped.stores.items) }
    ensures text { IfOk result (λ kept. kept.history.items ≡ stopped.history.items) }
    ensures uncalled { IfOk result (λ kept.
        AreEach (IsUncalled ⟦<S as BlockStore>⟧) stopped.stores.items kept.stores.items) }
    ensures kept { IfOk result (λ kept. IsKeptAs S.is_synced H.HistoryPlace kept.history.items
        kept.stores.items history.old history.new) }
    ensures fault { IfErr result IsStopFault }
{
    let Stopped {
        stores,
        history: text,
    } = stopped;
    let mut stores = stores;
    match keep_synced(history, &mut stores, &text) {
        Ok(()) => Ok(Stopped {
            stores,
            history: text,
        }),
        Err(error) => {
            drop(text);
            drop(stores);
            Err(error)
        }
    }
}

/// Keeps this history of a relay, once the device of each of its stores has all that was written:
/// it is not to speak of blocks that a device hasn't got.
fn keep_synced<S: Synced, H: HistoryPlace>(
    history: &mut H,
    stores: &mut [S],
    text: &[u8],
) -> Result<(), ServeError>
    ensures synced { OnOk result (All S.is_synced stores.new) }
    ensures uncalled { AreEach (IsUncalled ⟦<S as BlockStore>⟧) stores.old stores.new }
    ensures blocks { map (λ store. length (S.blocks store)) stores.new
        ≡ map (λ store. length (S.blocks store)) stores.old }
    ensures told { IfErr result (TellsKeeping S.is_synced H.HistoryPlace text.now stores.new
        history.old history.new) }
    ensures kept { H.honest history.old → OnOk result (H.kept history.new ≡ Some text.now) }
    ensures lasts { H.honest history.old
        → OnOk result (H.lasting history.new ≡ Some text.now ∷ []) }
    ensures fault { IfErr result IsStopFault }
{
    match sync_all(stores) {
        Ok(()) => keep_history(history, text),
        Err(_) => Err(ServeError::Stop(StopFault::Device)),
    }
}
