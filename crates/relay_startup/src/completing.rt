//! A first start that was cut short is completed (docs/PROTOCOL.md, Crashes: what `serve` does).
ghost use Rattle.std.specs.Prelude.{◌≡◌, ◌≢◌, ◌≤◌, [], IfErr, IfOk, OnOk, length, map};
ghost use Rattle.first_start.specs.Completing.{AreCompleted};
ghost use Rattle.relay_folder.specs.Origin.{Starts, origin_view};
ghost use Rattle.buffer_files.specs.Faults.{IsServeFault};

use block_shelf::number_of;
use buffer_files::{Beginning, Looked, unformatted};
use cyc_block::BlockStore;
use first_start::{complete_each, is_cut_short};
use relay_conf::Config;
use relay_folder::Origin;
use relay_report::ServeError;
use std::alloc::Global;

/// What a relay begins over, once a first start of it that was cut short is completed: where no
/// history is kept, nothing was ever kept in any buffer, and one has no head yet, the heads that
/// aren't there are written. So it is one that was killed before anything was stored. Any other is
/// left as it is.
pub fn complete_first<S: BlockStore + Looked + Drop>(
    alloc: Global,
    config: &Config,
    beginning: Beginning<S>,
) -> Result<Beginning<S>, ServeError>
    requires stores { map (λ store. length (S.blocks store)) beginning.stores.items
        ≡ map (λ buffer. buffer.blocks) config.now.buffers.buffers.items }
    ensures origin { IfOk result (λ begun. begun.origin ≡ beginning.origin) }
    ensures left { origin_view beginning.origin ≢ Starts []
        → IfOk result (λ begun. begun.stores.items ≡ beginning.stores.items) }
    ensures completed { IfOk result (λ begun. AreCompleted ⟦<S as BlockStore>⟧
        beginning.stores.items begun.stores.items) }
    ensures stores { IfOk result (λ begun. map (λ store. length (S.blocks store)) begun.stores.items
        ≡ map (λ buffer. buffer.blocks) config.now.buffers.buffers.items) }
    ensures fault { IfErr result (IsServeFault config.now) }
{
    let Beginning {
        stores,
        origin,
        fresh,
    } = beginning;
    match origin {
        Origin::Formatted => Ok(Beginning {
            stores,
            origin: Origin::Formatted,
            fresh,
        }),
        Origin::Stopped(text) => {
            let stores = completed(alloc, config, &text, stores)?;
            Ok(Beginning {
                stores,
                origin: Origin::Stopped(text),
                fresh,
            })
        }
    }
}

/// The stores of a relay of whose last stop this is the text, completed where none is kept and a
/// first start over them was cut short.
fn completed<S: BlockStore + Drop>(
    alloc: Global,
    config: &Config,
    text: &[u8],
    stores: Vec<S>,
) -> Result<Vec<S>, ServeError>
    requires few { length stores.items ≤ 256 }
    ensures left { text.now ≢ [] → IfOk result (λ completed. completed.items ≡ stores.items) }
    ensures completed { IfOk result (λ completed.
        AreCompleted ⟦<S as BlockStore>⟧ stores.items completed.items) }
    ensures blocks { IfOk result (λ completed.
        map (λ store. length (S.blocks store)) completed.items
        ≡ map (λ store. length (S.blocks store)) stores.items) }
    ensures fault { IfErr result (IsServeFault config.now) }
{
    let mut stores = stores;
    match complete(alloc, config, text, &mut stores) {
        Ok(()) => Ok(stores),
        Err(error) => {
            drop(stores);
            Err(error)
        }
    }
}

/// Completes a first start over these stores that was cut short, where no history is kept.
fn complete<S: BlockStore>(
    alloc: Global,
    config: &Config,
    text: &[u8],
    stores: &mut [S],
) -> Result<(), ServeError>
    requires few { length stores.old ≤ 256 }
    ensures left { text.now ≢ [] → stores.new ≡ stores.old }
    ensures completed { OnOk result
        (AreCompleted ⟦<S as BlockStore>⟧ stores.old stores.new) }
    ensures blocks { map (λ store. length (S.blocks store)) stores.new
        ≡ map (λ store. length (S.blocks store)) stores.old }
    ensures fault { IfErr result (IsServeFault config.now) }
{
    if !text.is_empty() {
        return Ok(());
    }
    if !is_cut_short(stores) {
        return Ok(());
    }
    match complete_each(stores) {
        Ok(()) => Ok(()),
        Err(place) => Err(unformatted(alloc, &config.buffers, number_of(place))),
    }
}
