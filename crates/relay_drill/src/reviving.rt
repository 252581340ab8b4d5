//! A crash: the relay is killed, repaired and started (docs/PROTOCOL.md, Crashes).
ghost use Rattle.std.specs.Prelude.{◌≡◌, ⊤, true};
ghost use Rattle.relay_drill.specs.Crashing.{AreSized, HoldSame, RevivesTo, StartsOf};
ghost use Rattle.relay_drill.specs.Fault.{PlayGives, unrepaired_as};

use crate::fault::DrillError;
use crate::life::{Life, Store};
use crate::power::Supply;
use block_shelf::StopFault;
use cyc_block::BlockStore;
use relay_conf::{BufferConf, Config};
use relay_core::{LeftBehind, NotStarted, Stopped, System};
use relay_repair::repair;
use std::alloc::Global;
use std::io::ErrorKind;
use std::random::RandomSource;

/// The relay is killed, and repaired and started at this moment: from what the devices had when the
/// power went, where it is gone. From then on there is power again.
pub fn revive(
    rt: &impl RandomSource,
    alloc: Global,
    life: Life,
    supply: &Supply,
    now: u64,
) -> Result<Life, DrillError>
    ensures { PlayGives result (λ new. RevivesTo now life.relay new.relay) ⊤ ⊥ ⊤ }
{
    let Life {
        relay,
        history,
        earlier,
    } = life;
    let stop = relay.stop();
    match relay.kill() {
        Ok(LeftBehind { config, mut stores }) => {
            let last = last_history(&mut stores, stop, history, earlier);
            supply.renew();
            revive_stores(rt, alloc, config, stores, last, now)
        }
        Err(relay) => {
            relay.let_go();
            drop(history);
            drop(earlier);
            Err(DrillError::Memory)
        }
    }
}

/// The head blocks of each store are as they were when the power went.
fn take_back(stores: &mut [Store])
    ensures { HoldSame ⟦<Store as BlockStore>⟧ stores.old stores.new }
{
    for place in 0..stores.len() {
        stores[place].take_back();
    }
}

/// The history of the last stop that each head tells of, of this stop and the one before it: of the
/// heads as they were when the power went.
fn last_history(
    stores: &mut [Store],
    stop: u64,
    history: Option<Vec<u8>>,
    earlier: Option<Vec<u8>>,
) -> Option<Vec<u8>>
    ensures { HoldSame ⟦<Store as BlockStore>⟧ stores.old stores.new }
{
    take_back(stores);
    if is_any_before(stores, stop) {
        drop(history);
        return earlier;
    }
    drop(earlier);
    history
}

/// Whether the head of a store is of an earlier stop than this.
fn is_any_before(stores: &mut [Store], stop: u64) -> bool
    ensures { HoldSame ⟦<Store as BlockStore>⟧ stores.old stores.new }
{
    let mut is_any = false;
    for place in 0..stores.len() {
        if stores[place].is_before(stop) {
            is_any = true;
        }
    }
    is_any
}

/// The relay that was left on these stores, repaired and started.
fn revive_stores(
    rt: &impl RandomSource,
    alloc: Global,
    config: Config,
    stores: Vec<Store>,
    last: Option<Vec<u8>>,
    now: u64,
) -> Result<Life, DrillError>
    ensures { PlayGives result (λ new.
        StartsOf ⟦<Store as BlockStore>⟧ config stores.items now new.relay) ⊤ ⊥ ⊤ }
{
    if !are_sized(&stores, &config.buffers.buffers) {
        drop(config);
        drop(stores);
        drop(last);
        return Err(DrillError::Unrepaired);
    }
    let stopped = match repair(rt, alloc, &config, stores, last.as_deref(), now) {
        Ok(stopped) => stopped,
        Err(why) => {
            drop(config);
            drop(last);
            return Err(unrepaired(why));
        }
    };
    let Stopped { stores, history } = stopped;
    match System::start(rt, alloc, config, stores, &history) {
        Ok(relay) => Ok(Life {
            relay,
            history: Some(history),
            earlier: last,
        }),
        Err(why) => {
            drop(history);
            drop(last);
            Err(unrepaired(why))
        }
    }
}

/// Whether there is a store for each of the buffers, of its blocks.
fn are_sized(stores: &[Store], buffers: &[BufferConf]) -> bool
    ensures { result ≡ true → AreSized ⟦<Store as BlockStore>⟧ stores.now buffers.now }
{
    if stores.len() != buffers.len() {
        return false;
    }
    for (place, buffer) in buffers.iter().enumerate() {
        if stores[place].count() != buffer.blocks {
            return false;
        }
    }
    true
}

/// Why a drill ends whose relay isn't repaired and started.
fn unrepaired(why: NotStarted<Store>) -> DrillError
    ensures { result ≡ unrepaired_as why }
{
    match why {
        NotStarted::Host(error, _stores) => match error.kind() {
            ErrorKind::OutOfMemory => DrillError::Memory,
            _ => DrillError::Unrepaired,
        },
        NotStarted::Refused(unstarted) => match unstarted.error {
            StopFault::Memory => DrillError::Memory,
            _ => DrillError::Unrepaired,
        },
    }
}
