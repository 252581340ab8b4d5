//! How a relay goes on that a crash has left: it is repaired and started.
ghost use Rattle.std.specs.Prelude.{◌≡◌, length, map, IfErr, IfOk};
ghost use Rattle.relay_repair.specs.Reviving.{IsUnrevived, Revives};
ghost use Rattle.relay_repair.specs.Telling.{octets_in};

use crate::repairing::repair;
use cyc_block::BlockStore;
use relay_conf::Config;
use relay_core::{NotStarted, Stopped, System};
use std::alloc::Global;
use std::random::RandomSource;

/// The relay that was left on these stores, the i-th that of buffer i, repaired and started.
pub fn revive<S: BlockStore + Drop>(
    rt: &impl RandomSource,
    alloc: Global,
    config: Config,
    stores: Vec<S>,
    text: Option<&[u8]>,
    now: u64,
) -> Result<System<S>, NotStarted<S>>
    requires { map (λ store. length (S.blocks store)) stores.items
        ≡ map (λ buffer. buffer.blocks) config.buffers.buffers.items }
    // For each state in which the relay was it agrees with what a start makes of a crash of it, and
    // a crash may leave it again.
    ensures revived { IfOk result (Revives ⟦<S as BlockStore>⟧ config stores.items
        (octets_in text.entry) now) }
    ensures refused { IfErr result (IsUnrevived ⟦<S as BlockStore>⟧ config stores.items
        (octets_in text.entry) now) }
{
    let stopped = match repair(rt, alloc, &config, stores, text, now) {
        Ok(stopped) => stopped,
        Err(why) => {
            drop(config);
            return Err(why);
        }
    };
    let Stopped { stores, history } = stopped;
    let revived = System::start(rt, alloc, config, stores, &history);
    drop(history);
    revived
}
