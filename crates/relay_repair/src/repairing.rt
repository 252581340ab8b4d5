//! How a relay is repaired.
ghost use Rattle.std.specs.Prelude.{◌≡◌, length, map, IfErr, IfOk, Option};
ghost use Rattle.id_history.specs.History.{Kept};
ghost use Rattle.relay_remains.specs.Heads.{AreUnwritten, TellsEnds};
ghost use Rattle.relay_repair.specs.Refusing.{IsRefusedAfter, IsRefusedFor, IsUnrepaired};
ghost use Rattle.relay_repair.specs.Refusing.{IsUnshutOver};
ghost use Rattle.relay_repair.specs.Repairing.{AreInTime, Repairs, RepairsLeft, RepairsLeftFrom};
ghost use Rattle.relay_repair.specs.Repairing.{counts_of};
ghost use Rattle.relay_repair.specs.Telling.{IsLast, IsUntold, last_lent, last_listed};
ghost use Rattle.relay_repair.specs.Telling.{last_stop, last_view};
ghost use Rattle.relay_repair.specs.Telling.{octets_in};

use crate::shutting::{last_stop, shut_found};
use block_shelf::{Unstarted, number_of};
use buffer_repair::recover;
use cyc_block::BlockStore;
use id_history::{History, HistoryError};
use relay_conf::Config;
use relay_core::{NotStarted, Stopped, read_history, refused, unread};
use relay_remains::{HeadFault, Standing, standing_of};
use std::alloc::Global;
use std::hash::RandomState;
use std::random::RandomSource;

/// Repairs the relay that was left on these stores, the i-th that of buffer i: they are read, and
/// what is found is written down as a stop would have, so that a start takes up what is given.
/// `text` is the history of its last stop, if there was one, and `now` the moment in seconds since
/// 1970-01-01 00:00:00 UTC. All memory is taken before anything is written.
pub fn repair<S: BlockStore + Drop>(
    rt: &impl RandomSource,
    alloc: Global,
    config: &Config,
    stores: Vec<S>,
    text: Option<&[u8]>,
    now: u64,
) -> Result<Stopped<S>, NotStarted<S>>
    requires { map (λ store. length (S.blocks store)) stores.items
        ≡ map (λ buffer. buffer.blocks) config.now.buffers.buffers.items }
    // For each state in which the relay was, over honest stores that a crash left of it, what is
    // given is the stop of a world to which a crash leads.
    ensures repaired { IfOk result (λ stopped. Repairs ⟦<S as BlockStore>⟧ config.now stores.items
        (octets_in text.entry) now stopped.stores.items stopped.history.items) }
    // A crash may leave it again.
    ensures left { IfOk result (λ stopped. RepairsLeft ⟦<S as BlockStore>⟧ config.now stores.items
        (octets_in text.entry) now stopped.stores.items stopped.history.items) }
    ensures counts { IfOk result (λ stopped. counts_of ⟦<S as BlockStore>⟧ stopped.stores.items
        ≡ counts_of ⟦<S as BlockStore>⟧ stores.items) }
    // What a crash left is refused for memory or a device alone; all stores come back.
    ensures refused { IfErr result (IsUnrepaired ⟦<S as BlockStore>⟧ config.now stores.items
        (octets_in text.entry)) }
{
    let hasher = match RandomState::new(rt) {
        Ok(hasher) => hasher,
        Err(why) => return Err(NotStarted::Host(why, stores)),
    };
    match repair_by(alloc, hasher, config, stores, text, now) {
        Ok(stopped) => Ok(stopped),
        Err(unrepaired) => Err(NotStarted::Refused(unrepaired)),
    }
}

/// Repairs a relay, once there is a seed.
fn repair_by<S: BlockStore + Drop>(
    alloc: Global,
    hasher: RandomState,
    config: &Config,
    stores: Vec<S>,
    text: Option<&[u8]>,
    now: u64,
) -> Result<Stopped<S>, Unstarted<S>>
    requires { map (λ store. length (S.blocks store)) stores.items
        ≡ map (λ buffer. buffer.blocks) config.now.buffers.buffers.items }
    ensures repaired { IfOk result (λ stopped. Repairs ⟦<S as BlockStore>⟧ config.now stores.items
        (octets_in text.entry) now stopped.stores.items stopped.history.items) }
    ensures left { IfOk result (λ stopped. RepairsLeft ⟦<S as BlockStore>⟧ config.now stores.items
        (octets_in text.entry) now stopped.stores.items stopped.history.items) }
    ensures counts { IfOk result (λ stopped. counts_of ⟦<S as BlockStore>⟧ stopped.stores.items
        ≡ counts_of ⟦<S as BlockStore>⟧ stores.items) }
    ensures refused { IfErr result (IsRefusedFor ⟦<S as BlockStore>⟧ config.now stores.items
        (octets_in text.entry)) }
{
    // A text that can't be read refuses before a store is called.
    let old = match last_history(alloc, config, text) {
        Ok(old) => old,
        Err(error) => return Err(refused(stores, unread(error))),
    };
    let answer = repair_after(alloc, hasher, config, stores, old.as_ref(), now);
    drop(old);
    answer
}

/// The history of the last stop, where there was one.
fn last_history(
    alloc: Global,
    config: &Config,
    text: Option<&[u8]>,
) -> Result<Option<History>, HistoryError>
    ensures last { IfOk result (λ old. IsLast config.now (octets_in text.entry) (last_view old)) }
    ensures only { IfOk result (λ old. (last : Option Kept)
        → IsLast config.now (octets_in text.entry) last → last_view old ≡ last) }
    ensures untold { IfErr result (IsUntold config.now (octets_in text.entry)) }
{
    match text {
        Some(text) => Ok(Some(read_history(alloc, config, text)?)),
        None => Ok(None),
    }
}

/// Repairs a relay of whose last stop this is the history, where the heads of its buffers are such
/// as a crash leaves.
fn repair_after<S: BlockStore + Drop>(
    alloc: Global,
    hasher: RandomState,
    config: &Config,
    stores: Vec<S>,
    old: Option<&History>,
    now: u64,
) -> Result<Stopped<S>, Unstarted<S>>
    requires { map (λ store. length (S.blocks store)) stores.items
        ≡ map (λ buffer. buffer.blocks) config.now.buffers.buffers.items }
    ensures repaired { IfOk result (λ stopped. AreInTime (last_listed (last_lent old.entry))
        → RepairsLeftFrom ⟦<S as BlockStore>⟧ config.now stores.items (last_lent old.entry) now
        stopped.stores.items stopped.history.items) }
    ensures counts { IfOk result (λ stopped. counts_of ⟦<S as BlockStore>⟧ stopped.stores.items
        ≡ counts_of ⟦<S as BlockStore>⟧ stores.items) }
    ensures refused { IfErr result (IsRefusedAfter ⟦<S as BlockStore>⟧
        (last_stop (last_lent old.entry)) stores.items) }
{
    let (stores, standing) = looked_at(stores, last_stop(old));
    match standing {
        Ok(_) => repair_found(alloc, hasher, config, stores, old, now),
        Err(fault) => Err(Unstarted {
            stores,
            buffer: Some(number_of(fault.place)),
            error: fault.error,
        }),
    }
}

/// The stores, once the heads were looked at, and what these say of how the relay has ended.
fn looked_at<S: BlockStore>(stores: Vec<S>, stop: u64) -> (Vec<S>, Result<Standing, HeadFault>)
    ensures told { TellsEnds ⟦<S as BlockStore>⟧ stop stores.items result.1 }
    ensures unwritten { AreUnwritten ⟦<S as BlockStore>⟧ result.1 stores.items result.0.items }
    ensures counts { counts_of ⟦<S as BlockStore>⟧ result.0.items
        ≡ counts_of ⟦<S as BlockStore>⟧ stores.items }
{
    let mut stores = stores;
    let standing = standing_of(&mut stores, stop);
    (stores, standing)
}

/// Finds the buffers again, and shuts them with what is found.
fn repair_found<S: BlockStore + Drop>(
    alloc: Global,
    hasher: RandomState,
    config: &Config,
    stores: Vec<S>,
    old: Option<&History>,
    now: u64,
) -> Result<Stopped<S>, Unstarted<S>>
    requires { map (λ store. length (S.blocks store)) stores.items
        ≡ map (λ buffer. buffer.blocks) config.now.buffers.buffers.items }
    ensures repaired { IfOk result (λ stopped. AreInTime (last_listed (last_lent old.entry))
        → RepairsLeftFrom ⟦<S as BlockStore>⟧ config.now stores.items (last_lent old.entry) now
        stopped.stores.items stopped.history.items) }
    ensures counts { IfOk result (λ stopped. counts_of ⟦<S as BlockStore>⟧ stopped.stores.items
        ≡ counts_of ⟦<S as BlockStore>⟧ stores.items) }
    ensures refused { IfErr result (IsUnshutOver ⟦<S as BlockStore>⟧ stores.items) }
{
    match recover(alloc, &config.buffers, stores) {
        Ok(found_set) => shut_found(alloc, hasher, config, found_set, old, now),
        Err(unstarted) => Err(unstarted),
    }
}
