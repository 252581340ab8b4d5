//! A relay that was left without a stop is repaired before it starts (docs/PROTOCOL.md, Crashes:
//! the relay).
ghost use Rattle.std.specs.Prelude.{◌≡◌, IfErr, IfOk, length, map};
ghost use Rattle.relay_recovery.specs.Repairing.{GoesOn, GoesOnNamed, IsKeptOfRepair};
ghost use Rattle.relay_recovery.specs.Repairing.{IsOfRepairWith};
ghost use Rattle.buffer_files.specs.Faults.{IsServeFault};
ghost use Rattle.relay_startup.specs.Keeping.{IsKeptAs};

use crate::places::HistoryPlaces;
use crate::recovering::repair_beside;
use buffer_files::{Beginning, Looked, Synced};
use cyc_block::BlockStore;
use history_names::keep_names;
use live_session::Clock;
use relay_attendant::{Attendant, MachineClock};
use relay_conf::Config;
use relay_core::Stopped;
use relay_folder::{HistoryPlace, JournalPlace, Origin};
use relay_journal::{JournalLines, ToldJournal};
use relay_report::ServeError;
use relay_startup::{
    LeftByName, history_of, keep_repaired, last_history, left_by_name, tell_changes,
    tell_recovered, tell_recovering, with_heads, without_unsaved,
};
use std::alloc::Global;
use std::random::RandomSource;
use std::sync::Wait;
use std::thread::Threads;
use std::time;

/// What a relay begins over, by the names of its configuration, once one that was left without a
/// stop is repaired: what is found of it is kept as what a stop leaves, and it begins from that.
/// Any other begins as it was to.
pub fn begin_again<S, H, N, P, L, R>(
    rt: &R,
    alloc: Global,
    config: &Config,
    places: &mut HistoryPlaces<H, N>,
    journal: &mut ToldJournal<P, L>,
    beginning: Beginning<S>,
    desk: &Attendant<'_>,
) -> Result<Beginning<S>, ServeError>
where
    S: Synced + Looked + Drop,
    H: HistoryPlace,
    N: HistoryPlace,
    P: JournalPlace,
    L: JournalLines,
    R: Threads + Wait + time::Clock + Eprint + RandomSource + Sync,
    requires stores { map (λ store. length (S.blocks store)) beginning.stores.items
        ≡ map (λ buffer. buffer.blocks) config.now.buffers.buffers.items }
    ensures stores { IfOk result (λ begun. map (λ store. length (S.blocks store)) begun.stores.items
        ≡ map (λ buffer. buffer.blocks) config.now.buffers.buffers.items) }
    // One that was stopped goes on as it is, one that wasn't with what a repair gives.
    ensures goes { IfOk result (λ begun. GoesOn S.is_synced ⟦<S as BlockStore>⟧ H.HistoryPlace
        N.HistoryPlace ⟦<P as HistoryPlace>⟧ L.JournalLines config.now beginning.origin
        begun.origin beginning.stores begun.stores places.old places.new journal.old journal.new) }
    ensures fault { IfErr result (IsServeFault config.now) }
{
    let Beginning {
        stores,
        origin,
        fresh,
    } = beginning;
    match origin {
        Origin::Formatted => {
            keep_names(alloc, config, &mut places.names, 0, None)?;
            Ok(Beginning {
                stores,
                origin: Origin::Formatted,
                fresh,
            })
        }
        Origin::Stopped(text) => {
            let left = Stopped {
                stores,
                history: text,
            };
            let Stopped { stores, history } = go_on(
                rt, alloc, config, places, journal, left, desk,
            )?;
            Ok(Beginning {
                stores,
                origin: Origin::Stopped(history),
                fresh,
            })
        }
    }
}

/// What a relay that wasn't begun from nothing goes on from: what was left of it, or what a repair
/// of that has kept, where it wasn't stopped; by the names of its configuration, which are kept
/// before anything else is.
fn go_on<S, H, N, P, L, R>(
    rt: &R,
    alloc: Global,
    config: &Config,
    places: &mut HistoryPlaces<H, N>,
    journal: &mut ToldJournal<P, L>,
    left: Stopped<S>,
    desk: &Attendant<'_>,
) -> Result<Stopped<S>, ServeError>
where
    S: Synced + Drop,
    H: HistoryPlace,
    N: HistoryPlace,
    P: JournalPlace,
    L: JournalLines,
    R: Threads + Wait + time::Clock + Eprint + RandomSource + Sync,
    requires stores { map (λ store. length (S.blocks store)) left.stores.items
        ≡ map (λ buffer. buffer.blocks) config.now.buffers.buffers.items }
    ensures stores { IfOk result (λ stopped.
        map (λ store. length (S.blocks store)) stopped.stores.items
        ≡ map (λ store. length (S.blocks store)) left.stores.items) }
    ensures goes { IfOk result (λ stopped. GoesOnNamed S.is_synced ⟦<S as BlockStore>⟧
        H.HistoryPlace N.HistoryPlace ⟦<P as HistoryPlace>⟧ L.JournalLines config.now left stopped
        places.old places.new journal.old journal.new) }
    ensures fault { IfErr result (IsServeFault config.now) }
{
    let Stopped {
        stores,
        history: text,
    } = left;
    let LeftByName {
        stores,
        text,
        changes,
        unstopped,
    } = left_by_name(alloc, config, &mut places.names, stores, text)?;
    tell_changes(rt, &changes);
    drop(changes);
    if unstopped {
        let history = &mut places.history;
        return repaired_with(rt, alloc, config, history, journal, stores, text, desk);
    }
    Ok(Stopped {
        stores,
        history: text,
    })
}

/// Repairs the relay that was left on these stores, with this text of its last history and its
/// journal, and keeps what is found.
fn repaired_with<S, H, P, L, R>(
    rt: &R,
    alloc: Global,
    config: &Config,
    history: &mut H,
    journal: &mut ToldJournal<P, L>,
    stores: Vec<S>,
    text: Vec<u8>,
    desk: &Attendant<'_>,
) -> Result<Stopped<S>, ServeError>
where
    S: Synced + Drop,
    H: HistoryPlace,
    P: JournalPlace,
    L: JournalLines,
    R: Threads + Wait + time::Clock + Eprint + RandomSource + Sync,
    requires stores { map (λ store. length (S.blocks store)) stores.items
        ≡ map (λ buffer. buffer.blocks) config.now.buffers.buffers.items }
    ensures stores { IfOk result (λ stopped.
        map (λ store. length (S.blocks store)) stopped.stores.items
        ≡ map (λ store. length (S.blocks store)) stores.items) }
    ensures repaired { IfOk result (λ stopped. IsOfRepairWith ⟦<S as BlockStore>⟧
        ⟦<P as HistoryPlace>⟧ L.JournalLines config.now text.items stores.items stopped
        journal.old journal.new) }
    ensures kept { IfOk result (λ stopped. IsKeptAs S.is_synced H.HistoryPlace
        stopped.history.items stopped.stores.items history.old history.new) }
    ensures fault { IfErr result (IsServeFault config.now) }
{
    tell_recovering(rt, stores.len(), text.len());
    match last_history(rt, alloc, config, journal, &text) {
        Ok(last) => repaired(rt, alloc, config, history, stores, text, last, desk),
        Err(error) => {
            drop(stores);
            drop(text);
            Err(error)
        }
    }
}

/// Repairs the relay that was left on these stores, with this text of its last history, and that
/// with its journal folded in, and keeps what is found, telling of it. Whoever asks at the desk
/// meanwhile is answered.
fn repaired<S, H, R>(
    rt: &R,
    alloc: Global,
    config: &Config,
    history: &mut H,
    stores: Vec<S>,
    text: Vec<u8>,
    last: Vec<u8>,
    desk: &Attendant<'_>,
) -> Result<Stopped<S>, ServeError>
where
    S: Synced + Drop,
    H: HistoryPlace,
    R: Threads + Wait + time::Clock + Eprint + RandomSource + Sync,
    requires stores { map (λ store. length (S.blocks store)) stores.items
        ≡ map (λ buffer. buffer.blocks) config.now.buffers.buffers.items }
    ensures stores { IfOk result (λ stopped.
        map (λ store. length (S.blocks store)) stopped.stores.items
        ≡ map (λ store. length (S.blocks store)) stores.items) }
    ensures repaired { IfOk result (IsKeptOfRepair ⟦<S as BlockStore>⟧ config.now text.items
        last.items stores.items) }
    ensures kept { IfOk result (λ stopped. IsKeptAs S.is_synced H.HistoryPlace
        stopped.history.items stopped.stores.items history.old history.new) }
    ensures fault { IfErr result (IsServeFault config.now) }
{
    // Room for the heads, before anything is written.
    let mut heads = Vec::with_capacity(alloc, stores.len())?;
    let now = MachineClock::new(rt).now();
    let stopped = repair_beside(rt, alloc, config, stores, history_of(&last), now, desk)?;
    let stopped = with_heads(alloc, config, stopped, &mut heads)?;
    let stopped = without_unsaved(alloc, config, &text, &last, &heads, stopped)?;
    let stopped = keep_repaired(history, stopped)?;
    tell_recovered(rt, alloc, config, &last, &stopped.history, &heads);
    Ok(stopped)
}
