//! How the relay is started from what a stop left (docs/PROTOCOL.md, Clean stop and start).
ghost use Rattle.std.specs.Prelude.{◌≡◌, None, IfErr, IfOk, false, length, map};
ghost use Rattle.std.specs.List.{AllZip};
ghost use Rattle.feed_queue.specs.Feeds.{ring_size};
ghost use Rattle.id_history.specs.History.{RingHolds};
ghost use Rattle.id_history.specs.Views.{feed_view, history_view};
ghost use Rattle.relay_core.specs.Desks.{AreOf};
ghost use Rattle.relay_core.specs.Starting.{IsAheadOf, IsHistoryRefusal, IsReadied};
ghost use Rattle.relay_core.specs.Starting.{IsRefusedRightly, unread_as};

use crate::ahead::is_ahead;
use crate::desks::{Desks, read_history};
use crate::peers::Peers;
use crate::stopped::NotStarted;
use crate::system::System;
use crate::unbuffered::Unbuffered;
use block_shelf::{StopFault, UnopenedBufferSet, Unstarted, start};
use cyc_block::BlockStore;
use id_history::{History, HistoryError};
use relay_conf::Config;
use std::alloc::Global;
use std::hash::RandomState;
use std::random::RandomSource;

impl<S: BlockStore + Drop> System<S> {
    ghost use Rattle.std.specs.Prelude.{◌≡◌, IfErr, IfOk, length, map};
    ghost use Rattle.relay_core.specs.Starting.{IsNotStarted, StartsOver};

    /// The relay over the stores of one that was closed, the i-th for buffer i, from the text of
    /// its history. It is refused in the order of StopFault; want of memory may come in place of
    /// each. All stores come back then, unwritten but for a Device of the last: their heads are
    /// opened once all else is done.
    pub fn start(
        rt: &impl RandomSource,
        alloc: Global,
        config: Config,
        stores: Vec<S>,
        text: &[u8],
    ) -> Result<System<S>, NotStarted<S>>
        requires { map (λ store. length (S.blocks store)) stores.items
            ≡ map (λ buffer. buffer.blocks) config.buffers.buffers.items }
        ensures started { IfOk result (StartsOver config stores.items text.now) }
        ensures refused { IfErr result (IsNotStarted S.BlockStore config stores.items text.now) }
    {
        let hasher = match RandomState::new(rt) {
            Ok(hasher) => hasher,
            Err(why) => {
                drop(config);
                return Err(NotStarted::Host(why, stores));
            }
        };
        let readied = match ready(alloc, hasher, &config, stores, text) {
            Ok(readied) => readied,
            Err(unstarted) => {
                drop(config);
                return Err(NotStarted::Refused(unstarted));
            }
        };
        let Readied {
            unopened,
            desks,
            newest,
            stop,
        } = readied;
        let unbuffered = Unbuffered {
            alloc,
            config,
            hasher,
            newest: Some(newest),
            peers: Peers::new(alloc, hasher),
            desks,
            stop,
        };
        // No head is opened before all memory is taken: what is refused until here is unwritten.
        match unopened.open() {
            Ok(buffer_set) => Ok(unbuffered.with(buffer_set)),
            Err(unstarted) => {
                drop(unbuffered);
                Err(NotStarted::Refused(unstarted))
            }
        }
    }
}

/// A relay that is started but for the heads of its buffers, which aren't open.
#[derive(Drop)]
struct Readied<S: BlockStore> {
    unopened: UnopenedBufferSet<S>,
    desks: Desks,
    newest: u64,
    stop: u64,
}

/// All of a start that comes before the first head is opened.
fn ready<S: BlockStore + Drop>(
    alloc: Global,
    hasher: RandomState,
    config: &Config,
    stores: Vec<S>,
    text: &[u8],
) -> Result<Readied<S>, Unstarted<S>>
    requires { map (λ store. length (S.blocks store)) stores.items
        ≡ map (λ buffer. buffer.blocks) config.now.buffers.buffers.items }
    ensures readied { IfOk result (IsReadied config.now stores.items text.now) }
    ensures refused { IfErr result
        (IsRefusedRightly ⟦<S as BlockStore>⟧ config.now stores.items text.now) }
{
    // A text that can't be read refuses before a store is called.
    let history = match read_history(alloc, config, text) {
        Ok(history) => history,
        Err(error) => return Err(refused(stores, unread(error))),
    };
    let unopened = match start(
        alloc,
        &config.buffers,
        stores,
        history.stop,
        &history.positions,
    ) {
        Ok(unopened) => unopened,
        Err(unstarted) => {
            drop(history);
            return Err(unstarted);
        }
    };
    let stop = history.stop;
    let newest = history.newest;
    match desks_behind(alloc, hasher, config, &unopened, history) {
        Ok(desks) => Ok(Readied {
            unopened,
            desks,
            newest,
            stop,
        }),
        Err(fault) => Err(refused(unopened.into_stores(), fault)),
    }
}

/// What is made of a history that isn't ahead of the buffers.
fn desks_behind<S: BlockStore + Drop>(
    alloc: Global,
    hasher: RandomState,
    config: &Config,
    unopened: &UnopenedBufferSet<S>,
    history: History,
) -> Result<Desks, StopFault>
    requires { AllZip RingHolds (map feed_view history.feeds.items)
        (map ring_size config.now.relay.feeds.items) }
    ensures desks { IfOk result (AreOf config.now (history_view history)
        (length config.now.buffers.groups.items)) }
    ensures behind { IfOk result (λ _.
        IsAheadOf unopened.now (history_view history) false) }
    ensures refused { IfErr result
        (IsHistoryRefusal unopened.now (history_view history)) }
{
    let filled = match unopened.filled(alloc) {
        Ok(filled) => filled,
        Err(_) => {
            drop(history);
            return Err(StopFault::Memory);
        }
    };
    if is_ahead(&filled, &history) {
        drop(history);
        return Err(StopFault::Ahead);
    }
    let count = config.buffers.groups.len();
    match Desks::resume(alloc, hasher, config, history, count) {
        Ok(desks) => Ok(desks),
        Err(_) => Err(StopFault::Memory),
    }
}

/// Why a start is refused whose text isn't read.
pub fn unread(error: HistoryError) -> StopFault
    ensures { result ≡ unread_as error }
{
    match error {
        HistoryError::Memory => StopFault::Memory,
        HistoryError::BadHistory => StopFault::BadHistory,
    }
}

/// These stores, refused for this reason, which is of no buffer.
pub fn refused<S>(stores: Vec<S>, error: StopFault) -> Unstarted<S>
    ensures { result ≡ record { stores = stores; buffer = None; error = error } }
{
    Unstarted {
        stores,
        buffer: None,
        error,
    }
}
