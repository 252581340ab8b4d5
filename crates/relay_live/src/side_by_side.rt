//! The buffers of a relay are started side by side, as many at a time as there are processors.
ghost use Rattle.std.specs.Prelude.{◌≡◌, ◌<◌, ◌≤◌, ◌+◌, ◌++◌, ℕ, [], length, map, IfErr, IfOk};
ghost use Rattle.std.specs.Prelude.{slice_index_or, vec_capacity, vec_len};
ghost use Rattle.block_shelf.specs.Each.{AreEach};
ghost use Rattle.relay_live.specs.Trials.{CanTryAt, CanTryIn, IsRefusedOver, IsStartedAt};
ghost use Rattle.relay_live.specs.Trials.{IsTriedIn, Tries, untried};

use cyc_block::BlockStore;
use cyc_buffer::Refused;
use live_store::{ArticleLog, NumberedBuffer, StorePremises, UnopenedNumbered};
use std::alloc::Global;
use std::sync::Wait;
use std::sync::atomic::{AtomicBool, Ordering};
use std::thread;
use std::thread::Threads;

/// How many buffers are started at a time where the system doesn't tell how many processors there
/// are.
const UNTOLD: usize = 8;

/// What came of a buffer.
#[derive(Drop)]
pub(crate) enum Trial<S: BlockStore + Drop, J: StorePremises> {
    /// It wasn't tried: its store.
    Untried(S),
    /// It is started, and was stopped at this stop.
    Started(UnopenedNumbered<S, J>, u64),
    /// It is refused.
    Refused(Refused<S>),
}

impl<S: BlockStore + Drop, J: StorePremises> Trial<S, J> {
    ghost use Rattle.std.specs.Prelude.{◌≡◌, IfErr, IfOk};
    ghost use Rattle.relay_live.specs.Trials.{CanTry, IsRefusedOver, IsStartedAt, IsTried};
    ghost use Rattle.relay_live.specs.Trials.{store_in};

    /// What came of the buffer of this number, which is started here if it wasn't tried.
    pub(crate) fn outcome<R: Wait>(
        self,
        rt: &R,
        alloc: Global,
        register: &ArticleLog,
        number: u8,
    ) -> Result<(UnopenedNumbered<S, J>, u64), Refused<S>>
        requires register { register.now ≡ J.register }
        requires can { CanTry number self }
        ensures started { (store : S) → IsTried number store self
            → IfOk result (λ made. IsStartedAt number store made.0 made.1) }
        ensures refused { (store : S) → IsTried number store self
            → IfErr result (IsRefusedOver S.BlockStore number store) }
    {
        match self {
            Trial::Untried(store) => NumberedBuffer::start(rt, alloc, register, store, number, 0),
            Trial::Started(unopened, found) => Ok((unopened, found)),
            Trial::Refused(refused) => Err(refused),
        }
    }

    /// The buffer's store, unwritten.
    pub(crate) fn into_store(self) -> S
        ensures { result ≡ store_in self }
    {
        match self {
            Trial::Untried(store) => store,
            Trial::Started(unopened, _) => unopened.into_store(),
            Trial::Refused(refused) => refused.store,
        }
    }
}

/// What came of the buffer of this number, for which there is something at its place.
pub(crate) fn outcome_at<S: BlockStore + Drop, J: StorePremises, R: Wait>(
    rt: &R,
    alloc: Global,
    register: &ArticleLog,
    slot: Option<Trial<S, J>>,
    number: u8,
) -> Result<(UnopenedNumbered<S, J>, u64), Refused<S>>
    requires register { register.now ≡ J.register }
    requires can { CanTryIn number slot }
    ensures started { (store : S) → IsTriedIn number store slot
        → IfOk result (λ made. IsStartedAt number store made.0 made.1) }
    ensures refused { (store : S) → IsTriedIn number store slot
        → IfErr result (IsRefusedOver S.BlockStore number store) }
{
    match slot {
        Some(trial) => trial.outcome(rt, alloc, register, number),
        None => unreachable!(),
    }
}

/// What comes of the buffers of these stores, the i-th buffer i, put where there is room for them.
/// As many are started at a time as there are processors, each in a thread of its own; in this
/// thread where none can be made. After a fault no further one is tried.
pub(crate) fn try_all<
    S: BlockStore + Drop + Send,
    J: StorePremises + Send + Sync,
    R: Threads + Wait + Sync,
>(
    rt: &R,
    alloc: Global,
    register: &ArticleLog,
    stores: Vec<S>,
    room: Vec<Option<Trial<S, J>>>,
) -> Vec<Option<Trial<S, J>>>
    requires register { register.now ≡ J.register }
    requires none { room.items ≡ [] }
    requires room { vec_len stores ≤ vec_capacity room }
    requires few { length stores.items ≤ 256 }
    requires can { (b : ℕ) (d : S) → b < length stores.items
        → CanTryAt ⟦<S as BlockStore>⟧ ⟦<J as StorePremises>⟧ b (slice_index_or stores.items b d) }
    ensures { AreEach IsTriedIn stores.items result.items }
{
    let mut slots = untried_all(stores, room);
    try_each(rt, alloc, register, at_a_time(rt), slots.as_mut_slice());
    slots
}

/// How many buffers are started at a time.
fn at_a_time<R: Threads>(rt: &R) -> usize
    ensures { 0 < result }
{
    match thread::available_parallelism(rt) {
        Ok(processors) => processors.get(),
        Err(_) => UNTOLD,
    }
}

/// The stores of buffers that aren't tried yet, put where there is room for them.
fn untried_all<S: BlockStore + Drop, J: StorePremises>(
    stores: Vec<S>,
    room: Vec<Option<Trial<S, J>>>,
) -> Vec<Option<Trial<S, J>>>
    requires { vec_len stores + vec_len room ≤ vec_capacity room }
    ensures { result.items ≡ room.items ++ map untried stores.items }
{
    let mut slots = room;
    for store in stores {
        slots.push_reserved(Some(Trial::Untried(store)));
    }
    slots
}

/// Tries the buffers at these places, in at most so many threads.
fn try_each<S: BlockStore + Drop + Send, J: StorePremises + Send + Sync, R: Threads + Wait + Sync>(
    rt: &R,
    alloc: Global,
    register: &ArticleLog,
    threads: usize,
    slots: &mut [Option<Trial<S, J>>],
)
    requires register { register.now ≡ J.register }
    requires threads { 0 < threads }
    requires few { length slots.old ≤ 256 }
    requires can { (b : ℕ) (d : _)
        → b < length slots.old → CanTryIn b (slice_index_or slots.old b d) }
    ensures count { length slots.new ≡ length slots.old }
    ensures tries { (b : ℕ) (d : _)
        → b < length slots.old
        → Tries b (slice_index_or slots.old b d) (slice_index_or slots.new b d) }
{
    let is_refused = AtomicBool::new(false);
    let is_refused = &is_refused;
    let body = |place: usize, slot: &mut Option<Trial<S, J>>|
        requires { (register.now ≡ J.register) × (place < 256) × CanTryIn place slot.now }
        ensures { Tries place slot.entry.now slot.exit.now }
    { try_one(rt, alloc, register, is_refused, place as u8, slot) };
    thread::for_each_mut(rt, slots, threads, &body);
}

/// Tries the buffer of this number at its place, if none was refused.
fn try_one<S: BlockStore + Drop, J: StorePremises, R: Wait>(
    rt: &R,
    alloc: Global,
    register: &ArticleLog,
    is_refused: &AtomicBool,
    number: u8,
    slot: &mut Option<Trial<S, J>>,
)
    requires register { register.now ≡ J.register }
    requires can { CanTryIn number slot.old }
    ensures { Tries number slot.old slot.new }
{
    if is_refused.load(Ordering::SeqCst) {
        return;
    }
    let Some(trial) = slot.take() else {
        return;
    };
    match trial.outcome(rt, alloc, register, number) {
        Ok((unopened, found)) => *slot = Some(Trial::Started(unopened, found)),
        Err(refused) => {
            is_refused.store(true, Ordering::SeqCst);
            *slot = Some(Trial::Refused(refused));
        }
    }
}
