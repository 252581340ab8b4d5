//! The buffers of a relay are started, side by side, and then their heads are opened.
ghost use Rattle.std.specs.Prelude.{◌≡◌, ◌<◌, ◌≤◌, ◌+◌, ◌++◌, ◌∷◌, [], true, All, length, map};
ghost use Rattle.std.specs.Prelude.{IfErr, IfOk, vec_len, vec_capacity};
ghost use Rattle.std.specs.Vec.Iter.{into_iter_items};
ghost use Rattle.block_shelf.specs.Each.{AreEach};
ghost use Rattle.block_shelf.specs.Resuming.{AreUsed};
ghost use Rattle.block_shelf.specs.Starting.{buffers_inside};
ghost use Rattle.cyc_buffer.specs.Agreement.{store_of};
ghost use Rattle.live_store.specs.Started.{unopened_in};
ghost use Rattle.live_store.specs.Steps.{buffer_of};
ghost use Rattle.relay_live.specs.Starting.{AreStarted, IsHeadFailed, IsOpenedFrom, IsUnstarted};
ghost use Rattle.relay_live.specs.Starting.{WereStopped, stores_of};
ghost use Rattle.relay_live.specs.Trials.{stores_in};

use crate::locking::rooms;
use crate::side_by_side::{Trial, outcome_at, try_all};
use block_shelf::{StopFault, Unstarted, blamed, fault_of, first_other, number_of, used_in};
use cyc_block::BlockStore;
use live_store::{ArticleLog, NumberedBuffer, StorePremises, UnopenedNumbered};
use relay_core::refused;
use std::alloc::{AllocError, Global};
use std::sync::Wait;
use std::thread::Threads;
use std::vec::IntoIter;

/// Started buffers whose head blocks say closed yet. They begin nothing before those are open.
#[derive(Drop)]
pub(crate) struct StartedBuffers<S: BlockStore + Drop, J: StorePremises> {
    pub(crate) buffers: Vec<UnopenedNumbered<S, J>>,
    /// Room for the buffers once they are open.
    opened: Vec<NumberedBuffer<S, J>>,
    /// Room for the stores where one can't be opened.
    stores: Vec<S>,
    ghost few: { vec_len buffers ≤ 256 },
    ghost none_opened: { opened.items ≡ [] },
    ghost none_back: { stores.items ≡ [] },
    ghost opened_room: { vec_len buffers ≤ vec_capacity opened },
    ghost stores_room: { vec_len buffers ≤ vec_capacity stores },
}

/// The buffers that were stopped at this stop over these stores, the i-th buffer i, with the
/// register's record for each live article. They are started side by side. Nothing is written, and
/// all memory is taken here.
pub(crate) fn start_buffers<
    S: BlockStore + Drop + Send,
    J: StorePremises + Send + Sync,
    R: Threads + Wait + Sync,
>(
    rt: &R,
    alloc: Global,
    register: &ArticleLog,
    stores: Vec<S>,
    stop: u64,
) -> Result<StartedBuffers<S, J>, Unstarted<S>>
    requires register { register.now ≡ J.register }
    requires few { length stores.items ≤ 256 }
    requires honest { J.trusted ≡ true → All S.honest stores.items }
    requires stopped { J.trusted ≡ true → WereStopped S.BlockStore stores.items }
    // Each buffer is started, and was stopped at this stop.
    ensures started { IfOk result (λ started.
        AreStarted stores.items stop started.buffers.items) }
    // Refused for the first fault, in the order of the buffers; the stores come back unwritten.
    ensures refusal { IfErr result (IsUnstarted S.BlockStore stores.items stop) }
{
    let count = stores.len();
    let Ok((mut buffers, opened, room)) = rooms(alloc, count, count, count) else {
        return Err(refused(stores, StopFault::Memory));
    };
    let Ok(slots) = Vec::with_capacity(alloc, count) else {
        return Err(refused(stores, StopFault::Memory));
    };
    let mut mixed = None;
    let mut left = try_all(rt, alloc, register, stores, slots).into_iter();
    while let Some(slot) = left.next() {
        let number = buffers.len() as u8;
        match outcome_at(rt, alloc, register, slot, number) {
            Ok((unopened, found)) => {
                mixed = first_other(mixed, found, stop, number);
                buffers.push_reserved(unopened);
            }
            Err(refused) => {
                let mut stores = give_back(buffers.into_iter(), room);
                stores.push_reserved(refused.store);
                return Err(Unstarted {
                    stores: with_rest(stores, left),
                    buffer: blamed(refused.error, number),
                    error: fault_of(refused.error),
                });
            }
        }
    }
    match mixed {
        Some(number) => Err(Unstarted {
            stores: give_back(buffers.into_iter(), room),
            buffer: Some(number),
            error: StopFault::Mixed,
        }),
        None => Ok(StartedBuffers {
            buffers,
            opened,
            stores: room,
        }),
    }
}

impl<S: BlockStore + Drop, J: StorePremises> StartedBuffers<S, J> {
    /// Of each buffer the blocks used in its cycle.
    pub(crate) fn used(&self, alloc: Global) -> Result<Vec<u32>, AllocError>
        ensures { IfOk result (λ used.
            AreUsed (buffers_inside (map unopened_in self.now.buffers.items)) used.items) }
    {
        let mut used = Vec::with_capacity(alloc, self.buffers.len())?;
        for unopened in &self.buffers {
            used.push_reserved(used_in(unopened.buffer()));
        }
        Ok(used)
    }

    /// Says on each device, in the order of the buffers, that its buffer may change from here.
    /// Takes no memory.
    pub(crate) fn open(self) -> Result<Vec<NumberedBuffer<S, J>>, Unstarted<S>>
        ensures opened { IfOk result (λ buffers.
            AreEach IsOpenedFrom self.buffers.items buffers.items) }
        ensures refusal { IfErr result (IsHeadFailed (map unopened_in self.buffers.items)) }
    {
        let StartedBuffers {
            buffers,
            mut opened,
            stores,
        } = self;
        let mut left = buffers.into_iter();
        while let Some(unopened) = left.next() {
            match unopened.open() {
                Ok(buffer) => opened.push_reserved(buffer),
                Err(unopened) => {
                    let place = opened.len();
                    let mut stores = give_up(opened, stores);
                    stores.push_reserved(unopened.into_store());
                    return Err(Unstarted {
                        stores: give_back(left, stores),
                        buffer: Some(number_of(place)),
                        error: StopFault::Device,
                    });
                }
            }
        }
        Ok(opened)
    }

    /// The stores, in the order of the buffers, unwritten. Takes no memory.
    pub(crate) fn into_stores(self) -> Vec<S>
        ensures { result.items ≡ stores_of self.buffers.items }
    {
        let StartedBuffers {
            buffers,
            opened: _opened,
            stores,
        } = self;
        give_back(buffers.into_iter(), stores)
    }
}

/// The stores of started buffers, put where there is room for them.
fn give_back<S: BlockStore + Drop, J: StorePremises>(
    buffers: IntoIter<UnopenedNumbered<S, J>>,
    room: Vec<S>,
) -> Vec<S>
    requires { length (into_iter_items buffers) + vec_len room ≤ vec_capacity room }
    ensures items { result.items ≡ room.items ++ stores_of (into_iter_items buffers) }
    ensures capacity { vec_capacity result ≡ vec_capacity room }
{
    let mut stores = room;
    for unopened in buffers {
        stores.push_reserved(unopened.into_store());
    }
    stores
}

/// These stores, with those that are left behind them, put where there is room for them.
fn with_rest<S: BlockStore + Drop, J: StorePremises>(
    stores: Vec<S>,
    left: IntoIter<Option<Trial<S, J>>>,
) -> Vec<S>
    requires { length (into_iter_items left) + vec_len stores ≤ vec_capacity stores }
    ensures { result.items ≡ stores.items ++ stores_in (into_iter_items left) }
{
    let mut stores = stores;
    for slot in left {
        stores = put_store(stores, slot);
    }
    stores
}

/// These stores, with that of what came of a buffer, put where there is room for it.
fn put_store<S: BlockStore + Drop, J: StorePremises>(
    stores: Vec<S>,
    slot: Option<Trial<S, J>>,
) -> Vec<S>
    requires { vec_len stores < vec_capacity stores }
    ensures items { result.items ≡ stores.items ++ stores_in (slot ∷ []) }
    ensures capacity { vec_capacity result ≡ vec_capacity stores }
{
    let mut stores = stores;
    if let Some(trial) = slot {
        stores.push_reserved(trial.into_store());
    }
    stores
}

/// The stores of buffers, put where there is room for them.
fn give_up<S: BlockStore + Drop, J: StorePremises>(
    buffers: Vec<NumberedBuffer<S, J>>,
    room: Vec<S>,
) -> Vec<S>
    requires { vec_len buffers + vec_len room ≤ vec_capacity room }
    ensures items { result.items
        ≡ room.items ++ map (λ one. store_of (buffer_of one)) buffers.items }
    ensures capacity { vec_capacity result ≡ vec_capacity room }
{
    let mut stores = room;
    for buffer in buffers {
        stores.push_reserved(buffer.into_store());
    }
    stores
}
