//! All that the threads of a relay share.
ghost use Rattle.std.specs.Prelude.{◌≡◌, ◌≤◌, length, map};
ghost use Rattle.relay_live.specs.BufferLocks.{count_in, numbers_in};
ghost use Rattle.relay_live.specs.Locked.{AreInOrder, number_of};
ghost use Rattle.relay_live.specs.Locking.{HasFreeRoom, HasLockRoom};
ghost use Rattle.relay_model.specs.Terms.{shard_count};

use crate::alone::Alone;
use crate::audit::Audit;
use crate::buffer_locks::BufferLocks;
use crate::claims::Claims;
use crate::drawing::{Last, Number};
use crate::forgetting::Rounds;
use crate::locking::{
    FreeRoom, LockRoom, LockedGroup, LockedShard, Locks, free_all, lock_all, values_of,
};
use crate::pausing::Pausing;
use crate::posting::RelayDesk;
use crate::slot::Slot;
use crate::stopping::Unstopped;
use block_shelf::{BeginError, StopFault};
use cyc_block::BlockStore;
use live_store::{ArticleLog, StorePremises};
use nntp_text::MsgId;
use post_history::{Naming, Opened};
use relay_conf::Config;
use relay_core::{NotStarted, Stopped, refused};
use std::alloc::Global;
use std::hash::RandomState;
use std::random::RandomSource;
use std::sync::ledger::{Book, Ledger};
use std::sync::{Mutex, Wait};
use std::thread::Threads;

/// What the threads of a relay share, each value behind its lock: sixteen shards, the feed desk,
/// the buffers and the groups of the configuration, a slot for each end, the number of the last
/// session. The lock at each place of a list has the number of its place.
pub struct Shared<S: BlockStore + Drop, J: StorePremises + Naming, L: Ledger> {
    pub(crate) shards: Vec<LockedShard<J>>,
    pub(crate) desk: Mutex<RelayDesk<J, L>>,
    /// How many feeds the desk had when it was made.
    pub(crate) feeds: usize,
    pub(crate) buffers: BufferLocks<S, J>,
    pub(crate) placed_groups: Vec<LockedGroup>,
    pub(crate) slots: Vec<Slot<J>>,
    /// The number of the session that was drawn last.
    last: Mutex<Last<L>>,
    /// The number of the last stop; before the first it is 0.
    stop: u64,
    /// For how many seconds ids are remembered; without it for good.
    pub(crate) remember: Option<u64>,
    /// What the rounds of forgetting go by, one after the other.
    pub(crate) rounds: Mutex<Rounds>,
    /// Whether no new articles are taken.
    pub(crate) pausing: Pausing,
    ghost shards_order: { AreInOrder (map number_of shards.items) },
    ghost buffers_order: { AreInOrder (numbers_in buffers) },
    ghost groups_order: { AreInOrder (map number_of placed_groups.items) },
    ghost sixteen: { length shards.items ≡ shard_count },
    ghost few: { count_in buffers ≤ 256 },
    ghost few_placed_groups: { length placed_groups.items ≤ 256 },
    ghost few_feeds: { feeds ≤ 1024 },
    ghost ring_each: { length J.rings ≡ feeds },
}

// Written out, so that no crate above proves anew how each part is let go.
impl<S: BlockStore + Drop, J: StorePremises + Naming, L: Ledger> Drop for Shared<S, J, L> {
    fn drop(self) {
        let Self {
            shards: _,
            desk: _,
            feeds: _,
            buffers: _,
            placed_groups: _,
            slots: _,
            last: _,
            stop: _,
            remember: _,
            rounds: _,
            pausing: _,
        } = self;
    }
}

/// A relay that was stopped.
#[derive(Drop)]
pub struct Shut<S: BlockStore + Drop, J: Naming> {
    /// The stores of its buffers, and the text of its history.
    pub stopped: Stopped<S>,
    /// The history of all posts that it made, where the desk and the shards agree on it.
    pub audit: Audit<J>,
}

/// That a stop was refused memory: `Shared::shut` alone says so.
#[derive(Drop)]
pub struct WantOfMemory {
    told: (),
}

/// Why a relay isn't stopped, in the order of trial; want of memory comes last before the devices.
pub enum Unshut<S: BlockStore + Drop, J: StorePremises + Naming, L: Ledger> {
    /// A message-id is being stored, or a write is open in a buffer. The relay goes on, and nothing
    /// was written.
    NotIdle(Shared<S, J, L>),
    /// Memory was refused. The relay goes on, and nothing was written.
    Memory(Shared<S, J, L>, WantOfMemory),
    /// The device of the buffer of this number failed. All stores; heads may say that they are
    /// closed.
    Device(u8, Vec<S>),
}

// Written out, so that no crate above proves anew how each part is let go.
impl<S: BlockStore + Drop, J: StorePremises + Naming, L: Ledger> Drop for Unshut<S, J, L> {
    fn drop(self) {
        match self {
            Unshut::NotIdle(_) => {}
            Unshut::Memory(_, _) => {}
            Unshut::Device(_, _) => {}
        }
    }
}

impl<S: BlockStore + Drop, J: StorePremises + Naming, L: Ledger> Shared<S, J, L> {
    ghost use Rattle.std.specs.Prelude.{◌≡◌, ◌≢◌, [], true, map, length, None, All, IfErr, IfOk};
    ghost use Rattle.std.specs.Prelude.{IfSome};
    ghost use Rattle.post_history.specs.Remembering.{ArePostedOnce};
    ghost use Rattle.relay_live.specs.Audits.{HasFrontOfEach, fronts_of, history_of};
    ghost use Rattle.relay_live.specs.Gains.{TellGained};
    ghost use Rattle.block_shelf.specs.Filling.{IsBeginRefusal};
    ghost use Rattle.relay_live.specs.Making.{buffers_in, groups_in, feeds_in, ends_in};
    ghost use Rattle.relay_live.specs.Beginning.{BeginsShared};
    ghost use Rattle.relay_live.specs.Making.{HasParts, last_stop, remember_in};
    ghost use Rattle.relay_live.specs.Starting.{HasStopOf, IsNotStarted, StartsShared, WereStopped};
    ghost use Rattle.relay_live.specs.Stopping.{AreShutWith, IsUnshut, ShutsParts};
    ghost use Rattle.relay_core.specs.Stopping.{next_stop};
    ghost use Rattle.relay_live.specs.Locked.{number_of};
    ghost use Rattle.relay_model.specs.Run.{shard_of};
    ghost use Rattle.feed_queue.specs.Feeds.{ring_size};
    ghost use Rattle.post_history.specs.Opening.{book_in};

    /// What so many ends share over these stores, the i-th for buffer i, before anything has come.
    /// All memory that no message-id takes is taken here. Each buffer's head block says that it may
    /// change.
    pub fn new(
        rt: &impl RandomSource,
        alloc: Global,
        config: &Config,
        stores: Vec<S>,
        book: Book<L>,
        opened: Opened,
        ends: usize,
    ) -> Result<Shared<S, J, L>, BeginError<S>>
        requires stores { map (λ store. length (S.blocks store)) stores.items
            ≡ map (λ buffer. buffer.blocks) config.now.buffers.buffers.items }
        requires honest { J.trusted ≡ true → All S.honest stores.items }
        requires book { book.total ≡ 0 }
        requires posts { (book_in opened ≡ J.book) × (J.began ≡ []) }
        requires rings { J.rings ≡ map ring_size config.now.relay.feeds.items }
        ensures buffers { IfOk result (λ shared.
            buffers_in shared ≡ length config.now.buffers.buffers.items) }
        ensures groups { IfOk result (λ shared.
            groups_in shared ≡ length config.now.buffers.groups.items) }
        ensures feeds { IfOk result (λ shared.
            feeds_in shared ≡ length config.now.relay.feeds.items) }
        ensures ends { IfOk result (λ shared. ends_in shared ≡ ends) }
        ensures remember { IfOk result (λ shared.
            remember_in shared ≡ config.now.relay.remember) }
        // It was made of parts of this configuration over these stores, before anything has come.
        ensures begins { IfOk result (BeginsShared config.now stores.items) }
        ensures refusal { IfErr result (IsBeginRefusal ⟦<S as BlockStore>⟧ stores.items) }
    {
        let locks = Locks::new(alloc, stores.len(), config.buffers.groups.len(), ends)?;
        match Alone::new(rt, alloc, config, stores, book, opened) {
            Ok(alone) => Ok(Shared::over(alone, locks)),
            Err(error) => {
                drop(locks);
                Err(error)
            }
        }
    }

    /// What so many ends share over what a relay was stopped with: its stores, the i-th for buffer
    /// i, and the text of its history, with the register's record for each live article. It is
    /// refused in the order of StopFault, but that a text that can't be read comes before a store
    /// is called; want of memory may come in place of each. All stores come back then, in their
    /// order, unwritten but for a Device of the last: the heads are opened once all else is done.
    pub fn start<R: RandomSource + Threads + Wait + Sync>(
        rt: &R,
        alloc: Global,
        config: &Config,
        register: &ArticleLog,
        stopped: Stopped<S>,
        book: Book<L>,
        opened: Opened,
        ends: usize,
    ) -> Result<Shared<S, J, L>, NotStarted<S>>
    where
        S: Send,
        J: Send + Sync,
        requires register { register.now ≡ J.register }
        requires stores { map (λ store. length (S.blocks store)) stopped.stores.items
            ≡ map (λ buffer. buffer.blocks) config.now.buffers.buffers.items }
        requires honest { J.trusted ≡ true → All S.honest stopped.stores.items }
        requires stopped { J.trusted ≡ true → WereStopped S.BlockStore stopped.stores.items }
        requires book { book.total ≡ 0 }
        requires posts { (book_in opened ≡ J.book) × (J.began ≡ stopped.history.items) }
        requires rings { J.rings ≡ map ring_size config.now.relay.feeds.items }
        ensures buffers { IfOk result (λ shared.
            buffers_in shared ≡ length config.now.buffers.buffers.items) }
        ensures groups { IfOk result (λ shared.
            groups_in shared ≡ length config.now.buffers.groups.items) }
        ensures feeds { IfOk result (λ shared.
            feeds_in shared ≡ length config.now.relay.feeds.items) }
        ensures ends { IfOk result (λ shared. ends_in shared ≡ ends) }
        ensures remember { IfOk result (λ shared.
            remember_in shared ≡ config.now.relay.remember) }
        ensures history { IfOk result (HasStopOf config.now stopped.history.items) }
        // It was made of the parts of a relay that was started from these stores and this text.
        ensures started { IfOk result (StartsShared config.now stopped.stores.items
            stopped.history.items) }
        ensures refused { IfErr result (IsNotStarted S.BlockStore config.now
            stopped.stores.items stopped.history.items) }
    {
        let groups = config.buffers.groups.len();
        let Ok(locks) = Locks::new(alloc, stopped.stores.len(), groups, ends) else {
            return Err(NotStarted::Refused(refused(stopped.stores, StopFault::Memory)));
        };
        let hasher = match RandomState::new(rt) {
            Ok(hasher) => hasher,
            Err(why) => {
                drop(locks);
                return Err(NotStarted::Host(why, stopped.stores));
            }
        };
        match Alone::start_with(rt, alloc, hasher, config, register, stopped, book, opened) {
            Ok(alone) => Ok(Shared::over(alone, locks)),
            Err(unstarted) => {
                drop(locks);
                Err(NotStarted::Refused(unstarted))
            }
        }
    }

    /// Stops a relay that no thread shares any more: the stores of its buffers, and the text of its
    /// history, with what the shards say of all posts. Where a message-id is being stored or a
    /// write is open it isn't.
    pub fn shut(self, alloc: Global) -> Result<Shut<S, J>, Unshut<S, J, L>>
        // There is a store of each buffer, which holds one as stopped at the next stop; where
        // stores are trusted, each live text in it is that of a record.
        ensures stores { IfOk result (λ shut.
            length shut.stopped.stores.items ≡ buffers_in self) }
        ensures known { IfOk result (λ shut. J.trusted ≡ true → AreShutWith S.BlockStore
            J.register (next_stop (last_stop self)) shut.stopped.stores.items) }
        // They are what closing gives of the parts that came out of the locks.
        ensures shuts { IfOk result (λ shut. ShutsParts self shut.stopped) }
        // Of the posts that the desk ever made, where the shards agree on them, two are of one
        // message-id, or one is of an id that the relay had stored when it began, only where the
        // earlier one's token is passed by a front of its buffer; there is none where nothing is
        // forgotten, else one of each buffer.
        ensures once { IfOk result (λ shut. IfSome (history_of shut.audit) (λ posts.
            ∥ ArePostedOnce (fronts_of shut.audit) J.began posts ∥₁)) }
        ensures unforgotten { remember_in self ≡ None
            → IfOk result (λ shut. fronts_of shut.audit ≡ []) }
        ensures read { remember_in self ≢ None
            → IfOk result (λ shut. HasFrontOfEach (buffers_in self) shut.audit) }
        // The text tells of each feed that it gained what it had when the relay began, and the
        // tokens of these posts that it may.
        ensures gained { IfOk result (λ shut. IfSome (history_of shut.audit) (λ posts.
            TellGained J.began J.rings posts shut.stopped.history.items)) }
        ensures refused { IfErr result (IsUnshut self) }
    {
        let buffers = self.buffers.len();
        let groups = self.placed_groups.len();
        let Ok(room) = FreeRoom::new(alloc, buffers, groups) else {
            return Err(Unshut::Memory(self, WantOfMemory { told: () }));
        };
        let Ok(rooms) = LockRoom::new(alloc, buffers, groups) else {
            drop(room);
            return Err(Unshut::Memory(self, WantOfMemory { told: () }));
        };
        let (alone, locks) = self.into_alone(room, rooms);
        let Ok(audit) = alone.audit(alloc) else {
            return Err(Unshut::Memory(Shared::over(alone, locks), WantOfMemory { told: () }));
        };
        match alone.shut(alloc) {
            Ok(stopped) => {
                drop(locks);
                Ok(Shut { stopped, audit })
            }
            Err(Unstopped::NotIdle(alone)) => { Err(Unshut::NotIdle(Shared::over(alone, locks))) }
            Err(Unstopped::Memory(alone)) => {
                Err(Unshut::Memory(Shared::over(alone, locks), WantOfMemory { told: () }))
            }
            Err(Unstopped::Device(number, stores)) => {
                drop(locks);
                Err(Unshut::Device(number, stores))
            }
        }
    }

    /// These parts, each behind its lock, put where there is room for them.
    fn over(alone: Alone<S, J, L>, locks: Locks<S, J>) -> Shared<S, J, L>
        requires { HasLockRoom (length alone.buffers.items) (length alone.placed_groups.items)
            locks.rooms }
        ensures { HasParts result alone (length locks.slots.items) }
    {
        let Alone {
            shards,
            desk,
            posts,
            feeds,
            buffers,
            placed_groups,
            last,
            stop,
            remember,
        } = alone;
        Shared {
            shards: lock_all(shards, locks.rooms.shards),
            desk: Mutex::new(RelayDesk {
                counted: desk,
                posts,
            }),
            feeds,
            buffers: BufferLocks::over(buffers, locks.rooms.buffers),
            placed_groups: lock_all(placed_groups, locks.rooms.placed_groups),
            slots: locks.slots,
            last: Mutex::new(last),
            stop,
            remember,
            rounds: locks.rounds,
            pausing: locks.pausing,
        }
    }

    /// Its parts without their locks, each in the place of its lock, put where there is room for
    /// them, and what stood beside these, with the room for new locks.
    fn into_alone(
        self,
        room: FreeRoom<S, J>,
        rooms: LockRoom<S, J>,
    ) -> (Alone<S, J, L>, Locks<S, J>)
        requires { HasFreeRoom (buffers_in self) (groups_in self) room }
        ensures parts { HasParts self result.0 (length result.1.slots.items) }
        ensures rooms { result.1.rooms ≡ rooms }
    {
        let Shared {
            shards,
            desk,
            feeds,
            buffers,
            placed_groups,
            slots,
            last,
            stop,
            remember,
            rounds,
            pausing,
        } = self;
        let FreeRoom { freed, parts } = room;
        let (counted, posts) = desk.into_inner().into_parts();
        let alone = Alone {
            shards: values_of(free_all(shards, freed.shards), parts.shards),
            desk: counted,
            posts,
            feeds,
            buffers: values_of(buffers.free(freed.buffers), parts.buffers),
            placed_groups: values_of(
                free_all(placed_groups, freed.placed_groups),
                parts.placed_groups,
            ),
            last: last.into_inner(),
            stop,
            remember,
        };
        let locks = Locks {
            rooms,
            slots,
            rounds,
            pausing,
        };
        (alone, locks)
    }

    /// From now on no new articles are taken, or they are again; meanwhile what is offered is to
    /// come later. Whether it was otherwise before.
    pub fn pause(&self, paused: bool) -> bool {
        self.pausing.set(paused)
    }

    /// Whether no new articles are taken.
    pub fn is_paused(&self) -> bool {
        self.pausing.is_paused()
    }

    /// Draws the number of a session: one above the last, from 1 on, none after the greatest.
    pub(crate) fn draw<R: Wait>(&self, rt: &R) -> Option<Number<L>> {
        self.last.lock(rt).next()
    }

    /// The shard that has the message-id, behind its lock.
    fn shard(&self, id: &MsgId) -> &LockedShard<J>
        ensures { number_of result.now ≡ shard_of id.now }
    {
        &self.shards[id_history::shard_of(id)]
    }

    /// The shard that has the message-id, with those who wait for it.
    pub(crate) fn claims(&self, id: &MsgId) -> &Claims<J> {
        self.shard(id).lock()
    }
}
