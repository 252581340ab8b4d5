//! How a relay is started from what a stop left (docs/PROTOCOL.md, Clean stop and start).

use crate::alone::Alone;
use crate::desks::Desks;
use crate::filling::all_filled;
use crate::started::{StartedBuffers, start_buffers};
use block_shelf::{StopFault, Unstarted};
use cyc_block::BlockStore;
use live_store::{ArticleLog, StorePremises};
use post_history::{Naming, Opened};
use relay_conf::Config;
use relay_core::{Stopped, is_ahead, read_history, refused, unread};
use std::alloc::Global;
use std::hash::RandomState;
use std::sync::Wait;
use std::sync::ledger::{Book, Ledger};
use std::thread::Threads;

impl<S: BlockStore + Drop, J: StorePremises + Naming, L: Ledger> Alone<S, J, L> {
    ghost use Rattle.std.specs.Prelude.{◌≡◌, ◌≤◌, true, IfErr, IfOk, All, length, map};
    ghost use Rattle.block_shelf.specs.Each.{AreEach};
    ghost use Rattle.live_store.specs.Started.{unopened_in};
    ghost use Rattle.relay_live.specs.Starting.{IsHeadFailed, IsOpenedFrom};
    ghost use Rattle.feed_queue.specs.Feeds.{ring_size};
    ghost use Rattle.post_history.specs.Opening.{book_in};
    ghost use Rattle.relay_live.specs.Starting.{IsRefusedRightly, StartsOver, WereStopped};

    /// The relay over the stores of one that was stopped, the i-th for buffer i, from the text of
    /// its history, with the register's record for each live article and this seed. It is refused
    /// in the order of StopFault, but that a text that can't be read comes before a store is
    /// called; want of memory may come in place of each. All stores come back then, in their order,
    /// unwritten but for a Device of the last: their heads are opened once all else is done.
    pub(crate) fn start_with<R: Threads + Wait + Sync>(
        rt: &R,
        alloc: Global,
        hasher: RandomState,
        config: &Config,
        register: &ArticleLog,
        stopped: Stopped<S>,
        book: Book<L>,
        opened: Opened,
    ) -> Result<Alone<S, J, L>, Unstarted<S>>
    where
        S: Send,
        J: Send + Sync,
        requires register { register.now ≡ J.register }
        requires stores { map (λ store. length (S.blocks store)) stopped.stores.items
            ≡ map (λ buffer. buffer.blocks) config.now.buffers.buffers.items }
        requires honest { J.trusted ≡ true → All S.honest stopped.stores.items }
        requires stopped { J.trusted ≡ true → WereStopped S.BlockStore stopped.stores.items }
        requires book { book.total ≡ 0 }
        requires posts { (book_in opened ≡ J.book) × (J.began ≡ stopped.history.items) }
        requires rings { J.rings ≡ map ring_size config.now.relay.feeds.items }
        ensures started { IfOk result (StartsOver config.now stopped.stores.items
            stopped.history.items) }
        ensures refused { IfErr result
            (IsRefusedRightly S.BlockStore config.now
            stopped.stores.items stopped.history.items) }
    {
        // A head block is of one buffer, so what a store holds is of one stop.
        news_terms::heads::one_head();
        let Stopped { stores, history } = stopped;
        // A text that can't be read refuses before a store is called.
        let history = match read_history(alloc, config, &history) {
            Ok(history) => history,
            Err(error) => return Err(refused(stores, unread(error))),
        };
        let started = match start_buffers(rt, alloc, register, stores, history.stop) {
            Ok(started) => started,
            Err(unstarted) => {
                drop(history);
                return Err(unstarted);
            }
        };
        let filled = match all_filled(alloc, &started) {
            Ok(filled) => filled,
            Err(_) => {
                drop(history);
                return Err(refused(started.into_stores(), StopFault::Memory));
            }
        };
        if is_ahead(&filled, &history) {
            drop(history);
            return Err(refused(started.into_stores(), StopFault::Ahead));
        }
        let stop = history.stop;
        let desks = match Desks::resume(alloc, hasher, config, history, &started, book, opened) {
            Ok(desks) => desks,
            Err(_) => return Err(refused(started.into_stores(), StopFault::Memory)),
        };
        // No head is opened before all memory is taken: what is refused until here is unwritten.
        match Alone::over(config, started, desks, stop) {
            Ok(alone) => Ok(alone),
            Err(unstarted) => Err(unstarted),
        }
    }

    /// The relay over started buffers, whose heads are opened, and what was made of its history
    /// beside them. Its last stop has this number.
    fn over(
        config: &Config,
        started: StartedBuffers<S, J>,
        desks: Desks<J, L>,
        stop: u64,
    ) -> Result<Alone<S, J, L>, Unstarted<S>>
        requires few { length desks.placed_groups.items ≤ 256 }
        requires rings { J.rings ≡ map ring_size config.now.relay.feeds.items }
        ensures opened { IfOk result (λ alone.
            AreEach IsOpenedFrom started.buffers.items alone.buffers.items) }
        ensures desks { IfOk result (λ alone. (alone.shards ≡ desks.shards)
            × (alone.desk ≡ desks.desk) × (alone.placed_groups ≡ desks.placed_groups)
            × (alone.last ≡ desks.last)) }
        ensures stop { IfOk result (λ alone. alone.stop ≡ stop) }
        ensures settings { IfOk result (λ alone.
            (alone.feeds ≡ length config.now.relay.feeds.items)
            × (alone.remember ≡ config.now.relay.remember)) }
        ensures refusal { IfErr result (IsHeadFailed (map unopened_in started.buffers.items)) }
    {
        let buffers = match started.open() {
            Ok(buffers) => buffers,
            Err(unstarted) => {
                drop(desks);
                return Err(unstarted);
            }
        };
        let Desks {
            shards,
            desk,
            posts,
            placed_groups,
            last,
        } = desks;
        Ok(Alone {
            shards,
            desk,
            posts,
            feeds: config.relay.feeds.len(),
            buffers,
            placed_groups,
            last,
            stop,
            remember: config.relay.remember,
        })
    }
}
