//! What the threads of a relay share, as it is while no thread shares it: each part without its
//! lock.
ghost use Rattle.std.specs.Prelude.{◌≡◌, ◌≤◌, false, length};
ghost use Rattle.live_jobs.specs.Desks.{desk_of, posts_of};
ghost use Rattle.relay_live.specs.Gains.{HaveGained};
ghost use Rattle.relay_model.specs.Terms.{shard_count};

use crate::drawing::Last;
use crate::making::new_buffers;
use block_shelf::{BeginError, PlacedGroup, new_placed_groups, unbegun};
use cyc_block::BlockStore;
use id_history::Shards;
use live_jobs::CountedDesk;
use live_store::{NumberedBuffer, StorePremises};
use post_history::{DeskPosts, Naming, Opened, RememberingShard, remember_all};
use relay_conf::Config;
use std::alloc::Global;
use std::random::RandomSource;
use std::sync::ledger::{Book, Ledger};

/// The parts of a relay that no thread shares: sixteen shards, the feed desk, the buffers and the
/// groups of the configuration, the number of the session that was drawn last, and that of the last
/// stop.
#[derive(Drop)]
pub(crate) struct Alone<S: BlockStore + Drop, J: StorePremises + Naming, L: Ledger> {
    pub(crate) shards: Vec<RememberingShard<J>>,
    pub(crate) desk: CountedDesk<L>,
    /// The history of the posts that the desk made.
    pub(crate) posts: DeskPosts<J>,
    /// How many feeds the desk had when it was made.
    pub(crate) feeds: usize,
    pub(crate) buffers: Vec<NumberedBuffer<S, J>>,
    pub(crate) placed_groups: Vec<PlacedGroup>,
    pub(crate) last: Last<L>,
    /// The number of the last stop; before the first it is 0.
    pub(crate) stop: u64,
    /// For how many seconds ids are remembered; without it for good.
    pub(crate) remember: Option<u64>,
    ghost sixteen: { length shards.items ≡ shard_count },
    ghost as_many: { posts.lost ≡ false → length posts.all.history ≡ posts_of desk },
    ghost gained: { posts.lost ≡ false
        → HaveGained (desk_of desk) J.began J.rings posts.all.history },
    ghost few: { length buffers.items ≤ 256 },
    ghost few_placed_groups: { length placed_groups.items ≤ 256 },
    ghost few_feeds: { feeds ≤ 1024 },
    ghost ring_each: { length J.rings ≡ feeds },
}

impl<S: BlockStore + Drop, J: StorePremises + Naming, L: Ledger> Alone<S, J, L> {
    ghost use Rattle.std.specs.Prelude.{◌≡◌, [], true, map, All, IfErr, IfOk};
    ghost use Rattle.block_shelf.specs.Filling.{IsBeginRefusal};
    ghost use Rattle.relay_live.specs.Beginning.{BeginsOver};
    ghost use Rattle.feed_queue.specs.Feeds.{ring_size};
    ghost use Rattle.post_history.specs.Opening.{book_in};

    /// The relay over these stores, the i-th for buffer i, before anything has come. Each buffer's
    /// head block says that it may change.
    pub(crate) fn new(
        rt: &impl RandomSource,
        alloc: Global,
        config: &Config,
        stores: Vec<S>,
        book: Book<L>,
        opened: Opened,
    ) -> Result<Alone<S, J, L>, BeginError<S>>
        requires stores { map (λ store. length (S.blocks store)) stores.items
            ≡ map (λ buffer. buffer.blocks) config.now.buffers.buffers.items }
        requires honest { J.trusted ≡ true → All S.honest stores.items }
        requires book { book.total ≡ 0 }
        requires posts { (book_in opened ≡ J.book) × (J.began ≡ []) }
        requires rings { J.rings ≡ map ring_size config.now.relay.feeds.items }
        ensures begins { IfOk result (BeginsOver config.now stores.items) }
        ensures refusal { IfErr result (IsBeginRefusal ⟦<S as BlockStore>⟧ stores.items) }
    {
        let posts = DeskPosts::open(opened);
        let shards = Shards::new(rt, alloc)?.into_shards();
        let shards = remember_all(alloc, shards, &posts, stores.len())?;
        let placed_groups = new_placed_groups(alloc, &config.buffers)?;
        let last = Last::after(&book, 0);
        let desk = CountedDesk::new(alloc, &config.relay.feeds, book)?;
        let buffers = match new_buffers(alloc, stores) {
            Ok(buffers) => buffers,
            Err(error) => {
                drop(desk);
                return Err(unbegun(error));
            }
        };
        Ok(Alone {
            shards,
            desk,
            posts,
            feeds: config.relay.feeds.len(),
            buffers,
            placed_groups,
            last,
            stop: 0,
            remember: config.relay.remember,
        })
    }
}
