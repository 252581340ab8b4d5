//! What is made of a history beside the buffers (docs/PROTOCOL.md, Clean stop and start).
ghost use Rattle.std.specs.Prelude.{◌≡◌, false, length};
ghost use Rattle.live_jobs.specs.Desks.{desk_of, posts_of};
ghost use Rattle.relay_live.specs.Gains.{HaveGained};
ghost use Rattle.relay_model.specs.Terms.{shard_count};

use crate::drawing::Last;
use crate::started::StartedBuffers;
use block_shelf::{PlacedGroup, resume_placed_groups};
use cyc_block::BlockStore;
use id_history::{History, Shards};
use live_jobs::CountedDesk;
use live_store::StorePremises;
use post_history::{DeskPosts, Naming, Opened, RememberingShard, remember_all};
use relay_conf::Config;
use std::alloc::{AllocError, Global};
use std::hash::RandomState;
use std::sync::ledger::{Book, Ledger};

/// What is made of a history beside the buffers.
#[derive(Drop)]
pub(crate) struct Desks<J: Naming, L: Ledger> {
    pub(crate) shards: Vec<RememberingShard<J>>,
    pub(crate) desk: CountedDesk<L>,
    pub(crate) posts: DeskPosts<J>,
    pub(crate) placed_groups: Vec<PlacedGroup>,
    pub(crate) last: Last<L>,
    ghost sixteen: { length shards.items ≡ shard_count },
    ghost as_many: { posts.lost ≡ false → length posts.all.history ≡ posts_of desk },
    ghost gained: { posts.lost ≡ false
        → HaveGained (desk_of desk) J.began J.rings posts.all.history },
}

impl<J: Naming, L: Ledger> Desks<J, L> {
    ghost use Rattle.std.specs.Prelude.{◌≡◌, IfOk, map};
    ghost use Rattle.id_history.specs.History.{Fits, Holds, history_octets};
    ghost use Rattle.feed_queue.specs.Feeds.{ring_size};
    ghost use Rattle.id_history.specs.Views.{history_view};
    ghost use Rattle.live_store.specs.Started.{unopened_in};
    ghost use Rattle.relay_core.specs.Desks.{setting_of};
    ghost use Rattle.relay_live.specs.Starting.{AreOf};
    ghost use Rattle.post_history.specs.Opening.{book_in};

    /// What is made of a history over started buffers, which the relay began with. No token is
    /// posted.
    pub(crate) fn resume<S: BlockStore + Drop, P: StorePremises>(
        alloc: Global,
        hasher: RandomState,
        config: &Config,
        history: History,
        started: &StartedBuffers<S, P>,
        book: Book<L>,
        opened: Opened,
    ) -> Result<Desks<J, L>, AllocError>
        requires book { book.total ≡ 0 }
        requires posts { book_in opened ≡ J.book }
        requires began { J.began ≡ history_octets (history_view history) }
        requires rings { J.rings ≡ map ring_size config.now.relay.feeds.items }
        requires fits { Fits (history_view history) }
        requires holds { Holds (setting_of config.now) (history_view history) }
        ensures { IfOk result (AreOf config.now (map unopened_in started.now.buffers.items)
            (history_view history)) }
    {
        let History {
            stop: _,
            newest,
            positions,
            feeds,
            ids,
        } = history;
        let used = started.used(alloc)?;
        let placed_groups = resume_placed_groups(alloc, &config.buffers, &used, &positions)?;
        drop(used);
        drop(positions);
        // The text is of this history alone, and its ids are what is left of some claims.
        id_history::text_laws::one_text();
        id_history::laws::each_was_left();
        let posts = DeskPosts::open(opened);
        let shards = Shards::resume(alloc, hasher, ids)?.into_shards();
        let shards = remember_all(alloc, shards, &posts, config.buffers.buffers.len())?;
        let last = Last::after(&book, newest);
        let desk = CountedDesk::resume(alloc, &config.relay.feeds, &feeds, book)?;
        Ok(Desks {
            shards,
            desk,
            posts,
            placed_groups,
            last,
        })
    }
}
