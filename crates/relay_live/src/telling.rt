//! The text of a relay's history, which no thread shares any more.
ghost use Rattle.std.specs.Prelude.{◌≡◌, ◌≤◌, IfOk, length};
ghost use Rattle.block_shelf.specs.Each.{AreEach};
ghost use Rattle.block_shelf.specs.Stopping.{TellsPosition};
ghost use Rattle.live_jobs.specs.Desks.{desk_of};
ghost use Rattle.post_history.specs.Shards.{shards_in};
ghost use Rattle.relay_core.specs.Stopping.{TellsFeeds};
ghost use Rattle.relay_live.specs.Telling.{AreEntries};
ghost use Rattle.relay_model.specs.Terms.{shard_count};

use crate::alone::Alone;
use block_shelf::PlacedGroup;
use cyc_block::BlockStore;
use id_history::{History, KeptFeed, KeptId, sort, write};
use live_jobs::CountedDesk;
use live_store::StorePremises;
use post_history::{Naming, RememberingShard};
use std::alloc::{AllocError, Global};
use std::sync::ledger::Ledger;

impl<S: BlockStore + Drop, J: StorePremises + Naming, L: Ledger> Alone<S, J, L> {
    ghost use Rattle.std.specs.Prelude.{◌≡◌, false, IfOk};
    ghost use Rattle.relay_live.specs.Gains.{TellGained};
    ghost use Rattle.relay_live.specs.Stopping.{TellsHistory};

    /// The text of its history at this stop.
    pub(crate) fn text(&self, alloc: Global, stop: u64) -> Result<Vec<u8>, AllocError>
        ensures tells { IfOk result (λ text. TellsHistory self.now stop text.items) }
        ensures gained { self.now.posts.lost ≡ false → IfOk result (λ text.
            TellGained J.began J.rings self.now.posts.all.history text.items) }
    {
        let positions = positions_of(alloc, &self.placed_groups)?;
        let feeds = kept_feeds(alloc, &self.desk, self.feeds)?;
        let ids = entries_of(alloc, &self.shards)?;
        let history = History {
            stop,
            newest: self.last.number(),
            positions,
            feeds,
            ids,
        };
        match write(alloc, &history) {
            Ok(text) => {
                drop(history);
                Ok(text)
            }
            Err(error) => {
                drop(history);
                Err(error)
            }
        }
    }
}

/// The place of the current buffer of each group in it, counted from 0.
fn positions_of(alloc: Global, placed_groups: &[PlacedGroup]) -> Result<Vec<u32>, AllocError>
    ensures { IfOk result (λ positions. AreEach TellsPosition placed_groups.now positions.items) }
{
    let mut positions = Vec::with_capacity(alloc, placed_groups.len())?;
    for placed_group in placed_groups {
        positions.push_reserved(placed_group.position());
    }
    Ok(positions)
}

/// What is left of so many feeds.
fn kept_feeds<L: Ledger>(
    alloc: Global,
    desk: &CountedDesk<L>,
    count: usize,
) -> Result<Vec<KeptFeed>, AllocError>
    requires { count ≤ 1024 }
    ensures { IfOk result (λ kept. TellsFeeds (desk_of desk.now) count kept.items) }
{
    let mut kept = Vec::with_capacity(alloc, count)?;
    for number in 0..count {
        if let Some(one) = desk.kept(alloc, number as u16)? {
            kept.push_reserved(one);
        }
    }
    Ok(kept)
}

/// The message-ids that are stored or were refused, of all shards, rising by their octets.
fn entries_of<J: Naming>(
    alloc: Global,
    shards: &[RememberingShard<J>],
) -> Result<Vec<KeptId>, AllocError>
    requires { length shards.now ≡ shard_count }
    ensures { IfOk result (λ entries. AreEntries (shards_in shards.now) entries.items) }
{
    let mut entries = Vec::new(alloc);
    for shard in shards {
        shard.shard.gather(&mut entries)?;
    }
    sort(&mut entries);
    Ok(entries)
}
