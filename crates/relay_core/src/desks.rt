//! What is kept in memory beside the buffer set, as a start makes it of a history.
ghost use Rattle.std.specs.Prelude.{◌≡◌, ℕ, IfErr, IfOk, OnErr, length, map};
ghost use Rattle.std.specs.List.{AllZip};
ghost use Rattle.feed_queue.specs.Feeds.{ring_size};
ghost use Rattle.id_history.specs.History.{RingHolds};
ghost use Rattle.id_history.specs.Views.{feed_view, history_view, setting_view};
ghost use Rattle.id_history.specs.declared.fault.HistoryError.TheVariants as errors;
ghost use Rattle.relay_conf.specs.Settings.{places_of_groups};
ghost use Rattle.relay_conf.specs.Places.{group_over, group_view, numbered_buffers};
ghost use Rattle.relay_core.specs.Desks.{AreOf, Reads, members_of, setting_of};
ghost use Rattle.id_history.specs.History as texts;

use crate::beginning::new_group_writers;
use crate::expiring::Expirer;
use crate::system::GroupWriter;
use feed_queue::FeedDesk;
use id_history::{History, HistoryError, Setting, Shards, read};
use relay_conf::{Buffers, Config, GroupConf};
use std::alloc::{AllocError, Global};
use std::hash::RandomState;

/// What is kept in memory beside the buffer set.
#[derive(Drop)]
pub(crate) struct Desks {
    pub(crate) shards: Shards,
    pub(crate) desk: FeedDesk,
    pub(crate) group_writers: Vec<GroupWriter>,
    pub(crate) expirer: Expirer,
}

impl Desks {
    /// What is made of a history, with so many group writers. No token is posted.
    pub(crate) fn resume(
        alloc: Global,
        hasher: RandomState,
        config: &Config,
        history: History,
        count: usize,
    ) -> Result<Desks, AllocError>
        requires { AllZip RingHolds (map feed_view history.feeds.items)
            (map ring_size config.now.relay.feeds.items) }
        ensures { IfOk result (AreOf config.now (history_view history) count) }
    {
        let History {
            positions,
            feeds,
            ids,
            ..
        } = history;
        // The buffers have them by now.
        drop(positions);
        let desk = FeedDesk::resume(alloc, &config.relay.feeds, &feeds)?;
        drop(feeds);
        let shards = Shards::resume(alloc, hasher, ids)?;
        let group_writers = new_group_writers(alloc, count)?;
        let expirer = Expirer::new(alloc)?;
        Ok(Desks {
            shards,
            desk,
            group_writers,
            expirer,
        })
    }
}

/// The history of a text that is one of this configuration.
pub fn read_history(alloc: Global, config: &Config, text: &[u8]) -> Result<History, HistoryError>
    ensures reads { IfOk result (λ history. Reads config.now text.now (history_view history)) }
    ensures only { IfOk result (λ history. (kept : texts.Kept)
        → Reads config.now text.now kept → history_view history ≡ kept) }
    ensures none { IfErr result (λ error. error ≡ errors.BadHistory
        → (kept : texts.Kept) → Reads config.now text.now kept → ⊥) }
{
    let setting = setting_for(alloc, config)?;
    read(alloc, text, &setting)
}

/// What a history of this configuration has to fit.
fn setting_for(alloc: Global, config: &Config) -> Result<Setting, AllocError>
    ensures { IfOk result (λ setting. setting_view setting ≡ setting_of config.now) }
{
    Ok(Setting {
        buffers: config.buffers.buffers.len() as u32,
        groups: group_sizes(alloc, config)?,
        rings: rings(alloc, &config.relay.feeds)?,
    })
}

/// Of each group how many buffers it has.
fn group_sizes(alloc: Global, config: &Config) -> Result<Vec<u32>, AllocError>
    ensures { IfOk result (λ sizes.
        sizes.items ≡ map members_of (places_of_groups config.now.buffers)) }
{
    let groups = &config.buffers.groups;
    let mut sizes = Vec::with_capacity(alloc, groups.len())?;
    for group in groups {
        sizes.push_reserved(members(&config.buffers, group) as u32);
    }
    Ok(sizes)
}

/// How many buffers the group has.
fn members(settings: &Buffers, group: &GroupConf) -> usize
    ensures { result
        ≡ members_of (group_over (numbered_buffers settings.now.buffers.items)
        (group_view group.now)) }
{
    let mut count = 0;
    for number in &group.buffers {
        if *number < settings.buffers.len() {
            count += 1;
        }
    }
    count
}

/// Of each feed how many tokens its ring holds.
pub fn rings(alloc: Global, feeds: &[relay_conf::Feed]) -> Result<Vec<u32>, AllocError>
    ensures { IfOk result (λ rings. rings.items ≡ map ring_size feeds.now) }
{
    let mut rings = Vec::with_capacity(alloc, feeds.len())?;
    for feed in feeds {
        rings.push_reserved(feed.ring);
    }
    Ok(rings)
}
