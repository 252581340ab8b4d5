//! Why there is no history of a relay of the configuration (docs/FORMATS.md, History file).
ghost use Rattle.std.specs.Prelude.{◌≡◌, map};
ghost use Rattle.std.specs.List.{AllByRecursion};
ghost use Rattle.id_history.specs.Conditions as conditions;
ghost use Rattle.id_history.specs.Conditions.{feeds_hold};
ghost use Rattle.id_history.specs.History.{FeedFits, Fits};
ghost use Rattle.id_history.specs.Views.{feed_view, history_view};
ghost use Rattle.relay_conf.specs.Places.{group_over, group_view, numbered_buffers};
ghost use Rattle.relay_conf.specs.Settings.{places_of_groups};
ghost use Rattle.relay_core.specs.Desks.{members_of, setting_of};
ghost use Rattle.relay_startup.specs.Causes as told;
ghost use Rattle.relay_startup.specs.Causes.{own_rings};

use id_history::{History, KeptFeed, feed_holds, feeds_hold, ids_hold, rise};
use relay_conf::{Buffers, Config, GroupConf};
use relay_report::HistoryFault;

/// How many buffers a token can name.
const NAMEABLE: u32 = 256;

/// Why a history isn't one of a relay of this configuration, of whose feeds these are the rings:
/// the first cause that there is.
pub(crate) fn unfit(config: &Config, rings: &[u32], history: &History) -> Option<HistoryFault>
    requires fits { Fits (history_view history.now) }
    requires rings { rings.now ≡ (setting_of config.now).rings }
    ensures { result ≡ told.unfit (setting_of config.now) (history_view history.now) }
{
    if !is_of_some(history) {
        return Some(HistoryFault::Text);
    }
    if !are_positions(&config.buffers, &history.positions) {
        return Some(HistoryFault::Groups);
    }
    if history.feeds.len() != rings.len() {
        return Some(HistoryFault::Feeds);
    }
    if !feeds_hold(NAMEABLE, &history.feeds, rings) {
        return Some(HistoryFault::Ring);
    }
    let buffers = config.buffers.buffers.len() as u32;
    if !(feeds_hold(buffers, &history.feeds, rings) && ids_hold(buffers, &history.ids)) {
        return Some(HistoryFault::Buffers);
    }
    None
}

/// Whether a relay can have stopped so, whatever it was configured as.
fn is_of_some(history: &History) -> bool
    requires fits { Fits (history_view history.now) }
    ensures { result ≡ told.is_of_some (history_view history.now) }
{
    hold_own(&history.feeds) && ids_hold(NAMEABLE, &history.ids) && rise(&history.ids)
}

/// Whether each feed can have come to this, with a ring that holds what waits.
fn hold_own(feeds: &[KeptFeed]) -> bool
    requires fit { AllByRecursion FeedFits (map feed_view feeds.now) }
    ensures { result ≡ feeds_hold 256 (map feed_view feeds.now)
        (own_rings (map feed_view feeds.now)) }
{
    let mut left = feeds;
    while let Some((feed, others)) = left.split_first() {
        if !feed_holds(NAMEABLE, feed, feed.waiting.len() as u32) {
            return false;
        }
        left = others;
    }
    true
}

/// Whether each position is one of its group's buffers.
fn are_positions(settings: &Buffers, positions: &[u32]) -> bool
    ensures { result ≡ conditions.are_positions positions.now
        (map members_of (places_of_groups settings.now)) }
{
    let mut left = positions;
    let mut groups = settings.groups.as_slice();
    while let Some((position, others)) = left.split_first() {
        let Some((group, more)) = groups.split_first() else {
            return false;
        };
        if u64::from(*position) >= members(settings, group) as u64 {
            return false;
        }
        left = others;
        groups = more;
    }
    groups.is_empty()
}

/// How many buffers a group has.
fn members(settings: &Buffers, group: &GroupConf) -> usize
    ensures { result
        ≡ members_of (group_over (numbered_buffers settings.now.buffers.items)
        (group_view group.now)) }
{
    let mut count = 0;
    for number in &group.buffers {
        if *number < settings.buffers.len() {
            count += 1;
        }
    }
    count
}
