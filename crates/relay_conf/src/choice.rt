//! The first entry whose conditions hold.
ghost use Rattle.std.specs.Prelude.{◌≡◌, map};
ghost use Rattle.std.specs.Option.{option_map};
ghost use Rattle.news_terms.specs.StorageClass.{chosen_entry};
ghost use Rattle.news_terms.specs.StorageClass as terms;
ghost use Rattle.relay_conf.specs.Storage.{entry_view};
ghost use Rattle.relay_conf.specs.Choice.{given, octets_of};

use crate::settings::StorageEntry;
use uwild::Verdict;

/// The class and the group of buffers of an article: those of the first entry whose conditions hold
/// for its newsgroups and its size in octets (docs/FORMATS.md, Configuration). It takes no memory,
/// and judges each newsgroup at most once for an entry.
pub fn choose(storage_entries: &[StorageEntry], groups: &[&[u8]], size: u64) -> Option<(u8, u16)>
    ensures { result ≡ option_map given
        (chosen_entry (map entry_view storage_entries.now) (map octets_of groups.now) size) }
{
    for storage_entry in storage_entries {
        if takes_size(storage_entry, size) && takes_groups(storage_entry, groups) {
            return Some((storage_entry.class, storage_entry.group));
        }
    }
    None
}

/// Whether the entry takes the size, both ends included.
fn takes_size(storage_entry: &StorageEntry, size: u64) -> bool
    ensures { result ≡ terms.takes_size (entry_view storage_entry.now) size }
{
    storage_entry.smallest <= size && is_at_most(storage_entry.largest, size)
}

/// Whether a size is within a limit, where there is one.
fn is_at_most(limit: Option<u64>, size: u64) -> bool
    ensures { result ≡ terms.is_at_most limit size }
{
    match limit {
        Some(limit) => size <= limit,
        None => true,
    }
}

/// Whether at least one group is Match and none Poison, and with exactmatch every group is Match.
fn takes_groups(storage_entry: &StorageEntry, groups: &[&[u8]]) -> bool
    ensures { result
        ≡ terms.takes_groups (entry_view storage_entry.now) (map octets_of groups.now) }
{
    let mut has_match = false;
    for group in groups {
        match storage_entry.newsgroups.judge(group) {
            Verdict::Match => has_match = true,
            Verdict::Fail => {
                if storage_entry.exactmatch {
                    return false;
                }
            }
            Verdict::Poison => return false,
        }
    }
    has_match
}
