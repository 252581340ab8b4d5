//! What is told of the entries of storage.conf, in the order in which they are tried.
ghost use Rattle.std.specs.Prelude.{◌≡◌, find, flat_map, map, slice_get};
ghost use Rattle.std.specs.Option.{option_copied};
ghost use Rattle.relay_explain.specs.Entries as terms;
ghost use Rattle.relay_explain.specs.Lines.{told_line};
ghost use Rattle.relay_explain.specs.Text.{Adds};

use crate::buffers::largest_stored;
use crate::choice::group_at;
use crate::patterns::put_pattern_odds;
use crate::rows::{Row, rows_of};
use crate::text::{Text, begin_line, put_odd, put_odd_number};
use line_words::is;
use relay_conf::{Config, StorageEntry};
use std::alloc::Global;

/// The file in which entries are said.
const STORAGE: &[u8] = b"storage.conf";

/// Puts what is told of all entries.
#[tactic(auto, unfolding(crate::specs::Entries::entries_text))]
pub(crate) fn put_entries(alloc: Global, text: Text, config: &Config, lines: &[&[u8]]) -> Text
    ensures { Adds text result
        (terms.entries_text config.now (map (λ line. line.now) lines.now)) }
{
    match rows_of(alloc, &config.storage_entries, lines) {
        Ok(rows) => {
            let text = put_rows(text, config, &rows);
            put_no_entries(text, &rows)
        }
        Err(error) => text.fail(error),
    }
}

/// Puts what is told of each entry.
fn put_rows(mut text: Text, config: &Config, rows: &[Row<'_>]) -> Text
    ensures { Adds text result (flat_map (terms.entry_text config.now rows.now) rows.now) }
{
    for row in rows {
        text = put_entry(text, config, rows, row);
    }
    text
}

/// Puts what is told where there is no entry.
fn put_no_entries(text: Text, rows: &[Row<'_>]) -> Text
    ensures { Adds text result (terms.no_entries rows.now) }
{
    if rows.len() > 0 {
        return text;
    }
    text.add(b"storage.conf: odd: there is no entry: each article is refused\n")
}

/// Puts what is told of an entry, among all.
fn put_entry(text: Text, config: &Config, rows: &[Row<'_>], row: &Row<'_>) -> Text
    ensures { Adds text result (terms.entry_text config.now rows.now row.now) }
{
    let text = put_entry_line(text, config, row);
    let text = put_pattern_odds(text, STORAGE, row.line, row.newsgroups);
    let text = put_odd(
        text,
        takes_no_size(largest_stored(config), row.entry),
        STORAGE,
        row.line,
        b"no article has such a size",
    );
    put_shadow_odd(text, row.line, shadow_of(rows, row))
}

/// Puts the line of an entry.
#[tactic(auto, unfolding(crate::specs::Entries::entry_told))]
fn put_entry_line(text: Text, config: &Config, row: &Row<'_>) -> Text
    ensures { Adds text result
        (told_line terms.storage row.now.line (terms.entry_told config.now row.now)) }
{
    let text = begin_line(text, STORAGE, row.line)
        .add(b"entry ")
        .add_number(row.number as u128)
        .add(b" takes articles of ");
    put_taken(text, row)
        .add(b": class ")
        .add_number(row.entry.class as u128)
        .add(b", group ")
        .add(group_name(config, row.entry.group))
        .add(b"\n")
}

/// Puts the articles that an entry takes: their sizes, their newsgroups, and how many of these have
/// to match.
#[tactic(auto, unfolding(crate::specs::Entries::taken_text))]
fn put_taken(text: Text, row: &Row<'_>) -> Text
    ensures { Adds text result (terms.taken_text row.now) }
{
    let text = put_sizes(text, row.entry.smallest, row.entry.largest);
    put_newsgroups(text, row)
}

/// Puts the newsgroups that an entry takes, and how many of an article's have to match.
fn put_newsgroups(text: Text, row: &Row<'_>) -> Text
    ensures { Adds text result (terms.newsgroups_text row.now) }
{
    let text = text.add(b" in newsgroups ").add(row.newsgroups);
    if row.entry.exactmatch {
        return text.add(b" (all of them)");
    }
    text.add(b" (one of them)")
}

/// Puts the sizes that an entry takes.
#[tactic(auto, unfolding(crate::specs::Entries::sizes_text))]
fn put_sizes(text: Text, smallest: u64, largest: Option<u64>) -> Text
    ensures { Adds text result (terms.sizes_text smallest largest) }
{
    let text = text.add_number(smallest as u128);
    match largest {
        None => text.add(b" octets and more"),
        Some(largest) => {
            text.add(b" to ")
                .add_number(largest as u128)
                .add(b" octets")
        }
    }
}

/// The name of the group of this number; one that isn't there has none.
fn group_name(config: &Config, group: u16) -> &[u8]
    ensures { result.now
        ≡ terms.group_name (slice_get config.now.buffers.groups.items group) }
{
    match group_at(config, group) {
        Some(group) => group.name.as_slice(),
        None => b"",
    }
}

/// Whether no size is taken that an article may have.
#[tactic(auto, unfolding(crate::specs::Entries::takes_no_size))]
fn takes_no_size(largest_stored: u64, entry: &StorageEntry) -> bool
    ensures { result ≡ terms.takes_no_size largest_stored entry.now }
{
    largest_stored < entry.smallest || !is_limit_within(Some(entry.smallest), entry.largest)
}

/// Puts what is odd in an entry that an earlier one, the first of these, shadows.
#[tactic(auto, unfolding(crate::specs::Entries::shadow_odd))]
fn put_shadow_odd(text: Text, line: usize, first: Option<&Row<'_>>) -> Text
    ensures { Adds text result (terms.shadow_odd line (option_copied first.entry)) }
{
    match first {
        None => text,
        Some(first) => {
            let told = b"the entry takes nothing: all of it is taken by entry ";
            put_odd_number(text, STORAGE, line, told, first.number as u128, b"")
        }
    }
}

/// The first entry that is tried before this one and takes all that it takes.
fn shadow_of<'a, 'b>(rows: &'a [Row<'b>], row: &Row<'_>) -> Option<&'a Row<'b>>
    ensures { option_copied result ≡ find (λ first. terms.shadows first row.now) rows.now }
{
    for first in rows {
        if shadows(first, row) {
            return Some(first);
        }
    }
    None
}

/// Whether an entry is tried before the other and takes all that it takes.
#[tactic(auto, unfolding(crate::specs::Entries::shadows))]
fn shadows(row: &Row<'_>, other: &Row<'_>) -> bool
    ensures { result ≡ terms.shadows row.now other.now }
{
    row.number < other.number
        && (covers_sizes(row.entry, other.entry) && covers_newsgroups(row, other))
}

/// Whether an entry takes each size that the other takes.
fn covers_sizes(entry: &StorageEntry, other: &StorageEntry) -> bool
    ensures { result ≡ terms.covers_sizes entry.now other.now }
{
    entry.smallest <= other.smallest && is_limit_within(other.largest, entry.largest)
}

/// Whether a size within this limit is within the other one.
fn is_limit_within(limit: Option<u64>, other: Option<u64>) -> bool
    ensures { result ≡ terms.is_limit_within limit other }
{
    match other {
        None => true,
        Some(other) => match limit {
            None => false,
            Some(limit) => limit <= other,
        },
    }
}

/// Whether an entry takes all newsgroups that the other takes.
fn covers_newsgroups(row: &Row<'_>, other: &Row<'_>) -> bool
    ensures { result ≡ terms.covers_newsgroups row.now other.now }
{
    is(row.newsgroups, b"*")
        || (is(row.newsgroups, other.newsgroups)
            && (!row.entry.exactmatch || other.entry.exactmatch))
}
