//! The entries of storage.conf as its lines say them.
ghost use Rattle.std.specs.Prelude.{◌≡◌, drop, map, slice_get, take, unwrap_or, IfOk};
ghost use Rattle.std.specs.List.{enumerate_from};
ghost use Rattle.std.specs.Option.{option_copied};
ghost use Rattle.relay_explain.specs.Entries as terms;

use crate::lines::has_word;
use line_words::{is, trim};
use relay_conf::{StorageEntry, key_and_value};
use std::alloc::{AllocError, Global};
use std::marker::Model;

/// An entry as it is said: its number from 1, the line that begins it, the text of its expression,
/// and its settings.
#[derive(Drop)]
pub(crate) struct Row<'a> {
    pub(crate) number: usize,
    pub(crate) line: usize,
    pub(crate) newsgroups: &'a [u8],
    pub(crate) entry: &'a StorageEntry,
}

impl<'a> Model for Row<'a> {
    ghost use Rattle.relay_explain.specs.Entries.{Said};

    ghost Value = { Said };

    ghost view = { λ row. record {
      number = row.number;
      line = row.line;
      newsgroups = row.newsgroups.now;
      entry = row.entry.now;
    } };
}

/// All entries, as the lines say them.
pub(crate) fn rows_of<'a>(
    alloc: Global,
    storage_entries: &'a [StorageEntry],
    lines: &[&'a [u8]],
) -> Result<Vec<Row<'a>>, AllocError>
    ensures { IfOk result (λ rows. rows.items
        ≡ map (terms.said_entry (map (λ line. line.now) lines.now))
        (enumerate_from 0 storage_entries.now)) }
{
    let begins = entry_lines(alloc, lines)?;
    let mut rows = Vec::new(alloc);
    for (place, entry) in storage_entries.iter().enumerate() {
        let line = number_at(&begins, place);
        rows.push(Row {
            number: place + 1,
            line,
            newsgroups: newsgroups_in(behind(lines, line)),
            entry,
        })?;
    }
    Ok(rows)
}

/// The number of this place, 0 where there is none.
pub(crate) fn number_at(numbers: &[usize], place: usize) -> usize
    ensures { result ≡ unwrap_or (slice_get numbers.now place) 0 }
{
    match numbers.get(place) {
        Some(number) => *number,
        None => 0,
    }
}

/// The first so many, or all where there are fewer.
pub(crate) fn first_ones<T>(all: &[T], most: usize) -> &[T]
    ensures { result.now ≡ take most all.now }
{
    if most < all.len() { &all[..most] } else { all }
}

/// What stands behind so many lines.
fn behind<'a, 'b>(lines: &'b [&'a [u8]], most: usize) -> &'b [&'a [u8]]
    ensures { result.now ≡ drop most lines.now }
{
    if most < lines.len() {
        &lines[most..]
    } else {
        &[]
    }
}

/// The numbers from 1 of the lines that begin entries.
fn entry_lines(alloc: Global, lines: &[&[u8]]) -> Result<Vec<usize>, AllocError>
    ensures { IfOk result (λ numbers. numbers.items
        ≡ terms.entry_lines (map (λ line. line.now) lines.now)) }
{
    let mut numbers = Vec::new(alloc);
    for (at, line) in lines.iter().enumerate() {
        if has_word(line, b"method") {
            numbers.push(at + 1)?;
        }
    }
    Ok(numbers)
}

/// The text of the expression that the first of these lines says that says one.
fn newsgroups_in<'a>(lines: &[&'a [u8]]) -> &'a [u8]
    ensures { result.now ≡ terms.newsgroups_in (map (λ line. line.now) lines.now) }
{
    for line in lines {
        if let Some(newsgroups) = newsgroups_on(line) {
            return newsgroups;
        }
    }
    b""
}

/// The text of the expression that a line says, where it has the key `newsgroups`.
fn newsgroups_on(line: &[u8]) -> Option<&[u8]>
    ensures { option_copied result ≡ terms.newsgroups_on line.now }
{
    let (key, value) = key_and_value(trim(line))?;
    if is(key, b"newsgroups") {
        Some(trim(value))
    } else {
        None
    }
}
