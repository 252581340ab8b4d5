//! What was found of a relay that was left without a stop is told.
ghost use Rattle.std.specs.Prelude.{◌≡◌, ◌<◌, ◌+◌, ◌-◌, ◌^◌, if◌then◌else◌, ℕ, IfOk, get_or, map};
ghost use Rattle.cyc_block.specs.Heads.{head_view};
ghost use Rattle.id_history.specs.History.{Rises};
ghost use Rattle.id_history.specs.Views.{id_view};
ghost use Rattle.relay_startup.specs.Recovered.{AreCountsOf, AreLostSince, count_in, is_of_buffer};
ghost use Rattle.relay_startup.specs.Recovered.{lost_in};

use crate::lost::is_lost;
use crate::unstopped::history_of;
use cyc_block::HeadNumbers;
use id_history::{HistoryError, KeptId};
use relay_conf::{BufferConf, Config};
use relay_core::read_history;
use std::alloc::Global;
use std::str;

/// How many buffers a relay can have.
const BUFFERS: usize = 256;

/// Tells that a relay of so many buffers wasn't stopped, whose last history has so many octets.
pub fn tell_recovering<R: Eprint>(rt: &R, buffers: usize, length: usize) {
    let _lost = eprintln!(rt; "recovering buffers={buffers} history={length}");
}

/// Of the buffer of each number how many articles were found in it, and how many were lost.
#[derive(Drop)]
pub(crate) struct Counted {
    found: [u64; BUFFERS],
    lost: [u64; BUFFERS],
}

/// Tells of each buffer how many articles were found in it, by the ids that the new history has of
/// them, and how many of those that the last one lists were lost; the heads are those of the
/// buffers, once these are shut. Where there is no memory to read both nothing is told.
pub fn tell_recovered<R: Eprint>(
    rt: &R,
    alloc: Global,
    config: &Config,
    last: &[u8],
    text: &[u8],
    heads: &[HeadNumbers],
) {
    let Ok(counted) = count_recovered(alloc, config, last, text, heads) else {
        return;
    };
    for (number, buffer) in config.buffers.buffers.iter().enumerate() {
        if number < BUFFERS {
            tell_buffer(rt, buffer, counted.found[number], counted.lost[number]);
        }
    }
}

/// Tells how many articles were found in a buffer, and how many were lost.
fn tell_buffer<R: Eprint>(rt: &R, buffer: &BufferConf, count: u64, lost: u64) {
    let name = str::from_utf8(buffer.name.as_slice()).unwrap_or("?");
    let _lost = eprintln!(rt; "recovered buffer={name} articles={count} lost={lost}");
}

/// Counts what was found, by the text of the history that was written, and what was lost since the
/// last one, an empty text where none was kept.
fn count_recovered(
    alloc: Global,
    config: &Config,
    last: &[u8],
    text: &[u8],
    heads: &[HeadNumbers],
) -> Result<Counted, HistoryError>
    ensures { IfOk result (AreCountsOf config.now last.now text.now (map head_view heads.now)) }
{
    let history = read_history(alloc, config, text)?;
    let lost = lost_since(alloc, config, last, &history.ids, heads)?;
    let found = counts_of(&history.ids);
    drop(history);
    Ok(Counted { found, lost })
}

/// How many articles were lost in the buffer of each number since the last history, where these ids
/// are found.
fn lost_since(
    alloc: Global,
    config: &Config,
    last: &[u8],
    found: &[KeptId],
    heads: &[HeadNumbers],
) -> Result<[u64; BUFFERS], HistoryError>
    requires rises { Rises (map id_view found.now) }
    ensures { IfOk result (AreLostSince config.now last.now (map head_view heads.now)
        (map id_view found.now)) }
{
    match history_of(last) {
        Some(last) => {
            let last = read_history(alloc, config, last)?;
            let lost = lost_of(&last.ids, found, heads);
            drop(last);
            Ok(lost)
        }
        None => Ok([0; BUFFERS]),
    }
}

/// How many of these ids have an article in the buffer of each number.
fn counts_of(ids: &[KeptId]) -> [u64; BUFFERS]
    ensures { (b : ℕ) → b < 256 → get_or result b 0 ≡ count_in b (map id_view ids.now) }
{
    let mut counts = [0; BUFFERS];
    for one in ids {
        count_id(&mut counts, one);
    }
    counts
}

/// How many articles of these ids of the last stop were lost in the buffer of each number.
fn lost_of(last: &[KeptId], found: &[KeptId], heads: &[HeadNumbers]) -> [u64; BUFFERS]
    requires rises { Rises (map id_view found.now) }
    ensures { (b : ℕ) → b < 256 → get_or result b 0
        ≡ lost_in (map head_view heads.now) (map id_view found.now) b (map id_view last.now) }
{
    let mut counts = [0; BUFFERS];
    for one in last {
        if is_lost(heads, found, one) {
            count_id(&mut counts, one);
        }
    }
    counts
}

/// Counts an id for the buffer of its article, where it has one.
fn count_id(counts: &mut [u64; BUFFERS], one: &KeptId)
    requires room { (b : ℕ) → b < 256 → get_or counts.old b 0 < 2 ^ 64 - 1 }
    ensures { (b : ℕ) → b < 256 → get_or counts.new b 0 ≡ get_or counts.old b 0
        + (if is_of_buffer b (id_view one.now).token then 1 else 0) }
{
    let Some(token) = &one.token else {
        return;
    };
    counts[usize::from(token.buffer)] += 1;
}
