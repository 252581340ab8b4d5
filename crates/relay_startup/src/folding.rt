//! The last history that a repair goes by: with its journal folded in (docs/FORMATS.md, Journal
//! file).
ghost use Rattle.std.specs.Prelude.{◌≡◌, ℕ, List, Option, IfErr, IfOk, map, replicate};
ghost use Rattle.id_history.specs.History.{history_octets};
ghost use Rattle.id_history.specs.Views.{feed_view, history_view};
ghost use Rattle.relay_core.specs.Desks.{Reads, setting_of};
ghost use Rattle.relay_log.specs.FoldedText.{IsTextWith};
ghost use Rattle.relay_journal.specs.Reading.{IsJournalRead};
ghost use Rattle.relay_startup.specs.LastHistory.{IsLastWith, empty_feed, first_kept, last_text};
ghost use Rattle.buffer_files.specs.Faults.{IsServeFault};

use crate::stop_number::no_history;
use buffer_files::hasher_of;
use id_history::{History, HistoryError, KeptFeed, write};
use relay_conf::Config;
use relay_core::{GROUP_LIMIT, read_history};
use relay_folder::{HistoryPlace, JournalPlace};
use relay_journal::{JournalLines, ToldJournal, read_journal};
use relay_log::history_with;
use relay_report::ServeError;
use std::alloc::{AllocError, Global};
use std::random::RandomSource;

/// The text of the last history that a repair goes by, of the one that is kept: with the journal
/// folded in, where there is one that can be read.
pub fn last_history<P: JournalPlace, L: JournalLines, R: RandomSource>(
    rt: &R,
    alloc: Global,
    config: &Config,
    journal: &mut ToldJournal<P, L>,
    text: &[u8],
) -> Result<Vec<u8>, ServeError>
    ensures last { IfOk result (λ last. (read : Option (List ℕ))
        × IsJournalRead ⟦<P as HistoryPlace>⟧ L.JournalLines read journal.old journal.new
        × IsLastWith config.now text.now read last.items) }
    ensures fault { IfErr result (IsServeFault config.now) }
{
    match read_journal(alloc, journal)? {
        Some(octets) => text_with(rt, alloc, config, text, &octets),
        None => Ok(text.to_vec(alloc)?),
    }
}

/// The text of the last history with the journal folded in that these octets begin with.
fn text_with<R: RandomSource>(
    rt: &R,
    alloc: Global,
    config: &Config,
    text: &[u8],
    journal: &[u8],
) -> Result<Vec<u8>, ServeError>
    ensures folded { IfOk result (λ last. IsTextWith (setting_of config.now)
        (last_text config.now text.now) journal.now last.items) }
    ensures fault { IfErr result (IsServeFault config.now) }
{
    let hasher = hasher_of(rt)?;
    let history = match history_of_last(alloc, config, text) {
        Ok(history) => history,
        Err(error) => return Err(no_history(error)),
    };
    let buffers = config.buffers.buffers.len() as u32;
    let history = history_with(alloc, hasher, history, journal, buffers)?;
    let text = write(alloc, &history)?;
    drop(history);
    Ok(text)
}

/// The history that a journal is folded in to: of this text, and where that is empty of a relay
/// that was never stopped.
fn history_of_last(alloc: Global, config: &Config, text: &[u8]) -> Result<History, HistoryError>
    ensures { IfOk result (λ history.
        Reads config.now (last_text config.now text.now) (history_view history)) }
{
    if text.is_empty() {
        let first = first_text(alloc, config)?;
        read_history(alloc, config, &first)
    } else {
        read_history(alloc, config, text)
    }
}

/// The text of the history of a relay that was never stopped.
fn first_text(alloc: Global, config: &Config) -> Result<Vec<u8>, AllocError>
    ensures { IfOk result (λ text. text.items ≡ history_octets (first_kept config.now)) }
{
    let groups = config.buffers.groups.len();
    // There are no more groups.
    if groups > GROUP_LIMIT {
        return Err(AllocError);
    }
    let history = History {
        stop: 0,
        newest: 0,
        positions: vec![in alloc; 0; groups]?,
        feeds: empty_feeds(alloc, config.relay.feeds.len())?,
        ids: Vec::new(alloc),
    };
    let text = write(alloc, &history);
    drop(history);
    text
}

/// So many feeds that have gained nothing.
fn empty_feeds(alloc: Global, count: usize) -> Result<Vec<KeptFeed>, AllocError>
    ensures { IfOk result (λ feeds. map feed_view feeds.items ≡ replicate count empty_feed) }
{
    let mut feeds = Vec::new(alloc);
    for _ in 0..count {
        feeds.push(KeptFeed {
            gained: 0,
            passed: 0,
            taken: 0,
            waiting: Vec::new(alloc),
        })?;
    }
    Ok(feeds)
}
