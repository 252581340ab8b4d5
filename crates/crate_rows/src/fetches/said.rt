//! A row for what is said to the journal where articles are stored and refused (relay_live,
//! live_journal).
ghost use Rattle.std.specs.Prelude.{◌≡◌};
ghost use Rattle.relay_live.specs.Holding.{has_buffer};

use crate::fetches::{Device, Standing, is_kept};
use crate::jobs::{SESSION, id_of, job};
use crate::row_text::{Cells, Sheet};
use live_jobs::OwnThreads;
use live_journal::{Batch, PendingJournal};
use live_session::{Clock, Shares};
use live_store::{ArticleLog, StorePremises};
use post_history::Naming;
use relay_conf::Config;
use relay_live::{JournaledShares, Keeper, Shared};
use relay_log::{Entry, Journal, begin, read};
use std::alloc::{AllocError, Global};
use std::sync::Wait;
use std::sync::ledger::{Ledger, Share};

/// A session that is another than that which brings the articles.
const OTHER_SESSION: u64 = 2;

/// Does what each of the last cells says: `+N` stores the article of this number, `-N` refuses it,
/// `?N` offers it to another session, and `.` writes what was said since the last one, in a journal
/// with room for as many octets as the first cell says.
pub(super) fn put_said<J: StorePremises + Naming, L: Ledger, R: Wait>(
    rt: &R,
    config: &Config,
    register: &ArticleLog,
    shared: &Shared<Device, J, L>,
    share: Share<L>,
    cells: &Cells,
    sheet: &Sheet,
)
    requires register { register.now ≡ J.register }
    requires holds { J.holds ≡ has_buffer config.now.buffers }
    requires part { share.parts ≡ 1 }
{
    let room = sheet.read(cells.next()) as usize;
    match journal_of(sheet.alloc, room) {
        Ok((journal, spare)) => {
            let keeper = Keeper::new(shared, register, &config.buffers, &Standing, &journal);
            put_steps(
                rt,
                shared,
                &keeper,
                &journal,
                spare,
                share,
                cells.rest(),
                sheet,
            );
            drop(journal);
        }
        Err(_) => {
            drop(share);
            sheet.lack();
        }
    }
}

/// A journal and a spare batch, each with room for so many octets.
fn journal_of(alloc: Global, room: usize) -> Result<(PendingJournal, Batch), AllocError> {
    let journal = PendingJournal::new(alloc, room)?;
    match Batch::new(alloc, room) {
        Ok(spare) => Ok((journal, spare)),
        Err(error) => {
            drop(journal);
            Err(error)
        }
    }
}

/// Does what each of these words says.
fn put_steps<J: StorePremises + Naming, L: Ledger, R: Wait>(
    rt: &R,
    shared: &Shared<Device, J, L>,
    keeper: &Keeper<'_, Device, J, L, Standing, ArticleLog>,
    journal: &PendingJournal,
    mut spare: Batch,
    mut share: Share<L>,
    words: &[Vec<u8>],
    sheet: &Sheet,
)
    requires { share.parts ≡ 1 }
{
    for word in words {
        let Some((step, digits)) = word.split_first() else {
            return sheet.refuse();
        };
        match *step {
            b'.' => spare = put_taken(rt, journal, spare, sheet),
            b'+' => store(rt, shared, keeper, &mut share, sheet.read(digits), sheet),
            b'-' => refuse(rt, shared, journal, sheet.read(digits), sheet),
            b'?' => offer(rt, shared, sheet.read(digits), sheet),
            _ => return sheet.refuse(),
        }
    }
}

/// Stores the article of this number, where it can be kept.
fn store<J: StorePremises + Naming, L: Ledger, R: Wait>(
    rt: &R,
    shared: &Shared<Device, J, L>,
    keeper: &Keeper<'_, Device, J, L, Standing, ArticleLog>,
    share: &mut Share<L>,
    number: u64,
    sheet: &Sheet,
)
    requires { share.old.parts ≡ 1 }
    ensures { share.new.parts ≡ 1 }
{
    match job(number, 1, sheet) {
        Some(job) => {
            let _kept = is_kept(rt, shared, keeper, share, job);
        }
        None => sheet.refuse(),
    }
}

/// Refuses the article of this number, as sessions do.
fn refuse<J: StorePremises + Naming, L: Ledger, R: Wait>(
    rt: &R,
    shared: &Shared<Device, J, L>,
    journal: &PendingJournal,
    number: u64,
    sheet: &Sheet,
) {
    let turns = OwnThreads;
    let shares = JournaledShares::new(shared, journal, &turns);
    match id_of(number, sheet) {
        Some(id) => {
            if shares
                .refuse(rt, &id, SESSION, Standing.now(), None)
                .is_err()
            {
                sheet.lack();
            }
            drop(id);
        }
        None => sheet.refuse(),
    }
}

/// Offers the article of this number to another session.
fn offer<J: StorePremises + Naming, L: Ledger, R: Wait>(
    rt: &R,
    shared: &Shared<Device, J, L>,
    number: u64,
    sheet: &Sheet,
) {
    match id_of(number, sheet) {
        Some(id) => {
            if shared
                .offer(rt, &id, OTHER_SESSION, Standing.now(), None)
                .is_err()
            {
                sheet.lack();
            }
            drop(id);
        }
        None => sheet.refuse(),
    }
}

/// Takes what was said and writes it; the next one that is taken is the one that was given.
fn put_taken<R: Wait>(rt: &R, journal: &PendingJournal, spare: Batch, sheet: &Sheet) -> Batch {
    let batch = journal.take(rt, spare);
    if !sheet.is_empty() {
        sheet.put(b"; ");
    }
    match journal_with(sheet.alloc, batch.octets()) {
        Ok(Some(journal)) => put_entries(&journal, sheet),
        Ok(None) => sheet.refuse(),
        Err(_) => sheet.lack(),
    }
    sheet.numbered(b"left out ", batch.left_out());
    batch
}

/// What is read of a journal whose entries have these octets.
fn journal_with(alloc: Global, octets: &[u8]) -> Result<Option<Journal>, AllocError> {
    let mut text = begin(alloc, 1)?;
    text.extend_from_slice(octets)?;
    read(alloc, &text)
}

/// Writes the entries of a journal, each with a comma behind it.
fn put_entries(journal: &Journal, sheet: &Sheet) {
    for entry in &journal.entries {
        put_entry(entry, sheet);
        sheet.put(b", ");
    }
}

/// Writes what an entry says.
fn put_entry(entry: &Entry, sheet: &Sheet) {
    match entry {
        Entry::Refused { id, moment } => {
            sheet.put(b"refused ");
            sheet.cell(id.as_bytes());
            sheet.numbered(b" ", *moment);
        }
        Entry::Stored { id, moment, token } => {
            sheet.put(b"stored ");
            sheet.cell(id.as_bytes());
            sheet.numbered(b" ", *moment);
            sheet.next(&token.to_text());
        }
        Entry::Taken { .. } => sheet.refuse(),
    }
}
