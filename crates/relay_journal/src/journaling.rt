//! The journal of a relay is written while it is served, beside whoever refuses and stores
//! articles.
ghost use Rattle.std.specs.Prelude.{◌≡◌, if◌then◌else◌};
ghost use Rattle.relay_journal.specs.Writing as terms;
ghost use Rattle.relay_journal.specs.Writing.{WritesBatch, WritesSome};

use crate::lines::JournalLines;
use crate::writing::JournalWriter;
use live_journal::{Batch, PendingJournal};
use relay_folder::JournalFile;
use std::alloc::{AllocError, Global};
use std::sync::Wait;
use std::sync::atomic::{AtomicBool, Ordering};
use std::thread;
use std::time::{Clock, Duration};

/// How many octets of entries wait at most until they are put behind the journal.
pub const ROOM: usize = 4_194_304;

/// For how many milliseconds nobody looks what was said, where nothing was.
const LONG_NAP: u64 = 100;

/// For how many milliseconds nobody looks, where something was.
const SHORT_NAP: u64 = 10;

/// What writes a relay's journal while it is served.
#[derive(Drop)]
pub struct Journaling<'a, F, L> {
    writer: JournalWriter<F, L>,
    /// What is said to it.
    pending: &'a PendingJournal,
    /// What is said to while a batch is written.
    spare: Batch,
    /// After how many seconds at most what was written is flushed, if it is.
    every: Option<u64>,
}

impl<'a, F: JournalFile + Drop, L: JournalLines + Drop> Journaling<'a, F, L> {
    /// What writes what is said there, and has the device take it that often in seconds, if at all.
    /// All memory is taken here.
    pub fn new(
        alloc: Global,
        writer: JournalWriter<F, L>,
        pending: &'a PendingJournal,
        every: Option<u64>,
    ) -> Result<Journaling<'a, F, L>, AllocError> {
        let spare = Batch::new(alloc, ROOM)?;
        Ok(Journaling {
            writer,
            pending,
            spare,
            every,
        })
    }

    /// Writes what is said, batch after batch, until the relay has ended and all is written that
    /// was said before.
    pub fn go_on<R: Wait + Clock>(self, rt: &R, end: &AtomicBool) {
        let Journaling {
            mut writer,
            pending,
            spare,
            every,
        } = self;
        let mut flushed = second_of(rt);
        let mut batch = spare;
        for _ in rt.forever() {
            // Asked before the batch is taken, so that the last one has all that was said.
            let has_ended = end.load(Ordering::SeqCst);
            batch = pending.take(rt, batch);
            let wrote = write_batch(&mut writer, &batch);
            if has_ended {
                return;
            }
            let now = second_of(rt);
            if is_due(flushed, every, now) {
                writer.flush();
                flushed = now;
            }
            thread::sleep(rt, Duration::from_millis(nap(wrote)));
        }
    }
}

/// The second of the machine's clock that never goes back, the first one where it can't be asked.
pub fn second_of<R: Clock>(rt: &R) -> u64 {
    match rt.monotonic() {
        Ok(passed) => passed.as_secs(),
        Err(_) => 0,
    }
}

/// Whether it is time for a flush: so many seconds after the last one, where any is asked for.
fn is_due(flushed: u64, every: Option<u64>, now: u64) -> bool
    ensures { result ≡ terms.is_due flushed every now }
{
    match every {
        Some(every) => u128::from(flushed) + u128::from(every) <= u128::from(now),
        None => false,
    }
}

/// Writes the entries of a batch, where it has any, and tells how many were left out. Whether it
/// has any.
fn write_batch<F: JournalFile, L: JournalLines>(
    writer: &mut JournalWriter<F, L>,
    batch: &Batch,
) -> bool
    ensures { WritesBatch ⟦<F as JournalFile>⟧ L.JournalLines batch.now.octets batch.now.left_out
        writer.old writer.new result }
{
    let wrote = write_some(writer, batch.octets());
    writer.tell_left(batch.left_out());
    wrote
}

/// Writes the octets of entries, where there are any: whether there are.
fn write_some<F: JournalFile, L: JournalLines>(
    writer: &mut JournalWriter<F, L>,
    octets: &[u8],
) -> bool
    ensures { WritesSome ⟦<F as JournalFile>⟧ L.JournalLines octets.now writer.old writer.new
        result }
{
    if octets.is_empty() {
        return false;
    }
    writer.write(octets);
    true
}

/// For how many milliseconds nobody looks what was said, once something was or not.
fn nap(wrote: bool) -> u64
    ensures { result ≡ (if wrote then 10 else 100) }
{
    if wrote { SHORT_NAP } else { LONG_NAP }
}
