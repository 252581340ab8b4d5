//! Lines are written while a relay is served, beside whoever puts them.
ghost use Rattle.std.specs.Prelude.{◌≡◌, if◌then◌else◌};

use crate::news_file::NewsFile;
use crate::news_lines::NewsLines;
use crate::pending::PendingLines;
use crate::waiting::Lines;
use crate::writer::NewsWriter;
use std::alloc::{AllocError, Global};
use std::sync::Wait;
use std::sync::atomic::{AtomicBool, Ordering};
use std::thread;
use std::time::{Clock, Duration};

/// How many octets of lines wait at most until they are written.
pub const ROOM: usize = 4_194_304;

/// For how many milliseconds nobody looks what waits, where nothing did.
const LONG_NAP: u64 = 100;

/// For how many milliseconds nobody looks, where something did.
const SHORT_NAP: u64 = 10;

/// What writes lines while a relay is served.
#[derive(Drop)]
pub struct NewsWriting<'a, F, L> {
    writer: NewsWriter<F, L>,
    /// Where lines wait.
    pending: &'a PendingLines,
    /// What lines are put to while others are written.
    spare: Lines,
}

impl<'a, F: NewsFile + Drop, L: NewsLines + Drop> NewsWriting<'a, F, L> {
    /// What writes the lines that wait there, with room for so many octets of those that are put
    /// meanwhile. All memory is taken here.
    pub fn new(
        alloc: Global,
        writer: NewsWriter<F, L>,
        pending: &'a PendingLines,
        octets: usize,
    ) -> Result<NewsWriting<'a, F, L>, AllocError> {
        let spare = Lines::new(alloc, octets)?;
        Ok(NewsWriting {
            writer,
            pending,
            spare,
        })
    }

    /// Writes what waits, batch after batch, until the relay has ended and all is written that was
    /// put before. How many lines were lost and not told by then is told at last.
    pub fn go_on<R: Wait + Clock>(self, rt: &R, end: &AtomicBool) {
        let NewsWriting {
            mut writer,
            pending,
            spare,
        } = self;
        let mut batch = spare;
        // Before any line comes, so that whoever started the relay sees what is wrong with it.
        writer.look();
        for _ in rt.forever() {
            // Asked before the batch is taken, so that the last one has all that was put.
            let has_ended = end.load(Ordering::SeqCst);
            batch = pending.take(rt, batch);
            let wrote = writer.write_batch(&batch);
            if has_ended {
                writer.tell_lost();
                return;
            }
            thread::sleep(rt, Duration::from_millis(nap(wrote)));
        }
    }
}

/// For how many milliseconds nobody looks what waits, once something did or not.
fn nap(wrote: bool) -> u64
    ensures { result ≡ (if wrote then 10 else 100) }
{
    if wrote { SHORT_NAP } else { LONG_NAP }
}
