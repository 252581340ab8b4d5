//! A journal is read at its place.
ghost use Rattle.std.specs.Prelude.{IfOk, option_map};
ghost use Rattle.relay_journal.specs.Reading.{IsJournalRead};

use crate::lines::{JournalLine, JournalLines, ToldJournal};
use relay_folder::{HistoryPlace, JournalPlace};
use std::alloc::{AllocError, Global};
use std::io::ErrorKind;

/// The text of a journal, none where there is none or it can't be read; that is told. The error is
/// want of memory.
pub fn read_journal<P: JournalPlace, L: JournalLines>(
    alloc: Global,
    journal: &mut ToldJournal<P, L>,
) -> Result<Option<Vec<u8>>, AllocError>
    ensures { IfOk result (λ text. IsJournalRead ⟦<P as HistoryPlace>⟧ L.JournalLines
        (option_map (λ octets. octets.items) text) journal.old journal.new) }
{
    match journal.place.read(alloc) {
        Ok(text) => Ok(text),
        Err(error) => match error.kind() {
            ErrorKind::OutOfMemory => Err(AllocError),
            _ => {
                journal.lines.tell(JournalLine::Unread);
                Ok(None)
            }
        },
    }
}
