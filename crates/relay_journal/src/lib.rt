//! The journal of a relay at its place: how a start reads it, and how it is written while the relay
//! is served (docs/FORMATS.md, Journal file).
//!
//! It stands over any `JournalPlace` and the `JournalFile` that is opened there, of which contracts
//! say what they hold. What can't be read or written is told, and stops nothing.
#![tactic(auto)]

mod journaling;
mod lines;
mod reading;
mod writing;

pub use journaling::{Journaling, ROOM, second_of};
pub use lines::{JournalLine, JournalLines, PrintedLines, ToldJournal};
pub use reading::read_journal;
pub use writing::{BegunJournal, JournalWriter, begin_journal};
