//! What a relay has in its folder while it is served: the file of its history and the socket by
//! which it is asked.
//!
//! The file `relay.hist` in a relay's folder (docs/FORMATS.md, History file): how it is read and
//! written from one life of the relay to the next, and what a relay begins from. What its text says
//! is id_history's matter.
//!
//! It all stands over any `HistoryPlace`, of which contracts say what it holds; `HostHistory` is
//! the one of the machine. The file `relay.log` beside it (docs/FORMATS.md, Journal file) is one
//! too, whose file is opened to put octets behind its end: `JournalPlace`, and `HostJournal` of the
//! machine.
//!
//! The socket in a relay's folder by which whoever may write to it tells the relay to stop, or to
//! take no new articles for now, or asks what it holds (docs/PROTOCOL.md, `stop` and `report`,
//! `pause` and `go`).
#![tactic(auto)]

mod askers;
mod asking;
mod control;
mod filing;
mod history_place;
mod host;
mod host_journal;
mod journal_file;
mod journal_place;
mod keeping;
mod origin;
mod socket_place;
mod teller;
mod waits;
mod words;

pub use askers::{Askers, WAITED_FOR};
pub use asking::{ask, is_served};
pub use control::Control;
pub use filing::Filing;
pub use history_place::HistoryPlace;
pub use host::HostHistory;
pub use host_journal::{HostJournal, HostJournalFile};
pub use journal_file::JournalFile;
pub use journal_place::JournalPlace;
pub use keeping::keep;
pub use origin::{Origin, origin_of, take_away};
pub use teller::Teller;
pub use words::Word;
