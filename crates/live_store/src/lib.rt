//! Buffers under locks, and the register of what was written into them (docs/PROTOCOL.md, Store).
//!
//! A writer stores a text and others fetch it, in any threads: each step takes the lock of one
//! buffer for one call of it, and a read of an article for those of a run of its blocks. A text
//! that is fetched is that of the record of its number, and a record never changes under its
//! number.
//!
//! A register: values that each get a number of their own for good, in any threads.
//!
//! Who has a number shows by eight octets that the value stands under it: what ties the two takes
//! no octets at run time.
#![tactic(auto)]

mod ahead;
mod answers;
mod buckets;
mod entry_number;
mod fetched;
mod fetching;
mod figures;
mod following;
mod laid;
pub mod laws;
mod numbered;
mod open_write;
mod places;
mod reading_ahead;
mod record;
mod register;
mod starting;
mod steps;
mod stopping;
mod stored;
mod unopened;
mod writing;

pub use answers::{OneRead, Reading, WriteFault};
pub use fetched::{Fetched, Text, same_text};
pub use fetching::fetch;
pub use following::{OneRecord, same_record};
pub use numbered::NumberedBuffer;
pub use record::{ArticleLog, RecordNumber, StorePremises};
pub use steps::{Conflict, ConflictCause, Entered, Unfound, UnfoundCause};
pub use stopping::Unshut;
pub use stored::{Finished, Receipt, Stored};
pub use unopened::UnopenedNumbered;
pub use writing::{Begun, Record, store};
