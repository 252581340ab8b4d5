//! What is said to a relay's journal and isn't appended to it yet (docs/FORMATS.md, Journal file).
//!
//! Whoever refuses or stores an article says so to a `PendingJournal`, whose lock is held as long
//! as an entry takes to be written, and no other lock while it is. One thread takes what was said,
//! a `Batch`, and gives a spare one for it. All memory is taken before.
//!
//! It knows neither files nor clocks.
#![tactic(auto)]

mod batch;
mod pending;

pub use batch::{Batch, Said};
pub use pending::PendingJournal;
