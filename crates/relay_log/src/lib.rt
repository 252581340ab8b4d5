//! The journal of a relay, relay.log: what its buffers don't tell after a crash, entry by entry
//! (docs/FORMATS.md, Journal file).
//!
//! A text is written by `begin` and `append`, and read as its longest beginning that is a journal,
//! so a torn end costs the entry that it tears and no other.
//!
//! It holds no state, and knows neither files nor clocks.
#![tactic(auto)]

mod check;
mod folding;
mod journal;
pub mod laws;
mod reading;
mod text;
mod writing;

pub use folding::folded;
pub use journal::{Entry, Journal};
pub use reading::read;
pub use text::{folded_text, history_with};
pub use writing::{MOST_ENTRY_OCTETS, append, append_refused, append_stored, begin};
