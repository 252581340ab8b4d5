//! What a relay goes on with once it was found again (docs/PROTOCOL.md, Crashes): from the texts
//! that are whole on its buffers, and from what the history of its last stop lists, the history
//! that a clean stop would have left.
//!
//! `deal` puts the texts of all buffers in one order, `claim_ids` gives each message-id to the last
//! text that has it, and `history_again` makes the history of both. It holds no state, and knows
//! neither buffers nor clocks.
#![tactic(auto)]

mod claiming;
mod dealing;
mod feeds;
mod filling;
mod finding;
mod history;
pub mod laws;
mod text;

pub use claiming::claim_ids;
pub use dealing::deal;
pub use history::history_again;
pub use text::FoundText;
