//! A session of a peer as a machine: it plans what is due, names at most one step of what is
//! shared, and hears that step's answer (docs/PROTOCOL.md, Sessions).
//!
//! A plan takes all the memory that its answer can need, and hearing the answer takes none. What a
//! plan read counts as read once its answer is heard. Nothing here touches what is shared.
//!
//! The open offers of a session: the message-ids that it was told to send, for which it has sent no
//! article since (RFC 4644 section 2.4; docs/PROTOCOL.md, Open offers).
//!
//! They are found by a hash, and stand in the order in which they were opened. All memory of the
//! table is taken when it is made.
#![tactic(auto)]

mod blocks;
mod chains;
mod fetches;
pub mod laws;
mod leaving;
mod lines;
mod offers;
mod phase;
mod room;
mod session;
mod steps;
mod table;
mod waiting;

pub use offers::OpenOffers;
pub use session::Session;
pub use steps::{Answer, Outcome, Step};
