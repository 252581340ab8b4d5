//! The rings of the feeds: which peers are sent which articles. The tokens of accepted articles
//! wait in the rings until the peers take them (docs/PROTOCOL.md, Rings).
//!
//! A feed's list is all that it ever gained. The desk keeps the end of each list and three counts.
//! It holds no article, and has no lock.
#![tactic(auto)]

mod desk;
mod hashes;
pub mod laws;
mod permission;
mod rings;

pub use desk::{Counts, FeedDesk, Taken};
pub use permission::permitted;
