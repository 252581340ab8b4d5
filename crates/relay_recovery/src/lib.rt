//! A relay that was left without a stop is repaired before it starts (docs/PROTOCOL.md, Crashes).
//!
//! `begin_again` gives what a relay begins over, by the names of its configuration: what it was
//! stopped with, or what a repair found of it and has kept as a stop would have. Whoever asks
//! meanwhile is told that the relay is recovering.
#![tactic(auto)]

mod places;
mod recovering;
mod repairing;

pub use places::{HistoryPlaces, places_in};
pub use repairing::begin_again;
