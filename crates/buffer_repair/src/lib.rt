//! All buffers of a relay that was not stopped: they are found again by what their devices have,
//! and shut as a stop would have shut them, so that the next start takes them as ever.
#![tactic(auto)]

mod finding;
mod found_set;
mod giving;
mod shutting;

pub use finding::recover;
pub use found_set::FoundBufferSet;
