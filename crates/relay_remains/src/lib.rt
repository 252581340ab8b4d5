//! What the remains of a relay tell of how it ended, before it is found again: by the heads of its
//! buffers whether it was stopped, and whose turn it is in each of its groups (docs/PROTOCOL.md,
//! Crashes).
#![tactic(auto)]

mod heads;
mod positions;

pub use heads::{HeadFault, Standing, numbers_of, standing_of};
pub use positions::positions_again;
