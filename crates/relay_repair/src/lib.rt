//! A relay whose program was killed or whose power failed is repaired (docs/PROTOCOL.md, Crashes):
//! what its devices have is read, and written down as a clean stop would have written it, so that
//! the next start takes it up as ever.
#![tactic(auto)]

mod repairing;
mod reviving;
mod shutting;

pub use repairing::repair;
pub use reviving::revive;
