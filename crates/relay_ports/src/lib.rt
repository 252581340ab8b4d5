//! The ports of the peers of a relay that is served, and who may connect to them (docs/FORMATS.md,
//! relay.conf).
#![tactic(auto)]

mod callers;
mod ports;

pub use callers::callers_of;
pub use ports::{open_doors, open_ports};
