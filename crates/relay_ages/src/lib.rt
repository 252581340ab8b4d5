//! Since when the oldest articles are there that the buffers of a served relay still have: the
//! marks of that are noted, told, and kept from one life of the relay to the next, in
//! DIR/relay.ages (docs/FORMATS.md, Report, Ages file). What marks tell is buffer_ages' matter.
#![tactic(auto)]

mod desk;
mod kept;
mod oldest;

pub use desk::AgesDesk;
