//! The names by which the feeds and groups of a history are known: those of a configuration, and
//! their text, relay.names (docs/FORMATS.md, Names file).
#![tactic(auto)]

mod configured;
pub mod laws;
mod lines;
mod names;
mod parts;
mod reading;
mod sameness;
mod told;
mod writing;

pub use configured::names_of;
pub use names::{GroupNames, Names};
pub use reading::read_names;
pub use sameness::are_same;
pub use told::{NamesError, Told};
pub use writing::write_names;
