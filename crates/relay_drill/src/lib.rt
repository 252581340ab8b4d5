//! Drills: scripts of events, read whole and then played on the core over memory, and what the core
//! answers, printed (docs/FORMATS.md, Drill scripts; docs/PROTOCOL.md, The call `drill`).
//!
//! What is written is what the script says by the relay's definitions, and nothing else (`drill`).
//! Which configuration and which script there are is the caller's.
#![tactic(auto)]

mod crashing;
mod fault;
pub mod laws;
mod life;
mod line;
mod manner;
mod play;
pub mod power;
mod powered;
mod print;
mod report;
mod reviving;
mod script;
mod whole;
mod words;

pub use fault::DrillError;
pub use whole::{drill, read_all};
