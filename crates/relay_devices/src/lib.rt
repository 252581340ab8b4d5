//! The stores of a relay that is served: who tells of their failures, and who has their devices
//! take what was written (docs/PROTOCOL.md, Crashes: what `serve` does).
//!
//! `watch` has what a relay begins over told of by the names of its buffers. `Syncing` has files
//! flushed meanwhile, beside whoever writes them.
#![tactic(auto)]

mod syncing;
mod watched;

pub use syncing::{Syncing, open_syncing};
pub use watched::{Flushing, Watched, watch};
