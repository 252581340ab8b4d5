//! What a relay that is served counts and tells of its peers' sessions, and the lines of their
//! articles in the news log (docs/OPERATING.md, Lines; docs/FORMATS.md, News log).
//!
//! `CountingGate` is the gate of all sessions: it lets every command in, counts, and has the lines
//! put where a `News` says.
#![tactic(auto)]

mod gate;
mod news;
mod refusals;

pub use gate::CountingGate;
pub use news::{News, pending_of, writing_of};
