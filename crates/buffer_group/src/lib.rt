//! Groups of buffers and their writers (docs/PROTOCOL.md, Groups and writers).
//!
//! A group says of each article which of its buffers it goes to. It keeps where it is, and not the
//! articles that the definitions walk. A writer is how far the storing of a group's articles
//! is: at most one job, in one phase, and the phase says what the next step is.
#![tactic(auto)]

mod group;
mod job;
pub mod laws;
mod writer;

pub use group::{Group, Pick};
pub use job::{Accepted, Job};
pub use writer::{Writer, WriterStep};
