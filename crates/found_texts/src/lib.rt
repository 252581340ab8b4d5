//! The texts that are found whole on the buffers of a relay that was not stopped, read and judged
//! (docs/PROTOCOL.md, Crashes).
//!
//! Each is gathered block by block. Where it is an article, its token, its message-id and the feeds
//! that may have it are given; where it is none it is rejected, and its buffer keeps it no more.
#![tactic(auto)]

mod fault;
mod gathering;
mod judging;
mod reading;

pub use fault::ReadFault;
pub use reading::read_texts;
