//! Judging an article (docs/PROTOCOL.md, Judging; RFC 5537, section 3.6): the first reason for
//! which it is refused, or what of it is stored and which feeds may have it, by the terms of a
//! configuration.
#![tactic(auto)]

mod judging;
pub mod laws;
mod reasons;
mod room;
mod storing;

pub use judging::verdict;
pub use reasons::Reason;
