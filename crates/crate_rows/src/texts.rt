//! The worked examples of the crates of texts.

mod articles;
mod calls;
mod lines;
mod streams;
mod walks;

pub use calls::answer;
pub(crate) use walks::{Look, walk};
