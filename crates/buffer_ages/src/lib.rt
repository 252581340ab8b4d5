//! Since when the oldest article is there that a buffer still has (docs/FORMATS.md, Ages file).
//!
//! A mark says that at a moment the front of a buffer was so far. `noted` adds one where one is
//! due, `since` tells by them since when the oldest live article is there, and `write_ages` and
//! `read_ages` have their text, relay.ages. No files, no clocks.
#![tactic(auto)]

pub mod examples;
pub mod laws;
mod marks;
mod noting;
mod reading;
mod writing;

pub use marks::{BufferMarks, MOST_MARKS, Mark, since};
pub use noting::{is_due, noted};
pub use reading::read_ages;
pub use writing::write_ages;
