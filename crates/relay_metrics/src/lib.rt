//! A report in other forms: the numbers that a relay reports of itself as an exposition that a
//! monitor scrapes (docs/FORMATS.md, Metrics).
//!
//! What is read is the text that was told, line by line. A line that isn't known says nothing of
//! the relay, and is counted. It is octets of one form to octets of the other: nothing is asked
//! here, and nothing is decided of a relay.
#![tactic(auto)]

mod escaped;
pub mod examples;
mod families;
mod forms;
pub mod laws;
mod lines;
mod numbers;
mod sample;
mod whole;
mod written;

pub use lines::{Line, Subject, lines_of};
pub use whole::{exposition, unread_in};
pub use written::put;
