//! What a configuration does, in words, and what in it is odd (docs/PROTOCOL.md, `explain`).
//!
//! It is told of the settings that were read of three texts, and of these texts: the settings say
//! what is so, the texts on which line. What lies where the buffers' files are to be is told to it;
//! it opens no file itself.
#![tactic(auto)]

mod buffers;
mod callers;
mod choice;
mod entries;
mod feeds;
mod found;
mod groups;
pub mod laws;
mod lines;
mod newsgroups;
mod patterns;
mod peers;
mod rows;
mod settings;
mod sums;
mod text;
mod whole;

pub use choice::explain_choice;
pub use found::{Found, found_device, found_of};
pub use whole::{Sources, explain};
