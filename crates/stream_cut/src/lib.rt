//! Cuts a stream of octets that comes in pieces into command lines and blocks of text, and stuffs
//! the text of a block (RFC 3977 sections 3.1 and 3.1.1).
//!
//! It keeps the promise that what is cut depends on the joined octets alone, however they came in
//! pieces: each step is exact (`Cutter::line`, `Cutter::block`), and so is a whole run (`cut_all`).
#![tactic(auto)]

mod cutter;
mod found;
mod gone;
pub mod laws;
mod look;
mod past;
mod run;
mod stuffing;

pub use cutter::{Block, CutError, Cutter};
pub use found::{FoundBlock, FoundLine};
pub use run::{Cut, Want, cut_all};
pub use stuffing::{put_stuffed, stuff, stuffed_room, unstuff};
