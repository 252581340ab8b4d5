//! What the readers of lines share (docs/FORMATS.md, Command lines, Configuration, Drill scripts
//! and Articles): the words of a line, a text cut at an octet, a text without white space at its
//! ends, decimal numbers, and lines that say nothing; octets that are kept, and octets that are put
//! into room.
//!
//! Only a copy of octets takes memory: a part of a text is a slice of it.
#![tactic(auto)]

mod comments;
mod numbers;
mod octets;
mod parts;
mod room;
mod white;
mod words;

pub use comments::is_skipped;
pub use numbers::{has_only_digits, number_within};
pub use octets::Octets;
pub use parts::{cut, one_part, three_parts, two_parts};
pub use room::{put_decimal, put_octets};
pub use white::{is_white, trim};
pub use words::{Between, first_word, is};
