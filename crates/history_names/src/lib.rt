//! The names beside a history: what its numbers stand for (docs/FORMATS.md, Names file).
//!
//! `named_text` takes the text of a history by name, before a relay of the configuration is started
//! from it: a feed or a group that has moved, come or gone is known by its name. `keep_names` keeps
//! what the numbers stand for from then on, before anything else is written. Both work over any
//! place at which a text is kept, and know no files.
#![tactic(auto)]

mod changes;
mod keeping;
pub mod laws;
mod reading;

pub use changes::told_changes;
pub use keeping::keep_names;
pub use reading::{NamedText, named_text};
