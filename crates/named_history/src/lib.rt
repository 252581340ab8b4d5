//! A history, taken by name: what a relay with other feeds and groups goes on with, whatever the
//! order in which its configuration has them (docs/FORMATS.md, Names file).
//!
//! `is_of` says whether names can be those under which a history was kept; `named` takes what was
//! kept of each feed and group by its name, and `text_by` writes the history that this gives. It
//! holds no state, and knows neither files nor clocks.
#![tactic(auto)]

mod feeds;
mod fitting;
mod groups;
mod naming;
mod places;

pub use naming::{is_of, named, text_by};
