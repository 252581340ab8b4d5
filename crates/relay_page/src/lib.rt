//! A report as a page: what a relay reports of itself as one HTML page for whoever looks after it
//! (docs/FORMATS.md, Page).
//!
//! The lines are read as relay_metrics reads them. The page has nothing from elsewhere: no script,
//! no font, no image. It is octets of one form to octets of the other: nothing is asked here, and
//! nothing is decided of a relay.
#![tactic(auto)]

mod bar;
mod buffers;
mod escaped;
pub mod examples;
mod figures;
mod frame;
pub mod laws;
mod rows;
mod selected;
mod whole;

pub use whole::page;
