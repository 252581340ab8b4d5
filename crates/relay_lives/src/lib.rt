//! Lives of a relay that are served one after the other (docs/PROTOCOL.md, `reload`).
//!
//! Which configuration each life has, and what comes of one that can't be had or is refused, is
//! decided here (`serve_lives`); a life is what `serve_on` of relay_serve serves.
#![tactic(auto)]

mod lives;

pub use lives::{Living, serve_lives};
