//! A first start that was cut short, before it had formatted all its buffers: whether it was, and
//! the heads that it hadn't written yet (docs/PROTOCOL.md, Crashes).
#![tactic(auto)]

mod completing;

pub use completing::{complete_each, is_cut_short};
