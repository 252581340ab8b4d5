//! Buffers that are added to a relay that was stopped (docs/PROTOCOL.md, `add-buffer`): which they
//! are, what is made of each, over any stores, and what is told of them.
//!
//! A buffer that is added is what a stop leaves of one in which no article was begun, so that a
//! start takes it up (`start_added`). What adds them over the files of the machine is
//! relay_serve's.
#![tactic(auto)]

mod choosing;
mod flushing;
mod making;
mod text;

pub use choosing::first_added;
pub use flushing::{Flush, Unadded, add_each};
pub use making::{add_buffers, start_added};
pub use text::added_text;
