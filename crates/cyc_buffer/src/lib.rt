//! Cyclic buffers over a store of blocks (docs/PROTOCOL.md, Store).
//!
//! A buffer takes articles one after the other, each in blocks of its own, and begins again at its
//! first block when it is full. What was finished under a token is given back by it until the
//! buffer's front has passed it; from then on it is gone.
#![tactic(auto)]

mod answers;
mod arming;
mod articles;
mod bits;
mod buffer;
mod buffer_state;
pub mod crash_laws;
mod filled;
mod found;
pub mod laws;
mod line;
mod marks;
mod pieces;
mod recovering;
mod rejecting;
mod restarting;
mod scanning;
mod stamping;
mod starting;
mod stopped;
mod stopping;
mod unopened;

pub use answers::{BufError, Fault, FaultKind, FormatError, Found, Front, StartError};
pub use buffer::{Buffer, Unformatted};
pub use buffer_state::Open;
pub use filled::Filled;
pub use line::size_of;
pub use restarting::RestartError;
pub use starting::{Refused, Started};
pub use stopping::Unstopped;
pub use unopened::{Unopened, Unshut};
