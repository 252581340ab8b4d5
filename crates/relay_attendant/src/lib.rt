//! Who attends to a relay while it is served or repaired (docs/PROTOCOL.md, `serve`).
//!
//! An `Attendant` answers whoever asks at the socket of the relay's folder, goes its rounds, and
//! has its journal and its news log written and its files flushed, each in a thread of its own
//! (`start_beside`). What it attends to is anything that has figures to tell (`Figured`). `KeptOpen`
//! has what stays open from one life of the relay to the next.
#![tactic(auto)]

mod attendant;
mod beside;
mod clock;
mod kept_open;
mod kept_sockets;
mod questions;
mod reloads;

pub use attendant::Attendant;
pub use beside::{Beside, Figured, Writers, start_beside, start_side_thread};
pub use clock::MachineClock;
pub use kept_open::KeptOpen;
pub use kept_sockets::{KeepingNet, KeptSockets};
pub use questions::Questions;
pub use reloads::Reloads;
