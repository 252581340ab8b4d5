//! The relay, whole, as one machine over events: sessions of peers, the history of message-ids, the
//! feeds, the buffers and their writers. For every list of events its outputs and its state are a
//! run of the relay (docs/PROTOCOL.md, Events and outputs).
//!
//! It is thin dispatch over its parts, each of which keeps its piece of the relay's state; nothing
//! here speaks of blocks, stamps, rings or header fields. Each event does at most one step of what
//! is shared, and takes its memory before it.
#![tactic(auto)]

mod ahead;
mod arming;
mod beginning;
mod desks;
mod event;
mod expiring;
mod figures;
mod idle;
mod killing;
mod peers;
mod queue;
mod reading;
mod restarting;
mod sharing;
mod starting;
mod steps;
mod stopped;
mod stopping;
mod system;
mod turns;
mod unbuffered;
mod watching;
mod writing;

pub use ahead::is_ahead;
pub use desks::{read_history, rings};
pub use event::{CoreError, Event, Output};
pub use peers::{Peer, Peers};
pub use starting::{refused, unread};
pub use stopped::{LeftBehind, NotStarted, Stopped, Unstopped};
pub use stopping::{GROUP_LIMIT, next_stop};
pub use system::System;
