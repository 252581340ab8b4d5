//! A session of a peer in a thread: it is served over a connection, and what is written is what its
//! machine says to the bytes read, by the moments and the answers that it had (docs/PROTOCOL.md,
//! Threads).
#![tactic(auto)]

mod commands;
mod counts;
mod leaving;
mod live;
mod pushing;
mod remarks;
mod serve;
mod shares;
mod sharing;
mod turn;
mod wire;

pub use commands::Command;
pub use live::{Connection, Served, SessionContext};
pub use remarks::{Remark, Taken};
pub use serve::serve_session;
pub use shares::{Clock, Gate, Shares};
pub use wire::Finish;
