//! Readers and writers that tell what was read and what was written, over any of std's: sockets,
//! files, octets in memory. What a session said can so be held against what it heard
//! (docs/PROTOCOL.md, Sessions).
//!
//! A read or a write is one call of the reader or writer below. The lists of all octets are there
//! for contracts alone, and take no memory.
//!
//! The ports on which peers connect (docs/PROTOCOL.md, `serve`): one for each peer, whose
//! connections are served one after the other, until all are told to stop.
#![tactic(auto)]

mod callers;
mod connections;
mod door;
mod line;
mod listeners;
mod port;
mod stop;
mod tally;
mod wire;

pub use callers::Callers;
pub use connections::Connections;
pub use door::Door;
pub use line::Line;
pub use port::Port;
pub use stop::Stop;
pub use tally::Tally;
pub use wire::{Hears, RecordingReader, RecordingWriter, Says, say_all};
