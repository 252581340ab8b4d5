//! The configuration of the relay: its three files, read from their texts (docs/FORMATS.md,
//! Configuration).
//!
//! The choice of a storage class: which entry of storage.conf an article falls to (docs/FORMATS.md,
//! Configuration).
#![tactic(auto)]

mod binds;
mod choice;
mod config;
mod cycbuff;
mod cycbuff_lines;
mod drafts;
mod expressions;
mod faults;
mod hash_feeds;
mod hash_lines;
mod kept;
pub mod laws;
mod lines;
mod names;
mod peers;
mod reach;
mod relay;
mod relay_lines;
mod settings;
mod storage;
mod storage_lines;
mod words;

pub use choice::choose;
pub use config::{K1_CYCBUFF, K1_RELAY, K1_STORAGE};
pub use cycbuff::{BufferConf, GroupConf, Mode, read_cycbuff};
pub use faults::{ConfError, Fault, LineFault};
pub use hash_feeds::HashFeed;
pub use line_words::Octets;
pub use lines::lines_of;
pub use reach::{Allow, Range};
pub use relay::{Feed, Peer, read_relay};
pub use settings::{Buffers, Config, NewsLog, Relay, StorageEntry};
pub use storage::read_storage;
pub use storage_lines::key_and_value;
