//! What is known of message-ids: which session was told to send an article, which one has it
//! stored, and which ids are stored or were refused. So an article is asked of one session at a
//! time, and no remembered message-id is stored again.
//!
//! Each call of a `Shard` is one rule of docs/PROTOCOL.md, Claims, on one message-id, and leaves
//! every other id as it was; `expire` goes through all ids. `Shards` spreads the ids over sixteen
//! of them by `shard_of`, and says the same of each call; its `entries` and `resume` are what
//! outlives a stop. Neither holds an article or has a clock or a lock.
//!
//! The text of relay.hist: what outlives a clean stop besides the buffers (docs/FORMATS.md,
//! History file). There is one text for each history, and nothing else is read.
//!
//! It holds no state, and knows neither files nor clocks.
#![tactic(auto)]

mod claims;
mod conditions;
mod counts;
mod expiry;
mod fault;
mod kept;
mod keys;
mod lasting;
pub mod laws;
mod reading;
mod shards;
pub mod text_laws;
mod writing;

pub use claims::{Offer, Settled, Shard, Take};
pub use conditions::{LAST_MOMENT, feed_holds, feeds_hold, ids_hold, rise};
pub use counts::Counts;
pub use expiry::has_run_out;
pub use fault::HistoryError;
pub use kept::{History, KeptFeed, KeptId, Setting};
pub use lasting::sort;
pub use reading::{read, read_any};
pub use shards::{SHARD_COUNT, Shards, shard_of};
pub use writing::write;
