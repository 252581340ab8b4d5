//! What the threads of a relay share, each value behind its lock (docs/PROTOCOL.md, Threads):
//! shards, buffers, groups, the feed desk, the slots of the ends and the number of the last
//! session.
//!
//! Each call is one method of what lies under a lock, or settles under two. A `Keeper` stores the
//! jobs that writers take, sessions go by `Shares`, a `PeerServer` serves a peer's connections, and
//! `serve_all` runs all ends and writers in threads of their own. `expire_round` forgets ids.
#![tactic(auto)]

mod alone;
mod audit;
mod auditing;
mod buffer_locks;
mod claims;
mod desks;
mod drawing;
mod fetching;
mod filling;
mod forgetting;
mod holding;
mod journaled;
mod journaled_shares;
mod keeper;
mod locked;
mod locking;
mod looking;
mod making;
mod pausing;
mod peer_server;
mod posting;
mod refusing;
mod register_ref;
mod running;
mod shared;
mod sharing;
mod side_by_side;
mod slot;
mod started;
mod starting;
mod stopping;
mod telling;

pub use audit::{Audit, PostedOnce};
pub use forgetting::{Round, expire_round};
pub use journaled::Journaled;
pub use journaled_shares::JournaledShares;
pub use keeper::Keeper;
pub use peer_server::PeerServer;
pub use register_ref::RegisterRef;
pub use running::{Counted, CountedRun, LiveError, PeerSource, Serving, serve_all};
pub use shared::{Shared, Shut, Unshut, WantOfMemory};
pub use slot::{Slot, Told};
