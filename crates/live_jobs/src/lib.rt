//! The jobs of a relay in threads: how one is settled, how it is named, who hands it over and who
//! takes it, and what became of it.
//!
//! Settling an article under two locks: that of its message-id's shard, and that of the feed desk.
//!
//! One step makes a stored article the history's and the feeds' (docs/PROTOCOL.md, Store): its
//! message-id is Stored, and each permitted feed gains its token. In threads both values are held
//! for it, the shard's lock taken first. The desk counts its posts in a ledger, of which each
//! writer has a share, so that the articles that all writers say they had accepted can be held
//! against the posts that the desk made. An article that can't be stored is given up, under the
//! shard's lock alone.
//!
//! A job is named by its end, its number among those of the end, and its message-id.
//!
//! The seats of the relay's threads (docs/PROTOCOL.md, Threads): ends hand jobs over, writers take
//! them and record what became of each, and when all have come back the seats are compared.
//!
//! An end has a right to hand over to the channel of each group, a writer the right to take from
//! one. What stores a job, what becomes of it and what an end serves are parameters: a `Store`, an
//! `Outcome` and a `Service`.
//!
//! What became of the jobs of a relay's threads (docs/PROTOCOL.md, Threads), and what is counted of
//! it once all seats have come back.
#![tactic(auto)]

mod answers;
mod channel;
mod count;
mod desk;
pub mod examples;
mod finished;
mod forgetting;
mod gather;
mod held;
pub mod laws;
mod open;
mod outcome;
mod own_thread;
mod placed;
mod rooms;
mod run_premises;
mod seated;
mod serve;
mod session;
mod start;
mod store_result;
mod writer;
mod writer_turns;

pub use answers::mismatched_receipts;
pub use channel::{JobChannel, LOOKS};
pub use desk::{CountedDesk, Posted, Posts, Unsettled, settle_both};
pub use finished::{FinishedList, ToldJob};
pub use forgetting::{Forgotten, forget};
pub use gather::{Seats, Totals, close};
pub use open::{Opened, open_all};
pub use outcome::{FinishedJob, Outcome};
pub use run_premises::RunPremises;
pub use serve::{SeatsError, serve_seats};
pub use session::{LeftSeat, SessionSeat, hang_up};
pub use start::{Accounts, Leaver, Plan, Service};
pub use store_result::{JobAnswer, KeptJob, StoreResult, answer_of};
pub use writer::{Store, WriterSeat};
pub use writer_turns::{OwnThreads, WriterTurns};
