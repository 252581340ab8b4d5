//! The queue of jobs in front of a group's writer, between threads (docs/PROTOCOL.md, Job queues).
//! Any number of ends hand jobs over, one writer takes them, and no lock stands between them.
//!
//! A queue has one rule over what it holds and what each of its passes knows. A thread has a pass:
//! that of an end knows what the end handed over, that of the writer what was taken. Each step
//! changes one pass. When an end has pushed its closing mark and the writer has taken it, the two
//! are compared: what was taken of the end is what it handed over.
//!
//! Who finds the queue full or empty may wait beside it, as others do for what stands behind a
//! lock: announced, then looked a last time, then asleep. Who hands a parcel over may take in turn
//! with others: counted, then handed over, then tried.
#![tactic(auto)]

mod in_turn;
mod known;
mod last_look;
mod parcel;
mod queue;
mod rule;
mod waiting;

pub use in_turn::{Counted, InTurn, Turn, Untaken};
pub use known::Known;
pub use last_look::{hand_over_first, hand_over_last, mark_closed_last, take_one_first};
pub use parcel::{Handed, Parcel};
pub use queue::{
    JobQueue, QueuePass, compare, compare_rest, end_pass, hand_over, mark_closed, new_queue,
    take_one, writer_pass,
};
pub use rule::InOrder;
pub use waiting::{Announced, Change, Crowd, Looked, Parcels, Room, Row};
