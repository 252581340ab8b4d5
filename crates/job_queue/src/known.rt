//! What a pass of a job queue knows.
use crate::parcel::Parcel;
use std::collections::LinkedList;

/// What a pass knows: of the ends from `low` up to, and without, `high` it may hand over, and they
/// have `handed` this over; where it `takes`, all that was taken of the queue is `taken`, each list
/// from the oldest on. It is for contracts alone, and no value of it is made.
pub struct Known {
    pub low: u64,
    pub high: u64,
    pub handed: LinkedList<Parcel>,
    pub takes: bool,
    pub taken: LinkedList<Parcel>,
}
