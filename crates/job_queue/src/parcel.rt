//! What goes through a job queue.
use buffer_group::Job;

/// A job as its end hands it over.
#[derive(Drop)]
pub struct Handed {
    /// The number of the end.
    pub end: u64,
    /// The number of the job among those that the end hands over, to whichever group.
    pub number: u64,
    pub job: Job,
}

/// A job, or the closing mark of an end: the end hands nothing over after it.
#[derive(Drop)]
pub enum Parcel {
    Job(Handed),
    /// With the number of the end.
    Mark(u64),
}
