//! Who writes what is handed over to the groups.
use crate::channel::JobChannel;
use job_queue::{Change, Parcels};

/// The writers of a run. A thread that brings a job, or waits for what became of one, may do their
/// work (docs/PROTOCOL.md, Threads).
pub trait WriterTurns<R> {
    /// A job was handed over to the group, over its channel. What is left there is taken here,
    /// where no other thread takes it.
    fn write(&self, rt: &R, channel: &JobChannel, group: usize, change: Change<Parcels>);

    /// Takes what is left of each group, where no other thread does.
    fn write_left(&self, rt: &R);
}

/// Writers that do their work in their own threads alone.
#[derive(Clone, Copy)]
pub struct OwnThreads;

impl<R> WriterTurns<R> for OwnThreads {
    fn write(&self, _rt: &R, channel: &JobChannel, _group: usize, change: Change<Parcels>) {
        channel.tell(change);
    }

    fn write_left(&self, _rt: &R) {}
}
