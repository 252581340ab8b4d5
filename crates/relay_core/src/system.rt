//! The relay: its parts, and how it begins.
use crate::expiring::Expirer;
use crate::peers::Peers;
use crate::queue::Queue;
use block_shelf::{Begun, BufferSet};
use buffer_group::Writer;
use cyc_block::BlockStore;
use feed_queue::FeedDesk;
use id_history::Shards;
use relay_conf::Config;
use std::alloc::Global;
use std::hash::RandomState;

/// A group's jobs that wait, and how far its writer is.
pub(crate) struct GroupWriter {
    pub(crate) queue: Queue,
    pub(crate) writer: Writer<Begun>,
}

impl Drop for GroupWriter {
    fn drop(self) {
        let GroupWriter {
            queue: _queue,
            writer,
        } = self;
        let_go(writer);
    }
}

/// Lets a writer go, with the handle of its open write if it has one.
pub(crate) fn let_go(writer: Writer<Begun>) {
    match writer {
        Writer::Writing(job, begun, _written) => {
            drop(job);
            begun.let_go();
        }
        Writer::Failed(job, open_one) => {
            drop(job);
            if let Some(begun) = open_one {
                begun.let_go();
            }
        }
        Writer::Idle => {}
        Writer::Popped(job) => drop(job),
        Writer::Finished(job, _token) => drop(job),
        Writer::Settled(_session) => {}
        Writer::Forgotten(_session) => {}
    }
}

/// The relay over the stores of its buffers.
#[derive(Drop)]
pub struct System<S: BlockStore> {
    pub(crate) alloc: Global,
    pub(crate) config: Config,
    /// The seed of the tables of open offers, so that no peer chooses ids that collide.
    pub(crate) hasher: RandomState,
    /// The number of the newest session.
    pub(crate) newest: Option<u64>,
    pub(crate) peers: Peers,
    pub(crate) shards: Shards,
    pub(crate) desk: FeedDesk,
    pub(crate) buffer_set: BufferSet<S>,
    pub(crate) group_writers: Vec<GroupWriter>,
    pub(crate) expirer: Expirer,
    /// The number of the last stop; before the first it is 0.
    pub(crate) stop: u64,
}

impl<S: BlockStore + Drop> System<S> {
    /// Lets the relay go, with its stores. Its users call this in place of `drop`: the letting go
    /// of all that it has is proved here once.
    pub fn let_go(self) {
        drop(self);
    }
}
