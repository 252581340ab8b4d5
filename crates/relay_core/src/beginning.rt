//! How the relay begins.
ghost use Rattle.std.specs.Prelude.{◌≡◌, IfErr, IfOk, length, map};
ghost use Rattle.block_shelf.specs.Filling.{IsBeginRefusal};
ghost use Rattle.relay_core.specs.Beginning.{AreIdle, AreNew, BeginsOver};

use crate::desks::Desks;
use crate::expiring::Expirer;
use crate::queue::Queue;
use crate::system::{GroupWriter, System};
use crate::unbuffered::Unbuffered;
use block_shelf::{BeginError, BufferSet, unbegun};
use buffer_group::Writer;
use cyc_block::BlockStore;
use feed_queue::FeedDesk;
use id_history::Shards;
use relay_conf::Config;
use std::alloc::{AllocError, Global};
use std::io;
use std::random::RandomSource;

impl<S: BlockStore> System<S> {
    /// The relay over these stores, the i-th for buffer i, before anything has come. What it needs
    /// for its rings, queues and buffers is taken here. Each buffer's head block says that it may
    /// change.
    pub fn new(
        rt: &impl RandomSource,
        alloc: Global,
        config: Config,
        stores: Vec<S>,
    ) -> Result<System<S>, BeginError<S>>
    where
        S: Drop,
        requires { map (λ store. length (S.blocks store)) stores.items
            ≡ map (λ buffer. buffer.blocks) config.buffers.buffers.items }
        ensures begins { IfOk result (BeginsOver config stores.items) }
        ensures refusal { IfErr result (IsBeginRefusal ⟦<S as BlockStore>⟧ stores.items) }
    {
        let unbuffered = match Unbuffered::new(rt, alloc, config) {
            Ok(unbuffered) => unbuffered,
            Err(error) => return Err(BeginError::Host(error)),
        };
        match BufferSet::new(alloc, &unbuffered.config.buffers, stores) {
            Ok(buffer_set) => Ok(unbuffered.with(buffer_set)),
            Err(error) => {
                drop(unbuffered);
                Err(unbegun(error))
            }
        }
    }
}

/// What is kept beside the relay's buffers before anything has come.
pub(crate) fn new_desks(rt: &impl RandomSource, alloc: Global, config: &Config) -> io::Result<Desks>
    ensures { IfOk result (AreNew config.now) }
{
    let shards = Shards::new(rt, alloc)?;
    let desk = FeedDesk::new(alloc, &config.relay.feeds)?;
    let expirer = Expirer::new(alloc)?;
    let group_writers = new_group_writers(alloc, config.buffers.groups.len())?;
    Ok(Desks {
        shards,
        desk,
        group_writers,
        expirer,
    })
}

/// So many group writers, without jobs.
pub(crate) fn new_group_writers(alloc: Global, count: usize) -> Result<Vec<GroupWriter>, AllocError>
    ensures { IfOk result (λ group_writers. AreIdle count group_writers.items) }
{
    let mut group_writers = Vec::with_capacity(alloc, count)?;
    for _ in 0..count {
        group_writers.push_reserved(GroupWriter {
            queue: Queue::new(alloc)?,
            writer: Writer::Idle,
        });
    }
    Ok(group_writers)
}
