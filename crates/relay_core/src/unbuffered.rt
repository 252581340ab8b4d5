//! The relay apart from its buffers.
ghost use Rattle.std.specs.Prelude.{◌≡◌, IfOk};
ghost use Rattle.relay_core.specs.Unbuffered.{IsNewUnbuffered, with_buffers};

use crate::beginning::new_desks;
use crate::desks::Desks;
use crate::peers::Peers;
use crate::system::System;
use block_shelf::BufferSet;
use cyc_block::BlockStore;
use relay_conf::Config;
use std::alloc::Global;
use std::hash::RandomState;
use std::io;
use std::random::RandomSource;

/// A relay without its buffers.
#[derive(Drop)]
pub(crate) struct Unbuffered {
    pub(crate) alloc: Global,
    pub(crate) config: Config,
    pub(crate) hasher: RandomState,
    pub(crate) newest: Option<u64>,
    pub(crate) peers: Peers,
    pub(crate) desks: Desks,
    pub(crate) stop: u64,
}

impl Unbuffered {
    /// The relay before anything has come. What it needs for its rings and queues is taken here.
    pub(crate) fn new(
        rt: &impl RandomSource,
        alloc: Global,
        config: Config,
    ) -> io::Result<Unbuffered>
        ensures { IfOk result (IsNewUnbuffered config) }
    {
        let hasher = match RandomState::new(rt) {
            Ok(hasher) => hasher,
            Err(error) => {
                drop(config);
                return Err(error);
            }
        };
        match new_desks(rt, alloc, &config) {
            Ok(desks) => Ok(Unbuffered {
                alloc,
                config,
                hasher,
                newest: None,
                peers: Peers::new(alloc, hasher),
                desks,
                stop: 0,
            }),
            Err(error) => {
                drop(config);
                Err(error)
            }
        }
    }

    /// Its settings; all else is let go.
    pub(crate) fn into_config(self) -> Config
        ensures { result ≡ self.config }
    {
        let Unbuffered {
            config,
            peers,
            desks,
            ..
        } = self;
        drop(peers);
        drop(desks);
        config
    }

    /// The relay with these buffers.
    pub(crate) fn with<S: BlockStore>(self, buffer_set: BufferSet<S>) -> System<S>
        ensures { result ≡ with_buffers self buffer_set }
    {
        let Unbuffered {
            alloc,
            config,
            hasher,
            newest,
            peers,
            desks,
            stop,
        } = self;
        let Desks {
            shards,
            desk,
            group_writers,
            expirer,
        } = desks;
        System {
            alloc,
            config,
            hasher,
            newest,
            peers,
            shards,
            desk,
            buffer_set,
            group_writers,
            expirer,
            stop,
        }
    }
}

impl<S: BlockStore> System<S> {
    /// Its buffers, and the relay without them.
    pub(crate) fn take_apart(self) -> (BufferSet<S>, Unbuffered)
        ensures buffer_set { result.0 ≡ self.buffer_set }
        ensures whole { with_buffers result.1 result.0 ≡ self }
    {
        let System {
            alloc,
            config,
            hasher,
            newest,
            peers,
            shards,
            desk,
            buffer_set,
            group_writers,
            expirer,
            stop,
        } = self;
        let desks = Desks {
            shards,
            desk,
            group_writers,
            expirer,
        };
        let unbuffered = Unbuffered {
            alloc,
            config,
            hasher,
            newest,
            peers,
            desks,
            stop,
        };
        (buffer_set, unbuffered)
    }
}
