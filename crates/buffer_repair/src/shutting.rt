//! How buffers that were found again are shut: each says on its store what it keeps.
ghost use Rattle.std.specs.Prelude.{◌≡◌, ◌<◌, ◌+◌, false, IfErr, IfOk, vec_len, vec_capacity};
ghost use Rattle.cyc_buffer.specs.Head.{is_busy};
ghost use Rattle.buffer_repair.specs.Parts.{buffer_in};
ghost use Rattle.buffer_repair.specs.Shutting.{AreShutFound, HoldsFound, HoldsFoundLeft};
ghost use Rattle.buffer_repair.specs.Shutting.{IsUnshutFound, ShutsNext};

use crate::found_set::FoundBufferSet;
use block_shelf::{StopFault, Unstarted, number_of};
use cyc_block::BlockStore;
use cyc_buffer::Started;

impl<S: BlockStore + Drop> FoundBufferSet<S> {
    /// Shuts each buffer under this number, in their order: its bitmap is written, and then its
    /// head as closed. Gives their stores. Takes no memory.
    pub fn shut(self, stop: u64) -> Result<Vec<S>, Unstarted<S>>
        // What was kept over honest stores is held by them.
        ensures held { IfOk result (λ stores. HoldsFound stop self stores.items) }
        // A crash may leave it.
        ensures left { IfOk result (λ stores. HoldsFoundLeft stop self stores.items) }
        ensures shut { IfOk result (λ stores. AreShutFound stop self stores.items) }
        // Refused where a device failed; the stores come back, and what a crash may have left
        // before is left.
        ensures refusal { IfErr result (IsUnshutFound stop self) }
    {
        let FoundBufferSet { found, stores } = self;
        let mut stores = stores;
        let mut failed = None;
        for one in found {
            failed = shut_next(one, stop, failed, &mut stores);
        }
        match failed {
            Some(place) => Err(Unstarted {
                stores,
                buffer: Some(number_of(place)),
                error: StopFault::Device,
            }),
            None => Ok(stores),
        }
    }
}

/// Shuts the next buffer where none before it has failed, and puts its store behind those of the
/// buffers before it. The place of the buffer that has failed.
fn shut_next<S: BlockStore + Drop>(
    one: Started<S>,
    stop: u64,
    failed: Option<usize>,
    stores: &mut Vec<S>,
) -> Option<usize>
    requires idle { is_busy (buffer_in one) ≡ false }
    requires room { vec_len stores.old < vec_capacity stores.old }
    ensures shuts { ShutsNext stop one failed stores.old.items result stores.new.items }
    ensures count { vec_len stores.new ≡ vec_len stores.old + 1 }
    ensures room { vec_capacity stores.new ≡ vec_capacity stores.old }
{
    if failed.is_some() {
        stores.push_reserved(one.buffer.into_store());
        return failed;
    }
    match one.buffer.shut(stop) {
        Ok(store) => {
            stores.push_reserved(store);
            None
        }
        Err(unshut) => {
            let place = stores.len();
            stores.push_reserved(unshut.buffer.into_store());
            Some(place)
        }
    }
}
