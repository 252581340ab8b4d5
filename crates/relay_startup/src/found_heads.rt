//! The heads of buffers that were repaired.
ghost use Rattle.std.specs.Prelude.{◌≡◌, ◌≤◌, ◌+◌, [], length, map, IfErr, IfOk, OnOk, None};
ghost use Rattle.std.specs.Prelude.{vec_capacity};
ghost use Rattle.block_shelf.specs.Each.{AreEach};
ghost use Rattle.block_shelf.specs.Starting.{IsUnwritten, buffer_over};
ghost use Rattle.cyc_block.specs.Heads.{head_view};
ghost use Rattle.cyc_buffer.specs.Stopped.{Says};
ghost use Rattle.relay_startup.specs.Recovered.{IsHeadIn};
ghost use Rattle.buffer_files.specs.Faults.{IsServeFault};

use crate::starting::refusal;
use block_shelf::{StopFault, number_of};
use buffer_files::Synced;
use cyc_block::{BLOCK_OCTETS, BlockStore, HeadNumbers};
use relay_conf::Config;
use relay_core::Stopped;
use relay_remains::numbers_of;
use relay_report::ServeError;
use std::alloc::Global;

/// What a repair gave, once the heads that it wrote were read.
pub fn with_heads<S: Synced + Drop>(
    alloc: Global,
    config: &Config,
    stopped: Stopped<S>,
    heads: &mut Vec<HeadNumbers>,
) -> Result<Stopped<S>, ServeError>
    requires none { heads.old.items ≡ [] }
    requires room { length stopped.stores.items ≤ vec_capacity heads.old }
    ensures heads { OnOk result (AreEach (IsHeadIn ⟦<S as BlockStore>⟧) stopped.stores.items
        heads.new.items) }
    ensures unwritten { IfOk result (λ read. AreEach (IsUnwritten ⟦<S as BlockStore>⟧ None)
        stopped.stores.items read.stores.items) }
    ensures text { IfOk result (λ read. read.history ≡ stopped.history) }
    ensures stores { IfOk result (λ read.
        map (λ store. length (S.blocks store)) read.stores.items
        ≡ map (λ store. length (S.blocks store)) stopped.stores.items) }
    ensures fault { IfErr result (IsServeFault config.now) }
{
    let Stopped {
        stores,
        history: text,
    } = stopped;
    let mut stores = stores;
    match read_heads(alloc, config, &mut stores, heads) {
        Ok(()) => Ok(Stopped {
            stores,
            history: text,
        }),
        Err(error) => {
            drop(text);
            drop(stores);
            Err(error)
        }
    }
}

/// Reads the head of the buffer on each of these stores, the i-th that of buffer i, once they are
/// shut. There is room for the heads. The error is the first one that can't be read.
fn read_heads<S: BlockStore>(
    alloc: Global,
    config: &Config,
    stores: &mut [S],
    heads: &mut Vec<HeadNumbers>,
) -> Result<(), ServeError>
    requires none { heads.old.items ≡ [] }
    requires room { length stores.old ≤ vec_capacity heads.old }
    ensures heads { OnOk result
        (AreEach (IsHeadIn ⟦<S as BlockStore>⟧) stores.old heads.new.items) }
    ensures unwritten { OnOk result
        (AreEach (IsUnwritten ⟦<S as BlockStore>⟧ None) stores.old stores.new) }
    ensures blocks { map (λ store. length (S.blocks store)) stores.new
        ≡ map (λ store. length (S.blocks store)) stores.old }
    ensures fault { IfErr result (IsServeFault config.now) }
{
    for place in 0..stores.len() {
        match head_in(&mut stores[place], place) {
            Ok(head) => heads.push_reserved(head),
            Err(fault) => return Err(unread(alloc, config, place, fault)),
        }
    }
    Ok(())
}

/// The head of the buffer at this place.
fn head_in<S: BlockStore>(store: &mut S, place: usize) -> Result<HeadNumbers, StopFault>
    ensures head { IfOk result (IsHeadIn ⟦<S as BlockStore>⟧ place store.old) }
    ensures unwritten { OnOk result
        (IsUnwritten ⟦<S as BlockStore>⟧ None place store.old store.new) }
    ensures blocks { length (S.blocks store.new) ≡ length (S.blocks store.old) }
{
    let blocks = store.count();
    let mut octets = [0; BLOCK_OCTETS];
    match store.read_head(0, &mut octets) {
        Ok(()) => match numbers_of(&octets, place, blocks) {
            Some(head) => Ok(head),
            None => Err(StopFault::NoHead),
        },
        Err(_failed) => Err(StopFault::Device),
    }
}

/// Why the head of the buffer at this place can't be read.
fn unread(alloc: Global, config: &Config, place: usize, fault: StopFault) -> ServeError
    ensures { IsServeFault config.now result }
{
    refusal(alloc, &config.buffers, Some(number_of(place)), fault)
}
