//! What is found is written down, and the buffers are shut.
ghost use Rattle.std.specs.Prelude.{◌≡◌, ◌≤◌, length, IfErr, IfOk, OnOk};
ghost use Rattle.found_again.specs.Lists.{all_of};
ghost use Rattle.found_texts.specs.Held.{AreHeld, IsReadFault, NoneFailed};
ghost use Rattle.relay_conf.specs.Settings.{places_of_groups};
ghost use Rattle.buffer_repair.specs.Finding.{stores_in};
ghost use Rattle.relay_repair.specs.Refusing.{IsToldAs, IsUnshutFrom};
ghost use Rattle.relay_repair.specs.Repairing.{AreInTime, ShutsFound, counts_of};
ghost use Rattle.relay_repair.specs.Telling as told;
ghost use Rattle.relay_repair.specs.Telling.{TellsFound, TellsTexts, last_lent, last_listed};

use block_shelf::{StopFault, Unstarted};
use buffer_repair::FoundBufferSet;
use cyc_block::BlockStore;
use found_again::{FoundText, claim_ids, deal, history_again};
use found_texts::{ReadFault, read_texts};
use id_history::{History, LAST_MOMENT, write};
use relay_conf::Config;
use relay_core::{GROUP_LIMIT, Stopped, next_stop, refused, rings};
use relay_remains::positions_again;
use std::alloc::{AllocError, Global};
use std::hash::RandomState;

/// The number of the last stop: 0 where there was none.
pub(crate) fn last_stop(old: Option<&History>) -> u64
    ensures { result ≡ told.last_stop (last_lent old.entry) }
{
    match old {
        Some(old) => old.stop,
        None => 0,
    }
}

/// Writes down what is found, and shuts the buffers under the next number of a stop.
pub(crate) fn shut_found<S: BlockStore + Drop>(
    alloc: Global,
    hasher: RandomState,
    config: &Config,
    found_set: FoundBufferSet<S>,
    old: Option<&History>,
    now: u64,
) -> Result<Stopped<S>, Unstarted<S>>
    ensures shut { IfOk result (λ stopped. AreInTime (last_listed (last_lent old.entry))
        → ShutsFound config.now found_set (last_lent old.entry) now stopped.stores.items
        stopped.history.items) }
    ensures counts { IfOk result (λ stopped. counts_of ⟦<S as BlockStore>⟧ stopped.stores.items
        ≡ counts_of ⟦<S as BlockStore>⟧ (stores_in found_set)) }
    ensures refused { IfErr result (IsUnshutFrom found_set) }
{
    let mut found_set = found_set;
    let stop = next_stop(last_stop(old));
    // The text has its memory before a head is closed: one that says closed without it could not be
    // started again.
    match tell_found(alloc, hasher, config, &mut found_set, old, now) {
        Ok(history) => match found_set.shut(stop) {
            Ok(stores) => Ok(Stopped { stores, history }),
            Err(unstarted) => {
                drop(history);
                Err(unstarted)
            }
        },
        Err(fault) => Err(given_back(found_set, fault)),
    }
}

/// The stores of buffers that were found again, unwritten, and why they aren't shut.
fn given_back<S: BlockStore + Drop>(found_set: FoundBufferSet<S>, fault: ReadFault) -> Unstarted<S>
    ensures stores { result.stores.items ≡ stores_in found_set }
    ensures fault { IsToldAs fault result.error result.buffer }
{
    let stores = found_set.into_stores();
    match fault {
        ReadFault::Memory => refused(stores, StopFault::Memory),
        ReadFault::Device(number) => Unstarted {
            stores,
            buffer: Some(number),
            error: StopFault::Device,
        },
    }
}

/// The text of the history of what is found.
fn tell_found<S: BlockStore + Drop>(
    alloc: Global,
    hasher: RandomState,
    config: &Config,
    found_set: &mut FoundBufferSet<S>,
    old: Option<&History>,
    now: u64,
) -> Result<Vec<u8>, ReadFault>
    ensures tells { IfOk result (λ text.
        TellsFound config.now old.entry now found_set.old found_set.new text.items) }
    ensures held { AreHeld found_set.old found_set.new }
    ensures unfailed { OnOk result (NoneFailed found_set.old found_set.new) }
    ensures refused { IfErr result (λ fault. IsReadFault found_set.old fault found_set.new) }
{
    let positions = match positions_again(alloc, &config.buffers, old, found_set) {
        Ok(positions) => positions,
        Err(_) => return Err(ReadFault::Memory),
    };
    let texts = match read_texts(alloc, found_set, &config.relay) {
        Ok(texts) => texts,
        Err(fault) => {
            drop(positions);
            return Err(fault);
        }
    };
    match tell_texts(alloc, hasher, config, texts, old, positions, now) {
        Ok(text) => Ok(text),
        Err(_) => Err(ReadFault::Memory),
    }
}

/// The text of the history of these texts, each buffer's in the order of their places, with these
/// positions of the groups.
fn tell_texts(
    alloc: Global,
    hasher: RandomState,
    config: &Config,
    texts: Vec<Vec<FoundText>>,
    old: Option<&History>,
    positions: Vec<u32>,
    now: u64,
) -> Result<Vec<u8>, AllocError>
    ensures { IfOk result (λ text.
        TellsTexts config.now (all_of texts.items) old.entry now positions.items text.items) }
{
    // There are no more groups.
    if positions.len() > GROUP_LIMIT {
        return Err(AllocError);
    }
    let ordered = deal(alloc, texts)?;
    let claimed = claim_ids(alloc, hasher, ordered)?;
    let sizes = rings(alloc, &config.relay.feeds)?;
    let stop = next_stop(last_stop(old));
    let moment = now.min(LAST_MOMENT);
    let history = history_again(
        alloc, hasher, &claimed, old, positions, &sizes, stop, moment,
    )?;
    drop(sizes);
    drop(claimed);
    let text = write(alloc, &history);
    drop(history);
    text
}
