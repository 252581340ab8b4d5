//! How all buffers of a relay that was not stopped are found again.
ghost use Rattle.std.specs.Prelude.{◌≡◌, ◌≤◌, ◌<◌, ◌+◌, [], All, false, length, map, min, IfErr};
ghost use Rattle.std.specs.Prelude.{IfOk, vec_len, vec_capacity};
ghost use Rattle.cyc_buffer.specs.Head.{is_busy};
ghost use Rattle.buffer_repair.specs.Finding.{AreFoundOver, AreLeftUnwritten, FindsNext, HasFound};
ghost use Rattle.buffer_repair.specs.Finding.{IsUnfoundSet, TriesNext};
ghost use Rattle.buffer_repair.specs.Parts.{AreIdle, buffer_in};
ghost use Rattle.buffer_repair.specs.Finding.{tried_count, tried_idle, tried_room};
ghost use Rattle.buffer_repair.specs.Keeping.{AreLeftOfGroups, KeepsLeft, LeavesRecord};
ghost use Rattle.buffer_repair.specs.Keeping.{TellsBefore};

use crate::found_set::FoundBufferSet;
use crate::giving::give_found;
use block_shelf::{StopFault, Unstarted, blamed, fault_of};
use cyc_block::BlockStore;
use cyc_buffer::{Buffer, Started};
use relay_conf::Buffers;
use std::alloc::{AllocError, Global};

/// How far the finding is.
#[derive(Drop)]
enum Finding<S: BlockStore> {
    /// The buffers so far are found again; room for their stores.
    Found {
        found: Vec<Started<S>>,
        room: Vec<S>,
    },
    /// One of them isn't: the stores so far, the buffer's number, and why.
    Refused {
        stores: Vec<S>,
        buffer: Option<u8>,
        error: StopFault,
    },
}

/// The room that a finding needs, and a stop after it.
#[derive(Drop)]
struct Room<S: BlockStore> {
    found: Vec<Started<S>>,
    stores: Vec<S>,
}

/// The buffers that these settings have, each found again over one of these stores, the i-th that
/// of buffer i. Nothing is written, and all memory is taken here.
pub fn recover<S: BlockStore + Drop>(
    alloc: Global,
    settings: &Buffers,
    stores: Vec<S>,
) -> Result<FoundBufferSet<S>, Unstarted<S>>
    requires { map (λ store. length (S.blocks store)) stores.items
        ≡ map (λ buffer. buffer.blocks) settings.now.buffers.items }
    // Each buffer is found again, in their order, as its device tells.
    ensures found { IfOk result (λ found_set. AreFoundOver stores.items found_set.found.items) }
    // Where what is left is a relay's with these groups, all that is found is kept, in the relay's
    // own words.
    ensures keeps { All S.honest stores.items
        → IfOk result (KeepsLeft ⟦<S as BlockStore>⟧ settings.now stores.items) }
    // It can be gone on with, and written down.
    ensures on_record { All S.honest stores.items
        → IfOk result (LeavesRecord settings.now) }
    // So it is where a crash has left the devices of a relay with these groups.
    ensures of_groups { All S.honest stores.items
        → IfOk result (AreLeftOfGroups ⟦<S as BlockStore>⟧ settings.now stores.items) }
    // Then no front is past where it was, each text that was whole is found as it was or not at
    // all, and what was saved is found.
    ensures before { All S.honest stores.items
        → IfOk result (TellsBefore ⟦<S as BlockStore>⟧ settings.now stores.items) }
    // Refused for the first fault, in the order of the buffers; the stores come back unwritten.
    ensures unwritten { IfOk result (AreLeftUnwritten ⟦<S as BlockStore>⟧ stores.items) }
    ensures refusal { IfErr result (IsUnfoundSet ⟦<S as BlockStore>⟧ stores.items) }
{
    let Ok(room) = Room::new(alloc, settings.buffers.len()) else {
        return Err(Unstarted {
            stores,
            buffer: None,
            error: StopFault::Memory,
        });
    };
    let Room {
        found,
        stores: room,
    } = room;
    match find_each(alloc, stores, found, room) {
        Finding::Refused {
            stores,
            buffer,
            error,
        } => Err(Unstarted {
            stores,
            buffer,
            error,
        }),
        Finding::Found { found, room } => Ok(FoundBufferSet {
            found,
            stores: room,
        }),
    }
}

/// How the finding of the buffers of these stores stands, one buffer after the other.
fn find_each<S: BlockStore + Drop>(
    alloc: Global,
    stores: Vec<S>,
    found: Vec<Started<S>>,
    room: Vec<S>,
) -> Finding<S>
    requires few { vec_len stores ≤ 256 }
    requires none_found { found.items ≡ [] }
    requires none_back { room.items ≡ [] }
    requires found_room { vec_len stores ≤ vec_capacity found }
    requires stores_room { vec_len stores ≤ vec_capacity room }
    ensures found { HasFound stores.items result }
    ensures idle { tried_idle result }
    ensures count { tried_count result ≡ vec_len stores }
    ensures room { vec_len stores ≤ tried_room result }
{
    let mut finding = Finding::Found { found, room };
    for store in stores {
        finding = finding.next(alloc, store);
    }
    finding
}

impl<S: BlockStore + Drop> Room<S> {
    /// Room for so many buffers.
    fn new(alloc: Global, count: usize) -> Result<Room<S>, AllocError>
        ensures none { IfOk result (λ room. (room.found.items ≡ []) × (room.stores.items ≡ [])) }
        ensures room { IfOk result (λ room. (count ≤ vec_capacity room.found)
            × (count ≤ vec_capacity room.stores)) }
    {
        let found = Vec::with_capacity(alloc, count)?;
        let stores = Vec::with_capacity(alloc, count)?;
        Ok(Room { found, stores })
    }
}

impl<S: BlockStore + Drop> Finding<S> {
    /// Finds the buffer of the next store, where none before it was refused.
    fn next(self, alloc: Global, store: S) -> Finding<S>
        requires few { tried_count self < 256 }
        requires room { tried_count self < tried_room self }
        requires idle { tried_idle self }
        ensures tries { TriesNext store self result }
        ensures idle { tried_idle result }
        ensures count { tried_count result ≡ tried_count self + 1 }
        ensures room { tried_room self ≤ tried_room result }
    {
        match self {
            Finding::Refused {
                mut stores,
                buffer,
                error,
            } => {
                stores.push_reserved(store);
                Finding::Refused {
                    stores,
                    buffer,
                    error,
                }
            }
            Finding::Found { found, room } => find_next(alloc, store, found, room),
        }
    }
}

/// Finds the buffer of the next store behind those that are found.
fn find_next<S: BlockStore + Drop>(
    alloc: Global,
    store: S,
    found: Vec<Started<S>>,
    room: Vec<S>,
) -> Finding<S>
    requires few { vec_len found < 256 }
    requires found_room { vec_len found < vec_capacity found }
    requires stores_room { vec_len found + vec_len room < vec_capacity room }
    requires idle { AreIdle found.items }
    ensures tries { FindsNext store found.items room.items result }
    ensures idle { tried_idle result }
    ensures count { tried_count result ≡ vec_len found + vec_len room + 1 }
    ensures room { min (vec_capacity found) (vec_capacity room) ≤ tried_room result }
{
    let mut found = found;
    let number = found.len() as u8;
    match Buffer::recover(alloc, store, number, 0) {
        Ok(one) => {
            found.push_reserved(one);
            Finding::Found { found, room }
        }
        Err(refused) => {
            let mut stores = give_found(found, room);
            stores.push_reserved(refused.store);
            Finding::Refused {
                stores,
                buffer: blamed(refused.error, number),
                error: fault_of(refused.error),
            }
        }
    }
}
