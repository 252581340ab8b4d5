//! How a buffer set is started from what was left on its stores.
ghost use Rattle.std.specs.Prelude.{◌≡◌, ◌≤◌, ◌<◌, ◌+◌, ◌++◌, [], None, length, map, min, IfErr};
ghost use Rattle.std.specs.Prelude.{IfOk, vec_len, vec_capacity};
ghost use Rattle.cyc_buffer.specs.Agreement.{store_of};
ghost use Rattle.cyc_buffer.specs.Head.{inside};
ghost use Rattle.block_shelf.specs.Starting.{HasCause, HasTried, IsStartedBufferSet, IsUnstarted};
ghost use Rattle.block_shelf.specs.Starting.{KeepsHeld};
ghost use Rattle.block_shelf.specs.Starting.{ResumePlacedGroups, StartsNext, TriesNext};
ghost use Rattle.block_shelf.specs.Starting.{WillKeepHeld};
ghost use Rattle.block_shelf.specs.Starting.{buffers_inside, fault_of_start, number_told};
ghost use Rattle.block_shelf.specs.Starting.{other_after, tried_count, tried_room};
ghost use Rattle.block_shelf.specs.declared.starting.StopFault.TheVariants as faults;

use crate::giving::give_back;
use crate::opening::UnopenedBufferSet;
use crate::resuming::placed_groups_over;
use cyc_block::BlockStore;
use cyc_buffer::{Buffer, StartError, Unopened};
use relay_conf::Buffers;
use std::alloc::{AllocError, Global};

/// Why a relay isn't started, in the order of trial.
#[derive(Clone, Copy)]
pub enum StopFault {
    /// Memory was refused.
    Memory,
    /// The device of a buffer failed.
    Device,
    /// Head block 0 isn't that of a buffer's.
    NoHead,
    /// The buffer was not stopped.
    Unclosed,
    /// Something is wrong with what the buffer holds.
    Damaged,
    /// The history isn't one of this relay.
    BadHistory,
    /// The buffer was stopped at another stop than the history.
    Mixed,
    /// The history says of articles that the buffers haven't begun.
    Ahead,
}

/// The stores of a buffer set that isn't started, in the order of its buffers, and why.
#[derive(Drop)]
pub struct Unstarted<S> {
    pub stores: Vec<S>,
    /// The number of the buffer whose fault it is.
    pub buffer: Option<u8>,
    pub error: StopFault,
}

/// How far a start is.
#[derive(Drop)]
enum Starting<S: BlockStore> {
    /// The buffers so far are started; room for their stores, and the number of the first that was
    /// stopped at another stop.
    Started {
        buffers: Vec<Unopened<S>>,
        room: Vec<S>,
        mixed: Option<u8>,
    },
    /// One of them isn't: the stores so far, the buffer's number, and why.
    Refused {
        stores: Vec<S>,
        buffer: Option<u8>,
        error: StopFault,
    },
}

/// The room that a start needs, and an opening after it.
#[derive(Drop)]
struct Room<S: BlockStore> {
    unopened: Vec<Unopened<S>>,
    opened: Vec<Buffer<S>>,
    stores: Vec<S>,
}

/// The buffer set whose buffers were stopped at this stop over these stores, the i-th for buffer i,
/// its groups at these positions; a position past the buffers of its group stands for the first
/// one. Nothing is written. All memory is taken here, of one buffer after the other: the list of a
/// buffer's tokens is let go as soon as it is read.
pub fn start<S: BlockStore + Drop>(
    alloc: Global,
    settings: &Buffers,
    stores: Vec<S>,
    stop: u64,
    positions: &[u32],
) -> Result<UnopenedBufferSet<S>, Unstarted<S>>
    requires { map (λ store. length (S.blocks store)) stores.items
        ≡ map (λ buffer. buffer.blocks) settings.now.buffers.items }
    ensures held { IfOk result (KeepsHeld settings.now stores.items stop) }
    ensures keeps { IfOk result (WillKeepHeld settings.now stores.items stop positions.now) }
    // Nothing is written, and no device has failed; each buffer was stopped at this stop.
    ensures started { IfOk result (IsStartedBufferSet stores.items stop) }
    // Refused for the first fault, in the order of the buffers; the stores come back unwritten.
    ensures refusal { IfErr result (IsUnstarted ⟦<S as BlockStore>⟧ stores.items stop) }
    // What was stopped so is refused for memory or a device that failed alone.
    ensures cause { IfErr result (HasCause ⟦<S as BlockStore>⟧ settings.now stores.items stop) }
{
    let Ok(room) = Room::new(alloc, stores.len()) else {
        return Err(Unstarted {
            stores,
            buffer: None,
            error: StopFault::Memory,
        });
    };
    let Room {
        unopened,
        opened,
        stores: room,
    } = room;
    match start_each(alloc, stores, stop, unopened, room) {
        Starting::Refused {
            stores,
            buffer,
            error,
        } => Err(Unstarted {
            stores,
            buffer,
            error,
        }),
        Starting::Started {
            buffers,
            room,
            mixed,
        } => match mixed {
            Some(number) => Err(Unstarted {
                stores: give_back(buffers, room),
                buffer: Some(number),
                error: StopFault::Mixed,
            }),
            None => shelve(alloc, settings, positions, buffers, opened, room),
        },
    }
}

/// How the start of the buffers of these stores stands, one buffer after the other.
fn start_each<S: BlockStore + Drop>(
    alloc: Global,
    stores: Vec<S>,
    stop: u64,
    buffers: Vec<Unopened<S>>,
    room: Vec<S>,
) -> Starting<S>
    requires few { vec_len stores ≤ 256 }
    requires none_started { buffers.items ≡ [] }
    requires none_back { room.items ≡ [] }
    requires buffers_room { vec_len stores ≤ vec_capacity buffers }
    requires stores_room { vec_len stores ≤ vec_capacity room }
    ensures tried { HasTried stop stores.items result }
    ensures count { tried_count result ≡ vec_len stores }
    ensures room { vec_len stores ≤ tried_room result }
{
    let mut starting = Starting::Started {
        buffers,
        room,
        mixed: None,
    };
    for store in stores {
        starting = starting.next(alloc, store, stop);
    }
    starting
}

/// The buffer set of started buffers, where memory isn't refused for its groups.
fn shelve<S: BlockStore + Drop>(
    alloc: Global,
    settings: &Buffers,
    positions: &[u32],
    buffers: Vec<Unopened<S>>,
    opened: Vec<Buffer<S>>,
    room: Vec<S>,
) -> Result<UnopenedBufferSet<S>, Unstarted<S>>
    requires few { vec_len buffers ≤ 256 }
    requires none_opened { opened.items ≡ [] }
    requires none_back { room.items ≡ [] }
    requires opened_room { vec_len buffers ≤ vec_capacity opened }
    requires stores_room { vec_len buffers ≤ vec_capacity room }
    ensures buffers { IfOk result (λ buffer_set. buffer_set.buffers ≡ buffers) }
    ensures placed_groups { IfOk result (λ buffer_set.
        ResumePlacedGroups settings.now positions.now (buffers_inside buffers.items)
        buffer_set.placed_groups.items) }
    ensures stores { IfErr result (λ refused. refused.stores.items
        ≡ map (λ one. store_of (inside one)) buffers.items) }
    ensures memory { IfErr result (λ refused.
        (refused.buffer ≡ None) × (refused.error ≡ faults.Memory)) }
{
    let Ok(placed_groups) = placed_groups_over(alloc, settings, &buffers, positions) else {
        return Err(Unstarted {
            stores: give_back(buffers, room),
            buffer: None,
            error: StopFault::Memory,
        });
    };
    Ok(UnopenedBufferSet {
        buffers,
        placed_groups,
        opened,
        stores: room,
    })
}

impl<S: BlockStore + Drop> Room<S> {
    /// Room for so many buffers.
    fn new(alloc: Global, count: usize) -> Result<Room<S>, AllocError>
        ensures none { IfOk result (λ room. (room.unopened.items ≡ [])
            × (room.opened.items ≡ []) × (room.stores.items ≡ [])) }
        ensures room { IfOk result (λ room. (count ≤ vec_capacity room.unopened)
            × (count ≤ vec_capacity room.opened) × (count ≤ vec_capacity room.stores)) }
    {
        let unopened = Vec::with_capacity(alloc, count)?;
        let opened = Vec::with_capacity(alloc, count)?;
        let stores = Vec::with_capacity(alloc, count)?;
        Ok(Room {
            unopened,
            opened,
            stores,
        })
    }
}

impl<S: BlockStore + Drop> Starting<S> {
    /// Starts the buffer of the next store, where none before it was refused.
    fn next(self, alloc: Global, store: S, stop: u64) -> Starting<S>
        requires few { tried_count self < 256 }
        requires room { tried_count self < tried_room self }
        ensures tries { TriesNext stop store self result }
        ensures count { tried_count result ≡ tried_count self + 1 }
        ensures room { tried_room self ≤ tried_room result }
    {
        match self {
            Starting::Refused {
                mut stores,
                buffer,
                error,
            } => {
                stores.push_reserved(store);
                Starting::Refused {
                    stores,
                    buffer,
                    error,
                }
            }
            Starting::Started {
                buffers,
                room,
                mixed,
            } => next_started(alloc, store, stop, buffers, room, mixed),
        }
    }
}

/// Starts the buffer of the next store behind those that are started.
fn next_started<S: BlockStore + Drop>(
    alloc: Global,
    store: S,
    stop: u64,
    buffers: Vec<Unopened<S>>,
    room: Vec<S>,
    mixed: Option<u8>,
) -> Starting<S>
    requires few { vec_len buffers < 256 }
    requires buffers_room { vec_len buffers < vec_capacity buffers }
    requires stores_room { vec_len buffers + vec_len room < vec_capacity room }
    ensures tries { StartsNext stop store buffers.items room.items mixed result }
    ensures count { tried_count result ≡ vec_len buffers + vec_len room + 1 }
    ensures room { min (vec_capacity buffers) (vec_capacity room) ≤ tried_room result }
{
    let mut buffers = buffers;
    let number = buffers.len() as u8;
    match Buffer::start(alloc, store, number, 0) {
        Ok(started) => {
            let mixed = first_other(mixed, started.stop, stop, number);
            buffers.push_reserved(started.buffer);
            Starting::Started {
                buffers,
                room,
                mixed,
            }
        }
        Err(refused) => {
            let mut stores = give_back(buffers, room);
            stores.push_reserved(refused.store);
            Starting::Refused {
                stores,
                buffer: blamed(refused.error, number),
                error: fault_of(refused.error),
            }
        }
    }
}

/// The number of the first buffer that was stopped at another stop, with one more that was stopped
/// at this one.
pub fn first_other(mixed: Option<u8>, found: u64, stop: u64, number: u8) -> Option<u8>
    ensures { result ≡ other_after mixed found stop number }
{
    match mixed {
        Some(first) => Some(first),
        None if found == stop => None,
        None => Some(number),
    }
}

/// The number of the buffer whose fault it is: none where memory was refused.
pub fn blamed(error: StartError, number: u8) -> Option<u8>
    ensures { result ≡ number_told error number }
{
    match error {
        StartError::Memory => None,
        _ => Some(number),
    }
}

/// The fault of a buffer's start, as the relay's.
pub fn fault_of(error: StartError) -> StopFault
    ensures { result ≡ fault_of_start error }
{
    match error {
        StartError::Memory => StopFault::Memory,
        StartError::Device => StopFault::Device,
        StartError::NoHead => StopFault::NoHead,
        StartError::Unclosed => StopFault::Unclosed,
        StartError::Damaged => StopFault::Damaged,
    }
}
