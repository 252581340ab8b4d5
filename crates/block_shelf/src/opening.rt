//! A started buffer set before its heads are open, and their opening.
ghost use Rattle.std.specs.Prelude.{◌≡◌, ◌≤◌, [], vec_len, vec_capacity};

use crate::buffer_set::{BufferSet, PlacedGroup};
use crate::giving::{give_back, give_up};
use crate::starting::{StopFault, Unstarted};
use crate::stopping::number_of;
use cyc_block::BlockStore;
use cyc_buffer::{Buffer, Filled, Unopened};
use std::alloc::{AllocError, Global};

/// A buffer set that was started, whose buffers' head blocks say closed yet. It begins nothing
/// before they are open.
#[derive(Drop)]
pub struct UnopenedBufferSet<S: BlockStore> {
    pub(crate) buffers: Vec<Unopened<S>>,
    pub(crate) placed_groups: Vec<PlacedGroup>,
    /// Room for the buffers once they are open.
    pub(crate) opened: Vec<Buffer<S>>,
    /// Room for the stores where one can't be opened.
    pub(crate) stores: Vec<S>,
    ghost few: { vec_len buffers ≤ 256 },
    ghost none_opened: { opened.items ≡ [] },
    ghost none_back: { stores.items ≡ [] },
    ghost opened_room: { vec_len buffers ≤ vec_capacity opened },
    ghost stores_room: { vec_len buffers ≤ vec_capacity stores },
}

/// How far the opening of heads is.
#[derive(Drop)]
enum Opening<S: BlockStore> {
    /// The buffers so far are open; room for their stores.
    Opened {
        buffers: Vec<Buffer<S>>,
        room: Vec<S>,
    },
    /// The device of the buffer at this place failed: the stores so far.
    Failed {
        stores: Vec<S>,
        place: usize,
    },
}

impl<S: BlockStore + Drop> UnopenedBufferSet<S> {
    ghost use Rattle.std.specs.Prelude.{◌≡◌, IfErr, IfOk, map};
    ghost use Rattle.cyc_buffer.specs.Filled.{filled_view};
    ghost use Rattle.block_shelf.specs.Filled.{filled_in};
    ghost use Rattle.block_shelf.specs.Heads.{IsOpened, IsUnopened, KeepsOpened};
    ghost use Rattle.block_shelf.specs.Starting.{stores_inside};

    /// Says on each device, in the order of the buffers, that its buffer may change from here.
    /// Takes no memory.
    pub fn open(self) -> Result<BufferSet<S>, Unstarted<S>>
        ensures keeps { IfOk result (KeepsOpened self) }
        ensures opened { IfOk result (IsOpened self) }
        ensures refusal { IfErr result (IsUnopened self) }
    {
        let UnopenedBufferSet {
            buffers,
            placed_groups,
            opened,
            stores,
        } = self;
        let mut opening = Opening::Opened {
            buffers: opened,
            room: stores,
        };
        for unopened in buffers {
            opening = opening.next(unopened);
        }
        match opening {
            Opening::Opened {
                buffers,
                room: _room,
            } => Ok(BufferSet {
                buffers,
                placed_groups,
            }),
            Opening::Failed { stores, place } => Err(Unstarted {
                stores,
                buffer: Some(number_of(place)),
                error: StopFault::Device,
            }),
        }
    }

    /// The stores, in the order of the buffers, unwritten. Takes no memory.
    pub fn into_stores(self) -> Vec<S>
        ensures { result.items ≡ stores_inside self }
    {
        let UnopenedBufferSet {
            buffers,
            stores,
            ..
        } = self;
        give_back(buffers, stores)
    }

    /// How far its buffers are filled, in the order of their numbers.
    pub fn filled(&self, alloc: Global) -> Result<Vec<Filled>, AllocError>
        ensures { IfOk result (λ filled.
            map filled_view filled.items ≡ map filled_in self.now.buffers.items) }
    {
        let mut filled = Vec::with_capacity(alloc, self.buffers.len())?;
        for unopened in &self.buffers {
            filled.push_reserved(unopened.buffer().filled());
        }
        Ok(filled)
    }
}

impl<S: BlockStore + Drop> Opening<S> {
    ghost use Rattle.std.specs.Prelude.{◌≡◌, ◌≤◌, ◌<◌, ◌+◌};
    ghost use Rattle.block_shelf.specs.Heads.{OpensNext, opening_count, opening_room};

    /// Opens the head of the next buffer, where none before it has failed.
    fn next(self, unopened: Unopened<S>) -> Opening<S>
        requires { opening_count self < opening_room self }
        ensures opens { OpensNext unopened self result }
        ensures count { opening_count result ≡ opening_count self + 1 }
        ensures room { opening_room self ≤ opening_room result }
    {
        match self {
            Opening::Failed { mut stores, place } => {
                stores.push_reserved(unopened.into_store());
                Opening::Failed { stores, place }
            }
            Opening::Opened { mut buffers, room } => match unopened.open() {
                Ok(buffer) => {
                    buffers.push_reserved(buffer);
                    Opening::Opened { buffers, room }
                }
                Err(unopened) => {
                    let place = buffers.len();
                    let mut stores = give_up(buffers, room);
                    stores.push_reserved(unopened.into_store());
                    Opening::Failed { stores, place }
                }
            },
        }
    }
}
