//! A buffer set over stores, before anything is begun.
ghost use Rattle.std.specs.Prelude.{◌≡◌, ◌≤◌, [], length, map, IfOk, IfErr};
ghost use Rattle.cyc_buffer.specs.Head.{IsFormatRefusal};
ghost use Rattle.block_shelf.specs.Filling.{KeepsNothing, IsNewOver, AreNewOver};
ghost use Rattle.block_shelf.specs.Filling.{AreNewPlacedGroups};
ghost use Rattle.block_shelf.specs.Filling.{IsNamed, IsRefusalOver, IsBufferSetRefusal};
ghost use Rattle.block_shelf.specs.declared.filling.BufferSetError.TheVariants as errors;
ghost use Rattle.relay_conf.specs.Settings.{places_of_groups};

use crate::buffer_set::{BufferSet, PlacedGroup};
use crate::resuming::placed_groups_at;
use cyc_block::BlockStore;
use cyc_buffer::{Buffer, FormatError, Unformatted};
use relay_conf::{BufferConf, Buffers, GroupConf};
use std::alloc::{AllocError, Global};

/// Why a buffer set isn't made, in the order of trial at each buffer.
#[derive(Drop)]
pub enum BufferSetError<S: BlockStore> {
    /// Memory was refused.
    Memory,
    /// The device of the buffer of this number failed; its store.
    Device(u8, S),
}

impl<S: BlockStore> From<AllocError> for BufferSetError<S> {
    ghost from_gives = { λ _ made. made ≡ errors.Memory };

    fn from(_error: AllocError) -> BufferSetError<S> {
        BufferSetError::Memory
    }
}

impl<S: BlockStore> BufferSet<S> {
    /// A buffer set over these stores, the i-th for buffer i, before anything is begun, whose head
    /// blocks say so. All memory is taken here.
    pub fn new(
        alloc: Global,
        settings: &Buffers,
        stores: Vec<S>,
    ) -> Result<BufferSet<S>, BufferSetError<S>>
    where
        S: Drop,
        requires { map (λ store. length (S.blocks store)) stores.items
            ≡ map (λ buffer. buffer.blocks) settings.now.buffers.items }
        ensures nothing { IfOk result (KeepsNothing settings.now stores.items) }
        ensures refusal { IfErr result (IsBufferSetRefusal ⟦<S as BlockStore>⟧ stores.items) }
    {
        let buffers = new_buffers(alloc, stores)?;
        let placed_groups = new_placed_groups(alloc, settings)?;
        Ok(BufferSet {
            buffers,
            placed_groups,
        })
    }
}

/// A buffer over each store, whose number is the store's place.
fn new_buffers<S: BlockStore + Drop>(
    alloc: Global,
    stores: Vec<S>,
) -> Result<Vec<Buffer<S>>, BufferSetError<S>>
    requires { length stores.items ≤ 256 }
    ensures over { IfOk result (λ buffers. AreNewOver stores.items buffers.items) }
    ensures refusal { IfErr result (IsBufferSetRefusal ⟦<S as BlockStore>⟧ stores.items) }
{
    let mut buffers = Vec::with_capacity(alloc, stores.len())?;
    for store in stores {
        let number = buffers.len() as u8;
        let buffer = new_buffer(alloc, store, number)?;
        buffers.push_reserved(buffer);
    }
    Ok(buffers)
}

/// A buffer over a store, whose number is this.
fn new_buffer<S: BlockStore + Drop>(
    alloc: Global,
    store: S,
    number: u8,
) -> Result<Buffer<S>, BufferSetError<S>>
    ensures is_new { IfOk result (IsNewOver number store) }
    ensures refusal { IfErr result (IsRefusalOver ⟦<S as BlockStore>⟧ store number) }
{
    match Buffer::format(alloc, store, number, 0) {
        Ok(buffer) => Ok(buffer),
        Err(refused) => Err(unformatted(refused, number)),
    }
}

/// Why a buffer set isn't made where the buffer of this number isn't.
pub fn unformatted<S: BlockStore + Drop>(refused: Unformatted<S>, number: u8) -> BufferSetError<S>
    ensures { (store : S) → IsFormatRefusal ⟦<S as BlockStore>⟧ store refused.error refused.store
        → IsRefusalOver ⟦<S as BlockStore>⟧ store number result }
{
    let Unformatted { store, error } = refused;
    match error {
        FormatError::Memory => BufferSetError::Memory,
        FormatError::Device => BufferSetError::Device(number, store),
    }
}

/// The placed groups of all groups, before anything is begun.
pub fn new_placed_groups(alloc: Global, settings: &Buffers) -> Result<Vec<PlacedGroup>, AllocError>
    ensures placed_groups { IfOk result (λ placed_groups.
        AreNewPlacedGroups (places_of_groups settings.now) placed_groups.items) }
    ensures count { IfOk result (λ placed_groups.
        length placed_groups.items ≡ length settings.now.groups.items) }
{
    placed_groups_at(alloc, settings, &[], &[])
}

/// The numbers of a group's buffers, and how many blocks each has.
#[derive(Drop)]
pub(crate) struct Members {
    pub(crate) numbers: Vec<usize>,
    pub(crate) blocks: Vec<u32>,
}

/// Numbers and blocks of the buffers that a group names.
pub(crate) fn members_of(
    alloc: Global,
    all: &[BufferConf],
    group: &GroupConf,
) -> Result<Members, AllocError>
    ensures { IfOk result (λ members.
        IsNamed all.now group.now.buffers.items members.numbers.items members.blocks.items) }
{
    let mut numbers = Vec::with_capacity(alloc, group.buffers.len())?;
    let mut blocks = Vec::with_capacity(alloc, group.buffers.len())?;
    for number in &group.buffers {
        let Some(buffer) = all.get(*number) else {
            continue;
        };
        numbers.push_reserved(*number);
        blocks.push_reserved(buffer.blocks);
    }
    Ok(Members { numbers, blocks })
}
