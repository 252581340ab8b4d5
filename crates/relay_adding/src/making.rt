//! Buffers that are added to those of a relay that was stopped.
ghost use Rattle.std.specs.Prelude.{◌≡◌, ◌+◌, ◌≤◌, true, false, length, IfErr, IfOk};
ghost use Rattle.relay_adding.specs.Making.{AreAdded, IsAddedOver, IsUnadded};
ghost use Rattle.block_shelf.specs.Filling.{IsRefusalOver};
ghost use Rattle.block_shelf.specs.Starting.{IsFromOutside};
ghost use Rattle.cyc_buffer.specs.Agreement.{Agrees, store_of};
ghost use Rattle.cyc_buffer.specs.Head.{is_busy};
ghost use Rattle.cyc_buffer.specs.History.{History};
ghost use Rattle.cyc_buffer.specs.Stopped.{HoldsStopped};
ghost use Rattle.news_terms.specs.HeadBlocks.{head_blocks};

use block_shelf::{BufferSetError, StopFault, fault_of, unformatted};
use cyc_block::BlockStore;
use cyc_buffer::Buffer;
use std::alloc::Global;

/// Makes a buffer on each of these stores, and leaves it as a stop of this number leaves one in
/// which nothing was begun. The first of them has this number, the others those behind it.
pub fn add_buffers<S: BlockStore + Drop>(
    alloc: Global,
    stores: Vec<S>,
    first: usize,
    stop: u64,
) -> Result<Vec<S>, BufferSetError<S>>
    requires { first + length stores.items ≤ 256 }
    ensures added { IfOk result (λ left.
        AreAdded ⟦<S as BlockStore>⟧ first stop stores.items left.items) }
    ensures refusal { IfErr result (IsUnadded ⟦<S as BlockStore>⟧ first stores.items) }
{
    let mut left = Vec::with_capacity(alloc, stores.len())?;
    for store in stores {
        let number = (first + left.len()) as u8;
        let one = add_buffer(alloc, store, number, stop)?;
        left.push_reserved(one);
    }
    Ok(left)
}

/// Makes the buffer of this number on a store, and leaves it as a stop of this number does.
fn add_buffer<S: BlockStore + Drop>(
    alloc: Global,
    store: S,
    number: u8,
    stop: u64,
) -> Result<S, BufferSetError<S>>
    ensures added { IfOk result (IsAddedOver ⟦<S as BlockStore>⟧ stop number store) }
    ensures refusal { IfErr result (IsRefusalOver ⟦<S as BlockStore>⟧ store number) }
{
    match Buffer::format(alloc, store, number, 0) {
        Ok(buffer) => close(buffer, number, stop),
        Err(refused) => Err(unformatted(refused, number)),
    }
}

/// Stops a buffer in which no write is open, and gives its store.
fn close<S: BlockStore + Drop>(
    buffer: Buffer<S>,
    number: u8,
    stop: u64,
) -> Result<S, BufferSetError<S>>
    requires { is_busy buffer ≡ false }
    ensures held { IfOk result (λ store. (h : History) → Agrees true buffer h
        → HoldsStopped (S.heads store) (S.blocks store) stop h) }
    ensures honest { IfOk result (λ store. S.honest (store_of buffer) → S.honest store) }
    ensures count { IfOk result (λ store.
        length (S.blocks store) ≡ length (S.blocks (store_of buffer))) }
    ensures calls { IfOk result (λ store. S.calls store
        ≡ S.calls (store_of buffer) + head_blocks (length (S.blocks (store_of buffer)))) }
    ensures no_failure { IfOk result (λ store. S.failures store ≡ S.failures (store_of buffer)) }
    ensures refusal { IfErr result (IsRefusalOver ⟦<S as BlockStore>⟧ (store_of buffer) number) }
{
    match buffer.shut(stop) {
        Ok(store) => Ok(store),
        Err(unstopped) => Err(BufferSetError::Device(number, unstopped.buffer.into_store())),
    }
}

/// Whether a start takes up a buffer that was added: it gives the number of the stop under which it
/// was, and over an honest store nothing but want of memory or a device that failed is in its way.
pub fn start_added<S: BlockStore + Drop>(
    alloc: Global,
    store: S,
    number: u8,
    stop: u64,
) -> Result<u64, StopFault>
    ensures stop { S.honest store → IfOk result (λ found. found ≡ stop) }
    ensures fault { S.honest store → IfErr result IsFromOutside }
{
    match add_buffer(alloc, store, number, stop) {
        Ok(added) => match Buffer::start(alloc, added, number, 0) {
            Ok(started) => Ok(started.stop),
            Err(refused) => Err(fault_of(refused.error)),
        },
        Err(BufferSetError::Memory) => Err(StopFault::Memory),
        Err(BufferSetError::Device(_, _)) => Err(StopFault::Device),
    }
}
