//! How a buffer is stopped, and its head opened again.
ghost use Rattle.std.specs.Prelude.{◌≡◌, ◌≤◌, ◌<◌, ◌+◌, ◌*◌, ℕ, Bool, true, length};
ghost use Rattle.std.specs.Prelude.{IfErr, IfOk, OnErr, OnOk};
ghost use Rattle.news_terms.specs.HeadBlocks.{Open, IsHeadBlock, head_image as image_of};
ghost use Rattle.news_terms.specs.HeadBlocks.{bitmap_blocks, head_blocks};
ghost use Rattle.news_terms.specs.HeadBlocks.{bitmap_block as bitmap_of};
ghost use Rattle.cyc_block.specs.Heads.{state_view};
ghost use Rattle.cyc_block.specs.Store.{block_at, ChangesOnly};
ghost use Rattle.cyc_buffer.specs.Agreement.{Agrees, Follows, store_of, buffer_state_of};
ghost use Rattle.cyc_buffer.specs.History.{History};
ghost use Rattle.cyc_buffer.specs.Head.{has_open_head, stop_of, is_busy, IsHeadFault, IsInOrder};
ghost use Rattle.cyc_buffer.specs.Head.{IsStopRefusal, LeavesBuffer, LeavesBlocks};
ghost use Rattle.cyc_buffer.specs.Marks.{is_told};
ghost use Rattle.cyc_buffer.specs.BufferState.{numbers_in};
ghost use Rattle.cyc_buffer.specs.Stopped.{HoldsStopped, numbers_of};

use crate::answers::{BufError, FaultKind};
use crate::buffer::Buffer;
use crate::buffer_state::BufferState;
use cyc_block::{BlockStore, DeviceFailed, HeadState, head_count, head_image};

/// A buffer that isn't stopped, and why.
#[derive(Drop)]
pub struct Unstopped<S: BlockStore> {
    /// The buffer, as it was, though its head blocks may say anything.
    pub buffer: Buffer<S>,
    /// A write is open, or the device failed.
    pub error: BufError,
}

impl<S: BlockStore> Buffer<S> {
    /// Whether a write is open, as long as which it can't be stopped.
    pub fn is_busy(&self) -> bool
        ensures { result ≡ is_busy self.now }
    {
        self.buffer_state.progress.is_some()
    }

    /// Says on the device what the buffer is, and gives the store.
    pub fn shut(self, stop: u64) -> Result<S, Unstopped<S>>
        // The store holds the buffer, as stopped under this number, with each history.
        ensures held { IfOk result (λ store. (h : History) → Agrees true self h
            → HoldsStopped (S.heads store) (S.blocks store) stop h) }
        ensures honest { IfOk result (λ store. S.honest (store_of self) → S.honest store) }
        ensures count { IfOk result (λ store.
            length (S.blocks store) ≡ length (S.blocks (store_of self))) }
        ensures blocks { IfOk result (λ store.
            LeavesBlocks ⟦<S as BlockStore>⟧ (store_of self) store) }
        // The device is called once for each head block, and has not failed.
        ensures calls { IfOk result (λ store. S.calls store
            ≡ S.calls (store_of self) + head_blocks (length (S.blocks (store_of self)))) }
        ensures no_failure { IfOk result (λ store. S.failures store ≡ S.failures (store_of self)) }
        // Refused while a write is open, and else only where the device failed.
        ensures refusal { IfErr result (λ refused.
            IsStopRefusal self refused.error refused.buffer) }
        ensures busy { is_busy self ≡ true → OnOk result ⊥ }
        // Refused, the buffer is as it was; where head block 0 is another, the bitmap is there.
        ensures same { IfErr result (λ refused. Follows (λ h. h) self refused.buffer) }
        ensures head { IfErr result (λ refused.
            has_open_head refused.buffer ≡ has_open_head self) }
        ensures rest { IfErr result (λ refused. LeavesBuffer self refused.buffer) }
        ensures order { IfErr result (λ refused. S.honest (store_of self)
            → IsInOrder self refused.buffer) }
    {
        let mut buffer = self;
        match buffer.write_heads(stop) {
            Ok(()) => Ok(buffer.into_store()),
            Err(error) => Err(Unstopped { buffer, error }),
        }
    }

    /// Writes the bitmap, and then head block 0 as closed.
    pub(crate) fn write_heads(&mut self, stop: u64) -> Result<(), BufError>
        ensures held { OnOk result ((h : History) → Agrees true self.old h
            → HoldsStopped (S.heads (store_of self.new)) (S.blocks (store_of self.new)) stop h) }
        ensures calls { OnOk result (S.calls (store_of self.new) ≡ S.calls (store_of self.old)
            + head_blocks (length (S.blocks (store_of self.old)))) }
        ensures no_failure { OnOk result (S.failures (store_of self.new)
            ≡ S.failures (store_of self.old)) }
        ensures refusal { IfErr result (λ error. IsStopRefusal self.old error self.new) }
        ensures busy { is_busy self.old ≡ true → OnOk result ⊥ }
        ensures same { Follows (λ h. h) self.old self.new }
        ensures rest { LeavesBuffer self.old self.new }
        ensures order { S.honest (store_of self.old) → IsInOrder self.old self.new }
    {
        if self.buffer_state.progress.is_some() {
            return Err(BufError::Busy);
        }
        // The bitmap has to be on the device first: a head that says closed before it would vouch
        // for it.
        if write_bitmap(&mut self.store, &self.buffer_state).is_err() {
            return Err(BufError::Device(self.buffer_state.fault(FaultKind::Write, 0)));
        }
        self.write_head(HeadState::Closed, stop)
    }

    /// Writes head block 0 in a state, under the number of a stop.
    pub(crate) fn write_head(&mut self, state: HeadState, stop: u64) -> Result<(), BufError>
        ensures head { S.honest (store_of self.old) → OnOk result
            (block_at (S.heads (store_of self.new)) 0
            ≡ image_of (numbers_in (buffer_state_of self.old) (state_view state) stop)) }
        ensures others { S.honest (store_of self.old)
            → ChangesOnly 0 (S.heads (store_of self.old)) (S.heads (store_of self.new)) }
        ensures fit { IsHeadBlock (numbers_in (buffer_state_of self.old) (state_view state) stop) }
        ensures rest { LeavesBuffer self.old self.new }
        // The device is called once, and failed or not, as the result says.
        ensures calls { S.calls (store_of self.new) ≡ S.calls (store_of self.old) + 1 }
        ensures fault { IfErr result (λ error. IsHeadFault self.old error) }
        ensures failed { OnErr result (S.failures (store_of self.old)
            < S.failures (store_of self.new)) }
        ensures no_failure { OnOk result (S.failures (store_of self.new)
            ≡ S.failures (store_of self.old)) }
    {
        // Of a store that has been counted it is known how many head blocks it has.
        let _blocks = self.store.count();
        let image = head_image(&self.buffer_state.numbers(state, stop));
        match self.store.write_head(0, &image) {
            Ok(()) => Ok(()),
            Err(_failed) => Err(BufError::Device(self.buffer_state.fault(FaultKind::Write, 0))),
        }
    }

    /// Says on the device that the buffer may change from here, and from which stop it was started.
    pub fn open_head(&mut self) -> Result<(), BufError>
        ensures opened { OnOk result (has_open_head self.new ≡ true) }
        ensures written { OnOk result ((h : History) → Agrees true self.old h
            → block_at (S.heads (store_of self.new)) 0
            ≡ image_of (numbers_of Open (stop_of self.old) h)) }
        ensures others { S.honest (store_of self.old)
            → ChangesOnly 0 (S.heads (store_of self.old)) (S.heads (store_of self.new)) }
        // Refused where the device failed.
        ensures refused { OnErr result (has_open_head self.new ≡ has_open_head self.old) }
        ensures fault { IfErr result (λ error. IsHeadFault self.old error) }
        ensures failed { OnErr result (S.failures (store_of self.old)
            < S.failures (store_of self.new)) }
        ensures no_failure { OnOk result (S.failures (store_of self.new)
            ≡ S.failures (store_of self.old)) }
        // Whether it is or not, the buffer is as it was, and the device was called once.
        ensures same { Follows (λ h. h) self.old self.new }
        ensures buffer_state { buffer_state_of self.new ≡ buffer_state_of self.old }
        ensures stop { stop_of self.new ≡ stop_of self.old }
        ensures store { LeavesBlocks ⟦<S as BlockStore>⟧ (store_of self.old) (store_of self.new) }
        ensures count { length (S.blocks (store_of self.new))
            ≡ length (S.blocks (store_of self.old)) }
        ensures calls { S.calls (store_of self.new) ≡ S.calls (store_of self.old) + 1 }
    {
        match self.write_head(HeadState::Open, self.stop) {
            Ok(()) => {
                self.has_open_head = true;
                Ok(())
            }
            Err(error) => Err(error),
        }
    }
}

/// Writes the bitmap of the blocks in which a live finished article begins, as the register says.
fn write_bitmap<S: BlockStore>(
    store: &mut S,
    buffer_state: &BufferState,
) -> Result<(), DeviceFailed>
    requires { buffer_state.now.line.blocks ≡ length (S.blocks store.old) }
    ensures bitmap { S.honest store.old → OnOk result ((i : ℕ)
        → i < bitmap_blocks (length (S.blocks store.old)) → block_at (S.heads store.new) (1 + i)
        ≡ bitmap_of (is_told buffer_state.now.starts.words.items (length (S.blocks store.old))) i) }
    ensures first { S.honest store.old
        → block_at (S.heads store.new) 0 ≡ block_at (S.heads store.old) 0 }
    ensures rest { LeavesBlocks ⟦<S as BlockStore>⟧ store.old store.new }
    // It is one call for each block of it, and the device failed where an error is answered.
    ensures calls { OnOk result (S.calls store.new
        ≡ S.calls store.old + bitmap_blocks (length (S.blocks store.old))) }
    ensures failed { OnErr result (S.failures store.old < S.failures store.new) }
    ensures no_failure { OnOk result (S.failures store.new ≡ S.failures store.old) }
{
    let blocks = store.count();
    for i in 0..head_count(blocks) - 1 {
        let octets = buffer_state.starts.bitmap_block(i, blocks);
        store.write_head(i + 1, &octets)?;
    }
    Ok(())
}
