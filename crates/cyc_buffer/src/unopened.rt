//! A started buffer before its head is open: it begins nothing.
ghost use Rattle.std.specs.Prelude.{◌≡◌, ◌<◌, ◌+◌, Bool, true, length, IfErr, IfOk, OnOk};
ghost use Rattle.news_terms.specs.HeadBlocks.{Open, head_blocks, head_image as image_of};
ghost use Rattle.news_terms.specs.Token as terms;
ghost use Rattle.cyc_block.specs.Store.{block_at, ChangesOnly};
ghost use Rattle.cyc_buffer.specs.Agreement.{Agrees, Follows, store_of, buffer_state_of};
ghost use Rattle.cyc_buffer.specs.Calls.{ReadsBlock};
ghost use Rattle.cyc_buffer.specs.Crash.{IsLeftOf};
ghost use Rattle.cyc_buffer.specs.Head.{has_open_head, inside, stop_of, LeavesBlocks, LeavesBuffer};
ghost use Rattle.cyc_buffer.specs.Head.{IsInOrder, IsStopRefusal, is_busy};
ghost use Rattle.cyc_buffer.specs.History.{History};
ghost use Rattle.cyc_buffer.specs.Reads.{StaysHeld};
ghost use Rattle.cyc_buffer.specs.Stopped.{HoldsStopped, numbers_of};

use crate::answers::{BufError, Found};
use crate::buffer::Buffer;
use cyc_block::{BlockStore, CHUNK_OCTETS};
use cyc_token::Token;

/// A started buffer whose head block still says what it said: closed, or, where the buffer was not
/// stopped but found again, open.
pub struct Unopened<S: BlockStore> {
    pub(crate) buffer: Buffer<S>,
}

// Written out, so that no crate above proves anew how each part is let go.
impl<S: BlockStore + Drop> Drop for Unopened<S> {
    fn drop(self) {
        let Unopened { buffer: _ } = self;
    }
}

/// A buffer whose head blocks aren't written as closed, and why.
#[derive(Drop)]
pub struct Unshut<S: BlockStore> {
    /// The buffer, as it was, though its head blocks may say anything; it gives the store.
    pub buffer: Unopened<S>,
    /// A write is open, or the device failed.
    pub error: BufError,
}

impl<S: BlockStore> Unopened<S> {
    /// The buffer, to be looked at.
    pub fn buffer(&self) -> &Buffer<S>
        ensures { result.now ≡ inside self.now }
    {
        &self.buffer
    }

    /// The buffer's store.
    pub fn into_store(self) -> S
        ensures { result ≡ store_of (inside self) }
    {
        let Unopened { buffer } = self;
        buffer.into_store()
    }

    /// Reads block k of the article under a token, as the buffer does.
    pub fn read_block(
        &mut self,
        token: &Token,
        k: u32,
        chunk: &mut [u8; CHUNK_OCTETS],
    ) -> Result<Found, BufError>
        ensures reads { ReadsBlock (inside self.old) token.now k chunk.old result chunk.new
            (inside self.new) }
        ensures held { StaysHeld S.BlockStore (store_of (inside self.old))
            (store_of (inside self.new)) }
        ensures stop { stop_of (inside self.new) ≡ stop_of (inside self.old) }
    {
        self.buffer.read_block(token, k, chunk)
    }

    /// Says on the device what the buffer is, as a stop does, and gives the store: so a start finds
    /// it that was found again without one.
    pub fn shut(self, stop: u64) -> Result<S, Unshut<S>>
        // The store holds the buffer, as stopped under this number, with each history.
        ensures held { IfOk result (λ store. (h : History) → Agrees true (inside self) h
            → HoldsStopped (S.heads store) (S.blocks store) stop h) }
        ensures rest { IfOk result (λ store.
            LeavesBlocks ⟦<S as BlockStore>⟧ (store_of (inside self)) store) }
        // The device is called once for each head block, and has not failed.
        ensures calls { IfOk result (λ store. S.calls store ≡ S.calls (store_of (inside self))
            + head_blocks (length (S.blocks (store_of (inside self))))) }
        ensures no_failure { IfOk result (λ store.
            S.failures store ≡ S.failures (store_of (inside self))) }
        // Refused while a write is open, and else only where the device failed.
        ensures refusal { IfErr result (λ refused.
            IsStopRefusal (inside self) refused.error (inside refused.buffer)) }
        ensures busy { is_busy (inside self) ≡ true → OnOk result ⊥ }
        // Refused, the buffer is as it was; where head block 0 is another, the bitmap is there.
        ensures same { IfErr result (λ refused.
            Follows (λ h. h) (inside self) (inside refused.buffer)) }
        ensures left { IfErr result (λ refused.
            LeavesBuffer (inside self) (inside refused.buffer)) }
        ensures order { IfErr result (λ refused. S.honest (store_of (inside self))
            → IsInOrder (inside self) (inside refused.buffer)) }
        // Whether it is or not, what a crash may have left before it, it may leave behind it.
        ensures leaves { IfOk result (λ store. S.honest (store_of (inside self)) → (h : History)
            (kept : terms.Token → Bool) → IsLeftOf h kept (S.blocks (store_of (inside self)))
            → IsLeftOf h kept (S.blocks store)) }
        ensures leaves_refused { IfErr result (λ refused. S.honest (store_of (inside self))
            → (h : History) (kept : terms.Token → Bool)
            → IsLeftOf h kept (S.blocks (store_of (inside self)))
            → IsLeftOf h kept (S.blocks (store_of (inside refused.buffer)))) }
    {
        let Unopened { buffer } = self;
        let mut buffer = buffer;
        // The bitmap has to be on the device before a head that says closed, which would vouch for
        // one that was never written.
        match buffer.write_heads(stop) {
            Ok(()) => Ok(buffer.into_store()),
            Err(error) => {
                let buffer = Unopened { buffer };
                Err(Unshut { buffer, error })
            }
        }
    }

    /// Says on the device that the buffer may change from here, and from which stop it was started.
    /// Where the device fails, its head block may say anything.
    pub fn open(self) -> Result<Buffer<S>, Unopened<S>>
        ensures opened { IfOk result (λ buffer. has_open_head buffer ≡ true) }
        ensures written { IfOk result (λ buffer. (h : History) → Agrees true (inside self) h
            → block_at (S.heads (store_of buffer)) 0
            ≡ image_of (numbers_of Open (stop_of (inside self)) h)) }
        ensures others { IfOk result (λ buffer. S.honest (store_of (inside self))
            → ChangesOnly 0 (S.heads (store_of (inside self))) (S.heads (store_of buffer))) }
        ensures same { IfOk result (Follows (λ h. h) (inside self)) }
        ensures buffer_state { IfOk result (λ buffer.
            buffer_state_of buffer ≡ buffer_state_of (inside self)) }
        ensures calls { IfOk result (λ buffer.
            S.calls (store_of buffer) ≡ S.calls (store_of (inside self)) + 1) }
        ensures no_failure { IfOk result (λ buffer.
            S.failures (store_of buffer) ≡ S.failures (store_of (inside self))) }
        ensures failed { IfErr result (λ unopened. S.failures (store_of (inside self))
            < S.failures (store_of (inside unopened))) }
        ensures refused { IfErr result (λ unopened.
            Follows (λ h. h) (inside self) (inside unopened)) }
        ensures rest { IfErr result (λ unopened. LeavesBuffer (inside self) (inside unopened)) }
        ensures blocks { IfOk result (λ buffer.
            LeavesBlocks ⟦<S as BlockStore>⟧ (store_of (inside self)) (store_of buffer)) }
        ensures count { IfOk result (λ buffer. length (S.blocks (store_of buffer))
            ≡ length (S.blocks (store_of (inside self)))) }
    {
        let Unopened { buffer } = self;
        let mut buffer = buffer;
        if buffer.open_head().is_err() {
            return Err(Unopened { buffer });
        }
        Ok(buffer)
    }
}
