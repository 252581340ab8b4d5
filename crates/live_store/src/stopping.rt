//! How a buffer is stopped.
use crate::numbered::NumberedBuffer;
use crate::open_write::OpenWrite;
use crate::record::StorePremises;
use cyc_block::BlockStore;
use cyc_buffer::{BufError, Unstopped};
use std::marker::PhantomData;

/// A buffer that isn't stopped, and why.
pub struct Unshut<S: BlockStore, J: StorePremises> {
    /// The buffer, as it was, though its head blocks may say anything.
    pub buffer: NumberedBuffer<S, J>,
    /// A write is open, or the device failed.
    pub error: BufError,
}

impl<S: BlockStore, J: StorePremises> NumberedBuffer<S, J> {
    ghost use Rattle.std.specs.Prelude.{◌≡◌, ◌+◌, true, None, is_some, length, IfErr, IfOk, OnOk};
    ghost use Rattle.news_terms.specs.HeadBlocks.{head_blocks};
    ghost use Rattle.cyc_buffer.specs.Agreement.{Agrees, Follows, store_of};
    ghost use Rattle.cyc_buffer.specs.Head.{is_busy, IsInOrder, IsStopRefusal, LeavesBuffer};
    ghost use Rattle.cyc_buffer.specs.History.{History};
    ghost use Rattle.cyc_buffer.specs.Stopped.{HoldsStopped};
    ghost use Rattle.live_store.specs.Started.{ShutWith};
    ghost use Rattle.live_store.specs.Steps.{buffer_of, open_write_of, numbers_of};

    /// Whether a write is open, as long as which it can't be stopped.
    pub fn is_busy(&self) -> bool
        ensures open_write { result ≡ is_some (open_write_of self.now) }
        ensures busy { result ≡ is_busy (buffer_of self.now) }
    {
        self.open_write.is_some()
    }

    /// The buffer's store.
    pub fn into_store(self) -> S
        ensures { result ≡ store_of (buffer_of self) }
    {
        let (buffer, open_write, _numbers) = self.into_parts();
        if let Some(
            OpenWrite {
                write,
                shown: _,
                written: _,
                broken: _,
            },
        ) = open_write
        {
            let _token = write.into_token();
        }
        buffer.into_store()
    }

    /// Says on the device what the buffer is, and gives the store.
    pub fn shut(self, stop: u64) -> Result<S, Unshut<S, J>>
        // The store holds the buffer, as stopped under this number, with each history, and of one
        // of these each live text is that of a record.
        ensures held { IfOk result (λ store. (h : History) → Agrees true (buffer_of self) h
            → HoldsStopped (S.heads store) (S.blocks store) stop h) }
        ensures known { IfOk result (λ store. J.trusted ≡ true
            → ∥ ShutWith J.register stop (S.heads store) (S.blocks store) ∥₁) }
        ensures honest { IfOk result (λ store. S.honest (store_of (buffer_of self))
            → S.honest store) }
        ensures count { IfOk result (λ store.
            length (S.blocks store) ≡ length (S.blocks (store_of (buffer_of self)))) }
        // The device is called once for each head block, and has not failed.
        ensures calls { IfOk result (λ store. S.calls store
            ≡ S.calls (store_of (buffer_of self))
            + head_blocks (length (S.blocks (store_of (buffer_of self))))) }
        ensures no_failure { IfOk result (λ store.
            S.failures store ≡ S.failures (store_of (buffer_of self))) }
        // Refused while a write is open, and else only where the device failed.
        ensures free { OnOk result (open_write_of self ≡ None) }
        ensures refusal { IfErr result (λ refused. IsStopRefusal (buffer_of self) refused.error
            (buffer_of refused.buffer)) }
        // Refused, the buffer is as it was; where head block 0 is another, the bitmap is there.
        ensures same { IfErr result (λ refused.
            Follows (λ h. h) (buffer_of self) (buffer_of refused.buffer)) }
        ensures rest { IfErr result (λ refused.
            LeavesBuffer (buffer_of self) (buffer_of refused.buffer)) }
        ensures order { IfErr result (λ refused. S.honest (store_of (buffer_of self))
            → IsInOrder (buffer_of self) (buffer_of refused.buffer)) }
        ensures open_write { IfErr result (λ refused.
            open_write_of refused.buffer ≡ open_write_of self) }
        ensures numbers { IfErr result (λ refused.
            numbers_of refused.buffer ≡ numbers_of self) }
    {
        let (buffer, open_write, numbers) = self.into_parts();
        match buffer.shut(stop) {
            Ok(store) => match open_write {
                None => Ok(store),
                Some(_) => unreachable!(),
            },
            Err(refused) => {
                let Unstopped { buffer, error } = refused;
                Err(Unshut {
                    buffer: NumberedBuffer {
                        buffer,
                        open_write,
                        numbers,
                        of: PhantomData,
                    },
                    error,
                })
            }
        }
    }
}
