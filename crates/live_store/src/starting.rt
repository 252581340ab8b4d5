//! How a buffer is started from what it left on its device, with the register's record for each
//! live article.
ghost use Rattle.std.specs.Prelude.{◌≡◌, Bool, true, length, IfErr, IfOk, OnOk};
ghost use Rattle.cyc_buffer.specs.Agreement.{Agrees, store_of};
ghost use Rattle.cyc_buffer.specs.Head.{inside};
ghost use Rattle.cyc_buffer.specs.History.{History};
ghost use Rattle.cyc_buffer.specs.Reads.{IsBlamed};
ghost use Rattle.cyc_buffer.specs.Remembered.{AreWithin};
ghost use Rattle.cyc_buffer.specs.Starting.{ListsLive};
ghost use Rattle.live_store.specs.Started.{AreArticles, HaveFirsts, IsUnentered, ReadsArticles};
ghost use Rattle.live_store.specs.Tied.{AreNumbered, AreShown};

use crate::figures::no_numbers;
use crate::numbered::NumberedBuffer;
use crate::record::{ArticleLog, RecordNumber, StorePremises};
use crate::unopened::UnopenedNumbered;
use crate::writing::enter_articles;
use cyc_block::BlockStore;
use cyc_buffer::{Buffer, Refused, StartError, Started, Unopened};
use cyc_token::Token;
use std::alloc::Global;
use std::marker::PhantomData;
use std::sync::Wait;

impl<S: BlockStore, J: StorePremises> UnopenedNumbered<S, J> {
    ghost use Rattle.std.specs.Prelude.{◌≡◌, ◌<◌, ◌+◌, true, None, length, IfErr, IfOk};
    ghost use Rattle.news_terms.specs.HeadBlocks.{Open, head_image as image_of};
    ghost use Rattle.cyc_block.specs.Store.{block_at, ChangesOnly};
    ghost use Rattle.cyc_buffer.specs.Agreement.{Agrees, Follows, store_of, buffer_state_of};
    ghost use Rattle.cyc_buffer.specs.Head.{has_open_head, inside, stop_of, LeavesBlocks};
    ghost use Rattle.cyc_buffer.specs.Head.{LeavesBuffer};
    ghost use Rattle.cyc_buffer.specs.History.{History};
    ghost use Rattle.cyc_buffer.specs.Stopped.{numbers_of as head_of};
    ghost use Rattle.live_store.specs.Started.{unopened_in, numbers_on};
    ghost use Rattle.live_store.specs.Steps.{buffer_of, open_write_of, numbers_of};

    /// The buffer, to be looked at.
    pub fn buffer(&self) -> &Buffer<S>
        ensures { result.now ≡ inside (unopened_in self.now) }
    {
        self.buffer.buffer()
    }

    /// The buffer's store.
    pub fn into_store(self) -> S
        ensures { result ≡ store_of (inside (unopened_in self)) }
    {
        self.buffer.into_store()
    }

    /// Says on the device that the buffer may change from here, and from which stop it was started.
    /// Where the device fails, its head block may say anything.
    pub fn open(self) -> Result<NumberedBuffer<S, J>, UnopenedNumbered<S, J>>
        ensures opened { IfOk result (λ numbered. has_open_head (buffer_of numbered) ≡ true) }
        ensures written { IfOk result (λ numbered. (h : History)
            → Agrees true (inside (unopened_in self)) h
            → block_at (S.heads (store_of (buffer_of numbered))) 0
            ≡ image_of (head_of Open (stop_of (inside (unopened_in self))) h)) }
        ensures others { IfOk result (λ numbered. S.honest (store_of (inside (unopened_in self)))
            → ChangesOnly 0 (S.heads (store_of (inside (unopened_in self))))
            (S.heads (store_of (buffer_of numbered)))) }
        // The buffer is what it was, nothing stands beside it, and the numbers stay.
        ensures same { IfOk result (λ numbered.
            Follows (λ h. h) (inside (unopened_in self)) (buffer_of numbered)) }
        ensures register { IfOk result (λ numbered.
            buffer_state_of (buffer_of numbered) ≡ buffer_state_of (inside (unopened_in self))) }
        ensures free { IfOk result (λ numbered. open_write_of numbered ≡ None) }
        ensures numbers { IfOk result (λ numbered. numbers_of numbered ≡ numbers_on self) }
        // The device is called once, and fails where the head isn't open.
        ensures calls { IfOk result (λ numbered. S.calls (store_of (buffer_of numbered))
            ≡ S.calls (store_of (inside (unopened_in self))) + 1) }
        ensures no_failure { IfOk result (λ numbered. S.failures (store_of (buffer_of numbered))
            ≡ S.failures (store_of (inside (unopened_in self)))) }
        ensures failed { IfErr result (λ back. S.failures (store_of (inside (unopened_in self)))
            < S.failures (store_of (inside (unopened_in back)))) }
        ensures refused { IfErr result (λ back.
            Follows (λ h. h) (inside (unopened_in self)) (inside (unopened_in back))) }
        ensures rest { IfErr result (λ back.
            LeavesBuffer (inside (unopened_in self)) (inside (unopened_in back))) }
        ensures kept { IfErr result (λ back. numbers_on back ≡ numbers_on self) }
        ensures blocks { IfOk result (λ numbered. LeavesBlocks ⟦<S as BlockStore>⟧
            (store_of (inside (unopened_in self))) (store_of (buffer_of numbered))) }
        ensures count { IfOk result (λ numbered. length (S.blocks (store_of (buffer_of numbered)))
            ≡ length (S.blocks (store_of (inside (unopened_in self))))) }
    {
        let UnopenedNumbered {
            buffer,
            numbers,
            of: _,
        } = self;
        match buffer.open() {
            Ok(buffer) => Ok(NumberedBuffer {
                buffer,
                open_write: None,
                numbers,
                of: PhantomData,
            }),
            Err(buffer) => Err(UnopenedNumbered {
                buffer,
                numbers,
                of: PhantomData,
            }),
        }
    }
}

impl<S: BlockStore, J: StorePremises> NumberedBuffer<S, J> {
    ghost use Rattle.std.specs.Prelude.{◌≡◌, ℕ, Bool, true, false, length, IfErr, IfOk};
    ghost use Rattle.cyc_buffer.specs.Agreement.{Agrees, store_of};
    ghost use Rattle.cyc_buffer.specs.Head.{has_open_head, inside, is_busy, said_of, stop_of};
    ghost use Rattle.cyc_buffer.specs.History.{History};
    ghost use Rattle.cyc_buffer.specs.Reads.{IsBlamed, StaysHeld};
    ghost use Rattle.cyc_buffer.specs.Remembered.{AreWithin, ListsStarts, is_start};
    ghost use Rattle.cyc_buffer.specs.Starting.{ListsLive};
    ghost use Rattle.cyc_buffer.specs.Stopped.{HoldsStopped, Says};
    ghost use Rattle.news_terms.specs.HeadBlocks.{Closed};
    ghost use Rattle.live_store.specs.Started.{AreArticles, IsMerelyRead, IsStarted, IsUnentered};
    ghost use Rattle.live_store.specs.Started.{IsRefusedFor, IsStartable, WasStopped, numbers_on};
    ghost use Rattle.live_store.specs.Started.{unopened_in};
    ghost use Rattle.live_store.specs.Tied.{AreNumbered};

    /// A buffer that was stopped, with the register's record for each live article: its text is
    /// read, and judged an article. Nothing is written, and all memory is taken here: beside the
    /// buffer's own, 16 octets for each block, and that of one text at a time. It gives the number
    /// of the stop, too.
    pub fn start<R: Wait>(
        rt: &R,
        alloc: Global,
        register: &ArticleLog,
        store: S,
        number: u8,
        first_cycle: u32,
    ) -> Result<(UnopenedNumbered<S, J>, u64), Refused<S>>
        requires register { register.now ≡ J.register }
        // What is trusted is honest, and was stopped.
        requires honest { J.trusted ≡ true → S.honest store }
        requires stopped { J.trusted ≡ true
            → ∥ WasStopped (S.heads store) (S.blocks store) (record {
              number = number;
              blocks = length (S.blocks store);
              first_cycle = first_cycle;
            }) ∥₁ }
        // A store that holds a buffer as stopped gives it back, with each history that it holds:
        // each live article has its record's number at its first block.
        ensures agrees { S.honest store → IfOk result (λ made. (stop : ℕ) (h : History)
            → HoldsStopped (S.heads store) (S.blocks store) stop h
            → h.buffer ≡ record {
              number = number;
              blocks = length (S.blocks store);
              first_cycle = first_cycle;
            } → Agrees true (inside (unopened_in made.0)) h) }
        ensures stop { S.honest store → IfOk result (λ made. (stop : ℕ) (h : History)
            → HoldsStopped (S.heads store) (S.blocks store) stop h → made.1 ≡ stop) }
        ensures numbered { S.honest store → IfOk result (λ made. (stop : ℕ) (h : History)
            → HoldsStopped (S.heads store) (S.blocks store) stop h
            → h.buffer ≡ record {
              number = number;
              blocks = length (S.blocks store);
              first_cycle = first_cycle;
            } → AreNumbered true J.register h (numbers_on made.0)) }
        // Where each live text is an article, it is refused for memory or its device alone.
        ensures refused { S.honest store → (stop : ℕ) (h : History)
            → HoldsStopped (S.heads store) (S.blocks store) stop h
            → h.buffer ≡ record {
              number = number;
              blocks = length (S.blocks store);
              first_cycle = first_cycle;
            } → IfErr result (λ refused. IsUnentered (AreArticles h) refused.error) }
        // Whatever the store holds, it is started only where nothing is wrong with it, and refused
        // for the first reason.
        ensures started { S.honest store → IfOk result (λ made.
            IsStartable (S.heads store) (S.blocks store) (record {
              number = number;
              blocks = length (S.blocks store);
              first_cycle = first_cycle;
            }) made.1) }
        ensures reason { S.honest store → IfErr result (λ refused.
            IsRefusedFor (S.heads store) (S.blocks store) (record {
              number = number;
              blocks = length (S.blocks store);
              first_cycle = first_cycle;
            }) refused.error) }
        // The buffer is as far as its head block says.
        ensures said { S.honest store → IfOk result (λ made. Says (S.heads store) (record {
          number = number;
          blocks = length (S.blocks store);
          first_cycle = first_cycle;
        }) (said_of Closed made.1 (inside (unopened_in made.0)))) }
        // The buffer is idle, its head block isn't open, and it remembers the stop.
        ensures unopened { IfOk result (λ made.
            has_open_head (inside (unopened_in made.0)) ≡ false) }
        ensures idle { IfOk result (λ made. is_busy (inside (unopened_in made.0)) ≡ false) }
        ensures under { IfOk result (λ made. stop_of (inside (unopened_in made.0)) ≡ made.1) }
        // Nothing is written, and Device says that the device failed, and no other answer does.
        ensures same { IfOk result (λ made.
            StaysHeld S.BlockStore store (store_of (inside (unopened_in made.0)))) }
        ensures held { IfErr result (λ refused. StaysHeld S.BlockStore store refused.store) }
        ensures failed { IfErr result (λ refused.
            IsBlamed S.BlockStore store refused.store refused.error) }
        ensures no_failure { IfOk result (λ made.
            S.failures (store_of (inside (unopened_in made.0))) ≡ S.failures store) }
    {
        let started = match Buffer::start(alloc, store, number, first_cycle) {
            Ok(started) => started,
            Err(refused) => return Err(refused),
        };
        let stop = started.stop;
        match NumberedBuffer::read_back(rt, alloc, register, started) {
            Ok(numbered) => Ok((numbered, stop)),
            Err(refused) => Err(refused),
        }
    }

    /// A buffer that was started, with the register's record for each live article: its text is
    /// read, and judged an article.
    pub fn read_back<R: Wait>(
        rt: &R,
        alloc: Global,
        register: &ArticleLog,
        started: Started<S>,
    ) -> Result<UnopenedNumbered<S, J>, Refused<S>>
        requires register { register.now ≡ J.register }
        requires started { J.trusted ≡ true
            → ∥ IsStarted (inside started.buffer) started.tokens.items ∥₁ }
        requires listed { ListsStarts 0 (length (S.blocks (store_of (inside started.buffer))))
            (is_start (inside started.buffer)) started.tokens.items }
        requires within { AreWithin (length (S.blocks (store_of (inside started.buffer))))
            started.tokens.items }
        requires idle { is_busy (inside started.buffer) ≡ false }
        // It is the same buffer, and each live article of each history that it agrees with has its
        // record's number at its first block.
        ensures read { IfOk result (λ numbered.
            IsMerelyRead (inside started.buffer) (inside (unopened_in numbered))) }
        ensures numbered { IfOk result (λ numbered. (trusted : Bool) (h : History)
            → Agrees trusted (inside started.buffer) h → ListsLive started.tokens.items h
            → AreNumbered trusted J.register h (numbers_on numbered)) }
        // What holds no article under a live token, or not all of it, is damaged.
        ensures refused { (h : History) → Agrees true (inside started.buffer) h
            → ListsLive started.tokens.items h
            → IfErr result (λ refused. IsUnentered (AreArticles h) refused.error) }
        // Nothing is written; and what is refused is no other fault of the buffer.
        ensures held { IfErr result (λ refused.
            StaysHeld S.BlockStore (store_of (inside started.buffer)) refused.store) }
        ensures fault { IfErr result (λ refused. IsUnentered ⊥ refused.error) }
        ensures failed { IfErr result (λ refused. IsBlamed S.BlockStore
            (store_of (inside started.buffer)) refused.store refused.error) }
        ensures no_failure { IfOk result (λ numbered.
            S.failures (store_of (inside (unopened_in numbered)))
            ≡ S.failures (store_of (inside started.buffer))) }
    {
        let Started {
            buffer,
            stop: _,
            tokens,
        } = started;
        let mut buffer = buffer;
        match numbers_of_articles(rt, alloc, register, &mut buffer, &tokens) {
            Ok(numbers) => Ok(UnopenedNumbered {
                buffer,
                numbers,
                of: PhantomData,
            }),
            Err(error) => Err(Refused {
                store: buffer.into_store(),
                error,
            }),
        }
    }
}

/// For each block the number of the article that begins there and has one of these tokens.
fn numbers_of_articles<S: BlockStore, R: Wait>(
    rt: &R,
    alloc: Global,
    register: &ArticleLog,
    buffer: &mut Unopened<S>,
    tokens: &[Token],
) -> Result<Vec<Option<RecordNumber>>, StartError>
    requires within { AreWithin (length (S.blocks (store_of (inside buffer.old))))
        tokens.now }
    ensures numbered { IfOk result (λ numbers. (trusted : Bool) (h : History)
        → Agrees trusted (inside buffer.old) h → ListsLive tokens.now h
        → AreNumbered trusted register.now h numbers.items) }
    ensures shown { IfOk result (λ numbers. AreShown register.now numbers.items) }
    ensures firsts { IfOk result (λ numbers.
        HaveFirsts tokens.now (length tokens.now) numbers.items) }
    ensures length { IfOk result (λ numbers. length numbers.items
        ≡ length (S.blocks (store_of (inside buffer.old)))) }
    ensures reads { ReadsArticles (inside buffer.old) (inside buffer.new) result }
    ensures refused { (h : History) → Agrees true (inside buffer.old) h
        → ListsLive tokens.now h → IfErr result (IsUnentered (AreArticles h)) }
{
    let mut numbers = match no_numbers(alloc, buffer.buffer().blocks()) {
        Ok(numbers) => numbers,
        Err(_refused) => return Err(StartError::Memory),
    };
    match enter_articles(rt, alloc, register, buffer, tokens, &mut numbers) {
        Ok(()) => Ok(numbers),
        Err(error) => {
            drop(numbers);
            Err(error)
        }
    }
}
