//! A new buffer, and what a report says of one.
ghost use Rattle.std.specs.Prelude.{◌≡◌, IfOk, None, replicate};

use crate::numbered::NumberedBuffer;
use crate::record::{RecordNumber, StorePremises};
use cyc_block::BlockStore;
use cyc_buffer::{Buffer, FormatError, Front, Unformatted};
use std::alloc::{AllocError, Global};
use std::marker::PhantomData;

impl<S: BlockStore, J: StorePremises> NumberedBuffer<S, J> {
    ghost use Rattle.std.specs.Prelude.{◌≡◌, ◌+◌, Bool, true, length, IfErr};
    ghost use Rattle.cyc_buffer.specs.Agreement.{Agrees, store_of};
    ghost use Rattle.cyc_buffer.specs.Answers.{front_view};
    ghost use Rattle.cyc_buffer.specs.Head.{LeavesBlocks, IsFormatRefusal};
    ghost use Rattle.cyc_buffer.specs.History.{History, new_history, front_of, cycle_of};
    ghost use Rattle.cyc_buffer.specs.History.{stored_count};
    ghost use Rattle.live_store.specs.Steps.{buffer_of, open_write_of, numbers_of};

    /// A buffer over all blocks of a store, in which nothing was begun yet. All memory is taken
    /// here: beside the buffer's own, 16 octets for each block.
    pub fn format(
        alloc: Global,
        store: S,
        number: u8,
        first_cycle: u32,
    ) -> Result<NumberedBuffer<S, J>, Unformatted<S>>
        requires { J.trusted ≡ true → S.honest store }
        ensures new { IfOk result (λ numbered. (trusted : Bool) → (trusted ≡ true → S.honest store)
            → Agrees trusted (buffer_of numbered) (new_history (record {
              number = number;
              blocks = length (S.blocks store);
              first_cycle = first_cycle;
            }))) }
        ensures free { IfOk result (λ numbered. open_write_of numbered ≡ None) }
        ensures numbers { IfOk result (λ numbered. numbers_of numbered
            ≡ replicate (length (S.blocks store)) None) }
        // The device is called once, for head block 0.
        ensures blocks { IfOk result (λ numbered.
            LeavesBlocks ⟦<S as BlockStore>⟧ store (store_of (buffer_of numbered))) }
        ensures calls { IfOk result (λ numbered.
            S.calls (store_of (buffer_of numbered)) ≡ S.calls store + 1) }
        ensures failures { IfOk result (λ numbered.
            S.failures (store_of (buffer_of numbered)) ≡ S.failures store) }
        // Else the store is handed back.
        ensures refusal { IfErr result (λ refused.
            IsFormatRefusal ⟦<S as BlockStore>⟧ store refused.error refused.store) }
    {
        let numbers = match no_numbers(alloc, store.count()) {
            Ok(numbers) => numbers,
            Err(_refused) => {
                let error = FormatError::Memory;
                return Err(Unformatted { store, error });
            }
        };
        let buffer = match Buffer::format(alloc, store, number, first_cycle) {
            Ok(buffer) => buffer,
            Err(refused) => return Err(refused),
        };
        Ok(NumberedBuffer {
            buffer,
            open_write: None,
            numbers,
            of: PhantomData,
        })
    }

    /// The front's place on the endless line of the buffer's blocks.
    pub fn front(&self) -> u64
        ensures { (trusted : Bool) (h : History) → Agrees trusted (buffer_of self.now) h
            → result ≡ front_of h }
    {
        self.buffer.front()
    }

    /// The front as a value, which a buffer alone makes.
    pub fn passed(&self) -> Front
        ensures { (trusted : Bool) (h : History) → Agrees trusted (buffer_of self.now) h
            → result ≡ front_view h.buffer (front_of h) }
    {
        self.buffer.passed()
    }

    /// The cycle that the newest article is in; the first one where there is none.
    pub fn cycle(&self) -> u32
        ensures { (trusted : Bool) (h : History) → Agrees trusted (buffer_of self.now) h
            → result ≡ cycle_of h }
    {
        self.buffer.cycle()
    }

    /// How many articles were begun in the buffer.
    pub fn begun(&self) -> u64
        ensures { (trusted : Bool) (h : History) → Agrees trusted (buffer_of self.now) h
            → result ≡ length h.begins }
    {
        self.buffer.begun()
    }

    /// How many of the articles that were begun in the buffer were finished.
    pub fn stored(&self) -> u64
        ensures { (trusted : Bool) (h : History) → Agrees trusted (buffer_of self.now) h
            → result ≡ stored_count h.begins }
    {
        self.buffer.stored()
    }
}

/// No number for each block.
pub(crate) fn no_numbers(
    alloc: Global,
    blocks: u32,
) -> Result<Vec<Option<RecordNumber>>, AllocError>
    ensures { IfOk result (λ numbers. numbers.items ≡ replicate blocks None) }
{
    let mut numbers = Vec::with_capacity(alloc, blocks as usize)?;
    for _ in 0..blocks {
        numbers.push_reserved(None);
    }
    Ok(numbers)
}
