//! How a buffer that was not stopped is found again.
ghost use Rattle.std.specs.Prelude.{◌≡◌, ◌+◌, ◌<◌, ◌≤◌, ℕ, Bool, true, false, length, IfErr};
ghost use Rattle.std.specs.Prelude.{IfOk};
ghost use Rattle.std.specs.List.{Contains};
ghost use Rattle.news_terms.specs.Token as terms;
ghost use Rattle.cyc_token.specs.Token.{token_view};
ghost use Rattle.cyc_token.specs.declared.Token as codes;
ghost use Rattle.cyc_buffer.specs.Agreement.{Agrees, store_of};
ghost use Rattle.cyc_buffer.specs.Crash.{CountsFound, IsFoundIn, IsFrontOn, IsLeftOf, IsOfHistory};
ghost use Rattle.cyc_buffer.specs.Crash.{IsStopOf, IsUnfound, Tells};
ghost use Rattle.cyc_buffer.specs.FoundHistory.{found_history};
ghost use Rattle.cyc_buffer.specs.Head.{has_open_head, inside, is_busy, stop_of};
ghost use Rattle.cyc_buffer.specs.History.{History};
ghost use Rattle.cyc_buffer.specs.Reads.{IsBlamed, StaysHeld};
ghost use Rattle.cyc_buffer.specs.Remembered.{AreWithin, ListsStarts, is_start};
ghost use Rattle.cyc_buffer.specs.Scanning.{HasFrontOn, ReadsFound, ReadsStop};
ghost use Rattle.cyc_buffer.specs.Starting.{ListsLive};

use crate::answers::StartError;
use crate::bits::read_head_octets;
use crate::buffer::Buffer;
use crate::found::{found_state, list_found};
use crate::marks::Marks;
use crate::scanning::scan_blocks;
use crate::starting::{Refused, Started};
use crate::stopped::Stopped;
use crate::unopened::Unopened;
use cyc_block::{BlockStore, read_head_image};
use std::alloc::Global;

impl<S: BlockStore> Buffer<S> {
    /// The buffer that was used on a store when its program was killed or the power failed: each of
    /// its blocks is read once, in order, and each article of which all blocks are there is found
    /// again, as far as the front hasn't passed it. Nothing is written, and all memory is taken
    /// here.
    pub fn recover(
        alloc: Global,
        store: S,
        number: u8,
        first_cycle: u32,
    ) -> Result<Started<S>, Refused<S>>
        // It agrees with each history that the device tells, where that counts what was found.
        ensures agrees { S.honest store → IfOk result (λ started. (h : History)
            → Tells (S.blocks store) h
            → h.buffer ≡ record {
              number = number;
              blocks = length (S.blocks store);
              first_cycle = first_cycle;
            } → CountsFound h started.tokens.items → Agrees true (inside started.buffer) h) }
        ensures tokens { S.honest store → IfOk result (λ started. (h : History)
            → Tells (S.blocks store) h
            → h.buffer ≡ record {
              number = number;
              blocks = length (S.blocks store);
              first_cycle = first_cycle;
            } → ListsLive started.tokens.items h) }
        // Its front is the one that the device tells.
        ensures front { S.honest store → IfOk result (λ started. HasFrontOn (inside started.buffer)
            (record {
              number = number;
              blocks = length (S.blocks store);
              first_cycle = first_cycle;
            }) (S.blocks store)) }
        // It agrees with the history in which each block that the front passed and that is no found
        // article's is a begin of its own, wherever the front of the device is.
        ensures history { S.honest store → 1 ≤ length (S.blocks store) → IfOk result (λ started.
            (cycle used : ℕ) → IsFrontOn (record {
              number = number;
              blocks = length (S.blocks store);
              first_cycle = first_cycle;
            }) (S.blocks store) cycle used
            → Agrees true (inside started.buffer) (found_history (record {
              number = number;
              blocks = length (S.blocks store);
              first_cycle = first_cycle;
            }) (S.blocks store) cycle used started.tokens.items)) }
        // Where a crash has left the device of a history, each article that was to be kept is
        // found, and each that is found was begun, with its text where it was finished.
        ensures kept { S.honest store → IfOk result (λ started. (h : History)
            (kept : terms.Token → Bool) → IsLeftOf h kept (S.blocks store)
            → h.buffer ≡ record {
              number = number;
              blocks = length (S.blocks store);
              first_cycle = first_cycle;
            } → (t : codes.Token) → kept (token_view t) ≡ true
            → Contains started.tokens.items t) }
        ensures begun { S.honest store → IfOk result (λ started. (h : History)
            (kept : terms.Token → Bool) → IsLeftOf h kept (S.blocks store)
            → h.buffer ≡ record {
              number = number;
              blocks = length (S.blocks store);
              first_cycle = first_cycle;
            } → (t : codes.Token) → Contains started.tokens.items t
            → IsOfHistory h (S.blocks store) (token_view t)) }
        // What is found is what the blocks say, whatever they hold, and the number of the stop is
        // that of head block 0.
        ensures found { S.honest store → IfOk result (λ started. IsFoundIn (S.blocks store)
            (record {
              number = number;
              blocks = length (S.blocks store);
              first_cycle = first_cycle;
            }) started.tokens.items) }
        ensures stop { S.honest store → IfOk result (λ started. IsStopOf (S.heads store) (record {
          number = number;
          blocks = length (S.blocks store);
          first_cycle = first_cycle;
        }) started.stop) }
        ensures reason { S.honest store → IfErr result
            (λ refused. IsUnfound (S.heads store) (record {
              number = number;
              blocks = length (S.blocks store);
              first_cycle = first_cycle;
            }) refused.error) }
        // The buffer is idle, has not opened its head yet, and remembers the stop.
        ensures unopened { IfOk result (λ started. has_open_head (inside started.buffer) ≡ false) }
        ensures idle { IfOk result (λ started. is_busy (inside started.buffer) ≡ false) }
        ensures under { IfOk result (λ started. stop_of (inside started.buffer) ≡ started.stop) }
        // Each block where an article begins is a listed one's first, whatever the store holds.
        ensures listed { IfOk result (λ started. ListsStarts 0 (length (S.blocks store))
            (is_start (inside started.buffer)) started.tokens.items) }
        ensures within { IfOk result (λ started.
            AreWithin (length (S.blocks store)) started.tokens.items) }
        // Nothing is written, and Device says that the device failed, and no other answer does.
        ensures same { IfOk result (λ started.
            StaysHeld S.BlockStore store (store_of (inside started.buffer))) }
        ensures rest { IfErr result (λ refused. StaysHeld S.BlockStore store refused.store) }
        ensures calls { IfOk result (λ started. S.calls (store_of (inside started.buffer))
            ≡ S.calls store + 1 + length (S.blocks store)) }
        ensures failed { IfErr result (λ refused.
            IsBlamed S.BlockStore store refused.store refused.error) }
        ensures no_failure { IfOk result (λ started.
            S.failures (store_of (inside started.buffer)) ≡ S.failures store) }
    {
        // Of a store that has been counted it is known how many blocks it can have.
        let _blocks = store.count();
        let mut store = store;
        match read_found(alloc, &mut store, number, first_cycle) {
            Ok(stopped) => Ok(Started {
                buffer: Unopened {
                    buffer: Buffer {
                        store,
                        buffer_state: stopped.buffer_state,
                        stop: stopped.stop,
                        has_open_head: false,
                    },
                },
                stop: stopped.stop,
                tokens: stopped.tokens,
            }),
            Err(error) => Err(Refused { store, error }),
        }
    }
}

/// The buffer that was not stopped on a store, all of whose blocks are read.
fn read_found<S: BlockStore>(
    alloc: Global,
    store: &mut S,
    number: u8,
    first_cycle: u32,
) -> Result<Stopped, StartError>
    ensures { ReadsFound S.BlockStore store.old store.new (record {
      number = number;
      blocks = length (S.blocks store.old);
      first_cycle = first_cycle;
    }) result }
{
    let stop = read_stop(store, number, first_cycle)?;
    let scan = scan_blocks(alloc, store, number, first_cycle)?;
    let mut starts = Marks::new(alloc, scan.line.blocks)?;
    let mut kept = Marks::new(alloc, scan.line.blocks)?;
    let tokens = list_found(alloc, &scan, &mut starts, &mut kept)?;
    Ok(Stopped {
        buffer_state: found_state(scan.line, &tokens, starts, kept),
        stop,
        tokens,
    })
}

/// The number of the stop that head block 0 says the buffer was started from, where it is this
/// buffer's. It was not stopped since, or its history wasn't written.
fn read_stop<S: BlockStore>(store: &mut S, number: u8, first_cycle: u32) -> Result<u64, StartError>
    ensures { ReadsStop S.BlockStore store.old store.new (record {
      number = number;
      blocks = length (S.blocks store.old);
      first_cycle = first_cycle;
    }) result }
{
    let blocks = store.count();
    let octets = read_head_octets(store, 0)?;
    let Some(numbers) = read_head_image(&octets) else {
        return Err(StartError::NoHead);
    };
    if numbers.number != number || numbers.blocks != blocks || numbers.first_cycle != first_cycle {
        return Err(StartError::NoHead);
    }
    Ok(numbers.stop)
}
