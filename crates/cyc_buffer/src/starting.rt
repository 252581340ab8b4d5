//! How a buffer is started from what it left on its device.
ghost use Rattle.std.specs.Prelude.{◌≡◌, ◌+◌, ◌<◌, ℕ, true, false, length, IfErr, IfOk, OnOk};
ghost use Rattle.news_terms.specs.HeadBlocks.{Closed, head_blocks};
ghost use Rattle.cyc_buffer.specs.Agreement.{Agrees, store_of};
ghost use Rattle.cyc_buffer.specs.Head.{has_open_head, inside, is_busy, said_of, stop_of};
ghost use Rattle.cyc_buffer.specs.History.{History};
ghost use Rattle.cyc_buffer.specs.Reads.{IsBlamed, StaysHeld};
ghost use Rattle.cyc_buffer.specs.Remembered.{AreWithin, ListsStarts, is_start};
ghost use Rattle.cyc_buffer.specs.Starting.{IsOutside, IsReason, ListsLive, Starts, blocks_in};
ghost use Rattle.cyc_buffer.specs.Stopped.{HoldsStopped, Says};

use crate::answers::StartError;
use crate::buffer::Buffer;
use crate::stopped::read_stopped;
use crate::unopened::Unopened;
use cyc_block::BlockStore;
use cyc_token::Token;
use std::alloc::Global;

/// A buffer that was started.
#[derive(Drop)]
pub struct Started<S: BlockStore> {
    /// The buffer, whose head block still says what it said.
    pub buffer: Unopened<S>,
    /// The number of the stop that it was started from.
    pub stop: u64,
    /// The tokens of its live finished articles, rising by place.
    pub tokens: Vec<Token>,
}

/// A store whose buffer isn't started, and why.
#[derive(Drop)]
pub struct Refused<S> {
    /// The store, with all blocks as they were.
    pub store: S,
    /// Why.
    pub error: StartError,
}

impl<S: BlockStore> Buffer<S> {
    /// The buffer that was stopped on a store, all of whose numbers, bits and live finished
    /// articles are read first. Nothing is written, and all memory is taken here.
    pub fn start(
        alloc: Global,
        store: S,
        number: u8,
        first_cycle: u32,
    ) -> Result<Started<S>, Refused<S>>
        // A store that holds a buffer as stopped gives it back, with each history that it holds,
        // its stop's number and its live finished articles.
        ensures agrees { S.honest store → IfOk result (λ started. (stop : ℕ) (h : History)
            → HoldsStopped (S.heads store) (S.blocks store) stop h
            → h.buffer ≡ record {
              number = number;
              blocks = length (S.blocks store);
              first_cycle = first_cycle;
            } → Agrees true (inside started.buffer) h) }
        ensures stop { S.honest store → IfOk result (λ started. (stop : ℕ) (h : History)
            → HoldsStopped (S.heads store) (S.blocks store) stop h → started.stop ≡ stop) }
        ensures tokens { S.honest store → IfOk result (λ started. (stop : ℕ) (h : History)
            → HoldsStopped (S.heads store) (S.blocks store) stop h
            → ListsLive started.tokens.items h) }
        ensures held { S.honest store → (stop : ℕ) (h : History)
            → HoldsStopped (S.heads store) (S.blocks store) stop h
            → h.buffer ≡ record {
              number = number;
              blocks = length (S.blocks store);
              first_cycle = first_cycle;
            } → IfErr result (λ refused. IsOutside refused.error) }
        // Whatever the store holds, it is started exactly where nothing is wrong with it, and
        // refused for the first reason.
        ensures started { S.honest store → IfOk result (λ started.
            Starts (S.heads store) (S.blocks store) (record {
              number = number;
              blocks = length (S.blocks store);
              first_cycle = first_cycle;
            }) started.stop started.tokens.items) }
        ensures reason { S.honest store → IfErr result (λ refused.
            IsReason (S.heads store) (S.blocks store) (record {
              number = number;
              blocks = length (S.blocks store);
              first_cycle = first_cycle;
            }) refused.error) }
        // The buffer is as far as its head block says.
        ensures said { S.honest store → IfOk result (λ started. Says (S.heads store) (record {
          number = number;
          blocks = length (S.blocks store);
          first_cycle = first_cycle;
        }) (said_of Closed started.stop (inside started.buffer))) }
        // The buffer is idle, its head block isn't open, and it remembers the stop.
        ensures unopened { IfOk result (λ started. has_open_head (inside started.buffer) ≡ false) }
        ensures idle { IfOk result (λ started. is_busy (inside started.buffer) ≡ false) }
        ensures under { IfOk result (λ started. stop_of (inside started.buffer) ≡ started.stop) }
        // Each block where an article begins is a listed one's first, whatever the store holds.
        ensures listed { IfOk result (λ started. ListsStarts 0 (length (S.blocks store))
            (is_start (inside started.buffer)) started.tokens.items) }
        ensures within { IfOk result (λ started.
            AreWithin (length (S.blocks store)) started.tokens.items) }
        // Nothing is written, and Device says that the device failed, and no other answer does.
        ensures same { IfOk result (λ started.
            StaysHeld S.BlockStore store (store_of (inside started.buffer))) }
        ensures honest { IfErr result (λ refused. S.honest store → S.honest refused.store) }
        ensures blocks { IfErr result (λ refused. S.honest store
            → S.blocks refused.store ≡ S.blocks store) }
        ensures heads { IfErr result (λ refused. S.honest store
            → S.heads refused.store ≡ S.heads store) }
        ensures count { IfErr result (λ refused.
            length (S.blocks refused.store) ≡ length (S.blocks store)) }
        // Each head block and each block of a listed article is read once.
        ensures calls { IfOk result (λ started. S.calls (store_of (inside started.buffer))
            ≡ S.calls store + head_blocks (length (S.blocks store))
            + blocks_in started.tokens.items) }
        ensures failed { IfErr result (λ refused.
            IsBlamed S.BlockStore store refused.store refused.error) }
        ensures no_failure { IfOk result (λ started.
            S.failures (store_of (inside started.buffer)) ≡ S.failures store) }
    {
        let mut store = store;
        match read_stopped(alloc, &mut store, number, first_cycle) {
            Ok(stopped) => Ok(Started {
                buffer: Unopened {
                    buffer: Buffer {
                        store,
                        buffer_state: stopped.buffer_state,
                        stop: stopped.stop,
                        has_open_head: false,
                    },
                },
                stop: stopped.stop,
                tokens: stopped.tokens,
            }),
            Err(error) => Err(Refused { store, error }),
        }
    }
}
