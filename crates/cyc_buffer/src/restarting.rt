//! How a buffer is stopped and started again in place.
ghost use Rattle.std.specs.Prelude.{◌≡◌, ◌≤◌, ◌<◌, ◌+◌, ◌*◌, ℕ, Bool, true, false, length, IfErr};
ghost use Rattle.std.specs.Prelude.{IfOk};
ghost use Rattle.std.specs.Prelude.{OnErr, OnOk};
ghost use Rattle.news_terms.specs.HeadBlocks.{Open, head_blocks, head_image as image_of};
ghost use Rattle.cyc_block.specs.Store.{block_at};
ghost use Rattle.cyc_buffer.specs.Agreement.{Agrees, Follows, buffer_state_of, store_of};
ghost use Rattle.cyc_buffer.specs.Head.{LeavesBlocks, LeavesBuffer, has_open_head, is_busy};
ghost use Rattle.cyc_buffer.specs.Head.{stop_of};
ghost use Rattle.cyc_buffer.specs.History.{History};
ghost use Rattle.cyc_buffer.specs.Marks.{is_marked};
ghost use Rattle.cyc_buffer.specs.Reads.{IsBlamed};
ghost use Rattle.cyc_buffer.specs.BufferState.{Keeps};
ghost use Rattle.cyc_buffer.specs.Restart.{HaveOther, IsFromWithout, IsRestartRefusal};
ghost use Rattle.cyc_buffer.specs.Restart.{IsSameBufferState};
ghost use Rattle.cyc_buffer.specs.Starting.{IsOutside, ListsLive, blocks_in};
ghost use Rattle.cyc_buffer.specs.Stopped.{HoldsStopped, numbers_of};

use crate::answers::{BufError, StartError};
use crate::buffer::Buffer;
use crate::buffer_state::BufferState;
use crate::marks::Marks;
use crate::stopped::read_stopped;
use cyc_block::{BlockStore, HeadState};
use cyc_token::Token;
use std::alloc::Global;

/// Why a buffer isn't started again, in the order of trial.
#[derive(Debug, Drop)]
pub enum RestartError {
    /// It isn't stopped: a write is open, or the device failed.
    Stop(BufError),
    /// It isn't started from what was written, or that isn't what was read.
    Start(StartError),
    /// Its head isn't opened again: the device failed.
    Open(BufError),
}

impl<S: BlockStore> Buffer<S> {
    /// Stops the buffer and starts it again, and gives the tokens of its live finished articles,
    /// rising by place. What is read back has to be what the buffer keeps.
    pub fn restart(&mut self, alloc: Global, stop: u64) -> Result<Vec<Token>, RestartError>
        ensures tokens { IfOk result (λ tokens. (h : History) → Agrees true self.old h
            → ListsLive tokens.items h) }
        ensures opened { OnOk result (has_open_head self.new ≡ true) }
        ensures under { OnOk result (stop_of self.new ≡ stop) }
        ensures written { OnOk result ((h : History) → Agrees true self.old h
            → block_at (S.heads (store_of self.new)) 0 ≡ image_of (numbers_of Open stop h)) }
        // Refused while a write is open, and else, over an honest store, where the device failed or
        // memory was refused alone.
        ensures refusal { IfErr result (λ error. IsRestartRefusal self.old error self.new) }
        ensures busy { is_busy self.old ≡ true → OnOk result ⊥ }
        ensures cause { (h : History) → Agrees true self.old h → IfErr result IsFromWithout }
        ensures head { OnErr result (has_open_head self.new ≡ has_open_head self.old) }
        ensures stop { OnErr result (stop_of self.new ≡ stop_of self.old) }
        ensures no_failure { OnOk result (S.failures (store_of self.new)
            ≡ S.failures (store_of self.old)) }
        // Each head block is written and read once, each block of a listed article read once, and
        // head block 0 written once more.
        ensures calls { IfOk result (λ tokens. S.calls (store_of self.new)
            ≡ S.calls (store_of self.old)
            + 2 * head_blocks (length (S.blocks (store_of self.old)))
            + blocks_in tokens.items + 1) }
        // Whether it is refused or not, the buffer agrees with what it agreed with.
        ensures same { Follows (λ h. h) self.old self.new }
        ensures buffer_state { buffer_state_of self.new ≡ buffer_state_of self.old }
        ensures count { length (S.blocks (store_of self.new))
            ≡ length (S.blocks (store_of self.old)) }
        ensures blocks { LeavesBlocks ⟦<S as BlockStore>⟧ (store_of self.old) (store_of self.new) }
    {
        if let Err(error) = self.write_heads(stop) {
            return Err(RestartError::Stop(error));
        }
        let tokens = match self.read_back(alloc) {
            Ok(tokens) => tokens,
            Err(error) => return Err(RestartError::Start(error)),
        };
        if let Err(error) = self.write_head(HeadState::Open, stop) {
            return Err(RestartError::Open(error));
        }
        self.stop = stop;
        self.has_open_head = true;
        Ok(tokens)
    }

    /// Reads back what a stop has written, which has to be what the buffer keeps.
    fn read_back(&mut self, alloc: Global) -> Result<Vec<Token>, StartError>
        ensures tokens { S.honest (store_of self.old) → IfOk result (λ tokens. (stop : ℕ)
            (h : History)
            → HoldsStopped (S.heads (store_of self.old)) (S.blocks (store_of self.old)) stop h
            → ListsLive tokens.items h) }
        ensures cause { S.honest (store_of self.old) → (stop : ℕ) (h : History)
            → HoldsStopped (S.heads (store_of self.old)) (S.blocks (store_of self.old)) stop h
            → Keeps (buffer_state_of self.old) h → IfErr result IsOutside }
        ensures rest { LeavesBuffer self.old self.new }
        ensures calls { IfOk result (λ tokens. S.calls (store_of self.new)
            ≡ S.calls (store_of self.old) + head_blocks (length (S.blocks (store_of self.old)))
            + blocks_in tokens.items) }
        ensures failed { IfErr result
            (IsBlamed S.BlockStore (store_of self.old) (store_of self.new)) }
        ensures no_failure { OnOk result (S.failures (store_of self.new)
            ≡ S.failures (store_of self.old)) }
    {
        let line = self.buffer_state.line;
        let stopped = match read_stopped(alloc, &mut self.store, line.number, line.first_cycle) {
            Ok(stopped) => stopped,
            Err(error) => return Err(error),
        };
        if !self.buffer_state.is_same(&stopped.buffer_state) {
            return Err(StartError::Damaged);
        }
        Ok(stopped.tokens)
    }
}

impl BufferState {
    /// Whether the numbers and the marks of first blocks are those of another register.
    fn is_same(&self, other: &BufferState) -> bool
        ensures same { result ≡ true → IsSameBufferState self.now other.now }
        // Two registers that agree with a history say the same.
        ensures other { result ≡ false → (h : History) → Keeps self.now h → Keeps other.now h → ⊥ }
    {
        if self.numbers(HeadState::Closed, 0) != other.numbers(HeadState::Closed, 0) {
            return false;
        }
        prove!(other.line.blocks == self.line.blocks);
        self.starts.are_same(&other.starts, self.line.blocks)
    }
}

impl Marks {
    /// Whether the marks of so many blocks are those of others.
    fn are_same(&self, other: &Marks, count: u32) -> bool
        requires room { count ≤ 64 * length self.now.words.items }
        requires other_room { count ≤ 64 * length other.now.words.items }
        ensures same { result ≡ true → (j : ℕ) → j < count
            → is_marked self.now.words.items j ≡ is_marked other.now.words.items j }
        ensures other { result ≡ false
            → HaveOther self.now.words.items other.now.words.items count }
    {
        for block in 0..count {
            if self.has(block) != other.has(block) {
                return false;
            }
        }
        true
    }
}
