//! How far a buffer is filled.
ghost use Rattle.std.specs.Prelude.{◌≡◌, ℕ, Bool};
ghost use Rattle.news_terms.specs.HeadBlocks.{Closed};
ghost use Rattle.cyc_buffer.specs.Agreement.{Agrees};
ghost use Rattle.cyc_buffer.specs.Filled.{filled_by, filled_view, filled_with};
ghost use Rattle.cyc_buffer.specs.Head.{said_of};
ghost use Rattle.cyc_buffer.specs.History.{History};

use crate::buffer::Buffer;
use cyc_block::BlockStore;

/// How far a buffer is filled.
#[derive(Clone, Copy)]
pub struct Filled {
    /// How many blocks it has.
    pub blocks: u32,
    /// Its front's place on the endless line of its blocks.
    pub front: u64,
    /// How many articles are stored in it.
    pub stored: u64,
}

impl<S: BlockStore> Buffer<S> {
    /// How far the buffer is filled.
    pub fn filled(&self) -> Filled
        ensures said { (stop : ℕ) → filled_view result ≡ filled_by (said_of Closed stop self.now) }
        ensures history { (trusted : Bool) (h : History) → Agrees trusted self.now h
            → filled_view result ≡ filled_with h }
    {
        Filled {
            blocks: self.buffer_state.line.blocks,
            front: self.buffer_state.line.front(),
            stored: self.buffer_state.counts.stored,
        }
    }
}
