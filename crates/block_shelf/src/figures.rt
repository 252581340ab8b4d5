//! What the report says of a buffer.
ghost use Rattle.std.specs.Prelude.{◌≡◌, ℕ, Option, option_map, slice_get};
ghost use Rattle.block_shelf.specs.Figures.{figures_view};
ghost use Rattle.block_shelf.specs.Keeping.{KeepsTexts};
ghost use Rattle.block_shelf.specs.Openings.{Opening};
ghost use Rattle.block_shelf.specs.Leaving.{Trust};
ghost use Rattle.relay_model.specs.Figures.{buffer_figures};
ghost use Rattle.relay_model.specs.State.{State};
ghost use Rattle.relay_model.specs.Terms.{Terms};

use crate::buffer_set::BufferSet;
use cyc_block::BlockStore;

/// What the report says of a buffer (docs/FORMATS.md, Report).
#[derive(Clone, Copy)]
pub struct BufferFigures {
    /// The cycle that its newest article is in, or its first one where none was begun.
    pub cycle: u32,
    /// Its front's place on the endless line of its blocks, in blocks.
    pub front: u64,
    /// How many articles were begun in it.
    pub begun: u64,
    /// How many of those were finished.
    pub stored: u64,
}

impl<S: BlockStore> BufferSet<S> {
    /// The figures of the buffer of this number, where there is one. Takes no memory.
    pub fn figures(&self, number: u8) -> Option<BufferFigures>
        ensures { (trusted : Trust) (w : Terms) (σ : State) (openings : ℕ → Option Opening)
            (failures : ℕ → ℕ) → KeepsTexts trusted self.now w σ.begun σ.kept openings failures
            → option_map figures_view result
            ≡ option_map (buffer_figures w σ) (slice_get w.buffers number) }
    {
        let buffer = self.buffers.get(usize::from(number))?;
        Some(BufferFigures {
            cycle: buffer.cycle(),
            front: buffer.front(),
            begun: buffer.begun(),
            stored: buffer.stored(),
        })
    }
}
