ghost use Rattle.std.specs.Prelude.{◌≡◌, ◌<◌, ◌^◌, ⊤, length, slice_set, IsOk, IfOk};
ghost use Rattle.news_terms.specs.HeadBlocks.{head_blocks};
ghost use Rattle.cyc_block.specs.Store.{block_at, empty_blocks};

use crate::tally::Tally;
use crate::{BLOCK_OCTETS, BlockStore, DeviceFailed, head_count};
use std::alloc::{AllocError, Global};

/// Blocks in memory, which never fail.
pub struct MemoryBlocks {
    blocks: Vec<[u8; BLOCK_OCTETS]>,
    heads: Vec<[u8; BLOCK_OCTETS]>,
    /// The reads and writes of it.
    calls: Tally,
    ghost numbered: { length blocks.items < 2 ^ 32 },
    ghost headed: { length heads.items ≡ head_blocks (length blocks.items) },
}

// Written out, so that no crate above proves anew how each part is let go.
impl Drop for MemoryBlocks {
    fn drop(self) {
        let MemoryBlocks {
            blocks: _,
            heads: _,
            calls: _,
        } = self;
    }
}

impl MemoryBlocks {
    /// So many blocks of zeros, and their head blocks.
    pub fn new(alloc: Global, n: u32) -> Result<MemoryBlocks, AllocError>
        ensures blocks { IfOk result (λ store.
            ⟦<MemoryBlocks as BlockStore>⟧.blocks store ≡ empty_blocks n) }
        ensures heads { IfOk result (λ store.
            ⟦<MemoryBlocks as BlockStore>⟧.heads store ≡ empty_blocks (head_blocks n)) }
        ensures honest { IfOk result (λ store. ⟦<MemoryBlocks as BlockStore>⟧.honest store) }
    {
        Ok(MemoryBlocks {
            blocks: zeros(alloc, n)?,
            heads: zeros(alloc, head_count(n))?,
            calls: Tally::new(),
        })
    }
}

/// So many blocks of zeros.
fn zeros(alloc: Global, n: u32) -> Result<Vec<[u8; BLOCK_OCTETS]>, AllocError>
    ensures { IfOk result (λ blocks. blocks.items ≡ empty_blocks n) }
{
    let mut blocks = Vec::with_capacity(alloc, n as usize)?;
    for _block in 0..n {
        blocks.push([0; BLOCK_OCTETS])?;
    }
    Ok(blocks)
}

impl BlockStore for MemoryBlocks {
    ghost blocks = { λ store. store.blocks.items };

    ghost heads = { λ store. store.heads.items };

    ghost calls = { λ store. store.calls };

    ghost failures = { λ store. 0 };

    ghost honest = { λ store. ⊤ };

    fn count(&self) -> u32 {
        self.blocks.len() as u32
    }

    fn read(&mut self, k: u32, octets: &mut [u8; BLOCK_OCTETS]) -> Result<(), DeviceFailed> {
        self.calls.add_one();
        *octets = self.blocks[k as usize];
        Ok(())
    }

    fn write(&mut self, k: u32, octets: &[u8; BLOCK_OCTETS]) -> Result<(), DeviceFailed> {
        self.calls.add_one();
        self.blocks[k as usize] = *octets;
        Ok(())
    }

    fn read_head(&mut self, k: u32, octets: &mut [u8; BLOCK_OCTETS]) -> Result<(), DeviceFailed> {
        self.calls.add_one();
        *octets = self.heads[k as usize];
        Ok(())
    }

    fn write_head(&mut self, k: u32, octets: &[u8; BLOCK_OCTETS]) -> Result<(), DeviceFailed> {
        self.calls.add_one();
        self.heads[k as usize] = *octets;
        Ok(())
    }
}
