//! The devices of a drill: blocks in memory, whose calls can be made to fail, and whose power can
//! go (docs/FORMATS.md, Drill scripts).
ghost use Rattle.std.specs.Prelude.{◌≡◌, ◌<◌, ◌+◌, ⊤, IfOk, OnErr, OnOk, length};
ghost use Rattle.news_terms.specs.HeadBlocks.{head_blocks};
ghost use Rattle.cyc_block.specs.Store.{empty_blocks};

use crate::power::{Fate, Supply};
use cyc_block::{
    BLOCK_OCTETS, BlockStore, DeviceFailed, MemoryBlocks, Tally, head_count, read_head_image,
};
use std::alloc::{AllocError, Global};
use std::mem;

/// A head block as it was.
#[derive(Clone, Copy)]
pub struct HeadBefore {
    number: u32,
    octets: [u8; BLOCK_OCTETS],
}

/// Blocks in memory that have power from a supply. Who calls them behind the last call that there
/// was power for isn't told: a head block is written, and kept as it was besides, so that all of
/// that can be taken back; a block isn't written, which is told as a failure.
#[derive(Drop)]
pub struct Powered {
    store: MemoryBlocks,
    /// The reads and writes.
    calls: Tally,
    /// Those of them that failed.
    failed: Tally,
    /// The number of its buffer.
    buffer: usize,
    supply: Supply,
    alloc: Global,
    /// The head blocks that were written since the power went, as they were, the first one first.
    before: Vec<HeadBefore>,
}

impl Powered {
    /// So many blocks of zeros, and their head blocks, of this buffer.
    pub fn new(alloc: Global, supply: &Supply, buffer: usize, n: u32) -> Result<Powered, AllocError>
        ensures blocks { IfOk result (λ powered.
            ⟦<Powered as BlockStore>⟧.blocks powered ≡ empty_blocks n) }
        ensures well { IfOk result (λ powered.
            ⟦<Powered as BlockStore>⟧.failures powered ≡ 0) }
    {
        let supply = supply.share()?;
        let store = MemoryBlocks::new(alloc, n)?;
        Ok(Powered {
            store,
            calls: Tally::new(),
            failed: Tally::new(),
            buffer,
            supply,
            alloc,
            before: Vec::new(alloc),
        })
    }

    /// Its head blocks are again as they were when the power went.
    pub fn take_back(&mut self)
        ensures { ⟦<Powered as BlockStore>⟧.blocks self.new
            ≡ ⟦<Powered as BlockStore>⟧.blocks self.old }
    {
        let before = mem::replace(&mut self.before, Vec::new(self.alloc));
        write_back(&mut self.store, &before);
    }

    /// Whether its head is of an earlier stop than this.
    pub fn is_before(&mut self, stop: u64) -> bool
        ensures { ⟦<Powered as BlockStore>⟧.blocks self.new
            ≡ ⟦<Powered as BlockStore>⟧.blocks self.old }
    {
        let mut octets = [0; BLOCK_OCTETS];
        if self.store.read_head(0, &mut octets).is_err() {
            return false;
        }
        match read_head_image(&octets) {
            Some(numbers) => numbers.stop < stop,
            None => false,
        }
    }

    /// Counts a call, and fails it where it is one that fails. Whether there was power for it.
    fn call(&mut self) -> Result<bool, DeviceFailed>
        ensures store { self.new.store ≡ self.old.store }
        ensures calls { self.new.calls ≡ self.old.calls + 1 }
        ensures failed { OnErr result (self.new.failed ≡ self.old.failed + 1) }
        ensures well { OnOk result (self.new.failed ≡ self.old.failed) }
    {
        self.calls.add_one();
        match self.supply.call(self.buffer) {
            Fate::Done => Ok(true),
            Fate::Late => Ok(false),
            Fate::Fails => {
                self.failed.add_one();
                Err(DeviceFailed)
            }
        }
    }

    /// Keeps this head block as it is, or fails the call where memory is refused.
    fn keep(&mut self, k: u32) -> Result<(), DeviceFailed>
        requires { k < head_blocks (length (⟦<MemoryBlocks as BlockStore>⟧.blocks self.old.store)) }
        ensures blocks { ⟦<MemoryBlocks as BlockStore>⟧.blocks self.new.store
            ≡ ⟦<MemoryBlocks as BlockStore>⟧.blocks self.old.store }
        ensures heads { ⟦<MemoryBlocks as BlockStore>⟧.heads self.new.store
            ≡ ⟦<MemoryBlocks as BlockStore>⟧.heads self.old.store }
        ensures calls { self.new.calls ≡ self.old.calls }
        ensures failed { OnErr result (self.new.failed ≡ self.old.failed + 1) }
        ensures well { OnOk result (self.new.failed ≡ self.old.failed) }
    {
        let mut octets = [0; BLOCK_OCTETS];
        self.store.read_head(k, &mut octets)?;
        if self.before.push(HeadBefore { number: k, octets }).is_err() {
            self.failed.add_one();
            return Err(DeviceFailed);
        }
        Ok(())
    }
}

/// Writes these head blocks back, the last one first.
fn write_back(store: &mut MemoryBlocks, before: &[HeadBefore])
    ensures { ⟦<MemoryBlocks as BlockStore>⟧.blocks store.new
        ≡ ⟦<MemoryBlocks as BlockStore>⟧.blocks store.old }
{
    for head in before.iter().rev() {
        if head.number < head_count(store.count()) {
            let _never_fails = store.write_head(head.number, &head.octets);
        }
    }
}

impl BlockStore for Powered {
    ghost blocks = { λ powered. ⟦<MemoryBlocks as BlockStore>⟧.blocks powered.store };

    ghost heads = { λ powered. ⟦<MemoryBlocks as BlockStore>⟧.heads powered.store };

    ghost calls = { λ powered. powered.calls };

    ghost failures = { λ powered. powered.failed };

    ghost honest = { λ powered. ⊤ };

    fn count(&self) -> u32 {
        self.store.count()
    }

    fn read(&mut self, k: u32, octets: &mut [u8; BLOCK_OCTETS]) -> Result<(), DeviceFailed> {
        self.call()?;
        self.store.read(k, octets)
    }

    fn write(&mut self, k: u32, octets: &[u8; BLOCK_OCTETS]) -> Result<(), DeviceFailed> {
        if !self.call()? {
            self.failed.add_one();
            return Err(DeviceFailed);
        }
        self.store.write(k, octets)
    }

    fn read_head(&mut self, k: u32, octets: &mut [u8; BLOCK_OCTETS]) -> Result<(), DeviceFailed> {
        self.call()?;
        self.store.read_head(k, octets)
    }

    fn write_head(&mut self, k: u32, octets: &[u8; BLOCK_OCTETS]) -> Result<(), DeviceFailed> {
        if !self.call()? {
            self.keep(k)?;
        }
        self.store.write_head(k, octets)
    }
}
