//! Losses of writes: what is found where some of those since the device was safe aren't there.

use crate::row_text::{Cells, Sheet};
use crate::runs::Runs;
use crate::stops::Stops;
use crate::stops::bench::Bench;
use crate::stops::octets::Block;
use crate::stops::steps::recovery_in;
use cyc_block::{BLOCK_OCTETS, BlockStore};
use line_words::is;
use std::alloc::Global;
use std::mem;

/// What the blocks of a device hold, in order.
type Blocks = Vec<[u8; BLOCK_OCTETS]>;

/// More blocks than were written when each subset of the writes is lost in turn.
const MOST_WRITES: u32 = 9;

impl Stops {
    /// From here the device is safe as it is.
    pub(crate) fn keep_safe(&mut self, sheet: &Sheet) {
        let blocks = self.bench.blocks(sheet);
        drop(mem::replace(&mut self.safe, blocks));
        sheet.put(b"safe");
    }

    /// Writes what a recovery answers where of the blocks that were written since the device was
    /// safe these are there and the others hold what they held then: none, the first alone, the
    /// second alone, both, and so on. The device is then as it was.
    pub(crate) fn put_losses(&mut self, cells: &Cells, sheet: &Sheet) {
        let step = recovery_in(cells, sheet);
        let now = self.bench.blocks(sheet);
        let written = changed_blocks(sheet.alloc, &self.safe, &now, sheet);
        let count = u32::try_from(written.len()).unwrap_or(MOST_WRITES);
        if sheet.is_spoilt() || count >= MOST_WRITES {
            return sheet.refuse();
        }
        let mut runs = Runs::new(sheet.alloc, false, 0);
        for subset in 0u32..1 << count {
            self.put_subset(subset, &written, &now, sheet);
            runs.add(self.bench.said_by(step, sheet), sheet);
        }
        runs.end(sheet);
    }

    /// Puts what these blocks hold now where the subset has a bit for them, the lowest for the
    /// first, and else what they held when the device was safe.
    fn put_subset(&mut self, subset: u32, written: &[u32], now: &Blocks, sheet: &Sheet) {
        let mut rest = subset;
        for block in written {
            if rest % 2 == 1 {
                self.bench.put_held(*block, now, sheet);
            } else {
                self.bench.put_held(*block, &self.safe, sheet);
            }
            rest /= 2;
        }
    }
}

impl Bench {
    /// What the blocks of the device hold, on which no buffer runs.
    fn blocks(&mut self, sheet: &Sheet) -> Blocks {
        let mut blocks = Vec::new(sheet.alloc);
        let count = match self {
            Bench::Stopped(device) => device.count(),
            _ => 0,
        };
        for block in 0..count {
            if blocks
                .push(self.octets_of(Block::Data(block), sheet))
                .is_err()
            {
                sheet.lack();
            }
        }
        blocks
    }

    /// Puts into a block what it holds there.
    fn put_held(&mut self, block: u32, held: &Blocks, sheet: &Sheet) {
        match held.get(block as usize) {
            Some(octets) => self.put_block(Block::Data(block), octets, sheet),
            None => sheet.refuse(),
        }
    }
}

/// The blocks that hold other octets than before.
fn changed_blocks(alloc: Global, old: &Blocks, new: &Blocks, sheet: &Sheet) -> Vec<u32> {
    let mut changed = Vec::new(alloc);
    let mut block = 0u32;
    for (before, after) in old.iter().zip(new.iter()) {
        if !is(before, after) && changed.push(block).is_err() {
            sheet.lack();
        }
        block = block.saturating_add(1);
    }
    changed
}
