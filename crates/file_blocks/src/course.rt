//! What the next reads are expected to be.
ghost use Rattle.std.specs.Prelude.{◌<◌, ◌+◌, ◌≤◌};

use crate::last::octets_left;
use crate::run::RUN_BLOCKS;
use cyc_block::{BLOCK_OCTETS, CHUNK_OCTETS};

/// How the blocks of a store are read.
#[derive(Drop)]
pub(crate) struct Course {
    /// The block that is expected to be read next; the highest number, which no block has, at
    /// first.
    expected: u32,
    /// How many blocks of its article are there from that on, as the block before it says.
    pub(crate) left: u32,
    /// How many reads in a row were of the block that was expected, since the last block of an
    /// article was passed.
    pub(crate) in_order: u32,
}

impl Course {
    /// Nothing was read yet.
    pub(crate) fn new() -> Course {
        Course {
            expected: u32::MAX,
            left: 0,
            in_order: 0,
        }
    }

    /// How many of so many blocks are read at once from block k on: where it is the one that is
    /// expected, those of its article, or as many as were read in order before it, where these are
    /// more.
    pub(crate) fn at_once(&self, k: u32, count: u32) -> u32
        requires { k < count }
        ensures some { 0 < result }
        ensures few { result ≤ RUN_BLOCKS }
        ensures within { k + result ≤ count }
    {
        if self.expected != k {
            return 1;
        }
        let most = self.left.max(self.in_order).max(1).min(RUN_BLOCKS);
        most.min(count - k)
    }

    /// Expects that what follows block k of these octets is read next.
    pub(crate) fn expect(&mut self, k: u32, octets: &[u8; BLOCK_OCTETS]) {
        self.in_order = self.read_in_order(k);
        self.expected = k.wrapping_add(1);
        self.left = octets_left(octets).div_ceil(CHUNK_OCTETS as u64) as u32;
    }

    /// How many reads in a row were of the block that was expected, that of block k among them,
    /// since the last block of an article was passed.
    fn read_in_order(&self, k: u32) -> u32 {
        if self.expected != k || (self.left > 0 && self.in_order == 0) {
            return 0;
        }
        self.in_order.saturating_add(1)
    }
}
