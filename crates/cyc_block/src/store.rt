ghost use Rattle.std.specs.Prelude.{◌≡◌, ◌<◌, ◌+◌, ℕ, List, length, slice_set, OnOk, OnErr};
ghost use Rattle.news_terms.specs.HeadBlocks.{head_blocks};
ghost use Rattle.cyc_block.specs.Store.{block_at, ChangesOnly};

use crate::BLOCK_OCTETS;

/// The device failed: a read or a write was not done as asked.
#[derive(Clone, Copy)]
pub struct DeviceFailed;

/// A row of blocks of 512 octets, numbered from 0, and a row of head blocks, numbered from 0 too,
/// in which a buffer says what it is.
pub trait BlockStore {
    /// What the blocks hold, in order.
    ghost blocks: { Self → List (List ℕ) };

    /// What the head blocks hold, in order.
    ghost heads: { Self → List (List ℕ) };

    /// How often the device was called, a count without end: each read and each write is one call.
    ghost calls: { Self → ℕ };

    /// How often the device has failed, a count without end.
    ghost failures: { Self → ℕ };

    /// A read that answers Ok gives what was last written there by a write that answered Ok, and
    /// nobody else writes the blocks.
    ghost honest: { Self → Type 0 };

    /// How many blocks there are.
    fn count(&self) -> u32
        ensures blocks { result ≡ length (blocks self.now) }
        // There are one head block more than a bitmap of the blocks takes.
        ensures heads { length (heads self.now) ≡ head_blocks (length (blocks self.now)) };

    /// Reads block k. A failed read leaves any octets in the slice and changes nothing else.
    fn read(&mut self, k: u32, octets: &mut [u8; BLOCK_OCTETS]) -> Result<(), DeviceFailed>
        requires { k < length (blocks self.old) }
        ensures octets { honest self.old → OnOk result (octets.new ≡ block_at (blocks self.old) k) }
        ensures same { honest self.old → blocks self.new ≡ blocks self.old }
        ensures heads { honest self.old → heads self.new ≡ heads self.old }
        ensures honest { honest self.old → honest self.new }
        ensures count { length (blocks self.new) ≡ length (blocks self.old) }
        // It is one call, and the device failed where an error is answered, and only there.
        ensures calls { calls self.new ≡ calls self.old + 1 }
        ensures failed { OnErr result (failures self.old < failures self.new) }
        ensures no_failure { OnOk result (failures self.new ≡ failures self.old) };

    /// Writes block k. A failed write leaves any octets in block k and changes no other block.
    fn write(&mut self, k: u32, octets: &[u8; BLOCK_OCTETS]) -> Result<(), DeviceFailed>
        requires { k < length (blocks self.old) }
        ensures written { honest self.old
            → OnOk result (blocks self.new ≡ slice_set (blocks self.old) k octets.now) }
        ensures others { honest self.old → ChangesOnly k (blocks self.old) (blocks self.new) }
        ensures heads { honest self.old → heads self.new ≡ heads self.old }
        ensures honest { honest self.old → honest self.new }
        ensures count { length (blocks self.new) ≡ length (blocks self.old) }
        // It is one call, and the device failed where an error is answered, and only there.
        ensures calls { calls self.new ≡ calls self.old + 1 }
        ensures failed { OnErr result (failures self.old < failures self.new) }
        ensures no_failure { OnOk result (failures self.new ≡ failures self.old) };

    /// Reads head block k. A failed read leaves any octets in the slice and changes nothing else.
    fn read_head(&mut self, k: u32, octets: &mut [u8; BLOCK_OCTETS]) -> Result<(), DeviceFailed>
        requires { k < head_blocks (length (blocks self.old)) }
        ensures octets { honest self.old → OnOk result (octets.new ≡ block_at (heads self.old) k) }
        ensures same { honest self.old → heads self.new ≡ heads self.old }
        ensures blocks { honest self.old → blocks self.new ≡ blocks self.old }
        ensures honest { honest self.old → honest self.new }
        ensures count { length (blocks self.new) ≡ length (blocks self.old) }
        // It is one call, and the device failed where an error is answered, and only there.
        ensures calls { calls self.new ≡ calls self.old + 1 }
        ensures failed { OnErr result (failures self.old < failures self.new) }
        ensures no_failure { OnOk result (failures self.new ≡ failures self.old) };

    /// Writes head block k. A failed write leaves any octets in it and changes no other block.
    fn write_head(&mut self, k: u32, octets: &[u8; BLOCK_OCTETS]) -> Result<(), DeviceFailed>
        requires { k < head_blocks (length (blocks self.old)) }
        ensures written { honest self.old
            → OnOk result (heads self.new ≡ slice_set (heads self.old) k octets.now) }
        ensures others { honest self.old → ChangesOnly k (heads self.old) (heads self.new) }
        ensures blocks { honest self.old → blocks self.new ≡ blocks self.old }
        ensures honest { honest self.old → honest self.new }
        ensures count { length (blocks self.new) ≡ length (blocks self.old) }
        // It is one call, and the device failed where an error is answered, and only there.
        ensures calls { calls self.new ≡ calls self.old + 1 }
        ensures failed { OnErr result (failures self.old < failures self.new) }
        ensures no_failure { OnOk result (failures self.new ≡ failures self.old) };
}
