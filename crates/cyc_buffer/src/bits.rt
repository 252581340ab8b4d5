//! What a start reads of a buffer's bitmap.
ghost use Rattle.std.specs.Prelude.{◌≡◌, ◌⊎◌, ◌+◌, ◌*◌, ◌^◌, ◌<◌, ◌≤◌, ℕ, length, true};
ghost use Rattle.std.specs.Prelude.{false};
ghost use Rattle.news_terms.specs.HeadBlocks.{bits_of_block, head_blocks, is_set};
ghost use Rattle.cyc_block.specs.Store.{block_at};
ghost use Rattle.cyc_buffer.specs.Marks.{is_marked};
ghost use Rattle.cyc_buffer.specs.Readings.{ReadsBitmap, ReadsOctets};
ghost use Rattle.cyc_buffer.specs.Reads.{HasBitPast, HasMark};

use crate::answers::StartError;
use crate::marks::Marks;
use cyc_block::{BLOCK_OCTETS, BlockStore};

/// How many blocks a block of a bitmap has bits of.
const BLOCK_BITS: u32 = 4096;

impl Marks {
    /// Whether none of the blocks from one up to another is marked.
    pub(crate) fn are_clear(&self, from: u32, to: u32) -> bool
        requires { to ≤ 64 * length self.now.words.items }
        ensures clear { result ≡ true → (j : ℕ) → from ≤ j → j < to
            → is_marked self.now.words.items j ≡ false }
        ensures marked { result ≡ false → HasMark self.now.words.items from to }
    {
        for block in from..to {
            if self.has(block) {
                return false;
            }
        }
        true
    }

    /// Sets and clears the marks of the blocks from one on as the octets of a bitmap's block say,
    /// of so many blocks at most; whether no further bit is set.
    fn take_bits(&mut self, octets: &[u8; BLOCK_OCTETS], from: u32, limit: u32) -> bool
        requires fits { from + limit < 2 ^ 32 }
        requires room { from + limit ≤ 64 * length self.old.words.items }
        ensures told { result ≡ true → (k : ℕ) → k < bits_of_block → k < limit
            → is_marked self.new.words.items (from + k) ≡ is_set octets.now k }
        ensures others { (j : ℕ) → (j < from) ⊎ (from + bits_of_block ≤ j)
            → is_marked self.new.words.items j ≡ is_marked self.old.words.items j }
        ensures none { result ≡ true → (k : ℕ) → limit ≤ k → k < bits_of_block
            → is_set octets.now k ≡ false }
        ensures some { result ≡ false → HasBitPast octets.now limit }
        ensures room { length self.new.words.items ≡ length self.old.words.items }
    {
        for k in 0..BLOCK_BITS {
            let bit = is_bit_set(octets, k);
            if k < limit {
                self.change(from + k, from + k + 1, bit);
            } else if bit {
                return false;
            }
        }
        true
    }
}

/// The bit of a block in the octets of a bitmap's block, the first in the highest bit of an octet.
fn is_bit_set(octets: &[u8; BLOCK_OCTETS], k: u32) -> bool
    requires { k < bits_of_block }
    ensures { result ≡ is_set octets.now k }
{
    octets[(k / 8) as usize] >> (7 - k % 8) & 1 == 1
}

/// The octets of a head block.
pub(crate) fn read_head_octets<S: BlockStore>(
    store: &mut S,
    k: u32,
) -> Result<[u8; BLOCK_OCTETS], StartError>
    requires { k < head_blocks (length (S.blocks store.old)) }
    ensures { ReadsOctets S.BlockStore store.old store.new (block_at (S.heads store.old) k) result }
{
    let mut octets = [0; BLOCK_OCTETS];
    match store.read_head(k, &mut octets) {
        Ok(()) => Ok(octets),
        Err(_failed) => Err(StartError::Device),
    }
}

/// Reads the bitmap of so many blocks into their marks. A bit past the last of them is damage.
pub(crate) fn read_bitmap<S: BlockStore>(
    store: &mut S,
    blocks: u32,
    starts: &mut Marks,
) -> Result<(), StartError>
    requires count { length (S.blocks store.old) ≡ blocks }
    requires room { blocks ≤ 64 * length starts.old.words.items }
    ensures { ReadsBitmap S.BlockStore store.old store.new blocks starts.old.words.items
        starts.new.words.items result }
{
    for i in 0..blocks.div_ceil(BLOCK_BITS) {
        let octets = read_head_octets(store, i + 1)?;
        let from = i * BLOCK_BITS;
        if !starts.take_bits(&octets, from, blocks - from) {
            return Err(StartError::Damaged);
        }
    }
    Ok(())
}
