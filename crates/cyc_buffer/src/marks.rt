ghost use Rattle.std.specs.Prelude.{◌≡◌, ◌≤◌, ◌<◌, ◌*◌, ◌+◌, ◌^◌, ℕ, length, false, IfOk};
ghost use Rattle.std.specs.Prelude.{vec_capacity};
ghost use Rattle.news_terms.specs.HeadBlocks.{bitmap_block as bitmap_of, octet_of, weight};
ghost use Rattle.cyc_buffer.specs.Marks.{is_marked, marked_after, is_below, is_changed, has_mask};
ghost use Rattle.cyc_buffer.specs.Marks.{is_told};

use cyc_block::BLOCK_OCTETS;
use std::alloc::{AllocError, Global};

/// How many blocks a word has marks of.
const WORD_BLOCKS: u32 = 64;

/// How many blocks a block of a bitmap has bits of.
const BITMAP_BLOCKS: u64 = 4096;

/// A mark for each block of a buffer, set or not.
#[derive(Drop)]
pub(crate) struct Marks {
    pub(crate) words: Vec<u64>,
}

impl Marks {
    /// Marks of so many blocks, none of them set.
    pub(crate) fn new(alloc: Global, blocks: u32) -> Result<Marks, AllocError>
        ensures none { IfOk result (λ marks. (j : ℕ) → is_marked marks.words.items j ≡ false) }
        ensures room { IfOk result (λ marks. blocks ≤ 64 * length marks.words.items) }
        ensures least { IfOk result (λ marks. 64 * length marks.words.items < blocks + 64) }
        // No more memory is taken than these words need.
        ensures taken { IfOk result (λ marks. 64 * vec_capacity marks.words < blocks + 64) }
    {
        let count = blocks.div_ceil(WORD_BLOCKS);
        let mut words = Vec::with_capacity(alloc, count as usize)?;
        for _word in 0..count {
            words.push_reserved(0);
        }
        Ok(Marks { words })
    }

    /// Whether the block is marked.
    pub(crate) fn has(&self, block: u32) -> bool
        requires { block < 64 * length self.now.words.items }
        ensures { result ≡ is_marked self.now.words.items block }
    {
        let word = self.words[(block / WORD_BLOCKS) as usize];
        word >> (block % WORD_BLOCKS) & 1 == 1
    }

    /// Block i of the bitmap of the marks of so many blocks.
    pub(crate) fn bitmap_block(&self, i: u32, count: u32) -> [u8; BLOCK_OCTETS]
        requires { count ≤ 64 * length self.now.words.items }
        ensures { result ≡ bitmap_of (is_told self.now.words.items count) i }
    {
        let from = u64::from(i) * BITMAP_BLOCKS;
        let mut octets = [0; BLOCK_OCTETS];
        for k in 0..BLOCK_OCTETS {
            octets[k] = self.octet(from + 8 * k as u64, count);
        }
        octets
    }

    /// The octet of the marks of eight blocks, the first of them in the highest bit.
    fn octet(&self, from: u64, count: u32) -> u8
        requires room { count ≤ 64 * length self.now.words.items }
        requires fits { from < 2 ^ 63 }
        ensures { result ≡ octet_of (is_told self.now.words.items count) from }
    {
        self.weight(from, count, 128)
            + self.weight(from + 1, count, 64)
            + self.weight(from + 2, count, 32)
            + self.weight(from + 3, count, 16)
            + self.weight(from + 4, count, 8)
            + self.weight(from + 5, count, 4)
            + self.weight(from + 6, count, 2)
            + self.weight(from + 7, count, 1)
    }

    /// What a bit counts for where its block is one of so many and is marked, else 0.
    fn weight(&self, block: u64, count: u32, of: u8) -> u8
        requires { count ≤ 64 * length self.now.words.items }
        ensures told { result ≡ weight (is_told self.now.words.items count block) of }
        ensures most { result ≤ of }
    {
        if block < u64::from(count) && self.has(block as u32) {
            of
        } else {
            0
        }
    }

    /// Sets or clears the marks of the blocks from one up to another, a word at a time.
    pub(crate) fn change(&mut self, from: u32, to: u32, value: bool)
        requires { to ≤ 64 * length self.old.words.items }
        ensures changed { (j : ℕ) → is_marked self.new.words.items j
            ≡ marked_after from to value j (is_marked self.old.words.items j) }
        ensures room { length self.new.words.items ≡ length self.old.words.items }
    {
        for word in from / WORD_BLOCKS..to.div_ceil(WORD_BLOCKS) {
            let mask = mask(word * WORD_BLOCKS, from, to);
            let old = self.words[word as usize];
            self.words[word as usize] = change_bits(old, mask, value);
        }
    }
}

/// The word with its bits that the mask has set or cleared.
fn change_bits(word: u64, mask: u64, value: bool) -> u64
    ensures { (i : ℕ) → i < 64 → is_changed result word mask value i }
{
    if value { word | mask } else { word & !mask }
}

/// The bits of the word whose first block is given, set for the blocks from one up to another.
fn mask(start: u32, from: u32, to: u32) -> u64
    ensures { (i : ℕ) → i < 64 → has_mask result start from to i }
{
    let low = from.saturating_sub(start);
    let high = to.saturating_sub(start);
    below(high) & !below(low)
}

/// The lowest bits set, so many; all 64 where it is more.
fn below(count: u32) -> u64
    ensures { (i : ℕ) → i < 64 → is_below result count i }
{
    if count < WORD_BLOCKS {
        (1 << count) - 1
    } else {
        u64::MAX
    }
}
