//! Head blocks on the device: laws and worked examples.

ghost use Rattle.std.specs.Prelude.{◌≡◌, ◌+◌, ◌*◌, ◌<◌, ◌∷◌, ◌==◌, ℕ, Bool, length, replicate};
ghost use Rattle.news_terms.specs.HeadBlocks.{HeadBlock, IsHeadBlock, Open, Closed, IsBitmapSize};
ghost use Rattle.news_terms.specs.HeadBlocks.{bitmap_blocks, head_blocks, head_image};
ghost use Rattle.news_terms.specs.HeadBlocks.{bitmap_block, is_set};

/// The bitmap takes the least number of blocks.
pub fn bitmap_size()
    ensures least { (blocks : ℕ) → IsBitmapSize blocks (bitmap_blocks blocks) }
    ensures eight { head_blocks 8 ≡ 2 }
    ensures full { head_blocks 4096 ≡ 2 }
    ensures one_more { head_blocks 4097 ≡ 3 }
{}

/// A head block has 512 octets, and is of one buffer.
pub fn one_head()
    ensures size { (b : HeadBlock) → length (head_image b) ≡ 512 }
    ensures one { (a b : HeadBlock) → IsHeadBlock a → IsHeadBlock b → head_image a ≡ head_image b
        → a ≡ b }
{}

/// A block of the bitmap has 512 octets, and its bits say which blocks are marked.
pub fn bits_told()
    ensures size { (marked : ℕ → Bool) (i : ℕ) → length (bitmap_block marked i) ≡ 512 }
    ensures told { (marked : ℕ → Bool) (i j : ℕ) → j < 4096
        → is_set (bitmap_block marked i) j ≡ marked (4096 * i + j) }
{}

/// A block of a bitmap is of one choice of marked blocks.
pub fn one_bitmap()
    ensures { (a b : ℕ → Bool) (i j : ℕ) → j < 4096 → bitmap_block a i ≡ bitmap_block b i
        → a (4096 * i + j) ≡ b (4096 * i + j) }
{}

/// A buffer of eight blocks, stopped under number 1 after one article of one block; numbers of
/// which each octet is another; and the greatest numbers.
pub fn head_examples()
    ensures head { head_image (record {
      state = Closed;
      number = 0;
      blocks = 8;
      first_cycle = 0;
      cycle = 0;
      head = 1;
      stop = 1;
      begun = 1;
      stored = 1;
    }) ≡ 0x43 ∷ 0x4E ∷ 0x48 ∷ 0x31 ∷ 1 ∷ 0 ∷ 0 ∷ 0 ∷ 0 ∷ 0 ∷ 0 ∷ 8 ∷ 0 ∷ 0 ∷ 0 ∷ 0
        ∷ 0 ∷ 0 ∷ 0 ∷ 0 ∷ 0 ∷ 0 ∷ 0 ∷ 1 ∷ 0 ∷ 0 ∷ 0 ∷ 0 ∷ 0 ∷ 0 ∷ 0 ∷ 1
        ∷ 0 ∷ 0 ∷ 0 ∷ 0 ∷ 0 ∷ 0 ∷ 0 ∷ 1 ∷ 0 ∷ 0 ∷ 0 ∷ 0 ∷ 0 ∷ 0 ∷ 0 ∷ 1 ∷ replicate 464 0 }
    ensures each_in_its_place { head_image (record {
      state = Open;
      number = 0x02;
      blocks = 0x03040506;
      first_cycle = 0x0708090A;
      cycle = 0x0B0C0D0E;
      head = 0x0F101112;
      stop = 0x131415161718191A;
      begun = 0x1B1C1D1E1F202122;
      stored = 0x232425262728292A;
    }) ≡ 0x43 ∷ 0x4E ∷ 0x48 ∷ 0x31 ∷ 0 ∷ 0x02 ∷ 0 ∷ 0 ∷ 0x03 ∷ 0x04 ∷ 0x05 ∷ 0x06
        ∷ 0x07 ∷ 0x08 ∷ 0x09 ∷ 0x0A ∷ 0x0B ∷ 0x0C ∷ 0x0D ∷ 0x0E ∷ 0x0F ∷ 0x10 ∷ 0x11 ∷ 0x12
        ∷ 0x13 ∷ 0x14 ∷ 0x15 ∷ 0x16 ∷ 0x17 ∷ 0x18 ∷ 0x19 ∷ 0x1A
        ∷ 0x1B ∷ 0x1C ∷ 0x1D ∷ 0x1E ∷ 0x1F ∷ 0x20 ∷ 0x21 ∷ 0x22
        ∷ 0x23 ∷ 0x24 ∷ 0x25 ∷ 0x26 ∷ 0x27 ∷ 0x28 ∷ 0x29 ∷ 0x2A ∷ replicate 464 0 }
    ensures greatest { IsHeadBlock (record {
      state = Closed;
      number = 0xFF;
      blocks = 0xFFFFFFFF;
      first_cycle = 0xFFFFFFFF;
      cycle = 0xFFFFFFFF;
      head = 0xFFFFFFFF;
      stop = 0xFFFFFFFFFFFFFFFF;
      begun = 0xFFFFFFFFFFFFFFFF;
      stored = 0xFFFFFFFFFFFFFFFF;
    }) }
    ensures number_past_octet { ¬ IsHeadBlock (record {
      state = Closed;
      number = 256;
      blocks = 8;
      first_cycle = 0;
      cycle = 0;
      head = 1;
      stop = 1;
      begun = 1;
      stored = 1;
    }) }
    ensures bitmap { bitmap_block (λ j. j == 0) 0 ≡ 0x80 ∷ replicate 511 0 }
{}
