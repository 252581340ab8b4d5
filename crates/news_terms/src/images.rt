//! Blocks on the device: laws and worked examples.

ghost use Rattle.std.specs.Prelude.{◌≡◌, ◌≤◌, ◌<◌, ◌+◌, ◌*◌, ◌∷◌, ◌++◌, ℕ, List};
ghost use Rattle.std.specs.Prelude.{length, take, replicate, []};
ghost use Rattle.news_terms.specs.BlockImage.{Block, IsBlock, block_size, chunk_size, block_image};
ghost use Rattle.news_terms.specs.BlockImage.{block_of, block_head, chunk};

/// The image of a block that holds 480 octets at most is 512 octets.
pub fn image_size()
    ensures { (b : Block) → length b.payload ≤ chunk_size → length (block_image b) ≡ block_size }
{}

/// An image is that of one block.
pub fn one_block()
    ensures { (a b : Block) → IsBlock a → IsBlock b → block_image a ≡ block_image b → a ≡ b }
{}

/// The chunks of a text in a row are the text, each but the last of 480 octets.
pub fn chunks_in_a_row()
    ensures next_chunk { (text : List ℕ) (k : ℕ) → take (chunk_size * (k + 1)) text
        ≡ take (chunk_size * k) text ++ chunk k text }
    ensures full { (text : List ℕ) (k : ℕ) → chunk_size * (k + 1) ≤ length text
        → length (chunk k text) ≡ chunk_size }
    ensures at_most { (text : List ℕ) (k : ℕ) → length (chunk k text) ≤ chunk_size }
    ensures not_empty { (text : List ℕ) (k : ℕ) → chunk_size * k < length text
        → 0 < length (chunk k text) }
{}

/// The second block of an article of 481 octets, of class 1, at cycle 0, block 0.
pub fn image_examples()
    ensures head { block_head (block_of 0 0 1 (replicate 481 120) 1)
        ≡ 0x43 ∷ 0x4E ∷ 0x42 ∷ 0x31 ∷ 0 ∷ 0 ∷ 0 ∷ 0 ∷ 0 ∷ 0 ∷ 0 ∷ 0 ∷ 0 ∷ 0 ∷ 0 ∷ 1
        ∷ 0 ∷ 0 ∷ 0x01 ∷ 0xE1 ∷ 0 ∷ 1 ∷ 1 ∷ replicate 9 0 }
    ensures image { block_image (block_of 0 0 1 (replicate 481 120) 1)
        ≡ 0x43 ∷ 0x4E ∷ 0x42 ∷ 0x31 ∷ 0 ∷ 0 ∷ 0 ∷ 0 ∷ 0 ∷ 0 ∷ 0 ∷ 0 ∷ 0 ∷ 0 ∷ 0 ∷ 1
        ∷ 0 ∷ 0 ∷ 0x01 ∷ 0xE1 ∷ 0 ∷ 1 ∷ 1 ∷ replicate 9 0 ++ 120 ∷ replicate 479 0 }
    ensures octets { length (block_image (block_of 0 0 1 (replicate 481 120) 1)) ≡ 512 }
    ensures first_chunk { chunk 0 (replicate 481 120) ≡ replicate 480 120 }
    ensures each_in_its_place { block_head
        (block_of 0x01020304 0x05060708 0x14 (replicate 961 120) 2)
        ≡ 0x43 ∷ 0x4E ∷ 0x42 ∷ 0x31 ∷ 1 ∷ 2 ∷ 3 ∷ 4 ∷ 5 ∷ 6 ∷ 7 ∷ 8 ∷ 0 ∷ 0 ∷ 0 ∷ 2
        ∷ 0 ∷ 0 ∷ 0x03 ∷ 0xC1 ∷ 0 ∷ 1 ∷ 0x14 ∷ replicate 9 0 }
{}

/// The numbers that a block has room for, and the octets that it may hold.
pub fn block_examples()
    ensures greatest { IsBlock (record {
      cycle = 0xFFFFFFFF;
      first = 0xFFFFFFFF;
      index = 0xFFFFFFFF;
      article_length = 0xFFFFFFFF;
      class = 0xFF;
      payload = replicate 480 120;
    }) }
    ensures one_octet { IsBlock (block_of 0 0 0 (120 ∷ []) 0) }
    ensures nothing { ¬ IsBlock (block_of 0 0 0 (120 ∷ []) 1) }
    ensures class_past_octet { ¬ IsBlock (block_of 0 0 256 (120 ∷ []) 0) }
    ensures octet_too_many { ¬ IsBlock
        (record (block_of 0 0 0 [] 0) { payload = replicate 481 120 }) }
{}
