//! Head blocks: the octets of a buffer's numbers.
ghost use Rattle.std.specs.Prelude.{◌≡◌, IfSome, IsSomeAnd};
ghost use Rattle.news_terms.specs.HeadBlocks.{HeadBlock, IsHeadBlock, Open, Closed};
ghost use Rattle.news_terms.specs.HeadBlocks.{head_blocks, head_places, head_counts};
ghost use Rattle.news_terms.specs.HeadBlocks.{head_image as image_of, state_octet as octet_of};
ghost use Rattle.cyc_block.specs.Heads.{head_view, state_view};

use crate::BLOCK_OCTETS;
use crate::numbers::{number32, number64};

/// The blocks that one block of a bitmap has bits of.
const BITS_OF_BLOCK: u32 = 4096;

/// How many head blocks a store of so many blocks has.
pub fn head_count(blocks: u32) -> u32
    ensures { result ≡ head_blocks blocks }
{
    1 + blocks.div_ceil(BITS_OF_BLOCK)
}

/// What a device says of its buffer's state.
#[derive(Clone, Copy, PartialEq, Eq)]
pub enum HeadState {
    /// It may have been changed since.
    Open,
    /// It was stopped.
    Closed,
}

/// What head block 0 says of a buffer (docs/FORMATS.md, Head blocks).
#[derive(Clone, Copy, PartialEq, Eq)]
pub struct HeadNumbers {
    /// Whether it was stopped.
    pub state: HeadState,
    /// The number of the buffer.
    pub number: u8,
    /// How many blocks it has.
    pub blocks: u32,
    /// The cycle that its first begin is in.
    pub first_cycle: u32,
    /// The cycle that the newest article is in; the first one where there is none.
    pub cycle: u32,
    /// The next block in that cycle.
    pub head: u32,
    /// The number of the stop.
    pub stop: u64,
    /// How many articles were begun.
    pub begun: u64,
    /// How many of them were finished.
    pub stored: u64,
}

/// The octets of head block 0 of these numbers.
pub fn head_image(numbers: &HeadNumbers) -> [u8; BLOCK_OCTETS]
    ensures { result ≡ image_of (head_view numbers.now) }
{
    let mut image = [0u8; BLOCK_OCTETS];
    image[..24].copy_from_slice(&places(numbers));
    image[24..48].copy_from_slice(&counts(numbers));
    image
}

/// The octets that say which buffer it is, and how far it is used.
fn places(numbers: &HeadNumbers) -> [u8; 24]
    ensures { result ≡ head_places (head_view numbers.now) }
{
    let [b0, b1, b2, b3] = numbers.blocks.to_be_bytes();
    let [f0, f1, f2, f3] = numbers.first_cycle.to_be_bytes();
    let [c0, c1, c2, c3] = numbers.cycle.to_be_bytes();
    let [h0, h1, h2, h3] = numbers.head.to_be_bytes();
    let state = state_octet(numbers.state);
    [
        b'C',
        b'N',
        b'H',
        b'1',
        state,
        numbers.number,
        0,
        0,
        b0,
        b1,
        b2,
        b3,
        f0,
        f1,
        f2,
        f3,
        c0,
        c1,
        c2,
        c3,
        h0,
        h1,
        h2,
        h3,
    ]
}

/// The octets of the number of the stop and of the counts.
fn counts(numbers: &HeadNumbers) -> [u8; 24]
    ensures { result ≡ head_counts (head_view numbers.now) }
{
    let stop = numbers.stop.to_be_bytes();
    let begun = numbers.begun.to_be_bytes();
    let stored = numbers.stored.to_be_bytes();
    let mut octets = [0u8; 24];
    octets[..8].copy_from_slice(&stop);
    octets[8..16].copy_from_slice(&begun);
    octets[16..24].copy_from_slice(&stored);
    octets
}

/// The octet of a state.
fn state_octet(state: HeadState) -> u8
    ensures { result ≡ octet_of (state_view state) }
{
    match state {
        HeadState::Open => 0,
        HeadState::Closed => 1,
    }
}

/// Reads the octets of head block 0; none where they are no image of any numbers.
pub fn read_head_image(image: &[u8; BLOCK_OCTETS]) -> Option<HeadNumbers>
    ensures image { IfSome result (λ numbers.
        IsHeadBlock (head_view numbers) × (image.now ≡ image_of (head_view numbers))) }
    ensures read { (b : HeadBlock) → IsHeadBlock b → image.now ≡ image_of b
        → IsSomeAnd result (λ numbers. head_view numbers ≡ b) }
{
    let numbers = read_numbers(image);
    // The octets are an image exactly where they are the one of these numbers.
    if image[..] != head_image(&numbers)[..] {
        return None;
    }
    Some(numbers)
}

/// The numbers that the octets of head block 0 say.
fn read_numbers(image: &[u8; BLOCK_OCTETS]) -> HeadNumbers
    ensures { (b : HeadBlock) → IsHeadBlock b → image.now ≡ image_of b → head_view result ≡ b }
{
    HeadNumbers {
        state: read_state(image[4]),
        number: image[5],
        blocks: number32(image, 8),
        first_cycle: number32(image, 12),
        cycle: number32(image, 16),
        head: number32(image, 20),
        stop: number64(image, 24),
        begun: number64(image, 32),
        stored: number64(image, 40),
    }
}

/// The state that an octet says.
fn read_state(octet: u8) -> HeadState
    ensures open { octet ≡ 0 → state_view result ≡ Open }
    ensures closed { octet ≡ 1 → state_view result ≡ Closed }
{
    if octet == 0 {
        HeadState::Open
    } else {
        HeadState::Closed
    }
}
