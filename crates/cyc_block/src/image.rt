ghost use Rattle.std.specs.Prelude.{◌≡◌, ◌≤◌, ◌↔◌, All, List, ℕ, length, IfSome, IsSomeAnd};
ghost use Rattle.std.specs.Prelude.{IsTrue};
ghost use Rattle.news_terms.specs.BlockImage.{Block, IsBlock, block_image as image_of, block_head};
ghost use Rattle.news_terms.specs.BlockImage.{chunk_size};
ghost use Rattle.cyc_block.specs.Image.{stamped};

use crate::numbers::number32;
use crate::{BLOCK_OCTETS, CHUNK_OCTETS};

/// The octets before a block's payload.
const HEAD_OCTETS: usize = 32;

/// What a block says of itself (docs/FORMATS.md, Blocks on the device).
#[derive(Clone, Copy, Debug, PartialEq, Eq)]
pub struct Stamp {
    /// The cycle of the buffer in which the article was begun.
    pub cycle: u32,
    /// The article's first block in the buffer.
    pub first: u32,
    /// This block's index in the article, from 0.
    pub index: u32,
    /// The octets of the article's text.
    pub article_length: u32,
    /// The number of its storage class.
    pub class: u8,
}

/// A block that was read: its stamp and the octets of the article that it holds.
#[derive(Clone, Copy)]
pub struct Image<'a> {
    /// What the block says of itself.
    pub stamp: Stamp,
    /// The octets of the article that it holds, 1 to `CHUNK_OCTETS` of them.
    pub payload: &'a [u8],
}

/// The octets of the block with this stamp that holds this payload.
pub fn block_image(stamp: &Stamp, payload: &[u8]) -> [u8; BLOCK_OCTETS]
    requires some { 1 ≤ length payload.now }
    requires room { length payload.now ≤ chunk_size }
    ensures { result ≡ image_of (stamped stamp.now payload.now) }
{
    let used = payload.len();
    let mut image = [0u8; BLOCK_OCTETS];
    image[HEAD_OCTETS..HEAD_OCTETS + used].copy_from_slice(payload);
    image[..HEAD_OCTETS].copy_from_slice(&head(stamp, used as u16));
    image
}

/// Reads the octets of a block; none where they are no image of a block.
pub fn read_image(image: &[u8; BLOCK_OCTETS]) -> Option<Image<'_>>
    ensures image { IfSome result (λ read.
        IsBlock (stamped read.stamp read.payload.now)
        × (image.now ≡ image_of (stamped read.stamp read.payload.now))) }
    ensures read { (b : Block) → IsBlock b → image.now ≡ image_of b
        → IsSomeAnd result (λ read. stamped read.stamp read.payload.now ≡ b) }
{
    let used = u16::from_be_bytes([image[20], image[21]]);
    if used < 1 || usize::from(used) > CHUNK_OCTETS {
        return None;
    }
    let end = HEAD_OCTETS + usize::from(used);
    let stamp = read_stamp(image);
    // The octets are an image exactly where the head is the one of this stamp, and zeros stand
    // behind the payload.
    if image[..HEAD_OCTETS] != head(&stamp, used)[..] {
        return None;
    }
    if !are_zeros(&image[end..]) {
        return None;
    }
    Some(Image {
        stamp,
        payload: &image[HEAD_OCTETS..end],
    })
}

/// Whether each octet is 0.
pub fn are_zeros(octets: &[u8]) -> bool
    ensures { IsTrue result ↔ All (λ octet. octet ≡ 0) octets.now }
{
    for octet in octets {
        if *octet != 0 {
            return false;
        }
    }
    true
}

/// The stamp that the octets of a block say.
fn read_stamp(image: &[u8; BLOCK_OCTETS]) -> Stamp
    ensures { (b : Block) → IsBlock b → image.now ≡ image_of b → stamped result b.payload ≡ b }
{
    Stamp {
        cycle: number32(image, 4),
        first: number32(image, 8),
        index: number32(image, 12),
        article_length: number32(image, 16),
        class: image[22],
    }
}

/// The octets before the payload of a block with this stamp that holds so many octets.
fn head(stamp: &Stamp, used: u16) -> [u8; HEAD_OCTETS]
    ensures { (payload : List ℕ) → length payload ≡ used
        → result ≡ block_head (stamped stamp.now payload) }
{
    let [c0, c1, c2, c3] = stamp.cycle.to_be_bytes();
    let [f0, f1, f2, f3] = stamp.first.to_be_bytes();
    let [i0, i1, i2, i3] = stamp.index.to_be_bytes();
    let [l0, l1, l2, l3] = stamp.article_length.to_be_bytes();
    let [u0, u1] = used.to_be_bytes();
    [
        b'C',
        b'N',
        b'B',
        b'1',
        c0,
        c1,
        c2,
        c3,
        f0,
        f1,
        f2,
        f3,
        i0,
        i1,
        i2,
        i3,
        l0,
        l1,
        l2,
        l3,
        u0,
        u1,
        stamp.class,
        0,
        0,
        0,
        0,
        0,
        0,
        0,
        0,
        0,
    ]
}
