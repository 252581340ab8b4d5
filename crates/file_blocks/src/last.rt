//! What a block says of those that follow it in its article.
ghost use Rattle.std.specs.Prelude.{◌≡◌, ◌-◌, ◌*◌, ◌+◌, ◌<◌, ◌^◌};
ghost use Rattle.news_terms.specs.BlockImage.{Block, IsBlock, block_image as image_of};
ghost use Rattle.news_terms.specs.BlockImage.{chunk_size};

use cyc_block::{BLOCK_OCTETS, CHUNK_OCTETS};

/// How many octets of its article's text a block says are behind its own.
pub(crate) fn octets_left(octets: &[u8; BLOCK_OCTETS]) -> u64
    ensures left { (b : Block) → IsBlock b → octets.now ≡ image_of b
        → result ≡ b.article_length - chunk_size * (b.index + 1) }
    ensures small { result < 2 ^ 32 }
{
    let end = (u64::from(index(octets)) + 1) * CHUNK_OCTETS as u64;
    u64::from(article_length(octets)).saturating_sub(end)
}

/// The index in its article that a block says.
pub(crate) fn index(octets: &[u8; BLOCK_OCTETS]) -> u32
    ensures { (b : Block) → IsBlock b → octets.now ≡ image_of b → result ≡ b.index }
{
    u32::from_be_bytes([octets[12], octets[13], octets[14], octets[15]])
}

/// The length of its article that a block says.
fn article_length(octets: &[u8; BLOCK_OCTETS]) -> u32
    ensures { (b : Block) → IsBlock b → octets.now ≡ image_of b → result ≡ b.article_length }
{
    u32::from_be_bytes([octets[16], octets[17], octets[18], octets[19]])
}
