//! What was read of a block.
ghost use Rattle.std.specs.Prelude.{◌≡◌, ◌≤◌, length, take};
ghost use Rattle.news_terms.specs.BlockImage.{chunk_size};
ghost use Rattle.article_fetch.specs.Chunks.{chunk_view};

use cyc_block::CHUNK_OCTETS;
use cyc_buffer::{Fault, Found, Front};
use std::marker::Model;

/// The octets of an article that a block holds, at most `CHUNK_OCTETS` of them. They are lent: they
/// stay in the room that the block was read into, and no other block is read into it meanwhile.
#[derive(Drop)]
pub struct ChunkOctets<'a> {
    octets: &'a [u8],
}

impl<'a> Model for ChunkOctets<'a> {
    ghost use Rattle.std.specs.Prelude.{◌≤◌, ℕ, List, length};

    ghost Value = { List ℕ };

    ghost view = { λ o. o.octets.now };

    ghost invariant = { λ o. length o.octets.now ≤ 480 };
}

impl<'a> ChunkOctets<'a> {
    /// The first `len` octets of a block's room, or all of them where they are fewer.
    pub fn new(room: &'a [u8; CHUNK_OCTETS], len: usize) -> ChunkOctets<'a>
        ensures { result ≡ take len room.now }
    {
        ChunkOctets {
            octets: &room[..len.min(CHUNK_OCTETS)],
        }
    }

    /// The octets, in order.
    pub fn as_slice(&self) -> &'a [u8]
        ensures octets { result.now ≡ self.now }
        ensures short { length result.now ≤ chunk_size }
    {
        self.octets
    }
}

/// What was read of the next block of a fetch. A chunk lends the octets of the block. That it was
/// gone, or that the device failed, is said by the front or the fault that the read gave, which a
/// buffer alone makes.
#[derive(Drop)]
pub enum Chunk<'a> {
    /// The octets of the article that the block holds.
    Found(ChunkOctets<'a>),
    /// The article was overwritten: this front has passed it.
    Gone(Front),
    /// No article is whole under the token.
    Unknown,
    /// The device failed, which says nothing of the article.
    Device(Fault),
}

impl<'a> Chunk<'a> {
    /// What a read of a block gave, with the octets of the block at the front of its room.
    pub fn of_read(read: Result<Found, Fault>, room: &'a [u8; CHUNK_OCTETS]) -> Chunk<'a>
        ensures { result ≡ chunk_view read room.now }
    {
        match read {
            Ok(Found::Chunk(len)) => Chunk::Found(ChunkOctets::new(room, len)),
            Ok(Found::Gone(front)) => Chunk::Gone(front),
            Ok(Found::Unknown) => Chunk::Unknown,
            Err(fault) => Chunk::Device(fault),
        }
    }
}
