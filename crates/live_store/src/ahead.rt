//! What was read of an article before it is asked for.
ghost use Rattle.std.specs.Prelude.{◌+◌, ◌*◌, ◌≤◌, vec_capacity};
ghost use Rattle.news_terms.specs.BlockImage.{chunk_size};
ghost use Rattle.news_terms.specs.Places.{size_of};
ghost use Rattle.live_store.specs.declared.ahead.TheConstants.{ROOM_OCTETS};

use crate::record::{RecordNumber, StorePremises};
use cyc_block::CHUNK_OCTETS;
use cyc_buffer::size_of;
use cyc_token::Token;
use line_words::put_octets;
use std::alloc::{AllocError, Global};

/// The blocks of an article that are read under one lock, at most.
pub const RUN_BLOCKS: u32 = 128;

/// The octets that all of these but the first hold.
pub const ROOM_OCTETS: usize = 60_960;

/// The chunks of blocks of an article that follow each other, read before they are asked for. Each
/// but the last has 480 octets.
#[derive(Drop)]
pub(crate) struct Ahead {
    /// The token under which they were read.
    pub(crate) token: Token,
    /// The block of the first of them.
    pub(crate) from: u32,
    /// Their octets, one chunk behind the other.
    pub(crate) octets: Vec<u8>,
    ghost few: { vec_capacity octets ≤ ROOM_OCTETS },
    // There is no room for a block behind the article's last one.
    ghost inside: { chunk_size * from + vec_capacity octets ≤ chunk_size * size_of token.length },
}

impl Ahead {
    ghost use Rattle.std.specs.Prelude.{◌≡◌, ◌+◌, ◌-◌, ◌*◌, ◌^◌, ◌<◌, ◌≤◌, ◌++◌, [], true, None};
    ghost use Rattle.std.specs.Prelude.{◌↔◌, IfOk, IfSome, OnSome, length, take};
    ghost use Rattle.std.specs.Prelude.{vec_capacity, vec_len};
    ghost use Rattle.boxcar.specs.Table.{Shows};
    ghost use Rattle.cyc_token.specs.Token.{token_view};
    ghost use Rattle.news_terms.specs.BlockImage.{chunk_size};
    ghost use Rattle.live_store.specs.Ahead.{IsAhead, blocks_behind, chunk_ahead, ends_with};
    ghost use Rattle.live_store.specs.Tied.{token_in};

    /// Room for the chunks of the blocks behind block k, as many as are read under one lock. It is
    /// taken for the token of a record alone, a chunk of which was found; none where no block is
    /// behind it.
    pub(crate) fn behind<J: StorePremises>(
        alloc: Global,
        own: &RecordNumber,
        token: &Token,
        k: u32,
    ) -> Result<Option<Ahead>, AllocError>
        requires shown { Shows J.register own.now }
        requires found { J.trusted ≡ true → token_in own.now ≡ token_view token.now }
        ensures token { IfOk result (λ room. IfSome room (λ ahead. ahead.token ≡ token.now)) }
        ensures from { IfOk result (λ room. IfSome room (λ ahead. ahead.from ≡ k + 1)) }
        ensures none { IfOk result (λ room. IfSome room (λ ahead. ahead.octets.items ≡ [])) }
        ensures room { IfOk result (λ room. IfSome room (λ ahead. vec_capacity ahead.octets
            ≡ chunk_size * blocks_behind k token.now.length)) }
        ensures some { IfOk result (λ room.
            room ≡ None ↔ blocks_behind k token.now.length ≡ 0) }
    {
        let _ = own;
        let blocks = Ahead::blocks_behind(token, k);
        if blocks == 0 {
            return Ok(None);
        }
        Ok(Some(Ahead {
            token: *token,
            from: k + 1,
            octets: Vec::with_capacity(alloc, blocks as usize * CHUNK_OCTETS)?,
        }))
    }

    /// Puts a chunk behind the others.
    pub(crate) fn put(&mut self, chunk: &[u8])
        requires { vec_len self.old.octets + length chunk.now ≤ vec_capacity self.old.octets }
        ensures items { self.new.octets.items ≡ self.old.octets.items ++ chunk.now }
        ensures room { vec_capacity self.new.octets ≡ vec_capacity self.old.octets }
        ensures token { self.new.token ≡ self.old.token }
        ensures from { self.new.from ≡ self.old.from }
    {
        put_octets(&mut self.octets, chunk);
    }

    /// Gives the chunk of block k under a token, where it is there: so many octets at the front of
    /// the slice.
    pub(crate) fn give(
        &self,
        token: &Token,
        k: u32,
        chunk: &mut [u8; CHUNK_OCTETS],
    ) -> Option<usize>
        ensures there { OnSome result (IsAhead self.now token.now k) }
        ensures chunk { IfSome result (λ n. take n chunk.new ≡ chunk_ahead self.now k) }
        ensures room { IfSome result (λ n. n ≤ chunk_size) }
        ensures none { result ≡ None → IsAhead self.now token.now k → ⊥ }
    {
        let place = self.place_of(token, k)?;
        let kept = &self.octets[place..];
        let octets = kept.len().min(CHUNK_OCTETS);
        chunk[..octets].copy_from_slice(&kept[..octets]);
        Some(octets)
    }

    /// Where the chunk of block k under a token begins, where it is there.
    fn place_of(&self, token: &Token, k: u32) -> Option<usize>
        ensures there { OnSome result (IsAhead self.now token.now k) }
        ensures place { IfSome result (λ place. place ≡ chunk_size * (k - self.now.from)) }
        ensures none { result ≡ None → IsAhead self.now token.now k → ⊥ }
    {
        if *token != self.token {
            return None;
        }
        if k < self.from {
            return None;
        }
        let place = (k - self.from) as usize * CHUNK_OCTETS;
        if place < self.octets.len() {
            Some(place)
        } else {
            None
        }
    }

    /// Whether no chunk of a block behind block k is there.
    pub(crate) fn ends_with(&self, k: u32) -> bool
        requires { self.now.from ≤ k }
        ensures { result ≡ ends_with self.now k }
    {
        self.octets.len() <= (k - self.from) as usize * CHUNK_OCTETS + CHUNK_OCTETS
    }

    /// How many blocks are read behind block k of the token's article, under the lock under which
    /// that is read.
    pub(crate) fn blocks_behind(token: &Token, k: u32) -> u32
        ensures blocks { result ≡ blocks_behind k token.now.length }
        ensures within { k + result < 2 ^ 32 }
    {
        size_of(token.length)
            .saturating_sub(k)
            .saturating_sub(1)
            .min(RUN_BLOCKS - 1)
    }
}
