//! The buffers of a relay that was not stopped, each found again.
ghost use Rattle.std.specs.Prelude.{◌≡◌, ◌≤◌, [], vec_len, vec_capacity};
ghost use Rattle.buffer_repair.specs.Parts.{AreIdle};

use crate::giving::give_found;
use cyc_block::{BlockStore, CHUNK_OCTETS};
use cyc_buffer::{BufError, Found, Started};
use cyc_token::Token;

/// The buffers of a relay that was not stopped, each found again; their heads aren't open. Each
/// has the number of the stop that its head says, and the tokens of what was found in it.
#[derive(Drop)]
pub struct FoundBufferSet<S: BlockStore> {
    pub(crate) found: Vec<Started<S>>,
    /// Room for the stores once the buffers are shut.
    pub(crate) stores: Vec<S>,
    ghost few: { vec_len found ≤ 256 },
    ghost idle: { AreIdle found.items },
    ghost none_back: { stores.items ≡ [] },
    ghost stores_room: { vec_len found ≤ vec_capacity stores },
}

impl<S: BlockStore + Drop> FoundBufferSet<S> {
    ghost use Rattle.std.specs.Prelude.{◌≡◌, length, option_map, slice_get};
    ghost use Rattle.cyc_buffer.specs.Calls.{LeavesRest};
    ghost use Rattle.cyc_token.specs.Token.{token_view};
    ghost use Rattle.buffer_repair.specs.Finding.{stores_in, tokens_at};
    ghost use Rattle.buffer_repair.specs.Parts.{stop_in};
    ghost use Rattle.buffer_repair.specs.Keeping.{KeepsRead, KeepsRejected, ReadsAt, RejectsAt};

    /// How many buffers there are.
    pub fn count(&self) -> usize
        ensures { result ≡ length self.now.found.items }
    {
        self.found.len()
    }

    /// The number of the stop that the head of the buffer of this number says, where there is one.
    pub fn stop(&self, number: u8) -> Option<u64>
        ensures { result ≡ option_map stop_in (slice_get self.now.found.items number) }
    {
        Some(self.found.get(usize::from(number))?.stop)
    }

    /// How many articles were found in the buffer of this number.
    pub fn token_count(&self, number: u8) -> usize
        ensures { result ≡ length (tokens_at self.now number) }
    {
        match self.found.get(usize::from(number)) {
            Some(one) => one.tokens.len(),
            None => 0,
        }
    }

    /// The token at this place of those of the buffer of this number, rising by where the articles
    /// lie on the line of its blocks.
    pub fn token(&self, number: u8, place: usize) -> Option<Token>
        ensures { result ≡ slice_get (tokens_at self.now number) place }
    {
        let one = self.found.get(usize::from(number))?;
        one.tokens.get(place).copied()
    }

    /// Reads block k of the article under a token. Takes no memory.
    pub fn read_block(
        &mut self,
        token: &Token,
        k: u32,
        chunk: &mut [u8; CHUNK_OCTETS],
    ) -> Result<Found, BufError>
        // What is found of a text that is kept is that block of it.
        ensures keeps { KeepsRead (token_view token.now) k self.old result chunk.new self.new }
        // No other buffer is called, and nothing is written.
        ensures reads { ReadsAt token.now k self.old chunk.old result chunk.new self.new }
        ensures rest { LeavesRest result chunk.old chunk.new }
    {
        match self.found.get_mut(usize::from(token.buffer)) {
            Some(one) => one.buffer.read_block(token, k, chunk),
            None => Ok(Found::Unknown),
        }
    }

    /// Rejects the article that begins at a token's place: it is whole, but its text is no article
    /// of this relay. It isn't kept any more, and a stop doesn't tell it; its space stays lost.
    /// Takes no memory.
    pub fn reject(&mut self, token: &Token)
        ensures keeps { KeepsRejected (token_view token.now) self.old self.new }
        // No other buffer is another, and no device is called.
        ensures rejects { RejectsAt token.now self.old self.new }
        ensures stores { stores_in self.new ≡ stores_in self.old }
    {
        match self.found.get_mut(usize::from(token.buffer)) {
            Some(one) => one.buffer.reject(token),
            None => {}
        }
    }

    /// The stores, in the order of the buffers, unwritten. Takes no memory.
    pub fn into_stores(self) -> Vec<S>
        ensures { result.items ≡ stores_in self }
    {
        let FoundBufferSet { found, stores } = self;
        give_found(found, stores)
    }
}
