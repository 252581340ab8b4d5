//! One block of an article is read.
ghost use Rattle.cyc_token.specs.Token.{token_view};
ghost use Rattle.std.specs.Prelude.{◌≡◌};
ghost use Rattle.relay_core.specs.Reading.{ReadsChunk, read_view};

use article_fetch::Chunk;
use block_shelf::BufferSet;
use cyc_block::{BlockStore, CHUNK_OCTETS};
use cyc_buffer::{BufError, Fault, Found};
use cyc_token::Token;

/// Reads block k of the article under a token into this room, whose octets the chunk lends.
pub(crate) fn read_chunk<'a, S: BlockStore>(
    buffer_set: &mut BufferSet<S>,
    token: &Token,
    k: u32,
    room: &'a mut [u8; CHUNK_OCTETS],
) -> Chunk<'a>
    ensures { ReadsChunk (token_view token.now) k buffer_set.old result buffer_set.new }
{
    let found = buffer_set.read(token, k, room);
    Chunk::of_read(found_or_fault(found), room)
}

/// What a read found, or the fault of the device. Nothing else refuses a read: it would find
/// nothing.
fn found_or_fault(read: Result<Found, BufError>) -> Result<Found, Fault>
    ensures { result ≡ read_view read }
{
    match read {
        Ok(found) => Ok(found),
        Err(BufError::Device(fault)) => Err(fault),
        Err(_) => Ok(Found::Unknown),
    }
}
