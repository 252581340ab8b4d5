//! Blocks of an article are read behind one that was found, under the same lock.
ghost use Rattle.std.specs.Prelude.{◌≡◌, ◌+◌, ◌*◌, ◌^◌, ◌≤◌, ◌<◌, [], true, length, take, IfSome};
ghost use Rattle.std.specs.Prelude.{IfOk, None, Ok};
ghost use Rattle.std.specs.Prelude.{vec_capacity};
ghost use Rattle.boxcar.specs.Table.{Shows};
ghost use Rattle.cyc_token.specs.Token.{token_view};
ghost use Rattle.news_terms.specs.BlockImage.{chunk_size};
ghost use Rattle.live_store.specs.Ahead.{AreChunksOf, GoesAsFar, HasNoneBehind, ReadsOfRecord};
ghost use Rattle.live_store.specs.Ahead.{WasMerelyRead, blocks_behind};
ghost use Rattle.live_store.specs.Steps.{IsChunkOf};
ghost use Rattle.live_store.specs.Tied.{token_in};

use crate::ahead::Ahead;
use crate::answers::Reading;
use crate::following::is_same;
use crate::numbered::NumberedBuffer;
use crate::record::{ArticleLog, RecordNumber, StorePremises};
use cyc_block::{BlockStore, CHUNK_OCTETS};
use cyc_token::Token;
use std::alloc::{AllocError, Global};

/// Reads the blocks behind block k of an article, a chunk of which was found: those that follow,
/// until one is no chunk of this record. None where there is none. The error is want of memory,
/// where none was read.
pub(crate) fn read_behind<S: BlockStore, J: StorePremises>(
    alloc: Global,
    buffer: &mut NumberedBuffer<S, J>,
    register: &ArticleLog,
    own: &RecordNumber,
    token: &Token,
    k: u32,
) -> Result<Option<Ahead>, AllocError>
    requires register { register.now ≡ J.register }
    requires shown { Shows J.register own.now }
    requires found { J.trusted ≡ true → token_in own.now ≡ token_view token.now }
    ensures token { IfOk result (λ read. IfSome read (λ ahead. ahead.token ≡ token.now)) }
    ensures from { IfOk result (λ read. IfSome read (λ ahead. ahead.from ≡ k + 1)) }
    ensures some { IfOk result (λ read. IfSome read (λ ahead. 0 < length ahead.octets.items)) }
    ensures chunks { J.trusted ≡ true → IfOk result (λ read.
        IfSome read (λ ahead. AreChunksOf J.register ahead own.now)) }
    ensures far { IfOk result (λ read. IfSome read
        (GoesAsFar buffer.old own.now (blocks_behind k token.now.length))) }
    ensures none { result ≡ Ok None → HasNoneBehind buffer.old own.now token.now k }
    ensures buffer { WasMerelyRead buffer.old buffer.new }
{
    let Some(mut ahead) = Ahead::behind::<J>(alloc, own, token, k)? else {
        return Ok(None);
    };
    let blocks = Ahead::blocks_behind(token, k);
    read_on(buffer, register, own, &mut ahead, blocks);
    if ahead.octets.is_empty() {
        return Ok(None);
    }
    Ok(Some(ahead))
}

/// Reads so many blocks, for which there is room, until one is no chunk of this record or isn't
/// full.
fn read_on<S: BlockStore, J: StorePremises>(
    buffer: &mut NumberedBuffer<S, J>,
    register: &ArticleLog,
    own: &RecordNumber,
    ahead: &mut Ahead,
    blocks: u32,
)
    requires register { register.now ≡ J.register }
    requires shown { Shows J.register own.now }
    requires none { ahead.old.octets.items ≡ [] }
    requires room { chunk_size * blocks ≤ vec_capacity ahead.old.octets }
    requires within { ahead.old.from + blocks ≤ 2 ^ 32 }
    ensures token { ahead.new.token ≡ ahead.old.token }
    ensures from { ahead.new.from ≡ ahead.old.from }
    ensures chunks { J.trusted ≡ true → AreChunksOf J.register ahead.new own.now }
    ensures far { GoesAsFar buffer.old own.now blocks ahead.new }
    ensures buffer { WasMerelyRead buffer.old buffer.new }
{
    let token = ahead.token;
    let mut chunk = [0; CHUNK_OCTETS];
    for i in 0..blocks {
        let block = ahead.from + i;
        let Some(octets) = read_same(buffer, register, own, &token, block, &mut chunk) else {
            return;
        };
        ahead.put(&chunk[..octets]);
        if octets < CHUNK_OCTETS {
            return;
        }
    }
}

/// Reads block k, where it is a chunk of this record: so many octets at the front of the slice.
fn read_same<S: BlockStore, J: StorePremises>(
    buffer: &mut NumberedBuffer<S, J>,
    register: &ArticleLog,
    own: &RecordNumber,
    token: &Token,
    k: u32,
    chunk: &mut [u8; CHUNK_OCTETS],
) -> Option<usize>
    requires register { register.now ≡ J.register }
    requires shown { Shows J.register own.now }
    ensures chunk { J.trusted ≡ true → IfSome result (λ n.
        IsChunkOf J.register (token_view token.now) k (take n chunk.new) own.now) }
    ensures room { IfSome result (λ n. n ≤ chunk_size) }
    // It is the buffer's own read of this block.
    ensures own { ReadsOfRecord buffer.old token.now k own.now result }
    ensures buffer { WasMerelyRead buffer.old buffer.new }
{
    match buffer.read(token, k, chunk) {
        Ok(Reading::Chunk(octets, shown)) => {
            if is_same(register, &shown, own) {
                Some(octets)
            } else {
                None
            }
        }
        Ok(Reading::Gone(_)) => None,
        Ok(Reading::Unknown(_)) => None,
        Err(_fault) => None,
    }
}
