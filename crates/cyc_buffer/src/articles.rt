//! What a start reads of a buffer's articles.
ghost use Rattle.std.specs.Prelude.{◌≡◌, ◌↔◌, ◌+◌, ◌*◌, ◌^◌, ◌<◌, ◌≤◌, length, false};
ghost use Rattle.std.specs.Prelude.{IsTrue, IfSome, IfNone};
ghost use Rattle.news_terms.specs.BlockImage.{Block, IsBlock, block_image as image_of};
ghost use Rattle.news_terms.specs.Places.{size_of};
ghost use Rattle.cyc_block.specs.Store.{block_at};
ghost use Rattle.cyc_token.specs.Token.{token_view};
ghost use Rattle.cyc_buffer.specs.Readings.{ReadsArticle, ReadsArticles, ReadsImages, ReadsOctets};
ghost use Rattle.cyc_buffer.specs.Readings.{ReadsWhole};
ghost use Rattle.cyc_buffer.specs.Reads.{IsOfToken};
ghost use Rattle.cyc_buffer.specs.Stopped.{IsImageUnder};

use crate::answers::StartError;
use crate::line::size_of;
use crate::marks::Marks;
use cyc_block::{BLOCK_OCTETS, BlockStore, CHUNK_OCTETS, Stamp, read_image};
use cyc_token::Token;

/// Where articles are looked for: in blocks of this buffer, since this cycle, and they end by this
/// block.
#[derive(Clone, Copy)]
pub(crate) struct Stretch {
    pub(crate) number: u8,
    pub(crate) cycle: u32,
    pub(crate) end: u32,
}

/// The octets of a block.
pub(crate) fn read_octets<S: BlockStore>(
    store: &mut S,
    block: u32,
) -> Result<[u8; BLOCK_OCTETS], StartError>
    requires { block < length (S.blocks store.old) }
    ensures { ReadsOctets S.BlockStore store.old store.new (block_at (S.blocks store.old) block)
        result }
{
    let mut octets = [0; BLOCK_OCTETS];
    match store.read(block, &mut octets) {
        Ok(()) => Ok(octets),
        Err(_failed) => Err(StartError::Device),
    }
}

/// The token of the article that a first block says; none where the octets are no image.
fn token_of(octets: &[u8; BLOCK_OCTETS], buffer: u8, cycle: u32, first: u32) -> Option<Token>
    ensures place { IfSome result (λ token. (token.buffer ≡ buffer) × (token.cycle ≡ cycle)
        × (token.first ≡ first)) }
    ensures only { IfSome result (λ token. IsOfToken octets.now (token_view token)) }
    ensures none { IfNone result ((b : Block) → IsBlock b → octets.now ≡ image_of b → ⊥) }
{
    let Some(image) = read_image(octets) else {
        return None;
    };
    Some(Token {
        class: image.stamp.class,
        buffer,
        cycle,
        first,
        length: image.stamp.article_length,
    })
}

/// Whether the octets are an image of block k of the article under a token, as full as that is.
pub(crate) fn is_image_under(octets: &[u8; BLOCK_OCTETS], token: &Token, k: u32) -> bool
    ensures { IsTrue result ↔ IsImageUnder octets.now (token_view token.now) k }
{
    let Some(image) = read_image(octets) else {
        return false;
    };
    let wanted = Stamp {
        cycle: token.cycle,
        first: token.first,
        index: k,
        article_length: token.length,
        class: token.class,
    };
    let left = (token.length as usize).saturating_sub(CHUNK_OCTETS * k as usize);
    image.stamp == wanted && image.payload.len() == left.min(CHUNK_OCTETS)
}

/// Reads the blocks of the article under a token behind its first, which have to be its images.
fn read_images<S: BlockStore>(store: &mut S, token: &Token) -> Result<(), StartError>
    requires some { 1 ≤ token.now.length }
    requires fits { token.now.first + size_of token.now.length < 2 ^ 32 }
    requires within { token.now.first + size_of token.now.length ≤ length (S.blocks store.old) }
    ensures { ReadsImages S.BlockStore store.old store.new token.now result }
{
    for k in 1..size_of(token.length) {
        let octets = read_octets(store, token.first + k)?;
        if !is_image_under(&octets, token, k) {
            return Err(StartError::Damaged);
        }
    }
    Ok(())
}

/// Whether the octets are an image of the first block of the article under a token, which has to
/// end by this block.
fn begins_with(octets: &[u8; BLOCK_OCTETS], token: &Token, end: u32) -> bool
    requires { token.now.first ≤ end }
    ensures some { IsTrue result → 1 ≤ token.now.length }
    ensures ends { IsTrue result → token.now.first + size_of token.now.length ≤ end }
    ensures image { IsTrue result → IsImageUnder octets.now (token_view token.now) 0 }
    ensures other { result ≡ false → 1 ≤ token.now.length
        → token.now.first + size_of token.now.length ≤ end
        → IsImageUnder octets.now (token_view token.now) 0 → ⊥ }
{
    let size = size_of(token.length);
    size >= 1 && size <= end - token.first && is_image_under(octets, token, 0)
}

/// The token of the article that begins at a block, all of whose blocks are images of it.
fn read_article<S: BlockStore>(
    store: &mut S,
    stretch: &Stretch,
    first: u32,
) -> Result<Token, StartError>
    requires inside { first < stretch.now.end }
    requires within { stretch.now.end ≤ length (S.blocks store.old) }
    ensures { ReadsArticle S.BlockStore store.old store.new stretch.now first result }
{
    let octets = read_octets(store, first)?;
    let Some(token) = token_of(&octets, stretch.number, stretch.cycle, first) else {
        return Err(StartError::Damaged);
    };
    if !begins_with(&octets, &token, stretch.end) {
        return Err(StartError::Damaged);
    }
    read_images(store, &token)?;
    Ok(token)
}

/// The token of the whole article that begins at a block: no other begins inside it.
fn read_whole<S: BlockStore>(
    store: &mut S,
    starts: &Marks,
    stretch: &Stretch,
    first: u32,
) -> Result<Token, StartError>
    requires inside { first < stretch.now.end }
    requires within { stretch.now.end ≤ length (S.blocks store.old) }
    requires room { stretch.now.end ≤ 64 * length starts.now.words.items }
    ensures { ReadsWhole S.BlockStore store.old store.new starts.now.words.items stretch.now first
        result }
{
    let token = read_article(store, stretch, first)?;
    let end = first + size_of(token.length);
    if !starts.are_clear(first + 1, end) {
        return Err(StartError::Damaged);
    }
    Ok(token)
}

/// Reads the articles that begin from a block up to the stretch's end, lists their tokens and
/// marks their blocks.
pub(crate) fn read_articles<S: BlockStore>(
    store: &mut S,
    starts: &Marks,
    stretch: &Stretch,
    from: u32,
    kept: &mut Marks,
    tokens: &mut Vec<Token>,
) -> Result<(), StartError>
    requires order { from ≤ stretch.now.end }
    requires within { stretch.now.end ≤ length (S.blocks store.old) }
    requires room { stretch.now.end ≤ 64 * length starts.now.words.items }
    requires kept_room { stretch.now.end ≤ 64 * length kept.old.words.items }
    ensures { ReadsArticles S.BlockStore store.old store.new starts.now.words.items stretch.now from
        tokens.old.items tokens.new.items kept.old.words.items kept.new.words.items result }
{
    for first in from..stretch.end {
        if starts.has(first) {
            let token = read_whole(store, starts, stretch, first)?;
            kept.change(first, first + size_of(token.length), true);
            if tokens.push(token).is_err() {
                return Err(StartError::Memory);
            }
        }
    }
    Ok(())
}
