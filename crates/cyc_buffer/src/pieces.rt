//! What one block says of a buffer that was not stopped.
ghost use Rattle.std.specs.Prelude.{◌≡◌, ◌↔◌, ◌+◌, ◌-◌, ◌<◌, ◌≤◌, ℕ, false, IsTrue, IfSome};
ghost use Rattle.std.specs.Prelude.{IfNone};
ghost use Rattle.news_terms.specs.Places.{Buffer, size_of};
ghost use Rattle.news_terms.specs.Token as terms;
ghost use Rattle.cyc_token.specs.Token.{token_view};
ghost use Rattle.cyc_buffer.specs.BufferState.{buffer_of};
ghost use Rattle.cyc_buffer.specs.Crash.{IsPieceIn};

use crate::articles::is_image_under;
use crate::line::{Line, size_of};
use cyc_block::{BLOCK_OCTETS, read_image};
use cyc_token::Token;

/// The token of the article of this buffer that a block is one of, where the block is in its place;
/// none where it is no such block.
pub(crate) fn piece_of(octets: &[u8; BLOCK_OCTETS], line: &Line, block: u32) -> Option<Token>
    ensures before { IfSome result (λ token. token.first ≤ block) }
    ensures piece { IfSome result (λ token. IsPieceIn (buffer_of line.now) octets.now
        (token_view token) (block - token.first)) }
    ensures only { IfSome result (λ token. (t : terms.Token) (k : ℕ) → t.first + k ≡ block
        → IsPieceIn (buffer_of line.now) octets.now t k → t ≡ token_view token) }
    ensures none { IfNone result ((t : terms.Token) (k : ℕ) → t.first + k ≡ block
        → IsPieceIn (buffer_of line.now) octets.now t k → ⊥) }
{
    let Some(token) = said_by(octets, line.number) else {
        return None;
    };
    if !lies_round(&token, line, block) {
        return None;
    }
    if !is_image_under(octets, &token, block - token.first) {
        return None;
    }
    Some(token)
}

/// The token of the article that a block says it is one of; none where the octets are no image.
fn said_by(octets: &[u8; BLOCK_OCTETS], number: u8) -> Option<Token>
    ensures only { IfSome result (λ token. (buffer : Buffer) (t : terms.Token) (k : ℕ)
        → buffer.number ≡ number → IsPieceIn buffer octets.now t k → t ≡ token_view token) }
    ensures number { IfSome result (λ token. token.buffer ≡ number) }
    ensures none { IfNone result ((buffer : Buffer) (t : terms.Token) (k : ℕ)
        → IsPieceIn buffer octets.now t k → ⊥) }
{
    let Some(image) = read_image(octets) else {
        return None;
    };
    Some(Token {
        class: image.stamp.class,
        buffer: number,
        cycle: image.stamp.cycle,
        first: image.stamp.first,
        length: image.stamp.article_length,
    })
}

/// Whether the article under a token lies round a block, in this line's buffer, and isn't of a
/// cycle before the first.
fn lies_round(token: &Token, line: &Line, block: u32) -> bool
    ensures behind { IsTrue result → token.now.first ≤ block }
    ensures before { IsTrue result → block < token.now.first + size_of token.now.length }
    ensures ends { IsTrue result → token.now.first + size_of token.now.length ≤ line.now.blocks }
    ensures begun { IsTrue result → line.now.first_cycle ≤ token.now.cycle }
    ensures other { result ≡ false → token.now.first ≤ block
        → block < token.now.first + size_of token.now.length
        → token.now.first + size_of token.now.length ≤ line.now.blocks
        → line.now.first_cycle ≤ token.now.cycle → ⊥ }
{
    let size = size_of(token.length);
    token.cycle >= line.first_cycle
        && token.first <= block
        && block - token.first < size
        && token.first <= line.blocks
        && size <= line.blocks - token.first
}
