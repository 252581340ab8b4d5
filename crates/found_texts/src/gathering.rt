//! A text that is found, gathered block by block.
ghost use Rattle.std.specs.Prelude.{IfErr, IfOk, OnOk};
ghost use Rattle.cyc_token.specs.Token.{token_view};
ghost use Rattle.found_texts.specs.Gathering.{ReadsNext, ReadsText};
ghost use Rattle.found_texts.specs.Held.{AreHeld, IsReadFault, NoneFailed};

use crate::fault::ReadFault;
use buffer_repair::FoundBufferSet;
use cyc_block::{BlockStore, CHUNK_OCTETS};
use cyc_buffer::{Found, size_of};
use cyc_token::Token;
use std::alloc::Global;

/// Reads all blocks of the text under a token, one after the other. `None` where one of them isn't
/// found.
pub(crate) fn read_text<S: BlockStore + Drop>(
    alloc: Global,
    found_set: &mut FoundBufferSet<S>,
    token: Token,
) -> Result<Option<Vec<u8>>, ReadFault>
    ensures text { IfOk result (λ text.
        ReadsText (token_view token) found_set.old text found_set.new) }
    ensures unfailed { OnOk result (NoneFailed found_set.old found_set.new) }
    ensures refused { IfErr result (λ fault. IsReadFault found_set.old fault found_set.new) }
    ensures held { AreHeld found_set.old found_set.new }
{
    let mut octets = Vec::with_capacity(alloc, token.length as usize)?;
    for k in 0..size_of(token.length) {
        if !read_next(found_set, token, k, &mut octets)? {
            return Ok(None);
        }
    }
    Ok(Some(octets))
}

/// Reads block k of the text under a token, and puts it behind the octets of those before it. Says
/// whether there was one.
fn read_next<S: BlockStore + Drop>(
    found_set: &mut FoundBufferSet<S>,
    token: Token,
    k: u32,
    octets: &mut Vec<u8>,
) -> Result<bool, ReadFault>
    ensures next { IfOk result (λ was. ReadsNext (token_view token) k found_set.old
        octets.old.items was octets.new.items found_set.new) }
    ensures unfailed { OnOk result (NoneFailed found_set.old found_set.new) }
    ensures refused { IfErr result (λ fault. IsReadFault found_set.old fault found_set.new) }
    ensures held { AreHeld found_set.old found_set.new }
{
    let mut chunk = [0; CHUNK_OCTETS];
    match found_set.read_block(&token, k, &mut chunk) {
        Ok(Found::Chunk(count)) => {
            octets.extend_from_slice(&chunk[..count])?;
            Ok(true)
        }
        Ok(Found::Gone(_)) => Ok(false),
        Ok(Found::Unknown) => Ok(false),
        Err(_) => Err(ReadFault::Device(token.buffer)),
    }
}
