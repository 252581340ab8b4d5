//! A fetch, in any thread: a run of blocks at a time under the buffer's lock.
ghost use Rattle.std.specs.Prelude.{◌≡◌, ◌++◌, ◌≤◌, [], None, length, IfOk, IsOk, OnOk};
ghost use Rattle.cyc_token.specs.Token.{token_view};
ghost use Rattle.live_store.specs.Fetches.{IsFetched, IsGathered};

use crate::answers::OneRead;
use crate::fetched::{Fetched, Text};
use crate::following::OneRecord;
use crate::numbered::NumberedBuffer;
use crate::record::{ArticleLog, StorePremises};
use crate::steps::Unfound;
use cyc_block::{BlockStore, CHUNK_OCTETS};
use cyc_buffer::size_of;
use cyc_token::Token;
use std::alloc::{AllocError, Global};
use std::marker::PhantomData;
use std::sync::{Mutex, Wait};

/// Fetches the text under a token out of the buffer of its number, block by block. Its memory
/// is taken once the first block is found, so none is for a token under which nothing is stored.
pub fn fetch<S: BlockStore, J: StorePremises, R: Wait>(
    rt: &R,
    alloc: Global,
    buffers: &[Mutex<NumberedBuffer<S, J>>],
    register: &ArticleLog,
    token: &Token,
) -> Result<Fetched<J>, AllocError>
    requires { register.now ≡ J.register }
    ensures fetched { IfOk result
        (IsFetched J.trusted (length buffers.now) (token_view token.now)) }
    // Where no buffer has the token's number no memory is asked for.
    ensures unasked { length buffers.now ≤ (token_view token.now).buffer → IsOk result }
{
    let mut text = Vec::new(alloc);
    let mut reads = OneRecord::new(alloc);
    match gather(rt, buffers, register, token, &mut reads, &mut text) {
        Ok(None) => {}
        Ok(Some(fetched)) => {
            drop(reads);
            return Ok(fetched);
        }
        Err(error) => {
            drop(reads);
            return Err(error);
        }
    }
    let OneRecord {
        alloc: _,
        shown,
        ahead: _,
        of: _,
    } = reads;
    match shown {
        Some(shown) => Ok(Fetched::Whole(Text {
            octets: text,
            shown,
            of: PhantomData,
        })),
        None => Ok(Fetched::Unknown(Unfound::no_octets(token))),
    }
}

/// Reads all blocks of an article, each of one record. `None` where all of its text was gathered,
/// else the answer of the fetch.
fn gather<S: BlockStore, J: StorePremises, R: Wait>(
    rt: &R,
    buffers: &[Mutex<NumberedBuffer<S, J>>],
    register: &ArticleLog,
    token: &Token,
    reads: &mut OneRecord<J>,
    text: &mut Vec<u8>,
) -> Result<Option<Fetched<J>>, AllocError>
    requires register { register.now ≡ J.register }
    requires none { (reads.old.shown ≡ None) × (text.old.items ≡ []) }
    ensures gathered { IfOk result (IsGathered J.trusted (length buffers.now)
        (token_view token.now) reads.new.shown text.new.items) }
    ensures unasked { length buffers.now ≤ (token_view token.now).buffer → IsOk result }
{
    let mut chunk = [0; CHUNK_OCTETS];
    for k in 0..size_of(token.length) {
        match reads.read(rt, buffers, register, token, k, &mut chunk) {
            Ok(OneRead::Chunk(octets)) => join(text, token.length, &chunk[..octets])?,
            Ok(OneRead::Gone(front)) => return Ok(Some(Fetched::Gone(front))),
            Ok(OneRead::Unknown(unfound)) => return Ok(Some(Fetched::Unknown(unfound))),
            Err(fault) => return Ok(Some(Fetched::Device(fault))),
        }
    }
    Ok(None)
}

/// Octets of a text of this length join those before them. With the first ones memory is taken for
/// all.
fn join(text: &mut Vec<u8>, length: u32, octets: &[u8]) -> Result<(), AllocError>
    ensures { OnOk result (text.new.items ≡ text.old.items ++ octets.now) }
{
    if text.is_empty() {
        text.reserve(length as usize)?;
    }
    text.extend_from_slice(octets)
}
