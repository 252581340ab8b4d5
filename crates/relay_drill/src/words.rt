//! The words of a script's line, and the values that they stand for (docs/FORMATS.md, Drill
//! scripts).
ghost use Rattle.std.specs.Prelude.{◌≡◌, map, option_map, IfOk};
ghost use Rattle.relay_drill.specs.Words as terms;

use hex::FromHexError;
use line_words::is;
use relay_conf::{BufferConf, Peer};
use std::alloc::{AllocError, Global};

/// The last number that a script may name.
pub const LAST_NUMBER: u64 = 9_223_372_036_854_775_807;

/// The number that the word is.
pub fn number(word: &[u8]) -> Option<u64>
    ensures { result ≡ terms.number word.now }
{
    number_within(0, LAST_NUMBER, word)
}

/// The number that the word is by 19 digits at most, where it is in this range.
pub fn number_within(least: u64, most: u64, word: &[u8]) -> Option<u64>
    ensures { result ≡ terms.number_within least most word.now }
{
    if word.len() > 19 {
        return None;
    }
    line_words::number_within(least, most, word)
}

/// The octets that the word writes by pairs of hexadecimal digits, at least one.
pub fn octets_of(alloc: Global, word: &[u8]) -> Result<Option<Vec<u8>>, AllocError>
    ensures { IfOk result (λ octets.
        option_map (λ octets. octets.items) octets ≡ terms.octets_of word.now) }
{
    if word.is_empty() {
        return Ok(None);
    }
    match hex::decode(alloc, word) {
        Ok(octets) => Ok(Some(octets)),
        Err(FromHexError::OutOfMemory) => Err(AllocError),
        Err(_) => Ok(None),
    }
}

/// The number of the peer of this name.
pub fn peer_of(peers: &[Peer], name: &[u8]) -> Option<usize>
    ensures { result ≡ terms.place_of (map (λ peer. peer.name) peers.now) name.now }
{
    for (place, peer) in peers.iter().enumerate() {
        if is(name, peer.name.as_slice()) {
            return Some(place);
        }
    }
    None
}

/// The number of the buffer of this name.
pub fn buffer_of(buffers: &[BufferConf], name: &[u8]) -> Option<usize>
    ensures { result ≡ terms.place_of (map (λ buffer. buffer.name) buffers.now) name.now }
{
    for (place, buffer) in buffers.iter().enumerate() {
        if is(name, buffer.name.as_slice()) {
            return Some(place);
        }
    }
    None
}
