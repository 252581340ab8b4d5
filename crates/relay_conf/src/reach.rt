//! Who may connect to a peer: ranges of addresses (docs/FORMATS.md, Configuration).
ghost use Rattle.std.specs.Prelude.{◌≡◌, ◌∷◌, [], ◌++◌, map, OnOk};
ghost use Rattle.relay_conf.specs.Reach as terms;
ghost use Rattle.relay_conf.specs.RelayDraft.{named_allow};
ghost use Rattle.relay_conf.specs.RelayLines.{ranges_of};
ghost use Rattle.relay_conf.specs.RelayLines as lines;
ghost use Rattle.relay_conf.specs.RelayViews.{ranges_in};
ghost use Rattle.relay_conf.specs.Words.{words};

use crate::faults::Fault;
use crate::relay_lines::{address_of, ipv4_of};
use crate::settings::Relay;
use crate::words::first_word;
use line_words::{Octets, cut, number_within, one_part};
use std::alloc::{AllocError, Global};

/// Addresses of which the first bits are those of this one, 0 to 128. An IPv4 address is its
/// IPv4-mapped one (RFC 4291, section 2.5.5.2).
#[derive(Clone, Copy)]
pub struct Range {
    pub address: [u8; 16],
    pub bits: u8,
}

/// Addresses that may connect to the peer of this number.
#[derive(Clone, Copy)]
pub struct Allow {
    pub peer: u16,
    pub range: Range,
}

/// Addresses that may connect to the peer of this name.
#[derive(Drop)]
pub(crate) struct NamedAllow {
    pub(crate) name: Octets,
    pub(crate) range: Range,
}

impl Relay {
    /// Whether a connection from this address is let in at the port of the peer of this number; an
    /// IPv4 address is its IPv4-mapped one.
    pub fn may_reach(&self, peer: usize, address: [u8; 16]) -> bool
        ensures { result ≡ terms.may_reach self.now.allows.items peer address }
    {
        !has_allow(&self.allows, peer) || is_allowed(&self.allows, peer, address)
    }
}

/// Whether ranges of the peer are said.
fn has_allow(allows: &[Allow], peer: usize) -> bool
    ensures { result ≡ terms.has_allow allows.now peer }
{
    allows.iter().any(|allow| usize::from(allow.peer) == peer)
}

/// Whether one of the ranges of the peer has the address.
fn is_allowed(allows: &[Allow], peer: usize, address: [u8; 16]) -> bool
    ensures { result ≡ terms.is_allowed allows.now peer address }
{
    allows.iter().any(|allow| usize::from(allow.peer) == peer && has_address(&allow.range, address))
}

/// Whether the range has the address.
fn has_address(range: &Range, address: [u8; 16]) -> bool
    ensures { result ≡ terms.has_address range.now address }
{
    first_bits(range.bits, address) == first_bits(range.bits, range.address)
}

/// The first so many bits of an address, as a number.
fn first_bits(bits: u8, address: [u8; 16]) -> u128
    ensures { result ≡ terms.first_bits bits address }
{
    let others = u32::from(128_u8.saturating_sub(bits));
    if others < 128 {
        u128::from_be_bytes(address) >> others
    } else {
        0
    }
}

/// What is wrong with the first word of a text that is no range.
pub(crate) fn range_fault(text: &[u8]) -> Option<Fault>
    ensures { result ≡ terms.fault_in (ranges_of (words text.now)) }
{
    let mut unread = text;
    while let Some((word, rest)) = first_word(unread) {
        if let Err(fault) = range_of(word) {
            return Some(fault);
        }
        unread = rest;
    }
    None
}

/// Keeps the ranges of a text by the name of their peer.
pub(crate) fn push_ranges(
    alloc: Global,
    allows: &mut Vec<NamedAllow>,
    name: &[u8],
    text: &[u8],
) -> Result<(), AllocError>
    ensures { OnOk result (allows.new.items
        ≡ allows.old.items ++ map (named_allow name.now) (ranges_in text.now)) }
{
    let mut unread = text;
    while let Some((word, rest)) = first_word(unread) {
        if let Ok(range) = range_of(word) {
            push_range(alloc, allows, name, range)?;
        }
        unread = rest;
    }
    Ok(())
}

/// Keeps a range by the name of its peer.
fn push_range(
    alloc: Global,
    allows: &mut Vec<NamedAllow>,
    name: &[u8],
    range: Range,
) -> Result<(), AllocError>
    ensures { OnOk result (allows.new.items
        ≡ allows.old.items ++ named_allow name.now range ∷ []) }
{
    let name = Octets::copied(alloc, name)?;
    allows.push(NamedAllow { name, range })?;
    Ok(())
}

/// The range that the word is: an address, or one and how many of its bits count.
fn range_of(word: &[u8]) -> Result<Range, Fault>
    ensures { result ≡ lines.range_of word.now }
{
    let (address, rest) = cut(word, b'/');
    let Some(rest) = rest else {
        return ranged(address_of(address), Some(128));
    };
    match one_part(Some(rest), b'/') {
        Some(bits) => ranged(address_of(address), bits_of(address, bits)),
        None => Err(Fault::Syntax),
    }
}

/// How many bits count of the 128 of this address: behind an IPv4 address those in front of it too.
fn bits_of(address: &[u8], word: &[u8]) -> Option<u8>
    ensures { result ≡ lines.bits_of address.now word.now }
{
    if ipv4_of(address).is_some() {
        let bits = number_within(0, 32, word)?;
        return Some(96 + bits as u8);
    }
    let bits = number_within(0, 128, word)?;
    Some(bits as u8)
}

/// The range of an address and of so many of its bits.
fn ranged(address: Option<[u8; 16]>, bits: Option<u8>) -> Result<Range, Fault>
    ensures { result ≡ lines.ranged address bits }
{
    match (address, bits) {
        (None, _) => Err(Fault::Syntax),
        (Some(_), None) => Err(Fault::Number),
        (Some(address), Some(bits)) => Ok(Range { address, bits }),
    }
}
