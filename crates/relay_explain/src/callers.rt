//! What is told of who may connect to the peers of relay.conf.
ghost use Rattle.std.specs.Prelude.{◌≡◌, ◌<◌, ◌^◌, ◌++◌, codes, map, string_bytes, IfOk, OnOk};
ghost use Rattle.std.specs.List.{enumerate_from};
ghost use Rattle.std.specs.Option.{option_copied};
ghost use Rattle.line_words.specs.Words.{words};
ghost use Rattle.line_words.specs.declared.words.Between.TheVariants.{Spaces};
ghost use Rattle.relay_conf.specs.Reach as reach;
ghost use Rattle.relay_explain.specs.Callers as terms;
ghost use Rattle.relay_explain.specs.Lines.{told_line};
ghost use Rattle.relay_explain.specs.Settings.{relay_conf};
ghost use Rattle.relay_explain.specs.Text.{Adds};

use crate::feeds::behind_word;
use crate::lines::has_words;
use crate::rows::number_at;
use crate::settings::{RELAY, address_text};
use crate::text::{Text, put_line, put_odd};
use itoa::Buffer;
use line_words::{Between, first_word, trim};
use relay_conf::{Allow, Peer, Range, Relay};
use std::alloc::{AllocError, Global};
use std::net::Ipv6Addr;

/// A range of a peer as it is said: its number among those of the peer, and the line that says it.
#[derive(Clone, Copy)]
pub(crate) struct SaidRange {
    number: usize,
    line: usize,
    range: Range,
}

/// Whether ranges of the peer of this number are said.
pub(crate) fn has_ranges(allows: &[Allow], peer: usize) -> bool
    ensures { result ≡ reach.has_allow allows.now peer }
{
    allows.iter().any(|allow| usize::from(allow.peer) == peer)
}

/// Puts what is told of the ranges of the peer of this number.
#[tactic(auto, unfolding(crate::specs::Callers::callers_text))]
pub(crate) fn put_callers(
    alloc: Global,
    text: Text,
    relay: &Relay,
    lines: &[&[u8]],
    number: usize,
    peer: &Peer,
) -> Text
    ensures { Adds text result
        (terms.callers_text relay.now (map (λ line. line.now) lines.now) number peer.now) }
{
    if peer.port == 0 {
        return text;
    }
    let name = peer.name.as_slice();
    match said_ranges(alloc, relay, lines, number, name) {
        Ok(all) => put_ranges(alloc, text, name, &all),
        Err(error) => text.fail(error),
    }
}

/// Puts what is told of each of these ranges of the peer of this name.
fn put_ranges(alloc: Global, mut text: Text, name: &[u8], all: &[SaidRange]) -> Text
    ensures { Adds text result (terms.said_ranges_text name.now all.now) }
{
    for said in all {
        text = put_range(alloc, text, name, all, said);
    }
    text
}

/// Puts what is told of a range, among all of its peer.
#[tactic(auto, unfolding(crate::specs::Callers::said_range_text))]
fn put_range(alloc: Global, text: Text, name: &[u8], all: &[SaidRange], said: &SaidRange) -> Text
    ensures { Adds text result (terms.said_range_text name.now all.now said.now) }
{
    let line = said.line;
    let text = put_range_line(alloc, text, line, name, &said.range);
    let every = b"the range has every address".as_slice();
    let text = put_odd(text, has_all(&said.range), RELAY, line, every);
    let every = b"the range has every IPv4 address".as_slice();
    let text = put_odd(text, has_all_of_ipv4(&said.range), RELAY, line, every);
    put_idle(alloc, text, line, first_over(all, said))
}

/// Puts the line of a range of the peer of this name.
fn put_range_line(alloc: Global, text: Text, line: usize, name: &[u8], range: &Range) -> Text
    ensures { Adds text result
        (told_line relay_conf line (terms.range_told name.now range.now)) }
{
    match range_text(alloc, range) {
        Ok(range) => put_line(
            text,
            RELAY,
            line,
            &[b"peer ", name, b" from ", range.as_slice()],
        ),
        Err(error) => text.fail(error),
    }
}

/// Puts what is odd in a range that says nothing new beside this one.
fn put_idle(alloc: Global, text: Text, line: usize, other: Option<&SaidRange>) -> Text
    ensures { Adds text result (terms.idle_odd line (option_copied other.entry)) }
{
    match other {
        None => text,
        Some(other) => put_within(alloc, text, line, &other.range),
    }
}

/// Puts that a range is within another.
fn put_within(alloc: Global, text: Text, line: usize, other: &Range) -> Text
    ensures { Adds text result (told_line relay_conf line
        (codes "odd: the range says nothing new: it is within " ++ terms.range_text other.now)) }
{
    match range_text(alloc, other) {
        Ok(range) => put_line(
            text,
            RELAY,
            line,
            &[
                b"odd: the range says nothing new: it is within ",
                range.as_slice(),
            ],
        ),
        Err(error) => text.fail(error),
    }
}

/// The first of these beside which a range says nothing new.
fn first_over<'a>(all: &'a [SaidRange], said: &SaidRange) -> Option<&'a SaidRange>
    ensures { option_copied result ≡ terms.first_over all.now said.now }
{
    for other in all {
        if is_idle(said, other) {
            return Some(other);
        }
    }
    None
}

/// Whether a range says nothing new beside another of its peer.
fn is_idle(said: &SaidRange, other: &SaidRange) -> bool
    ensures { result ≡ terms.is_idle said.now other.now }
{
    is_within(&said.range, &other.range)
        && (other.number < said.number || !is_within(&other.range, &said.range))
}

/// Whether each address of the range is one of the other.
fn is_within(range: &Range, other: &Range) -> bool
    ensures { result ≡ terms.is_within range.now other.now }
{
    other.bits <= range.bits
        && first_bits(other.bits, range.address) == first_bits(other.bits, other.address)
}

/// The first so many bits of an address, as a number.
fn first_bits(bits: u8, address: [u8; 16]) -> u128
    ensures { result ≡ reach.first_bits bits address }
{
    let others = u32::from(128_u8.saturating_sub(bits));
    if others < 128 {
        u128::from_be_bytes(address) >> others
    } else {
        0
    }
}

/// Whether a range has every address.
fn has_all(range: &Range) -> bool
    ensures { result ≡ terms.has_all range.now }
{
    range.bits == 0
}

/// Whether a range has every IPv4 address, and no other.
fn has_all_of_ipv4(range: &Range) -> bool
    ensures { result ≡ terms.has_all_of_ipv4 range.now }
{
    is_of_ipv4(range) && range.bits == 96
}

/// Whether a range has addresses of IPv4 alone.
fn is_of_ipv4(range: &Range) -> bool
    ensures { result ≡ terms.is_of_ipv4 range.now }
{
    let address = Ipv6Addr::from_octets(range.address);
    range.bits >= 96 && address.to_ipv4_mapped().is_some()
}

/// A range as it is written.
fn range_text(alloc: Global, range: &Range) -> Result<Vec<u8>, AllocError>
    ensures { IfOk result (λ text. text.items ≡ terms.range_text range.now) }
{
    let mut text = Vec::new(alloc);
    let address = range_address(alloc, range)?;
    text.extend_from_slice(address.as_bytes())?;
    add_bits(&mut text, range)?;
    Ok(text)
}

/// The address of a range as it is written.
fn range_address(alloc: Global, range: &Range) -> Result<String, AllocError>
    ensures { IfOk result (λ text. string_bytes text ≡ terms.range_address range.now) }
{
    if is_of_ipv4(range) {
        return address_text(alloc, range.address);
    }
    let address = Ipv6Addr::from_octets(range.address);
    format!(in alloc; "{address}")
}

/// Adds how many bits of a range count, where not all do.
fn add_bits(text: &mut Vec<u8>, range: &Range) -> Result<(), AllocError>
    ensures { OnOk result (text.new.items ≡ text.old.items ++ terms.bits_text range.now) }
{
    if range.bits == 128 {
        return Ok(());
    }
    let bits = range.bits.saturating_sub(bits_before(range));
    let mut digits = Buffer::new();
    text.extend_from_slice(b"/")?;
    text.extend_from_slice(digits.format(bits).as_bytes())
}

/// How many bits stand before those that are counted behind an address.
fn bits_before(range: &Range) -> u8
    ensures { result ≡ terms.bits_before range.now }
{
    if is_of_ipv4(range) { 96 } else { 0 }
}

/// The ranges of the peer of this number and this name, as the lines say them.
fn said_ranges(
    alloc: Global,
    relay: &Relay,
    lines: &[&[u8]],
    number: usize,
    name: &[u8],
) -> Result<Vec<SaidRange>, AllocError>
    ensures { IfOk result (λ all. all.items
        ≡ terms.said_ranges relay.now (map (λ line. line.now) lines.now) number name.now) }
{
    let numbers = range_lines(alloc, lines, name)?;
    let ranges = ranges_of(alloc, &relay.allows, number)?;
    said_with(alloc, &numbers, &ranges)
}

/// These ranges, said by the lines of these numbers.
fn said_with(
    alloc: Global,
    numbers: &[usize],
    ranges: &[Range],
) -> Result<Vec<SaidRange>, AllocError>
    ensures { IfOk result (λ all. all.items
        ≡ map (terms.said_range numbers.now) (enumerate_from 0 ranges.now)) }
{
    let mut all = Vec::new(alloc);
    for (number, range) in ranges.iter().enumerate() {
        let line = number_at(numbers, number);
        all.push(SaidRange {
            number,
            line,
            range: *range,
        })?;
    }
    Ok(all)
}

/// The ranges of the peer of this number, in their order.
fn ranges_of(alloc: Global, allows: &[Allow], peer: usize) -> Result<Vec<Range>, AllocError>
    ensures { IfOk result (λ ranges. ranges.items ≡ terms.ranges_of peer allows.now) }
{
    let mut ranges = Vec::new(alloc);
    for allow in allows {
        if usize::from(allow.peer) == peer {
            ranges.push(allow.range)?;
        }
    }
    Ok(ranges)
}

/// The number of the line of each range of the peer of this name, in their order.
fn range_lines(alloc: Global, lines: &[&[u8]], name: &[u8]) -> Result<Vec<usize>, AllocError>
    ensures { IfOk result (λ numbers. numbers.items
        ≡ terms.range_lines name.now (map (λ line. line.now) lines.now)) }
{
    let mut numbers = Vec::new(alloc);
    for (at, line) in lines.iter().enumerate() {
        push_numbers(&mut numbers, name, at, line)?;
    }
    Ok(numbers)
}

/// Puts the number from 1 of a line, of this number from 0, behind those before it, for each range
/// that it says of the peer of this name.
fn push_numbers(
    numbers: &mut Vec<usize>,
    name: &[u8],
    at: usize,
    line: &[u8],
) -> Result<(), AllocError>
    requires { at < 2 ^ 62 }
    ensures { OnOk result (numbers.new.items
        ≡ numbers.old.items ++ terms.numbers_on name.now (at, line.now)) }
{
    if !has_words(line, b"allow", name) {
        return Ok(());
    }
    push_for_words(numbers, at + 1, behind_word(behind_word(trim(line))))
}

/// Puts a number behind those before it for each word of a text.
fn push_for_words(numbers: &mut Vec<usize>, number: usize, text: &[u8]) -> Result<(), AllocError>
    ensures { OnOk result (numbers.new.items
        ≡ numbers.old.items ++ map (λ word. number) (words Spaces text.now)) }
{
    let mut unread = text;
    while let Some((_, rest)) = first_word(unread, Between::Spaces) {
        numbers.push(number)?;
        unread = rest;
    }
    Ok(())
}
