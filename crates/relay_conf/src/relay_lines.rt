//! The lines of relay.conf, each read alone.
ghost use Rattle.std.specs.Prelude.{◌≡◌, ◌≤◌, ◌∷◌, IfOk};
ghost use Rattle.line_words.specs.Parts.{one_of, two_of, three_of};
ghost use Rattle.relay_conf.specs.RelayLines as terms;
ghost use Rattle.relay_conf.specs.RelayViews.{limit_view, raw_by};
ghost use Rattle.relay_conf.specs.Words.{words};

use crate::cycbuff_lines::is_file;
use crate::faults::Fault;
use crate::hash_feeds::HashFeed;
use crate::hash_lines::hash_behind;
use crate::names::name_of;
use crate::reach::range_fault;
use crate::words::{first_word, is_identity, is_name, one_word, three_words, two_words};
use line_words::{is, is_skipped, number_within, trim};
use std::net::{Ipv4Addr, Ipv6Addr};

/// What a line says, without fault.
#[derive(Clone, Copy)]
pub(crate) enum Line<'a> {
    /// A comment or an empty line.
    Skipped,
    /// The own identity.
    Own(&'a [u8]),
    /// The octets of the largest article.
    MaxArticle(u32),
    /// The seconds past which an article is refused.
    Cutoff(u64),
    /// The seconds after which an id may be forgotten.
    Remember(u64),
    /// The seconds for which a silent peer is waited for.
    Patience(u32),
    /// The seconds between two flushes of the files.
    Sync(u64),
    /// The seconds after which an offer runs out.
    Offers(u64),
    /// The news log: whether accepted articles have lines too, and its path.
    Log(bool, &'a [u8]),
    /// An address on which ports listen.
    Bind([u8; 16]),
    /// A peer: its name, its identity and its port.
    Peer(&'a [u8], &'a [u8], u16),
    /// The name of a peer and how many of its connections are served at once.
    Connections(&'a str, u32),
    /// The name of a peer and the ranges of addresses that may connect to it.
    Allow(&'a str, &'a [u8]),
    /// A feed: the name of its peer, its ring, the text of its expression, and its part.
    Feed(&'a str, u32, &'a [u8], Option<HashFeed>),
}

/// A key whose value is one number.
#[derive(Clone, Copy)]
pub(crate) enum Limit {
    MaxArticle,
    Cutoff,
    Remember,
    Patience,
    Sync,
    Offers,
}

/// Reads a line alone, but for the expression of a feed.
pub(crate) fn relay_line(line: &[u8]) -> Result<Line<'_>, Fault>
    ensures { raw_by result ≡ terms.relay_line line.now }
{
    let line = trim(line);
    if is_skipped(line) {
        return Ok(Line::Skipped);
    }
    match first_word(line) {
        Some((word, rest)) => line_of(word, rest),
        None => Err(Fault::UnknownKey),
    }
}

/// Reads a line by its first word and what follows it.
fn line_of<'a>(word: &[u8], rest: &'a [u8]) -> Result<Line<'a>, Fault>
    ensures { raw_by result ≡ terms.relay_words (word.now ∷ words rest.now) }
{
    if is(word, b"own") {
        own_line(rest)
    } else if is(word, b"maxart") {
        limit_line(Limit::MaxArticle, 1, 16_777_216, rest)
    } else if is(word, b"cutoff") {
        limit_line(Limit::Cutoff, 0, 4_000_000_000, rest)
    } else if is(word, b"remember") {
        limit_line(Limit::Remember, 0, 4_000_000_000, rest)
    } else if is(word, b"patience") {
        limit_line(Limit::Patience, 1, 86_400, rest)
    } else if is(word, b"sync") {
        limit_line(Limit::Sync, 1, 86_400, rest)
    } else if is(word, b"offers") {
        limit_line(Limit::Offers, 1, 86_400, rest)
    } else if is(word, b"log") {
        log_line(rest)
    } else if is(word, b"bind") {
        bind_line(rest)
    } else if is(word, b"peer") {
        peer_line(rest)
    } else if is(word, b"connections") {
        connections_line(rest)
    } else if is(word, b"allow") {
        allow_line(rest)
    } else if is(word, b"feed") {
        feed_line(rest)
    } else {
        Err(Fault::UnknownKey)
    }
}

/// Reads what follows `own`.
fn own_line(rest: &[u8]) -> Result<Line<'_>, Fault>
    ensures { raw_by result ≡ terms.own_line (one_of (words rest.now)) }
{
    match one_word(rest) {
        Some(identity) if is_identity(identity) => Ok(Line::Own(identity)),
        _ => Err(Fault::Syntax),
    }
}

/// Reads what follows a key of one number, in this range.
fn limit_line<'a>(limit: Limit, least: u64, most: u32, rest: &[u8]) -> Result<Line<'a>, Fault>
    ensures { raw_by result ≡ terms.with_number (limit_view limit)
        (terms.number_line least most (one_of (words rest.now))) }
{
    let number = number_line(least, u64::from(most), rest)?;
    match limit {
        Limit::MaxArticle => Ok(Line::MaxArticle(number as u32)),
        Limit::Cutoff => Ok(Line::Cutoff(number)),
        Limit::Remember => Ok(Line::Remember(number)),
        Limit::Patience => Ok(Line::Patience(number as u32)),
        Limit::Sync => Ok(Line::Sync(number)),
        Limit::Offers => Ok(Line::Offers(number)),
    }
}

/// Reads the one number of a line, in this range.
fn number_line(least: u64, most: u64, rest: &[u8]) -> Result<u64, Fault>
    ensures number { result ≡ terms.number_line least most (one_of (words rest.now)) }
    ensures within { IfOk result (λ number. number ≤ most) }
{
    let Some(word) = one_word(rest) else {
        return Err(Fault::Syntax);
    };
    match number_within(least, most, word) {
        Some(number) => Ok(number),
        None => Err(Fault::Number),
    }
}

/// Reads what follows `log`.
fn log_line(rest: &[u8]) -> Result<Line<'_>, Fault>
    ensures { raw_by result ≡ terms.log_line (two_of (words rest.now)) }
{
    let Some((word, path)) = two_words(rest) else {
        return Err(Fault::Syntax);
    };
    match logs_all(word) {
        Some(all) if is_file(path) => Ok(Line::Log(all, path)),
        _ => Err(Fault::Syntax),
    }
}

/// Whether accepted articles have lines too, where the word says it.
fn logs_all(word: &[u8]) -> Option<bool>
    ensures { result ≡ terms.logs_all word.now }
{
    if is(word, b"refused") {
        Some(false)
    } else if is(word, b"all") {
        Some(true)
    } else {
        None
    }
}

/// Reads what follows `bind`.
fn bind_line(rest: &[u8]) -> Result<Line<'_>, Fault>
    ensures { raw_by result ≡ terms.bind_line (one_of (words rest.now)) }
{
    let Some(word) = one_word(rest) else {
        return Err(Fault::Syntax);
    };
    match address_of(word) {
        Some(address) => Ok(Line::Bind(address)),
        None => Err(Fault::Syntax),
    }
}

/// The octets of an address, where the word is one: an IPv4 address is its IPv4-mapped one, and an
/// IPv6 address may stand in brackets.
pub(crate) fn address_of(word: &[u8]) -> Option<[u8; 16]>
    ensures { result ≡ terms.address_of word.now }
{
    match ipv4_of(word) {
        Some(octets) => Some(mapped(octets)),
        None => ipv6_of(without_brackets(word)),
    }
}

/// The octets of an IPv4 address, where the word is one.
pub(crate) fn ipv4_of(word: &[u8]) -> Option<[u8; 4]>
    ensures { result ≡ terms.ipv4_of word.now }
{
    match Ipv4Addr::parse_ascii(word) {
        Ok(address) => Some(address.octets()),
        Err(_) => None,
    }
}

/// The octets of an IPv6 address, where the word is one.
fn ipv6_of(word: &[u8]) -> Option<[u8; 16]>
    ensures { result ≡ terms.ipv6_of word.now }
{
    match Ipv6Addr::parse_ascii(word) {
        Ok(address) => Some(address.octets()),
        Err(_) => None,
    }
}

/// The octets of the IPv4-mapped address of these four.
fn mapped(octets: [u8; 4]) -> [u8; 16]
    ensures { result ≡ terms.mapped octets }
{
    let [first, second, third, fourth] = octets;
    [
        0, 0, 0, 0, 0, 0, 0, 0, 0, 0, 255, 255, first, second, third, fourth,
    ]
}

/// What stands between the brackets of a word, or all of it.
fn without_brackets(word: &[u8]) -> &[u8]
    ensures { result.now ≡ terms.without_brackets word.now }
{
    match word {
        [b'[', inner @ .., b']'] => inner,
        _ => word,
    }
}

/// Reads what follows `peer`.
fn peer_line(rest: &[u8]) -> Result<Line<'_>, Fault>
    ensures { raw_by result ≡ terms.peer_line (three_of (words rest.now)) }
{
    let Some((name, identity, port)) = three_words(rest) else {
        return Err(Fault::Syntax);
    };
    if !is_name(name) || !is_identity(identity) {
        return Err(Fault::Syntax);
    }
    match number_within(0, 65_535, port) {
        Some(port) => Ok(Line::Peer(name, identity, port as u16)),
        None => Err(Fault::Number),
    }
}

/// Reads what follows `connections`.
fn connections_line(rest: &[u8]) -> Result<Line<'_>, Fault>
    ensures { raw_by result ≡ terms.connections_line (two_of (words rest.now)) }
{
    let Some((name, connections)) = two_words(rest) else {
        return Err(Fault::Syntax);
    };
    let Some(name) = name_of(name) else {
        return Err(Fault::Syntax);
    };
    match number_within(1, 64, connections) {
        Some(connections) => Ok(Line::Connections(name, connections as u32)),
        None => Err(Fault::Number),
    }
}

/// Reads what follows `allow`.
fn allow_line(rest: &[u8]) -> Result<Line<'_>, Fault>
    ensures { raw_by result ≡ terms.allow_line (words rest.now) }
{
    let Some((name, ranges)) = first_word(rest) else {
        return Err(Fault::Syntax);
    };
    let Some(_first) = first_word(ranges) else {
        return Err(Fault::Syntax);
    };
    let Some(name) = name_of(name) else {
        return Err(Fault::Syntax);
    };
    match range_fault(ranges) {
        Some(fault) => Err(fault),
        None => Ok(Line::Allow(name, ranges)),
    }
}

/// Reads what follows `feed`, but for the expression.
fn feed_line(rest: &[u8]) -> Result<Line<'_>, Fault>
    ensures { raw_by result ≡ terms.feed_line (words rest.now) }
{
    let Some((name, rest)) = first_word(rest) else {
        return Err(Fault::Syntax);
    };
    let Some((ring, rest)) = first_word(rest) else {
        return Err(Fault::Syntax);
    };
    let Some((text, rest)) = first_word(rest) else {
        return Err(Fault::Syntax);
    };
    let Some(name) = name_of(name) else {
        return Err(Fault::Syntax);
    };
    let hash = hash_behind(rest)?;
    match number_within(1, 65_536, ring) {
        Some(ring) => Ok(Line::Feed(name, ring as u32, text, hash)),
        None => Err(Fault::Number),
    }
}
