//! What is told of the feeds of relay.conf.
ghost use Rattle.std.specs.Prelude.{◌≡◌, drop, map, slice_get};
ghost use Rattle.std.specs.Option.{option_copied};
ghost use Rattle.line_words.specs.Words.{words};
ghost use Rattle.line_words.specs.declared.words.Between.TheVariants.{Spaces};
ghost use Rattle.relay_explain.specs.Lines.{line_at, told_line};
ghost use Rattle.relay_explain.specs.Peers as terms;
ghost use Rattle.relay_explain.specs.Settings.{relay_conf};
ghost use Rattle.relay_explain.specs.Text.{Adds};

use crate::lines::{line_at, peer_line};
use crate::patterns::put_pattern_odds;
use crate::settings::RELAY;
use crate::text::{Text, begin_line, put, put_odd};
use line_words::{Between, first_word, trim};
use relay_conf::{Feed, HashFeed, Peer, Relay};

/// Puts what is told of all feeds.
#[tactic(auto, unfolding(crate::specs::Peers::feeds_text))]
pub(crate) fn put_feeds(mut text: Text, relay: &Relay, lines: &[&[u8]]) -> Text
    ensures { Adds text result
        (terms.feeds_text relay.now (map (λ line. line.now) lines.now)) }
{
    for feed in &relay.feeds {
        text = put_feed(text, relay, lines, feed);
    }
    text
}

/// Puts what is told of a feed.
fn put_feed(text: Text, relay: &Relay, lines: &[&[u8]], feed: &Feed) -> Text
    ensures { Adds text result
        (terms.feed_text relay.now (map (λ line. line.now) lines.now) feed.now) }
{
    let peer = peer_at(relay, feed.peer);
    let line = peer_line(lines, b"feed", name_of(peer));
    let newsgroups = newsgroups_at(lines, line);
    put_told_on(text, line, newsgroups, peer, feed)
}

/// The peer of this number, where it is there.
fn peer_at(relay: &Relay, peer: u16) -> Option<&Peer>
    ensures { option_copied result ≡ slice_get relay.now.peers.items peer }
{
    relay.peers.get(usize::from(peer))
}

/// The text of the expression that the line of a feed of this number has.
#[tactic(auto, unfolding(crate::specs::Peers::newsgroups_at))]
fn newsgroups_at<'a>(lines: &[&'a [u8]], line: usize) -> &'a [u8]
    ensures { result.now ≡ terms.newsgroups_at line (map (λ line. line.now) lines.now) }
{
    newsgroups_on(line_at(lines, line.saturating_sub(1)))
}

/// Puts what is told of a feed of this peer, which this line says with these newsgroups.
#[tactic(auto, unfolding(crate::specs::Peers::feed_told_on))]
fn put_told_on(text: Text, line: usize, newsgroups: &[u8], peer: Option<&Peer>, feed: &Feed) -> Text
    ensures { Adds text result
        (terms.feed_told_on line newsgroups.now (option_copied peer.entry) feed.now) }
{
    let text = put_feed_line(text, line, newsgroups, name_of(peer), feed.hash, feed.ring);
    let text = put_pattern_odds(text, RELAY, line, newsgroups);
    let text = put_odd(
        text,
        port_of(peer) == 0,
        RELAY,
        line,
        b"the peer has no port, so nobody takes the feed",
    );
    let text = put_odd(
        text,
        feed.ring == 1,
        RELAY,
        line,
        b"of a ring of 1 only the newest token is ever there",
    );
    let told = b"the hash leaves out no article";
    put_odd(text, is_whole(feed.hash), RELAY, line, told)
}

/// Puts the line of a feed of the peer of this name.
#[tactic(auto, unfolding(crate::specs::Peers::feed_told, crate::specs::Lines::told_line))]
fn put_feed_line(
    text: Text,
    line: usize,
    newsgroups: &[u8],
    name: &[u8],
    hash: Option<HashFeed>,
    ring: u32,
) -> Text
    ensures { Adds text result
        (told_line relay_conf line (terms.feed_told name.now newsgroups.now hash ring)) }
{
    let text = begin_line(text, RELAY, line);
    let text = put(text, &[b"feed of ", name, b": newsgroups ", newsgroups]);
    put_hash(text, hash)
        .add(b", tokens that wait at most: ")
        .add_number(ring as u128)
        .add(b"\n")
}

/// Puts which of the articles a feed may have, where not each.
fn put_hash(text: Text, hash: Option<HashFeed>) -> Text
    ensures { Adds text result (terms.hash_told hash) }
{
    match hash {
        None => text,
        Some(hash) => text
            .add(b", of their articles those of hash ")
            .add_number(hash.first as u128)
            .add(b"-")
            .add_number(hash.last as u128)
            .add(b"/")
            .add_number(hash.parts as u128),
    }
}

/// Whether the part is of all articles.
fn is_whole(hash: Option<HashFeed>) -> bool
    ensures { result ≡ terms.is_whole hash }
{
    match hash {
        None => false,
        Some(hash) => hash.first == 1 && hash.last == hash.parts,
    }
}

/// The name of a peer; one that isn't there has none.
fn name_of(peer: Option<&Peer>) -> &[u8]
    ensures { result.now ≡ terms.name_of (option_copied peer.entry) }
{
    match peer {
        None => b"",
        Some(peer) => peer.name.as_slice(),
    }
}

/// The port of a peer; one that isn't there has none, as port 0 is none.
fn port_of(peer: Option<&Peer>) -> u16
    ensures { result ≡ terms.port_of (option_copied peer.entry) }
{
    match peer {
        None => 0,
        Some(peer) => peer.port,
    }
}

/// The text of the expression that a line of a feed has: its fourth word.
fn newsgroups_on(line: &[u8]) -> &[u8]
    ensures { result.now ≡ terms.newsgroups_on line.now }
{
    let line = trim(line);
    word_of(behind_word(behind_word(behind_word(line))))
}

/// The first word, empty where there is none.
fn word_of(line: &[u8]) -> &[u8]
    ensures { result.now ≡ line_at 0 (words Spaces line.now) }
{
    match first_word(line, Between::Spaces) {
        None => b"",
        Some((word, _)) => word,
    }
}

/// What follows the first word, nothing where there is none.
pub(crate) fn behind_word(line: &[u8]) -> &[u8]
    ensures { words Spaces result.now ≡ drop 1 (words Spaces line.now) }
{
    match first_word(line, Between::Spaces) {
        None => line,
        Some((_, rest)) => rest,
    }
}
