//! What is told of the peers of relay.conf.
ghost use Rattle.std.specs.Prelude.{◌≡◌, map, take};
ghost use Rattle.std.specs.Option.{option_copied};
ghost use Rattle.relay_explain.specs.Callers as callers;
ghost use Rattle.relay_explain.specs.Lines.{told_line};
ghost use Rattle.relay_explain.specs.Peers as terms;
ghost use Rattle.relay_explain.specs.Settings.{relay_conf};
ghost use Rattle.relay_explain.specs.Text.{Adds};

use crate::callers::{has_ranges, put_callers};
use crate::lines::peer_line;
use crate::rows::first_ones;
use crate::settings::RELAY;
use crate::text::{Text, begin_line, put, put_odd, put_shared};
use line_words::is;
use relay_conf::{Peer, Relay};
use std::alloc::Global;

/// Puts what is told of all peers.
#[tactic(auto, unfolding(crate::specs::Peers::peers_text))]
pub(crate) fn put_peers(alloc: Global, mut text: Text, relay: &Relay, lines: &[&[u8]]) -> Text
    ensures { Adds text result
        (terms.peers_text relay.now (map (λ line. line.now) lines.now)) }
{
    for (number, peer) in relay.peers.iter().enumerate() {
        text = put_peer(alloc, text, relay, lines, number, peer);
    }
    text
}

/// Puts what is told of the peer of this number.
fn put_peer(
    alloc: Global,
    text: Text,
    relay: &Relay,
    lines: &[&[u8]],
    number: usize,
    peer: &Peer,
) -> Text
    ensures { Adds text result
        (terms.peer_text relay.now (map (λ line. line.now) lines.now) (number, peer.now)) }
{
    let line = peer_line(lines, b"peer", peer.name.as_slice());
    let text = put_peer_line(text, relay, line, number, peer);
    let text = put_odds(text, relay, line, number, peer);
    put_callers(alloc, text, relay, lines, number, peer)
}

/// Puts the line of the peer of this number.
#[tactic(auto, unfolding(crate::specs::Peers::peer_told, crate::specs::Lines::told_line))]
fn put_peer_line(text: Text, relay: &Relay, line: usize, number: usize, peer: &Peer) -> Text
    ensures { Adds text result
        (told_line relay_conf line (terms.peer_told relay.now number peer.now)) }
{
    let name = peer.name.as_slice();
    let identity = peer.identity.as_slice();
    let text = begin_line(text, RELAY, line);
    let text = put(text, &[b"peer ", name, b", identity ", identity, b", "]);
    put_port(text, peer, has_ranges(&relay.allows, number)).add(b"\n")
}

/// Puts where a peer is served, how many of its connections at once, and from where where none of
/// its ranges is said.
#[tactic(auto, unfolding(crate::specs::Peers::port_text))]
fn put_port(text: Text, peer: &Peer, has_ranges: bool) -> Text
    ensures { Adds text result (terms.port_text has_ranges peer.now) }
{
    if peer.port == 0 {
        return text.add(b"no port: it isn't served");
    }
    text.add(b"port ")
        .add_number(peer.port as u128)
        .add(b", connections at once: ")
        .add_number(peer.connections as u128)
        .add(anyone_text(has_ranges))
}

/// What the line of a peer says where none of its ranges is said.
fn anyone_text(has_ranges: bool) -> &'static [u8]
    ensures { result.now ≡ callers.anyone_text has_ranges }
{
    if has_ranges {
        b""
    } else {
        b", from any address"
    }
}

/// Puts what is odd in a peer of this number.
#[tactic(auto, unfolding(crate::specs::Peers::peer_odds))]
fn put_odds(text: Text, relay: &Relay, line: usize, number: usize, peer: &Peer) -> Text
    ensures { Adds text result (terms.peer_odds relay.now line number peer.now) }
{
    let identity = peer.identity.as_slice();
    let text = put_shared(
        text,
        RELAY,
        line,
        b"the port is taken: no start serves it beside that of peer ",
        first_on(&relay.peers, number, peer.port),
    );
    let text = put_shared(
        text,
        RELAY,
        line,
        b"the identity is that of peer ",
        first_known_as(first_ones(&relay.peers, number), identity),
    );
    put_odd(
        text,
        is(identity, relay.own.as_slice()),
        RELAY,
        line,
        b"the identity is the relay's own",
    )
}

/// The name of the first of so many peers that is served on this port.
#[tactic(auto, unfolding(crate::specs::Peers::first_on))]
fn first_on(peers: &[Peer], most: usize, port: u16) -> Option<&[u8]>
    ensures { option_copied result ≡ terms.first_on port (take most peers.now) }
{
    if port == 0 {
        return None;
    }
    first_of_port(first_ones(peers, most), port)
}

/// The name of the first peer that has this port.
#[tactic(auto, unfolding(crate::specs::Peers::first_of_port))]
fn first_of_port(peers: &[Peer], port: u16) -> Option<&[u8]>
    ensures { option_copied result ≡ terms.first_of_port port peers.now }
{
    for other in peers {
        if other.port == port {
            return Some(other.name.as_slice());
        }
    }
    None
}

/// The name of the first peer that has this identity.
#[tactic(auto, unfolding(crate::specs::Peers::first_known_as))]
fn first_known_as<'a>(peers: &'a [Peer], identity: &[u8]) -> Option<&'a [u8]>
    ensures { option_copied result ≡ terms.first_known_as identity.now peers.now }
{
    for other in peers {
        if is(other.identity.as_slice(), identity) {
            return Some(other.name.as_slice());
        }
    }
    None
}
