//! What lines of relay.conf say of peers by their names, looked for after the last line
//! (docs/FORMATS.md, Configuration).
ghost use Rattle.std.specs.Prelude.{◌≡◌, ◌≤◌, length, map, IfOk};
ghost use Rattle.relay_conf.specs.Faults.{ConfGives};
ghost use Rattle.relay_conf.specs.Relay as terms;
ghost use Rattle.relay_conf.specs.RelayDraft.{named_said, numbered_allow, numbered_feed};

use crate::faults::{ConfError, Fault, LineFault};
use crate::reach::{Allow, NamedAllow};
use crate::relay::{Feed, NamedFeed, NamedLine, Peer, PeerConnections};
use line_words::is;
use std::alloc::{AllocError, Global};

/// Whether each name is that of a peer; else the first that is none, at its line.
pub(crate) fn known_names(peers: &[Peer], named: &[NamedLine]) -> Result<(), ConfError>
    ensures { ConfGives (λ done. done) result (named_said peers.now named.now) }
{
    for one in named {
        if !is_peer(peers, one.name.as_slice()) {
            return Err(ConfError::Faulty(LineFault {
                line: one.line,
                fault: Fault::UnknownName,
            }));
        }
    }
    Ok(())
}

/// Whether a peer has this name.
pub(crate) fn is_peer(peers: &[Peer], name: &[u8]) -> bool
    ensures { result ≡ terms.is_peer peers.now name.now }
{
    place_of_peer(peers, name) < peers.len()
}

/// The place of the peer of a name, or how many peers there are.
fn place_of_peer(peers: &[Peer], name: &[u8]) -> usize
    ensures { result ≡ terms.peer_number peers.now name.now }
{
    for (place, peer) in peers.iter().enumerate() {
        if is(name, peer.name.as_slice()) {
            return place;
        }
    }
    peers.len()
}

/// The number of the peer of a name, or how many peers there are.
fn number_of(peers: &[Peer], name: &[u8]) -> u16
    requires { length peers.now ≤ 1024 }
    ensures { result ≡ terms.peer_number peers.now name.now }
{
    place_of_peer(peers, name) as u16
}

/// The feeds by the numbers of their peers.
pub(crate) fn numbered(
    alloc: Global,
    peers: &[Peer],
    named: Vec<NamedFeed>,
) -> Result<Vec<Feed>, AllocError>
    requires { length peers.now ≤ 1024 }
    ensures { IfOk result (λ feeds. feeds.items ≡ map (numbered_feed peers.now) named.items) }
{
    let mut feeds = Vec::new(alloc);
    for feed in named {
        let NamedFeed {
            name,
            ring,
            expression,
            hash,
        } = feed;
        let peer = number_of(peers, name.as_slice());
        feeds.push(Feed {
            peer,
            ring,
            expression,
            hash,
        })?;
    }
    Ok(feeds)
}

/// The ranges of addresses by the numbers of their peers.
pub(crate) fn numbered_allows(
    alloc: Global,
    peers: &[Peer],
    named: Vec<NamedAllow>,
) -> Result<Vec<Allow>, AllocError>
    requires { length peers.now ≤ 1024 }
    ensures { IfOk result (λ allows. allows.items ≡ map (numbered_allow peers.now) named.items) }
{
    let mut allows = Vec::new(alloc);
    for allow in named {
        let NamedAllow { name, range } = allow;
        let peer = number_of(peers, name.as_slice());
        allows.push(Allow { peer, range })?;
    }
    Ok(allows)
}

/// Gives the peers their connections.
pub(crate) fn connect(peers: &mut [Peer], all: &[PeerConnections])
    ensures { peers.new ≡ map (terms.connected all.now) peers.old }
{
    for peer in peers.iter_mut() {
        peer.connections = connections_for(all, peer.name.as_slice());
    }
}

/// How many connections of the peer of a name are served at once.
fn connections_for(all: &[PeerConnections], name: &[u8]) -> u32
    ensures { result ≡ terms.connections_for all.now name.now }
{
    for one in all {
        if is(name, one.name.as_slice()) {
            return one.connections;
        }
    }
    1
}
