//! What is kept of the lines of relay.conf while they are read.
ghost use Rattle.std.specs.Prelude.{◌≡◌, ◌∷◌, ◌++◌, [], OnOk};

use crate::hash_feeds::HashFeed;
use crate::relay::{NamedFeed, NamedLine, Peer, PeerConnections};
use line_words::Octets;
use std::alloc::{AllocError, Global};
use uwild::Expr;

/// Keeps a peer, one of whose connections is served at once.
pub(crate) fn push_peer(
    alloc: Global,
    peers: &mut Vec<Peer>,
    name: &[u8],
    identity: &[u8],
    port: u16,
) -> Result<(), AllocError>
    ensures { OnOk result (peers.new.items ≡ peers.old.items
        ++ record { name = name.now; identity = identity.now; port = port; connections = 1 } ∷ []) }
{
    let name = Octets::copied(alloc, name)?;
    let identity = Octets::copied(alloc, identity)?;
    peers.push(Peer {
        name,
        identity,
        port,
        connections: 1,
    })?;
    Ok(())
}

/// Keeps the connections of a peer.
pub(crate) fn push_connections(
    alloc: Global,
    kept: &mut Vec<PeerConnections>,
    name: &[u8],
    connections: u32,
) -> Result<(), AllocError>
    ensures { OnOk result (kept.new.items
        ≡ kept.old.items ++ record { name = name.now; connections = connections } ∷ []) }
{
    let name = Octets::copied(alloc, name)?;
    kept.push(PeerConnections { name, connections })?;
    Ok(())
}

/// Keeps a feed by the name of its peer.
pub(crate) fn push_feed(
    alloc: Global,
    feeds: &mut Vec<NamedFeed>,
    name: &[u8],
    ring: u32,
    expression: Expr,
    hash: Option<HashFeed>,
) -> Result<(), AllocError>
    ensures { OnOk result (feeds.new.items ≡ feeds.old.items
        ++ record { name = name.now; ring = ring; expression = expression; hash = hash } ∷ []) }
{
    let name = Octets::copied(alloc, name)?;
    feeds.push(NamedFeed {
        name,
        ring,
        expression,
        hash,
    })?;
    Ok(())
}

/// Keeps the number of a line and the name that it says something of.
pub(crate) fn push_named(
    alloc: Global,
    named: &mut Vec<NamedLine>,
    line: usize,
    name: &[u8],
) -> Result<(), AllocError>
    ensures { OnOk result (named.new.items
        ≡ named.old.items ++ record { line = line; name = name.now } ∷ []) }
{
    let name = Octets::copied(alloc, name)?;
    named.push(NamedLine { line, name })?;
    Ok(())
}
