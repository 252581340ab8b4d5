//! The ports of the peers (docs/FORMATS.md, relay.conf).
ghost use Rattle.std.specs.Prelude.{◌≡◌, ◌≢◌, ◌+◌, ◌*◌, ◌≤◌, ◌∷◌, ◌++◌, [], ℕ, Option, List, All};
ghost use Rattle.std.specs.Prelude.{Any, IfErr, IfOk, OnOk, length, map, replicate};
ghost use Rattle.live_wire.specs.Ports.{callers_of, left_of};
ghost use Rattle.relay_conf.specs.declared.reach.Allow.{Allow};
ghost use Rattle.relay_conf.specs.declared.relay.Peer.{Peer};
ghost use Rattle.relay_ports.specs.Callers.{AreCallers, HasCallers, LetsIn};
ghost use Rattle.relay_ports.specs.Ports.{IsPortFault, ends_from, lost_port};
ghost use Rattle.relay_ports.specs.Ports as terms;

use live_wire::{Callers, Door, Port, Stop};
use relay_conf::{Peer, Relay};
use relay_live::PeerSource;
use relay_report::{LostPort, Reason, ServeError};
use std::alloc::{AllocError, Global};
use std::io::ErrorKind;
use std::net::{Net, TcpListener, TcpStream};

/// The peer sources of each peer that has a port, in the order of the peers: so many for each as
/// its connections are served at once, all of them behind its one port. Each takes so many
/// connections of those that may reach its peer, without a number as many as come, until it is told
/// to stop. The error is want of memory, or the first port that can't be had.
pub fn open_ports<'a, N: Net<Listener = TcpListener, Stream = TcpStream>>(
    net: &N,
    alloc: Global,
    relay: &Relay,
    sessions: Option<u32>,
    callers: &'a [Callers<'a>],
    stop: &'a Stop,
) -> Result<Vec<PeerSource<Port<'a>>>, ServeError>
    requires { AreCallers relay.now callers.now }
    ensures peers { IfOk result (λ peer_sources.
        map (λ peer_source. peer_source.peer) peer_sources.items
        ≡ ends_from 0 relay.now.peers.items) }
    ensures left { IfOk result (λ peer_sources.
        All (λ peer_source. left_of peer_source.connections ≡ sessions) peer_sources.items) }
    ensures callers { IfOk result (λ peer_sources.
        All (HasCallers relay.now.allows.items) peer_sources.items) }
    ensures few { IfOk result (λ peer_sources. length peer_sources.items ≤ 64 * 1024) }
    ensures fault { IfErr result (IsPortFault relay.now.peers.items) }
{
    let mut peer_sources = Vec::new(alloc);
    match listen_all(
        net,
        alloc,
        relay,
        sessions,
        callers,
        stop,
        &mut peer_sources,
    ) {
        Ok(()) => Ok(peer_sources),
        Err(error) => {
            drop(peer_sources);
            Err(error)
        }
    }
}

/// Adds the peer sources of each peer that has a port to none.
fn listen_all<'a, N: Net<Listener = TcpListener, Stream = TcpStream>>(
    net: &N,
    alloc: Global,
    relay: &Relay,
    sessions: Option<u32>,
    callers: &'a [Callers<'a>],
    stop: &'a Stop,
    peer_sources: &mut Vec<PeerSource<Port<'a>>>,
) -> Result<(), ServeError>
    requires callers { AreCallers relay.now callers.now }
    requires none { peer_sources.old.items ≡ [] }
    ensures peers { OnOk result (map (λ peer_source. peer_source.peer) peer_sources.new.items
        ≡ ends_from 0 relay.now.peers.items) }
    ensures left { OnOk result
        (All (λ peer_source. left_of peer_source.connections ≡ sessions) peer_sources.new.items) }
    ensures callers { OnOk result (All (HasCallers relay.now.allows.items) peer_sources.new.items) }
    ensures few { OnOk result (length peer_sources.new.items ≤ 64 * 1024) }
    ensures fault { IfErr result (IsPortFault relay.now.peers.items) }
{
    for (number, peer) in relay.peers.iter().enumerate() {
        if peer.port == 0 {
            continue;
        }
        let own = &callers[number];
        match Port::listen(net, alloc, peer.port, sessions, own, stop) {
            Ok(first) => add_peer_sources(peer_sources, number, peer, first)?,
            Err(error) => return Err(lost(peer, error.kind())),
        }
    }
    Ok(())
}

/// Adds the peer sources of a peer, the one of this port last; the others are behind the same port.
fn add_peer_sources<'a>(
    peer_sources: &mut Vec<PeerSource<Port<'a>>>,
    number: usize,
    peer: &Peer,
    first: Port<'a>,
) -> Result<(), ServeError>
    requires some { 1 ≤ peer.now.connections }
    requires port { peer.now.port ≢ 0 }
    ensures peers { OnOk result (map (λ peer_source. peer_source.peer) peer_sources.new.items
        ≡ map (λ peer_source. peer_source.peer) peer_sources.old.items
        ++ replicate peer.now.connections number) }
    ensures count { OnOk result (length peer_sources.new.items
        ≡ length peer_sources.old.items + peer.now.connections) }
    ensures left { (left : Option ℕ) → left_of first.entry ≡ left
        → All (λ peer_source. left_of peer_source.connections ≡ left) peer_sources.old.items
        → OnOk result
        (All (λ peer_source. left_of peer_source.connections ≡ left) peer_sources.new.items) }
    ensures callers { (allows : List Allow) → LetsIn allows number (callers_of first.entry)
        → All (HasCallers allows) peer_sources.old.items
        → OnOk result (All (HasCallers allows) peer_sources.new.items) }
    ensures fault { (peers : List Peer) → Any (λ one. one.port ≡ peer.now.port) peers
        → IfErr result (IsPortFault peers) }
{
    match add_further(peer_sources, number, peer, &first) {
        Ok(()) => {
            add_peer_source(peer_sources, number, first)?;
            Ok(())
        }
        Err(error) => {
            drop(first);
            Err(error)
        }
    }
}

/// Adds the peer sources of a peer but the last, behind the same port as that.
fn add_further<'a>(
    peer_sources: &mut Vec<PeerSource<Port<'a>>>,
    number: usize,
    peer: &Peer,
    last: &Port<'a>,
) -> Result<(), ServeError>
    requires some { 1 ≤ peer.now.connections }
    requires port { peer.now.port ≢ 0 }
    ensures peers { OnOk result (map (λ peer_source. peer_source.peer) peer_sources.new.items
        ++ number ∷ [] ≡ map (λ peer_source. peer_source.peer) peer_sources.old.items
        ++ replicate peer.now.connections number) }
    ensures count { OnOk result (length peer_sources.new.items + 1
        ≡ length peer_sources.old.items + peer.now.connections) }
    ensures left { (left : Option ℕ) → left_of last.now ≡ left
        → All (λ peer_source. left_of peer_source.connections ≡ left) peer_sources.old.items
        → OnOk result
        (All (λ peer_source. left_of peer_source.connections ≡ left) peer_sources.new.items) }
    ensures callers { (allows : List Allow) → LetsIn allows number (callers_of last.now)
        → All (HasCallers allows) peer_sources.old.items
        → OnOk result (All (HasCallers allows) peer_sources.new.items) }
    ensures fault { (peers : List Peer) → Any (λ one. one.port ≡ peer.now.port) peers
        → IfErr result (IsPortFault peers) }
{
    for _ in 1..peer.connections {
        match last.another() {
            Ok(connections) => add_peer_source(peer_sources, number, connections)?,
            Err(error) => return Err(lost(peer, error.kind())),
        }
    }
    Ok(())
}

/// The fault of the port of a peer, or want of memory.
fn lost(peer: &Peer, kind: ErrorKind) -> ServeError
    ensures { result ≡ lost_port peer.now.port kind }
{
    if is_want_of_memory(kind) {
        return ServeError::Memory;
    }
    ServeError::Port(LostPort {
        number: peer.port,
        reason: port_reason(kind),
    })
}

/// Whether the error is want of memory.
fn is_want_of_memory(kind: ErrorKind) -> bool
    ensures { result ≡ terms.is_want_of_memory kind }
{
    matches!(kind, ErrorKind::OutOfMemory)
}

/// Why a port can't be had.
fn port_reason(kind: ErrorKind) -> Reason
    ensures { result ≡ terms.port_reason kind }
{
    match kind {
        ErrorKind::AddrInUse => Reason::InUse,
        ErrorKind::PermissionDenied => Reason::NoRight,
        ErrorKind::AddrNotAvailable => Reason::NoAddress,
        _ => Reason::Refused,
    }
}

/// The doors of the ports behind which these are, one of each: none where each port takes so many
/// connections and no more, for one that comes behind those, and none of a port whose door can't be
/// had.
pub fn open_doors<'a>(
    alloc: Global,
    peer_sources: &[PeerSource<Port<'a>>],
    sessions: Option<u32>,
) -> Result<Vec<Door<'a>>, AllocError> {
    let mut doors = Vec::new(alloc);
    if sessions.is_some() {
        return Ok(doors);
    }
    let mut last = None;
    for peer_source in peer_sources {
        if last != Some(peer_source.peer) {
            last = Some(peer_source.peer);
            if let Ok(door) = peer_source.connections.door() {
                doors.push(door)?;
            }
        }
    }
    Ok(doors)
}

/// Adds a peer source.
fn add_peer_source<'a>(
    peer_sources: &mut Vec<PeerSource<Port<'a>>>,
    peer: usize,
    connections: Port<'a>,
) -> Result<(), AllocError>
    ensures { OnOk result (peer_sources.new.items
        ≡ peer_sources.old.items ++ record { peer = peer; connections = connections.entry } ∷ []) }
{
    peer_sources.push(PeerSource { peer, connections })?;
    Ok(())
}
