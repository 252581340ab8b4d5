//! What a configuration takes of the machine, added up.
ghost use Rattle.std.specs.Prelude.{◌≡◌, ◌*◌, ◌^◌, ◌≤◌, length};
ghost use Rattle.relay_explain.specs.Sums as terms;
ghost use Rattle.relay_explain.specs.Text.{Adds};

use crate::buffers::file_octets;
use crate::text::Text;
use relay_conf::{BufferConf, Config, Feed, Peer};

/// Puts what a configuration takes of the machine.
#[tactic(auto, unfolding(crate::specs::Sums::wants_text))]
pub(crate) fn put_wants(text: Text, config: &Config) -> Text
    ensures { Adds text result (terms.wants_text config.now) }
{
    text.add(b"disk: ")
        .add_number(disk_of(&config.buffers.buffers))
        .add(b" octets in the files of buffers\nmemory: ")
        .add_number(memory_of(config))
        .add(b" octets from the start, at most 770000 more for each of ")
        .add_number(connections_of(&config.relay.peers))
        .add(b" connections, and what ids and articles take\ndescriptors: ")
        .add_number(descriptors_of(config))
        .add(b"\n")
}

/// The octets that all files of buffers have.
#[tactic(auto, unfolding(crate::specs::Sums::disk_of))]
fn disk_of(buffers: &[BufferConf]) -> u128
    ensures { result ≡ terms.disk_of buffers.now }
{
    let mut octets = 0;
    for buffer in buffers {
        octets += u128::from(file_octets(buffer.blocks));
    }
    octets
}

/// The octets of memory that all buffers take from the start.
#[tactic(auto, unfolding(crate::specs::Sums::marks_of))]
fn marks_of(buffers: &[BufferConf]) -> u128
    ensures value { result ≡ terms.marks_of buffers.now }
    ensures most { result ≤ length buffers.now * 2 ^ 37 }
{
    let mut octets = 0;
    for buffer in buffers {
        octets += u128::from(buffer.blocks) * 16 + u128::from(buffer.blocks / 4);
    }
    octets
}

/// The octets of memory that all rings take from the start.
#[tactic(auto, unfolding(crate::specs::Sums::rings_of))]
fn rings_of(feeds: &[Feed]) -> u128
    ensures value { result ≡ terms.rings_of feeds.now }
    ensures most { result ≤ length feeds.now * 2 ^ 36 }
{
    let mut octets = 0;
    for feed in feeds {
        octets += u128::from(feed.ring) * 16;
    }
    octets
}

/// The connections that are served at once.
#[tactic(auto, unfolding(crate::specs::Sums::connections_of))]
fn connections_of(peers: &[Peer]) -> u128
    ensures value { result ≡ terms.connections_of peers.now }
    ensures most { result ≤ length peers.now * 2 ^ 32 }
{
    let mut connections = 0;
    for peer in peers {
        connections += u128::from(served_of(peer));
    }
    connections
}

/// The connections of a peer that are served at once.
fn served_of(peer: &Peer) -> u32
    ensures { result ≡ terms.served_of peer.now }
{
    if peer.port == 0 { 0 } else { peer.connections }
}

/// The ports.
#[tactic(auto, unfolding(crate::specs::Sums::ports_of))]
fn ports_of(peers: &[Peer]) -> u128
    ensures value { result ≡ terms.ports_of peers.now }
    ensures most { result ≤ length peers.now * 2 ^ 32 }
{
    let mut ports = 0;
    for peer in peers {
        ports += u128::from(port_of(peer));
    }
    ports
}

/// The ports of a peer.
fn port_of(peer: &Peer) -> u32
    ensures { result ≡ terms.port_of peer.now }
{
    if peer.port == 0 { 0 } else { 1 }
}

/// The octets of memory from the start.
#[tactic(auto, unfolding(crate::specs::Sums::memory_of))]
fn memory_of(config: &Config) -> u128
    ensures { result ≡ terms.memory_of config.now }
{
    let marks = marks_of(&config.buffers.buffers);
    let runs = config.buffers.buffers.len() as u128 * 131_072;
    let rings = rings_of(&config.relay.feeds);
    let groups = config.buffers.groups.len() as u128;
    marks + runs + rings + groups * 6_000 + 8_454_144
}

/// The descriptors that are open at once.
#[tactic(auto, unfolding(crate::specs::Sums::descriptors_of))]
fn descriptors_of(config: &Config) -> u128
    ensures { result ≡ terms.descriptors_of config.now }
{
    let openings = openings_of(config.relay.sync, config.buffers.buffers.len());
    let connections = connections_of(&config.relay.peers);
    let ports = ports_of(&config.relay.peers);
    let addresses = config.relay.binds.len() as u128;
    openings + connections * (addresses + 2) + ports * (addresses * 2) + 6
}

/// The descriptors of so many files of buffers.
fn openings_of(sync: Option<u64>, files: usize) -> u128
    ensures value { result ≡ terms.openings_of sync files }
    ensures most { result ≤ files * 2 }
{
    match sync {
        None => files as u128,
        Some(_) => files as u128 * 2,
    }
}
