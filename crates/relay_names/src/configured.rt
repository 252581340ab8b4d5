//! The names of a configuration.
ghost use Rattle.std.specs.Prelude.{◌≡◌, IfOk, map, slice_get};
ghost use Rattle.relay_names.specs.Names.{buffer_name, names_in, peer_name};
ghost use Rattle.relay_names.specs.Names as terms;
ghost use Rattle.relay_names.specs.Views.{group_view, names_view};

use crate::names::{GroupNames, Names, push_name};
use line_words::Octets;
use relay_conf::{BufferConf, Config, Feed, GroupConf, Peer};
use std::alloc::{AllocError, Global};

/// The names of a configuration, each kind in its order.
pub fn names_of(alloc: Global, config: &Config) -> Result<Names, AllocError>
    ensures { IfOk result (λ names. names_view names ≡ names_in config.now) }
{
    let buffers = buffer_names(alloc, &config.buffers.buffers)?;
    let groups = groups_named(alloc, &config.buffers.buffers, &config.buffers.groups)?;
    let feeds = feed_names(alloc, &config.relay.peers, &config.relay.feeds)?;
    Ok(Names {
        buffers,
        groups,
        feeds,
    })
}

/// The names of buffers.
fn buffer_names(alloc: Global, buffers: &[BufferConf]) -> Result<Vec<Octets>, AllocError>
    ensures { IfOk result (λ names. names.items ≡ map (λ buffer. buffer.name) buffers.now) }
{
    let mut names = Vec::new(alloc);
    for buffer in buffers {
        push_name(alloc, &mut names, buffer.name.as_slice())?;
    }
    Ok(names)
}

/// The names of groups, whose buffers are among these.
fn groups_named(
    alloc: Global,
    buffers: &[BufferConf],
    groups: &[GroupConf],
) -> Result<Vec<GroupNames>, AllocError>
    ensures { IfOk result (λ names.
        map group_view names.items ≡ map (terms.group_names buffers.now) groups.now) }
{
    let mut names = Vec::new(alloc);
    for group in groups {
        names.push(group_named(alloc, buffers, group)?)?;
    }
    Ok(names)
}

/// The names of a group, whose buffers are among these.
fn group_named(
    alloc: Global,
    buffers: &[BufferConf],
    group: &GroupConf,
) -> Result<GroupNames, AllocError>
    ensures { IfOk result (λ names. group_view names ≡ terms.group_names buffers.now group.now) }
{
    let name = Octets::copied(alloc, group.name.as_slice())?;
    let buffers = numbered_names(alloc, buffers, &group.buffers)?;
    Ok(GroupNames { name, buffers })
}

/// The names of the buffers of these numbers.
fn numbered_names(
    alloc: Global,
    buffers: &[BufferConf],
    numbers: &[usize],
) -> Result<Vec<Octets>, AllocError>
    ensures { IfOk result (λ names. names.items
        ≡ map (λ number. buffer_name (slice_get buffers.now number)) numbers.now) }
{
    let mut names = Vec::new(alloc);
    for number in numbers {
        push_name(alloc, &mut names, name_of_buffer(buffers, *number))?;
    }
    Ok(names)
}

/// The name of the buffer of a number; one that isn't there has none.
fn name_of_buffer(buffers: &[BufferConf], number: usize) -> &[u8]
    ensures { result.now ≡ buffer_name (slice_get buffers.now number) }
{
    match buffers.get(number) {
        Some(buffer) => buffer.name.as_slice(),
        None => b"",
    }
}

/// The names of the feeds' peers, which are among these.
fn feed_names(alloc: Global, peers: &[Peer], feeds: &[Feed]) -> Result<Vec<Octets>, AllocError>
    ensures { IfOk result (λ names. names.items
        ≡ map (λ feed. peer_name (slice_get peers.now feed.peer)) feeds.now) }
{
    let mut names = Vec::new(alloc);
    for feed in feeds {
        push_name(alloc, &mut names, name_of_peer(peers, feed.peer))?;
    }
    Ok(names)
}

/// The name of the peer of a number; one that isn't there has none.
fn name_of_peer(peers: &[Peer], number: u16) -> &[u8]
    ensures { result.now ≡ peer_name (slice_get peers.now number) }
{
    match peers.get(usize::from(number)) {
        Some(peer) => peer.name.as_slice(),
        None => b"",
    }
}
