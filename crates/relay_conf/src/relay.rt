//! relay.conf: the relay itself, its peers and their feeds (docs/FORMATS.md, Configuration).
ghost use Rattle.std.specs.Prelude.{◌≡◌, ◌≤◌, ◌∷◌, ◌++◌, [], length, Ok, OnOk};
ghost use Rattle.relay_conf.specs.Faults.{ConfGives, LineGives};
ghost use Rattle.relay_conf.specs.Lines.{lines_of};
ghost use Rattle.relay_conf.specs.Relay.{RelaySettings, peer_fault};
ghost use Rattle.relay_conf.specs.RelayDraft.{AddsAllow, AddsConnections, AddsFeed, AddsLine};
ghost use Rattle.relay_conf.specs.RelayDraft.{Lists, nothing};
ghost use Rattle.relay_conf.specs.RelayDraft.{draft_view, draft_said, with_peers};
ghost use Rattle.relay_conf.specs.RelayViews.{relay_view, ranges_in, raw_view, RelayGives};
ghost use Rattle.relay_conf.specs.SoundRelay.{IsSoundRelay};

use crate::binds::{add_bind, binds_or_each};
use crate::drafts::{LineByLine, read_lines, set_once};
use crate::expressions::expression_of;
use crate::faults::{ConfError, Fault, LineFault, Refusal};
use crate::hash_feeds::HashFeed;
use crate::kept::{push_connections, push_feed, push_named, push_peer};
use crate::names::add_name;
use crate::peers::{connect, is_peer, known_names, numbered, numbered_allows};
use crate::reach::{NamedAllow, push_ranges};
use crate::relay_lines::{Line, relay_line};
use crate::settings::{NewsLog, Relay};
use line_words::Octets;
use std::alloc::Global;
use std::collections::HashSet;
use uwild::Expr;

/// A peer: its name, its identity, its port, where 0 is not served, and how many of its connections
/// are served at once.
#[derive(Drop)]
pub struct Peer {
    pub name: Octets,
    pub identity: Octets,
    pub port: u16,
    pub connections: u32,
}

/// How many connections of a peer are served at once, by its name.
#[derive(Drop)]
pub struct PeerConnections {
    pub name: Octets,
    pub connections: u32,
}

/// A feed: the number of its peer, the tokens that its ring holds, the newsgroups that it takes,
/// and the part of the articles that it may have; all of them where none is set.
#[derive(Drop)]
pub struct Feed {
    pub peer: u16,
    pub ring: u32,
    pub expression: Expr,
    pub hash: Option<HashFeed>,
}

/// The articles' largest size without `maxart`.
const MAX_ARTICLE: u32 = 1_000_000;

/// The age without `cutoff`.
const CUTOFF: u64 = 864_000;

/// The seconds without `patience`.
const PATIENCE: u32 = 3_600;

/// Reads the text of relay.conf.
pub fn read_relay(alloc: Global, text: &[u8]) -> Result<Relay, ConfError>
    ensures { RelayGives result (lines_of text.now) }
{
    let draft = read_lines(alloc, &(), RelayDraft::new(alloc), text)?;
    finished(alloc, draft)
}

/// What the lines so far say.
#[derive(Drop)]
pub(crate) struct RelayDraft {
    own: Option<Octets>,
    max_article: Option<u32>,
    cutoff: Option<u64>,
    remember: Option<u64>,
    patience: Option<u32>,
    sync: Option<u64>,
    offers: Option<u64>,
    log: Option<NewsLog>,
    binds: Vec<[u8; 16]>,
    peers: Vec<Peer>,
    connections: Vec<PeerConnections>,
    feeds: Vec<NamedFeed>,
    allows: Vec<NamedAllow>,
    /// The names of peers that lines say something of.
    named: Vec<NamedLine>,
    /// The names of the connections.
    connected_names: HashSet<String>,
    /// The names of the feeds.
    feed_names: HashSet<String>,
}

/// The number of a line, and the name of the peer that it says something of.
#[derive(Drop)]
pub(crate) struct NamedLine {
    pub(crate) line: usize,
    pub(crate) name: Octets,
}

/// A feed by the name of its peer.
#[derive(Drop)]
pub(crate) struct NamedFeed {
    pub(crate) name: Octets,
    pub(crate) ring: u32,
    pub(crate) expression: Expr,
    pub(crate) hash: Option<HashFeed>,
}

impl LineByLine for RelayDraft {
    ghost use Rattle.relay_conf.specs.RelayLines.{SaidLine, LineSays};
    ghost use Rattle.relay_conf.specs.Relay.{early_fault};
    ghost use Rattle.relay_conf.specs.RelayDraft.{IsDraftOf};

    type Over = ();

    ghost Said = { SaidLine };

    ghost Says = { LineSays };

    ghost wrong = { λ over. early_fault };

    ghost Draws = { λ over. IsDraftOf };

    fn add_line(
        &mut self,
        alloc: Global,
        _over: &(),
        number: usize,
        line: &[u8],
    ) -> Result<(), Refusal> {
        match relay_line(line) {
            Ok(said) => self.add(alloc, number, said),
            Err(fault) => Err(Refusal::Faulty(fault)),
        }
    }
}

impl RelayDraft {
    fn new(alloc: Global) -> RelayDraft
        ensures stand { draft_view result ≡ nothing }
        ensures listed { Lists result }
    {
        RelayDraft {
            own: None,
            max_article: None,
            cutoff: None,
            remember: None,
            patience: None,
            sync: None,
            offers: None,
            log: None,
            binds: Vec::new(alloc),
            peers: Vec::new(alloc),
            connections: Vec::new(alloc),
            feeds: Vec::new(alloc),
            allows: Vec::new(alloc),
            named: Vec::new(alloc),
            connected_names: HashSet::new(alloc),
            feed_names: HashSet::new(alloc),
        }
    }

    /// Adds what the line of this number says.
    fn add(&mut self, alloc: Global, number: usize, said: Line<'_>) -> Result<(), Refusal>
        ensures { Lists self.old
            → AddsLine number (Ok (raw_view said.entry)) self.old self.new result }
    {
        match said {
            Line::Skipped => Ok(()),
            Line::Own(own) => set_once(&mut self.own, Octets::copied(alloc, own)?),
            Line::MaxArticle(octets) => set_once(&mut self.max_article, octets),
            Line::Cutoff(seconds) => set_once(&mut self.cutoff, seconds),
            Line::Remember(seconds) => set_once(&mut self.remember, seconds),
            Line::Patience(seconds) => set_once(&mut self.patience, seconds),
            Line::Sync(seconds) => set_once(&mut self.sync, seconds),
            Line::Offers(seconds) => set_once(&mut self.offers, seconds),
            Line::Log(all, path) => {
                let path = Octets::copied(alloc, path)?;
                set_once(&mut self.log, NewsLog { all, path })
            }
            Line::Bind(address) => add_bind(&mut self.binds, address),
            Line::Peer(name, identity, port) => self.add_peer(alloc, name, identity, port),
            Line::Connections(name, connections) => {
                self.add_connections(alloc, number, name, connections)
            }
            Line::Allow(name, ranges) => self.add_allow(alloc, number, name, ranges),
            Line::Feed(name, ring, text, hash) => {
                self.add_feed(alloc, number, name, ring, text, hash)
            }
        }
    }

    /// Adds a peer.
    fn add_peer(
        &mut self,
        alloc: Global,
        name: &[u8],
        identity: &[u8],
        port: u16,
    ) -> Result<(), Refusal>
        ensures fault { LineGives result (peer_fault self.old.peers.items name.now) }
        ensures peers { OnOk result (draft_view self.new ≡ with_peers (draft_view self.old)
            (self.old.peers.items
            ++ record { name = name.now; identity = identity.now; port = port; connections = 1 }
            ∷ [])) }
        ensures names { OnOk result (self.new.feed_names ≡ self.old.feed_names) }
        ensures connected { OnOk result (self.new.connected_names ≡ self.old.connected_names) }
    {
        if self.peers.len() >= 1_024 {
            return Err(Refusal::Faulty(Fault::Number));
        }
        if is_peer(&self.peers, name) {
            return Err(Refusal::Faulty(Fault::Duplicate));
        }
        push_peer(alloc, &mut self.peers, name, identity, port)?;
        Ok(())
    }

    /// Adds the connections of a peer.
    fn add_connections(
        &mut self,
        alloc: Global,
        line: usize,
        name: &str,
        connections: u32,
    ) -> Result<(), Refusal>
        ensures { AddsConnections line name.now connections self.old self.new result }
    {
        if !add_name(alloc, &mut self.connected_names, name)? {
            return Err(Refusal::Faulty(Fault::Duplicate));
        }
        let name = name.as_bytes();
        push_connections(alloc, &mut self.connections, name, connections)?;
        push_named(alloc, &mut self.named, line, name)?;
        Ok(())
    }

    /// Adds the ranges of addresses that may connect to a peer.
    fn add_allow(
        &mut self,
        alloc: Global,
        line: usize,
        name: &str,
        ranges: &[u8],
    ) -> Result<(), Refusal>
        ensures { AddsAllow line name.now (ranges_in ranges.now) self.old self.new result }
    {
        let name = name.as_bytes();
        push_ranges(alloc, &mut self.allows, name, ranges)?;
        push_named(alloc, &mut self.named, line, name)?;
        Ok(())
    }

    /// Adds a feed.
    fn add_feed(
        &mut self,
        alloc: Global,
        line: usize,
        name: &str,
        ring: u32,
        text: &[u8],
        hash: Option<HashFeed>,
    ) -> Result<(), Refusal>
        ensures { AddsFeed line name.now ring text.now hash self.old self.new result }
    {
        let expression = expression_of(alloc, text)?;
        if !add_name(alloc, &mut self.feed_names, name)? {
            return Err(Refusal::Faulty(Fault::Duplicate));
        }
        let name = name.as_bytes();
        push_feed(alloc, &mut self.feeds, name, ring, expression, hash)?;
        push_named(alloc, &mut self.named, line, name)?;
        Ok(())
    }
}

/// The settings, or the first fault that is looked for after the last line.
fn finished(alloc: Global, draft: RelayDraft) -> Result<Relay, ConfError>
    requires few { length draft.peers.items ≤ 1024 }
    requires sound { (settings : RelaySettings) → draft_said (draft_view draft) ≡ Ok settings
        → IsSoundRelay settings }
    ensures { ConfGives relay_view result (draft_said (draft_view draft)) }
{
    let RelayDraft {
        own,
        max_article,
        cutoff,
        remember,
        patience,
        sync,
        offers,
        log,
        binds,
        mut peers,
        connections,
        feeds,
        allows,
        named,
        connected_names,
        feed_names,
    } = draft;
    drop(connected_names);
    drop(feed_names);
    let Some(own) = own else {
        return Err(ConfError::Faulty(LineFault {
            line: 0,
            fault: Fault::Syntax,
        }));
    };
    known_names(&peers, &named)?;
    drop(named);
    let feeds = numbered(alloc, &peers, feeds)?;
    let allows = numbered_allows(alloc, &peers, allows)?;
    let binds = binds_or_each(binds)?;
    connect(&mut peers, &connections);
    Ok(Relay {
        own,
        max_article: max_article.unwrap_or(MAX_ARTICLE),
        cutoff: cutoff.unwrap_or(CUTOFF),
        remember,
        patience: patience.unwrap_or(PATIENCE),
        sync,
        offers,
        log,
        binds,
        peers,
        feeds,
        allows,
    })
}
