//! The settings of the configuration's files, with what holds of each value of them
//! (docs/FORMATS.md, Configuration).
ghost use Rattle.std.specs.Prelude.{◌≤◌, ◌<◌, ◌^◌, All, length, map};
ghost use Rattle.std.proofs.Props.{props};
ghost use Rattle.news_terms.specs.Settings.{AreSound};
ghost use Rattle.news_terms.proofs.OneSoundness.{AreSound-prop};
ghost use Rattle.relay_conf.specs.Places.{group_view, groups_over, numbered_buffers};
ghost use Rattle.relay_conf.specs.SoundRelay.{IsSoundRelay};

use crate::cycbuff::{BufferConf, GroupConf};
use crate::reach::Allow;
use crate::relay::{Feed, Peer};
use line_words::Octets;
use uwild::Expr;

/// The settings of cycbuff.conf. Buffers and groups are numbered from 0, each in the order of their
/// lines.
pub struct Buffers {
    pub buffers: Vec<BufferConf>,
    pub groups: Vec<GroupConf>,
    pub ghost sound: { AreSound (numbered_buffers buffers.items)
        (groups_over buffers.items (map group_view groups.items)) } by { AreSound-prop _ _ },
    pub ghost few_buffers: { length buffers.items ≤ 256 },
    pub ghost few_groups: { length groups.items ≤ 256 },
}

// Written out, so that no crate above proves anew how each part is let go.
impl Drop for Buffers {
    fn drop(self) {
        let Buffers {
            buffers: _,
            groups: _,
        } = self;
    }
}

/// An entry of storage.conf: the articles that it takes, their class, and the number of the group
/// of buffers that they go to. Sizes are in octets, both ends included; no upper limit is `None`.
pub struct StorageEntry {
    pub class: u8,
    pub newsgroups: Expr,
    pub group: u16,
    pub smallest: u64,
    pub largest: Option<u64>,
    pub exactmatch: bool,
    pub ghost fits: { class < 2 ^ 8 },
}

// Written out, so that no crate above proves anew how each part is let go.
impl Drop for StorageEntry {
    fn drop(self) {
        let StorageEntry {
            class: _,
            newsgroups: _,
            group: _,
            smallest: _,
            largest: _,
            exactmatch: _,
        } = self;
    }
}

/// Where lines of what became of articles are written (docs/FORMATS.md, relay.conf).
#[derive(Drop)]
pub struct NewsLog {
    /// Whether accepted articles have lines too; refused ones have them always.
    pub all: bool,
    /// The path of the file; a relative one is in the relay's folder.
    pub path: Octets,
}

/// The settings of relay.conf. Peers and feeds are numbered from 0, each in the order of their
/// lines.
pub struct Relay {
    /// The relay's own identity.
    pub own: Octets,
    /// The octets of the largest article that is received.
    pub max_article: u32,
    /// The age in seconds past which an article is refused.
    pub cutoff: u64,
    /// The seconds after which an id may be forgotten; without it none is.
    pub remember: Option<u64>,
    /// The seconds for which a silent peer is waited for.
    pub patience: u32,
    /// The seconds between two flushes of the files of the buffers while the relay is served;
    /// without it there is none.
    pub sync: Option<u64>,
    /// The seconds after which an offer runs out; without it none does.
    pub offers: Option<u64>,
    /// Where lines of what became of articles are written; without it nowhere.
    pub log: Option<NewsLog>,
    /// The addresses of the machine on which ports listen, at least one, in the order of their
    /// lines. An IPv4 address is its IPv4-mapped one; 0.0.0.0 stands for all of IPv4.
    pub binds: Vec<[u8; 16]>,
    pub peers: Vec<Peer>,
    pub feeds: Vec<Feed>,
    /// The addresses that may connect to the peers; each may to a peer without one.
    pub allows: Vec<Allow>,
    pub ghost sound: { IsSoundRelay (record {
      own = own;
      max_article = max_article;
      cutoff = cutoff;
      remember = remember;
      patience = patience;
      sync = sync;
      offers = offers;
      log = log;
      binds = binds.items;
      peers = peers.items;
      feeds = feeds.items;
      allows = allows.items;
    }) } by { Prim.hlevel props },
}

// Written out, so that no crate above proves anew how each part is let go.
impl Drop for Relay {
    fn drop(self) {
        let Relay {
            own: _,
            max_article: _,
            cutoff: _,
            remember: _,
            patience: _,
            sync: _,
            offers: _,
            log: _,
            binds: _,
            peers: _,
            feeds: _,
            allows: _,
        } = self;
    }
}

/// The settings of the three files.
pub struct Config {
    pub buffers: Buffers,
    pub storage_entries: Vec<StorageEntry>,
    pub relay: Relay,
    pub ghost grouped: { All (λ storage_entry. storage_entry.group < length buffers.groups.items)
        storage_entries.items },
}

// Written out, so that no crate above proves anew how each part is let go.
impl Drop for Config {
    fn drop(self) {
        let Config {
            buffers: _,
            storage_entries: _,
            relay: _,
        } = self;
    }
}
