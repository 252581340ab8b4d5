//! The figures of a relay, of which a report is made (docs/FORMATS.md, Report): its buffers, its
//! feeds and its message-ids.
use block_shelf::BufferFigures;
use id_history::Counts;
use line_words::Octets;

/// A buffer's name, with its figures.
pub struct NamedBuffer {
    pub name: Octets,
    pub figures: BufferFigures,
}

// Written out, so that no crate above proves anew how each part is let go.
impl Drop for NamedBuffer {
    fn drop(self) {
        let NamedBuffer {
            name: _,
            figures: _,
        } = self;
    }
}

/// The figures of a feed, in tokens.
#[derive(Clone, Copy)]
pub struct FeedFigures {
    /// How many wait in the feed's ring.
    pub waiting: u64,
    /// How many the feed ever gained.
    pub gained: u64,
    /// How many of them were overwritten before they were taken.
    pub overwritten: u64,
}

/// The name of a feed's peer, with the feed's figures.
pub struct NamedFeed {
    pub peer: Octets,
    pub figures: FeedFigures,
}

// Written out, so that no crate above proves anew how each part is let go.
impl Drop for NamedFeed {
    fn drop(self) {
        let NamedFeed {
            peer: _,
            figures: _,
        } = self;
    }
}

/// The figures of a relay.
pub struct Figures {
    /// Of each buffer, in the order of the configuration.
    pub buffers: Vec<NamedBuffer>,
    /// Of each feed, in the order of the configuration.
    pub feeds: Vec<NamedFeed>,
    /// How many message-ids are known, by kind.
    pub ids: Counts,
}

// Written out, so that no crate above proves anew how each part is let go.
impl Drop for Figures {
    fn drop(self) {
        let Figures {
            buffers: _,
            feeds: _,
            ids: _,
        } = self;
    }
}
