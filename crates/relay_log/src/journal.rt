//! What a journal has (docs/FORMATS.md, Journal file).
use cyc_token::Token;
use nntp_text::MsgId;

/// What a relay did that its buffers don't tell after a crash.
pub enum Entry {
    /// An article was refused.
    Refused {
        id: MsgId,
        /// When, in seconds since 1970-01-01 00:00:00 UTC.
        moment: u64,
    },
    /// An article was stored.
    Stored {
        id: MsgId,
        /// When, in seconds since 1970-01-01 00:00:00 UTC.
        moment: u64,
        /// The token under which it lies.
        token: Token,
    },
    /// The peer of a feed took tokens. The numbers are those behind the take.
    Taken {
        /// The number of the feed, counted from 0 in the order of the configuration.
        feed: u16,
        /// How many tokens it gained.
        gained: u64,
        /// How many of them were taken or passed over.
        passed: u64,
        /// How many of them were taken.
        taken: u64,
    },
}

// Written out, so that no crate above proves anew how each part is let go.
impl Drop for Entry {
    fn drop(self) {
        match self {
            Entry::Refused { id: _, moment: _ } => {}
            Entry::Stored {
                id: _,
                moment: _,
                token: _,
            } => {}
            Entry::Taken {
                feed: _,
                gained: _,
                passed: _,
                taken: _,
            } => {}
        }
    }
}

/// A journal that was read.
#[derive(Drop)]
pub struct Journal {
    /// The number of the stop that it begins after.
    pub stop: u64,
    pub entries: Vec<Entry>,
    /// How many octets the front and the entries have: where the next entry goes.
    pub octets: usize,
}
