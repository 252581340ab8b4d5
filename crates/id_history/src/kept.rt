//! What outlives a clean stop besides the buffers (docs/FORMATS.md, History file).
ghost use Rattle.std.specs.Prelude.{◌≡◌};

use cyc_token::Token;
use nntp_text::MsgId;

/// A message-id that is remembered.
pub struct KeptId {
    pub id: MsgId,
    /// The token under which its article is stored; `None` where an article was refused.
    pub token: Option<Token>,
    /// When it was stored or refused, in seconds since 1970-01-01 00:00:00 UTC.
    pub moment: u64,
}

// Written out, so that no crate above proves anew how each part is let go.
impl Drop for KeptId {
    fn drop(self) {
        let KeptId {
            id: _,
            token: _,
            moment: _,
        } = self;
    }
}

impl KeptId {
    /// The message-id alone.
    pub(crate) fn into_id(self) -> MsgId
        ensures { result ≡ self.id }
    {
        let KeptId {
            id,
            token: _,
            moment: _,
        } = self;
        id
    }
}

/// What is left of a feed.
pub struct KeptFeed {
    /// How many tokens it gained.
    pub gained: u64,
    /// How many of them were taken or passed over at the last take.
    pub passed: u64,
    /// How many of them were taken.
    pub taken: u64,
    /// Those that wait in its ring, the oldest first.
    pub waiting: Vec<Token>,
}

// Written out, so that no crate above proves anew how each part is let go.
impl Drop for KeptFeed {
    fn drop(self) {
        let KeptFeed {
            gained: _,
            passed: _,
            taken: _,
            waiting: _,
        } = self;
    }
}

/// What outlives a stop.
#[derive(Drop)]
pub struct History {
    /// The number of the stop, which the buffers have too.
    pub stop: u64,
    /// The number of the newest session; 0 where there was none.
    pub newest: u64,
    /// Of each group the place of its current buffer in it, counted from 0.
    pub positions: Vec<u32>,
    pub feeds: Vec<KeptFeed>,
    /// The message-ids that are remembered, rising by their octets.
    pub ids: Vec<KeptId>,
}

/// What a history has to fit: the parts of the configuration that it speaks of.
#[derive(Drop)]
pub struct Setting {
    /// How many buffers there are.
    pub buffers: u32,
    /// Of each group how many buffers it has.
    pub groups: Vec<u32>,
    /// Of each feed how many tokens its ring holds.
    pub rings: Vec<u32>,
}
