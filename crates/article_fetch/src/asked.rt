//! What a fetch asks.
ghost use Rattle.std.specs.Prelude.{◌≡◌};
ghost use Rattle.cyc_token.specs.Token.{token_view};
ghost use Rattle.relay_model.specs.Hears.{turns_of};
ghost use Rattle.article_fetch.specs.Fetch.{asked_view};
ghost use Rattle.article_fetch.specs.Inside.{most_due};

use cyc_block::CHUNK_OCTETS;
use cyc_buffer::size_of;
use cyc_token::Token;
use nntp_text::{MsgId, Part};
use std::cmp;

/// What a fetch asks.
#[derive(Drop)]
pub enum Asked {
    /// A part of the article of a message-id (RFC 3977, sections 6.2 and 8.3).
    OfId(Part, MsgId),
    /// All of the article under a token: XFETCH.
    OfToken,
}

impl Asked {
    /// How many blocks are read, each in a turn of its own: all that the article of the token has,
    /// the first in any case; of STAT the first alone.
    pub(crate) fn turns(&self, token: &Token) -> u32
        ensures { result ≡ turns_of (asked_view self.now) (token_view token.now) }
    {
        match self {
            Asked::OfId(Part::Presence, _) => 1,
            _ => cmp::max(1, size_of(token.length)),
        }
    }

    /// The most octets that a block adds to what is shown: STAT shows none.
    pub(crate) fn octets_due(&self) -> usize
        ensures { result ≡ most_due (asked_view self.now) }
    {
        match self {
            Asked::OfId(Part::Presence, _) => 0,
            _ => CHUNK_OCTETS,
        }
    }
}
