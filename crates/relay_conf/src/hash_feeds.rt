//! The part of the articles that a feed may have (docs/FORMATS.md, relay.conf).
ghost use Rattle.std.specs.Prelude.{◌≤◌};

/// A part of all message-ids: those whose place among so many is from `first` to `last`
/// (newsfeeds(5), flag Q).
#[derive(Clone, Copy)]
pub struct HashFeed {
    pub first: u32,
    pub last: u32,
    pub parts: u32,
    pub ghost begun: { 1 ≤ first },
    pub ghost rising: { first ≤ last },
    pub ghost within: { last ≤ parts },
}
