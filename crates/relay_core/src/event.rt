//! What happens to the relay, and what it answers.
use article_verdict::Reason;
use line_words::Octets;

/// What happens to the relay (docs/PROTOCOL.md, Events and outputs). Sessions, peers and groups are
/// named by number; moments are seconds since the first of 1970, UTC.
#[derive(Drop)]
pub enum Event {
    /// A session of a peer opens. Its number is above that of every earlier one.
    Open { session: u64, peer: usize },
    /// Octets come to a session.
    Bytes { session: u64, piece: Octets },
    /// The next bit of a session's work.
    Turn { session: u64, now: u64 },
    /// The next bit of the work of a group's writer.
    Write { group: usize, now: u64 },
    /// A session's connection is gone.
    Break { session: u64 },
    /// The next bit of forgetting.
    Expire { shard: usize, now: u64 },
    /// The relay is closed and started again.
    Restart,
}

/// What an event is answered.
#[derive(Drop)]
pub enum Output {
    /// Nothing is said.
    Quiet,
    /// These octets go to the session.
    Sent(u64, Octets),
    /// These octets go to the session, whose article is refused for this reason.
    Rejected(u64, Octets, Reason),
    /// These octets go to the session, which leaves.
    Ended(u64, Octets),
    /// The event is refused, and nothing that is kept changed.
    Refused(CoreError),
}

/// Why an event is refused, in the order of trial; want of memory comes last.
#[derive(Clone, Copy)]
pub enum CoreError {
    /// Memory was refused. The event may be tried again.
    Memory,
    /// There is no such session, or it has no such event any more.
    NoSession,
    /// The session's number isn't above that of every earlier one.
    SessionTaken,
    /// There is no such group.
    NoGroup,
    /// There is no such peer.
    NoPeer,
    /// The moment is past the end of the year 9998.
    BadMoment,
    /// There is no such shard.
    NoShard,
    /// A message-id is being stored.
    NotIdle,
    /// A buffer wasn't stopped, or not started again.
    NotRestarted,
}
