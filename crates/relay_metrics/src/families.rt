//! The metric families of the exposition (docs/FORMATS.md, Metrics).
ghost use Rattle.std.specs.Prelude.{◌≡◌, slice_get};
ghost use Rattle.std.specs.Option.{option_copied};
ghost use Rattle.relay_metrics.specs.Families.{family_view, kind_word, name_end};
ghost use Rattle.relay_metrics.specs.Families as terms;
ghost use Rattle.relay_metrics.specs.Lines.{line_view};

use crate::lines::{Line, Subject};

/// The type of a metric family.
#[derive(Clone, Copy)]
pub(crate) enum Kind {
    /// Its numbers only grow, but where they begin anew.
    Counter,
    /// Its numbers grow and shrink.
    Gauge,
}

/// Of which lines a family has samples, and which number of such a line is the value.
#[derive(Clone, Copy)]
pub(crate) enum Value {
    /// The number of this place of a line about a buffer.
    OfBuffer(usize),
    /// The number of this place of a line about a feed.
    OfFeed(usize),
    /// The number of this place of the line about the message-ids.
    OfIds(usize),
    /// The number of this place of a line about a peer.
    OfPeer(usize),
    /// The number of this place of a line about what was refused of a peer.
    OfRefusals(usize),
    /// The number of this place of a line about a buffer's size.
    OfSize(usize),
    /// The number of this place of a line about a buffer's oldest article.
    OfOldest(usize),
    /// 1 of the line that the relay is being repaired, 0 of the line about the message-ids, which
    /// only a relay that is served tells.
    IsRecovering,
    /// 1 of a line about a buffer of a relay that is being repaired.
    IsRepaired,
    /// 1 of the line that the relay takes no new articles for now.
    IsPaused,
    /// No line has it.
    Uncounted,
}

/// A metric family.
pub(crate) struct Family {
    /// Its name, but for what its type adds.
    pub base: &'static [u8],
    /// What is told of it.
    pub help: &'static [u8],
    /// Its type.
    pub kind: Kind,
    /// Its unit, empty where it has none.
    pub unit: &'static [u8],
    /// The label whose value is the name in a line, empty where it has none.
    pub label: &'static [u8],
    /// The values of its samples.
    pub value: Value,
}

/// The families of which lines have samples, in their order.
pub(crate) const FAMILIES: &[Family] = &[
    Family {
        base: b"cnrelay_recovering",
        help: b"Whether the relay is being repaired.",
        kind: Kind::Gauge,
        unit: b"",
        label: b"",
        value: Value::IsRecovering,
    },
    Family {
        base: b"cnrelay_buffer_recovering",
        help: b"A buffer of a relay that is being repaired.",
        kind: Kind::Gauge,
        unit: b"",
        label: b"buffer",
        value: Value::IsRepaired,
    },
    Family {
        base: b"cnrelay_paused",
        help: b"Whether the relay takes no new articles for now.",
        kind: Kind::Gauge,
        unit: b"",
        label: b"",
        value: Value::IsPaused,
    },
    Family {
        base: b"cnrelay_buffer_cycles",
        help: b"The cycle that the newest article of the buffer is in.",
        kind: Kind::Counter,
        unit: b"",
        label: b"buffer",
        value: Value::OfBuffer(0),
    },
    Family {
        base: b"cnrelay_buffer_front_blocks",
        help: b"The front of the buffer, counted on over all cycles.",
        kind: Kind::Counter,
        unit: b"blocks",
        label: b"buffer",
        value: Value::OfBuffer(1),
    },
    Family {
        base: b"cnrelay_buffer_articles_begun",
        help: b"Articles that were begun in the buffer.",
        kind: Kind::Counter,
        unit: b"",
        label: b"buffer",
        value: Value::OfBuffer(2),
    },
    Family {
        base: b"cnrelay_buffer_articles_stored",
        help: b"Articles that are whole in the buffer, or were.",
        kind: Kind::Counter,
        unit: b"",
        label: b"buffer",
        value: Value::OfBuffer(3),
    },
    Family {
        base: b"cnrelay_buffer_size_blocks",
        help: b"Blocks of 512 octets that the buffer has.",
        kind: Kind::Gauge,
        unit: b"blocks",
        label: b"buffer",
        value: Value::OfSize(0),
    },
    Family {
        base: b"cnrelay_buffer_filled_blocks",
        help: b"Blocks of the buffer that hold something.",
        kind: Kind::Gauge,
        unit: b"blocks",
        label: b"buffer",
        value: Value::OfSize(1),
    },
    Family {
        base: b"cnrelay_buffer_oldest_article_timestamp_seconds",
        help: b"Since when the oldest article of the buffer is there.",
        kind: Kind::Gauge,
        unit: b"seconds",
        label: b"buffer",
        value: Value::OfOldest(0),
    },
    Family {
        base: b"cnrelay_feed_tokens_waiting",
        help: b"Tokens that wait in the ring of the feed of the peer.",
        kind: Kind::Gauge,
        unit: b"",
        label: b"peer",
        value: Value::OfFeed(0),
    },
    Family {
        base: b"cnrelay_feed_tokens_gained",
        help: b"Tokens that the feed of the peer has gained.",
        kind: Kind::Counter,
        unit: b"",
        label: b"peer",
        value: Value::OfFeed(1),
    },
    Family {
        base: b"cnrelay_feed_tokens_overwritten",
        help: b"Tokens of the feed of the peer that were overwritten before they were taken.",
        kind: Kind::Counter,
        unit: b"",
        label: b"peer",
        value: Value::OfFeed(2),
    },
    Family {
        base: b"cnrelay_message_ids_offered",
        help: b"Message-ids that a session was told to send.",
        kind: Kind::Gauge,
        unit: b"",
        label: b"",
        value: Value::OfIds(0),
    },
    Family {
        base: b"cnrelay_message_ids_storing",
        help: b"Message-ids whose articles are being stored.",
        kind: Kind::Gauge,
        unit: b"",
        label: b"",
        value: Value::OfIds(1),
    },
    Family {
        base: b"cnrelay_message_ids_stored",
        help: b"Message-ids that are remembered as stored.",
        kind: Kind::Gauge,
        unit: b"",
        label: b"",
        value: Value::OfIds(2),
    },
    Family {
        base: b"cnrelay_message_ids_refused",
        help: b"Message-ids that are remembered as refused.",
        kind: Kind::Gauge,
        unit: b"",
        label: b"",
        value: Value::OfIds(3),
    },
    Family {
        base: b"cnrelay_peer_sessions_open",
        help: b"Sessions of the peer that are open.",
        kind: Kind::Gauge,
        unit: b"",
        label: b"peer",
        value: Value::OfPeer(0),
    },
    Family {
        base: b"cnrelay_peer_articles_accepted",
        help: b"Replies 239 and 235 to the peer since the start.",
        kind: Kind::Counter,
        unit: b"",
        label: b"peer",
        value: Value::OfPeer(1),
    },
    Family {
        base: b"cnrelay_peer_articles_known",
        help: b"Articles that were known when the peer offered or sent them, since the start.",
        kind: Kind::Counter,
        unit: b"",
        label: b"peer",
        value: Value::OfPeer(2),
    },
    Family {
        base: b"cnrelay_peer_articles_refused",
        help: b"Articles of the peer that were judged and refused, since the start.",
        kind: Kind::Counter,
        unit: b"",
        label: b"peer",
        value: Value::OfPeer(3),
    },
    Family {
        base: b"cnrelay_peer_articles_later",
        help: b"Replies 431 and 436 to the peer since the start.",
        kind: Kind::Counter,
        unit: b"",
        label: b"peer",
        value: Value::OfPeer(4),
    },
    Family {
        base: b"cnrelay_peer_received_bytes",
        help: b"Octets that were read of the peer since the start.",
        kind: Kind::Counter,
        unit: b"bytes",
        label: b"peer",
        value: Value::OfPeer(5),
    },
    Family {
        base: b"cnrelay_peer_offers_open",
        help: b"Message-ids that the peer's sessions were told to send and have not sent.",
        kind: Kind::Gauge,
        unit: b"",
        label: b"peer",
        value: Value::OfPeer(6),
    },
    Family {
        base: b"cnrelay_peer_refused_size",
        help: b"Articles of the peer refused: more octets than maxart.",
        kind: Kind::Counter,
        unit: b"",
        label: b"peer",
        value: Value::OfRefusals(0),
    },
    Family {
        base: b"cnrelay_peer_refused_grammar",
        help: b"Articles of the peer refused: their text is no article.",
        kind: Kind::Counter,
        unit: b"",
        label: b"peer",
        value: Value::OfRefusals(1),
    },
    Family {
        base: b"cnrelay_peer_refused_id_mismatch",
        help: b"Articles of the peer refused: another Message-ID was offered.",
        kind: Kind::Counter,
        unit: b"",
        label: b"peer",
        value: Value::OfRefusals(2),
    },
    Family {
        base: b"cnrelay_peer_refused_bad_path",
        help: b"Articles of the peer refused: a forbidden octet in the Path.",
        kind: Kind::Counter,
        unit: b"",
        label: b"peer",
        value: Value::OfRefusals(3),
    },
    Family {
        base: b"cnrelay_peer_refused_loop",
        help: b"Articles of the peer refused: the own identity is in the Path.",
        kind: Kind::Counter,
        unit: b"",
        label: b"peer",
        value: Value::OfRefusals(4),
    },
    Family {
        base: b"cnrelay_peer_refused_date",
        help: b"Articles of the peer refused: their date can't be read, is too \
            old, or is in the future.",
        kind: Kind::Counter,
        unit: b"",
        label: b"peer",
        value: Value::OfRefusals(5),
    },
    Family {
        base: b"cnrelay_peer_refused_no_class",
        help: b"Articles of the peer refused: no entry of storage.conf is chosen.",
        kind: Kind::Counter,
        unit: b"",
        label: b"peer",
        value: Value::OfRefusals(6),
    },
    Family {
        base: b"cnrelay_peer_refused_too_large",
        help: b"Articles of the peer refused: more blocks than the smallest buffer \
            of their group.",
        kind: Kind::Counter,
        unit: b"",
        label: b"peer",
        value: Value::OfRefusals(7),
    },
];

/// The family of how many lines of a report aren't known.
pub(crate) const UNREAD: &Family = &Family {
    base: b"cnrelay_report_lines_unread",
    help: b"Lines of the report that are not in this exposition.",
    kind: Kind::Gauge,
    unit: b"",
    label: b"",
    value: Value::Uncounted,
};

/// What a name ends with by its family's type.
pub(crate) fn name_end(kind: Kind) -> &'static [u8]
    ensures { result.now ≡ name_end kind }
{
    match kind {
        Kind::Counter => b"_total",
        Kind::Gauge => b"",
    }
}

/// A type as the exposition calls it.
pub(crate) fn kind_word(kind: Kind) -> &'static [u8]
    ensures { result.now ≡ kind_word kind }
{
    match kind {
        Kind::Counter => b"counter",
        Kind::Gauge => b"gauge",
    }
}

/// The value of a family's sample of a line, where it has one.
pub(crate) fn value_in<'a>(family: &Family, line: &'a Line<'_>) -> Option<&'a [u8]>
    ensures { option_copied result
        ≡ terms.value_in (family_view family.now) (line_view line.now) }
{
    match (family.value, line.subject) {
        (Value::OfBuffer(place), Subject::Buffer)
        | (Value::OfFeed(place), Subject::Feed)
        | (Value::OfIds(place), Subject::Ids)
        | (Value::OfPeer(place), Subject::Peer)
        | (Value::OfRefusals(place), Subject::Refusals)
        | (Value::OfSize(place), Subject::Size)
        | (Value::OfOldest(place), Subject::Oldest) => number_at(line, place),
        (Value::IsRecovering, Subject::Recovering) | (Value::IsRepaired, Subject::Repaired) => {
            Some(b"1")
        }
        (Value::IsPaused, Subject::Paused) => Some(b"1"),
        (Value::IsRecovering, Subject::Ids) => Some(b"0"),
        _ => None,
    }
}

/// The number of this place of a line.
fn number_at<'a>(line: &'a Line<'_>, place: usize) -> Option<&'a [u8]>
    ensures { option_copied result ≡ slice_get (line_view line.now).numbers place }
{
    match line.numbers.get(place) {
        Some(number) => Some(number),
        None => None,
    }
}
