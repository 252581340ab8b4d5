//! The forms of the lines of a report (docs/FORMATS.md, Report; cnrelay(1), Asking).
use crate::lines::Subject;

/// A form of lines.
pub(crate) struct Form {
    /// What such a line is about.
    pub subject: Subject,
    /// Its first word.
    pub word: &'static [u8],
    /// Whether a name follows that.
    pub is_named: bool,
    /// What stands before the name.
    pub name_key: &'static [u8],
    /// What stands before each of its numbers.
    pub keys: &'static [&'static [u8]],
}

/// The forms that there are. A line is of the first one that it has.
pub(crate) const FORMS: &[Form] = &[
    Form {
        subject: Subject::Buffer,
        word: b"buffer",
        is_named: true,
        name_key: b"",
        keys: &[b"", b"", b"", b""],
    },
    Form {
        subject: Subject::Feed,
        word: b"feed",
        is_named: true,
        name_key: b"",
        keys: &[b"", b"", b""],
    },
    Form {
        subject: Subject::Ids,
        word: b"ids",
        is_named: false,
        name_key: b"",
        keys: &[b"", b"", b"", b""],
    },
    Form {
        subject: Subject::Peer,
        word: b"peer",
        is_named: true,
        name_key: b"",
        keys: &[
            b"open=",
            b"accepted=",
            b"known=",
            b"refused=",
            b"later=",
            b"octets=",
            b"offers=",
        ],
    },
    Form {
        subject: Subject::Refusals,
        word: b"refused",
        is_named: true,
        name_key: b"",
        keys: &[
            b"Size=",
            b"Grammar=",
            b"IdMismatch=",
            b"BadPath=",
            b"Loop=",
            b"Date=",
            b"NoClass=",
            b"TooLarge=",
        ],
    },
    Form {
        subject: Subject::Address,
        word: b"from",
        is_named: true,
        name_key: b"",
        keys: &[],
    },
    Form {
        subject: Subject::Size,
        word: b"size",
        is_named: true,
        name_key: b"buffer=",
        keys: &[b"blocks=", b"filled="],
    },
    Form {
        subject: Subject::Oldest,
        word: b"oldest",
        is_named: true,
        name_key: b"buffer=",
        keys: &[b"since="],
    },
    Form {
        subject: Subject::Recovering,
        word: b"recovering",
        is_named: false,
        name_key: b"",
        keys: &[],
    },
    Form {
        subject: Subject::Repaired,
        word: b"buffer",
        is_named: true,
        name_key: b"",
        keys: &[],
    },
    Form {
        subject: Subject::Paused,
        word: b"paused",
        is_named: false,
        name_key: b"",
        keys: &[],
    },
];
