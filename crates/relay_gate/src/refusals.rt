//! The articles that were refused, by their reasons.
ghost use Rattle.std.specs.Prelude.{◌≡◌, ◌++◌, List, ℕ, OnOk, Some};
ghost use Rattle.relay_gate.specs.Gates.{IsReasonsLine, placed_text, refusals_text, worded_text};

use article_verdict::Reason;
use std::alloc::{AllocError, Global};
use std::fmt;
use std::fmt::{Display, Formatter};
use std::sync::atomic::{AtomicU64, Ordering};

/// How many articles of a peer were refused so far, for each reason.
#[derive(Drop)]
pub(crate) struct Refusals {
    size: AtomicU64,
    grammar: AtomicU64,
    id_mismatch: AtomicU64,
    bad_path: AtomicU64,
    loops: AtomicU64,
    date: AtomicU64,
    no_class: AtomicU64,
    too_large: AtomicU64,
}

impl Refusals {
    /// None yet.
    pub(crate) fn new() -> Refusals {
        Refusals {
            size: AtomicU64::new(0),
            grammar: AtomicU64::new(0),
            id_mismatch: AtomicU64::new(0),
            bad_path: AtomicU64::new(0),
            loops: AtomicU64::new(0),
            date: AtomicU64::new(0),
            no_class: AtomicU64::new(0),
            too_large: AtomicU64::new(0),
        }
    }

    /// One more was refused, for this reason.
    pub(crate) fn add(&self, reason: Reason) {
        let count = match reason {
            Reason::Size => &self.size,
            Reason::Grammar => &self.grammar,
            Reason::IdMismatch => &self.id_mismatch,
            Reason::BadPath => &self.bad_path,
            Reason::Loop => &self.loops,
            Reason::Date => &self.date,
            Reason::NoClass => &self.no_class,
            Reason::TooLarge => &self.too_large,
        };
        count.fetch_add(1, Ordering::SeqCst);
    }

    /// How many were so far.
    fn told(&self) -> Refused {
        Refused {
            worded: Worded {
                size: self.size.load(Ordering::SeqCst),
                grammar: self.grammar.load(Ordering::SeqCst),
                id_mismatch: self.id_mismatch.load(Ordering::SeqCst),
                bad_path: self.bad_path.load(Ordering::SeqCst),
            },
            placed: Placed {
                loops: self.loops.load(Ordering::SeqCst),
                date: self.date.load(Ordering::SeqCst),
                no_class: self.no_class.load(Ordering::SeqCst),
                too_large: self.too_large.load(Ordering::SeqCst),
            },
        }
    }

    /// Puts the line of the peer of this name behind a text.
    pub(crate) fn put(
        &self,
        alloc: Global,
        name: &str,
        text: &mut Vec<u8>,
    ) -> Result<(), AllocError>
        ensures { OnOk result ((line : List ℕ) × IsReasonsLine name.now line
            × (text.new.items ≡ text.old.items ++ line)) }
    {
        let refused = self.told();
        let line = format!(in alloc; "refused {name} {refused}\n")?;
        text.extend_from_slice(line.as_bytes())
    }
}

/// How many articles were refused for what their text or their id is.
#[derive(Clone, Copy)]
struct Worded {
    size: u64,
    grammar: u64,
    id_mismatch: u64,
    bad_path: u64,
}

impl Display for Worded {
    ghost output = { λ worded. Some (worded_text worded) };

    fn fmt<W: fmt::Write>(&self, formatter: &mut Formatter<W>) -> fmt::Result {
        let Worded {
            size,
            grammar,
            id_mismatch,
            bad_path,
        } = self;
        write!(
            formatter,
            "Size={size} Grammar={grammar} IdMismatch={id_mismatch} BadPath={bad_path}",
        )
    }
}

/// How many articles were refused for where and when they come from, or for where they would go.
#[derive(Clone, Copy)]
struct Placed {
    loops: u64,
    date: u64,
    no_class: u64,
    too_large: u64,
}

impl Display for Placed {
    ghost output = { λ placed. Some (placed_text placed) };

    fn fmt<W: fmt::Write>(&self, formatter: &mut Formatter<W>) -> fmt::Result {
        let Placed {
            loops,
            date,
            no_class,
            too_large,
        } = self;
        write!(
            formatter,
            "Loop={loops} Date={date} NoClass={no_class} TooLarge={too_large}",
        )
    }
}

/// How many articles were refused, for each reason.
#[derive(Clone, Copy)]
struct Refused {
    worded: Worded,
    placed: Placed,
}

impl Display for Refused {
    ghost output = { λ refused. Some (refusals_text refused) };

    fn fmt<W: fmt::Write>(&self, formatter: &mut Formatter<W>) -> fmt::Result {
        let Refused { worded, placed } = self;
        write!(formatter, "{worded} {placed}")
    }
}
