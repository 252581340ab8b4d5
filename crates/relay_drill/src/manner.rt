//! How a drill is played, and how it stands.
ghost use Rattle.std.specs.Prelude.{◌≡◌, true};
ghost use Rattle.relay_drill.specs.Progress.{stand_view};
ghost use Rattle.relay_drill.specs.Todo.{deserted};

use crate::line::PieceSize;
use crate::power::Supply;
use std::alloc::Global;

/// How a line of a drill is played.
#[derive(Clone, Copy)]
pub struct Manner {
    /// The groups of the relay, each of which has a writer.
    pub groups: usize,
    /// Whether the reason is told for which an article is refused.
    pub reasons: bool,
    /// Whether a crash is ahead.
    pub armed: bool,
}

/// How a drill stands.
#[derive(Drop)]
pub struct Stand {
    /// The sessions that were opened since the last crash, in rising order.
    pub sessions: Vec<u64>,
    /// The octets of a piece, where octets are split.
    pub piece: Option<PieceSize>,
    /// The moment that a line named last.
    pub moment: u64,
    /// Whether a crash is ahead.
    pub armed: bool,
}

impl Stand {
    /// Nobody is here after a crash.
    pub fn desert(&mut self, alloc: Global)
        ensures view { stand_view self.new ≡ deserted (stand_view self.old) }
        ensures armed { self.new.armed ≡ self.old.armed }
    {
        self.sessions = Vec::new(alloc);
    }
}

/// Whether a crash was ahead, and has come.
pub fn is_cut(manner: Manner, supply: &Supply) -> bool
    ensures { result ≡ true → manner.armed ≡ true }
{
    manner.armed && supply.is_gone()
}
