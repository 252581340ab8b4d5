//! One ring of a relay that is found again.
ghost use Rattle.std.specs.Prelude.{◌≤◌, ◌<◌, ◌^◌, length};

use cyc_token::Token;
use id_history::KeptFeed;
use std::alloc::{AllocError, Global};

/// A ring that is filled from the newest token back.
pub(crate) struct Filling {
    /// How many tokens it has room for.
    size: u32,
    newest_first: Vec<Token>,
    ghost within: { length newest_first.items ≤ size },
    ghost small: { size < 2 ^ 32 },
}

// Written out, so that no crate above proves anew how each part is let go.
impl Drop for Filling {
    fn drop(self) {
        let Filling {
            size: _,
            newest_first: _,
        } = self;
    }
}

impl Filling {
    ghost use Rattle.std.specs.Prelude.{◌≡◌, ◌++◌, ◌∷◌, [], nat_lt, OnOk, if◌then◌else◌};
    ghost use Rattle.id_history.specs.Views.{feed_view};
    ghost use Rattle.found_again.specs.Filling.{filled};

    /// A ring without a token.
    pub(crate) fn new(alloc: Global, size: u32) -> Filling
        ensures size { result.size ≡ size }
        ensures tokens { result.newest_first.items ≡ [] }
    {
        Filling {
            size,
            newest_first: Vec::new(alloc),
        }
    }

    /// The token comes before those that it has, where it has room.
    pub(crate) fn gain(&mut self, token: Token) -> Result<(), AllocError>
        ensures size { self.new.size ≡ self.old.size }
        ensures tokens { OnOk result (self.new.newest_first.items
            ≡ (if nat_lt (length self.old.newest_first.items) self.old.size
            then self.old.newest_first.items ++ token ∷ [] else self.old.newest_first.items)) }
    {
        if self.newest_first.len() < self.size as usize {
            self.newest_first.push(token)?;
        }
        Ok(())
    }

    /// What is left of its feed.
    pub(crate) fn into_feed(self) -> KeptFeed
        ensures { feed_view result ≡ filled self }
    {
        let Filling {
            size: _,
            newest_first,
        } = self;
        let mut waiting = newest_first;
        waiting.reverse();
        KeptFeed {
            gained: waiting.len() as u64,
            passed: 0,
            taken: 0,
            waiting,
        }
    }
}
