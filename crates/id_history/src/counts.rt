ghost use Rattle.std.specs.Prelude.{◌≡◌, ◌+◌, ◌^◌};
ghost use Rattle.id_history.specs.Counts.{AtMost, Numbers};

/// How many message-ids are known, by kind. The sum over all shards has room in each count.
#[derive(Clone, Copy)]
pub struct Counts {
    /// A session was told to send the article.
    pub offered: u128,
    /// A session has the article, and it is being stored.
    pub storing: u128,
    /// The article was stored.
    pub stored: u128,
    /// An article was refused.
    pub refused: u128,
}

impl Counts {
    /// The counts of no message-id.
    pub(crate) fn none() -> Counts
        ensures { Numbers result (λ test. 0) }
    {
        Counts {
            offered: 0,
            storing: 0,
            stored: 0,
            refused: 0,
        }
    }

    /// Each count with the other's.
    pub(crate) fn plus(self, other: Counts) -> Counts
        requires here { AtMost (2 ^ 100) self }
        requires there { AtMost (2 ^ 100) other }
        ensures offered { result.offered ≡ self.offered + other.offered }
        ensures storing { result.storing ≡ self.storing + other.storing }
        ensures stored { result.stored ≡ self.stored + other.stored }
        ensures refused { result.refused ≡ self.refused + other.refused }
    {
        Counts {
            offered: self.offered + other.offered,
            storing: self.storing + other.storing,
            stored: self.stored + other.stored,
            refused: self.refused + other.refused,
        }
    }
}
