use std::marker::Model;
use std::mem;
use std::snapshot::Snapshot;

/// How often something was done, a count without end that contracts alone see. It takes no bytes:
/// each tally stands on a snapshot of the one before.
#[derive(Drop)]
pub struct Tally {
    before: Snapshot<Option<Tally>>,
}

const _: () = prove!(size_of::<Tally>() == 0);

impl Model for Tally {
    ghost use Rattle.std.specs.Prelude.{ℕ};
    ghost use Rattle.std.proofs.Common.{arith};
    ghost use Rattle.cyc_block.specs.Tally.{one_after};

    ghost Value = { ℕ };

    ghost view = { λ tally. one_after tally.before.value };

    ghost size = { λ n. n };

    ghost size_decreases = { λ tally h. Prim.grind (arith) };
}

impl Tally {
    ghost use Rattle.std.specs.Prelude.{◌≡◌, ◌+◌};

    /// Nothing was done yet.
    pub fn new() -> Tally
        ensures { result ≡ 0 }
    {
        let none: Option<Tally> = None;
        Tally {
            before: Snapshot::of(&none),
        }
    }

    /// It was done once more.
    pub fn add_one(&mut self)
        ensures { self.new ≡ self.old + 1 }
    {
        let before = Some(mem::replace(self, Tally::new()));
        *self = Tally {
            before: Snapshot::of(&before),
        };
    }
}
