//! Octets that are dropped, which contracts alone see.
use std::marker::Model;
use std::mem;
use std::snapshot::Snapshot;

/// Octets of a stream that aren't kept any more. It takes no bytes: the last ones stand on a
/// snapshot of those before.
#[derive(Drop)]
#[cycle(dropped)]
pub(crate) struct Gone {
    last: Snapshot<Option<Last>>,
}

/// The last octets of those: so many, from a place on, of what had them.
#[derive(Drop)]
#[cycle(dropped)]
struct Last {
    before: Gone,
    octets: Snapshot<Vec<u8>>,
    from: usize,
    count: usize,
}

const _: () = prove!(size_of::<Gone>() == 0);

impl Model for Gone {
    ghost use Rattle.std.specs.Prelude.{List, ℕ, length};

    ghost Value = { List ℕ };

    ghost use Rattle.std.proofs.Common.{arith, length-append, length-take, length-drop};
    ghost use Rattle.stream_cut.specs.Gone.{all_gone, GoesOn};

    ghost view = { λ g. all_gone g.last.value };

    ghost invariant = { λ g. GoesOn g.last.value };

    ghost size = { length };

    ghost size_decreases = { λ g h. Prim.grind (
      arith,
      length-append,
      length-take,
      length-drop,
      h,
    ) };
}

impl Gone {
    ghost use Rattle.std.specs.Prelude.{◌≡◌, ◌+◌, ◌≤◌, ◌++◌, [], take, drop, vec_len};

    /// None are dropped.
    pub(crate) fn none() -> Gone
        ensures { result ≡ [] }
    {
        let none: Option<Last> = None;
        Gone {
            last: Snapshot::of(&none),
        }
    }

    /// So many of these octets are dropped too, from a place on.
    pub(crate) fn add(&mut self, octets: &Vec<u8>, from: usize, count: usize)
        requires { from + count ≤ vec_len octets.now }
        ensures { self.new ≡ self.old ++ take count (drop from octets.now.items) }
    {
        if count == 0 {
            return;
        }
        let last = Some(Last {
            before: mem::replace(self, Gone::none()),
            octets: Snapshot::of(octets),
            from,
            count,
        });
        *self = Gone {
            last: Snapshot::of(&last),
        };
    }
}
