//! What outlives a stop (docs/PROTOCOL.md, Clean stop and start).
ghost use Rattle.std.specs.Prelude.{◌≡◌, ◌+◌, ℕ, List, map, max, OnOk};
ghost use Rattle.std.specs.Prelude.{vec_len, vec_capacity};
ghost use Rattle.std.specs.List.{AllByRecursion, IsDistinct};
ghost use Rattle.std.specs.List.Sorted.{IsPermutation};
ghost use Rattle.std.specs.Str.{bytes_eq};
ghost use Rattle.id_history.specs.History.{IdFits, Rises};
ghost use Rattle.id_history.specs.Views.{id_view};
ghost use Rattle.relay_model.specs.Claims.{Claim};
ghost use Rattle.id_history.specs.Lasting.{GathersLasting, ids_of};
ghost use Rattle.id_history.specs.LastingIn.{lasting_count};
ghost use Rattle.id_history.specs.Shard.{Keeps};

use crate::claims::Shard;
use crate::counts::Counts;
use crate::kept::KeptId;
use std::alloc::AllocError;

impl Shard {
    /// Puts the ids that are stored or were refused behind the list, in no order. It takes room
    /// for these alone, where the list hasn't it.
    pub fn gather(&self, list: &mut Vec<KeptId>) -> Result<(), AllocError>
        ensures gathers { OnOk result ((claims : List ℕ → Claim) → Keeps self.now claims
            → GathersLasting (map id_view list.old.items) (map id_view list.new.items) claims) }
        ensures fits { OnOk result (AllByRecursion IdFits (map id_view list.old.items)
            → AllByRecursion IdFits (map id_view list.new.items)) }
        ensures len { OnOk result
            (vec_len list.new ≡ vec_len list.old + lasting_count self.now) }
        ensures room { OnOk result
            (vec_capacity list.new ≡ max (vec_capacity list.old) (vec_len list.new)) }
    {
        match reserve(list, self.counts()) {
            Ok(()) => self.append(list),
            Err(error) => Err(error),
        }
    }
}

/// Makes room in the list for as many ids as last by the counts.
pub(crate) fn reserve(list: &mut Vec<KeptId>, counts: Counts) -> Result<(), AllocError>
    ensures items { list.new.items ≡ list.old.items }
    ensures room { OnOk result (vec_capacity list.new
        ≡ max (vec_capacity list.old) (vec_len list.old + (counts.stored + counts.refused))) }
{
    match usize::try_from(counts.stored.saturating_add(counts.refused)) {
        Ok(count) => list.reserve_exact(count),
        Err(_) => Err(AllocError),
    }
}

/// Puts the ids in the order of their octets, which takes no memory.
pub fn sort(entries: &mut [KeptId])
    ensures same { IsPermutation entries.old entries.new }
    ensures rises { IsDistinct bytes_eq (ids_of (map id_view entries.old))
        → Rises (map id_view entries.new) }
{
    entries.sort_unstable_by(|one, other| one.id.as_bytes().cmp(other.id.as_bytes()));
}
