//! What holds of a history that is taken by name.
ghost use Rattle.std.specs.Prelude.{◌≡◌, ◌<◌, ℕ, List, length, map, true};
ghost use Rattle.std.specs.List.{AllByRecursion, AllZip};
ghost use Rattle.id_history.specs.History.{FeedHolds, Holds, IdHolds, Kept, RingHolds, Rises};
ghost use Rattle.named_history.specs.Naming.{buffer_count, is_of, named};
ghost use Rattle.relay_names.specs.Names.{Names};
ghost use Rattle.names_laws.specs.Staying.{AreDistinct};

/// The names under which a history was kept change nothing of it, where its rings hold what waits.
pub fn same_names_change_nothing()
    ensures { (own : Names) (rings : List ℕ) (kept : Kept)
        → is_of own kept ≡ true → AllZip RingHolds kept.feeds rings → AreDistinct own
        → named own own rings kept ≡ kept }
{}

/// Whatever the names, the numbers of the stop and of the newest session stay, and the message-ids.
pub fn ids_stay()
    ensures stop { (known own : Names) (rings : List ℕ) (kept : Kept)
        → (named known own rings kept).stop ≡ kept.stop }
    ensures newest { (known own : Names) (rings : List ℕ) (kept : Kept)
        → (named known own rings kept).newest ≡ kept.newest }
    ensures ids { (known own : Names) (rings : List ℕ) (kept : Kept)
        → (named known own rings kept).ids ≡ kept.ids }
{}

/// What a relay with as many buffers had at its stop, with whichever groups and rings, is by name
/// what one with its own names and rings can have had.
pub fn named_holds()
    ensures { (known own : Names) (buffers : ℕ) (old rings : List ℕ) (kept : Kept)
        → AllZip (FeedHolds buffers) kept.feeds old → AllByRecursion (IdHolds buffers) kept.ids
        → Rises kept.ids → length own.feeds ≡ length rings
        → AllByRecursion (λ group. 0 < buffer_count group) own.groups
        → Holds (record { buffers = buffers; groups = map buffer_count own.groups; rings = rings })
        (named known own rings kept) }
{}

/// The names of a relay can be those under which its history by name is kept.
pub fn own_names_are_of_it()
    ensures { (known own : Names) (rings : List ℕ) (kept : Kept)
        → length own.feeds ≡ length rings
        → AllByRecursion (λ group. 0 < buffer_count group) own.groups
        → is_of own (named known own rings kept) ≡ true }
{}
