//! What of a feed stays where histories are taken by name.
ghost use Rattle.std.specs.Prelude.{◌≡◌, ◌-◌, ◌≤◌, ℕ, List, Some, drop, length};
ghost use Rattle.std.specs.List.{slice_get};
ghost use Rattle.id_history.specs.History.{FeedHolds, Kept, KeptFeed};
ghost use Rattle.named_history.specs.Fitting.{fitted, new_feed};
ghost use Rattle.named_history.specs.Naming.{named};
ghost use Rattle.relay_names.specs.Names.{Names};
ghost use Rattle.names_laws.specs.Staying.{IsFirstAt, IsNowhere, WaitedIn};

/// A feed whose name was known goes on with what was kept at the first place of that name, as its
/// ring has room for it.
pub fn feed_stays()
    ensures { (known own : Names) (rings : List ℕ) (kept : Kept) (name : List ℕ) (i k ring : ℕ)
        (old : KeptFeed)
        → slice_get own.feeds i ≡ Some name → slice_get rings i ≡ Some ring
        → IsFirstAt name k known.feeds → slice_get kept.feeds k ≡ Some old
        → slice_get (named known own rings kept).feeds i ≡ Some (fitted ring old) }
{}

/// A feed whose name wasn't known gained nothing, so that no token waits.
pub fn feed_is_new()
    ensures { (known own : Names) (rings : List ℕ) (kept : Kept) (name : List ℕ) (i ring : ℕ)
        → slice_get own.feeds i ≡ Some name → slice_get rings i ≡ Some ring
        → IsNowhere name known.feeds
        → slice_get (named known own rings kept).feeds i ≡ Some new_feed }
{}

/// What a feed gained and what was taken stays, whatever its ring.
pub fn counts_stay()
    ensures gained { (ring : ℕ) (feed : KeptFeed) → (fitted ring feed).gained ≡ feed.gained }
    ensures taken { (ring : ℕ) (feed : KeptFeed) → (fitted ring feed).taken ≡ feed.taken }
{}

/// A ring no smaller than what waits keeps all of it, and a smaller one the newest that it has room
/// for. So all that waits has waited before, in the same order.
pub fn newest_stay()
    ensures all { (ring : ℕ) (feed : KeptFeed) → length feed.waiting ≤ ring
        → (fitted ring feed).waiting ≡ feed.waiting }
    ensures newest { (ring : ℕ) (feed : KeptFeed) → ring ≤ length feed.waiting
        → (fitted ring feed).waiting ≡ drop (length feed.waiting - ring) feed.waiting }
{}

/// What a feed of some ring has come to is what one of the new ring can have come to.
pub fn fitted_holds()
    ensures { (buffers ring old : ℕ) (feed : KeptFeed) → FeedHolds buffers feed old
        → FeedHolds buffers (fitted ring feed) ring }
{}

/// All that waits in a feed waited before in one feed, in the same order, with no token between
/// missing and none after.
pub fn what_waits_waited()
    ensures { (known own : Names) (rings : List ℕ) (kept : Kept) (i : ℕ) (new : KeptFeed)
        → slice_get (named known own rings kept).feeds i ≡ Some new
        → WaitedIn kept.feeds new.waiting }
{}
