//! Laws of the parts that hash feeds may have.
ghost use Rattle.std.specs.Prelude.{◌≡◌, ◌≤◌, ◌<◌, ◌+◌, ℕ, not, true, List, Some, codes};
ghost use Rattle.relay_model.specs.HashFeeds.{hash_of, hash_place, in_hash_feed};

/// Two feeds, one with the first parts of so many and one with the others, share all articles out:
/// what one may have the other may not, and none is left.
pub fn hash_feeds_share_out()
    ensures { (k n : ℕ) (id : List ℕ) → 1 ≤ k → k < n
        → in_hash_feed (Some (record { first = 1; last = k; parts = n })) id
        ≡ not (in_hash_feed (Some (record { first = k + 1; last = n; parts = n })) id) }
{}

/// A feed with all parts may have each article, whatever its message-id.
pub fn all_parts_have_all()
    ensures { (n : ℕ) (id : List ℕ) → 1 ≤ n
        → in_hash_feed (Some (record { first = 1; last = n; parts = n })) id ≡ true }
{}

/// The hash of a message-id, computed, and its places among two and among three.
pub fn one_message_id()
    ensures hash { hash_of (codes "<a@x>") ≡ 526203710 }
    ensures of_two { hash_place 2 (codes "<a@x>") ≡ 1 }
    ensures of_three { hash_place 3 (codes "<a@x>") ≡ 3 }
{}
