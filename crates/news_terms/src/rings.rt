//! Rings: laws and worked examples.

ghost use Rattle.std.specs.Prelude.{◌≡◌, ◌≤◌, ◌+◌, ◌++◌, ◌∷◌, [], ℕ, List, codes, take, drop};
ghost use Rattle.std.specs.Prelude.{length};
ghost use Rattle.std.specs.List.{enumerate_from};
ghost use Rattle.news_terms.specs.Ring.{Feed, ring, last_of, missed, passed_now, taken_items};
ghost use Rattle.news_terms.specs.Ring.{after_take, with_gained};

/// What a ring holds: the list without what was taken or overwritten.
pub fn ring_contents()
    ensures held { (capacity : ℕ) (feed : Feed (List ℕ)) → ring capacity feed
        ≡ drop (passed_now capacity feed) feed.gained }
    ensures at_most { (capacity : ℕ) (feed : Feed (List ℕ))
        → length (ring capacity feed) ≤ capacity }
{}

/// What a ring is after a token was gained, and after a take.
pub fn ring_steps()
    ensures gained { (capacity : ℕ) (feed : Feed (List ℕ)) (token : List ℕ)
        → feed.passed ≤ length feed.gained
        → ring capacity (with_gained token feed)
        ≡ last_of capacity (ring capacity feed ++ token ∷ []) }
    ensures taken { (capacity n : ℕ) (feed : Feed (List ℕ)) → feed.passed ≤ length feed.gained
        → ring capacity (after_take capacity n feed) ≡ drop n (ring capacity feed) }
    ensures in_list { (capacity n : ℕ) (feed : Feed (List ℕ))
        → (after_take capacity n feed).passed ≤ length feed.gained }
    ensures items { (capacity n : ℕ) (feed : Feed (List ℕ)) → taken_items capacity n feed
        ≡ enumerate_from (feed.passed + missed capacity feed + 1) (take n (ring capacity feed)) }
{}

/// A ring of 2 after three articles, taken twice.
pub fn take_examples()
    ensures holds_last { ring 2 (record {
      gained = codes "first" ∷ codes "second" ∷ codes "third" ∷ [];
      passed = 0;
    }) ≡ codes "second" ∷ codes "third" ∷ [] }
    ensures misses_first { missed 2 (record {
      gained = codes "first" ∷ codes "second" ∷ codes "third" ∷ [];
      passed = 0;
    }) ≡ 1 }
    ensures takes { taken_items 2 5 (record {
      gained = codes "first" ∷ codes "second" ∷ codes "third" ∷ [];
      passed = 0;
    }) ≡ (2, codes "second") ∷ (3, codes "third") ∷ [] }
    ensures passes { after_take 2 5 (record {
      gained = codes "first" ∷ codes "second" ∷ codes "third" ∷ [];
      passed = 0;
    }) ≡ record {
      gained = codes "first" ∷ codes "second" ∷ codes "third" ∷ [];
      passed = 3;
    } }
    ensures misses_none_again { missed 2 (record {
      gained = codes "first" ∷ codes "second" ∷ codes "third" ∷ [];
      passed = 3;
    }) ≡ 0 }
    ensures takes_none_again { taken_items 2 5 (record {
      gained = codes "first" ∷ codes "second" ∷ codes "third" ∷ [];
      passed = 3;
    }) ≡ [] }
{}
