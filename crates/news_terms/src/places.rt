//! Laws and worked examples of sizes, runs, places and fronts.
ghost use Rattle.std.specs.Prelude.{◌≡◌, ◌<◌, ◌+◌, ◌^◌, ◌⊎◌, ℕ, codes, Some, None, [], ◌∷◌};
ghost use Rattle.news_terms.specs.Places.{IsSize, IsLive, IsGone, size_of, extents, front_after};
ghost use Rattle.news_terms.specs.Places.{Group, Interleave, Sequential, next_place, last_cycle};
ghost use Rattle.news_terms.specs.PlaceExamples.{eight, six, one_of_eight, eight_then_six};
ghost use Rattle.news_terms.specs.PlaceExamples.{eight_and_six};

/// How many blocks texts of these lengths take.
pub fn size_examples()
    ensures one { size_of 480 ≡ 1 }
    ensures two { size_of 481 ≡ 2 }
    ensures eight { size_of 3840 ≡ 8 }
    ensures nine { size_of 3841 ≡ 9 }
    ensures least { size_of 1 ≡ 1 }
    ensures nothing { size_of 0 ≡ 0 }
    ensures large { size_of 1000015 ≡ 2084 }
{}

/// The size is the least number of blocks that have room.
pub fn size_is_least()
    ensures { (octets : ℕ) → IsSize octets (size_of octets) }
{}

/// What is gone was begun, and isn't live.
pub fn gone_is_not_live()
    ensures begun { (blocks front place : ℕ) → IsGone blocks front place → place < front }
    ensures apart { (blocks front place : ℕ) → IsGone blocks front place
        → IsLive blocks front place → ⊥ }
    ensures one_of_both { (blocks front place : ℕ) → place < front
        → IsLive blocks front place ⊎ IsGone blocks front place }
{}

/// In eight blocks an article at place 3 is live from the front 4 to the front 11, then gone.
pub fn live_examples()
    ensures not_begun { ¬ IsLive 8 3 3 }
    ensures begun { IsLive 8 4 3 }
    ensures last_front { IsLive 8 11 3 }
    ensures passed { IsGone 8 12 3 }
{}

/// One buffer of eight blocks: three articles of three blocks, and the front after the last.
pub fn overwrite_example()
    ensures places { extents one_of_eight (3 ∷ 3 ∷ 3 ∷ []) ≡
        record { place = record { buffer = eight; cycle = 0; first = 0 }; size = 3 }
        ∷ record { place = record { buffer = eight; cycle = 0; first = 3 }; size = 3 }
        ∷ record { place = record { buffer = eight; cycle = 1; first = 0 }; size = 3 } ∷ [] }
    ensures front { front_after eight (extents one_of_eight (3 ∷ 3 ∷ 3 ∷ [])) ≡ 11 }
    ensures none { front_after eight [] ≡ 0 }
{}

/// Two buffers of eight and six blocks one after the other: articles of five, four, two and three.
pub fn sequential_example()
    ensures places { extents eight_then_six (5 ∷ 4 ∷ 2 ∷ 3 ∷ []) ≡
        record { place = record { buffer = eight; cycle = 0; first = 0 }; size = 5 }
        ∷ record { place = record { buffer = six; cycle = 0; first = 0 }; size = 4 }
        ∷ record { place = record { buffer = six; cycle = 0; first = 4 }; size = 2 }
        ∷ record { place = record { buffer = eight; cycle = 1; first = 0 }; size = 3 } ∷ [] }
{}

/// The same two in turn: each has runs of its own.
pub fn interleaved_example()
    ensures places { extents eight_and_six (5 ∷ 4 ∷ 2 ∷ 3 ∷ []) ≡
        record { place = record { buffer = eight; cycle = 0; first = 0 }; size = 5 }
        ∷ record { place = record { buffer = six; cycle = 0; first = 0 }; size = 4 }
        ∷ record { place = record { buffer = eight; cycle = 0; first = 5 }; size = 2 }
        ∷ record { place = record { buffer = six; cycle = 1; first = 0 }; size = 3 } ∷ [] }
{}

/// An article that fills a run to its end is of that run, and the next one begins the run after it.
pub fn full_run_example()
    ensures places { extents one_of_eight (5 ∷ 3 ∷ 8 ∷ 1 ∷ []) ≡
        record { place = record { buffer = eight; cycle = 0; first = 0 }; size = 5 }
        ∷ record { place = record { buffer = eight; cycle = 0; first = 5 }; size = 3 }
        ∷ record { place = record { buffer = eight; cycle = 1; first = 0 }; size = 8 }
        ∷ record { place = record { buffer = eight; cycle = 2; first = 0 }; size = 1 } ∷ [] }
    ensures one_after_the_other { extents eight_then_six (8 ∷ 4 ∷ 2 ∷ 1 ∷ []) ≡
        record { place = record { buffer = eight; cycle = 0; first = 0 }; size = 8 }
        ∷ record { place = record { buffer = six; cycle = 0; first = 0 }; size = 4 }
        ∷ record { place = record { buffer = six; cycle = 0; first = 4 }; size = 2 }
        ∷ record { place = record { buffer = eight; cycle = 1; first = 0 }; size = 1 } ∷ [] }
{}

/// A buffer that begins in cycle 7, in either mode; a group without a buffer; the last cycle.
pub fn cycle_examples()
    ensures in_turn { next_place (record {
      mode = Interleave;
      buffers = record eight { first_cycle = 7 } ∷ [];
    }) (5 ∷ []) 4
        ≡ Some (record { buffer = record eight { first_cycle = 7 }; cycle = 8; first = 0 }) }
    ensures one_after_the_other { next_place (record {
      mode = Sequential;
      buffers = record eight { first_cycle = 7 } ∷ six ∷ [];
    }) (5 ∷ 4 ∷ []) 6
        ≡ Some (record { buffer = record eight { first_cycle = 7 }; cycle = 8; first = 0 }) }
    ensures no_buffer { next_place (record { mode = Sequential; buffers = [] }) [] 1 ≡ None }
    ensures none_in_turn { next_place (record { mode = Interleave; buffers = [] }) [] 1 ≡ None }
    ensures last { last_cycle + 1 ≡ 2 ^ 32 }
    ensures first_front { front_after (record eight { first_cycle = 7 }) [] ≡ 56 }
{}
