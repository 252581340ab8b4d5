//! Laws and worked examples of picks: which buffer of a group the next article goes to, and that
//! its place there, by what was begun in that buffer alone, is the group's next place.
ghost use Rattle.std.specs.Prelude.{◌≡◌, ◌<◌, ℕ, List, ◌++◌, All, length, slice_get, Some, true};
ghost use Rattle.std.specs.Prelude.{false, [], ◌∷◌};
ghost use Rattle.news_terms.specs.Fronts.{HasOwnNumbers, FitsGroup};
ghost use Rattle.news_terms.specs.Places.{Buffer, Group, Sequential, next_place, extents};
ghost use Rattle.news_terms.specs.Places.{front_after};
ghost use Rattle.news_terms.specs.Picks.{pick_of, begins_in, place_of_pick, head_of, front_at};
ghost use Rattle.news_terms.specs.Positions.{position_of, pick_at, position_past};
ghost use Rattle.news_terms.specs.PlaceExamples.{eight, six, eight_by_itself, eight_then_six};
ghost use Rattle.news_terms.specs.PlaceExamples.{eight_and_six};

/// A pick's place in its own buffer is the group's next place.
pub fn picks_are_places()
    ensures { (group : Group) (begun : List ℕ) → All (FitsGroup group) begun
        → (size : ℕ) → FitsGroup group size
        → next_place group begun size
        ≡ place_of_pick group begun (pick_of group begun size) size }
{}

/// The front of a buffer by its own begins is its front by the group's articles.
pub fn fronts_are_fronts()
    ensures { (group : Group) → HasOwnNumbers group → (begun : List ℕ)
        → All (FitsGroup group) begun → (i : ℕ) (buffer : Buffer)
        → slice_get group.buffers i ≡ Some buffer
        → front_after buffer (extents group begun)
        ≡ front_at buffer (head_of buffer.blocks (begins_in group i begun)) }
{}

/// What is begun in a group joins the begins of the buffer that is picked, and of no other.
pub fn begins_follow_picks()
    ensures here { (group : Group) (begun : List ℕ) (size i : ℕ)
        → (pick_of group begun size).index ≡ i
        → begins_in group i (begun ++ size ∷ [])
        ≡ (size, (pick_of group begun size).fresh) ∷ begins_in group i begun }
    ensures elsewhere { (group : Group) (begun : List ℕ) (size i : ℕ)
        → ((pick_of group begun size).index ≡ i → ⊥)
        → begins_in group i (begun ++ size ∷ []) ≡ begins_in group i begun }
    ensures within { (group : Group) (begun : List ℕ) (size : ℕ) → 0 < length group.buffers
        → (pick_of group begun size).index < length group.buffers }
{}

/// A group picks by its position alone, which after one more size follows from it and the pick.
pub fn positions_pick()
    ensures picks { (group : Group) → 0 < length group.buffers → (begun : List ℕ) (size : ℕ)
        → pick_of group begun size
        ≡ pick_at group.mode group.buffers (position_of group begun) size }
    ensures moves { (group : Group) → 0 < length group.buffers → (begun : List ℕ) (size : ℕ)
        → position_of group (begun ++ size ∷ [])
        ≡ position_past group.mode group.buffers (position_of group begun)
        (pick_of group begun size) size }
{}

/// Where buffers are filled one after the other, the blocks used of the current buffer's own run
/// are those of the group's position: its front less its cycle's first place.
pub fn positions_are_fronts()
    ensures { (group : Group) (begun : List ℕ) → group.mode ≡ Sequential
        → All (FitsGroup group) begun → (buffer : Buffer)
        → slice_get group.buffers (position_of group begun).index ≡ Some buffer
        → (head_of buffer.blocks (begins_in group (position_of group begun).index begun)).used
        ≡ (position_of group begun).used }
{}

/// Two buffers of eight and six blocks one after the other: articles of five, four, two and three.
pub fn sequential_picks_example()
    ensures first { pick_of eight_then_six [] 5 ≡ record { index = 0; fresh = false } }
    ensures second { pick_of eight_then_six (5 ∷ []) 4 ≡ record { index = 1; fresh = true } }
    ensures third { pick_of eight_then_six (5 ∷ 4 ∷ []) 2 ≡ record { index = 1; fresh = false } }
    ensures fourth { pick_of eight_then_six (5 ∷ 4 ∷ 2 ∷ []) 3
        ≡ record { index = 0; fresh = true } }
    ensures place_first { place_of_pick eight_then_six [] (record { index = 0; fresh = false }) 5
        ≡ Some (record { buffer = eight; cycle = 0; first = 0 }) }
    ensures place_second { place_of_pick eight_then_six (5 ∷ [])
        (record { index = 1; fresh = true }) 4
        ≡ Some (record { buffer = six; cycle = 0; first = 0 }) }
    ensures place_third { place_of_pick eight_then_six (5 ∷ 4 ∷ [])
        (record { index = 1; fresh = false }) 2
        ≡ Some (record { buffer = six; cycle = 0; first = 4 }) }
    ensures place_fourth { place_of_pick eight_then_six (5 ∷ 4 ∷ 2 ∷ [])
        (record { index = 0; fresh = true }) 3
        ≡ Some (record { buffer = eight; cycle = 1; first = 0 }) }
    ensures fifth { pick_of eight_then_six (5 ∷ 4 ∷ 2 ∷ 3 ∷ []) 6
        ≡ record { index = 1; fresh = true } }
    ensures place_fifth { place_of_pick eight_then_six (5 ∷ 4 ∷ 2 ∷ 3 ∷ [])
        (record { index = 1; fresh = true }) 6
        ≡ Some (record { buffer = six; cycle = 1; first = 0 }) }
    ensures begins_of_eight { begins_in eight_then_six 0 (5 ∷ 4 ∷ 2 ∷ 3 ∷ [])
        ≡ (3, true) ∷ (5, false) ∷ [] }
    ensures begins_of_six { begins_in eight_then_six 1 (5 ∷ 4 ∷ 2 ∷ 3 ∷ [])
        ≡ (2, false) ∷ (4, true) ∷ [] }
{}

/// One buffer of eight blocks, by itself one after the other: each run is the next cycle.
pub fn lone_buffer_picks_example()
    ensures second { pick_of eight_by_itself (5 ∷ []) 4 ≡ record { index = 0; fresh = true } }
    ensures place_second { place_of_pick eight_by_itself (5 ∷ [])
        (record { index = 0; fresh = true }) 4
        ≡ Some (record { buffer = eight; cycle = 1; first = 0 }) }
    ensures third { pick_of eight_by_itself (5 ∷ 4 ∷ []) 2 ≡ record { index = 0; fresh = false } }
    ensures place_third { place_of_pick eight_by_itself (5 ∷ 4 ∷ [])
        (record { index = 0; fresh = false }) 2
        ≡ Some (record { buffer = eight; cycle = 1; first = 4 }) }
{}

/// The same two in turn: none is fresh.
pub fn interleaved_picks_example()
    ensures position { position_of eight_and_six (5 ∷ []) ≡ record { index = 1; used = 0 } }
    ensures fourth { pick_of eight_and_six (5 ∷ 4 ∷ 2 ∷ []) 3
        ≡ record { index = 1; fresh = false } }
    ensures place_fourth { place_of_pick eight_and_six (5 ∷ 4 ∷ 2 ∷ [])
        (record { index = 1; fresh = false }) 3
        ≡ Some (record { buffer = six; cycle = 1; first = 0 }) }
    ensures begins_of_six { begins_in eight_and_six 1 (5 ∷ 4 ∷ 2 ∷ 3 ∷ [])
        ≡ (3, false) ∷ (4, false) ∷ [] }
{}
