//! Laws of places and fronts: where the next article of a group begins, and that no front falls.
ghost use Rattle.std.specs.Prelude.{◌≡◌, ℕ, ◌<◌, ◌≤◌, List, ◌++◌, All, length, slice_get, Some};
ghost use Rattle.std.specs.Prelude.{is_some, true, [], ◌∷◌};
ghost use Rattle.news_terms.specs.Fronts.{HasOwnNumbers, FitsGroup, IsAmongBuffers};
ghost use Rattle.news_terms.specs.Fronts.{EndsInBuffer, IsAtOrPastFront};
ghost use Rattle.news_terms.specs.Places.{Buffer, Group, Place, next_place, extents, front_after};
ghost use Rattle.news_terms.specs.Places.{Interleave};
ghost use Rattle.news_terms.specs.PlaceExamples.{eight, six, one_of_eight, eight_and_six};

/// The next article of a group has a place where there is a buffer, in one of them, and ends in it.
pub fn next_is_in_a_buffer()
    ensures some { (group : Group) → 0 < length group.buffers → (begun : List ℕ) (size : ℕ)
        → is_some (next_place group begun size) ≡ true }
    ensures among { (group : Group) (begun : List ℕ) (size : ℕ) (place : Place)
        → next_place group begun size ≡ Some place → IsAmongBuffers group place }
    ensures ends { (group : Group) (begun : List ℕ) (size : ℕ) → FitsGroup group size
        → (place : Place) → next_place group begun size ≡ Some place → EndsInBuffer place size }
{}

/// The next article of a group begins at the front of its buffer or past it, where each article
/// begun before fits each buffer.
pub fn next_is_at_or_past_front()
    ensures { (group : Group) → HasOwnNumbers group → (begun : List ℕ) → All (FitsGroup group) begun
        → (size : ℕ) (place : Place) → next_place group begun size ≡ Some place
        → IsAtOrPastFront group begun place }
{}

/// The front of a group's buffer never falls, where each article fits each buffer.
pub fn front_never_falls()
    ensures { (group : Group) → HasOwnNumbers group → (begun more : List ℕ)
        → All (FitsGroup group) (begun ++ more) → (i : ℕ) (buffer : Buffer)
        → slice_get group.buffers i ≡ Some buffer
        → front_after buffer (extents group begun)
        ≤ front_after buffer (extents group (begun ++ more)) }
{}

/// What the laws ask and say of groups, of two buffers of eight and six blocks.
pub fn group_examples()
    ensures fits { FitsGroup eight_and_six 6 }
    ensures too_large { ¬ FitsGroup eight_and_six 7 }
    ensures own_numbers { HasOwnNumbers eight_and_six }
    ensures number_twice { ¬ HasOwnNumbers
        (record { mode = Interleave; buffers = eight ∷ record six { number = 0 } ∷ [] }) }
    ensures among { IsAmongBuffers eight_and_six (record { buffer = six; cycle = 0; first = 0 }) }
    ensures not_among { ¬ IsAmongBuffers one_of_eight
        (record { buffer = six; cycle = 0; first = 0 }) }
    ensures ends { EndsInBuffer (record { buffer = eight; cycle = 0; first = 5 }) 3 }
    ensures ends_past { ¬ EndsInBuffer (record { buffer = eight; cycle = 0; first = 6 }) 3 }
    ensures at_front { IsAtOrPastFront one_of_eight (3 ∷ [])
        (record { buffer = eight; cycle = 0; first = 3 }) }
    ensures before_front { ¬ IsAtOrPastFront one_of_eight (3 ∷ [])
        (record { buffer = eight; cycle = 0; first = 2 }) }
{}
