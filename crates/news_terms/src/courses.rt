//! Laws and worked examples of courses: what a group began, each article with its place.
ghost use Rattle.std.specs.Prelude.{◌≡◌, ◌<◌, ◌≤◌, ℕ, List, [], ◌∷◌, All, length, Some};
ghost use Rattle.news_terms.specs.CourseExamples.{article_at, at_place, found_at_turn};
ghost use Rattle.news_terms.specs.CourseExamples.{found_in_one, later_by_itself, later_eight};
ghost use Rattle.news_terms.specs.Courses.{Course, IsLaid, course_next, course_of, first_course};
ghost use Rattle.news_terms.specs.Courses.{pick_in, place_next, position_in};
ghost use Rattle.news_terms.specs.Fronts.{FitsGroup, HasOwnNumbers};
ghost use Rattle.news_terms.specs.PlaceExamples.{eight, six, eight_then_six, eight_and_six};
ghost use Rattle.news_terms.specs.Places.{Group, Place, extents, front_after, on_line};
ghost use Rattle.news_terms.specs.Positions.{position_of, position_past};

/// The course of a group that began articles of these sizes, and nothing before, has each at the
/// place that follows from the sizes, and the turn of the group's position.
pub fn courses_are_of_sizes()
    ensures { (group : Group) → HasOwnNumbers group → 0 < length group.buffers
        → (sizes : List ℕ) → All (FitsGroup group) sizes
        → course_of group sizes
        ≡ record { turn = (position_of group sizes).index; articles = extents group sizes } }
{}

/// A course on which nothing was begun is laid, and one that is laid stays so: the next article has
/// a place, where the group has a buffer, at the front of it or past it.
pub fn courses_stay_laid()
    ensures first { (group : Group) → IsLaid group first_course }
    ensures place { (group : Group) (course : Course) → IsLaid group course
        → 0 < length group.buffers → (size : ℕ)
        → (place : Place) × (place_next group course size ≡ Some place) }
    ensures past { (group : Group) (course : Course) → HasOwnNumbers group → IsLaid group course
        → (size : ℕ) (place : Place) → place_next group course size ≡ Some place
        → front_after place.buffer course.articles
        ≤ on_line place.buffer.blocks place.cycle place.first }
    ensures next { (group : Group) (course : Course) (size : ℕ) → HasOwnNumbers group
        → IsLaid group course → FitsGroup group size
        → IsLaid group (course_next group course size) }
{}

/// Where a group is after one more article follows from where it was, what it picked and the size:
/// Interleave at the next buffer, Sequential at the buffer that was picked, of whose cycle a fresh
/// article uses its own blocks alone.
pub fn positions_follow()
    ensures moves { (group : Group) (course : Course) → course.turn < length group.buffers
        → (size : ℕ)
        → position_in group (course_next group course size)
        ≡ position_past group.mode group.buffers (position_in group course)
        (pick_in group course size) size }
{}

/// The courses of worked examples: of the sizes of *sequential places*, and of the same sizes where
/// buffers are taken in turn (docs/PROTOCOL.md, Store).
pub fn course_examples()
    ensures sequential { course_of eight_then_six (5 ∷ 4 ∷ 2 ∷ 3 ∷ []) ≡ record {
      turn = 0;
      articles =
          article_at eight 0 0 5 ∷ article_at six 0 0 4 ∷ article_at six 0 4 2
          ∷ article_at eight 1 0 3 ∷ [];
    } }
    ensures interleaved { course_of eight_and_six (5 ∷ 4 ∷ 2 ∷ 3 ∷ []) ≡ record {
      turn = 0;
      articles =
          article_at eight 0 0 5 ∷ article_at six 0 0 4 ∷ article_at eight 0 5 2
          ∷ article_at six 1 0 3 ∷ [];
    } }
{}

/// Where the next articles go of what was found: after the newest in their buffer. Sequential, an
/// article that doesn't fit the rest of its buffer's cycle goes to the front of the next buffer: of
/// a cycle more where this one is in the middle of one, and of its first cycle where it has
/// nothing.
pub fn found_course_examples()
    ensures goes_on { place_next eight_then_six (found_at_turn 0) 2 ≡ Some (at_place eight 2 6) }
    ensures fresh { place_next eight_then_six (found_at_turn 0) 3 ≡ Some (at_place six 2 0) }
    ensures fresh_turn { (course_next eight_then_six (found_at_turn 0) 3).turn ≡ 1 }
    ensures fresh_next { place_next eight_then_six
        (course_next eight_then_six (found_at_turn 0) 3) 3 ≡ Some (at_place six 2 3) }
    ensures first_cycle { place_next eight_then_six found_in_one 3 ≡ Some (at_place six 0 0) }
    ensures later_cycle { place_next later_by_itself first_course 3
        ≡ Some (at_place later_eight 7 0) }
    ensures second_turn { place_next eight_then_six (found_at_turn 1) 2 ≡ Some (at_place six 1 4) }
    ensures back { place_next eight_then_six (found_at_turn 1) 3 ≡ Some (at_place eight 3 0) }
    ensures in_turn { place_next eight_and_six (found_at_turn 0) 2 ≡ Some (at_place eight 2 6) }
    ensures in_turn_full { place_next eight_and_six (found_at_turn 0) 3
        ≡ Some (at_place eight 3 0) }
    ensures in_turn_next { place_next eight_and_six (course_next eight_and_six (found_at_turn 0) 3)
        2 ≡ Some (at_place six 1 4) }
    ensures in_turn_back { (course_next eight_and_six (found_at_turn 1) 2).turn ≡ 0 }
{}

/// Found articles of one buffer lie in order where each begins at the end of those before it, or
/// past it; not where it begins before that end, nor where one ends outside of its buffer. A turn
/// is one of the group's buffers.
pub fn laid_examples()
    ensures found { IsLaid eight_then_six (found_at_turn 1) }
    ensures before { ¬ IsLaid eight_then_six (record {
      turn = 0;
      articles = article_at eight 2 3 3 ∷ article_at eight 2 5 2 ∷ [];
    }) }
    ensures outside { ¬ IsLaid eight_then_six (record {
      turn = 0;
      articles = article_at eight 2 6 3 ∷ [];
    }) }
    ensures other { ¬ IsLaid eight_then_six (record {
      turn = 0;
      articles = article_at (record eight { number = 2 }) 2 0 3 ∷ [];
    }) }
    ensures turn { ¬ IsLaid eight_then_six (found_at_turn 2) }
{}
