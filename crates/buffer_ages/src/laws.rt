//! Laws of marks. Nothing of the code stands on them.
ghost use Rattle.std.specs.Prelude.{◌≡◌, ◌++◌, ◌∷◌, ◌<◌, ◌≤◌, [], ℕ, All, List, Some, false};
ghost use Rattle.std.specs.Prelude.{length};
ghost use Rattle.buffer_ages.specs.Laws.{AreInOrder, IsNamedOther, IsSince, IsWritable};
ghost use Rattle.buffer_ages.specs.Marks.{is_due, most_marks, noted, oldest_live, since};
ghost use Rattle.buffer_ages.specs.Text.{BufferAges, ages_in, ages_octets};
ghost use Rattle.buffer_ages.specs.declared.marks.Mark.{Mark};
ghost use Rattle.relay_conf.specs.Lines.{lines_of};

/// What is told is the moment of the first mark past the oldest live place, with one before it.
pub fn since_is_told()
    ensures is { (marks : List Mark) (front blocks moment : ℕ)
        → since marks front blocks ≡ Some moment
        → IsSince marks (oldest_live front blocks) moment }
    ensures only { (marks : List Mark) (front blocks moment : ℕ)
        → IsSince marks (oldest_live front blocks) moment
        → since marks front blocks ≡ Some moment }
{}

/// Where the front was at each mark's moment as far as the mark says, or farther, each place to
/// which it has come since the moment that is told is live: what came since then is there.
pub fn what_came_since_is_there()
    ensures { (front_at : ℕ → ℕ) (marks : List Mark) (front blocks moment place : ℕ)
        → All (λ mark. mark.front ≤ front_at mark.moment) marks
        → since marks front blocks ≡ Some moment → front_at moment ≤ place
        → oldest_live front blocks < place }
{}

/// A buffer has no more marks than it may have, those of a text neither.
pub fn marks_are_few()
    ensures noted { (marks : List Mark) (front blocks moment : ℕ) → length marks ≤ most_marks
        → length (noted marks front blocks moment) ≤ most_marks }
    ensures read { (lines : List (List ℕ)) (name : List ℕ)
        → length (ages_in lines name).marks ≤ most_marks }
{}

/// A front that doesn't move makes no mark.
pub fn still_fronts_make_none()
    ensures { (marks : List Mark) (mark : Mark) (blocks : ℕ)
        → is_due (marks ++ mark ∷ []) mark.front blocks ≡ false }
{}

/// Marks that are in order are so with what is noted: each goes on from the one before.
pub fn noted_marks_are_in_order()
    ensures { (marks : List Mark) (front blocks moment : ℕ) → AreInOrder marks
        → AreInOrder (noted marks front blocks moment) }
{}

/// The marks of a buffer are read as they were written, where no other buffer has its name.
pub fn read_back()
    ensures { (front : List BufferAges) (ages : BufferAges) (behind : List BufferAges)
        → All IsWritable (front ++ ages ∷ behind) → AreInOrder ages.marks
        → All (IsNamedOther ages.name) front → All (IsNamedOther ages.name) behind
        → ages_in (lines_of (ages_octets (front ++ ages ∷ behind))) ages.name ≡ ages }
{}
