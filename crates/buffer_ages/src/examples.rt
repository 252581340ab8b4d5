//! Worked marks and texts of them (docs/FORMATS.md, Ages file), computed.
ghost use Rattle.std.specs.Prelude.{◌≡◌, ◌++◌, ◌∷◌, [], None, Some};
ghost use Rattle.buffer_ages.specs.Examples.{loose_text, mark_at, own_ages, own_marks, own_names};
ghost use Rattle.buffer_ages.specs.Examples.{own_text};
ghost use Rattle.buffer_ages.specs.Marks.{noted, since};
ghost use Rattle.buffer_ages.specs.Text.{ages_octets, read_ages};

/// Since when the oldest article is there of a buffer of 640 blocks: in its first cycle since the
/// first mark that isn't of the empty buffer; one front later the mark at 4 is not past the oldest
/// live place; and once the front has come far no mark is past it. Nobody knows it of what the
/// first mark found there, nor of an empty buffer.
pub fn moments_that_are_told()
    ensures first_cycle { since own_marks 600 640 ≡ Some 1060 }
    ensures at_the_mark { since own_marks 644 640 ≡ Some 1120 }
    ensures later { since own_marks 780 640 ≡ Some 1240 }
    ensures past_all { since own_marks 1240 640 ≡ None }
    ensures found { since (mark_at 70 1120 ∷ []) 700 640 ≡ None }
    ensures empty { since (mark_at 0 1000 ∷ []) 0 640 ≡ None }
    ensures none { since [] 100 640 ≡ None }
{}

/// Marks that are added: the first one, the first of what is no longer empty, and one for each
/// 64th, here ten blocks. A clock that was set back takes away those of a later moment, and marks
/// that the front has not come to are of a buffer that was begun anew.
pub fn marks_that_are_added()
    ensures first { noted [] 5 640 1000 ≡ mark_at 5 1000 ∷ [] }
    ensures empty_no_more { noted (mark_at 0 1000 ∷ []) 1 640 1060
        ≡ mark_at 0 1000 ∷ mark_at 1 1060 ∷ [] }
    ensures still { noted (mark_at 1 1060 ∷ []) 10 640 1120 ≡ mark_at 1 1060 ∷ [] }
    ensures on { noted (mark_at 1 1060 ∷ []) 11 640 1120 ≡ mark_at 1 1060 ∷ mark_at 11 1120 ∷ [] }
    ensures small { noted (mark_at 1 1060 ∷ []) 2 3 1120 ≡ mark_at 1 1060 ∷ mark_at 2 1120 ∷ [] }
    ensures set_back { noted own_marks 700 640 1130
        ≡ mark_at 0 1000 ∷ mark_at 4 1060 ∷ mark_at 70 1120 ∷ mark_at 700 1130 ∷ [] }
    ensures anew { noted own_marks 3 640 1300 ≡ mark_at 0 1000 ∷ mark_at 3 1300 ∷ [] }
{}

/// A text as it is written.
pub fn texts_that_are_written()
    ensures { ages_octets own_ages ≡ own_text }
{}

/// And as it is read, also among lines that don't fit.
pub fn texts_that_are_read()
    ensures own { read_ages own_names own_text ≡ own_ages }
    ensures loose { read_ages own_names loose_text ≡ own_ages }
{}
