//! Laws of the lines: worked ones, computed, and that a moment has one text. Nothing of the code
//! stands on them.
ghost use Rattle.std.specs.Prelude.{◌≡◌, ℕ, List, codes};
ghost use Rattle.news_log.specs.Examples as examples;
ghost use Rattle.news_log.specs.Lines.{IsNewsStamp};
ghost use Rattle.news_log.specs.declared.moments.Moment.{Moment};

/// A moment begins a line in one way alone.
pub fn one_text()
    ensures { (moment : Moment) (one other : List ℕ) → IsNewsStamp moment one
        → IsNewsStamp moment other → one ≡ other }
{}

/// An article that was refused, of a day with two digits.
pub fn worked_refusal()
    ensures { examples.Refusal }
{}

/// An article that was accepted, of a day with one digit.
pub fn worked_acceptance()
    ensures { examples.Acceptance }
{}

/// The first moment of all.
pub fn first_moment()
    ensures { examples.IsStampedAs 0 0 (codes "Jan  1 00:00:00.000") }
{}

/// The last moment of a year.
pub fn worked_last_day()
    ensures { examples.IsStampedAs 1_798_761_599 999 (codes "Dec 31 23:59:59.999") }
{}
