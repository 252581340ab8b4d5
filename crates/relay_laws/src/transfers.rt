//! Rows on what becomes of articles.
ghost use Rattle.std.specs.Prelude.{ℕ, ◌+◌};
ghost use Rattle.relay_model.specs.World.{empty_world};
ghost use Rattle.relay_laws.specs.Answered.{AreAnswered};
ghost use Rattle.relay_laws.specs.TransferRows as rows;
ghost use Rattle.relay_laws.specs.OtherTerms.{two_groups, by_size};
ghost use Rattle.relay_laws.specs.Rows.{classed, classed_replies};
ghost use Rattle.relay_laws.specs.Terms.{k1, now};

/// An article of another message-id than the command's: 439, and the command's is remembered.
pub fn another_id()
    ensures { (failures : ℕ → ℕ)
        → AreAnswered k1 (empty_world failures) rows.another_id rows.another_id_replies }
{}

/// An article is as old as the cutoff allows, or a second older: 439.
pub fn too_old()
    ensures not { (failures : ℕ → ℕ)
        → AreAnswered k1 (empty_world failures) (rows.read_at (now + 864_000)) rows.taken_replies }
    ensures is { (failures : ℕ → ℕ)
        → AreAnswered k1
        (empty_world failures) (rows.read_at (now + 864_001)) rows.refused_replies }
{}

/// It is the size of the text that is stored by which an article has its class.
pub fn classed_by_size()
    ensures { (failures : ℕ → ℕ)
        → AreAnswered by_size (empty_world failures) classed classed_replies }
{}

/// An article that comes by IHAVE once another of its id is stored: 437.
pub fn ihave_comes_late()
    ensures { (failures : ℕ → ℕ)
        → AreAnswered k1
        (empty_world failures) rows.ihave_comes_late rows.ihave_comes_late_replies }
{}

/// A session breaks off whose job is queued: the article is stored all the same.
pub fn queued_and_broken()
    ensures { (failures : ℕ → ℕ)
        → AreAnswered k1
        (empty_world failures) rows.queued_and_broken rows.queued_and_broken_replies }
{}

/// Two groups at work: each article goes to the buffer of its class's group, and is fetched there.
pub fn two_writers()
    ensures { (failures : ℕ → ℕ)
        → AreAnswered two_groups (empty_world failures) rows.two_writers rows.two_writers_replies }
{}
