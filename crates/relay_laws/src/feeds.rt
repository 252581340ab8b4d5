//! Rows on feeds and their queues.
ghost use Rattle.std.specs.Prelude.{ℕ};
ghost use Rattle.relay_model.specs.World.{empty_world};
ghost use Rattle.relay_laws.specs.Answered.{AreAnswered};
ghost use Rattle.relay_laws.specs.FeedRows as rows;
ghost use Rattle.relay_laws.specs.OtherTerms.{barring_all, feeding_both};
ghost use Rattle.relay_laws.specs.Rows.{classed};
ghost use Rattle.relay_laws.specs.Terms.{k1, feeding_first};
ghost use Rattle.relay_laws.specs.Worlds.{both_gained};

/// A peer without a feed, where the peer before it has one: 490.
pub fn own_feed_alone()
    ensures { (failures : ℕ → ℕ)
        → AreAnswered feeding_first (empty_world failures) rows.no_feed rows.no_feed_replies }
{}

/// Two peers have a feed each: each is given its own tokens, as many as its own ring holds.
pub fn two_feeds()
    ensures { (failures : ℕ → ℕ)
        → AreAnswered feeding_both (both_gained failures) rows.two_feeds rows.two_feeds_replies }
{}

/// A take lists so many at most, and what it doesn't list stays for the next.
pub fn ring_in_parts()
    ensures { (failures : ℕ → ℕ)
        → AreAnswered k1 (empty_world failures) rows.ring_in_parts rows.ring_in_parts_replies }
{}

/// A feed gains nothing of newsgroups that its expression doesn't permit.
pub fn kept_from_feed()
    ensures { (failures : ℕ → ℕ)
        → AreAnswered barring_all (empty_world failures) classed rows.kept_from_feed_replies }
{}

/// An article that is stored and comes again is gained once.
pub fn sent_again()
    ensures { (failures : ℕ → ℕ)
        → AreAnswered k1 (empty_world failures) rows.sent_again rows.sent_again_replies }
{}
