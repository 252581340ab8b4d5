//! Worked examples: what a relay that stopped goes on with where its configuration has changed.
ghost use Rattle.std.specs.Prelude.{◌≡◌, ◌∷◌, [], codes, true};
ghost use Rattle.named_history.specs.Fitting.{new_feed};
ghost use Rattle.named_history.specs.Naming.{is_of, named};
ghost use Rattle.names_laws.specs.Rows.{both, first_feed, full_feed, last_feed, names_with};
ghost use Rattle.names_laws.specs.Rows.{old_feeds, old_groups, old_names, old_stop};
ghost use Rattle.names_laws.specs.Rows.{second_alone, stop_with, token_at};

/// Nothing has changed.
pub fn nothing_changed()
    ensures of { is_of old_names old_stop ≡ true }
    ensures named { named old_names old_names (4 ∷ 3 ∷ 4 ∷ []) old_stop ≡ old_stop }
{}

/// The first two feeds were interchanged.
pub fn feeds_interchanged()
    ensures { named old_names
        (names_with old_groups (codes "p2" ∷ codes "p1" ∷ codes "p3" ∷ []))
        (3 ∷ 4 ∷ 4 ∷ []) old_stop
        ≡ stop_with (1 ∷ 0 ∷ []) (full_feed ∷ first_feed ∷ last_feed ∷ []) }
{}

/// The second feed was dropped.
pub fn feed_dropped()
    ensures { named old_names (names_with old_groups (codes "p1" ∷ codes "p3" ∷ []))
        (4 ∷ 4 ∷ []) old_stop
        ≡ stop_with (1 ∷ 0 ∷ []) (first_feed ∷ last_feed ∷ []) }
{}

/// A feed was put before the others.
pub fn feed_added()
    ensures { named old_names (names_with old_groups (codes "p4" ∷ old_feeds))
        (4 ∷ 4 ∷ 3 ∷ 4 ∷ []) old_stop
        ≡ stop_with (1 ∷ 0 ∷ []) (new_feed ∷ first_feed ∷ full_feed ∷ last_feed ∷ []) }
{}

/// The first feed's ring has room for one token: of the two that waited the newer one is left, and
/// the other is past taking.
pub fn smaller_ring()
    ensures { named old_names old_names (1 ∷ 3 ∷ 4 ∷ []) old_stop
        ≡ stop_with (1 ∷ 0 ∷ []) (record {
          gained = 4;
          passed = 3;
          taken = 1;
          waiting = token_at 3 ∷ [];
        }
        ∷ full_feed ∷ last_feed ∷ []) }
{}

/// The second feed's ring has room for eight tokens: the three that waited are left, and the four
/// that the smaller ring had lost are past taking.
pub fn larger_ring()
    ensures { named old_names old_names (4 ∷ 8 ∷ 4 ∷ []) old_stop
        ≡ stop_with (1 ∷ 0 ∷ []) (first_feed ∷ record {
          gained = 9;
          passed = 6;
          taken = 2;
          waiting = token_at 6 ∷ token_at 7 ∷ token_at 8 ∷ [];
        }
        ∷ last_feed ∷ []) }
{}

/// The second buffer was taken out of the first group, whose turn it was: the group goes on with
/// the first, which is the next round.
pub fn buffer_at_turn_gone()
    ensures { named old_names
        (names_with (record { name = codes "alt"; buffers = codes "A" ∷ [] } ∷ second_alone ∷ [])
        old_feeds) (4 ∷ 3 ∷ 4 ∷ []) old_stop
        ≡ stop_with (0 ∷ 0 ∷ []) old_stop.feeds }
{}

/// The first group's buffers were interchanged: its turn is where the second one now is.
pub fn buffers_interchanged()
    ensures { named old_names
        (names_with (record { name = codes "alt"; buffers = codes "B" ∷ codes "A" ∷ [] }
        ∷ second_alone ∷ []) old_feeds) (4 ∷ 3 ∷ 4 ∷ []) old_stop
        ≡ stop_with (0 ∷ 0 ∷ []) old_stop.feeds }
{}

/// The second group was dropped.
pub fn group_dropped()
    ensures { named old_names (names_with (both ∷ []) old_feeds) (4 ∷ 3 ∷ 4 ∷ []) old_stop
        ≡ stop_with (1 ∷ []) old_stop.feeds }
{}

/// A group of both buffers was put before the others.
pub fn group_added()
    ensures { named old_names
        (names_with (record { name = codes "new"; buffers = codes "A" ∷ codes "B" ∷ [] }
        ∷ old_groups) old_feeds) (4 ∷ 3 ∷ 4 ∷ []) old_stop
        ≡ stop_with (0 ∷ 1 ∷ 0 ∷ []) old_stop.feeds }
{}
