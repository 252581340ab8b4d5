//! The numbers of a report, computed.
ghost use Rattle.std.specs.Prelude.{◌≡◌, [], ◌∷◌};
ghost use Rattle.relay_model.specs.Figures.{buffer_figures, feed_figures};
ghost use Rattle.relay_laws.specs.FigureRuns as rows;
ghost use Rattle.relay_laws.specs.OtherTerms.{in_turn, buffer_b};
ghost use Rattle.relay_laws.specs.Terms.{k1, buffer_a};
ghost use Rattle.relay_laws.specs.Worlds.{three_blocks_at};

/// What waits in a feed's ring isn't overwritten. A ring of two that gained three tokens has two,
/// and one was overwritten; what was taken, wasn't.
pub fn of_feeds()
    ensures waits { feed_figures 2 (rows.untaken (three_blocks_at 0 0 ∷ []))
        ≡ record { waiting = 1; gained = 1; overwritten = 0 } }
    ensures overwritten { feed_figures 2 (rows.untaken rows.three_tokens)
        ≡ record { waiting = 2; gained = 3; overwritten = 1 } }
    ensures taken { feed_figures 2 (record { gained = rows.three_tokens; passed = 2; taken = 2 })
        ≡ record { waiting = 1; gained = 3; overwritten = 0 } }
    ensures all_taken { feed_figures 2
        (record { gained = rows.three_tokens; passed = 3; taken = 2 })
        ≡ record { waiting = 0; gained = 3; overwritten = 1 } }
{}

/// What was begun is stored once it is whole.
pub fn of_one_buffer()
    ensures begun { buffer_figures k1 rows.one_begun buffer_a
        ≡ record { cycle = 0; front = 3; begun = 1; stored = 0 } }
    ensures stored { buffer_figures k1 rows.one_of_two buffer_a
        ≡ record { cycle = 0; front = 6; begun = 2; stored = 1 } }
{}

/// Each buffer has its own cycle, front and counts.
pub fn of_two_buffers()
    ensures first { buffer_figures in_turn rows.taken_in_turn buffer_a
        ≡ record { cycle = 0; front = 3; begun = 3; stored = 0 } }
    ensures second { buffer_figures in_turn rows.taken_in_turn buffer_b
        ≡ record { cycle = 1; front = 11; begun = 3; stored = 1 } }
{}
