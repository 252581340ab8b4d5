//! What is on record and what isn't, in single states.
ghost use Rattle.std.specs.Prelude.{◌≡◌, ◌+◌, ℕ, [], ◌∷◌, Some};
ghost use Rattle.news_terms.specs.Token.{Token};
ghost use Rattle.relay_model.specs.Claims.{Accepted, Begun, Refused, Stored, Storing, Whole};
ghost use Rattle.relay_model.specs.Counted.{IsCounted};
ghost use Rattle.relay_model.specs.Invariants.{IsNumbered};
ghost use Rattle.relay_model.specs.OnRecord.{IsBelow, IsOnRecord, IsTimed, PassesInOrder};
ghost use Rattle.relay_model.specs.State.{Ended, Job, Leaving, Ready};
ghost use Rattle.relay_model.specs.Terms.{last_moment};
ghost use Rattle.relay_model.specs.World.{Finished, empty_world};
ghost use Rattle.relay_facts.specs.Started.{started};
ghost use Rattle.relay_laws.specs.FigureRuns.{one_of_two, three_tokens, untaken};
ghost use Rattle.relay_laws.specs.Records as rows;
ghost use Rattle.relay_laws.specs.Terms.{k1};
ghost use Rattle.relay_laws.specs.Worlds.{three_blocks_at, two_stored};

/// An id may be stored or refused at the last moment, and at none past it.
pub fn moments()
    ensures last_stored { (token : Token) → IsTimed (Stored token last_moment) }
    ensures last_refused { IsTimed (Refused last_moment) }
    ensures stored_past { (token : Token) → ¬ IsTimed (Stored token (last_moment + 1)) }
    ensures refused_past { ¬ IsTimed (Refused (last_moment + 1)) }
{}

/// The front is six. The last block before it is below it, and the next one isn't; nor is what goes
/// past the buffer's end, or names no buffer, or has no octets, or a class that a token has no room
/// for.
pub fn tokens_below()
    ensures last_block { IsBelow k1 one_of_two (rows.one_block_at 5) }
    ensures at_front { ¬ IsBelow k1 one_of_two (rows.one_block_at 6) }
    ensures past_end { ¬ IsBelow k1 rows.three_begun (three_blocks_at 0 6) }
    ensures nameless { ¬ IsBelow k1 one_of_two (record (rows.one_block_at 5) { buffer = 1 }) }
    ensures empty { ¬ IsBelow k1 one_of_two (record (rows.one_block_at 5) { length = 0 }) }
    ensures no_room { ¬ IsBelow k1 one_of_two (record (rows.one_block_at 5) { class = 256 }) }
{}

/// Of a feed no more is taken than is past taking, and no more than it gained.
pub fn feeds_in_order()
    ensures all_taken { PassesInOrder (record { gained = three_tokens; passed = 3; taken = 3 }) }
    ensures taken_past { ¬ PassesInOrder
        (record { gained = three_tokens; passed = 1; taken = 2 }) }
    ensures passed_past { ¬ PassesInOrder
        (record { gained = three_tokens; passed = 4; taken = 0 }) }
{}

/// What isn't on record: a moment past the last one; an article at the front, begun or whole; a
/// token without a text, whole, stored or gained; a feed that is passed further than it gained.
pub fn off_record()
    ensures moment { ¬ IsOnRecord k1 (rows.with_one_claim (Refused (last_moment + 1))) }
    ensures begun { (s : ℕ) (article : Accepted) → ¬ IsOnRecord k1
        (rows.with_one_claim (Storing s article (Begun (rows.one_block_at 6)))) }
    ensures kept { ¬ IsOnRecord k1 (rows.with_one_text (rows.one_block_at 6)) }
    ensures whole { (s : ℕ) (article : Accepted) → ¬ IsOnRecord k1
        (rows.with_one_claim (Storing s article (Whole (three_blocks_at 0 3)))) }
    ensures stored { (moment : ℕ) → ¬ IsOnRecord k1
        (rows.with_one_claim (Stored (three_blocks_at 0 3) moment)) }
    ensures gained { ¬ IsOnRecord k1
        (rows.with_one_feed (untaken (three_blocks_at 0 3 ∷ []))) }
    ensures passed { ¬ IsOnRecord k1
        (rows.with_one_feed (record { gained = []; passed = 1; taken = 0 })) }
{}

/// An article that is finished is to be accepted yet: it is none of those that were.
pub fn finished_is_to_accept()
    ensures { (failures : ℕ → ℕ) (job : Job) (token : Token)
        → ¬ IsCounted k1 (rows.one_accepted failures (Finished job token)) }
{}

/// A session that runs is of a peer, one that leaves too; one that has ended may be of one that is
/// no more.
pub fn peers_of_sessions()
    ensures running { ¬ IsNumbered k1 (rows.of_third_peer Ready) }
    ensures leaving { ¬ IsNumbered k1 (rows.of_third_peer Leaving) }
    ensures ended { IsNumbered k1 (rows.of_third_peer Ended) }
{}

/// After a start the newest session is the one that was, or number 0 where there was none.
pub fn newest_after_a_start()
    ensures none { (failures : ℕ → ℕ)
        → (started (empty_world failures) failures).state.newest ≡ Some 0 }
    ensures third { (failures : ℕ → ℕ)
        → (started (two_stored failures [] []) failures).state.newest ≡ Some 3 }
{}
