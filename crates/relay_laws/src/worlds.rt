//! The worked rows that begin in another world, so that they stay short.
ghost use Rattle.std.specs.Prelude.{ℕ, ◌<◌, ◌∷◌, [], List, codes};
ghost use Rattle.news_terms.specs.Article.{Article, IsArticleText};
ghost use Rattle.relay_model.specs.Run.{Step, Turn, Write};
ghost use Rattle.relay_model.specs.State.{Asked};
ghost use Rattle.relay_model.specs.World.{World, Quiet, Sent, HasFailedAt};
ghost use Rattle.relay_laws.specs.Answered.{AreAnswered};
ghost use Rattle.relay_laws.specs.OtherTerms.{two_forgetting, in_last_cycle};
ghost use Rattle.relay_laws.specs.Terms.{k1, now};
ghost use Rattle.relay_laws.specs.WorldRows as rows;
ghost use Rattle.relay_laws.specs.Worlds.{two_stored, begun_world, failed_world, reading_last};
ghost use Rattle.relay_laws.specs.Worlds.{aging, running_out};
ghost use Rattle.relay_laws.specs.Worlds.{third_job, fourth_job, forgetting, remembering};
ghost use Rattle.relay_laws.specs.Worlds.{offering, outdated, sharing, offering_third};
ghost use Rattle.relay_laws.specs.Worlds.{remembering_two, reading_by_token, reading_on, one_begun};

/// An article is lost while it is read, where the begin of another comes before its last block:
/// 430, else 220 and the whole article.
pub fn lost_while_reading()
    ensures lost { (failures : ℕ → ℕ) (one two : List ℕ)
        → AreAnswered k1 (two_stored failures one two) rows.lost_while_reading rows.lost_replies }
    ensures read { (failures : ℕ → ℕ) (one two : List ℕ)
        → AreAnswered k1 (two_stored failures one two) rows.read_before (rows.read_replies one) }
{}

/// One that is lost before the last block is due is said to be lost at once, whatever part of it
/// was asked for.
pub fn lost_early()
    ensures article { (failures : ℕ → ℕ) (one two : List ℕ)
        → AreAnswered k1 (two_stored failures one two)
        (rows.lost_early (codes "ARTICLE <1@x>\r\n")) rows.lost_early_replies }
    ensures head { (failures : ℕ → ℕ) (one two : List ℕ)
        → AreAnswered k1 (two_stored failures one two)
        (rows.lost_early (codes "HEAD <1@x>\r\n")) rows.lost_early_replies }
    ensures body { (failures : ℕ → ℕ) (one two : List ℕ)
        → AreAnswered k1 (two_stored failures one two)
        (rows.lost_early (codes "BODY <1@x>\r\n")) rows.lost_early_replies }
    ensures overview { (failures : ℕ → ℕ) (one two : List ℕ)
        → AreAnswered k1 (two_stored failures one two)
        (rows.lost_early (codes "OVER <1@x>\r\n")) rows.lost_early_replies }
{}

/// HEAD, BODY and OVER of an article of three blocks come by the Turn that reads the third.
pub fn parts_of_three_blocks()
    ensures { (failures : ℕ → ℕ) (one two : List ℕ) (a : Article) → IsArticleText two a
        → AreAnswered k1 (two_stored failures one two) rows.parts_of_three_blocks
        (rows.parts_replies a) }
{}

/// Octets may come during a fetch, and its connection may be gone.
pub fn during_fetch()
    ensures octets { (failures : ℕ → ℕ) (one two : List ℕ)
        → AreAnswered k1 (reading_last failures one two) rows.octets_during_fetch
        (rows.octets_during_fetch_replies one) }
    ensures broken { (failures : ℕ → ℕ) (one two : List ℕ)
        → AreAnswered k1 (reading_last failures one two) rows.break_during_fetch
        rows.break_during_fetch_replies }
{}

/// A token that the front has passed is gone, but not where no article can have had it.
pub fn passed_or_never()
    ensures { (failures : ℕ → ℕ)
        → AreAnswered k1
        (remembering failures) rows.passed_or_never rows.passed_or_never_replies }
{}

/// STAT and XFETCH of an article that is overwritten, of one that is live, and of tokens that never
/// were.
pub fn overwrite()
    ensures { (failures : ℕ → ℕ) (one two : List ℕ)
        → AreAnswered k1 (two_stored failures one two) rows.overwrite (rows.overwrite_replies two) }
{}

/// The write of each block may fail. Then the session is told so, the id may be offered again, what
/// was overwritten stays gone, and the next article begins behind the one that failed.
pub fn failed_write()
    ensures fails { (failures after : ℕ → ℕ) (one two : List ℕ) (written : ℕ) → written < 3
        → HasFailedAt 0 failures after
        → Step k1 (begun_world failures one two third_job (fourth_job ∷ []) written) (Write 0 now)
        Quiet (failed_world after one two third_job (fourth_job ∷ []) written) }
    ensures told { (failures : ℕ → ℕ) (one two : List ℕ) (written : ℕ)
        → AreAnswered k1 (failed_world failures one two third_job (fourth_job ∷ []) written)
        rows.after_failure rows.after_failure_replies }
    ensures told_by_ihave { (failures : ℕ → ℕ) (one two : List ℕ) (written : ℕ)
        → AreAnswered k1 (failed_world failures one two fourth_job [] written)
        rows.fourth_fails rows.fourth_fails_replies }
{}

/// A read may fail, by message-id and by token: 403, at once at whichever block that is.
pub fn failed_read()
    ensures by_id { (failures after : ℕ → ℕ) (one two : List ℕ) → HasFailedAt 0 failures after
        → (y : World) × Step k1 (reading_last failures one two) (Turn 2 now)
        (Sent 2 (codes "403 Device fault\r\n")) y }
    ensures by_token { (failures after : ℕ → ℕ) (one two : List ℕ) → HasFailedAt 0 failures after
        → (y : World) × Step k1 (reading_by_token failures one two) (Turn 2 now)
        (Sent 2 (codes "403 Device fault\r\n")) y }
    ensures at_any_block { (asked : Asked) (had : ℕ) (failures after : ℕ → ℕ) (one two : List ℕ)
        → HasFailedAt 0 failures after
        → (y : World) × Step k1 (reading_on asked had failures one two) (Turn 2 now)
        (Sent 2 (codes "403 Device fault\r\n")) y }
{}

/// An article that begins in the last cycle that a token has room for is stored. The one behind it,
/// which would begin past that cycle, is given up unwritten, and its session is told.
pub fn last_cycle()
    ensures { (failures : ℕ → ℕ)
        → AreAnswered in_last_cycle (one_begun failures) rows.last_cycle rows.last_cycle_replies }
{}

/// An Expire reads a front, or with all fronts it forgets in its shard: what was refused so long
/// ago, and what was stored so long ago and is gone.
pub fn forgotten_ids()
    ensures ids { (failures : ℕ → ℕ)
        → AreAnswered forgetting (remembering failures) rows.forgotten_ids rows.forgotten_replies }
    ensures rounds { (failures : ℕ → ℕ)
        → AreAnswered forgetting (remembering failures) rows.sixteen_expires rows.sixteen_replies }
{}

/// An id is forgotten by the front of the buffer that its article was in.
pub fn forgotten_in_two_buffers()
    ensures { (failures : ℕ → ℕ)
        → AreAnswered two_forgetting (remembering_two failures) rows.forgotten_in_two
        rows.forgotten_in_two_replies }
{}

/// A session may have 256 offers open. One of an id that another session has by now, or that is
/// stored, ends where the id is offered again: 431, 438; by IHAVE too: 436, 435.
pub fn open_offers()
    ensures full { (failures : ℕ → ℕ)
        → AreAnswered k1 (offering failures 256) rows.offers rows.full_replies }
    ensures last { (failures : ℕ → ℕ)
        → AreAnswered k1 (offering failures 255) rows.offers rows.last_replies }
    ensures again { (failures : ℕ → ℕ)
        → AreAnswered k1 (offering failures 256) rows.open_again rows.open_again_replies }
    ensures outdated { (failures : ℕ → ℕ)
        → AreAnswered k1 (outdated failures) rows.outdated_offers rows.outdated_replies }
    ensures by_ihave { (failures : ℕ → ℕ)
        → AreAnswered k1
        (outdated failures) rows.outdated_by_ihave rows.outdated_by_ihave_replies }

    // One that has run out is none of them any more.
    ensures aging { (failures : ℕ → ℕ)
        → AreAnswered running_out (aging failures) rows.new_again rows.new_again_replies }
    ensures staying { (failures : ℕ → ℕ)
        → AreAnswered k1 (aging failures) rows.new_again rows.staying_replies }
{}

/// The open offer of an id ends when its article comes, whether that is refused or stored.
pub fn sent_is_no_offer()
    ensures refused { (failures : ℕ → ℕ)
        → AreAnswered k1
        (offering_third failures) rows.sent_is_no_offer rows.sent_is_no_offer_replies }
    ensures stored { (failures : ℕ → ℕ)
        → AreAnswered k1
        (offering_third failures) rows.stored_is_no_offer rows.stored_is_no_offer_replies }
    ensures by_ihave { (failures : ℕ → ℕ)
        → AreAnswered k1
        (offering_third failures) rows.sent_by_ihave rows.sent_by_ihave_replies }
{}

/// What a session that leaves, an Expire and a refusal leave alone: what is offered to another,
/// what is being stored, what is stored and live.
pub fn kept_from_others()
    ensures { (failures : ℕ → ℕ) (one two : List ℕ)
        → AreAnswered forgetting (sharing failures one two) rows.kept_from_others
        rows.kept_from_others_replies }
{}
