//! The worked rows from the empty world.
ghost use Rattle.std.specs.Prelude.{ℕ};
ghost use Rattle.relay_model.specs.Terms.{Loop, Size, TooLarge};
ghost use Rattle.relay_model.specs.World.{empty_world};
ghost use Rattle.relay_laws.specs.Answered.{AreAnswered};
ghost use Rattle.relay_laws.specs.LineRows as lines;
ghost use Rattle.relay_laws.specs.OtherTerms.{of_at_most};
ghost use Rattle.relay_laws.specs.Rows as rows;
ghost use Rattle.relay_laws.specs.Terms.{k1, feeding_first, own_is_first, one_block};
ghost use Rattle.relay_laws.specs.Terms.{of_class_two};
ghost use Rattle.relay_laws.specs.Worlds.{running_out};

/// CHECK, TAKETHIS of an article, STAT: 238, 239, 223.
pub fn first_script()
    ensures { (failures : ℕ → ℕ)
        → AreAnswered k1 (empty_world failures) rows.first_script rows.first_replies }
{}

/// Two sessions CHECK one id: 238 to one, 431 to the other until the offer of the first has ended.
pub fn one_claim()
    ensures { (failures : ℕ → ℕ)
        → AreAnswered k1 (empty_world failures) rows.one_claim rows.one_claim_replies }
{}

/// The first session offers, the second sends the article, and then the first does: 239 to the
/// second, 439 to the first.
pub fn offer_taken_over()
    ensures { (failures : ℕ → ℕ)
        → AreAnswered k1 (empty_world failures) rows.taken_over rows.taken_over_replies }
{}

/// An offer runs out after its seconds: the id is offered to who asks next, and an article that
/// comes of the old offer is taken as one that was never offered.
pub fn offer_runs_out()
    ensures { (failures : ℕ → ℕ)
        → AreAnswered running_out (empty_world failures) rows.run_out rows.run_out_replies }
{}

/// An article that comes by IHAVE while another of its id is being stored: 436.
pub fn two_bodies_at_once()
    ensures { (failures : ℕ → ℕ)
        → AreAnswered k1 (empty_world failures) rows.two_bodies rows.two_bodies_replies }
{}

/// One that comes by TAKETHIS then is held until the other is stored: 439.
pub fn held_body()
    ensures { (failures : ℕ → ℕ)
        → AreAnswered k1 (empty_world failures) rows.held_body rows.held_body_replies }
{}

/// An article is sent by IHAVE, and offered once more: 335, 235, 435.
pub fn by_ihave()
    ensures { (failures : ℕ → ℕ)
        → AreAnswered k1 (empty_world failures) rows.by_ihave rows.by_ihave_replies }
{}

/// Blocks that are too long: 439 and 437; their ids are remembered, but not one that is offered to
/// another session.
pub fn refused_block()
    ensures { (failures : ℕ → ℕ)
        → AreAnswered k1 (empty_world failures) rows.refused_block rows.refused_block_replies }
{}

/// Lines that change nothing, each with its reply.
pub fn single_lines()
    ensures { (failures : ℕ → ℕ)
        → AreAnswered k1 (empty_world failures) rows.single_lines rows.single_lines_replies }
{}

/// Events that are refused, each with its first reason.
pub fn refused_events()
    ensures { (failures : ℕ → ℕ)
        → AreAnswered k1 (empty_world failures) rows.refused_events rows.refused_events_replies }
{}

/// A ring of two keeps the last two of three tokens, and says that one was missed.
pub fn ring()
    ensures { (failures : ℕ → ℕ)
        → AreAnswered k1 (empty_world failures) rows.ring rows.ring_replies }
{}

/// An id that is offered while an article of it is being stored: 431 and 436, until it is accepted.
pub fn offered_meanwhile()
    ensures { (failures : ℕ → ℕ)
        → AreAnswered k1
        (empty_world failures) rows.offered_meanwhile rows.offered_meanwhile_replies }
{}

/// An article whose id is remembered as refused: 439.
pub fn refused_stays()
    ensures { (failures : ℕ → ℕ)
        → AreAnswered k1 (empty_world failures) rows.refused_stays rows.refused_stays_replies }
{}

/// A session breaks off with a job in its hand: the article is stored all the same.
pub fn broken_off()
    ensures { (failures : ℕ → ℕ)
        → AreAnswered k1 (empty_world failures) rows.broken_off rows.broken_off_replies }
{}

/// A session that leaves gives its offers up, the oldest first.
pub fn two_offers()
    ensures { (failures : ℕ → ℕ)
        → AreAnswered k1 (empty_world failures) rows.two_offers rows.two_offers_replies }
{}

/// A session breaks off that holds an article: it is gone.
pub fn held_and_broken()
    ensures { (failures : ℕ → ℕ)
        → AreAnswered k1 (empty_world failures) rows.held_and_broken rows.held_and_broken_replies }
{}

/// ARTICLE, HEAD, BODY, OVER and DATE, each with its octets.
pub fn parts()
    ensures { (failures : ℕ → ℕ)
        → AreAnswered k1 (empty_world failures) rows.parts rows.parts_replies }
{}

/// An article of the peer whose feed it is: the feed has none of it, and the Path says where it
/// came from.
pub fn from_second()
    ensures { (failures : ℕ → ℕ)
        → AreAnswered k1 (empty_world failures) rows.from_second rows.from_second_replies }
{}

/// A feed of a peer that is in the Path gains nothing.
pub fn for_first()
    ensures { (failures : ℕ → ℕ)
        → AreAnswered feeding_first (empty_world failures) rows.for_first rows.for_first_replies }
{}

/// The token of an article has the class of its entry.
pub fn classed()
    ensures { (failures : ℕ → ℕ)
        → AreAnswered of_class_two (empty_world failures) rows.classed rows.classed_replies }
{}

/// An article whose Path has the own identity: 439.
pub fn looping()
    ensures { (failures : ℕ → ℕ)
        → AreAnswered own_is_first (empty_world failures) (rows.one_article 1)
        (rows.one_refused Loop) }
{}

/// The updated text has to fit: 480 octets do, 481 do not, where there is one block.
pub fn sizes()
    ensures fits { (failures : ℕ → ℕ)
        → AreAnswered one_block (empty_world failures) (rows.one_article 317) rows.one_stored }
    ensures not { (failures : ℕ → ℕ)
        → AreAnswered one_block (empty_world failures) (rows.one_article 318)
        (rows.one_refused TooLarge) }
{}

/// An article whose text is as long as a block may be is taken, one that is an octet longer isn't:
/// 439. It is the text that counts as it came.
pub fn longest_block()
    ensures taken { (failures : ℕ → ℕ)
        → AreAnswered (of_at_most 149) (empty_world failures) (rows.one_article 1) rows.one_stored }
    ensures not { (failures : ℕ → ℕ)
        → AreAnswered
        (of_at_most 148) (empty_world failures) (rows.one_article 1) (rows.one_refused Size) }
{}

/// A line of 512 octets is read, one of 513 isn't: 501, and the session leaves.
pub fn long_line()
    ensures { (failures : ℕ → ℕ)
        → AreAnswered k1 (empty_world failures) lines.long_line lines.long_line_replies }
{}

/// Octets come while a block is owed, while an article is being stored, and during a fetch; a
/// connection may be gone while a block is owed.
pub fn at_any_time()
    ensures octets { (failures : ℕ → ℕ)
        → AreAnswered k1 (empty_world failures) lines.octets_at_any_time lines.octets_replies }
    ensures broken { (failures : ℕ → ℕ)
        → AreAnswered k1 (empty_world failures) lines.broken_block lines.broken_block_replies }
{}

/// A line that comes in pieces is read once it is whole, and nothing of it is lost before.
pub fn line_in_pieces()
    ensures { (failures : ℕ → ℕ)
        → AreAnswered k1 (empty_world failures) lines.in_pieces lines.in_pieces_replies }
{}

/// The number of a session is above that of every earlier one, and may be 0 where there is none.
pub fn session_numbers()
    ensures { (failures : ℕ → ℕ)
        → AreAnswered k1 (empty_world failures) rows.numbers rows.numbers_replies }
{}

/// At the last moment that there is, nothing is refused for its moment.
pub fn last_moment()
    ensures { (failures : ℕ → ℕ)
        → AreAnswered k1 (empty_world failures) rows.last_moment rows.last_moment_replies }
{}
