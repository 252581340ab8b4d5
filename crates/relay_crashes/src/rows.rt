//! Worked examples of crashes.
ghost use Rattle.std.specs.Prelude.{◌≡◌, ℕ, List, [], ◌∷◌, codes, map, Some, None};
ghost use Rattle.std.specs.Prelude.{true, false};
ghost use Rattle.std.specs.Str.{byte};
ghost use Rattle.news_terms.specs.Article.{Article, article_text, worked_article};
ghost use Rattle.relay_model.specs.Claims.{Unknown, Stored, Refused};
ghost use Rattle.relay_model.specs.Crash.{Crash, accepted_again, claim_again, permitted_again};
ghost use Rattle.relay_model.specs.Crash.{state_again, world_again};
ghost use Rattle.relay_model.specs.Fetches.{Gone, IsGoneToken, NotKnown, fetched};
ghost use Rattle.relay_model.specs.Fetches as fetches;
ghost use Rattle.relay_model.specs.Judging.{permitted};
ghost use Rattle.relay_model.specs.World.{empty_world};
ghost use Rattle.relay_laws.specs.Terms.{feeding_first, k1, now};
ghost use Rattle.relay_laws.specs.Worlds.{begun_world, remembering_feed, third_job};
ghost use Rattle.relay_laws.specs.Worlds.{three_blocks_at};
ghost use Rattle.relay_crashes.specs.Killed.{IsThree, first_found, found_at, refused_listed};
ghost use Rattle.relay_crashes.specs.Killed.{nothing_found, second_found, twice_found, twice_world};
ghost use Rattle.relay_crashes.specs.Rows.{came_by, four_found, stored_from, three_found};

/// What is found is stored from now on, what is listed and not found is as if refused, and all else
/// is unknown.
pub fn claims_again()
    ensures found { (a b c d : List ℕ) → claim_again (four_found a b c d) (codes "<1@x>")
        ≡ Stored (three_blocks_at 0 3) now }
    ensures listed { (a b c d : List ℕ) → claim_again (four_found a b c d) (codes "<e@x>")
        ≡ Refused 7 }
    ensures unknown { (a b c d : List ℕ) → claim_again (four_found a b c d) (codes "<4@x>")
        ≡ Unknown }
    ensures nobody { (a b c d : List ℕ) → claim_again (four_found a b c d) [] ≡ Unknown }
{}

/// The second peer's feed gains what it may have: not what has been there, nor what is no id's; and
/// where its ring has no room for all of that, the newest.
pub fn gains_again()
    ensures gained { (a b c d : List ℕ)
        → (state_again k1 (four_found a b c d)).feed 0
        ≡ record {
          gained = three_blocks_at 0 3 ∷ three_blocks_at 2 0 ∷ [];
          passed = 0;
          taken = 0;
        } }
    ensures newest { (a b c : List ℕ) → (state_again k1 (three_found a b c)).feed 0
        ≡ record {
          gained = three_blocks_at 1 0 ∷ three_blocks_at 2 0 ∷ [];
          passed = 0;
          taken = 0;
        } }
    ensures accepted { (a b c : List ℕ)
        → map (λ one. one.0) (accepted_again k1 (three_found a b c).texts)
        ≡ three_blocks_at 0 3 ∷ three_blocks_at 1 0 ∷ three_blocks_at 2 0 ∷ [] }
{}

/// Nobody is here after a crash, and no session gets the number of one that a file lists; devices
/// may have failed as often as they like.
pub fn nobody_is_here()
    ensures newest { (a b c d : List ℕ) → (state_again k1 (four_found a b c d)).newest ≡ Some 5 }
    ensures sessions { (a b c d : List ℕ) (s : ℕ)
        → (state_again k1 (four_found a b c d)).session s ≡ None }
    ensures work { (a b c d : List ℕ) (failures : ℕ → ℕ)
        → (world_again k1 (four_found a b c d) failures).work ≡ (empty_world failures).work }
{}

/// Which feeds may have an article is told by what is stored as it was when it came: the peer that
/// brought it is in its Path. Only where that gave another name may its feed have it again.
pub fn permitted_again_as_before()
    ensures before { permitted k1 0 (came_by (codes " one.example!x")) ≡ 0 ∷ [] }
    ensures again { permitted_again k1
        (stored_from k1 0 (came_by (codes " one.example!x"))) ≡ 0 ∷ [] }
    ensures seen_before { permitted k1 0 (came_by (codes " one.example!two.example!x")) ≡ [] }
    ensures seen_again { permitted_again k1
        (stored_from k1 0 (came_by (codes " one.example!two.example!x"))) ≡ [] }
    ensures own_before { permitted feeding_first 0 (came_by (codes " one.example!x")) ≡ [] }
    ensures own_again { permitted_again feeding_first
        (stored_from feeding_first 0 (came_by (codes " one.example!x"))) ≡ [] }
    ensures other_name_before { permitted feeding_first 0 (came_by (codes " three.example!x"))
        ≡ [] }
    ensures other_name_again { permitted_again feeding_first
        (stored_from feeding_first 0 (came_by (codes " three.example!x"))) ≡ 0 ∷ [] }
{}

/// There are texts of three blocks that read as articles of these ids.
pub fn there_are_such_texts()
    ensures first { IsThree (codes "<1@x>") (article_text (worked_article (byte "1") 1292))
        (worked_article (byte "1") 1292) }
    ensures second { IsThree (codes "<2@x>") (article_text (worked_article (byte "2") 1292))
        (worked_article (byte "2") 1292) }
{}

/// A kill while the third article of three blocks is written, of which blocks have come to the
/// device: the second is found again, and the first is overwritten.
pub fn killed_while_writing()
    ensures crash { (failures later : ℕ → ℕ) (one two : List ℕ) (b : Article)
        → IsThree (codes "<2@x>") two b
        → Crash k1 k1 (λ t. true) (begun_world failures one two third_job [] 2)
        (world_again k1 (second_found two b []) later) }
    ensures fetched { (two : List ℕ) (b : Article)
        → fetched k1 (state_again k1 (second_found two b [])) (three_blocks_at 0 3)
        ≡ fetches.Article two }
    ensures gone { (two : List ℕ) (b : Article)
        → fetched k1 (state_again k1 (second_found two b [])) (three_blocks_at 0 0) ≡ Gone }
    ensures claimed { (two : List ℕ) (b : Article)
        → claim_again (second_found two b []) (codes "<2@x>")
        ≡ Stored (three_blocks_at 0 3) found_at }
    ensures unknown { (two : List ℕ) (b : Article)
        → claim_again (second_found two b []) (codes "<3@x>") ≡ Unknown }
{}

/// The power fails while the same article is written, and nothing was flushed: nothing is found,
/// and no id is known.
pub fn power_cut()
    ensures crash { (failures later : ℕ → ℕ) (one two : List ℕ)
        → Crash k1 k1 (λ t. false) (begun_world failures one two third_job [] 2)
        (world_again k1 nothing_found later) }
    ensures lost { fetched k1 (state_again k1 nothing_found) (three_blocks_at 0 3) ≡ NotKnown }
    ensures unknown { claim_again nothing_found (codes "<2@x>") ≡ Unknown }
{}

/// A kill after an id was refused: it is unknown where no file lists it, and refused since the same
/// moment where one does.
pub fn killed_after_refusal()
    ensures refused { (failures : ℕ → ℕ) (two : List ℕ)
        → (remembering_feed failures two).state.claim (codes "<e@x>") ≡ Refused now }
    ensures unlisted { (failures later : ℕ → ℕ) (two : List ℕ) (b : Article)
        → IsThree (codes "<2@x>") two b
        → Crash k1 k1 (λ t. true) (remembering_feed failures two)
        (world_again k1 (second_found two b []) later) }
    ensures unknown { (two : List ℕ) (b : Article)
        → claim_again (second_found two b []) (codes "<e@x>") ≡ Unknown }
    ensures listed { (failures later : ℕ → ℕ) (two : List ℕ) (b : Article)
        → IsThree (codes "<2@x>") two b
        → Crash k1 k1 (λ t. true) (remembering_feed failures two)
        (world_again k1 (second_found two b refused_listed) later) }
    ensures remembered { (two : List ℕ) (b : Article)
        → claim_again (second_found two b refused_listed) (codes "<e@x>") ≡ Refused now }
{}

/// Two texts of one id, of which none was finished: both are found and read by their tokens, one
/// has the id, and the claim names the token of that one.
pub fn two_of_one_id()
    ensures crash { (failures later : ℕ → ℕ) (two three : List ℕ) (b c : Article)
        → IsThree (codes "<2@x>") two b → IsThree (codes "<2@x>") three c
        → Crash k1 k1 (λ t. true) (twice_world failures)
        (world_again k1 (twice_found two three b c) later) }
    ensures first { (two three : List ℕ) (b c : Article)
        → fetched k1 (state_again k1 (twice_found two three b c)) (three_blocks_at 0 3)
        ≡ fetches.Article two }
    ensures second { (two three : List ℕ) (b c : Article)
        → fetched k1 (state_again k1 (twice_found two three b c)) (three_blocks_at 1 0)
        ≡ fetches.Article three }
    ensures claimed { (two three : List ℕ) (b c : Article)
        → claim_again (twice_found two three b c) (codes "<2@x>")
        ≡ Stored (three_blocks_at 1 0) found_at }
    ensures accepted { (two three : List ℕ) (b c : Article)
        → map (λ one. one.0) (accepted_again k1 (twice_found two three b c).texts)
        ≡ three_blocks_at 1 0 ∷ [] }
{}

/// The third article was begun, so that the first is gone; but no block of it came to the device.
/// After a kill the first is found again: *gone stays gone* holds within a life alone.
pub fn gone_is_found_again()
    ensures gone { (failures : ℕ → ℕ) (one two : List ℕ)
        → IsGoneToken k1 (begun_world failures one two third_job [] 0).state
        (three_blocks_at 0 0) }
    ensures crash { (failures later : ℕ → ℕ) (one two : List ℕ) (a b : Article)
        → IsThree (codes "<1@x>") one a → IsThree (codes "<2@x>") two b
        → Crash k1 k1 (λ t. true) (begun_world failures one two third_job [] 0)
        (world_again k1 (first_found one two a b) later) }
    ensures fetched { (one two : List ℕ) (a b : Article)
        → fetched k1 (state_again k1 (first_found one two a b)) (three_blocks_at 0 0)
        ≡ fetches.Article one }
    ensures claimed { (one two : List ℕ) (a b : Article)
        → claim_again (first_found one two a b) (codes "<1@x>")
        ≡ Stored (three_blocks_at 0 0) found_at }
{}
