//! What a crash leaves, and what holds of all lives of the relay: of runs, with crashes between
//! them.
ghost use Rattle.std.specs.Prelude.{◌≡◌, ◌≢◌, ◌≤◌, ℕ, Bool, true, List, [], Some, slice_get};
ghost use Rattle.std.specs.Prelude.{nat_eq, All};
ghost use Rattle.std.specs.List.{Contains, list_any};
ghost use Rattle.news_terms.specs.Article.{Article, IsArticleText, message_id};
ghost use Rattle.news_terms.specs.Ring.{missed};
ghost use Rattle.news_terms.specs.Token.{Token};
ghost use Rattle.relay_model.specs.Fetches.{fetched, text_under};
ghost use Rattle.relay_model.specs.Fetches as fetches;
ghost use Rattle.relay_model.specs.Invariants.{IsWell};
ghost use Rattle.relay_model.specs.Shares.{as_ring, ring_of};
ghost use Rattle.relay_model.specs.Terms.{Terms};
ghost use Rattle.relay_model.specs.World.{World, empty_world};
ghost use Rattle.relay_facts.specs.Sound.{IsSound};
ghost use Rattle.relay_laws.specs.Laws.{AcceptsStored, Always, GainsOnce, GainsPermitted};
ghost use Rattle.relay_laws.specs.Laws.{OneTextAPlace, is_remembered, texts_of};
ghost use Rattle.relay_model.specs.State.{Kept};
ghost use Rattle.relay_model.specs.Fetches.{IsGoneToken};
ghost use Rattle.relay_model.specs.Crash.{Again, Crash, accepted_again, is_claimed};
ghost use Rattle.relay_model.specs.Crash.{permitted_again};
ghost use Rattle.relay_crashes.specs.Ids.{HasOwnId, HasOwnIdOrNone};
ghost use Rattle.relay_crashes.specs.Rings.{GainsOrFull};
ghost use Rattle.relay_crashes.specs.Lives.{Episode, GoesOn, Lives, LivesRemembering, LivesSaving};

/// What is found again after a crash is well.
pub fn crashed_is_well()
    ensures { (w v : Terms) (saved : Token → Bool) (x y : World) → IsSound v
        → Crash w v saved x y → IsWell v y }
{}

/// What was saved, and no front had passed, is found after the crash: the whole article.
pub fn saved_is_found()
    ensures { (w v : Terms) (saved : Token → Bool) (x y : World) (token : Token) (text : List ℕ)
        → GoesOn w v → Crash w v saved x y → text_under x.state.kept token ≡ Some text
        → saved token ≡ true → ¬ IsGoneToken w x.state token
        → fetched v y.state token ≡ fetches.Article text }
{}

/// In lives in which it was saved at each crash, and not gone, a text is found until it is gone.
pub fn found_in_all_lives()
    ensures { (w v : Terms) (x y : World) (episodes : List Episode) (token : Token)
        (text : List ℕ) → IsSound w → IsWell w x → text_under x.state.kept token ≡ Some text
        → LivesSaving token w x episodes v y → ¬ IsGoneToken v y.state token
        → fetched v y.state token ≡ fetches.Article text }
{}

/// In lives that don't forget it, a message-id has at most one text.
pub fn stored_once_in_all_lives()
    ensures { (w v : Terms) (failures : ℕ → ℕ) (id : List ℕ) (episodes : List Episode) (y : World)
        → id ≢ [] → LivesRemembering id w (empty_world failures) episodes v y
        → texts_of id y.state ≤ 1 }
{}

/// At each place, and so under each token, lies at most one text, whatever crashes came; each feed
/// gained what it is permitted of what is accepted, in order; and all is well.
pub fn all_lives()
    ensures well { (w v : Terms) (failures : ℕ → ℕ) (episodes : List Episode) (y : World)
        → IsSound w → Lives w (empty_world failures) episodes v y → IsWell v y }
    ensures places { (w v : Terms) (failures : ℕ → ℕ) (episodes : List Episode) (y : World)
        → IsSound w → Lives w (empty_world failures) episodes v y → OneTextAPlace y }
    ensures gains { (w v : Terms) (failures : ℕ → ℕ) (episodes : List Episode) (y : World)
        → IsSound w → Lives w (empty_world failures) episodes v y → GainsPermitted y }
    ensures once { (w v : Terms) (failures : ℕ → ℕ) (episodes : List Episode) (y : World)
        → IsSound w → Lives w (empty_world failures) episodes v y → GainsOnce y }
    ensures accepted { (w v : Terms) (failures : ℕ → ℕ) (episodes : List Episode) (y : World)
        → IsSound w → Lives w (empty_world failures) episodes v y → AcceptsStored y }
{}

/// After a crash no feed has more tokens than its ring holds, so none is missed, and numbers begin
/// at 1 again.
pub fn nothing_is_missed()
    ensures { (w v : Terms) (saved : Token → Bool) (x y : World) (f : ℕ) → Crash w v saved x y
        → missed (ring_of (slice_get v.feeds f)) (as_ring (y.state.feed f)) ≡ 0 }
{}

/// Where a text was whole under a token before, no other is found under it.
pub fn found_is_as_before()
    ensures { (w v : Terms) (saved : Token → Bool) (x y : World) (token : Token)
        (before after : List ℕ) → Crash w v saved x y
        → text_under x.state.kept token ≡ Some before
        → text_under y.state.kept token ≡ Some after → after ≡ before }
{}

/// The message-id of each text that is found is remembered, so that no other is taken.
pub fn found_is_remembered()
    ensures { (w v : Terms) (saved : Token → Bool) (x y : World) (one : Kept) (a : Article)
        → Crash w v saved x y → Contains y.state.kept one → IsArticleText one.text a
        → is_remembered (y.state.claim (message_id a.fields)) ≡ true }
{}

/// The message-id of each text that was saved, and that no front had passed, is remembered after
/// the crash.
pub fn saved_is_remembered()
    ensures { (w v : Terms) (saved : Token → Bool) (x y : World) (token : Token) (text : List ℕ)
        (a : Article) → Crash w v saved x y → text_under x.state.kept token ≡ Some text
        → saved token ≡ true → ¬ IsGoneToken w x.state token → IsArticleText text a
        → is_remembered (y.state.claim (message_id a.fields)) ≡ true }
{}

/// Each text that is kept has the message-id of its article: without a crash always, and after
/// crashes too, but for those of which another text was found that is the id's. They have none.
pub fn texts_have_their_ids()
    ensures life { (w : Terms) → IsSound w → Always w (λ x. All HasOwnId x.state.kept) }
    ensures lives { (w v : Terms) (failures : ℕ → ℕ) (episodes : List Episode) (y : World)
        → IsSound w → Lives w (empty_world failures) episodes v y
        → All HasOwnIdOrNone y.state.kept }
{}

/// Of what is found each feed gains what it may have, the newest first to be kept: what it doesn't
/// gain has no room in its ring.
pub fn feeds_gain_the_newest()
    ensures { (w : Terms) (f : ℕ) (texts : List Again)
        → All (λ (one : Again). is_claimed one ≡ true
        → list_any (nat_eq f) (permitted_again w one.read) ≡ true
        → GainsOrFull w f (accepted_again w texts) one.kept.token) texts }
{}
