//! Laws of claims and feeds. They ask nothing of the configuration but that it is sound, where they
//! ask that.
ghost use Rattle.std.specs.Prelude.{◌≤◌, ℕ, List};
ghost use Rattle.relay_model.specs.Run.{Event};
ghost use Rattle.relay_model.specs.Terms.{Terms};
ghost use Rattle.relay_model.specs.World.{World, Output, empty_world};
ghost use Rattle.relay_facts.specs.Sound.{IsSound};
ghost use Rattle.relay_laws.specs.Laws.{Always, EndedHaveNoJob, FetchesKnown, GainsPermitted};
ghost use Rattle.relay_laws.specs.Laws.{IsInOnePlace, OffersAreOpen, RunRemembering, texts_of};

/// In a run that doesn't forget it, a message-id has at most one text.
pub fn stored_once()
    ensures { (w : Terms) (failures : ℕ → ℕ) (id : List ℕ) (events : List Event)
        (outputs : List Output) (x : World)
        → RunRemembering id w (empty_world failures) events outputs x → texts_of id x.state ≤ 1 }
{}

/// Each feed gained the tokens of the accepted articles that it is permitted, no other, in order.
pub fn gains_permitted()
    ensures { (w : Terms) → Always w GainsPermitted }
{}

/// Each message-id that is being stored is in exactly one place.
pub fn in_one_place()
    ensures { (w : Terms) → IsSound w → Always w IsInOnePlace }
{}

/// A message-id that is offered to a session is one of its open offers.
pub fn offers_are_open()
    ensures { (w : Terms) → IsSound w → Always w OffersAreOpen }
{}

/// A fetch by message-id that is under way is never of an unknown token: its article is found, or
/// gone.
pub fn fetches_are_known()
    ensures { (w : Terms) → IsSound w → Always w (FetchesKnown w) }
{}

/// A session that has ended has no job in its hand.
pub fn ended_have_no_job()
    ensures { (w : Terms) → IsSound w → Always w EndedHaveNoJob }
{}
