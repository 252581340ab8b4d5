//! What the worked rows leave behind that no reply tells.
ghost use Rattle.std.specs.Prelude.{ℕ, None, Some, [], ◌∷◌, List, replicate};
ghost use Rattle.relay_model.specs.Run.{Step, Restart};
ghost use Rattle.relay_model.specs.World.{World, Refuses, NotIdle, NotRestarted, HasFailedAt};
ghost use Rattle.relay_model.specs.World.{empty_world, with_failures};
ghost use Rattle.relay_laws.specs.Answered.{AreAnswered, LeadTo};
ghost use Rattle.relay_laws.specs.Rows as rows;
ghost use Rattle.relay_laws.specs.StateRows as states;
ghost use Rattle.relay_laws.specs.OtherTerms.{two_groups};
ghost use Rattle.relay_laws.specs.Terms.{k1};
ghost use Rattle.relay_laws.specs.Worlds.{pushing, remembering, two_stored, third_job};
ghost use Rattle.relay_laws.specs.Worlds.{fourth_job, other_job, pushing_to_second, forgetting};
ghost use Rattle.relay_laws.specs.Worlds.{remembering_feed};

/// The moment of an acceptance is that of its Write, the moment of a refusal that of its Turn.
pub fn moments()
    ensures stored { (failures : ℕ → ℕ)
        → LeadTo k1 (empty_world failures) rows.first_script states.IsStoredNow }
    ensures refused { (failures : ℕ → ℕ)
        → LeadTo k1 (empty_world failures) (states.refused_at 7) (states.IsRefusedAt 7) }
{}

/// What a take of a feed's queue counts.
pub fn taken()
    ensures { (failures : ℕ → ℕ) → LeadTo k1 (empty_world failures) rows.ring states.HasTakenTwo }
{}

/// What becomes whole and accepted stands behind what did before.
pub fn kept_in_order()
    ensures { (failures : ℕ → ℕ) → LeadTo k1 (empty_world failures) rows.ring states.AreInOrder }
{}

/// A job joins a queue of 63 as its newest, and stays in the hand where there are 64.
pub fn queue_limit()
    ensures room { (failures : ℕ → ℕ)
        → LeadTo k1 (pushing failures 63) (rows.turns 1 1) (states.HasInHand None 64) }
    ensures newest { (failures : ℕ → ℕ)
        → LeadTo k1 (pushing failures 63) (rows.turns 1 1) (states.IsNewest 64 third_job) }
    ensures full { (failures : ℕ → ℕ)
        → LeadTo k1 (pushing failures 64) (rows.turns 1 1) (states.HasInHand (Some third_job) 64) }
{}

/// It is the queue of the job's own group that has to have room.
pub fn own_queue()
    ensures room { (failures : ℕ → ℕ)
        → LeadTo two_groups (pushing_to_second failures 64 0) (rows.turns 1 1)
        (states.AreQueued None (replicate 64 fourth_job) (other_job ∷ [])) }
    ensures full { (failures : ℕ → ℕ)
        → LeadTo two_groups (pushing_to_second failures 0 64) (rows.turns 1 1)
        (states.AreQueued (Some other_job) [] (replicate 64 other_job)) }
{}

/// The relay is closed and started again: what is remembered stays, what was offered doesn't. It is
/// refused while an id is being stored.
pub fn started_again()
    ensures idle { (failures : ℕ → ℕ)
        → AreAnswered k1 (remembering failures) states.started_again states.started_again_replies }
    ensures busy { (failures : ℕ → ℕ) (one two : List ℕ)
        → AreAnswered k1 (two_stored failures one two) (Restart ∷ []) (Refuses NotIdle ∷ []) }
{}

/// What goes on after it: forgetting begins again with the fronts, feeds go on where they were, and
/// what is stored stays.
pub fn goes_on_again()
    ensures forgetting { (failures : ℕ → ℕ)
        → AreAnswered forgetting (remembering failures) states.started_forgetting
        states.started_forgetting_replies }
    ensures feeding { (failures : ℕ → ℕ) (two : List ℕ)
        → AreAnswered k1 (remembering_feed failures two) states.started_feeding
        states.started_feeding_replies }
{}

/// Where a device fails it may be refused for that; it isn't busy where no id is being stored.
pub fn not_started_again()
    ensures failed { (failures after : ℕ → ℕ) → HasFailedAt 0 failures after
        → Step k1 (remembering failures) Restart (Refuses NotRestarted)
        (with_failures (remembering failures) after) }
    ensures not_busy { (failures : ℕ → ℕ) (y : World)
        → Step k1 (remembering failures) Restart (Refuses NotIdle) y → ⊥ }
{}
