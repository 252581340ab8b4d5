//! Laws of forgetting and of a Restart: what ends a remembered message-id, that its article is gone
//! then, and what a Restart keeps and ends.
ghost use Rattle.std.specs.Prelude.{◌≡◌, ◌≢◌, ◌≤◌, ◌<◌, ◌+◌, ℕ, List, Some, None, true, false};
ghost use Rattle.std.specs.Prelude.{length, slice_get, ◌++◌, ◌∷◌, []};
ghost use Rattle.news_terms.specs.Places.{Buffer};
ghost use Rattle.news_terms.specs.Token.{Token};
ghost use Rattle.relay_model.specs.Claims.{Passed, Unknown, Stored, is_storing};
ghost use Rattle.relay_model.specs.Fetches.{front_of};
ghost use Rattle.relay_model.specs.Invariants.{IsWell};
ghost use Rattle.relay_model.specs.Run.{Event, Expire, Restart, Step};
ghost use Rattle.relay_model.specs.State.{Session, Ended, in_phase};
ghost use Rattle.relay_model.specs.Terms.{Terms};
ghost use Rattle.relay_model.specs.World.{World, Output, Quiet, Refuses, Fault, NotIdle};
ghost use Rattle.relay_model.specs.World.{NotRestarted, Reading, Forgetting};
ghost use Rattle.relay_model.specs.World.{empty_world, with_failures};
ghost use Rattle.relay_facts.specs.Sound.{IsSound};
ghost use Rattle.relay_laws.specs.Forgetting.{ForgetsGone, ForgetsOld, FrontsAreRead, IsAtRest};
ghost use Rattle.relay_laws.specs.Forgetting.{FrontsInOrder, IsForgettable, KeepsStore};
ghost use Rattle.relay_laws.specs.Forgetting.{fronts_read, remembered_at};
ghost use Rattle.relay_laws.specs.Laws.{Always, AlwaysFrom, is_remembered};
ghost use Rattle.relay_model.specs.Fetches.{IsGoneToken};

/// A step that ends a remembered id is an Expire of its shard, when it is old enough, and leaves
/// the id unknown.
pub fn remembered_until_expired()
    ensures { (w : Terms) (x y : World) (event : Event) (output : Output) (id : List ℕ)
        (moment : ℕ) → Step w x event output y → remembered_at (x.state.claim id) ≡ Some moment
        → y.state.claim id ≢ x.state.claim id
        → (y.state.claim id ≡ Unknown) × ForgetsOld w id moment event }
{}

/// Where it isn't set after how long ids are forgotten, an Expire changes no claim.
pub fn nothing_is_forgotten_unasked()
    ensures { (w : Terms) (x y : World) (shard now : ℕ) (output : Output) (id : List ℕ)
        → w.remember ≡ None → Step w x (Expire shard now) output y
        → y.state.claim id ≡ x.state.claim id }
{}

/// The fronts that the expirer has read are fronts of buffers, as they are or as they were.
pub fn fronts_are_read()
    ensures begins { (w : Terms) (failures : ℕ → ℕ) → FrontsAreRead w (empty_world failures) }
    ensures kept { (w : Terms) (x y : World) (event : Event) (output : Output) → IsSound w
        → IsWell w x → FrontsAreRead w x → Step w x event output y → FrontsAreRead w y }
    ensures run { (w : Terms) → IsSound w → Always w (FrontsAreRead w) }
{}

/// A stored id is forgotten only where its article is gone: by an Expire, by any step of a run from
/// the beginning, and by all later steps together.
pub fn only_gone_is_forgotten()
    ensures expire { (w : Terms) (x y : World) (shard now : ℕ) (output : Output) (id : List ℕ)
        (token : Token) (moment : ℕ) → IsSound w → FrontsAreRead w x
        → Step w x (Expire shard now) output y → x.state.claim id ≡ Stored token moment
        → y.state.claim id ≡ Unknown → IsGoneToken w x.state token }
    ensures step { (w : Terms) → IsSound w → Always w (ForgetsGone w) }
    ensures run { (w : Terms) → IsSound w → (x : World) → IsWell w x → FrontsAreRead w x
        → (id : List ℕ) (token : Token) (moment : ℕ) → x.state.claim id ≡ Stored token moment
        → AlwaysFrom w x (λ y. y.state.claim id ≢ Stored token moment
        → IsGoneToken w y.state token) }
{}

/// The fronts are read in the order of the buffers, each as it stands then, and all of them before
/// anything is forgotten.
pub fn fronts_are_read_in_order()
    ensures next { (w : Terms) (x y : World) (shard now : ℕ) (fronts : List Passed)
        (buffer : Buffer) → x.work.expirer ≡ Reading fronts
        → slice_get w.buffers (length fronts) ≡ Some buffer
        → Step w x (Expire shard now) Quiet y
        → y.work.expirer ≡ Reading (fronts ++ record {
          buffer = buffer.number;
          blocks = buffer.blocks;
          front = front_of w x.state buffer;
        } ∷ []) }
    ensures begins { (w : Terms) (failures : ℕ → ℕ) → FrontsInOrder w (empty_world failures) }
    ensures kept { (w : Terms) (x y : World) (event : Event) (output : Output)
        → FrontsInOrder w x → Step w x event output y → FrontsInOrder w y }
    ensures run { (w : Terms) → Always w (FrontsInOrder w) }
{}

/// An Expire that is done once the front of each buffer is read forgets an id exactly where the
/// rule says: of its shard, old enough, and either refused, or stored and gone by a front that was
/// read.
pub fn old_and_gone_is_forgotten()
    ensures forgotten { (w : Terms) (x y : World) (shard now : ℕ) (id : List ℕ) → IsSound w
        → FrontsInOrder w x → length w.buffers ≤ length (fronts_read x.work.expirer)
        → Step w x (Expire shard now) Quiet y → IsForgettable w x shard now id
        → y.state.claim id ≡ Unknown }
    ensures kept { (w : Terms) (x y : World) (shard now : ℕ) (id : List ℕ)
        → Step w x (Expire shard now) Quiet y → ¬ IsForgettable w x shard now id
        → y.state.claim id ≡ x.state.claim id }
    ensures stage { (w : Terms) → IsSound w → (x y : World) (shard now left : ℕ)
        (fronts : List Passed) (id : List ℕ) → FrontsInOrder w x
        → x.work.expirer ≡ Forgetting fronts left → Step w x (Expire shard now) Quiet y
        → IsForgettable w x shard now id → y.state.claim id ≡ Unknown }
{}

/// A Restart, done or refused, keeps all that was begun, stored, gained and accepted, and the
/// number of the newest session.
pub fn restart_keeps()
    ensures { (w : Terms) (x y : World) (output : Output) → Step w x Restart output y
        → KeepsStore x.state y.state }
{}

/// A Restart that is done keeps what is remembered and forgets what was only offered; each session
/// has ended, and nobody has anything to do.
pub fn restart_ends()
    ensures remembered { (w : Terms) (x y : World) (id : List ℕ) → Step w x Restart Quiet y
        → is_remembered (x.state.claim id) ≡ true → y.state.claim id ≡ x.state.claim id }
    ensures unknown { (w : Terms) (x y : World) (id : List ℕ) → Step w x Restart Quiet y
        → is_remembered (x.state.claim id) ≡ false → y.state.claim id ≡ Unknown }
    ensures sessions { (w : Terms) (x y : World) (s : ℕ) (session : Session)
        → Step w x Restart Quiet y → x.state.session s ≡ Some session
        → y.state.session s ≡ Some (in_phase session Ended) }
    ensures work { (w : Terms) (x y : World) → Step w x Restart Quiet y → IsAtRest y.work }
{}

/// A Restart is refused as not idle only where an id is being stored, and as not restarted only
/// where a device failed and none is; it is done only where no id is being stored. A refused one
/// changes nothing but how often devices have failed, and where it isn't idle it has called none.
pub fn restart_is_refused_rightly()
    ensures busy { (w : Terms) (x y : World) → Step w x Restart (Refuses NotIdle) y
        → (id : List ℕ) × (is_storing (x.state.claim id) ≡ true) }
    ensures failed { (w : Terms) (x y : World) → Step w x Restart (Refuses NotRestarted) y
        → (i : ℕ) × (buffer : Buffer) × (slice_get w.buffers i ≡ Some buffer)
        × (x.work.failures buffer.number < y.work.failures buffer.number) }
    ensures idle { (w : Terms) (x y : World) (id : List ℕ) → Step w x Restart Quiet y
        → is_storing (x.state.claim id) ≡ false }
    ensures unchanged { (w : Terms) (x y : World) (fault : Fault)
        → Step w x Restart (Refuses fault) y → y ≡ with_failures x y.work.failures }
    ensures tried { (w : Terms) (x y : World) (id : List ℕ)
        → Step w x Restart (Refuses NotRestarted) y → is_storing (x.state.claim id) ≡ false }
    ensures uncalled { (w : Terms) (x y : World) → Step w x Restart (Refuses NotIdle) y → y ≡ x }
{}
