//! What holds of every world that a run leads to, proved of the definitions of `relay_model` alone.
//! The crates above cite it: the core's agreement asks that its world is well, and never proves it.
//! There is no code: each function has an empty body, and its contract is what is proved.
#![tactic(auto)]

ghost use Rattle.std.specs.Prelude.{◌≡◌, ◌++◌, ◌≤◌, ◌<◌, ◌^◌, ℕ, List, Some, false, length};
ghost use Rattle.std.specs.Prelude.{slice_get, All, sum_by};
ghost use Rattle.news_terms.specs.Courses.{Course, IsLaid};
ghost use Rattle.news_terms.specs.Places.{Buffer, Group, front_after, on_line};
ghost use Rattle.news_terms.specs.Token.{Token};
ghost use Rattle.relay_model.specs.Awaited.{Errand, WaitsFor};
ghost use Rattle.relay_model.specs.Claims.{Stored, is_storing};
ghost use Rattle.relay_model.specs.Fetches.{text_under, extents_from};
ghost use Rattle.relay_model.specs.Figures.{buffer_figures};
ghost use Rattle.relay_model.specs.Invariants.{IsSized, IsWell};
ghost use Rattle.relay_model.specs.OnRecord.{IsBelow, IsOnRecord};
ghost use Rattle.relay_model.specs.Run.{Event, Run, Step};
ghost use Rattle.relay_model.specs.State.{Job, Kept, Session, Transfer, Waits};
ghost use Rattle.relay_model.specs.Terms.{Terms};
ghost use Rattle.relay_model.specs.World.{World, Output, Finished, empty_world};
ghost use Rattle.relay_facts.specs.Apart.{HasNone};
ghost use Rattle.relay_facts.specs.Sound.{IsSound};
ghost use Rattle.relay_facts.specs.SoundExample.{sound_terms};
ghost use Rattle.relay_facts.specs.Started.{HasSameStore, started};

/// The world before anything came is well, each step from a well world leads to one, and so does
/// each run.
pub fn stay_well()
    ensures begins { (w : Terms) (failures : ℕ → ℕ) → IsWell w (empty_world failures) }
    ensures kept { (w : Terms) (x x' : World) (event : Event) (output : Output) → IsSound w
        → IsWell w x → Step w x event output x' → IsWell w x' }
    ensures run { (w : Terms) (x x' : World) (events : List Event) (outputs : List Output)
        → IsSound w → IsWell w x → Run w x events outputs x' → IsWell w x' }
{}

/// What can be written down at a stop and read back at a start is so in the world before anything
/// came, and each step keeps it.
pub fn stay_on_record()
    ensures begins { (w : Terms) (failures : ℕ → ℕ)
        → IsOnRecord w (empty_world failures).state }
    ensures kept { (w : Terms) (x x' : World) (event : Event) (output : Output) → IsSound w
        → IsSized w x.state → IsOnRecord w x.state → Step w x event output x'
        → IsOnRecord w x'.state }
{}

/// The token of each id that is stored, and each that a feed gained, is below the front of its
/// buffer, and no feed gained more tokens than articles are stored in all buffers together.
pub fn recorded_is_stored()
    ensures stored { (w : Terms) (x : World) (id : List ℕ) (token : Token) (moment : ℕ)
        → IsWell w x → x.state.claim id ≡ Stored token moment → IsBelow w x.state token }
    ensures gained { (w : Terms) (x : World) (f : ℕ) → IsWell w x
        → All (IsBelow w x.state) (x.state.feed f).gained }
    ensures most { (w : Terms) (x : World) (f : ℕ) → IsWell w x
        → length (x.state.feed f).gained
        ≤ sum_by (λ buffer. (buffer_figures w x.state buffer).stored) w.buffers }
{}

/// A relay that is stopped where no id is being stored, and started again, is well by the settings
/// that it is started with: its buffers, groups and feeds stay, its peers may be others.
pub fn started_stays_well()
    ensures { (w v : Terms) (x : World) (failures : ℕ → ℕ) → HasSameStore w v
        → ((id : List ℕ) → is_storing (x.state.claim id) ≡ false) → IsWell w x
        → IsWell v (started x failures) }
{}

/// Of each session at most one thing is on its way: its article is being stored, or a writer is to
/// tell it the outcome, or the outcome is in its slot. Of one that waits there is one, and what is
/// being stored is of its id.
pub fn one_errand()
    ensures one { (w : Terms) (x : World) (s : ℕ) → IsWell w x → Errand x s }
    ensures waits { (w : Terms) (x : World) (s : ℕ) (session : Session) (transfer : Transfer)
        (id : List ℕ) → IsWell w x → x.state.session s ≡ Some session
        → session.phase ≡ Waits transfer id → WaitsFor x s id }
{}

/// What was found whole under a token is found so after more texts became whole.
pub fn found_stays()
    ensures { (kept more : List Kept) (token : Token) (text : List ℕ)
        → text_under kept token ≡ Some text → text_under (kept ++ more) token ≡ Some text }
{}

/// How long a feed's list gets: at most 2^62 tokens, and fewer while an article is to be settled.
/// Each is of an article begun, each of those has a block of a cycle to itself, and there are at
/// most 256 buffers of 2^22 blocks and 2^32 cycles.
pub fn lists_stay_short()
    ensures at_most { (w : Terms) (x : World) (f : ℕ) → IsSound w → IsWell w x
        → length (x.state.feed f).gained ≤ 2 ^ 62 }
    ensures room { (w : Terms) (x : World) (f g : ℕ) (job : Job) (token : Token) → IsSound w
        → IsWell w x → x.work.writer g ≡ Finished job token
        → length (x.state.feed f).gained < 2 ^ 62 }
{}

/// The front of a buffer is moved by the group that has it, and by no other: a buffer that no group
/// has is where its first cycle begins.
pub fn fronts_stay_apart()
    ensures one { (groups : List Group) (begun : ℕ → Course)
        → ((h : ℕ) (other : Group) → slice_get groups h ≡ Some other → IsLaid other (begun h))
        → (g : ℕ) (group : Group) (buffer : Buffer) → slice_get groups g ≡ Some group
        → ((h : ℕ) (other : Group) → slice_get groups h ≡ Some other → (h ≡ g → ⊥)
        → HasNone other buffer.number)
        → front_after buffer (extents_from 0 groups begun)
        ≡ front_after buffer (begun g).articles }
    ensures none { (groups : List Group) (begun : ℕ → Course)
        → ((h : ℕ) (other : Group) → slice_get groups h ≡ Some other → IsLaid other (begun h))
        → (buffer : Buffer)
        → ((h : ℕ) (other : Group) → slice_get groups h ≡ Some other
        → HasNone other buffer.number)
        → front_after buffer (extents_from 0 groups begun)
        ≡ on_line buffer.blocks buffer.first_cycle 0 }
{}

/// There are sound terms.
pub fn sound_example()
    ensures { IsSound sound_terms }
{}
