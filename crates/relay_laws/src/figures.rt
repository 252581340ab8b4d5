//! Laws of the numbers of a report (docs/FORMATS.md, Report).
ghost use Rattle.std.specs.Prelude.{◌≡◌, ◌≢◌, ◌≤◌, ◌+◌, ◌-◌, ◌==◌, ℕ, All, length, filter};
ghost use Rattle.news_terms.specs.Places.{Buffer, Extent, on_line};
ghost use Rattle.relay_model.specs.Fetches.{extents_from, front_of};
ghost use Rattle.relay_model.specs.Figures.{buffer_figures, feed_figures};
ghost use Rattle.relay_model.specs.State.{State, Feed, Kept};
ghost use Rattle.relay_model.specs.Terms.{Terms};
ghost use Rattle.relay_facts.specs.Sound.{IsSound};
ghost use Rattle.relay_laws.specs.Figures.{FeedsAddUp, IsNewestIn, StoresBegun};
ghost use Rattle.relay_laws.specs.Laws.{Always};

/// The cycle and the front that are shown of a buffer are its own: those of the newest article that
/// was begun in it, or of its first cycle where none was.
pub fn fronts_shown_are_own()
    ensures front { (w : Terms) (σ : State) (buffer : Buffer)
        → (buffer_figures w σ buffer).front ≡ front_of w σ buffer }
    ensures cycle { (w : Terms) (σ : State) (buffer : Buffer) (one : Extent)
        → IsNewestIn buffer (extents_from 0 w.groups σ.begun) one
        → (buffer_figures w σ buffer).cycle ≡ one.place.cycle }
    ensures behind { (w : Terms) (σ : State) (buffer : Buffer) (one : Extent)
        → IsNewestIn buffer (extents_from 0 w.groups σ.begun) one
        → (buffer_figures w σ buffer).front
        ≡ on_line buffer.blocks one.place.cycle one.place.first + one.size }
    ensures first { (w : Terms) (σ : State) (buffer : Buffer)
        → All (λ (one : Extent). one.place.buffer.number ≢ buffer.number)
        (extents_from 0 w.groups σ.begun)
        → ((buffer_figures w σ buffer).cycle ≡ buffer.first_cycle)
        × ((buffer_figures w σ buffer).front ≡ on_line buffer.blocks buffer.first_cycle 0) }
{}

/// What is shown as stored of a buffer are the texts that are whole in it, and in no buffer more
/// are stored than were begun.
pub fn stored_is_whole()
    ensures stored { (w : Terms) (σ : State) (buffer : Buffer)
        → (buffer_figures w σ buffer).stored
        ≡ length (filter (λ (one : Kept). one.token.buffer == buffer.number) σ.kept) }
    ensures begun { (w : Terms) (σ : State) (buffer : Buffer)
        → (buffer_figures w σ buffer).begun
        ≡ length (filter (λ (one : Extent). one.place.buffer.number == buffer.number)
        (extents_from 0 w.groups σ.begun)) }
    ensures most { (w : Terms) → IsSound w → Always w (StoresBegun w) }
{}

/// Of a feed at most as many tokens wait as its ring has room for, and as were not passed; what it
/// gained and what neither was taken nor waits was overwritten, and nothing is counted twice.
pub fn tokens_add_up()
    ensures ring { (size : ℕ) (feed : Feed) → (feed_figures size feed).waiting ≤ size }
    ensures unpassed { (size : ℕ) (feed : Feed)
        → (feed_figures size feed).waiting ≤ length feed.gained - feed.passed }
    ensures gained { (size : ℕ) (feed : Feed)
        → (feed_figures size feed).gained ≡ length feed.gained }
    ensures overwritten { (size : ℕ) (feed : Feed) → (feed_figures size feed).overwritten
        ≡ length feed.gained - feed.taken - (feed_figures size feed).waiting }
    ensures sum { (w : Terms) → Always w FeedsAddUp }
{}
