//! Laws of single rules.
ghost use Rattle.std.specs.Prelude.{◌≡◌, ◌≢◌, ◌++◌, ◌∷◌, [], ◌↔◌, ◌+◌, ◌≤◌, ◌<◌, ◌⊎◌, ℕ, true};
ghost use Rattle.std.specs.Prelude.{false, List};
ghost use Rattle.std.specs.Prelude.{Option, None, Some, Result, Contains, IsSomeAnd, slice_get};
ghost use Rattle.news_terms.specs.Article.{Article};
ghost use Rattle.news_terms.specs.Places.{Buffer, size_of};
ghost use Rattle.news_terms.specs.Reply as replies;
ghost use Rattle.news_terms.specs.Token.{Token};
ghost use Rattle.relay_model.specs.Asks.{Due, IsDue, Pushes, feed_of};
ghost use Rattle.relay_model.specs.Claims.{Accepted, Claim, Offered, Storing, Waiting, Wanted};
ghost use Rattle.relay_model.specs.Claims.{Mine, Stage, Stored, is_storing, is_storing_for};
ghost use Rattle.relay_model.specs.Claims.{Unknown, look_answer, standing};
ghost use Rattle.relay_model.specs.Claims.{offer_answer, after_offer, take_answer, after_take};
ghost use Rattle.relay_model.specs.Claims.{after_refuse, after_release, after_forget, after_settle};
ghost use Rattle.relay_model.specs.Fetches as fetches;
ghost use Rattle.relay_model.specs.Fetches.{Gone, NotRead, buffer_of, fetched, front_of};
ghost use Rattle.relay_model.specs.Fetches.{text_under};
ghost use Rattle.relay_model.specs.Hears.{outcome_heard};
ghost use Rattle.relay_model.specs.Judging.{Judges, is_permitted, permitted};
ghost use Rattle.relay_model.specs.Run.{Event, Step, Open, Bytes, Turn, Write, Break, Expire};
ghost use Rattle.relay_model.specs.Run.{Restart};
ghost use Rattle.relay_model.specs.Run.{refusal};
ghost use Rattle.relay_model.specs.Shares.{Reading, ToRead};
ghost use Rattle.relay_model.specs.State.{State, Session, Transfer, Job, Waits, Leaving, Ended};
ghost use Rattle.relay_model.specs.Terms.{Terms, FeedTerms, Reason};
ghost use Rattle.relay_model.specs.World.{World, Output, Outcome, IsKept, Speaks};
ghost use Rattle.relay_model.specs.World.{Refuses, Rejects, Fault, Memory, NoSession};
ghost use Rattle.relay_model.specs.Writers.{Stores, Fails, Accepts, Abandons};
ghost use Rattle.relay_laws.specs.Calm.{IsCalm, CalmRun};
ghost use Rattle.relay_laws.specs.Rules.{IsNotOf, IsLiveToken, WasJudged};
ghost use Rattle.relay_model.specs.Fetches.{IsGoneToken};

/// What is not this session's stays as it is when the session's article is refused, its open offer
/// ends, or the writer gives its article up or has stored it.
pub fn others_keep_theirs()
    ensures refused { (s now : ℕ) (claim : Claim) → IsNotOf s claim
        → after_refuse s now claim ≡ claim }
    ensures released { (s : ℕ) (claim : Claim) → IsNotOf s claim → after_release s claim ≡ claim }
    ensures forgotten { (s : ℕ) (claim : Claim) → IsNotOf s claim → after_forget s claim ≡ claim }
    ensures settled { (s : ℕ) (token : Token) (now : ℕ) (claim : Claim) → IsNotOf s claim
        → after_settle s token now claim ≡ claim }
{}

/// An id is being stored for a session just where its claim says so.
pub fn storing_is_storing()
    ensures for_it { (s : ℕ) (claim : Claim) → (is_storing_for s claim ≡ true)
        ↔ ((article : Accepted) × (stage : Stage) × (claim ≡ Storing s article stage)) }
    ensures for_any { (claim : Claim) → (is_storing claim ≡ true)
        ↔ ((s : ℕ) × (article : Accepted) × (stage : Stage)
        × (claim ≡ Storing s article stage)) }
{}

/// The writer settles and forgets the ids alone that are being stored for the session.
pub fn only_storing_ends()
    ensures forgotten { (s : ℕ) (claim : Claim) → is_storing_for s claim ≡ false
        → after_forget s claim ≡ claim }
    ensures settled { (s : ℕ) (token : Token) (now : ℕ) (claim : Claim)
        → is_storing_for s claim ≡ false → after_settle s token now claim ≡ claim }
{}

/// A look is answered the token of an id that is stored, and of no other.
pub fn looks_are_stored()
    ensures { (claim : Claim) (token : Token) → (look_answer claim ≡ Some token)
        ↔ ((moment : ℕ) × (claim ≡ Stored token moment)) }
{}

/// The feed that a peer takes from is one of its own, and a peer that has one is given it.
pub fn own_feed_is_taken()
    ensures own { (w : Terms) (peer feed : ℕ) → feed_of w peer ≡ Some feed
        → IsSomeAnd (slice_get w.feeds feed) (λ one. one.peer ≡ peer) }
    ensures given { (w : Terms) (peer feed : ℕ) (one : FeedTerms)
        → slice_get w.feeds feed ≡ Some one → one.peer ≡ peer → feed_of w peer ≢ None }
{}

/// A session that is told to send an article has the offer of its id; else nothing has changed.
pub fn one_is_told_to_send()
    ensures told { (s now : ℕ) (claim : Claim) → offer_answer s claim ≡ Wanted
        → ((after_offer s now claim ≡ Offered s now) × (claim ≡ Unknown))
        ⊎ ((since : ℕ) × (after_offer s now claim ≡ Offered s since) × (claim ≡ Offered s since)) }
    ensures untold { (s now : ℕ) (claim : Claim) → offer_answer s claim ≢ Wanted
        → after_offer s now claim ≡ claim }
{}

/// An offer that is older than offers may be is none, every other claim stands, and where offers
/// don't run out all do. An article is taken as if its id had not been offered.
pub fn old_offers_are_none()
    ensures old { (seconds now s since : ℕ) → since + seconds < now
        → standing (Some seconds) now (Offered s since) ≡ Unknown }
    ensures young { (seconds now s since : ℕ) → now ≤ since + seconds
        → standing (Some seconds) now (Offered s since) ≡ Offered s since }
    ensures others { (offers : Option ℕ) (now : ℕ) (claim : Claim)
        → ((s since : ℕ) → claim ≢ Offered s since) → standing offers now claim ≡ claim }
    ensures all_stand { (now : ℕ) (claim : Claim) → standing None now claim ≡ claim }
    ensures taken { (offers : Option ℕ) (s now : ℕ) (claim : Claim)
        → take_answer s (standing offers now claim) ≡ take_answer s claim }
    ensures stored { (offers : Option ℕ) (s now : ℕ) (article : Accepted) (claim : Claim)
        → after_take s article (standing offers now claim) ≡ after_take s article claim }
{}

/// A session that is to store an article has its id from then on; else nothing has changed.
pub fn one_stores()
    ensures stores { (s : ℕ) (article : Accepted) (claim : Claim) → take_answer s claim ≡ Mine
        → after_take s article claim ≡ Storing s article Waiting }
    ensures leaves { (s : ℕ) (article : Accepted) (claim : Claim) → take_answer s claim ≢ Mine
        → after_take s article claim ≡ claim }
{}

/// What an acceptance does to a claim is what settling says, and what giving an article up does to
/// one is what forgetting says.
pub fn writers_settle_and_forget()
    ensures settled { (σ σ' : State) (job : Job) (token : Token) (now : ℕ)
        → Accepts σ job token now σ'
        → σ'.claim job.id ≡ after_settle job.session token now (σ.claim job.id) }
    ensures forgotten { (w : Terms) (σ σ' : State) (job : Job) → Abandons w σ job σ'
        → σ'.claim job.id ≡ after_forget job.session (σ.claim job.id) }
{}

/// A block has at most one judgement, and is never without one.
pub fn one_judgement()
    ensures most { (w : Terms) (from : ℕ) (id : List ℕ) (now : ℕ) (text : Option (List ℕ))
        (one other : Result Accepted Reason) → Judges w from id now text one
        → Judges w from id now text other → one ≡ other }
    ensures least { (w : Terms) (from : ℕ) (id : List ℕ) (now : ℕ) (text : Option (List ℕ))
        → ¬ ((one : Result Accepted Reason) → ¬ Judges w from id now text one) }
{}

/// The feeds that an article is permitted for are those that may have it, no other; each of them
/// gains exactly its token when it is accepted, and no other feed anything.
pub fn accepted_as_permitted()
    ensures permitted { (w : Terms) (from feed : ℕ) (a : Article)
        → Contains (permitted w from a) feed
        ↔ IsSomeAnd (slice_get w.feeds feed) (λ one. is_permitted w from a one ≡ true) }
    ensures gains { (σ σ' : State) (job : Job) (token : Token) (now feed : ℕ)
        → Accepts σ job token now σ' → Contains job.article.permitted feed
        → σ'.feed feed ≡ record (σ.feed feed) {
          gained = (σ.feed feed).gained ++ token ∷ [];
        } }
    ensures others { (σ σ' : State) (job : Job) (token : Token) (now feed : ℕ)
        → Accepts σ job token now σ' → ¬ Contains job.article.permitted feed
        → σ'.feed feed ≡ σ.feed feed }
{}

/// A fetch says gone only where the front has passed the token's place, gives a text only where it
/// is whole under this token and live, and finds what is whole and live.
pub fn fetches_are_true()
    ensures gone { (w : Terms) (σ : State) (token : Token) → fetched w σ token ≡ Gone
        → IsGoneToken w σ token }
    ensures whole { (w : Terms) (σ : State) (token : Token) (text : List ℕ)
        → fetched w σ token ≡ fetches.Article text → text_under σ.kept token ≡ Some text }
    ensures live { (w : Terms) (σ : State) (token : Token) (text : List ℕ)
        → fetched w σ token ≡ fetches.Article text → IsLiveToken w σ token }
    ensures found { (w : Terms) (σ : State) (token : Token) (text : List ℕ)
        → IsLiveToken w σ token → text_under σ.kept token ≡ Some text
        → fetched w σ token ≡ fetches.Article text }
{}

/// What is gone had an octet at least, and lay whole in its buffer.
pub fn gone_was_whole_in_its_buffer()
    ensures some { (w : Terms) (σ : State) (token : Token) → fetched w σ token ≡ Gone
        → 1 ≤ token.length }
    ensures inside { (w : Terms) (σ : State) (token : Token) (buffer : Buffer)
        → fetched w σ token ≡ Gone → buffer_of w token ≡ Some buffer
        → token.first + size_of token.length ≤ buffer.blocks }
{}

/// Octets and a break may come to a session in every phase but where it leaves or has ended, and in
/// these two they are refused.
pub fn octets_may_come()
    ensures taken { (w : Terms) (σ : State) (s : ℕ) (piece : List ℕ) (session : Session)
        → σ.session s ≡ Some session → session.phase ≢ Leaving → session.phase ≢ Ended
        → (refusal w σ (Bytes s piece) ≡ None) × (refusal w σ (Break s) ≡ None) }
    ensures leaving { (w : Terms) (σ : State) (s : ℕ) (piece : List ℕ) (session : Session)
        → σ.session s ≡ Some session → session.phase ≡ Leaving
        → (refusal w σ (Bytes s piece) ≡ Some NoSession)
        × (refusal w σ (Break s) ≡ Some NoSession) }
    ensures ended { (w : Terms) (σ : State) (s : ℕ) (piece : List ℕ) (session : Session)
        → σ.session s ≡ Some session → session.phase ≡ Ended
        → (refusal w σ (Bytes s piece) ≡ Some NoSession)
        × (refusal w σ (Break s) ≡ Some NoSession) }
    ensures absent { (w : Terms) (σ : State) (s : ℕ) (piece : List ℕ) → σ.session s ≡ None
        → (refusal w σ (Bytes s piece) ≡ Some NoSession)
        × (refusal w σ (Break s) ≡ Some NoSession) }
{}

/// A read fails only of a token whose place is live: what the numbers decide, no device is asked.
pub fn only_live_reads_fail()
    ensures { (w : Terms) (x y : World) (token : Token) → Reading w x token (ToRead NotRead) y
        → IsLiveToken w x.state token }
{}

/// An Open, octets and a Turn may always be answered that memory is wanted, with nothing changed; a
/// Write, a Break and an Expire never are.
pub fn memory_is_wanted_by_some()
    ensures opens { (w : Terms) (x : World) (session peer : ℕ)
        → Step w x (Open session peer) (Refuses Memory) x }
    ensures octets { (w : Terms) (x : World) (session : ℕ) (piece : List ℕ)
        → Step w x (Bytes session piece) (Refuses Memory) x }
    ensures turns { (w : Terms) (x : World) (session now : ℕ)
        → Step w x (Turn session now) (Refuses Memory) x }
    ensures writes { (w : Terms) (x y : World) (group now : ℕ)
        → ¬ Step w x (Write group now) (Refuses Memory) y }
    ensures breaks { (w : Terms) (x y : World) (session : ℕ)
        → ¬ Step w x (Break session) (Refuses Memory) y }
    ensures expires { (w : Terms) (x y : World) (shard now : ℕ)
        → ¬ Step w x (Expire shard now) (Refuses Memory) y }
{}

/// An event that is refused changes nothing, but for a Restart, which may have called devices.
pub fn refused_changes_nothing()
    ensures { (w : Terms) (x y : World) (event : Event) (fault : Fault) → event ≢ Restart
        → Step w x event (Refuses fault) y → y ≡ x }
{}

/// An article is refused for the reason by which it was judged, from the session's peer at that
/// moment, and nothing else is said to be refused.
pub fn refusals_are_judged()
    ensures { (w : Terms) (x y : World) (s now to : ℕ) (octets : List ℕ) (reason : Reason)
        → Step w x (Turn s now) (Rejects to octets reason) y → WasJudged w x s now reason }
{}

/// No front moves where a text becomes whole, fails, is accepted or is given up: a begin alone
/// moves one.
pub fn only_begins_move_fronts()
    ensures stored { (w : Terms) (σ σ' : State) (job : Job) (token : Token) (buffer : Buffer)
        → Stores σ job token σ' → front_of w σ' buffer ≡ front_of w σ buffer }
    ensures failed { (w : Terms) (σ σ' : State) (job : Job) (token : Token) (buffer : Buffer)
        → Fails σ job token σ' → front_of w σ' buffer ≡ front_of w σ buffer }
    ensures accepted { (w : Terms) (σ σ' : State) (job : Job) (token : Token) (now : ℕ)
        (buffer : Buffer) → Accepts σ job token now σ'
        → front_of w σ' buffer ≡ front_of w σ buffer }
    ensures abandoned { (w : Terms) (σ σ' : State) (job : Job) (buffer : Buffer)
        → Abandons w σ job σ' → front_of w σ' buffer ≡ front_of w σ buffer }
{}

/// A session that waits or leaves pushes the job in its hand before it does anything else.
pub fn jobs_are_pushed_first()
    ensures waiting { (w : Terms) (session : Session) (now : ℕ) (due : Due) (transfer : Transfer)
        (id : List ℕ) (job : Job) → session.phase ≡ Waits transfer id → session.hand ≡ Some job
        → IsDue w session now due → due.ask ≡ Pushes job }
    ensures leaving { (w : Terms) (session : Session) (now : ℕ) (due : Due) (job : Job)
        → session.phase ≡ Leaving → session.hand ≡ Some job → IsDue w session now due
        → due.ask ≡ Pushes job }
{}

/// That an article was kept (239, 235) is said only where that is its outcome.
pub fn kept_is_said_of_kept()
    ensures streaming { (session : Session) (transfer : Transfer) (id : List ℕ) (outcome : Outcome)
        → (outcome_heard session transfer id outcome).said ≡ Speaks (replies.Kept id)
        → outcome ≡ IsKept }
    ensures offered { (session : Session) (transfer : Transfer) (id : List ℕ) (outcome : Outcome)
        → (outcome_heard session transfer id outcome).said ≡ Speaks replies.IhaveKept
        → outcome ≡ IsKept }
{}

/// An event has one answer, and leads to one world, where memory is there and no device fails.
pub fn one_answer()
    ensures step { (w : Terms) (x y z : World) (event : Event) (one other : Output)
        → Step w x event one y → Step w x event other z → IsCalm x one y → IsCalm x other z
        → (one ≡ other) × (y ≡ z) }
    ensures run { (w : Terms) (x y z : World) (events : List Event) (outputs others : List Output)
        → CalmRun w x events outputs y → CalmRun w x events others z
        → (outputs ≡ others) × (y ≡ z) }
{}
