//! Laws of the judgement of articles: of what is accepted no reason applies, and of several reasons
//! the first in their order is said.
ghost use Rattle.std.specs.Prelude.{◌≡◌, ◌≢◌, ℕ, true, false, List, None, Some};
ghost use Rattle.std.specs.Prelude.{Result, Ok, Err, length};
ghost use Rattle.news_terms.specs.Article.{Article, IsArticleText, message_id, newsgroups};
ghost use Rattle.news_terms.specs.Dates.{date_fault};
ghost use Rattle.news_terms.specs.Path.{has_identity};
ghost use Rattle.news_terms.specs.Pattern.{permits};
ghost use Rattle.news_terms.specs.StorageClass.{Entry, chosen_entry};
ghost use Rattle.relay_model.specs.Claims.{Accepted};
ghost use Rattle.relay_model.specs.HashFeeds.{in_hash_feed};
ghost use Rattle.relay_model.specs.Judging.{Judges, identity_of, is_permitted, judged, path_of};
ghost use Rattle.relay_model.specs.Judging.{permitted, second_of, stored_text};
ghost use Rattle.relay_model.specs.Terms.{Terms, FeedTerms, Reason, Size, Grammar, IdMismatch};
ghost use Rattle.relay_model.specs.Terms.{BadPath, Loop, Date, NoClass, TooLarge};
ghost use Rattle.relay_laws.specs.Reasons.{Applies};

/// What is accepted has the offered message-id and is in time; its class and its group are those of
/// the entry that it falls to by its newsgroups and the size of its updated text, which is what is
/// stored.
pub fn accepted_is_right()
    ensures offered { (w : Terms) (from now : ℕ) (id : List ℕ) (a : Article) (accepted : Accepted)
        → judged w from id now a ≡ Ok accepted → message_id a.fields ≡ id }
    ensures in_time { (w : Terms) (from now : ℕ) (id : List ℕ) (a : Article)
        (accepted : Accepted) → judged w from id now a ≡ Ok accepted
        → date_fault now w.cutoff (second_of w a) ≡ None }
    ensures classed { (w : Terms) (from now : ℕ) (id : List ℕ) (a : Article)
        (accepted : Accepted) → judged w from id now a ≡ Ok accepted → (entry : Entry)
        × (chosen_entry w.entries (newsgroups a.fields) (length (stored_text w from a))
        ≡ Some entry) × (accepted.class ≡ entry.class) × (accepted.group ≡ entry.group) }
    ensures updated { (w : Terms) (from now : ℕ) (id : List ℕ) (a : Article)
        (accepted : Accepted) → judged w from id now a ≡ Ok accepted
        → (accepted.text ≡ stored_text w from a) × (accepted.permitted ≡ permitted w from a) }
{}

/// A reason that is said applies, and none applies to what is accepted.
pub fn reasons_apply()
    ensures said { (w : Terms) (from now : ℕ) (id : List ℕ) (a : Article) (reason : Reason)
        → judged w from id now a ≡ Err reason → Applies w from id now a reason }
    ensures accepted { (w : Terms) (from now : ℕ) (id : List ℕ) (a : Article)
        (accepted : Accepted) (reason : Reason) → judged w from id now a ≡ Ok accepted
        → ¬ Applies w from id now a reason }
{}

/// Of the reasons that apply the first is said: oversize, no article, another message-id, a bad
/// Path, the own identity in it, its date, no class, no room. So a reason is said where it applies
/// and none before it does, whichever others do.
pub fn first_reason_is_said()
    ensures oversize { (w : Terms) (from now : ℕ) (id : List ℕ) (verdict : Result Accepted Reason)
        → Judges w from id now None verdict → verdict ≡ Err Size }
    ensures grammar { (w : Terms) (from now : ℕ) (id octets : List ℕ)
        (verdict : Result Accepted Reason) → ((a : Article) → ¬ IsArticleText octets a)
        → Judges w from id now (Some octets) verdict → verdict ≡ Err Grammar }
    ensures other_id { (w : Terms) (from now : ℕ) (id : List ℕ) (a : Article)
        → Applies w from id now a IdMismatch → judged w from id now a ≡ Err IdMismatch }
    ensures bad_path { (w : Terms) (from now : ℕ) (id : List ℕ) (a : Article)
        → ¬ Applies w from id now a IdMismatch → Applies w from id now a BadPath
        → judged w from id now a ≡ Err BadPath }
    ensures been_here { (w : Terms) (from now : ℕ) (id : List ℕ) (a : Article)
        → ¬ Applies w from id now a IdMismatch → ¬ Applies w from id now a BadPath
        → Applies w from id now a Loop → judged w from id now a ≡ Err Loop }
    ensures date { (w : Terms) (from now : ℕ) (id : List ℕ) (a : Article)
        → ¬ Applies w from id now a IdMismatch → ¬ Applies w from id now a BadPath
        → ¬ Applies w from id now a Loop → Applies w from id now a Date
        → judged w from id now a ≡ Err Date }
    ensures no_class { (w : Terms) (from now : ℕ) (id : List ℕ) (a : Article)
        → ¬ Applies w from id now a IdMismatch → ¬ Applies w from id now a BadPath
        → ¬ Applies w from id now a Loop → ¬ Applies w from id now a Date
        → Applies w from id now a NoClass → judged w from id now a ≡ Err NoClass }
    ensures too_large { (w : Terms) (from now : ℕ) (id : List ℕ) (a : Article)
        → ¬ Applies w from id now a IdMismatch → ¬ Applies w from id now a BadPath
        → ¬ Applies w from id now a Loop → ¬ Applies w from id now a Date
        → Applies w from id now a TooLarge → judged w from id now a ≡ Err TooLarge }
{}

/// A feed may have an article whose newsgroups its expression permits, whose Path hasn't its peer,
/// that didn't come from its peer, and whose message-id falls in its part; no other.
pub fn feeds_are_permitted()
    ensures expression { (w : Terms) (from : ℕ) (a : Article) (feed : FeedTerms)
        → is_permitted w from a feed ≡ true
        → permits feed.expression (newsgroups a.fields) ≡ true }
    ensures path { (w : Terms) (from : ℕ) (a : Article) (feed : FeedTerms)
        → is_permitted w from a feed ≡ true
        → has_identity (identity_of w feed.peer) (path_of a) ≡ false }
    ensures source { (w : Terms) (from : ℕ) (a : Article) (feed : FeedTerms)
        → is_permitted w from a feed ≡ true → feed.peer ≢ from }
    ensures hash { (w : Terms) (from : ℕ) (a : Article) (feed : FeedTerms)
        → is_permitted w from a feed ≡ true
        → in_hash_feed feed.hash (message_id a.fields) ≡ true }
    ensures every { (w : Terms) (from : ℕ) (a : Article) (feed : FeedTerms)
        → permits feed.expression (newsgroups a.fields) ≡ true
        → has_identity (identity_of w feed.peer) (path_of a) ≡ false → feed.peer ≢ from
        → in_hash_feed feed.hash (message_id a.fields) ≡ true
        → is_permitted w from a feed ≡ true }
{}
