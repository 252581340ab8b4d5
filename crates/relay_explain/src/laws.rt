//! What follows from the definitions of what is odd.
ghost use Rattle.std.specs.Prelude.{◌≡◌, ◌∷◌, ℕ, Any, List, IsFalse, IsTrue, Some, slice_get};
ghost use Rattle.std.specs.List.{list_any};
ghost use Rattle.std.specs.Option.{is_none};
ghost use Rattle.news_terms.specs.Pattern.{IsExpressionText, Marked, is_match, verdict};
ghost use Rattle.news_terms.specs.Places.{size_of};
ghost use Rattle.news_terms.specs.StorageClass.{takes};
ghost use Rattle.relay_conf.specs.Reach.{may_reach};
ghost use Rattle.relay_conf.specs.Settings.{places_of_groups};
ghost use Rattle.relay_conf.specs.Storage.{entry_view};
ghost use Rattle.relay_conf.specs.declared.cycbuff.GroupConf as confs;
ghost use Rattle.relay_conf.specs.declared.reach.Allow.{Allow};
ghost use Rattle.relay_conf.specs.declared.settings.Buffers as settings;
ghost use Rattle.relay_model.specs.Judging.{fits};
ghost use Rattle.relay_explain.specs.Callers.{is_within};
ghost use Rattle.relay_explain.specs.Choice.{first_small};
ghost use Rattle.relay_explain.specs.Entries.{IsSpelled, Said, shadows};
ghost use Rattle.relay_explain.specs.Patterns.{has_taking, is_taking};

/// An entry that is told as taken by an earlier one takes nothing behind that: each article that it
/// takes is taken by the earlier one, where both are spelled as they are said.
pub fn shadowed_entries_take_nothing()
    ensures { (first other : Said) (groups : List (List ℕ)) (size : ℕ)
        → IsSpelled first → IsSpelled other → IsTrue (shadows first other)
        → IsTrue (takes (entry_view other.entry) groups size)
        → IsTrue (takes (entry_view first.entry) groups size) }
{}

/// The text of an expression is told as one without a pattern that takes anything just where that
/// expression has none.
pub fn taking_is_of_patterns()
    ensures { (text : List ℕ) (expression : List Marked) → IsExpressionText text expression
        → has_taking text ≡ list_any is_taking expression }
{}

/// By the text of an expression that is told as one by which no newsgroup matches none does: no
/// name of an octet or more.
pub fn untaken_newsgroups_do_not_match()
    ensures { (text : List ℕ) (expression : List Marked) (c : ℕ) (name : List ℕ)
        → IsExpressionText text expression → IsFalse (has_taking text)
        → IsFalse (is_match (verdict expression (c ∷ name))) }
{}

/// A buffer of a group is told to have no room for an article exactly where the relay finds that
/// the group has none for it.
pub fn rooms_are_the_relays()
    ensures { (buffers : settings.Buffers) (number size : ℕ) (group : confs.GroupConf)
        → slice_get buffers.groups.items number ≡ Some group
        → fits (slice_get (places_of_groups buffers) number) (size_of size)
        ≡ is_none (first_small buffers.buffers.items group.buffers.items size) }
{}

/// A range that is told as one that says nothing new says nothing new: where it is within another
/// of the same peer, just those may connect without it that may with it.
pub fn ranges_within_others_say_nothing_new()
    ensures { (allow : Allow) (others : List Allow) (peer : ℕ) (address : List ℕ)
        → Any (λ other. (other.peer ≡ allow.peer)
        × IsTrue (is_within allow.range other.range)) others
        → may_reach (allow ∷ others) peer address ≡ may_reach others peer address }
{}
