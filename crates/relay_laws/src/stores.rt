//! Laws of places. They ask that the terms are sound: that buffers are apart, above all.
ghost use Rattle.news_terms.specs.Token.{Token};
ghost use Rattle.relay_model.specs.Invariants.{IsWell};
ghost use Rattle.relay_model.specs.Terms.{Terms};
ghost use Rattle.relay_model.specs.World.{World};
ghost use Rattle.relay_facts.specs.Sound.{IsSound};
ghost use Rattle.relay_laws.specs.Laws.{Always, AlwaysFrom, FindsGone};
ghost use Rattle.relay_laws.specs.Laws.{AcceptsStored, GainsOnce, FindsUntilGone};
ghost use Rattle.relay_laws.specs.Laws.{OneTextAPlace, OneTextAToken};
ghost use Rattle.relay_laws.specs.Opens.{BeginsElsewhere, OpensAreFree, OpensAreNewest};
ghost use Rattle.relay_laws.specs.Opens.{OpensKeepFronts};
ghost use Rattle.relay_model.specs.Fetches.{IsGoneToken};

/// A token that is gone stays gone, from every world on that a run may lead to: no front falls.
pub fn gone_stays_gone()
    ensures gone { (w : Terms) → IsSound w → (x : World) → IsWell w x → (token : Token)
        → IsGoneToken w x.state token → AlwaysFrom w x (λ y. IsGoneToken w y.state token) }
    ensures found { (w : Terms) → IsSound w → (x : World) → IsWell w x → (token : Token)
        → FindsGone w token x → AlwaysFrom w x (FindsGone w token) }
{}

/// No two of all texts that were ever stored lie at one place, so none have one token.
pub fn one_text_a_token()
    ensures places { (w : Terms) → IsSound w → Always w OneTextAPlace }
    ensures tokens { (w : Terms) → IsSound w → Always w OneTextAToken }
{}

/// The token of a message-id that is stored was accepted once, and no feed gained one twice.
pub fn gained_once()
    ensures feeds { (w : Terms) → IsSound w → Always w GainsOnce }
    ensures accepted { (w : Terms) → IsSound w → Always w AcceptsStored }
{}

/// Each text that is whole is found under its token until the front of its buffer has passed it:
/// the whole article, or it is gone.
pub fn found_until_gone()
    ensures { (w : Terms) → IsSound w → Always w (FindsUntilGone w) }
{}

/// Under the blocks of a write that is open lies no live article, it is the newest that was begun
/// in its buffer, and while it is open nothing else is begun there.
pub fn open_writes_are_alone()
    ensures free { (w : Terms) → IsSound w → Always w (OpensAreFree w) }
    ensures newest { (w : Terms) → IsSound w → Always w (OpensAreNewest w) }
    ensures fronts { (w : Terms) → IsSound w → Always w (OpensKeepFronts w) }
    ensures begins { (w : Terms) → IsSound w → Always w (BeginsElsewhere w) }
{}
