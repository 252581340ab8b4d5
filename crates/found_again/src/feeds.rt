//! The feeds of a relay that is found again.
ghost use Rattle.std.specs.Prelude.{◌≡◌, ◌++◌, ◌∷◌, [], ℕ, List, All, false, filter, map, nat_eq};
ghost use Rattle.std.specs.Prelude.{IfOk, OnOk, length, ◌<◌, ◌^◌};
ghost use Rattle.std.specs.List.{AllZip, IsDistinct, list_any};
ghost use Rattle.cyc_token.specs.Token.{token_view};
ghost use Rattle.feed_queue.specs.Left.{AreLeft};
ghost use Rattle.id_history.specs.History.{FeedHolds};
ghost use Rattle.id_history.specs.Views.{feed_view};
ghost use Rattle.news_terms.specs.Token as terms;
ghost use Rattle.relay_model.specs.Crash.{Again, accepted_again, has_room, with_again};
ghost use Rattle.relay_model.specs.Terms.{Terms};
ghost use Rattle.found_again.specs.Filling.{AreThere, FillEach, IsTokenThere, filled, gained_anew};
ghost use Rattle.found_again.specs.Filling.{size_of};
ghost use Rattle.found_again.specs.Texts.{IsText, ring_sizes};

use crate::filling::Filling;
use crate::text::FoundText;
use cyc_token::Token;
use id_history::KeptFeed;
use std::alloc::{AllocError, Global};

/// The rings of all feeds, which are numbered from 0.
struct Fillings {
    rings: Vec<Filling>,
}

// Written out, so that no crate above proves anew how each part is let go.
impl Drop for Fillings {
    fn drop(self) {
        let Fillings { rings: _ } = self;
    }
}

impl Fillings {
    /// Rings without a token, with room for so many each.
    fn new(alloc: Global, sizes: &[u32]) -> Result<Fillings, AllocError>
        ensures sizes { IfOk result (λ fillings. map size_of fillings.rings.items ≡ sizes.now) }
        ensures fill { IfOk result (λ fillings. (w : Terms) → ring_sizes w ≡ sizes.now
            → FillEach w fillings.rings.items []) }
        ensures there { IfOk result (λ fillings. (buffers : ℕ)
            → AreThere buffers fillings.rings.items) }
    {
        let mut rings = Vec::with_capacity(alloc, sizes.len())?;
        for size in sizes {
            rings.push_reserved(Filling::new(alloc, *size));
        }
        Ok(Fillings { rings })
    }

    /// The feed gains the token, where there is such a feed and its ring has room.
    fn gain_one(&mut self, feed: u16, token: Token) -> Result<(), AllocError>
        ensures sizes { OnOk result
            (map size_of self.new.rings.items ≡ map size_of self.old.rings.items) }
        ensures fill { OnOk result ((w : Terms) (later : List (terms.Token × List ℕ))
            (before : List ℕ) → list_any (nat_eq feed) before ≡ false
            → FillEach w self.old.rings.items
            ((token_view token, filter (has_room w later) before) ∷ later)
            → FillEach w self.new.rings.items
            ((token_view token, filter (has_room w later) (before ++ feed ∷ [])) ∷ later)) }
        ensures there { OnOk result ((buffers : ℕ) → IsTokenThere buffers token
            → AreThere buffers self.old.rings.items → AreThere buffers self.new.rings.items) }
    {
        let place = usize::from(feed);
        if place < self.rings.len() {
            self.rings[place].gain(token)?;
        }
        Ok(())
    }

    /// Each of these feeds gains the token, where its ring has room.
    fn gain_all(&mut self, feeds: &[u16], token: Token) -> Result<(), AllocError>
        ensures sizes { OnOk result
            (map size_of self.new.rings.items ≡ map size_of self.old.rings.items) }
        ensures fill { OnOk result ((w : Terms) (later : List (terms.Token × List ℕ))
            → IsDistinct nat_eq feeds.now → FillEach w self.old.rings.items later
            → FillEach w self.new.rings.items
            ((token_view token, filter (has_room w later) feeds.now) ∷ later)) }
        ensures there { OnOk result ((buffers : ℕ) → IsTokenThere buffers token
            → AreThere buffers self.old.rings.items → AreThere buffers self.new.rings.items) }
    {
        for feed in feeds {
            self.gain_one(*feed, token)?;
        }
        Ok(())
    }

    /// The feeds that may have the text gain its token, where it is some id's and their rings have
    /// room.
    fn gain_text(&mut self, text: &FoundText) -> Result<(), AllocError>
        ensures sizes { OnOk result
            (map size_of self.new.rings.items ≡ map size_of self.old.rings.items) }
        ensures fill { OnOk result ((w : Terms) (one : Again)
            (later : List (terms.Token × List ℕ)) → IsText w text.now one
            → FillEach w self.old.rings.items later
            → FillEach w self.new.rings.items (with_again w one later)) }
        ensures there { OnOk result ((buffers : ℕ) → IsTokenThere buffers text.now.token
            → AreThere buffers self.old.rings.items → AreThere buffers self.new.rings.items) }
    {
        if text.is_claimed() {
            self.gain_all(&text.feeds, text.token)?;
        }
        Ok(())
    }

    /// What is left of the feeds.
    fn into_feeds(self, alloc: Global) -> Result<Vec<KeptFeed>, AllocError>
        ensures { IfOk result (λ feeds. map feed_view feeds.items ≡ map filled self.rings.items) }
    {
        let Fillings { rings } = self;
        let mut feeds = Vec::with_capacity(alloc, rings.len())?;
        for ring in rings {
            feeds.push(ring.into_feed())?;
        }
        Ok(feeds)
    }
}

/// What is left of the feeds of a relay that is found again with these texts, whose rings have room
/// for so many tokens each: each feed gained the newest of the texts that it may have, as many as
/// its ring holds.
pub(crate) fn feeds_again(
    alloc: Global,
    texts: &[FoundText],
    sizes: &[u32],
) -> Result<Vec<KeptFeed>, AllocError>
    ensures left { IfOk result (λ feeds. (w : Terms) (again : List Again)
        → AllZip (IsText w) texts.now again → ring_sizes w ≡ sizes.now
        → AreLeft (map feed_view feeds.items) sizes.now
        (gained_anew (accepted_again w again))) }
    ensures holds { IfOk result (λ feeds. (buffers : ℕ)
        → All (λ (text : FoundText). IsTokenThere buffers text.token) texts.now
        → AllZip (FeedHolds buffers) (map feed_view feeds.items) sizes.now) }
    ensures count { IfOk result (λ feeds. length feeds.items ≡ length sizes.now) }
    ensures room { IfOk result (λ feeds.
        All (λ (feed : KeptFeed). length feed.waiting.items < 2 ^ 32) feeds.items) }
{
    let mut fillings = Fillings::new(alloc, sizes)?;
    let mut left = texts;
    // From the newest back, so that a ring that is full has the newest.
    while let Some((text, older)) = left.split_last() {
        fillings.gain_text(text)?;
        left = older;
    }
    let feeds = fillings.into_feeds(alloc)?;
    Ok(feeds)
}
