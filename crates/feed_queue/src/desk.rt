//! All rings.
ghost use Rattle.std.specs.Prelude.{◌≡◌, ◌+◌, ◌-◌, ◌^◌, ◌≤◌, ◌<◌, ◌↔◌, ℕ, List, map, slice_index};
ghost use Rattle.std.specs.Prelude.{Ok, None, ◌++◌, ◌∷◌, [], IfOk, IfSome, IsOk, OnErr, not};
ghost use Rattle.std.specs.Prelude.{nat_eq};
ghost use Rattle.std.specs.Prelude.{vec_capacity, vec_len};
ghost use Rattle.std.specs.List.{All, AllZip, list_any};
ghost use Rattle.cyc_token.specs.Token.{token_view};
ghost use Rattle.id_history.specs.Answers.{token_of};
ghost use Rattle.news_terms.specs.Ring.{taken_items};
ghost use Rattle.relay_model.specs.Shares.{after_take_of, as_ring};
ghost use Rattle.relay_model.specs.State.{Feed, put_at};
ghost use Rattle.relay_model.specs.Writers.{gaining};
ghost use Rattle.feed_queue.specs.Feeds.{KeepsFeeds, CountBelow, HasRoomToCount, ring_count};
ghost use Rattle.feed_queue.specs.Feeds.{ring_size, no_feed, with_gained};
ghost use Rattle.feed_queue.specs.Left.{IsLeft, AreLeft};
ghost use Rattle.feed_queue.specs.Taking.{IsTaken, AreCounts};
ghost use Rattle.id_history.specs.History.{FeedFits, RingHolds};
ghost use Rattle.id_history.specs.Views.{feed_view};

use crate::rings::Ring;
use cyc_token::Token;
use id_history::{KeptFeed, Settled};
use std::alloc::{AllocError, Global};

/// What is taken of a feed's ring.
pub struct Taken {
    /// How many tokens were overwritten untaken since the last take.
    pub missed: u64,
    /// The tokens, the oldest first, each with its number in the feed's list, which counts from 1.
    pub items: Vec<(u64, Token)>,
}

// Written out, so that no crate above proves anew how each part is let go.
impl Drop for Taken {
    fn drop(self) {
        let Taken {
            missed: _,
            items: _,
        } = self;
    }
}

/// The counts of a feed, in tokens.
#[derive(Clone, Copy)]
pub struct Counts {
    /// All that the feed ever gained.
    pub gained: u64,
    /// How many of them were taken or passed over at the last take.
    pub passed: u64,
    /// How many of them were taken.
    pub taken: u64,
    /// How many wait in the ring.
    pub waiting: u64,
}

/// The rings of all feeds, which are numbered from 0 in the order of the configuration.
pub struct FeedDesk {
    rings: Vec<Ring>,
}

// Written out, so that no crate above proves anew how each part is let go.
impl Drop for FeedDesk {
    fn drop(self) {
        let FeedDesk { rings: _ } = self;
    }
}

impl FeedDesk {
    /// A desk whose feeds gained nothing, with the room of their rings.
    pub fn new(alloc: Global, feeds: &[relay_conf::Feed]) -> Result<FeedDesk, AllocError>
        ensures { IfOk result (λ desk. KeepsFeeds desk (map ring_size feeds.now) (λ f. no_feed)) }
    {
        let mut rings = Vec::with_capacity(alloc, feeds.len())?;
        for feed in feeds {
            rings.push_reserved(Ring::new(alloc, feed.ring)?);
        }
        Ok(FeedDesk { rings })
    }

    /// Each feed named gains the token of an article that was settled, once however often it is
    /// named; a number past the last feed names none. It takes no memory. It is linear in the
    /// numbers where they rise, as those of `permitted` do.
    pub fn post(&mut self, permitted: &[u16], settled: Settled)
        ensures { (sizes : List ℕ) (feed : ℕ → Feed) → HasRoomToCount self.old
            → KeepsFeeds self.old sizes feed
            → KeepsFeeds self.new sizes
            (gaining feed permitted.now (token_view (token_of settled))) }
    {
        let token = settled.spend();
        let mut above = 0;
        for (place, feed) in permitted.iter().enumerate() {
            self.gain_once(&permitted[..place], above, *feed, token);
            above = above.max(u32::from(*feed) + 1);
        }
    }

    /// The feed gains the token, unless it is one of those before it, all of which are below
    /// `above`.
    fn gain_once(&mut self, before: &[u16], above: u32, feed: u16, token: Token)
        ensures keeps { (sizes : List ℕ) (feeds : ℕ → Feed)
            → All (λ other. other < above) before.now
            → CountBelow self.old.rings.items (2 ^ 64 - 1)
            → KeepsFeeds self.old sizes (gaining feeds before.now (token_view token))
            → KeepsFeeds self.new sizes
            (gaining feeds (before.now ++ feed ∷ []) (token_view token)) }
        ensures counts { (most : ℕ) → CountBelow self.old.rings.items most
            → CountBelow self.new.rings.items (most + 1) }
    {
        if is_new(before, above, feed) {
            self.gain(feed, token);
        }
    }

    /// The feed gains the token, where there is such a feed.
    fn gain(&mut self, feed: u16, token: Token)
        ensures keeps { (sizes : List ℕ) (feeds : ℕ → Feed)
            → CountBelow self.old.rings.items (2 ^ 64 - 1) → KeepsFeeds self.old sizes feeds
            → KeepsFeeds self.new sizes
            (put_at feeds feed (with_gained (feeds feed) (token_view token))) }
        ensures counts { (most : ℕ) → CountBelow self.old.rings.items most
            → CountBelow self.new.rings.items (most + 1) }
    {
        let place = usize::from(feed);
        if place < self.rings.len() {
            self.rings[place].gain(token);
        }
    }

    /// Takes the oldest tokens that wait for the feed, at most so many. Memory is taken for as many
    /// as there are, before anything is changed. `None`, with nothing changed, exactly where there
    /// is no such feed.
    pub fn take(
        &mut self,
        alloc: Global,
        feed: u16,
        most: usize,
    ) -> Result<Option<Taken>, AllocError>
        ensures taken { IfOk result (λ answer. IfSome answer (λ taken.
            (sizes : List ℕ) (feeds : ℕ → Feed) → KeepsFeeds self.old sizes feeds
            → IsTaken taken (slice_index sizes feed) most (feeds feed))) }
        ensures keeps { IfOk result (λ answer. IfSome answer (λ taken.
            (sizes : List ℕ) (feeds : ℕ → Feed) → KeepsFeeds self.old sizes feeds
            → KeepsFeeds self.new sizes
            (put_at feeds feed (after_take_of (slice_index sizes feed) most (feeds feed))))) }
        ensures none { result ≡ Ok None → self.new ≡ self.old }
        ensures err { OnErr result (self.new ≡ self.old) }

        // Memory is taken for as many as are given, and for none where none is.
        ensures room { IfOk result (λ answer. IfSome answer (λ taken.
            vec_capacity taken.items ≡ vec_len taken.items)) }
        ensures nothing { (sizes : List ℕ) (feeds : ℕ → Feed) → KeepsFeeds self.old sizes feeds
            → taken_items (slice_index sizes feed) most (as_ring (feeds feed)) ≡ []
            → IsOk result }

        // That there is no such feed is said whatever memory there is.
        ensures missing { (result ≡ Ok None) ↔ (ring_count self.old ≤ feed) }
    {
        let place = usize::from(feed);
        if place >= self.rings.len() {
            return Ok(None);
        }
        let items = self.rings[place].oldest(alloc, most)?;
        let missed = self.rings[place].pass(most);
        Ok(Some(Taken { missed, items }))
    }

    /// What is left of the feed. `None` exactly where there is no such feed.
    pub fn kept(&self, alloc: Global, feed: u16) -> Result<Option<KeptFeed>, AllocError>
        ensures left { IfOk result (λ answer. IfSome answer (λ kept.
            (sizes : List ℕ) (feeds : ℕ → Feed) → KeepsFeeds self.now sizes feeds
            → IsLeft (feed_view kept) (slice_index sizes feed) (feeds feed))) }

        // Each part has room in the text of a history.
        ensures fits { IfOk result (λ answer. IfSome answer (λ kept. FeedFits (feed_view kept))) }

        // Memory is taken for the tokens that wait, and for no more.
        ensures room { IfOk result (λ answer. IfSome answer (λ kept.
            vec_capacity kept.waiting ≡ vec_len kept.waiting)) }

        // That there is no such feed is said whatever memory there is.
        ensures missing { (result ≡ Ok None) ↔ (ring_count self.now ≤ feed) }
    {
        let place = usize::from(feed);
        if place >= self.rings.len() {
            return Ok(None);
        }
        Ok(Some(self.rings[place].kept(alloc)?))
    }

    /// A desk of feeds of which this was left, with the room of their rings. No token is posted.
    pub fn resume(
        alloc: Global,
        feeds: &[relay_conf::Feed],
        kept: &[KeptFeed],
    ) -> Result<FeedDesk, AllocError>
        requires { AllZip RingHolds (map feed_view kept.now) (map ring_size feeds.now) }
        ensures { IfOk result (λ desk. (feed : ℕ → Feed)
            → AreLeft (map feed_view kept.now) (map ring_size feeds.now) feed
            → KeepsFeeds desk (map ring_size feeds.now) feed) }
    {
        let mut rings = Vec::with_capacity(alloc, feeds.len())?;
        for (place, feed) in feeds.iter().enumerate() {
            rings.push_reserved(Ring::resume(alloc, feed.ring, &kept[place])?);
        }
        Ok(FeedDesk { rings })
    }

    /// The counts of the feed, which takes no memory; `None` exactly where there is no such feed.
    pub fn counts(&self, feed: u16) -> Option<Counts>
        ensures counts { IfSome result (λ counts. (sizes : List ℕ) (feeds : ℕ → Feed)
            → KeepsFeeds self.now sizes feeds
            → AreCounts counts (slice_index sizes feed) (feeds feed)) }
        ensures missing { (result ≡ None) ↔ (ring_count self.now ≤ feed) }

        // What is left is how many were overwritten untaken.
        ensures within { IfSome result (λ counts.
            counts.taken + counts.waiting ≤ counts.gained) }
    {
        let place = usize::from(feed);
        if place >= self.rings.len() {
            return None;
        }
        Some(self.rings[place].counts())
    }
}

/// Whether the feed is none of those before it, all of which are below `above`. In rising order
/// each feed is above them, and none has to be looked for.
fn is_new(before: &[u16], above: u32, feed: u16) -> bool
    ensures { All (λ other. other < above) before.now
        → result ≡ not (list_any (nat_eq feed) before.now) }
{
    if above <= u32::from(feed) {
        return true;
    }
    let named = is_named(before, feed);
    !named
}

/// Whether the feed is one of these.
fn is_named(feeds: &[u16], feed: u16) -> bool
    ensures { result ≡ list_any (nat_eq feed) feeds.now }
{
    feeds.contains(&feed)
}
