//! The feed desk with the count of its posts, and the one step that posts.
ghost use Rattle.std.specs.Prelude.{◌≡◌, ◌≤◌, ◌+◌, ◌^◌, map};
ghost use Rattle.id_history.specs.Views.{feed_view};
ghost use Rattle.live_jobs.specs.Posting.{KeepsAtMost, most_gained};

mod both;

pub use both::{Posted, Unsettled, settle_both};
use feed_queue::{Counts, FeedDesk, Taken};
use id_history::{KeptFeed, Settled};
use std::alloc::{AllocError, Global};
use std::sync::ledger::{Book, Ledger, Share};

/// The most tokens that a feed gains, and so the most posts that a desk makes.
const MOST_POSTS: u64 = 1 << 62;

/// How many posts a desk had made, which a desk alone says.
#[derive(Clone, Copy)]
pub struct Posts {
    count: u64,
}

impl Posts {
    ghost use Rattle.live_jobs.specs.Desks.{posts_in};

    /// The number.
    pub fn count(&self) -> u64
        ensures { result ≡ posts_in self.now }
    {
        self.count
    }
}

/// The feed desk, and how many posts it made, which a ledger counts with it.
pub struct CountedDesk<L: Ledger> {
    desk: FeedDesk,
    /// The most tokens that one of its feeds had gained when it was made.
    before: u64,
    posts: u64,
    book: Book<L>,
    ghost counted: { posts ≡ book.total },
    ghost room: { before + posts ≤ 2 ^ 62 },
    ghost kept: { ∥ KeepsAtMost desk (before + posts) ∥₁ },
}

// Written out, so that no crate above proves anew how each part is let go.
impl<L: Ledger> Drop for CountedDesk<L> {
    fn drop(self) {
        let CountedDesk {
            desk: _,
            before: _,
            posts: _,
            book: _,
        } = self;
    }
}

impl<L: Ledger> CountedDesk<L> {
    ghost use Rattle.std.specs.Prelude.{◌+◌, ◌^◌, ◌<◌, ◌↔◌, ◌≤◌, ℕ, List, map, slice_index};
    ghost use Rattle.std.specs.Prelude.{Ok, None, IfOk, IfSome, OnErr, IsTrue, length};
    ghost use Rattle.std.specs.Prelude.{vec_capacity};
    ghost use Rattle.std.specs.Prelude.{vec_len};
    ghost use Rattle.std.specs.List.{AllZip};
    ghost use Rattle.cyc_token.specs.Token.{token_view};
    ghost use Rattle.feed_queue.specs.Feeds.{KeepsFeeds, ring_size, no_feed, ring_count};
    ghost use Rattle.feed_queue.specs.Left.{AreLeft, IsLeft};
    ghost use Rattle.feed_queue.specs.Taking.{IsTaken, AreCounts};
    ghost use Rattle.id_history.specs.History.{FeedFits, RingHolds};
    ghost use Rattle.id_history.specs.Answers.{token_of};
    ghost use Rattle.live_jobs.specs.Desks.{desk_of, posts_of, before_of, posts_in};
    ghost use Rattle.relay_model.specs.Shares.{after_take_of};
    ghost use Rattle.relay_model.specs.State.{Feed, put_at};
    ghost use Rattle.relay_model.specs.Writers.{gaining};

    /// A desk that has made no post, with the room of the feeds' rings; the book counts its posts.
    pub fn new(
        alloc: Global,
        feeds: &[relay_conf::Feed],
        book: Book<L>,
    ) -> Result<CountedDesk<L>, AllocError>
        requires { book.total ≡ 0 }
        ensures desk { IfOk result (λ counted.
            KeepsFeeds (desk_of counted) (map ring_size feeds.now) (λ f. no_feed)) }
        ensures posts { IfOk result (λ counted. posts_of counted ≡ 0) }
        ensures before { IfOk result (λ counted. before_of counted ≡ 0) }
    {
        let desk = FeedDesk::new(alloc, feeds)?;
        Ok(CountedDesk {
            desk,
            before: 0,
            posts: 0,
            book,
        })
    }

    /// A desk of feeds of which this was left, with the room of their rings, that has made no post:
    /// the book counts those that it makes from here.
    pub fn resume(
        alloc: Global,
        feeds: &[relay_conf::Feed],
        kept: &[KeptFeed],
        book: Book<L>,
    ) -> Result<CountedDesk<L>, AllocError>
        requires book { book.total ≡ 0 }
        requires holds { AllZip RingHolds (map feed_view kept.now) (map ring_size feeds.now) }
        requires few { most_gained (map feed_view kept.now) ≤ 2 ^ 62 }
        ensures desk { IfOk result (λ counted. (feed : ℕ → Feed)
            → AreLeft (map feed_view kept.now) (map ring_size feeds.now) feed
            → KeepsFeeds (desk_of counted) (map ring_size feeds.now) feed) }
        ensures posts { IfOk result (λ counted. posts_of counted ≡ 0) }
        ensures before { IfOk result (λ counted.
            before_of counted ≡ most_gained (map feed_view kept.now)) }
    {
        feed_queue::laws::each_was_left();
        let before = most_of(kept);
        let desk = FeedDesk::resume(alloc, feeds, kept)?;
        Ok(CountedDesk {
            desk,
            before,
            posts: 0,
            book,
        })
    }

    /// What is left of the feed. `None` exactly where there is no such feed.
    pub fn kept(&self, alloc: Global, feed: u16) -> Result<Option<KeptFeed>, AllocError>
        ensures left { IfOk result (λ answer. IfSome answer (λ kept.
            (sizes : List ℕ) (feeds : ℕ → Feed) → KeepsFeeds (desk_of self.now) sizes feeds
            → IsLeft (feed_view kept) (slice_index sizes feed) (feeds feed))) }
        ensures fits { IfOk result (λ answer. IfSome answer (λ kept. FeedFits (feed_view kept))) }
        // None gained more than there were before and posts, so it can be resumed.
        ensures few { IfOk result (λ answer. IfSome answer (λ kept.
            kept.gained ≤ before_of self.now + posts_of self.now)) }
        ensures room { IfOk result (λ answer. IfSome answer (λ kept.
            vec_capacity kept.waiting ≡ vec_len kept.waiting)) }
        ensures missing { (result ≡ Ok None) ↔ (ring_count (desk_of self.now) ≤ feed) }
    {
        self.desk.kept(alloc, feed)
    }

    /// Each permitted feed gains the token of an article that was settled, which counts in the
    /// share. It takes no memory. Only `settle_both` can call it, who holds the article's shard
    /// too.
    fn post(&mut self, share: &mut Share<L>, permitted: &[u16], settled: Settled)
        requires room { self.old.before + self.old.posts < 2 ^ 62 }
        requires share { 0 < share.old.parts }
        ensures gained { (sizes : List ℕ) (feeds : ℕ → Feed)
            → KeepsFeeds (desk_of self.old) sizes feeds
            → KeepsFeeds (desk_of self.new) sizes
            (gaining feeds permitted.now (token_view (token_of settled))) }
        ensures posts { posts_of self.new ≡ posts_of self.old + 1 }
        ensures before { before_of self.new ≡ before_of self.old }
        ensures amount { share.new.amount ≡ share.old.amount + 1 }
        ensures parts { share.new.parts ≡ share.old.parts }
    {
        let CountedDesk {
            desk,
            before: _before,
            posts,
            book,
        } = self;
        feed_queue::laws::has_room(desk);
        desk.post(permitted, settled);
        book.add(share, 1);
        *posts += 1;
    }

    /// Takes the oldest tokens that wait for the feed, at most so many. Memory is taken for as many
    /// as there are, before anything is changed. `None`, with nothing changed, exactly where there
    /// is no such feed.
    pub fn take(
        &mut self,
        alloc: Global,
        feed: u16,
        most: usize,
    ) -> Result<Option<Taken>, AllocError>
        ensures taken { IfOk result (λ answer. IfSome answer (λ taken.
            (sizes : List ℕ) (feeds : ℕ → Feed) → KeepsFeeds (desk_of self.old) sizes feeds
            → IsTaken taken (slice_index sizes feed) most (feeds feed))) }
        ensures keeps { IfOk result (λ answer. IfSome answer (λ taken.
            (sizes : List ℕ) (feeds : ℕ → Feed) → KeepsFeeds (desk_of self.old) sizes feeds
            → KeepsFeeds (desk_of self.new) sizes
            (put_at feeds feed (after_take_of (slice_index sizes feed) most (feeds feed))))) }
        ensures none { result ≡ Ok None → desk_of self.new ≡ desk_of self.old }
        ensures err { OnErr result (desk_of self.new ≡ desk_of self.old) }
        ensures missing { (result ≡ Ok None) ↔ (ring_count (desk_of self.old) ≤ feed) }
        ensures most { IfOk result (λ answer. IfSome answer (λ taken.
            length taken.items.items ≤ most)) }
        ensures posts { posts_of self.new ≡ posts_of self.old }
        ensures before { before_of self.new ≡ before_of self.old }
    {
        self.desk.take(alloc, feed, most)
    }

    /// The counts of the feed, which takes no memory; `None` exactly where there is no such feed.
    pub fn counts(&self, feed: u16) -> Option<Counts>
        ensures counts { IfSome result (λ counts. (sizes : List ℕ) (feeds : ℕ → Feed)
            → KeepsFeeds (desk_of self.now) sizes feeds
            → AreCounts counts (slice_index sizes feed) (feeds feed)) }
        ensures missing { (result ≡ None) ↔ (ring_count (desk_of self.now) ≤ feed) }
        ensures within { IfSome result (λ counts.
            counts.taken + counts.waiting ≤ counts.gained) }
    {
        self.desk.counts(feed)
    }

    /// Whether it has made as many posts as a desk makes, whose feeds had gained so many before.
    pub fn is_full(&self) -> bool
        ensures { IsTrue result ↔ (2 ^ 62 ≤ before_of self.now + posts_of self.now) }
    {
        self.before + self.posts >= MOST_POSTS
    }

    /// The number of posts, for who has every share: it is what these count.
    pub fn posted(&mut self, all: &mut Share<L>) -> Posts
        requires whole { all.old.parts ≡ L.parts }
        ensures posts { posts_in result ≡ posts_of self.old }
        ensures amount { posts_in result ≡ all.old.amount }
        ensures share { (all.new.parts ≡ all.old.parts) × (all.new.amount ≡ all.old.amount) }
        ensures desk { desk_of self.new ≡ desk_of self.old }
        ensures same { posts_of self.new ≡ posts_of self.old }
    {
        let CountedDesk {
            desk: _desk,
            before: _before,
            posts,
            book,
        } = self;
        book.audit(all);
        Posts { count: *posts }
    }
}

/// The most tokens that one of these feeds had gained.
fn most_of(kept: &[KeptFeed]) -> u64
    ensures { result ≡ most_gained (map feed_view kept.now) }
{
    let mut most = 0;
    for feed in kept {
        most = most.max(feed.gained);
    }
    most
}
