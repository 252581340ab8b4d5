//! Laws of what a desk keeps, and the worked example *ring*: each is the contract of an empty body.
ghost use Rattle.std.specs.Prelude.{◌≡◌, ◌<◌, ◌^◌, ◌∷◌, [], ℕ, List, length, map, slice_get};
ghost use Rattle.std.specs.Prelude.{slice_index};
ghost use Rattle.cyc_token.specs.Token.{token_view};
ghost use Rattle.news_terms.specs.Ring.{missed, taken_items, ring};
ghost use Rattle.news_terms.specs.Token.{IsToken};
ghost use Rattle.relay_conf.specs.declared.relay.Feed as conf;
ghost use Rattle.relay_conf.specs.declared.relay.Peer.{Peer};
ghost use Rattle.relay_model.specs.Shares.{as_ring, after_take_of, ring_of};
ghost use Rattle.relay_model.specs.Terms.{Terms};
ghost use Rattle.relay_model.specs.State.{Feed};
ghost use Rattle.feed_queue.specs.Examples.{token_at, three_posted, gained_three, taken_two};
ghost use Rattle.feed_queue.specs.Feeds.{KeepsFeeds, HasRoomToCount, no_feed, ring_count};
ghost use Rattle.feed_queue.specs.Feeds.{ring_size};
ghost use Rattle.feed_queue.specs.Left.{IsLeft};
ghost use Rattle.feed_queue.specs.Permission.{HasFeeds};
ghost use Rattle.id_history.specs.History.{KeptFeed, RingHolds};

use crate::FeedDesk;
use cyc_token::Token;

/// Every desk keeps some feeds, so nothing is said of it in vain.
pub fn keeps_some(desk: &FeedDesk)
    ensures { (sizes : List ℕ) × ((feeds : ℕ → Feed) × KeepsFeeds desk.now sizes feeds) }
{}

/// A desk has room to count where the lists of the feeds that it keeps have fewer than 2^62 tokens.
pub fn has_room(desk: &FeedDesk)
    ensures { (sizes : List ℕ) (feeds : ℕ → Feed) → KeepsFeeds desk.now sizes feeds
        → ((f : ℕ) → f < ring_count desk.now → length (feeds f).gained < 2 ^ 62)
        → HasRoomToCount desk.now }
{}

/// Where the terms have the feeds of the desk, the sizes of its rings are those of the terms.
pub fn sizes_of_terms()
    ensures { (w : Terms) (peers : List Peer) (feeds : List conf.Feed)
        → HasFeeds w peers feeds → (f : ℕ)
        → slice_index (map ring_size feeds) f ≡ ring_of (slice_get w.feeds f) }
{}

/// Each part of a token has its range, so that it has room in the text of a history.
pub fn is_token(token: Token)
    ensures { IsToken (token_view token) }
{}

/// What is left of a feed is one value.
pub fn one_is_left()
    ensures { (one other : KeptFeed) (size : ℕ) (feed : Feed) → IsLeft one size feed
        → IsLeft other size feed → one ≡ other }
{}

/// All that a ring holds is left of some feed, so of a ring that is resumed something is said.
pub fn each_was_left()
    ensures { (kept : KeptFeed) (ring : ℕ) → RingHolds kept ring
        → (feed : Feed) × IsLeft kept ring feed }
{}

/// What is left of a feed fits its ring, so it can be resumed.
pub fn left_holds()
    ensures { (kept : KeptFeed) (size : ℕ) (feed : Feed) → IsLeft kept size feed
        → RingHolds kept size }
{}

/// A ring of 2 after three posts, taken twice.
pub fn ring_example()
    // A feed gains a token once, though it is named twice; one that isn't named gains none.
    ensures gained_once { three_posted 0 ≡ gained_three }
    ensures gained_none { three_posted 1 ≡ no_feed }

    // The first take of 5 misses one and gives the other two, with their numbers.
    ensures held { ring 2 (as_ring gained_three) ≡ token_at 1 ∷ token_at 2 ∷ [] }
    ensures missed_one { missed 2 (as_ring gained_three) ≡ 1 }
    ensures took_two { taken_items 2 5 (as_ring gained_three)
        ≡ (2, token_at 1) ∷ (3, token_at 2) ∷ [] }
    ensures after { after_take_of 2 5 gained_three ≡ taken_two }

    // The second finds nothing.
    ensures missed_none { missed 2 (as_ring taken_two) ≡ 0 }
    ensures took_none { taken_items 2 5 (as_ring taken_two) ≡ [] }
    ensures stayed { after_take_of 2 5 taken_two ≡ taken_two }
{}
