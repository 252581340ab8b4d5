//! One ring.
ghost use Rattle.std.specs.Prelude.{◌≡◌, ◌+◌, ◌-◌, ◌≤◌, ◌<◌, ◌^◌, ℕ, length, map, min, take, IfOk};
ghost use Rattle.std.specs.Prelude.{IsOk, vec_capacity, vec_len};
ghost use Rattle.std.specs.List.{AllByRecursion, enumerate_from};
ghost use Rattle.cyc_token.specs.Token.{token_view};
ghost use Rattle.id_history.specs.History.{FeedFits};
ghost use Rattle.id_history.specs.Views.{feed_view};
ghost use Rattle.news_terms.specs.Token.{IsToken};

use crate::desk::Counts;
use crate::laws::is_token;
use circular_buffer::HeapCircularBuffer;
use cyc_token::Token;
use id_history::KeptFeed;
use std::alloc::{AllocError, Global};

/// The end of a feed's list, as much of it as fits and isn't taken, with counts of the list.
#[derive(Drop)]
pub(crate) struct Ring {
    tokens: HeapCircularBuffer<Token>,
    /// The tokens that the feed gained.
    gained: u64,
    /// How many of them were taken or passed over at the last take.
    passed: u64,
    /// How many of them were taken.
    taken: u64,
    ghost within: { passed ≤ gained },
    ghost had: { taken ≤ passed },
    ghost waits: { length tokens.items ≡ min tokens.capacity (gained - passed) },
    ghost small: { tokens.capacity < 2 ^ 32 },
}

impl Ring {
    ghost use Rattle.news_terms.specs.Ring.{missed, taken_items};
    ghost use Rattle.relay_model.specs.Shares.{after_take_of, as_ring};
    ghost use Rattle.relay_model.specs.State.{Feed};
    ghost use Rattle.feed_queue.specs.Feeds.{KeepsFeed, no_feed, with_gained};
    ghost use Rattle.feed_queue.specs.Left.{IsLeft};
    ghost use Rattle.feed_queue.specs.Taking.{AreCounts, item_view};
    ghost use Rattle.id_history.specs.History.{RingHolds};

    /// The ring of a feed that gained nothing, with room for so many tokens.
    pub(crate) fn new(alloc: Global, size: u32) -> Result<Ring, AllocError>
        ensures { IfOk result (λ ring. KeepsFeed ring size no_feed) }
    {
        Ok(Ring {
            tokens: HeapCircularBuffer::with_capacity(alloc, size as usize)?,
            gained: 0,
            passed: 0,
            taken: 0,
        })
    }

    /// The feed gains the token, which takes no memory: where the ring is full, its oldest token is
    /// overwritten. A list that can't be counted on stays as it is.
    pub(crate) fn gain(&mut self, token: Token)
        ensures keeps { (size : ℕ) (feed : Feed) → self.old.gained < 2 ^ 64 - 1
            → KeepsFeed self.old size feed
            → KeepsFeed self.new size (with_gained feed (token_view token)) }
        ensures count { self.new.gained ≤ self.old.gained + 1 }
    {
        if let Some(gained) = self.gained.checked_add(1) {
            self.tokens.push_back(token);
            self.gained = gained;
        }
    }

    /// The oldest tokens that wait, at most so many, each with its number in the list.
    pub(crate) fn oldest(&self, alloc: Global, most: usize) -> Result<Vec<(u64, Token)>, AllocError>
        ensures items { IfOk result (λ items. (size : ℕ) (feed : Feed)
            → KeepsFeed self.now size feed
            → map item_view items.items ≡ taken_items size most (as_ring feed)) }

        // Room is taken for what is listed, and for no more.
        ensures room { IfOk result (λ items. vec_capacity items ≡ vec_len items) }
        ensures none { min most (length self.now.tokens.items) ≡ 0 → IsOk result }
    {
        let count = most.min(self.tokens.len());
        numbered(alloc, &self.tokens, self.passed_now(), count)
    }

    /// Takes the oldest tokens that wait, at most so many, and tells how many were overwritten
    /// untaken since the last take. It takes no memory.
    pub(crate) fn pass(&mut self, most: usize) -> u64
        ensures missed { (size : ℕ) (feed : Feed) → KeepsFeed self.old size feed
            → result ≡ missed size (as_ring feed) }
        ensures keeps { (size : ℕ) (feed : Feed) → KeepsFeed self.old size feed
            → KeepsFeed self.new size (after_take_of size most feed) }
    {
        let waiting = self.tokens.len();
        let count = most.min(waiting);
        let passed = self.passed_now();
        let missed = passed - self.passed;
        self.tokens.truncate_front(waiting - count);
        self.passed = passed + count as u64;
        self.taken += count as u64;
        missed
    }

    /// How many tokens of the list are taken or have been overwritten: all but those that wait.
    fn passed_now(&self) -> u64
        ensures passed { result ≡ self.now.gained - length self.now.tokens.items }
        ensures fits { result + length self.now.tokens.items < 2 ^ 64 }
    {
        self.gained - self.tokens.len() as u64
    }

    /// What is left of the feed.
    pub(crate) fn kept(&self, alloc: Global) -> Result<KeptFeed, AllocError>
        ensures left { IfOk result (λ kept. (size : ℕ) (feed : Feed) → KeepsFeed self.now size feed
            → IsLeft (feed_view kept) size feed) }
        ensures fits { IfOk result (λ kept. FeedFits (feed_view kept)) }

        // Room is taken for the tokens that wait, and for no more.
        ensures room { IfOk result (λ kept. vec_capacity kept.waiting ≡ vec_len kept.waiting) }
    {
        let waiting = all_of(alloc, &self.tokens)?;
        Ok(left(self.gained, self.passed, self.taken, waiting))
    }

    /// The ring of a feed of which this was left, with room for so many tokens.
    pub(crate) fn resume(alloc: Global, size: u32, kept: &KeptFeed) -> Result<Ring, AllocError>
        requires { RingHolds (feed_view kept.now) size }
        ensures { IfOk result (λ ring. (feed : Feed) → IsLeft (feed_view kept.now) size feed
            → KeepsFeed ring size feed) }
    {
        let mut tokens = HeapCircularBuffer::with_capacity(alloc, size as usize)?;
        for token in &kept.waiting {
            tokens.push_back(*token);
        }
        Ok(Ring {
            tokens,
            gained: kept.gained,
            passed: kept.passed,
            taken: kept.taken,
        })
    }

    /// The counts of the feed.
    pub(crate) fn counts(&self) -> Counts
        ensures counts { (size : ℕ) (feed : Feed) → KeepsFeed self.now size feed
            → AreCounts result size feed }
        ensures within { result.taken + result.waiting ≤ result.gained }
    {
        Counts {
            gained: self.gained,
            passed: self.passed,
            taken: self.taken,
            waiting: self.tokens.len() as u64,
        }
    }
}

/// The oldest tokens, so many, with the numbers that follow those passed over.
fn numbered(
    alloc: Global,
    tokens: &HeapCircularBuffer<Token>,
    passed: u64,
    count: usize,
) -> Result<Vec<(u64, Token)>, AllocError>
    requires waits { count ≤ length tokens.now.items }
    requires counts { passed + count < 2 ^ 64 }
    ensures items { IfOk result (λ items. items.items
        ≡ enumerate_from (passed + 1) (take count tokens.now.items)) }
    ensures len { IfOk result (λ items. vec_len items ≡ count) }
    ensures room { IfOk result (λ items. vec_capacity items ≡ count) }
    ensures none { count ≡ 0 → IsOk result }
{
    let mut items = Vec::with_capacity(alloc, count)?;
    let mut number = passed;
    for token in tokens.iter().take(count) {
        number += 1;
        items.push_reserved((number, *token));
    }
    Ok(items)
}

/// All tokens of the ring, the oldest first.
fn all_of(alloc: Global, tokens: &HeapCircularBuffer<Token>) -> Result<Vec<Token>, AllocError>
    ensures items { IfOk result (λ items. items.items ≡ tokens.now.items) }
    ensures fits { IfOk result (λ items. AllByRecursion IsToken (map token_view items.items)) }
    ensures room { IfOk result (λ items. vec_capacity items ≡ vec_len items) }
{
    let mut items = Vec::with_capacity(alloc, tokens.len())?;
    for token in tokens.iter() {
        is_token(*token);
        items.push_reserved(*token);
    }
    Ok(items)
}

/// What is left of a feed with these counts and tokens, which has room in the text of a history.
fn left(gained: u64, passed: u64, taken: u64, waiting: Vec<Token>) -> KeptFeed
    requires few { length waiting.items < 2 ^ 32 }
    requires tokens { AllByRecursion IsToken (map token_view waiting.items) }
    ensures value { result
        ≡ record { gained = gained; passed = passed; taken = taken; waiting = waiting } }
    ensures fits { FeedFits (feed_view result) }
{
    KeptFeed {
        gained,
        passed,
        taken,
        waiting,
    }
}
