//! How an article that was found again is rejected.
ghost use Rattle.std.specs.Prelude.{◌≡◌, ◌↔◌, ◌<◌, ◌≤◌, ℕ, Bool, IsTrue, true};
ghost use Rattle.cyc_token.specs.Token.{token_view};
ghost use Rattle.cyc_buffer.specs.Agreement.{Agrees, buffer_state_of, store_of};
ghost use Rattle.cyc_buffer.specs.BufferState.{Keeps};
ghost use Rattle.cyc_buffer.specs.Head.{has_open_head, inside, is_busy, stop_of};
ghost use Rattle.cyc_buffer.specs.History.{History};
ghost use Rattle.cyc_buffer.specs.Marks.{is_marked};
ghost use Rattle.cyc_buffer.specs.Rejecting.{EndsAt, IsLiveAt, IsMarkedAt, limit_of};
ghost use Rattle.cyc_buffer.specs.Rejecting.{without_article};
ghost use Rattle.cyc_buffer.specs.Remembered.{AddsNoStart};

use crate::buffer_state::BufferState;
use crate::unopened::Unopened;
use cyc_block::BlockStore;
use cyc_token::Token;

impl<S: BlockStore> Unopened<S> {
    /// Rejects the article that begins at a token's place, whose text the layer above found to be
    /// none: it isn't given any more, and a stop doesn't tell it. Its space stays lost.
    pub fn reject(&mut self, token: &Token)
        // From now on the buffer is one in which this article was never finished.
        ensures rejected { (trusted : Bool) (h : History) → Agrees trusted (inside self.old) h
            → IsLiveAt h (token_view token.now)
            → Agrees trusted (inside self.new) (without_article (token_view token.now) h) }
        // Where none begins there nothing is changed.
        ensures unknown { (trusted : Bool) (h : History) → Agrees trusted (inside self.old) h
            → (IsLiveAt h (token_view token.now) → ⊥)
            → buffer_state_of (inside self.new) ≡ buffer_state_of (inside self.old) }
        ensures starts { AddsNoStart (inside self.old) (inside self.new) }
        ensures busy { is_busy (inside self.new) ≡ is_busy (inside self.old) }
        ensures head { has_open_head (inside self.new) ≡ has_open_head (inside self.old) }
        ensures stop { stop_of (inside self.new) ≡ stop_of (inside self.old) }
        // The device isn't called.
        ensures store { store_of (inside self.new) ≡ store_of (inside self.old) }
    {
        self.buffer.buffer_state.reject(token);
    }
}

impl BufferState {
    /// Takes back the live finished article that begins at a token's place, where one does.
    fn reject(&mut self, token: &Token)
        ensures rejected { (h : History) → Keeps self.old h → IsLiveAt h (token_view token.now)
            → Keeps self.new (without_article (token_view token.now) h) }
        ensures unknown { (h : History) → Keeps self.old h
            → (IsLiveAt h (token_view token.now) → ⊥) → self.new ≡ self.old }
        ensures starts { (j : ℕ) → is_marked self.new.starts.words.items j ≡ true
            → is_marked self.old.starts.words.items j ≡ true }
        ensures line { self.new.line ≡ self.old.line }
        ensures progress { self.new.progress ≡ self.old.progress }
    {
        if !self.has_begin(token) {
            return;
        }
        let end = self.end_of(token.first);
        self.unmark(token.first, end);
        self.counts.stored = self.counts.stored.saturating_sub(1);
    }

    /// Whether a live finished article begins at a token's place.
    fn has_begin(&self, token: &Token) -> bool
        ensures { IsTrue result ↔ IsMarkedAt self.now token.now }
    {
        token.buffer == self.line.number
            && token.first < self.line.blocks
            && self.line.has_not_passed(token.cycle, token.first)
            && self.starts.has(token.first)
    }

    /// The block behind the article that begins at a block, by the marks.
    fn end_of(&self, first: u32) -> u32
        requires { first < self.now.line.blocks }
        ensures ends { EndsAt self.now.starts.words.items self.now.kept.words.items first
            (limit_of self.now.line first) result }
        ensures within { result ≤ self.now.line.blocks }
    {
        let limit = self.limit(first);
        for end in first + 1..limit {
            if !self.kept.has(end) || self.starts.has(end) {
                return end;
            }
        }
        limit
    }

    /// Where the articles of a block's cycle end at the latest.
    fn limit(&self, block: u32) -> u32
        requires { block < self.now.line.blocks }
        ensures is { result ≡ limit_of self.now.line block }
        ensures behind { block < result }
        ensures within { result ≤ self.now.line.blocks }
    {
        if block < self.line.used {
            self.line.used
        } else {
            self.line.blocks
        }
    }
}
