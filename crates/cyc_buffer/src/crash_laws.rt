//! Laws of what a crash leaves of a buffer, and of what is found of it again.
ghost use Rattle.std.specs.Prelude.{◌≡◌, ◌≢◌, ◌≤◌, ◌<◌, ◌+◌, ◌^◌, ◌⊎◌, ◌∷◌, ℕ, Bool, true, false};
ghost use Rattle.std.specs.Prelude.{List, length, Option};
ghost use Rattle.std.specs.Prelude.{None, Some};
ghost use Rattle.std.specs.Prelude.{◌↔◌};
ghost use Rattle.std.specs.List.{AllByRecursion, Contains};
ghost use Rattle.news_terms.specs.Places.{Buffer, IsLive, on_line, size_of};
ghost use Rattle.news_terms.specs.Token.{Token};
ghost use Rattle.cyc_block.specs.Store.{ChangesOnly, block_at};
ghost use Rattle.cyc_buffer.specs.BufferState.{IsSized};
ghost use Rattle.cyc_buffer.specs.Crash.{IsCrashOf, IsFoundAgain, IsFrontOn, IsLeftOf, IsOfHistory};
ghost use Rattle.cyc_buffer.specs.Crash.{CountsFound, IsPiece, IsThere, ListsFound, Tells};
ghost use Rattle.cyc_buffer.specs.Crash.{IsLossOf, end_on_line};
ghost use Rattle.cyc_buffer.specs.FoundHistory.{found_history};
ghost use Rattle.cyc_token.specs.declared.Token as declared;
ghost use Rattle.cyc_buffer.specs.History.{History, begun_at, cycle_of, finished_at, front_of};
ghost use Rattle.cyc_buffer.specs.History.{Article, Begin, Writing, head_of, is_at, new_history};
ghost use Rattle.cyc_buffer.specs.History.{with_begin};
ghost use Rattle.news_terms.specs.BlockImage.{block_image, block_of};
ghost use Rattle.news_terms.specs.Picks.{place_after};
ghost use Rattle.cyc_buffer.specs.Rejecting.{IsLiveAt, IsSamePlace, IsUnrejected};
ghost use Rattle.cyc_buffer.specs.Rejecting.{without_article, without_articles};
ghost use Rattle.cyc_buffer.specs.Starting.{ListsLive};
ghost use Rattle.cyc_buffer.specs.Stopped.{IsLiveToken, used_of};
ghost use Rattle.cyc_token.specs.Token.{token_view};

use news_terms::images::one_block;

/// What a crash leaves, block by block, is a device that it may have left.
pub fn crashes_leave()
    ensures { (h : History) (kept : Token → Bool) (blocks : List (List ℕ))
        → AllByRecursion (IsSized h.buffer.blocks) h.begins → IsCrashOf h kept blocks
        → IsLeftOf h kept blocks }
{}

/// Of a device that a crash has left everything that was to be kept is found again; what is found
/// was begun, and is what was finished there; and the front isn't past the history's.
pub fn kept_is_found()
    ensures kept { (h : History) (kept : Token → Bool) (blocks : List (List ℕ)) (cycle used : ℕ)
        (t : Token) → IsLeftOf h kept blocks → IsFrontOn h.buffer blocks cycle used
        → kept t ≡ true → IsFoundAgain h.buffer blocks cycle used t }
    ensures begun { (h : History) (kept : Token → Bool) (blocks : List (List ℕ)) (cycle used : ℕ)
        (t : Token) → IsLeftOf h kept blocks → IsFrontOn h.buffer blocks cycle used
        → IsFoundAgain h.buffer blocks cycle used t → IsOfHistory h blocks t }
    ensures front { (h : History) (kept : Token → Bool) (blocks : List (List ℕ)) (cycle used : ℕ)
        → IsLeftOf h kept blocks → IsFrontOn h.buffer blocks cycle used
        → on_line h.buffer.blocks cycle used ≤ front_of h }
{}

/// A crash right after a recovery leaves what the recovery has found.
pub fn found_is_left()
    ensures { (h : History) (kept : Token → Bool) (blocks : List (List ℕ)) → Tells blocks h
        → ((t : Token) → kept t ≡ true
        → IsFoundAgain h.buffer blocks (cycle_of h) (used_of h) t)
        → IsLeftOf h kept blocks }
{}

/// A begin changes no block: what a crash may have left before it, it may leave behind it, but for
/// what the front has passed by it.
pub fn begins_leave()
    ensures { (h : History) (kept later : Token → Bool) (blocks : List (List ℕ))
        (class octets : ℕ) (fresh : Bool) → IsLeftOf h kept blocks
        → AllByRecursion (IsSized h.buffer.blocks) h.begins
        → ((t : Token) → later t ≡ true → (kept t ≡ true)
        × IsLive h.buffer.blocks (front_of (with_begin class octets fresh h))
        (on_line h.buffer.blocks t.cycle t.first))
        → IsLeftOf (with_begin class octets fresh h) later blocks }
{}

/// A block is written of the article that was begun last and isn't finished: what a crash may have
/// left before it, it may leave behind it.
pub fn writes_leave()
    ensures { (h : History) (kept : Token → Bool) (blocks written : List (List ℕ)) (o : Token)
        (k : ℕ) → IsLeftOf h kept blocks
        → begun_at h.buffer h.begins o.cycle o.first ≡ Some (size_of o.length)
        → finished_at h.buffer h.begins o.cycle o.first ≡ None
        → end_on_line h.buffer.blocks o ≡ front_of h
        → length written ≡ length blocks → IsPiece h.buffer written o k
        → ChangesOnly (o.first + k) blocks written
        → ((t : Token) (i : ℕ) → kept t ≡ true → i < size_of t.length
        → t.first + i ≢ o.first + k)
        → IsLeftOf h kept written }
{
    one_block();
}

/// What is found on a device is a history that the device tells, in which each block that the front
/// passed and that is no found article's is a begin of its own.
pub fn found_is_told()
    ensures told { (buffer : Buffer) (blocks : List (List ℕ)) (cycle used : ℕ)
        (tokens : List declared.Token) → 1 ≤ buffer.blocks → length blocks ≡ buffer.blocks
        → buffer.first_cycle < 2 ^ 32 → buffer.blocks < 2 ^ 32
        → IsFrontOn buffer blocks cycle used → ListsFound buffer blocks cycle used tokens
        → Tells blocks (found_history buffer blocks cycle used tokens) }
    ensures counted { (buffer : Buffer) (blocks : List (List ℕ)) (cycle used : ℕ)
        (tokens : List declared.Token) → 1 ≤ buffer.blocks
        → IsFrontOn buffer blocks cycle used → ListsFound buffer blocks cycle used tokens
        → CountsFound (found_history buffer blocks cycle used tokens) tokens }
{}

/// A finish changes no block: behind it a crash leaves the article that was finished, too.
pub fn finishes_leave()
    ensures { (buffer : Buffer) (b : Begin) (earlier : List Begin) (writing : Option Writing)
        (kept later : Token → Bool) (blocks : List (List ℕ)) (o : Token) (article : Article)
        → b.finished ≡ None
        → IsLeftOf (record { buffer = buffer; begins = b ∷ earlier; writing = writing }) kept blocks
        → is_at buffer (place_after buffer.blocks (head_of buffer.blocks earlier) b.fresh b.size)
        o.cycle o.first
        ≡ true
        → IsThere buffer blocks o → article.class ≡ o.class → length article.text ≡ o.length
        → ((k : ℕ) → k < size_of o.length → block_at blocks (o.first + k)
        ≡ block_image (block_of o.cycle o.first article.class article.text k))
        → end_on_line buffer.blocks o
        ≡ front_of (record { buffer = buffer; begins = b ∷ earlier; writing = writing })
        → ((t : Token) → later t ≡ true → (kept t ≡ true) ⊎ (t ≡ o))
        → IsLeftOf (record {
          buffer = buffer;
          begins = record b { finished = Some article } ∷ earlier;
          writing = None;
        }) later blocks }
{
    one_block();
}

/// A device that has no block of any article of a buffer is one in which nothing was begun, and is
/// left so: a device of zeros, as a fresh start needs it.
pub fn formats_leave()
    ensures { (buffer : Buffer) (blocks : List (List ℕ)) → length blocks ≡ buffer.blocks
        → ((t : Token) (k : ℕ) → IsPiece buffer blocks t k → ⊥)
        → IsLeftOf (new_history buffer) (λ t. false) blocks }
{}

/// What is left has nothing to do with the open write: with a block more of it, with a failed one,
/// and without it, the same is left.
pub fn open_writes_leave()
    ensures { (h : History) (kept : Token → Bool) (blocks : List (List ℕ)) (o : Option Writing)
        → IsLeftOf h kept blocks → IsLeftOf (record h { writing = o }) kept blocks }
{}

/// Where writes are lost, any of those since a device was safe, each whole, what is left is a
/// device of the later history, with what is still live and all there.
pub fn losses_leave()
    ensures { (h later : History) (kept safe_now : Token → Bool) (safe blocks : List (List ℕ))
        → IsLeftOf h kept safe → IsLossOf h safe later blocks
        → ((t : Token) → safe_now t ≡ true → IsLiveToken later t)
        → ((t : Token) → safe_now t ≡ true → IsThere later.buffer blocks t)
        → IsLeftOf later safe_now blocks }
{
    one_block();
}

/// What a start or a recovery lists can be rejected.
pub fn listed_is_live()
    ensures { (h : History) (t : Token) → AllByRecursion (IsSized h.buffer.blocks) h.begins
        → IsLiveToken h t → IsLiveAt h t }
{}

/// Where articles were rejected, just the others are live as they were; so a start of what is shut
/// then gives just the tokens that were found and not rejected.
pub fn unrejected_is_started()
    ensures live { (h : History) (rejected : List declared.Token) (t : Token)
        → IsLiveToken (without_articles rejected h) t
        ↔ (IsLiveToken h t × IsUnrejected rejected t) }
    ensures started { (h : History) (found rejected started : List declared.Token)
        → ListsLive found h → ListsLive started (without_articles rejected h)
        → (t : declared.Token) → Contains started t
        ↔ (Contains found t × IsUnrejected rejected (token_view t)) }
{}

/// That an article is rejected changes no block: what a crash may have left before it, it may leave
/// behind it, but for this article.
pub fn rejects_leave()
    ensures { (h : History) (o : Token) (kept later : Token → Bool) (blocks : List (List ℕ))
        → IsLeftOf h kept blocks
        → ((t : Token) → later t ≡ true → (kept t ≡ true) × (IsSamePlace o t → ⊥))
        → IsLeftOf (without_article o h) later blocks }
{}
