//! Laws of places and of open writes.
ghost use Rattle.std.specs.Prelude.{◌≡◌, ◌≤◌, ◌<◌, ◌+◌, ℕ, Bool, false, List, length, Some};
ghost use Rattle.std.specs.List.{AllByRecursion};
ghost use Rattle.news_terms.specs.Places.{Buffer, head_after, size_of};
ghost use Rattle.cyc_buffer.specs.History.{Article, Begin, head_of, finished_at, is_at};
ghost use Rattle.cyc_buffer.specs.History.{IsPlain, sizes_of};
ghost use Rattle.news_terms.specs.Picks.{place_after};
ghost use Rattle.cyc_token.specs.Token.{token_view};
ghost use Rattle.cyc_buffer.specs.Agreement.{Agrees, IsOpenAs, CanWrite, CanFinish, token_of};
ghost use Rattle.cyc_buffer.specs.History.{History, Writing, open_token};
ghost use Rattle.cyc_buffer.specs.BufferState.{IsSized};

use crate::{Open, buffer};
use cyc_block::BlockStore;

/// Where no begin is fresh, the head is that of the sizes cut into runs.
pub fn plain_runs()
    ensures { (blocks : ℕ) (begins : List Begin) → AllByRecursion IsPlain begins
        → head_of blocks begins ≡ head_after (λ (run : ℕ). blocks) (sizes_of begins) }
{}

/// No begin goes to the place of a finished article, and no article wraps round the end.
pub fn own_places()
    ensures own { (buffer : Buffer) (begins : List Begin) (fresh : Bool) (size cycle first : ℕ)
        (article : Article) → AllByRecursion (IsSized buffer.blocks) begins
        → finished_at buffer begins cycle first ≡ Some article
        → is_at buffer (place_after buffer.blocks (head_of buffer.blocks begins) fresh size)
        cycle first
        ≡ false }
    ensures within { (buffer : Buffer) (begins : List Begin) (cycle first : ℕ)
        (article : Article) → AllByRecursion (IsSized buffer.blocks) begins
        → finished_at buffer begins cycle first ≡ Some article
        → first + size_of (length article.text) ≤ buffer.blocks }
{}

/// The handle with the token of a history's open write is that of each buffer that agrees with the
/// history, and what can be done with it is what the history says.
pub fn open_writes<S: BlockStore>(buffer: &buffer::Buffer<S>, write: &Open)
    ensures is { (trusted : Bool) (h : History) (w : Writing) → Agrees trusted buffer.now h
        → h.writing ≡ Some w → Some (token_view (token_of write.now)) ≡ open_token h
        → IsOpenAs buffer.now write.now w }
    ensures can_write { (w : Writing) (text : List ℕ) → IsOpenAs buffer.now write.now w
        → w.broken ≡ false → w.blocks < size_of w.octets → length text ≡ w.octets
        → CanWrite buffer.now write.now text }
    ensures can_finish { (w : Writing) → IsOpenAs buffer.now write.now w → w.broken ≡ false
        → w.blocks ≡ size_of w.octets → CanFinish buffer.now write.now }
{}
