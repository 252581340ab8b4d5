//! What the shards know is compared with what the desk does.
ghost use Rattle.std.specs.Prelude.{ℕ, ◌≡◌, ◌<◌, IsTrue, length, map};
ghost use Rattle.id_history.specs.Expiry.{passed_view};
ghost use Rattle.post_history.specs.Posts.{posts_of};
ghost use Rattle.post_history.specs.Remembering.{AreOwnOnce, ArePostedOnce};

use crate::book::Naming;
use crate::desk::AllPosts;
use crate::remembering::RememberingShard;
use cyc_buffer::Front;

/// Whether each of the shards, that of the number of its place, agrees with these posts.
fn agree<J: Naming>(shards: &[RememberingShard<J>], all: &AllPosts<J>, fronts: &[Front]) -> bool
    ensures { IsTrue result → (k : ℕ) → k < length shards.now
        → ∥ AreOwnOnce (map passed_view fronts.now) J.began k (posts_of k all.now.history) ∥₁ }
{
    for k in 0..shards.len() {
        match shards[k].agrees(all, fronts) {
            Some(number) if number == k as u64 => {}
            _ => return false,
        }
    }
    true
}

/// Whether all sixteen shards agree with these posts: then two of them are of one id, or one is of
/// an id that the relay began with, only where the earlier one's token is passed by these fronts.
pub fn all_once<J: Naming>(
    shards: &[RememberingShard<J>],
    all: &AllPosts<J>,
    fronts: &[Front],
) -> bool
    requires { length shards.now ≡ 16 }
    ensures { IsTrue result
        → ∥ ArePostedOnce (map passed_view fronts.now) J.began all.now.history ∥₁ }
{
    agree(shards, all, fronts)
}
