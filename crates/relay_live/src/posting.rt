//! The feed desk with the history of its posts, and the one step of the relay that posts.
ghost use Rattle.std.specs.Prelude.{◌≡◌, ◌<◌, ◌+◌, false, None, IfSome, length};
ghost use Rattle.live_jobs.specs.Desks.{desk_of, posts_of};
ghost use Rattle.post_history.specs.Own.{own_posts};
ghost use Rattle.live_jobs.specs.Posted.{IsPostOf};
ghost use Rattle.relay_live.specs.Gains.{HaveGained};
ghost use Rattle.relay_live.specs.Posting.{IsPostedBy};

use feed_queue::Taken;
use id_history::shard_of;
use live_jobs::{CountedDesk, Posted, Unsettled, settle_both};
use post_history::{DeskPosts, Naming, Post, RememberingShard};
use std::alloc::{AllocError, Global};
use std::sync::ledger::{Ledger, Share};

/// The feed desk, and the history of the posts that it made: as many as it counts, and each feed
/// has gained what it had when the relay began, and behind that the tokens of these that it may.
pub(crate) struct RelayDesk<J: Naming, L: Ledger> {
    pub(crate) counted: CountedDesk<L>,
    pub(crate) posts: DeskPosts<J>,
    ghost as_many: { posts.lost ≡ false
        → length posts.all.history ≡ posts_of counted },
    ghost gained: { posts.lost ≡ false
        → HaveGained (desk_of counted) J.began J.rings posts.all.history },
}

// Written out, so that no crate above proves anew how each part is let go.
impl<J: Naming, L: Ledger> Drop for RelayDesk<J, L> {
    fn drop(self) {
        let RelayDesk {
            counted: _,
            posts: _,
        } = self;
    }
}

/// Settles an article, for who holds its shard and the desk, and puts its post behind all others
/// (`live_jobs::settle_both`). Where it can't be put there, since the desk and the shard don't know
/// the same posts, the desk has lost it, and says so once it is asked.
pub(crate) fn settle<J: Naming, L: Ledger>(
    shard: &mut RememberingShard<J>,
    desk: &mut RelayDesk<J, L>,
    share: &mut Share<L>,
    article: &Unsettled<'_>,
) -> Option<Posted>
    requires { 0 < share.old.parts }
    ensures posted { IfSome result (IsPostOf article.now.id.now article.now.session
        article.now.token article.now.permitted.now.items) }
    ensures counted { IfSome result (λ posted. share.new.amount ≡ share.old.amount + 1) }
    ensures same { result ≡ None → share.new.amount ≡ share.old.amount }
    ensures parts { share.new.parts ≡ share.old.parts }
    // Where the desk hasn't lost the post, it is the last of all that it knows, and of all that the
    // shard does.
    ensures desk { IfSome result (λ posted. desk.new.posts.lost ≡ false
        → IsPostedBy article.now desk.old.posts.all.history desk.new.posts.all.history) }
    ensures shard { IfSome result (λ posted. desk.new.posts.lost ≡ false
        → IsPostedBy article.now (own_posts shard.old.posts) (own_posts shard.new.posts)) }
    ensures found { IfSome result (λ posted. desk.new.posts.lost ≡ false
        → desk.old.posts.lost ≡ false) }
    ensures unposted { result ≡ None → (desk.new.posts ≡ desk.old.posts)
        × (shard.new.posts ≡ shard.old.posts) }
{
    let RememberingShard {
        shard: claims,
        posts: own,
    } = shard;
    let RelayDesk { counted, posts } = desk;
    match settle_both(claims, counted, share, article) {
        Some(posted) => {
            let post = Post::of(
                article.id,
                article.session,
                article.token,
                article.permitted,
            );
            let _told = posts.post(own, shard_of(article.id), &post);
            Some(posted)
        }
        None => None,
    }
}

impl<J: Naming, L: Ledger> RelayDesk<J, L> {
    ghost use Rattle.std.specs.Prelude.{◌≡◌, ◌≤◌, IfOk};

    /// Its parts.
    pub(crate) fn into_parts(self) -> (CountedDesk<L>, DeskPosts<J>)
        ensures as_many { result.1.lost ≡ false
            → length result.1.all.history ≡ posts_of result.0 }
        ensures gained { result.1.lost ≡ false
            → HaveGained (desk_of result.0) J.began J.rings result.1.all.history }
    {
        let RelayDesk { counted, posts } = self;
        (counted, posts)
    }

    /// See `CountedDesk::take`.
    pub(crate) fn take(
        &mut self,
        alloc: Global,
        feed: u16,
        most: usize,
    ) -> Result<Option<Taken>, AllocError>
        ensures posts { self.new.posts ≡ self.old.posts }
        ensures most { IfOk result (λ answer. IfSome answer (λ taken.
            length taken.items.items ≤ most)) }
    {
        let RelayDesk {
            counted,
            posts: _posts,
        } = self;
        counted.take(alloc, feed, most)
    }
}
