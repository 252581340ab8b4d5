//! A shard that remembers what was posted.
ghost use Rattle.std.specs.Prelude.{◌≡◌, ◌<◌, [], ℕ, false, IsTrue, IfSome, IfOk, OnOk, OnErr, map};
ghost use Rattle.std.specs.Prelude.{◌≤◌, length, vec_capacity};
ghost use Rattle.post_history.specs.Began.{Takes};
ghost use Rattle.id_history.specs.Expiry.{passed_view};
ghost use Rattle.post_history.specs.Posts.{posts_of};
ghost use Rattle.post_history.specs.Remembering.{AreLater, AreOwnOnce, Remembers};
ghost use Rattle.post_history.specs.Own.{fronts_used, own_posts};

use crate::book::{Naming, PostHistory};
use crate::desk::{AllPosts, ShardPosts};
use crate::passing::{are_later, put_all};
use cyc_buffer::Front;
use id_history::{Offer, Shard, Take};
use nntp_text::MsgId;
use std::alloc::{AllocError, Global};

/// A shard, and the posts of its ids: each of them is stored in it, as is each of its ids that the
/// relay had stored when it began, but those whose text is passed by the fronts by which it has
/// forgotten; and two of them are of one id, or one is of an id that was stored before, only where
/// the earlier one's is.
#[derive(Drop)]
pub struct RememberingShard<J: Naming> {
    pub shard: Shard,
    pub posts: ShardPosts<J>,
    pub ghost remembers: { posts.lost ≡ false
        → ∥ Remembers shard (fronts_used posts) J.began posts.number (own_posts posts) ∥₁ },
}

impl<J: Naming> RememberingShard<J> {
    ghost use Rattle.id_history.specs.Changes.{ChangesClaim, KeepsClaims, OfClaim};
    ghost use Rattle.id_history.specs.Answers.{offer_view, take_view};
    ghost use Rattle.id_history.specs.Shard.{Keeps};
    ghost use Rattle.post_history.specs.Shards.{shard_in};
    ghost use Rattle.std.specs.Prelude.{List};
    ghost use Rattle.relay_model.specs.Claims.{Accepted, Claim, after_expire, after_offer};
    ghost use Rattle.relay_model.specs.Claims.{after_refuse, after_release, after_take};
    ghost use Rattle.relay_model.specs.Claims.{offer_answer, standing, take_answer};

    /// The shard of this number, which has its ids of those that the relay began with, with room
    /// for the fronts of so many buffers, before its first post.
    pub fn over(
        alloc: Global,
        number: u64,
        shard: Shard,
        history: PostHistory<J>,
        buffers: usize,
    ) -> Result<RememberingShard<J>, AllocError>
        requires none { history ≡ [] }
        requires takes { Takes J.began number shard }
        ensures shard { IfOk result (λ remembering. shard_in remembering ≡ shard) }
        ensures number { IfOk result (λ remembering. remembering.posts.number ≡ number) }
        ensures room { IfOk result (λ remembering.
            buffers ≤ vec_capacity remembering.posts.used) }
    {
        let used = Vec::with_capacity(alloc, buffers)?;
        Ok(RememberingShard {
            shard,
            posts: ShardPosts {
                number,
                settled: 0,
                history,
                used,
                lost: false,
            },
        })
    }

    /// See `Shard::offer`.
    pub fn offer(
        &mut self,
        id: &MsgId,
        session: u64,
        now: u64,
        lasting: Option<u64>,
    ) -> Result<Offer, AllocError>
        ensures answer { IfOk result (λ answer. OfClaim (Keeps (shard_in self.old)) id.now
            (λ claim. offer_view answer ≡ offer_answer session (standing lasting now claim))) }
        ensures claims { OnOk result (ChangesClaim (Keeps (shard_in self.old))
            (Keeps (shard_in self.new)) id.now
            (λ claim. after_offer session now (standing lasting now claim))) }
        ensures err { OnErr result (KeepsClaims (Keeps (shard_in self.old))
            (Keeps (shard_in self.new))) }
    {
        let RememberingShard {
            shard,
            posts: _posts,
        } = self;
        shard.offer(id, session, now, lasting)
    }

    /// See `Shard::take`.
    pub fn take(&mut self, id: &MsgId, session: u64) -> Result<Take, AllocError>
        ensures answer { IfOk result (λ answer. OfClaim (Keeps (shard_in self.old)) id.now
            (λ claim. take_view answer ≡ take_answer session claim)) }
        ensures claims { OnOk result ((article : Accepted)
            → ChangesClaim (Keeps (shard_in self.old)) (Keeps (shard_in self.new)) id.now
            (after_take session article)) }
        ensures err { OnErr result (KeepsClaims (Keeps (shard_in self.old))
            (Keeps (shard_in self.new))) }
    {
        let RememberingShard {
            shard,
            posts: _posts,
        } = self;
        shard.take(id, session)
    }

    /// See `Shard::refuse`.
    pub fn refuse(
        &mut self,
        id: &MsgId,
        session: u64,
        now: u64,
        lasting: Option<u64>,
    ) -> Result<(), AllocError>
        ensures claims { OnOk result (ChangesClaim (Keeps (shard_in self.old))
            (Keeps (shard_in self.new)) id.now
            (λ claim. after_refuse session now (standing lasting now claim))) }
        ensures err { OnErr result (KeepsClaims (Keeps (shard_in self.old))
            (Keeps (shard_in self.new))) }
    {
        let RememberingShard {
            shard,
            posts: _posts,
        } = self;
        shard.refuse(id, session, now, lasting)
    }

    /// See `Shard::release`.
    pub fn release(&mut self, id: &MsgId, session: u64)
        ensures { ChangesClaim (Keeps (shard_in self.old)) (Keeps (shard_in self.new)) id.now
            (after_release session) }
    {
        let RememberingShard {
            shard,
            posts: _posts,
        } = self;
        shard.release(id, session);
    }

    /// See `Shard::expire`. These are the fronts by which it has forgotten from now on, where they
    /// are later than those so far and there is room for them; else it counts as lost.
    pub fn expire(&mut self, now: u64, remember: u64, fronts: &[Front])
        ensures claims { (claims : List ℕ → Claim) → Keeps (shard_in self.old) claims
            → Keeps (shard_in self.new)
            (λ id. after_expire now remember (map passed_view fronts.now) (claims id)) }
    {
        let RememberingShard { shard, posts } = self;
        shard.expire(now, remember, fronts);
        posts.use_fronts(fronts);
    }

    /// Its number, where it knows all posts of its ids among these, and the fronts are later than
    /// those by which it has forgotten: then two of these posts are of one id, or one is of an id
    /// that the relay began with, only where the earlier one's token is passed by the fronts.
    pub fn agrees(&self, all: &AllPosts<J>, fronts: &[Front]) -> Option<u64>
        ensures { IfSome result (λ k. ∥ AreOwnOnce (map passed_view fronts.now) J.began k
            (posts_of k all.now.history) ∥₁) }
    {
        if self.posts.lost || !all.agree(&self.posts) || !are_later(&self.posts.used, fronts) {
            return None;
        }
        Some(self.posts.number)
    }
}

impl<J: Naming> ShardPosts<J> {
    /// The fronts are used from now on, where they are later than those so far and there is room
    /// for them; else the posts count as lost.
    fn use_fronts(&mut self, fronts: &[Front])
        ensures later { self.new.lost ≡ false → (self.old.lost ≡ false)
            × (self.new.used.items ≡ fronts.now) × AreLater self.old.used.items fronts.now }
        ensures same { (self.new.number ≡ self.old.number) × (self.new.history ≡ self.old.history) }
    {
        if fronts.len() > self.used.capacity() || !are_later(&self.used, fronts) {
            self.lost = true;
            return;
        }
        put_all(&mut self.used, fronts);
    }
}
