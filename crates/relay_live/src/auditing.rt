//! The posts that a desk made are held against what the shards know of them.
ghost use Rattle.std.specs.Prelude.{◌≡◌, ◌≢◌, ◌<◌, ◌≤◌, ℕ, List, [], None, IfOk, IfSome, IsTrue};
ghost use Rattle.std.specs.Prelude.{false, length, map};
ghost use Rattle.id_history.specs.Expiry.{passed_view};
ghost use Rattle.live_jobs.specs.Desks.{posts_in};
ghost use Rattle.live_jobs.specs.Gathered.{AllTold, NoneElse, RestsFit, hands_of, kept_by_all};
ghost use Rattle.live_jobs.specs.Started.{AllEnded, AllLeft};
ghost use Rattle.post_history.specs.Posts.{posts_of};
ghost use Rattle.post_history.specs.Remembering.{AreOwnOnce, ArePostedOnce};
ghost use Rattle.relay_live.specs.Audits.{HasFrontOfEach, fronts_of, history_of};
ghost use Rattle.relay_live.specs.Making.{buffers_in, remember_in};
ghost use Rattle.relay_model.specs.Terms.{shard_count};

use crate::alone::Alone;
use crate::audit::{Audit, Closed, PostedOnce};
use crate::locking::LockedShard;
use crate::posting::RelayDesk;
use crate::shared::Shared;
use cyc_block::BlockStore;
use cyc_buffer::Front;
use job_queue::QueuePass;
use live_jobs::{JobChannel, Outcome, Seats, close};
use live_store::{NumberedBuffer, StorePremises};
use post_history::{AllPosts, Naming, all_once, are_in_order};
use std::alloc::{AllocError, Global};
use std::sync::ledger::Ledger;
use std::sync::{Mutex, Wait};

/// What the shards, each under its lock, say of these posts.
pub(crate) fn audit_of<S: BlockStore + Drop, J: StorePremises + Naming, L: Ledger, R: Wait>(
    rt: &R,
    alloc: Global,
    shared: &Shared<S, J, L>,
    posts: Option<AllPosts<J>>,
) -> Result<Audit<J>, AllocError>
    ensures as_many { (n : ℕ) → IfSome posts (λ all. length all.history ≡ n)
        → IfOk result (λ audit. IfSome (history_of audit) (λ history. length history ≡ n)) }
    ensures unforgotten { remember_in shared.now ≡ None
        → IfOk result (λ audit. fronts_of audit ≡ []) }
    ensures read { remember_in shared.now ≢ None
        → IfOk result (HasFrontOfEach (buffers_in shared.now)) }
{
    // No round goes meanwhile, which would forget by newer fronts.
    let _rounds = shared.rounds.lock(rt);
    let fronts = fronts_now(rt, alloc, shared)?;
    let Some(all) = posts else {
        return Ok(Audit::Differs);
    };
    if !are_in_order(&fronts) || !all_agree(rt, &shared.shards, &all, &fronts) {
        return Ok(Audit::Differs);
    }
    let AllPosts {
        history,
        counts: _counts,
    } = all;
    Ok(Audit::Once(PostedOnce { history, fronts }))
}

impl<S: BlockStore + Drop, J: StorePremises + Naming, L: Ledger> Alone<S, J, L> {
    /// What the shards say of the posts that the desk made.
    pub(crate) fn audit(&self, alloc: Global) -> Result<Audit<J>, AllocError>
        ensures whole { IfOk result (λ audit. IfSome (history_of audit)
            (λ posts. (self.now.posts.lost ≡ false) × (posts ≡ self.now.posts.all.history))) }
        ensures unforgotten { self.now.remember ≡ None
            → IfOk result (λ audit. fronts_of audit ≡ []) }
        ensures read { self.now.remember ≢ None
            → IfOk result (HasFrontOfEach (length self.now.buffers.items)) }
    {
        let fronts = self.fronts(alloc)?;
        if self.posts.lost || !are_in_order(&fronts) {
            return Ok(Audit::Differs);
        }
        if !all_once(&self.shards, &self.posts.all, &fronts) {
            return Ok(Audit::Differs);
        }
        let history = self.posts.all.history.again();
        Ok(Audit::Once(PostedOnce { history, fronts }))
    }

    /// The front of each buffer, where ids are forgotten; else none.
    fn fronts(&self, alloc: Global) -> Result<Vec<Front>, AllocError>
        ensures unset { self.now.remember ≡ None → IfOk result (λ fronts. fronts.items ≡ []) }
        ensures each { self.now.remember ≢ None → IfOk result (λ fronts.
            length fronts.items ≡ length self.now.buffers.items) }
    {
        if self.remember.is_none() {
            return Ok(Vec::new(alloc));
        }
        passed_by(alloc, self.buffers.as_slice())
    }
}

/// The front of each of these buffers.
fn passed_by<S: BlockStore, J: StorePremises>(
    alloc: Global,
    buffers: &[NumberedBuffer<S, J>],
) -> Result<Vec<Front>, AllocError>
    ensures { IfOk result (λ fronts. length fronts.items ≡ length buffers.now) }
{
    let mut fronts = Vec::new(alloc);
    for buffer in buffers {
        fronts.push(buffer.passed())?;
    }
    Ok(fronts)
}

/// The front of each buffer, read under its lock, where ids are forgotten; else none.
fn fronts_now<S: BlockStore + Drop, J: StorePremises + Naming, L: Ledger, R: Wait>(
    rt: &R,
    alloc: Global,
    shared: &Shared<S, J, L>,
) -> Result<Vec<Front>, AllocError>
    ensures unset { remember_in shared.now ≡ None → IfOk result (λ fronts. fronts.items ≡ []) }
    ensures each { remember_in shared.now ≢ None → IfOk result (λ fronts.
        length fronts.items ≡ buffers_in shared.now) }
{
    if shared.remember.is_none() {
        return Ok(Vec::new(alloc));
    }
    read_fronts(rt, alloc, shared.buffers.locks())
}

/// The front of each of these buffers, read under its lock.
fn read_fronts<S: BlockStore + Drop, J: StorePremises, R: Wait>(
    rt: &R,
    alloc: Global,
    buffers: &[Mutex<NumberedBuffer<S, J>>],
) -> Result<Vec<Front>, AllocError>
    ensures { IfOk result (λ fronts. length fronts.items ≡ length buffers.now) }
{
    let mut fronts = Vec::new(alloc);
    for buffer in buffers {
        fronts.push(buffer.lock(rt).passed())?;
    }
    Ok(fronts)
}

/// Whether each shard, that of the number of its place, agrees with these posts while it is held.
fn all_agree<J: Naming, R: Wait>(
    rt: &R,
    shards: &[LockedShard<J>],
    all: &AllPosts<J>,
    fronts: &[Front],
) -> bool
    requires { length shards.now ≡ shard_count }
    ensures { IsTrue result
        → ∥ ArePostedOnce (map passed_view fronts.now) J.began all.now.history ∥₁ }
{
    agree_to(rt, shards, all, fronts)
}

/// The same of as many shards as there are, each for the posts of its own ids.
fn agree_to<J: Naming, R: Wait>(
    rt: &R,
    shards: &[LockedShard<J>],
    all: &AllPosts<J>,
    fronts: &[Front],
) -> bool
    ensures { IsTrue result → (k : ℕ) → k < length shards.now
        → ∥ AreOwnOnce (map passed_view fronts.now) J.began k (posts_of k all.now.history) ∥₁ }
{
    for k in 0..shards.len() {
        match shards[k].hold(rt).guard.agrees(all, fronts) {
            Some(number) if number == k as u64 => {}
            _ => return false,
        }
    }
    true
}

/// Compares all seats (`live_jobs::close`), for who holds the desk, and says what it posted.
pub(crate) fn close_desk<J: Naming, L: Ledger, O: Outcome, V>(
    desk: &mut RelayDesk<J, L>,
    channels: &[JobChannel],
    rests: &mut Vec<QueuePass>,
    seats: &mut Seats<L, O, V>,
) -> Closed<J>
    requires lefts { AllLeft channels.now seats.old.lefts.items }
    requires writers { (length seats.old.writers.items ≡ length channels.now)
        × AllEnded channels.now (length seats.old.lefts.items) seats.old.writers.items }
    requires rests { RestsFit channels.now (length seats.old.lefts.items) rests.old.items }
    requires parts { (L.parts ≡ length seats.old.writers.items)
        × (0 < length seats.old.writers.items) }
    ensures jobs { AllTold O.fits (map (λ w. w.finished.items) seats.old.writers.items)
        (hands_of seats.old.lefts.items) }
    ensures none { NoneElse (length seats.old.lefts.items)
        (map (λ w. w.finished.items) seats.old.writers.items) }
    ensures accepted { result.totals.accepted
        ≡ kept_by_all O.kept (map (λ w. w.finished.items) seats.old.writers.items) }
    ensures posted { posts_in result.totals.posted ≡ result.totals.accepted }
    ensures finished { map (λ w. w.finished.items) seats.new.writers.items
        ≡ map (λ w. w.finished.items) seats.old.writers.items }
    ensures handed { hands_of seats.new.lefts.items ≡ hands_of seats.old.lefts.items }
    ensures services { seats.new.services.items ≡ seats.old.services.items }
{
    let RelayDesk { counted, posts } = desk;
    let totals = close(channels, counted, rests, seats);
    let all = if posts.lost {
        None
    } else {
        Some(posts.all.again())
    };
    Closed { totals, posts: all }
}
