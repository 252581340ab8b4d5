//! The seat of a writer.
ghost use Rattle.std.specs.Prelude.{◌≡◌, ◌+◌, ◌<◌, ℕ, true, false, Some};
ghost use Rattle.std.specs.Prelude.{slice_get, slice_set, length, if◌then◌else◌};
ghost use Rattle.crossbeam_queue.specs.Passes.{IsPassOf};
ghost use Rattle.live_jobs.specs.JobChannels.{queue_of};
ghost use Rattle.live_jobs.specs.Taken.{worth, kept_in, Took};

use crate::channel::JobChannel;
use crate::finished::FinishedList;
use crate::outcome::{FinishedJob, Outcome};
use job_queue::{Handed, Parcel, QueuePass};
use std::sync::Wait;
use std::sync::ledger::{Ledger, Share};
use std::thread;

/// What stores the jobs of a writer, one after the other. Each job that it keeps is a post, which
/// counts in the share.
pub trait Store<L: Ledger, O: Outcome, R> {
    /// Stores a job, or says why not.
    fn store(&self, rt: &R, share: &mut Share<L>, handed: &Handed) -> O
        requires part { share.old.parts ≡ 1 }
        ensures part { share.new.parts ≡ 1 }
        ensures counted { share.new.amount ≡ share.old.amount + worth (O.kept result) }
        ensures fits { O.fits result handed.now };
}

/// A writer's right to take from one queue, what became of the jobs that it took, and its share of
/// the posts.
pub struct WriterSeat<L: Ledger, O: Outcome> {
    pub(crate) pass: QueuePass,
    /// The jobs that it took, in order.
    pub finished: FinishedList<O>,
    pub(crate) closed: Vec<bool>,
    pub(crate) kept: u64,
    pub(crate) share: Share<L>,
    pub(crate) lent: bool,
    ghost took: { Took O.fits pass finished.items closed.items },
    ghost counted: { kept ≡ kept_in O.kept finished.items },
    ghost shared: { (share.parts ≡ (if lent then 0 else 1))
        × (share.amount ≡ (if lent then 0 else kept)) },
}

// Written out, so that no crate above proves anew how each part is let go.
impl<L: Ledger, O: Outcome + Drop> Drop for WriterSeat<L, O> {
    fn drop(self) {
        let WriterSeat {
            pass: _,
            finished: _,
            closed: _,
            kept: _,
            share: _,
            lent: _,
        } = self;
    }
}

impl<L: Ledger, O: Outcome> WriterSeat<L, O> {
    /// A share of the ledger with no part.
    pub(crate) fn no_share(&mut self) -> Share<L>
        ensures none { (result.parts ≡ 0) × (result.amount ≡ 0) }
        ensures same { (self.new.pass ≡ self.old.pass)
            × (self.new.finished.items ≡ self.old.finished.items)
            × (self.new.closed.items ≡ self.old.closed.items) × (self.new.lent ≡ self.old.lent) }
    {
        self.share.empty()
    }

    /// Lends its share, with all that it counts.
    pub(crate) fn lend(&mut self, all: &mut Share<L>)
        requires here { self.old.lent ≡ false }
        ensures lent { self.new.lent ≡ true }
        ensures same { (self.new.pass ≡ self.old.pass)
            × (self.new.finished.items ≡ self.old.finished.items)
            × (self.new.closed.items ≡ self.old.closed.items) }
        ensures all { (all.new.parts ≡ all.old.parts + 1)
            × (all.new.amount ≡ all.old.amount + kept_in O.kept self.old.finished.items) }
    {
        self.share.give(all, 1, self.kept);
        self.lent = true;
    }
}

/// What a job adds to the count of those that are kept.
fn worth_of(kept: bool) -> u64
    ensures { result ≡ worth kept }
{
    if kept { 1 } else { 0 }
}

/// Notes that the closing mark of an end was taken.
fn close_flag(closed: &mut Vec<bool>, end: u64)
    ensures { closed.new.items ≡ slice_set closed.old.items end true }
{
    if end < closed.len() as u64 {
        closed[end as usize] = true;
    }
}

/// Whether the closing mark of each end was taken.
pub(crate) fn all_closed(closed: &[bool]) -> bool
    ensures { result ≡ true → (e : ℕ) → e < length closed.now → slice_get closed.now e ≡ Some true }
{
    for flag in closed {
        if !*flag {
            return false;
        }
    }
    true
}

/// Takes one parcel, where there is one. Where memory is refused, nothing is taken.
pub(crate) fn take_step<L: Ledger, O: Outcome, S: Store<L, O, R>, R: Wait>(
    rt: &R,
    channel: &JobChannel,
    store: &S,
    seat: &mut WriterSeat<L, O>,
)
    requires pass { IsPassOf (queue_of channel.now) seat.old.pass }
    requires here { seat.old.lent ≡ false }
    ensures pass { IsPassOf (queue_of channel.now) seat.new.pass }
    ensures here { seat.new.lent ≡ false }
    ensures ends { length seat.new.closed.items ≡ length seat.old.closed.items }
{
    let WriterSeat {
        pass,
        finished,
        closed,
        kept,
        share,
        lent: _lent,
    } = seat;
    if finished.reserve_one().is_err() {
        thread::yield_now();
        return;
    }
    let Some(parcel) = channel.try_take(rt, pass) else {
        return;
    };
    match parcel {
        Parcel::Job(handed) => {
            let outcome = store.store(rt, share, &handed);
            *kept += worth_of(outcome.is_kept());
            finished.push_reserved(FinishedJob {
                end: handed.end,
                number: handed.number,
                id: handed.job.id,
                outcome,
            });
        }
        Parcel::Mark(end) => close_flag(closed, end),
    }
}
