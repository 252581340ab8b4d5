//! The queue of a group with those who wait beside it.
ghost use Rattle.std.specs.Prelude.{◌≡◌, true, false, IfOk, IfErr, IfSome, None};
ghost use Rattle.crossbeam_queue.specs.Passes.{view, IsPassOf};
ghost use Rattle.job_queue.specs.Delivery.{knows_all, OfWriter, IsOpen, IsClosed};
ghost use Rattle.job_queue.specs.Delivery.{HasHanded, HasTaken};
ghost use Rattle.job_queue.specs.declared.parcel.Parcel.TheVariants as parcels;

use job_queue::{
    Announced, Change, Handed, JobQueue, Looked, Parcel, Parcels, QueuePass, Room, Row, Turn,
    Untaken,
};
use std::alloc::{AllocError, Global};
use std::sync::{MutexGuard, Wait};
use std::thread;

/// How often a thread looks before it sleeps. Between two looks it gives way to other threads, so
/// that those run which it waits for; that takes less than a microsecond where none wants to run.
pub const LOOKS: u32 = 64;

/// The queue of a group. Who finds it full or empty sleeps until another thread tells of a parcel
/// that was taken or pushed.
pub struct JobChannel {
    pub(crate) queue: JobQueue,
    // The parcels that are pushed, or are about to be, and not taken yet.
    untaken: Untaken,
    // Told of parcels that who pushed them doesn't see to.
    filled: Row<Parcels>,
    // Told of each parcel that is taken.
    emptied: Row<Room>,
}

// Written out, so that no crate above proves anew how each part is let go.
impl Drop for JobChannel {
    fn drop(self) {
        let JobChannel {
            queue: _,
            untaken: _,
            filled: _,
            emptied: _,
        } = self;
    }
}

impl JobChannel {
    ghost use Rattle.live_jobs.specs.JobChannels.{queue_of};

    /// An empty channel, and the first pass of its queue.
    pub fn new(alloc: Global) -> Result<(JobChannel, QueuePass), AllocError>
        ensures pass { IfOk result (λ made. IsPassOf (queue_of made.0) made.1) }
        ensures knows { IfOk result (λ made. view made.1 ≡ knows_all) }
    {
        let (queue, first) = job_queue::new_queue(alloc)?;
        let channel = JobChannel {
            queue,
            untaken: Untaken::new(),
            filled: Row::new(),
            emptied: Row::new(),
        };
        Ok((channel, first))
    }

    /// Hands a job over, or gives it back where the queue was full at one moment. It is counted
    /// before.
    pub(crate) fn try_hand_over<R: Wait>(
        &self,
        rt: &R,
        pass: &mut QueuePass,
        job: Handed,
    ) -> Result<Change<Parcels>, Handed>
        requires pass { IsPassOf (queue_of self.now) pass.old }
        requires open { IsOpen job.end (view pass.old) }
        ensures pass { IsPassOf (queue_of self.now) pass.new }
        ensures open { IsOpen job.end (view pass.new) }
        ensures taken { IfOk result (λ _.
            HasHanded (view pass.old) (parcels.Job job) (view pass.new)) }
        ensures full { IfErr result (λ back. (back ≡ job) × (view pass.new ≡ view pass.old)) }
    {
        let counted = self.untaken.count();
        match job_queue::hand_over_first(rt, &self.queue, pass, job, counted) {
            Ok(change) => Ok(change),
            Err((back, counted)) => {
                self.untaken.uncount(counted);
                Err(back)
            }
        }
    }

    // Tries so often, and gives way between.
    fn try_often<R: Wait>(
        &self,
        rt: &R,
        pass: &mut QueuePass,
        mut job: Handed,
    ) -> Result<Change<Parcels>, Handed>
        requires pass { IsPassOf (queue_of self.now) pass.old }
        requires open { IsOpen job.end (view pass.old) }
        ensures pass { IsPassOf (queue_of self.now) pass.new }
        ensures open { IsOpen job.end (view pass.new) }
        ensures taken { IfOk result (λ _.
            HasHanded (view pass.old) (parcels.Job job) (view pass.new)) }
        ensures full { IfErr result (λ back. (back ≡ job) × (view pass.new ≡ view pass.old)) }
    {
        for _ in 0..LOOKS {
            match self.try_hand_over(rt, pass, job) {
                Ok(change) => return Ok(change),
                Err(back) => job = back,
            }
            thread::yield_now();
        }
        Err(job)
    }

    /// Hands a job over. Where the queue is full it waits until there is room.
    pub(crate) fn hand_over<R: Wait>(
        &self,
        rt: &R,
        pass: &mut QueuePass,
        mut job: Handed,
    ) -> Change<Parcels>
        requires pass { IsPassOf (queue_of self.now) pass.old }
        requires open { IsOpen job.end (view pass.old) }
        ensures pass { IsPassOf (queue_of self.now) pass.new }
        ensures open { IsOpen job.end (view pass.new) }
        ensures taken { HasHanded (view pass.old) (parcels.Job job) (view pass.new) }
    {
        for _ in rt.forever() {
            match self.try_often(rt, pass, job) {
                Ok(change) => return change,
                Err(back) => job = back,
            }
            let announced = self.emptied.announce();
            let counted = self.untaken.count();
            match job_queue::hand_over_last(rt, &self.queue, pass, job, counted, announced) {
                Ok(change) => return change,
                Err((back, counted, full)) => {
                    job = back;
                    self.untaken.uncount(counted);
                    full.wait(rt);
                }
            }
        }
        unreachable!()
    }

    /// Pushes the closing mark of an end. Where the queue is full it waits until there is room.
    pub(crate) fn close_end<R: Wait>(&self, rt: &R, pass: &mut QueuePass, end: u64)
        requires pass { IsPassOf (queue_of self.now) pass.old }
        requires open { IsOpen end (view pass.old) }
        ensures pass { IsPassOf (queue_of self.now) pass.new }
        ensures closed { IsClosed end (view pass.new) }
        ensures marked { HasHanded (view pass.old) (parcels.Mark end) (view pass.new) }
    {
        for _ in rt.forever() {
            let announced = self.emptied.announce();
            let counted = self.untaken.count();
            match job_queue::mark_closed_last(rt, &self.queue, pass, end, counted, announced) {
                Ok(change) => {
                    self.filled.tell(change);
                    return;
                }
                Err((counted, full)) => {
                    self.untaken.uncount(counted);
                    full.wait(rt);
                }
            }
        }
        unreachable!()
    }

    /// Takes the oldest parcel, or none where the queue was empty at one moment.
    pub(crate) fn try_take<R: Wait>(&self, rt: &R, pass: &mut QueuePass) -> Option<Parcel>
        requires pass { IsPassOf (queue_of self.now) pass.old }
        requires writer { OfWriter (view pass.old) }
        ensures pass { IsPassOf (queue_of self.now) pass.new }
        ensures writer { OfWriter (view pass.new) }
        ensures taken { IfSome result (λ parcel. HasTaken (view pass.old) parcel (view pass.new)) }
        ensures empty { result ≡ None → view pass.new ≡ view pass.old }
    {
        match job_queue::take_one_first(rt, &self.queue, &self.untaken, pass) {
            Some((parcel, change)) => {
                self.emptied.tell(change);
                Some(parcel)
            }
            None => None,
        }
    }

    /// Tells the group's own thread of a change that its maker doesn't see to.
    pub fn tell(&self, change: Change<Parcels>) {
        self.filled.tell(change);
    }

    /// Whether something is left that wasn't taken yet.
    pub fn left(&self) -> Option<Change<Parcels>> {
        self.untaken.left()
    }

    /// Lets go of the writer's seat, and looks whether something is left.
    pub(crate) fn end_turn<T>(
        &self,
        held: MutexGuard<'_, T>,
        turn: Turn,
    ) -> Option<Change<Parcels>> {
        self.untaken.end_turn(held, turn)
    }

    /// Announces that the group's own thread may wait for a parcel.
    pub(crate) fn announce(&self) -> Announced<'_, Parcels> {
        self.filled.announce()
    }

    /// As `end_turn`, of the group's own thread: where nothing is left it may wait.
    pub(crate) fn end_turn_last<'a, T>(
        &self,
        held: MutexGuard<'_, T>,
        turn: Turn,
        announced: Announced<'a, Parcels>,
    ) -> Option<Looked<'a>> {
        self.untaken.end_turn_last(held, turn, announced)
    }
}
