//! The steps of a job queue. Each changes one pass; the joining of two changes both.
ghost use Rattle.std.specs.Prelude.{◌≡◌, ◌<◌, [], true, false, None};
ghost use Rattle.std.specs.Prelude.{IfOk, IfErr, IfSome};
ghost use Rattle.crossbeam_queue.specs.Passes.{view, IsPassOf, ruled_capacity};
ghost use Rattle.job_queue.specs.Delivery.{knows_all, end_knows, OfEnd, OfWriter};
ghost use Rattle.job_queue.specs.Delivery.{IsOpen, IsClosed, HasHanded, HasTaken};
ghost use Rattle.job_queue.specs.Delivery.{meeting, without_taker, taker_of, without_first};
ghost use Rattle.job_queue.specs.Delivery.{IsCompared, TookAll, TookNone};
ghost use Rattle.job_queue.specs.declared.parcel.Parcel.TheVariants as parcels;
ghost use Rattle.relay_model.specs.Terms.{queue_limit};

use crate::known::Known;
use crate::parcel::{Handed, Parcel};
use crate::rule::{Compares, HandsOver, InOrder, Meets, NextEnd, TakesOne, TheEnds, TheTaker};
use crossbeam_queue::{Pass, RuledArrayQueue};
use std::alloc::{AllocError, Global};
use std::sync::Wait;

/// The parcels that a queue has room for.
const QUEUE_LIMIT: usize = 64;

/// The queue of a group's jobs, of a fixed room, with its rule.
pub type JobQueue = RuledArrayQueue<Parcel, Known, InOrder>;

/// The right of an end, or of the writer, to one queue, with what it knows. It takes no room.
pub type QueuePass = Pass<Parcel, Known>;

/// An empty queue, and its first pass, which has every right. The room of the queue is taken here:
/// no step takes memory.
pub fn new_queue(alloc: Global) -> Result<(JobQueue, QueuePass), AllocError>
    ensures pass { IfOk result (λ made. IsPassOf made.0 made.1) }
    ensures room { IfOk result (λ made. ruled_capacity made.0 ≡ queue_limit) }
    ensures knows { IfOk result (λ made. view made.1 ≡ knows_all) }
{
    let (queue, first) = JobQueue::ruled(alloc, QUEUE_LIMIT)?;
    Ok((queue, first))
}

/// The writer's pass, cut off from the first.
pub fn writer_pass(queue: &JobQueue, first: &mut QueuePass) -> QueuePass
    requires pass { IsPassOf queue.now first.old }
    requires takes { (view first.old).takes ≡ true }
    ensures passes { IsPassOf queue.now first.new × IsPassOf queue.now result }
    ensures first { view first.new ≡ without_taker (view first.old) }
    ensures writer { view result ≡ taker_of (view first.old) }
{
    queue.another::<TheTaker>(first)
}

/// The pass of the lowest end that the first still has, cut off from it.
pub fn end_pass(queue: &JobQueue, first: &mut QueuePass) -> QueuePass
    requires pass { IsPassOf queue.now first.old }
    requires left { (view first.old).low < (view first.old).high }
    requires none { (view first.old).handed ≡ [] }
    ensures passes { IsPassOf queue.now first.new × IsPassOf queue.now result }
    ensures first { view first.new ≡ without_first (view first.old) }
    ensures end { view result ≡ end_knows (view first.old).low [] }
{
    queue.another::<NextEnd>(first)
}

/// Hands a job over, or gives it back where the queue was full at one moment of the call. It waits
/// for no room.
pub fn hand_over<R: Wait>(
    rt: &R,
    queue: &JobQueue,
    pass: &mut QueuePass,
    job: Handed,
) -> Result<(), Handed>
    requires pass { IsPassOf queue.now pass.old }
    requires open { IsOpen job.end (view pass.old) }
    ensures pass { IsPassOf queue.now pass.new }
    ensures open { IsOpen job.end (view pass.new) }
    ensures taken { IfOk result (λ _. HasHanded (view pass.old) (parcels.Job job) (view pass.new)) }
    ensures full { IfErr result (λ back. (back ≡ job) × (view pass.new ≡ view pass.old)) }
{
    match queue.push_as::<HandsOver, R>(rt, pass, Parcel::Job(job)) {
        Ok(()) => Ok(()),
        Err(Parcel::Job(back)) => Err(back),
        Err(Parcel::Mark(_)) => unreachable!(),
    }
}

/// Pushes the closing mark of an end, or answers false where the queue was full at one moment of
/// the call. It waits for no room.
pub fn mark_closed<R: Wait>(rt: &R, queue: &JobQueue, pass: &mut QueuePass, end: u64) -> bool
    requires pass { IsPassOf queue.now pass.old }
    requires open { IsOpen end (view pass.old) }
    ensures pass { IsPassOf queue.now pass.new }
    ensures closed { result ≡ true → IsClosed end (view pass.new) }
    ensures marked { result ≡ true → HasHanded (view pass.old) (parcels.Mark end) (view pass.new) }
    ensures full { result ≡ false → view pass.new ≡ view pass.old }
{
    match queue.push_as::<HandsOver, R>(rt, pass, Parcel::Mark(end)) {
        Ok(()) => true,
        Err(_) => false,
    }
}

/// Takes the oldest parcel, or none where the queue was empty at one moment of the call. It waits
/// for no parcel.
pub fn take_one<R: Wait>(rt: &R, queue: &JobQueue, pass: &mut QueuePass) -> Option<Parcel>
    requires pass { IsPassOf queue.now pass.old }
    requires writer { OfWriter (view pass.old) }
    ensures pass { IsPassOf queue.now pass.new }
    ensures writer { OfWriter (view pass.new) }
    ensures taken { IfSome result (λ parcel. HasTaken (view pass.old) parcel (view pass.new)) }
    ensures empty { result ≡ None → view pass.new ≡ view pass.old }
{
    queue.pop_as::<TakesOne, R>(rt, pass)
}

/// What the writer took, beside what the ends of the other pass handed over. The other lends its
/// ends and gets them back: both passes know afterwards what they knew before.
fn compare_ends(queue: &JobQueue, writer: &mut QueuePass, other: &mut QueuePass)
    requires passes { IsPassOf queue.now writer.old × IsPassOf queue.now other.old }
    requires writer { OfWriter (view writer.old) }
    ensures passes { IsPassOf queue.now writer.new × IsPassOf queue.now other.new }
    ensures same { (view writer.new ≡ view writer.old) × (view other.new ≡ view other.old) }
    ensures compared { IsCompared (meeting (view writer.old) (view other.old)) }
{
    let lent = queue.another::<TheEnds>(other);
    queue.absorb::<Meets>(writer, lent);
    queue.learn_as::<Compares>(writer);
    let back = queue.another::<TheEnds>(writer);
    queue.absorb::<Meets>(other, back);
}

/// Compares the passes of the writer and of the end of this number, and changes neither. Where the
/// closing mark of the end was taken, what was taken of the end is what it handed over, whole and
/// in its order.
pub fn compare(queue: &JobQueue, writer: &mut QueuePass, pass: &mut QueuePass, end: u64)
    requires passes { IsPassOf queue.now writer.old × IsPassOf queue.now pass.old }
    requires writer { OfWriter (view writer.old) }
    requires own { OfEnd end (view pass.old) }
    ensures passes { IsPassOf queue.now writer.new × IsPassOf queue.now pass.new }
    ensures same { (view writer.new ≡ view writer.old) × (view pass.new ≡ view pass.old) }
    ensures all { TookAll end (view writer.old) (view pass.old) }
{
    compare_ends(queue, writer, pass);
}

/// Compares the writer's pass with the first, and changes neither. Of the ends that the first still
/// has nothing was taken.
pub fn compare_rest(queue: &JobQueue, writer: &mut QueuePass, first: &mut QueuePass)
    requires passes { IsPassOf queue.now writer.old × IsPassOf queue.now first.old }
    requires writer { OfWriter (view writer.old) }
    requires none { (view first.old).handed ≡ [] }
    ensures passes { IsPassOf queue.now writer.new × IsPassOf queue.now first.new }
    ensures same { (view writer.new ≡ view writer.old) × (view first.new ≡ view first.old) }
    ensures none { TookNone (view writer.old) (view first.old) }
{
    compare_ends(queue, writer, first);
}
