//! The steps of a queue beside which threads wait: each change is to be told of, and who may wait
//! looks a last time.
ghost use Rattle.std.specs.Prelude.{◌≡◌, IfErr, IfSome, None, OnOk};
ghost use Rattle.crossbeam_queue.specs.Passes.{view, IsPassOf};
ghost use Rattle.job_queue.specs.Delivery.{HasHanded, HasTaken, IsClosed, IsOpen, OfWriter};
ghost use Rattle.job_queue.specs.declared.parcel.Parcel.TheVariants as parcels;

use crate::in_turn::{Counted, Untaken};
use crate::parcel::{Handed, Parcel};
use crate::queue::{JobQueue, QueuePass, hand_over, mark_closed, take_one};
use crate::waiting::{Announced, Change, Looked, Parcels, Room};
use std::sync::Wait;

/// As `hand_over`, of a parcel that is counted; it is to be told of.
pub fn hand_over_first<R: Wait>(
    rt: &R,
    queue: &JobQueue,
    pass: &mut QueuePass,
    job: Handed,
    counted: Counted,
) -> Result<Change<Parcels>, (Handed, Counted)>
    requires pass { IsPassOf queue.now pass.old }
    requires open { IsOpen job.end (view pass.old) }
    ensures pass { IsPassOf queue.now pass.new }
    ensures open { IsOpen job.end (view pass.new) }
    ensures taken { OnOk result (HasHanded (view pass.old) (parcels.Job job) (view pass.new)) }
    ensures full { IfErr result (λ back. (back.0 ≡ job) × (view pass.new ≡ view pass.old)) }
{
    match hand_over(rt, queue, pass, job) {
        Ok(()) => Ok(counted.handed_over()),
        Err(back) => Err((back, counted)),
    }
}

/// The same of one whose wait for room is announced; where the queue was full he may wait.
pub fn hand_over_last<'a, R: Wait>(
    rt: &R,
    queue: &JobQueue,
    pass: &mut QueuePass,
    job: Handed,
    counted: Counted,
    announced: Announced<'a, Room>,
) -> Result<Change<Parcels>, (Handed, Counted, Looked<'a>)>
    requires pass { IsPassOf queue.now pass.old }
    requires open { IsOpen job.end (view pass.old) }
    ensures pass { IsPassOf queue.now pass.new }
    ensures open { IsOpen job.end (view pass.new) }
    ensures taken { OnOk result (HasHanded (view pass.old) (parcels.Job job) (view pass.new)) }
    ensures full { IfErr result (λ back. (back.0 ≡ job) × (view pass.new ≡ view pass.old)) }
{
    match hand_over(rt, queue, pass, job) {
        Ok(()) => Ok(counted.handed_over()),
        Err(back) => Err((back, counted, announced.found_nothing())),
    }
}

/// As `mark_closed`, of one whose wait for room is announced; where the queue was full he may wait.
pub fn mark_closed_last<'a, R: Wait>(
    rt: &R,
    queue: &JobQueue,
    pass: &mut QueuePass,
    end: u64,
    counted: Counted,
    announced: Announced<'a, Room>,
) -> Result<Change<Parcels>, (Counted, Looked<'a>)>
    requires pass { IsPassOf queue.now pass.old }
    requires open { IsOpen end (view pass.old) }
    ensures pass { IsPassOf queue.now pass.new }
    ensures closed { OnOk result (IsClosed end (view pass.new)) }
    ensures marked { OnOk result (HasHanded (view pass.old) (parcels.Mark end) (view pass.new)) }
    ensures full { IfErr result (λ _. view pass.new ≡ view pass.old) }
{
    if mark_closed(rt, queue, pass, end) {
        return Ok(counted.handed_over());
    }
    Err((counted, announced.found_nothing()))
}

/// As `take_one`, of a queue whose parcels are counted; that there is room is to be told of.
pub fn take_one_first<R: Wait>(
    rt: &R,
    queue: &JobQueue,
    untaken: &Untaken,
    pass: &mut QueuePass,
) -> Option<(Parcel, Change<Room>)>
    requires pass { IsPassOf queue.now pass.old }
    requires writer { OfWriter (view pass.old) }
    ensures pass { IsPassOf queue.now pass.new }
    ensures writer { OfWriter (view pass.new) }
    ensures taken { IfSome result (λ took. HasTaken (view pass.old) took.0 (view pass.new)) }
    ensures empty { result ≡ None → view pass.new ≡ view pass.old }
{
    match take_one(rt, queue, pass) {
        Some(parcel) => {
            untaken.took_one();
            Some((parcel, Change::made()))
        }
        None => None,
    }
}
