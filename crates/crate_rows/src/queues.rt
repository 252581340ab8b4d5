//! A row for a job queue (job_queue), played by one thread: how many jobs it holds.
ghost use Rattle.crossbeam_queue.specs.Passes.{view, IsPassOf};
ghost use Rattle.job_queue.specs.Delivery.{IsOpen, OfWriter};

use crate::jobs::job;
use crate::row_text::Sheet;
use job_queue::{
    Handed, JobQueue, Parcel, QueuePass, end_pass, hand_over, mark_closed, new_queue, take_one,
    writer_pass,
};
use line_words::is;
use std::sync::Wait;

/// Writes the answer of a call: what a queue takes that is full, and what it does with one parcel
/// less.
pub fn answer<R: Wait>(rt: &R, call: &[u8], sheet: &Sheet) {
    if !is(call, b"full_queue") {
        return sheet.refuse();
    }
    let Ok((queue, mut first)) = new_queue(sheet.alloc) else {
        return sheet.lack();
    };
    let mut writer = writer_pass(&queue, &mut first);
    let mut end = end_pass(&queue, &mut first);
    put_full(rt, sheet, &queue, &mut writer, &mut end);
    drop(first);
    drop(writer);
    drop(end);
    drop(queue);
}

/// Fills a queue, and writes what it takes from then on.
fn put_full<R: Wait>(
    rt: &R,
    sheet: &Sheet,
    queue: &JobQueue,
    writer: &mut QueuePass,
    end: &mut QueuePass,
)
    requires passes { IsPassOf queue.now writer.old × IsPassOf queue.now end.old }
    requires writer { OfWriter (view writer.old) }
    requires open { IsOpen 0 (view end.old) }
{
    sheet.filled(b"# handed over; closed: ", &[filled(rt, sheet, queue, end)]);
    let is_closed = mark_closed(rt, queue, end, 0);
    sheet.debug(&is_closed);
    if is_closed {
        return;
    }
    put_taken(rt, sheet, queue, writer);
    sheet.put(b"; closed: ");
    sheet.debug(&mark_closed(rt, queue, end, 0));
}

/// Hands jobs over until one is given back, and says how many went.
fn filled<R: Wait>(rt: &R, sheet: &Sheet, queue: &JobQueue, pass: &mut QueuePass) -> u64
    requires pass { IsPassOf queue.now pass.old }
    requires open { IsOpen 0 (view pass.old) }
    ensures pass { IsPassOf queue.now pass.new }
    ensures open { IsOpen 0 (view pass.new) }
{
    for number in 0..100 {
        if !is_handed(rt, sheet, queue, pass, number) {
            return number;
        }
    }
    100
}

/// Hands the job of this number over, and says whether it went.
fn is_handed<R: Wait>(
    rt: &R,
    sheet: &Sheet,
    queue: &JobQueue,
    pass: &mut QueuePass,
    number: u64,
) -> bool
    requires pass { IsPassOf queue.now pass.old }
    requires open { IsOpen 0 (view pass.old) }
    ensures pass { IsPassOf queue.now pass.new }
    ensures open { IsOpen 0 (view pass.new) }
{
    let Some(job) = job(1, 1, sheet) else {
        sheet.refuse();
        return false;
    };
    match hand_over(
        rt,
        queue,
        pass,
        Handed {
            end: 0,
            number,
            job,
        },
    ) {
        Ok(()) => true,
        Err(back) => {
            drop(back);
            false
        }
    }
}

/// Takes a parcel, and writes its end, and its number where it is a job.
fn put_taken<R: Wait>(rt: &R, sheet: &Sheet, queue: &JobQueue, pass: &mut QueuePass)
    requires pass { IsPassOf queue.now pass.old }
    requires writer { OfWriter (view pass.old) }
{
    match take_one(rt, queue, pass) {
        Some(Parcel::Job(handed)) => {
            sheet.filled(b"; taken: job # of end #", &[handed.number, handed.end]);
            drop(handed);
        }
        Some(Parcel::Mark(end)) => sheet.filled(b"; taken: the mark of end #", &[end]),
        None => {}
    }
}
