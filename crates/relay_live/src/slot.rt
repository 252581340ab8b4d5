//! The slot of an end: what a writer told of the end's job.
ghost use Rattle.std.specs.Prelude.{◌≡◌, IfSome};
ghost use Rattle.relay_live.specs.Slots.{left_by, told_number, told_to};

use crate::journaled::Journaled;
use job_queue::Crowd;
use live_jobs::{JobAnswer, LOOKS, WriterTurns, answer_of};
use live_store::StorePremises;
use std::sync::{Mutex, Wait};
use std::thread;

mod told;

pub use told::Told;
use told::put;

/// The slot of an end. Writers put answers, the end's session takes the one that it waits for.
#[derive(Drop)]
pub struct Slot<J: StorePremises> {
    answer: Mutex<Option<JobAnswer<J>>>,
    // Told of each answer that is put.
    filled: Crowd,
}

impl<J: StorePremises> Slot<J> {
    /// An empty slot.
    pub fn new() -> Slot<J> {
        Slot {
            answer: Mutex::new(None),
            filled: Crowd::new(),
        }
    }

    /// Puts what became of the end's job of this number. Where an answer of a later job stands
    /// there nobody waits for this one, and it is dropped.
    pub fn tell<R: Wait>(&self, rt: &R, number: u64, journaled: &Journaled<J>) -> Told
        ensures { told_number result ≡ number }
    {
        let answer = answer_of(number, journaled.store_result());
        let held = self.answer.lock(rt);
        put(held, answer).unlock(&self.filled)
    }

    /// Waits until a writer has told what became of the end's job of this number, and takes that.
    /// What earlier jobs were told is dropped. Between its looks it does the writers' work.
    pub fn wait<N: WriterTurns<R>, R: Wait>(&self, rt: &R, number: u64, turns: &N) -> JobAnswer<J>
        ensures { result.number ≡ number }
    {
        for _ in rt.forever() {
            if let Some(answer) = self.take_soon(rt, number, turns) {
                return answer;
            }
            let (mut held, looked) = self.filled.lock_last(rt, &self.answer);
            if let Some(answer) = take(&mut held, number) {
                return answer;
            }
            drop(held);
            looked.wait(rt);
        }
        unreachable!()
    }

    // Looks once.
    fn try_take<R: Wait>(&self, rt: &R, number: u64) -> Option<JobAnswer<J>>
        ensures { IfSome result (λ answer. answer.number ≡ number) }
    {
        take(&mut self.answer.lock(rt), number)
    }

    // Looks so often, and between does what writers leave, and gives way.
    fn take_soon<N: WriterTurns<R>, R: Wait>(
        &self,
        rt: &R,
        number: u64,
        turns: &N,
    ) -> Option<JobAnswer<J>>
        ensures { IfSome result (λ answer. answer.number ≡ number) }
    {
        for _ in 0..LOOKS {
            if let Some(answer) = self.try_take(rt, number) {
                return Some(answer);
            }
            turns.write_left(rt);
            thread::yield_now();
        }
        None
    }
}

/// Takes the answer of the job of this number. One of an earlier job is dropped, one of a later job
/// stays.
fn take<J: StorePremises>(held: &mut Option<JobAnswer<J>>, number: u64) -> Option<JobAnswer<J>>
    ensures told { result ≡ told_to held.old number }
    ensures number { IfSome result (λ answer. answer.number ≡ number) }
    ensures left { held.new ≡ left_by held.old number }
{
    match held {
        Some(answer) if answer.number > number => None,
        Some(answer) if answer.number < number => {
            *held = None;
            None
        }
        _ => held.take(),
    }
}
