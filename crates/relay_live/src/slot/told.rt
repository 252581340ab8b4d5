//! An answer is put into a slot, under its lock.
ghost use Rattle.std.specs.Prelude.{◌≡◌};
ghost use Rattle.std.specs.Sync.Mutex.{mutex_guard_value};
ghost use Rattle.relay_live.specs.Slots.{after_tell, filled_number, filled_value, told_number};

use job_queue::Crowd;
use live_jobs::JobAnswer;
use live_store::StorePremises;
use std::sync::MutexGuard;

/// A slot into which the answer of a job was put, still under its lock. `put` alone makes one.
#[derive(Drop)]
pub(super) struct Filled<'a, J: StorePremises> {
    number: u64,
    guard: MutexGuard<'a, Option<JobAnswer<J>>>,
}

/// That an end was told of its job of a number. Only a slot that was filled makes one.
#[derive(Drop)]
pub struct Told {
    number: u64,
}

impl<'a, J: StorePremises> Filled<'a, J> {
    /// Lets go of the slot's lock, and tells all who wait for an answer.
    pub(super) fn unlock(self, waiting: &Crowd) -> Told
        ensures { told_number result ≡ filled_number self.entry }
    {
        let Filled { number, guard } = self;
        waiting.unlock(guard);
        Told { number }
    }
}

/// Puts an answer where none of a later job stands.
pub(super) fn put<'a, J: StorePremises>(
    held: MutexGuard<'a, Option<JobAnswer<J>>>,
    answer: JobAnswer<J>,
) -> Filled<'a, J>
    ensures number { filled_number result ≡ answer.number }
    ensures value { filled_value result ≡ after_tell (mutex_guard_value held.entry) answer }
{
    let number = answer.number;
    let mut guard = held;
    keep_later(&mut guard, answer);
    Filled { number, guard }
}

/// Of two answers that of the later job stays.
fn keep_later<J: StorePremises>(held: &mut Option<JobAnswer<J>>, answer: JobAnswer<J>)
    ensures { held.new ≡ after_tell held.old answer }
{
    match held {
        Some(other) if other.number > answer.number => {}
        _ => *held = Some(answer),
    }
}
