//! The jobs that wait for the writer of a group.
ghost use Rattle.std.specs.Prelude.{◌≤◌};
ghost use Rattle.std.specs.VecDeque.{deque_capacity};

use buffer_group::Job;
use std::alloc::{AllocError, Global};
use std::collections::VecDeque;

/// The jobs that a queue has room for.
const QUEUE_LIMIT: usize = 64;

/// The jobs that wait for the writer of a group, at most 64, from the oldest on. Their room is
/// taken when the queue is made.
#[derive(Drop)]
pub(crate) struct Queue {
    jobs: VecDeque<Job>,
    ghost room: { 64 ≤ deque_capacity jobs },
}

impl Queue {
    ghost use Rattle.std.specs.Prelude.{◌≡◌, ◌<◌, ◌++◌, ◌∷◌, [], IfOk, length, nat_le};
    ghost use Rattle.relay_core.specs.Queues.{IsPopped, jobs_of};

    /// A queue without jobs.
    pub(crate) fn new(alloc: Global) -> Result<Queue, AllocError>
        ensures { IfOk result (λ queue. jobs_of queue ≡ []) }
    {
        let jobs = VecDeque::with_capacity(alloc, QUEUE_LIMIT)?;
        Ok(Queue { jobs })
    }

    /// Whether there is no room for another job.
    pub(crate) fn is_full(&self) -> bool
        ensures { result ≡ nat_le 64 (length (jobs_of self.now)) }
    {
        self.jobs.len() >= QUEUE_LIMIT
    }

    /// The job joins the others.
    pub(crate) fn push(&mut self, job: Job)
        requires { length (jobs_of self.old) < 64 }
        ensures { jobs_of self.new ≡ jobs_of self.old ++ job ∷ [] }
    {
        self.jobs.push_back_reserved(job);
    }

    /// Takes the oldest job, if there is one.
    pub(crate) fn pop(&mut self) -> Option<Job>
        ensures { IsPopped (jobs_of self.old) result (jobs_of self.new) }
    {
        self.jobs.pop_front()
    }
}
