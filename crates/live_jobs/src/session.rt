//! The seat of an end.
ghost use Rattle.std.specs.Prelude.{◌≡◌, ◌+◌, ◌<◌, ◌≤◌, ◌^◌, ◌++◌, [], ◌∷◌};
ghost use Rattle.std.specs.Prelude.{length, slice_set, slice_index_or};
ghost use lib.Dec.{ltb};
ghost use Rattle.live_jobs.specs.Seats.{PassesFit, AreOpen, handed_of};
ghost use Rattle.live_jobs.specs.Seats.{IsSeatOf, HasLeft, end_of, count_of, handed_by};
ghost use Rattle.live_jobs.specs.Seats.{left_end, left_by};

use crate::channel::JobChannel;
use buffer_group::Job;
use job_queue::{Change, Handed, Parcels, QueuePass};
use std::sync::Wait;

/// An end's right to hand jobs over to each group: a pass of each channel, and how many jobs it has
/// handed over. Jobs are handed over by `hand_over` alone, so no two of an end have one number.
#[derive(Drop)]
pub struct SessionSeat {
    pub(crate) end: u64,
    pub(crate) handed: u64,
    pub(crate) passes: Vec<QueuePass>,
}

/// The seat of an end that has pushed its closing mark into each channel.
pub struct LeftSeat {
    pub(crate) end: u64,
    pub(crate) passes: Vec<QueuePass>,
}

// Written out, so that no crate above proves anew how each part is let go.
impl Drop for LeftSeat {
    fn drop(self) {
        let LeftSeat { end: _, passes: _ } = self;
    }
}

impl SessionSeat {
    /// The number of the end.
    pub fn end(&self) -> u64
        ensures { result ≡ end_of self.now }
    {
        self.end
    }

    /// How many jobs the end has handed over, to all groups: the number of its next job.
    pub fn handed(&self) -> u64
        ensures { result ≡ count_of self.now }
    {
        self.handed
    }

    /// Hands a job over to a group, and answers its number, with a change that is to be seen to.
    /// Where the queue is full it waits until there is room.
    pub fn hand_over<R: Wait>(
        &mut self,
        rt: &R,
        channels: &[JobChannel],
        group: usize,
        job: Job,
    ) -> (u64, Change<Parcels>)
        requires group { group < length channels.now }
        requires seat { IsSeatOf channels.now self.old }
        requires room { count_of self.old < 2 ^ 63 }
        ensures seat { IsSeatOf channels.now self.new }
        ensures end { end_of self.new ≡ end_of self.old }
        ensures number { result.0 ≡ count_of self.old }
        ensures count { count_of self.new ≡ count_of self.old + 1 }
        ensures taken { handed_by self.new
            ≡ slice_set (handed_by self.old) group (slice_index_or (handed_by self.old) group []
            ++ record { end = end_of self.old; number = count_of self.old; job = job } ∷ []) }
    {
        let number = self.handed;
        let handed = Handed {
            end: self.end,
            number,
            job,
        };
        let change = channels[group].hand_over(rt, &mut self.passes[group], handed);
        self.handed += 1;
        (number, change)
    }
}

/// Pushes the closing mark of the end into so many channels, the first ones. What it handed over
/// stays.
pub(crate) fn push_marks<R: Wait>(
    rt: &R,
    channels: &[JobChannel],
    end: u64,
    passes: &mut Vec<QueuePass>,
    groups: usize,
)
    requires groups { groups ≤ length channels.now }
    requires fits { AreOpen channels.now end passes.old.items }
    ensures fits { PassesFit channels.now end (λ g. ltb g groups) passes.new.items }
    ensures handed { handed_of passes.new.items ≡ handed_of passes.old.items }
{
    for group in 0..groups {
        channels[group].close_end(rt, &mut passes[group], end);
    }
}

/// Pushes the closing mark of the end into each channel (docs/PROTOCOL.md, Threads 4). What it
/// handed over stays.
pub fn hang_up<R: Wait>(rt: &R, channels: &[JobChannel], seat: SessionSeat) -> LeftSeat
    requires seat { IsSeatOf channels.now seat }
    ensures left { HasLeft channels.now result }
    ensures end { left_end result ≡ end_of seat }
    ensures handed { left_by result ≡ handed_by seat }
{
    let SessionSeat {
        end,
        handed: _,
        mut passes,
    } = seat;
    push_marks(rt, channels, end, &mut passes, channels.len());
    LeftSeat { end, passes }
}
