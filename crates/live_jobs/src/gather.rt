//! What was handed over and what was told are compared, once all seats have come back.
ghost use Rattle.std.specs.Prelude.{◌≡◌, ◌<◌, ◌≤◌, ℕ, List, [], true, length, map, Some, slice_get};
ghost use Rattle.crossbeam_queue.specs.Passes.{view, IsPassOf};
ghost use Rattle.job_queue.specs.Delivery.{OfEnd, end_limit};
ghost use Rattle.job_queue.specs.declared.parcel.Handed.{Handed};
ghost use Rattle.live_jobs.specs.JobChannels.{queue_of};
ghost use Rattle.live_jobs.specs.Seats.{jobs_in, HasLeft, left_end, left_by};
ghost use Rattle.live_jobs.specs.Gathered.{OfChannel, AllClosed, LeftsFit, RestsFit, WritersFit};
ghost use Rattle.live_jobs.specs.Gathered.{IsRest, hands_of, told_of, Told, ToldBelow, AllTold};
ghost use Rattle.live_jobs.specs.Gathered.{NoneElse, kept_by_all};
ghost use Rattle.live_jobs.specs.Started.{AllEnded, AllLeft};
ghost use Rattle.live_jobs.specs.Desks.{desk_of, posts_in, posts_of};

use crate::channel::JobChannel;
use crate::count::count_all;
use crate::desk::{CountedDesk, Posts};
use crate::outcome::Outcome;
use crate::session::LeftSeat;
use crate::writer::WriterSeat;
use job_queue::QueuePass;
use std::sync::ledger::Ledger;

impl LeftSeat {
    /// Compares what the writer of one group told with what the end handed over to it.
    fn compare<L: Ledger, O: Outcome>(
        &mut self,
        channels: &[JobChannel],
        group: usize,
        writer: &mut WriterSeat<L, O>,
    )
        requires group { group < length channels.now }
        requires left { HasLeft channels.now self.old }
        requires writer { OfChannel channels.now group writer.old.pass }
        requires closed { slice_get writer.old.closed.items (left_end self.old) ≡ Some true }
        ensures left { HasLeft channels.now self.new }
        ensures end { left_end self.new ≡ left_end self.old }
        ensures handed { left_by self.new ≡ left_by self.old }
        ensures pass { OfChannel channels.now group writer.new.pass }
        ensures writer { (writer.new.finished.items ≡ writer.old.finished.items)
            × (writer.new.closed.items ≡ writer.old.closed.items) }
        ensures told { (jobs : List Handed) → slice_get (left_by self.old) group ≡ Some jobs
            → Told O.fits (left_end self.old) writer.old.finished.items jobs }
    {
        let channel = &channels[group];
        let pass = &mut self.passes[group];
        job_queue::compare(&channel.queue, &mut writer.pass, pass, self.end);
    }
}

/// Compares what one writer told with what each end handed over to its group, and with the ends
/// that nobody has.
fn compare_group<L: Ledger, O: Outcome>(
    channels: &[JobChannel],
    group: usize,
    writer: &mut WriterSeat<L, O>,
    lefts: &mut Vec<LeftSeat>,
    rest: &mut QueuePass,
)
    requires group { group < length channels.now }
    requires lefts { LeftsFit channels.now lefts.old.items }
    requires writer { OfChannel channels.now group writer.old.pass }
    requires closed { AllClosed (length lefts.old.items) writer.old.closed.items }
    requires rest { OfChannel channels.now group rest.old
        × IsRest (length lefts.old.items) rest.old }
    ensures lefts { LeftsFit channels.now lefts.new.items }
    ensures handed { hands_of lefts.new.items ≡ hands_of lefts.old.items }
    ensures pass { OfChannel channels.now group writer.new.pass }
    ensures writer { (writer.new.finished.items ≡ writer.old.finished.items)
        × (writer.new.closed.items ≡ writer.old.closed.items) }
    ensures rest { OfChannel channels.now group rest.new
        × IsRest (length lefts.old.items) rest.new }
    ensures told { ToldBelow O.fits (length lefts.old.items) group writer.old.finished.items
        (hands_of lefts.old.items) }
    ensures none { (e : ℕ) → length lefts.old.items ≤ e → e < end_limit
        → told_of e writer.old.finished.items ≡ [] }
{
    for end in 0..lefts.len() {
        lefts[end].compare(channels, group, writer);
    }
    let channel = &channels[group];
    job_queue::compare_rest(&channel.queue, &mut writer.pass, rest);
}

/// Compares what each writer told with what each end handed over to its group, and with the ends
/// that nobody has.
fn compare_all<L: Ledger, O: Outcome>(
    channels: &[JobChannel],
    lefts: &mut Vec<LeftSeat>,
    writers: &mut Vec<WriterSeat<L, O>>,
    rests: &mut Vec<QueuePass>,
)
    requires lefts { LeftsFit channels.now lefts.old.items }
    requires writers { WritersFit channels.now (length lefts.old.items)
        (map (λ w. w.pass) writers.old.items) (map (λ w. w.closed.items) writers.old.items) }
    requires rests { RestsFit channels.now (length lefts.old.items) rests.old.items }
    ensures lefts { LeftsFit channels.now lefts.new.items }
    ensures long { length lefts.new.items ≡ length lefts.old.items }
    ensures handed { hands_of lefts.new.items ≡ hands_of lefts.old.items }
    ensures writers { WritersFit channels.now (length lefts.old.items)
        (map (λ w. w.pass) writers.new.items) (map (λ w. w.closed.items) writers.new.items) }
    ensures rests { RestsFit channels.now (length lefts.old.items) rests.new.items }
    ensures finished { map (λ w. w.finished.items) writers.new.items
        ≡ map (λ w. w.finished.items) writers.old.items }
    ensures told { AllTold O.fits (map (λ w. w.finished.items) writers.old.items)
        (hands_of lefts.old.items) }
    ensures none { NoneElse (length lefts.old.items)
        (map (λ w. w.finished.items) writers.old.items) }
{
    for group in 0..writers.len() {
        compare_group(
            channels,
            group,
            &mut writers[group],
            lefts,
            &mut rests[group],
        );
    }
}

/// How many jobs all writers kept, and how many posts the desk made.
#[derive(Clone, Copy)]
pub struct Totals {
    pub accepted: u64,
    pub posted: Posts,
}

/// The seats of ends and writers once they have come back, each in the order of their numbers, with
/// what the ends served.
#[derive(Drop)]
pub struct Seats<L: Ledger, O: Outcome, V> {
    pub lefts: Vec<LeftSeat>,
    pub services: Vec<V>,
    pub writers: Vec<WriterSeat<L, O>>,
}

/// Compares all seats (docs/PROTOCOL.md, Threads 9). What each writer told of each end is what this
/// end handed over to its group, each job once, in order, with what became of it; of no other end
/// anything was told; and as many jobs were kept as the desk made posts. The writers' shares are
/// used up; else nothing changes. The caller holds the desk.
pub fn close<L: Ledger, O: Outcome, V>(
    channels: &[JobChannel],
    desk: &mut CountedDesk<L>,
    rests: &mut Vec<QueuePass>,
    seats: &mut Seats<L, O, V>,
) -> Totals
    requires lefts { AllLeft channels.now seats.old.lefts.items }
    requires writers { (length seats.old.writers.items ≡ length channels.now)
        × AllEnded channels.now (length seats.old.lefts.items) seats.old.writers.items }
    requires rests { RestsFit channels.now (length seats.old.lefts.items) rests.old.items }
    requires parts { (L.parts ≡ length seats.old.writers.items)
        × (0 < length seats.old.writers.items) }
    ensures jobs { AllTold O.fits (map (λ w. w.finished.items) seats.old.writers.items)
        (hands_of seats.old.lefts.items) }
    ensures none { NoneElse (length seats.old.lefts.items)
        (map (λ w. w.finished.items) seats.old.writers.items) }
    ensures accepted { result.accepted
        ≡ kept_by_all O.kept (map (λ w. w.finished.items) seats.old.writers.items) }
    ensures posted { posts_in result.posted ≡ result.accepted }
    ensures made { posts_in result.posted ≡ posts_of desk.old }
    ensures same { posts_of desk.new ≡ posts_of desk.old }
    ensures rings { desk_of desk.new ≡ desk_of desk.old }
    ensures finished { map (λ w. w.finished.items) seats.new.writers.items
        ≡ map (λ w. w.finished.items) seats.old.writers.items }
    ensures handed { hands_of seats.new.lefts.items ≡ hands_of seats.old.lefts.items }
    ensures services { seats.new.services.items ≡ seats.old.services.items }
{
    let totals = count_all(desk, &mut seats.writers);
    compare_all(channels, &mut seats.lefts, &mut seats.writers, rests);
    totals
}
