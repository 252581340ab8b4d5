//! The threads of ends and writers.
ghost use Rattle.std.specs.Prelude.{◌≡◌, ◌+◌, ◌<◌, ℕ, List, true, false, Some};
ghost use Rattle.std.specs.Prelude.{length, slice_get, IfSome};
ghost use Rattle.crossbeam_queue.specs.Passes.{IsPassOf};
ghost use Rattle.job_queue.specs.declared.parcel.Handed.{Handed};
ghost use Rattle.live_jobs.specs.JobChannels.{queue_of};
ghost use Rattle.live_jobs.specs.Seats.{IsSeatOf, HasLeft, end_of, count_of, handed_by};
ghost use Rattle.live_jobs.specs.Seats.{left_end, left_by};
ghost use Rattle.live_jobs.specs.Gathered.{AllClosed};
ghost use Rattle.live_jobs.specs.Started.{Serves, HasKept};

use crate::channel::JobChannel;
use crate::outcome::Outcome;
use crate::own_thread::run_writer;
use crate::run_premises::RunPremises;
use crate::seated::SeatedWriters;
use crate::session::{LeftSeat, SessionSeat, hang_up, push_marks};
use crate::writer::{Store, WriterSeat};
use crate::writer_turns::WriterTurns;
use std::snapshot::Snapshot;
use std::sync::Wait;
use std::sync::atomic::{AtomicBool, Ordering};
use std::sync::ledger::Ledger;
use std::thread::{Promise, PromisedHandle, Scope};

/// What an end keeps of the jobs that it handed over, and what it is whatever it serves.
pub trait Accounts {
    /// What an end is, whatever it serves.
    type Mark;

    /// What it is, whatever it serves.
    ghost mark: { Self → Self.Mark };

    /// What it keeps is right, where the end of this number has handed over so many jobs, and to
    /// each group these.
    ghost fits: { Self → (end count : ℕ) → List (List Handed) → Type 0 };
}

/// What an end does with its seat, in a thread of its own: it serves its connections, hands over
/// what they bring, and keeps its accounts of that.
pub trait Service<R>: Accounts {
    /// Serves until there is nothing more to serve. What it hands over it may write itself.
    fn serve<N: WriterTurns<R>>(
        &mut self,
        rt: &R,
        channels: &[JobChannel],
        writers: &N,
        seat: SessionSeat,
    ) -> SessionSeat
        requires seat { IsSeatOf channels.now seat }
        requires kept { Self.fits self.old (end_of seat) (count_of seat) (handed_by seat) }
        ensures seat { IsSeatOf channels.now result }
        ensures end { end_of result ≡ end_of seat }
        ensures kept { Self.fits self.new (end_of result) (count_of result) (handed_by result) }
        ensures mark { Self.mark self.new ≡ Self.mark self.old };

    /// Is told that it won't be served, since a thread couldn't be started for it.
    fn decline(&mut self, rt: &R)
        ensures kept { (end count : ℕ) (jobs : List (List Handed))
            → Self.fits self.old end count jobs → Self.fits self.new end count jobs }
        ensures mark { Self.mark self.new ≡ Self.mark self.old };
}

/// An end before its thread starts: its seat, and what it serves.
#[derive(Drop)]
pub struct Plan<V> {
    pub seat: SessionSeat,
    pub service: V,
}

/// An end that has left, with what it served.
#[derive(Drop)]
pub struct Leaver<V> {
    pub seat: LeftSeat,
    pub service: V,
}

/// A writer's thread gives its seat back with the closing mark of each end.
#[derive(Clone, Copy)]
pub struct WriterFinished<'a> {
    pub channel: &'a JobChannel,
    pub ends: usize,
}

impl<'a, L: Ledger, O: Outcome> Promise<WriterSeat<L, O>> for WriterFinished<'a> {
    ghost use Rattle.std.specs.Prelude.{◌≡◌, false};
    ghost use Rattle.crossbeam_queue.specs.Passes.{IsPassOf};
    ghost use Rattle.live_jobs.specs.JobChannels.{queue_of};
    ghost use Rattle.live_jobs.specs.Gathered.{AllClosed};

    ghost kept_by = { λ p r. IsPassOf (queue_of p.channel.now) r.pass
        × AllClosed p.ends r.closed.items × (r.lent ≡ false) };
}

/// Starts a writer's thread.
pub(crate) fn start_writer<
    's,
    'e: 's,
    L: Ledger + Send + Sync + 's,
    O: Outcome + Drop + Send + 's,
    S: Store<L, O, R> + Sync,
    K: RunPremises + Send + Sync + 's,
    R: Wait + Sync,
>(
    scope: &'s Scope<'s, &'e ()>,
    rt: &'s R,
    channel: &'s JobChannel,
    group: usize,
    seated: &'s SeatedWriters<'s, L, O, S, K>,
    seat: WriterSeat<L, O>,
    ends: usize,
) -> Option<PromisedHandle<WriterSeat<L, O>, WriterFinished<'s>>>
    requires pass { IsPassOf (queue_of channel.now) seat.pass }
    requires here { seat.lent ≡ false }
    requires ends { length seat.closed.items ≡ ends }
    requires group { slice_get K.channels group ≡ Some channel.now }
    requires all { K.ends ≡ ends }
    ensures { IfSome result (λ h. (h.promise.channel.now ≡ channel.now) × (h.promise.ends ≡ ends)) }
{
    let body = move || -> WriterSeat<L, O>
        requires { IsPassOf (queue_of channel.now) seat.pass × (seat.lent ≡ false)
            × (length seat.closed.items ≡ ends) × (K.ends ≡ ends)
            × (slice_get K.channels group ≡ Some channel.now) }
        ensures { IsPassOf (queue_of channel.entry.now) result.pass
            × AllClosed ends result.closed.items × (result.lent ≡ false) }
    {
        let _ = &ends;
        run_writer(rt, channel, seated, group, seat)
    };
    scope
        .spawn_with(WriterFinished { channel, ends }, body)
        .ok()
}

/// An end's thread gives its seat back with the closing marks pushed, and what it serves with its
/// mark and its accounts.
#[derive(Drop)]
pub struct EndFinished<'a, V> {
    pub channels: &'a [JobChannel],
    pub end: u64,
    /// What the end serves, as it was before the thread started.
    pub service: Snapshot<V>,
}

impl<'a, V: Accounts> Promise<Leaver<V>> for EndFinished<'a, V> {
    ghost use Rattle.std.specs.Prelude.{◌≡◌};
    ghost use Rattle.live_jobs.specs.Seats.{HasLeft, left_end, left_by};
    ghost use Rattle.live_jobs.specs.Started.{HasKept};

    ghost kept_by = { λ p r. (left_end r.seat ≡ p.end) × HasLeft p.channels.now r.seat
        × HasKept V.fits r.service p.end (left_by r.seat)
        × (V.mark r.service ≡ V.mark p.service.value) };
}

/// Serves an end, unless it is to leave at once, and then leaves. What it serves is told of the
/// latter.
fn serve_end<V: Service<R>, N: WriterTurns<R>, R: Wait>(
    rt: &R,
    channels: &[JobChannel],
    plan: Plan<V>,
    leaves: &AtomicBool,
    writers: &N,
) -> Leaver<V>
    requires seat { IsSeatOf channels.now plan.seat }
    requires kept { V.fits plan.service (end_of plan.seat) (count_of plan.seat)
        (handed_by plan.seat) }
    ensures left { HasLeft channels.now result.seat }
    ensures end { left_end result.seat ≡ end_of plan.seat }
    ensures kept { HasKept V.fits result.service (end_of plan.seat) (left_by result.seat) }
    ensures mark { V.mark result.service ≡ V.mark plan.service }
{
    let Plan { seat, mut service } = plan;
    if leaves.load(Ordering::SeqCst) {
        service.decline(rt);
        return Leaver {
            seat: hang_up(rt, channels, seat),
            service,
        };
    }
    let seat = service.serve(rt, channels, writers, seat);
    Leaver {
        seat: hang_up(rt, channels, seat),
        service,
    }
}

/// Starts an end's thread. Where no thread can be made, the end leaves here and now.
pub(crate) fn start_end<
    's,
    'e: 's,
    V: Service<R> + Drop + Send + 's,
    N: WriterTurns<R> + Sync,
    R: Wait + Sync,
>(
    scope: &'s Scope<'s, &'e ()>,
    rt: &'s R,
    channels: &'s [JobChannel],
    plan: Plan<V>,
    leaves: &'s AtomicBool,
    writers: &'s N,
) -> Option<PromisedHandle<Leaver<V>, EndFinished<'s, V>>>
    requires seat { IsSeatOf channels.now plan.seat }
    requires kept { V.fits plan.service (end_of plan.seat) (count_of plan.seat)
        (handed_by plan.seat) }
    ensures { IfSome result (λ h. (h.promise.channels.now ≡ channels.now)
        × (h.promise.end ≡ end_of plan.seat) × (h.promise.service.value ≡ plan.service)) }
{
    let end = plan.seat.end;
    let service = Snapshot::of(&plan.service);
    let body = move || -> Leaver<V>
        requires { IsSeatOf channels.now plan.seat × (end_of plan.seat ≡ end)
            × V.fits plan.service end (count_of plan.seat) (handed_by plan.seat) }
        ensures { (left_end result.seat ≡ end) × HasLeft channels.entry.now result.seat
            × HasKept V.fits result.service end (left_by result.seat)
            × (V.mark result.service ≡ V.mark plan.service) }
    {
        let _ = &end;
        serve_end(rt, channels, plan, leaves, writers)
    };
    let promise = EndFinished {
        channels,
        end,
        service,
    };
    match scope.spawn_with(promise, body) {
        Ok(handle) => Some(handle),
        Err(refused) => {
            leaves.store(true, Ordering::SeqCst);
            (refused.value)();
            None
        }
    }
}
