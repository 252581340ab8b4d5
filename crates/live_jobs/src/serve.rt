//! Threads over rows of seats.
ghost use Rattle.std.specs.Prelude.{◌≡◌, ◌≤◌, true, map, length, vec_len, vec_capacity, IfOk};
ghost use Rattle.std.specs.Vec.Iter.{into_iter_items};
ghost use Rattle.live_jobs.specs.Rows.{From};
ghost use Rattle.live_jobs.specs.Gathered.{hands_of};
ghost use lib.Dec.{ltb};
ghost use Rattle.live_jobs.specs.Seats.{IsSeatOf, PassesFit, end_of};
ghost use Rattle.live_jobs.specs.Started.{AllReady, AllOpen, AllRight, Runs, Serves};
ghost use Rattle.live_jobs.specs.Started.{AllEnded, AllLeft, AllKept, CameBack, CanRun};

use crate::channel::JobChannel;
use crate::gather::Seats;
use crate::outcome::Outcome;
use crate::placed::SeatPlace;
use crate::rooms::{flags, no_rooms, places};
use crate::run_premises::RunPremises;
use crate::seated::SeatedWriters;
use crate::session::{LeftSeat, SessionSeat, push_marks};
use crate::start::{
    Accounts, EndFinished, Leaver, Plan, Service, WriterFinished, start_end, start_writer,
};
use crate::writer::{Store, WriterSeat};
use crate::writer_turns::WriterTurns;
use job_queue::QueuePass;
use std::marker::Brand;
use std::sync::Wait;
use std::sync::atomic::AtomicBool;
use std::sync::ledger::Ledger;
use std::thread;
use std::thread::{PromisedHandle, Scope, Threads};
use std::vec::IntoIter;

/// Why no seats come back.
#[derive(Clone, Copy)]
pub enum SeatsError {
    /// Memory ran out before a thread was started.
    Memory,
    /// A thread couldn't be started.
    NoThread,
}

/// Starts the writers' threads, in order, until one can't be started.
fn start_writers<
    's,
    'e: 's,
    L: Ledger + Send + Sync + 's,
    O: Outcome + Drop + Send + 's,
    S: Store<L, O, R> + Sync,
    K: RunPremises + Send + Sync + 's,
    R: Wait + Sync,
>(
    scope: &'s Scope<'s, &'e ()>,
    rt: &'s R,
    channels: &'s [JobChannel],
    seated: &'s SeatedWriters<'s, L, O, S, K>,
    writers: Vec<WriterSeat<L, O>>,
    ends: usize,
    running: &mut Vec<PromisedHandle<WriterSeat<L, O>, WriterFinished<'s>>>,
) -> bool
    requires none { length running.old.items ≡ 0 }
    requires room { vec_len writers ≤ vec_capacity running.old }
    requires channels { length writers.items ≤ length channels.now }
    requires fit { AllReady channels.now ends writers.items }
    requires premises { (channels.now ≡ K.channels) × (K.ends ≡ ends) }
    ensures all { result ≡ true → length running.new.items ≡ length writers.items }
    ensures some { length running.new.items ≤ length writers.items }
    ensures fit { From (λ g h. Runs channels.now ends g h.promise.channel.now h.promise.ends) 0
        running.new.items }
{
    for seat in writers {
        let group = running.len();
        match start_writer(scope, rt, &channels[group], group, seated, seat, ends) {
            Some(handle) => running.push_reserved(handle),
            None => return false,
        }
    }
    true
}

/// Starts the ends' threads, in order. Where one can't be started, this end and all after it leave
/// the writers that run here and now.
fn start_ends<
    's,
    'e: 's,
    T,
    V: Service<R> + Drop + Send + 's,
    N: WriterTurns<R> + Sync,
    R: Wait + Sync,
>(
    scope: &'s Scope<'s, &'e ()>,
    rt: &'s R,
    channels: &'s [JobChannel],
    plans: Vec<Plan<V>>,
    leaves: &'s Vec<AtomicBool>,
    writers: &'s N,
    running: &[T],
    serving: &mut Vec<PromisedHandle<Leaver<V>, EndFinished<'s, V>>>,
) -> bool
    requires running { length running.now ≤ length channels.now }
    requires none { length serving.old.items ≡ 0 }
    requires room { (length plans.items ≤ vec_capacity serving.old)
        × (length plans.items ≤ length leaves.now.items) }
    requires fit { AllOpen channels.now plans.items }
    requires kept { AllRight V.fits plans.items }
    ensures all { result ≡ true → length serving.new.items ≡ length plans.items }
    ensures some { length serving.new.items ≤ length plans.items }
    ensures fit { From (λ e h. Serves channels.now e h.promise.channels.now h.promise.end) 0
        serving.new.items }
    ensures marks { result ≡ true → map (λ h. V.mark h.promise.service.value) serving.new.items
        ≡ map (λ p. V.mark p.service) plans.items }
{
    let mut left = plans.into_iter();
    while let Some(plan) = left.next() {
        let end = serving.len();
        match start_end(scope, rt, channels, plan, &leaves[end], writers) {
            Some(handle) => serving.push_reserved(handle),
            None => {
                leave_running(rt, channels, left, running);
                return false;
            }
        }
    }
    true
}

/// Joins the writers' threads, in order.
fn join_writers<'a, L: Ledger, O: Outcome + Drop, R: Threads>(
    rt: &R,
    channels: &[JobChannel],
    ends: usize,
    running: Vec<PromisedHandle<WriterSeat<L, O>, WriterFinished<'a>>>,
    writers: &mut Vec<WriterSeat<L, O>>,
)
    requires none { length writers.old.items ≡ 0 }
    requires room { length running.items ≤ vec_capacity writers.old }
    requires runs { From (λ g h. Runs channels.now ends g h.promise.channel.now h.promise.ends) 0
        running.items }
    ensures all { length writers.new.items ≡ length running.entry.items }
    ensures ended { AllEnded channels.now ends writers.new.items }
{
    let _ = channels;
    let _ = ends;
    for handle in running {
        writers.push_reserved(handle.join(rt));
    }
}

/// Joins the ends' threads, in order.
fn join_ends<'a, V: Accounts + Drop, R: Threads>(
    rt: &R,
    channels: &[JobChannel],
    serving: Vec<PromisedHandle<Leaver<V>, EndFinished<'a, V>>>,
    lefts: &mut Vec<LeftSeat>,
    services: &mut Vec<V>,
)
    requires none { (length lefts.old.items ≡ 0) × (length services.old.items ≡ 0) }
    requires room { (length serving.items ≤ vec_capacity lefts.old)
        × (length serving.items ≤ vec_capacity services.old) }
    requires serves { From (λ e h. Serves channels.now e h.promise.channels.now h.promise.end) 0
        serving.items }
    ensures all { (length lefts.new.items ≡ length serving.entry.items)
        × (length services.new.items ≡ length serving.entry.items) }
    ensures left { AllLeft channels.now lefts.new.items }
    ensures kept { AllKept V.fits (hands_of lefts.new.items) services.new.items }
    ensures marks { map V.mark services.new.items
        ≡ map (λ h. V.mark h.promise.service.value) serving.entry.items }
{
    let _ = channels;
    for handle in serving {
        let Leaver { seat, service } = handle.join(rt);
        lefts.push_reserved(seat);
        services.push_reserved(service);
    }
}

/// The ends whose threads aren't started leave the writers that run, of which these are the
/// handles: the first ones. Who doesn't run takes no mark, and a full queue would wait for it.
fn leave_running<T, V: Drop, R: Wait>(
    rt: &R,
    channels: &[JobChannel],
    plans: IntoIter<Plan<V>>,
    running: &[T],
)
    requires groups { length running.now ≤ length channels.now }
    requires fit { From (λ e p. IsSeatOf channels.now p.seat) 0 (into_iter_items plans) }
{
    for plan in plans {
        let seat = plan.seat;
        drop(leave_writers(rt, channels, seat, running));
    }
}

/// Pushes the closing mark of an end into the channel of each writer that runs: none of these waits
/// for it for good.
fn leave_writers<T, R: Wait>(
    rt: &R,
    channels: &[JobChannel],
    seat: SessionSeat,
    running: &[T],
) -> Vec<QueuePass>
    requires groups { length running.now ≤ length channels.now }
    requires seat { IsSeatOf channels.now seat }
    ensures { PassesFit channels.now (end_of seat) (λ g. ltb g (length running.now))
        result.items }
{
    let SessionSeat {
        end,
        handed: _,
        mut passes,
    } = seat;
    push_marks(rt, channels, end, &mut passes, running.len());
    passes
}

/// All threads of a run: the writers' first, then the ends'.
fn run_threads<
    's,
    'e: 's,
    L: Ledger + Send + Sync + 's,
    O: Outcome + Drop + Send + 's,
    V: Service<R> + Drop + Send + 's,
    S: Store<L, O, R> + Sync,
    K: RunPremises + Send + Sync + 's,
    R: Threads + Wait + Sync,
>(
    scope: &'s Scope<'s, &'e ()>,
    rt: &'s R,
    channels: &'s [JobChannel],
    seated: &'s SeatedWriters<'s, L, O, S, K>,
    plans: Vec<Plan<V>>,
    writers: Vec<WriterSeat<L, O>>,
    leaves: &'s Vec<AtomicBool>,
) -> Result<Seats<L, O, V>, SeatsError>
    requires run { CanRun V.fits channels.now plans.items writers.items (length leaves.now.items) }
    requires premises { (channels.now ≡ K.channels) × (K.ends ≡ length plans.items) }
    ensures { IfOk result (CameBack V.fits V.mark channels.now plans.items writers.items) }
{
    let ends = plans.len();
    let Ok((mut running, mut serving, mut seats)) = no_rooms(&plans, &writers) else {
        return Err(SeatsError::Memory);
    };
    if !start_writers(scope, rt, channels, seated, writers, ends, &mut running) {
        leave_running(rt, channels, plans.into_iter(), &running);
        drop(seats);
        return Err(SeatsError::NoThread);
    }
    let all = start_ends(
        scope,
        rt,
        channels,
        plans,
        leaves,
        seated,
        &running,
        &mut serving,
    );
    join_ends(rt, channels, serving, &mut seats.lefts, &mut seats.services);
    join_writers(rt, channels, ends, running, &mut seats.writers);
    if !all {
        drop(seats);
        return Err(SeatsError::NoThread);
    }
    Ok(seats)
}

/// Runs a thread for each writer and each end, until all have ended (docs/PROTOCOL.md, Threads 6).
/// Writers are started first. Memory comes before the first thread, none is taken after it but by
/// the threads themselves. Where a thread can't be started no further is, the closing marks are
/// pushed for each writer that runs, all are joined, and the seats are gone.
pub fn serve_seats<
    L: Ledger + Send + Sync,
    O: Outcome + Drop + Send,
    V: Service<R> + Drop + Send,
    S: Store<L, O, R> + Sync,
    R: Threads + Wait + Sync,
>(
    rt: &R,
    channels: &[JobChannel],
    store: &S,
    plans: Vec<Plan<V>>,
    writers: Vec<WriterSeat<L, O>>,
) -> Result<Seats<L, O, V>, SeatsError>
    requires channels { length writers.items ≤ length channels.now }
    requires writers { AllReady channels.now (length plans.items) writers.items }
    requires ends { AllOpen channels.now plans.items }
    requires kept { AllRight V.fits plans.items }
    ensures { IfOk result (CameBack V.fits V.mark channels.now plans.items writers.items) }
{
    serve_placed::<L, O, V, S, Brand, R>(rt, channels, store, plans, writers)
}

/// The same, over the premises of the run.
fn serve_placed<
    L: Ledger + Send + Sync,
    O: Outcome + Drop + Send,
    V: Service<R> + Drop + Send,
    S: Store<L, O, R> + Sync,
    K: RunPremises + Send + Sync,
    R: Threads + Wait + Sync,
>(
    rt: &R,
    channels: &[JobChannel],
    store: &S,
    plans: Vec<Plan<V>>,
    writers: Vec<WriterSeat<L, O>>,
) -> Result<Seats<L, O, V>, SeatsError>
    requires channels { length writers.items ≤ length channels.now }
    requires writers { AllReady channels.now (length plans.items) writers.items }
    requires ends { AllOpen channels.now plans.items }
    requires kept { AllRight V.fits plans.items }
    requires premises { (channels.now ≡ K.channels) × (K.ends ≡ length plans.items) }
    ensures { IfOk result (CameBack V.fits V.mark channels.now plans.items writers.items) }
{
    let alloc = *plans.allocator();
    let Ok(leaves) = flags(alloc, plans.len()) else {
        return Err(SeatsError::Memory);
    };
    let Ok(places) = places::<L, O, K>(alloc, channels.len()) else {
        return Err(SeatsError::Memory);
    };
    serve_over(rt, channels, store, plans, writers, &places, &leaves)
}

/// The same, over places of the seats, and flags of the ends.
fn serve_over<
    'a,
    L: Ledger + Send + Sync,
    O: Outcome + Drop + Send,
    V: Service<R> + Drop + Send,
    S: Store<L, O, R> + Sync,
    K: RunPremises + Send + Sync,
    R: Threads + Wait + Sync,
>(
    rt: &R,
    channels: &'a [JobChannel],
    store: &'a S,
    plans: Vec<Plan<V>>,
    writers: Vec<WriterSeat<L, O>>,
    places: &'a [SeatPlace<L, O, K>],
    leaves: &'a Vec<AtomicBool>,
) -> Result<Seats<L, O, V>, SeatsError>
    requires run { CanRun V.fits channels.now plans.items writers.items (length leaves.now.items) }
    requires places { length places.now ≡ length channels.now }
    requires premises { (channels.now ≡ K.channels) × (K.ends ≡ length plans.items) }
    ensures { IfOk result (CameBack V.fits V.mark channels.now plans.items writers.items) }
{
    let seated = SeatedWriters {
        channels,
        places,
        store,
    };
    let seated = &seated;
    thread::scope(
        thread::scope_env(),
        rt,
        move |scope| -> Result<Seats<L, O, V>, SeatsError>
            requires { CanRun V.fits channels.now plans.items writers.items
                (length leaves.now.items) × (channels.now ≡ K.channels)
                × (K.ends ≡ length plans.items) }
            ensures { IfOk result
                (CameBack V.fits V.mark channels.entry.now plans.items writers.items) }
        { run_threads(scope, rt, channels, seated, plans, writers, leaves) },
    )
}
