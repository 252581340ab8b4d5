//! A relay in threads, from the first connection to the last seat.
ghost use Rattle.std.specs.Prelude.{◌≡◌, ◌≢◌, ◌<◌, ◌^◌, [], None, length, map, IfOk, IfSome};
ghost use Rattle.article_verdict.specs.Config.{terms_of};
ghost use Rattle.live_jobs.specs.StoreResults.{FitsJob, is_kept};
ghost use Rattle.live_jobs.specs.Mismatches.{mismatched_receipts_in};
ghost use Rattle.live_jobs.specs.Gathered.{AllTold, NoneElse, hands_of, kept_by_all};
ghost use Rattle.live_jobs.specs.Started.{AllKept};
ghost use Rattle.live_jobs.specs.Desks.{posts_in};
ghost use Rattle.relay_live.specs.Counts.{accepted_in, posted_in, mismatched_receipts_of};
ghost use Rattle.relay_live.specs.Counts.{AreCounts};
ghost use Rattle.relay_live.specs.PeerServers.{kept_of, peer_of, terms_at};
ghost use Rattle.post_history.specs.Remembering.{ArePostedOnce};
ghost use Rattle.relay_live.specs.Audits.{HasFrontOfEach, fronts_of, history_of};
ghost use Rattle.relay_live.specs.Making.{buffers_of, remembers, slots_of};
ghost use Rattle.relay_live.specs.Running.{AreNew, AreServed, error_of};
ghost use Rattle.relay_live.specs.Sessions.{Accounted, HasLists};
ghost use Rattle.relay_live.specs.declared.running.LiveError.TheVariants as errors;

use crate::audit::{Audit, Closed};
use crate::auditing::{audit_of, close_desk};
use crate::keeper::Keeper;
use crate::peer_server::PeerServer;
use crate::posting::RelayDesk;
use crate::register_ref::RegisterRef;
use cyc_block::BlockStore;
use live_jobs::{
    Opened, Outcome, Posts, Seats, SeatsError, Service, Store, StoreResult, Totals,
    mismatched_receipts, open_all, serve_seats,
};
use live_session::{Clock, Gate};
use live_store::StorePremises;
use live_wire::Connections;
use post_history::Naming;
use relay_conf::Config;
use std::alloc::{AllocError, Global};
use std::hash::RandomState;
use std::sync::ledger::{Ledger, Share};
use std::sync::{Mutex, Wait};
use std::thread::Threads;

/// Why nothing of a run is counted.
#[derive(Clone, Copy)]
pub enum LiveError {
    /// Memory was refused.
    Memory,
    /// A thread couldn't be started.
    NoThread,
}

impl From<AllocError> for LiveError {
    ghost from_gives = { λ _ made. made ≡ errors.Memory };

    fn from(_: AllocError) -> LiveError {
        LiveError::Memory
    }
}

/// What was counted of a run once all its threads have ended. Only `serve_all` makes one.
#[derive(Clone, Copy)]
pub struct Counted {
    accepted: u64,
    posted: Posts,
    mismatched_receipts: u128,
}

impl Counted {
    ghost use Rattle.relay_live.specs.Counts.{accepted_in, posted_in, mismatched_receipts_of};

    /// How many jobs the writers kept.
    pub fn accepted(&self) -> u64
        ensures { result ≡ accepted_in self.now }
    {
        self.accepted
    }

    /// How many posts the feed desk made.
    pub fn posted(&self) -> Posts
        ensures { result ≡ posted_in self.now }
    {
        self.posted
    }

    /// How many kept answers have another register number than the writer's receipt for the same
    /// job, and how many jobs are in conflict.
    pub fn mismatched_receipts(&self) -> u128
        ensures { result ≡ mismatched_receipts_of self.now }
    {
        self.mismatched_receipts
    }
}

/// Where a peer's connections come from: the peer's number in the configuration, and its
/// connections, one after the other.
#[derive(Drop)]
pub struct PeerSource<X> {
    pub peer: usize,
    pub connections: X,
}

/// What is served: peer sources, by the configuration of a relay and what lets commands in.
#[derive(Drop)]
pub struct Serving<'a, X, G> {
    /// The configuration, whose terms are those of each session.
    pub config: &'a Config,
    /// What lets the sessions' commands in.
    pub gate: &'a G,
    /// The seed of the sessions' tables.
    pub hasher: RandomState,
    /// Where the connections come from, an end for each.
    pub peer_sources: Vec<PeerSource<X>>,
}

/// A run that was counted, once all its threads have ended.
#[derive(Drop)]
pub struct CountedRun<J: Naming, L: Ledger, O: Outcome, V> {
    /// The seats that have come back.
    pub seats: Seats<L, O, V>,
    /// What was counted of them.
    pub counted: Counted,
    /// The history of all posts, where the desk and the shards agree on it.
    pub audit: Audit<J>,
}

impl<
    'a,
    X: Drop,
    S: BlockStore + Drop,
    J: StorePremises + Naming,
    L: Ledger,
    C: Clock,
    G,
    Q: RegisterRef,
> CountedRun<J, L, StoreResult<J>, PeerServer<'a, X, S, J, L, C, G, Q>> {
    /// What was counted, without the seats.
    pub fn into_counted(self) -> Counted
        ensures { result ≡ self.entry.counted }
    {
        self.counted
    }
}

/// Why nothing is counted, where no seats come back.
fn live_error(why: SeatsError) -> LiveError
    ensures { result ≡ error_of why }
{
    match why {
        SeatsError::Memory => LiveError::Memory,
        SeatsError::NoThread => LiveError::NoThread,
    }
}

/// An end for each peer source, in this order, before its first connection.
fn ends_of<
    'a,
    X: Drop,
    S: BlockStore + Drop,
    J: StorePremises + Naming,
    L: Ledger,
    C: Clock,
    G,
    Q: RegisterRef,
>(
    alloc: Global,
    keeper: &Keeper<'a, S, J, L, C, Q>,
    serving: Serving<'a, X, G>,
) -> Result<Vec<PeerServer<'a, X, S, J, L, C, G, Q>>, AllocError>
    ensures peers { IfOk result (λ ends.
        map peer_of ends.items ≡ map (λ d. d.peer) serving.entry.peer_sources.items) }
    ensures terms { IfOk result (λ ends. map terms_at ends.items
        ≡ map (λ d. terms_of serving.entry.config.now) serving.entry.peer_sources.items) }
    ensures new { IfOk result (λ ends.
        map kept_of ends.items ≡ map (λ d. []) serving.entry.peer_sources.items) }
{
    let Serving {
        config,
        gate,
        hasher,
        peer_sources,
    } = serving;
    let mut ends = Vec::with_capacity(alloc, peer_sources.len())?;
    for peer_source in peer_sources {
        ends.push_reserved(PeerServer::new(
            alloc,
            hasher,
            keeper,
            config,
            gate,
            peer_source.peer,
            peer_source.connections,
        ));
    }
    Ok(ends)
}

/// Serves these ends, and a writer for each of so many groups, each in a thread of its own, until
/// all have ended; and compares what they handed over with what they told. The seats that have come
/// back, and what the desk is closed with.
fn serve_ends<
    J: Naming + Send + Sync,
    L: Ledger + Send + Sync,
    O: Outcome + Drop + Send,
    V: Service<R> + Drop + Send,
    K: Store<L, O, R> + Sync,
    R: Threads + Wait + Sync,
>(
    rt: &R,
    alloc: Global,
    keeper: &K,
    ends: Vec<V>,
    groups: usize,
    all: Share<L>,
    desk: &Mutex<RelayDesk<J, L>>,
) -> Result<(Seats<L, O, V>, Closed<J>), LiveError>
    requires parts { (all.parts ≡ groups) × (all.amount ≡ 0) × (L.parts ≡ groups) × (0 < groups) }
    requires few { length ends.items < 2 ^ 62 }
    requires new { AreNew V.fits ends.items }
    ensures { IfOk result (λ served.
        AreServed V.fits V.mark groups ends.items served.0 served.1.totals) }
{
    let Opened {
        channels,
        mut rests,
        plans,
        writers,
    } = open_all::<L, O, V>(alloc, groups, ends, all)?;
    let channels = channels.as_slice();
    let mut seats = match serve_seats(rt, channels, keeper, plans, writers) {
        Ok(seats) => seats,
        Err(why) => return Err(live_error(why)),
    };
    let closed = close_desk(&mut desk.lock(rt), channels, &mut rests, &mut seats);
    Ok((seats, closed))
}

/// What is counted of seats that have come back, beside these totals of theirs.
fn counted_of<
    'a,
    X: Drop,
    S: BlockStore + Drop,
    J: StorePremises + Naming,
    L: Ledger,
    C: Clock,
    G,
    Q: RegisterRef,
>(
    alloc: Global,
    totals: Totals,
    seats: &Seats<L, StoreResult<J>, PeerServer<'a, X, S, J, L, C, G, Q>>,
) -> Result<Counted, AllocError>
    ensures { IfOk result (AreCounts totals (map kept_of seats.now.services.items)
        (map (λ w. w.finished.items) seats.now.writers.items)) }
{
    let mut answers = Vec::with_capacity(alloc, seats.services.len())?;
    let ends = seats.services.as_slice();
    for end in ends {
        answers.push_reserved(end.kept());
    }
    let writers = seats.writers.as_slice();
    let mismatched_receipts = mismatched_receipts(alloc, answers.as_slice(), writers)?;
    Ok(Counted {
        accepted: totals.accepted,
        posted: totals.posted,
        mismatched_receipts,
    })
}

/// Serves an end behind each peer source, one thread for each of them and for each group's writer,
/// until every end has left and every writer has taken what was handed over to its group
/// (docs/PROTOCOL.md, Threads 6). There is a slot for each peer source, where its end is told.
/// What each writer told of each end is what this end handed over to its group, each job once, in
/// order, with what became of it; what each end keeps is what its sessions came to. The error is
/// want of memory, before the threads start or where what came back is counted, or that a thread
/// couldn't be started: then what was served stands, and nothing is counted.
pub fn serve_all<
    'a,
    X: Connections<R> + Drop + Send,
    S: BlockStore + Drop + Send,
    J: StorePremises + Naming + Send + Sync,
    L: Ledger + Send + Sync,
    C: Clock + Sync,
    G: Gate<R> + Sync,
    Q: RegisterRef + Sync,
    R: Threads + Wait + Sync,
>(
    rt: &R,
    alloc: Global,
    keeper: &Keeper<'a, S, J, L, C, Q>,
    serving: Serving<'a, X, G>,
    groups: usize,
    all: Share<L>,
) -> Result<CountedRun<J, L, StoreResult<J>, PeerServer<'a, X, S, J, L, C, G, Q>>, LiveError>
where
    <X as Connections<R>>::Reader: Drop + Send,
    <X as Connections<R>>::Writer: Drop + Send,
    requires parts { (all.parts ≡ groups) × (all.amount ≡ 0) × (L.parts ≡ groups) × (0 < groups) }
    requires few { length serving.peer_sources.items < 2 ^ 62 }
    requires slots { slots_of keeper.now ≡ length serving.peer_sources.items }

    // The seats that come back are all: one for each peer source, with a list for each group, and
    // one for each group.
    ensures lefts { IfOk result (λ run.
        length run.seats.lefts.items ≡ length serving.entry.peer_sources.items) }
    ensures lists { IfOk result (λ run. HasLists groups (hands_of run.seats.lefts.items)) }
    ensures writers { IfOk result (λ run. length run.seats.writers.items ≡ groups) }

    // Of each end each job was told once, in order, with an outcome that fits it, and of no other
    // end anything.
    ensures jobs { IfOk result (λ run. AllTold (FitsJob J.holds)
        (map (λ w. w.finished.items) run.seats.writers.items) (hands_of run.seats.lefts.items)) }
    ensures none { IfOk result (λ run. NoneElse (length serving.entry.peer_sources.items)
        (map (λ w. w.finished.items) run.seats.writers.items)) }

    // Each end that comes back has the peer of its source, and its terms are those of the
    // configuration; what it kept is what its sessions came to by these.
    ensures peers { IfOk result (λ run.
        map peer_of run.seats.services.items
        ≡ map (λ d. d.peer) serving.entry.peer_sources.items) }
    ensures terms { IfOk result (λ run. map terms_at run.seats.services.items
        ≡ map (λ d. terms_of serving.entry.config.now) serving.entry.peer_sources.items) }
    ensures kept { IfOk result (λ run. AllKept (λ end number count jobs.
        Accounted J.trusted (terms_at end) number (peer_of end) count jobs (kept_of end))
        (hands_of run.seats.lefts.items) run.seats.services.items) }

    ensures accepted { IfOk result (λ run. accepted_in run.counted
        ≡ kept_by_all is_kept (map (λ w. w.finished.items) run.seats.writers.items)) }
    ensures posted { IfOk result (λ run.
        posts_in (posted_in run.counted) ≡ accepted_in run.counted) }
    ensures mismatched_receipts { IfOk result (λ run. mismatched_receipts_of run.counted
        ≡ mismatched_receipts_in (map kept_of run.seats.services.items)
        (map (λ w. w.finished.items) run.seats.writers.items)) }

    // Where the desk and the shards agree on the history, it has as many posts as were counted. Two
    // of these are of one message-id, or one is of an id that the relay had stored when it began,
    // only where the earlier one's token is passed by a front of its buffer. Where nothing is
    // forgotten there is no front: then no id was posted twice, and none that was stored before.
    // Else one front of each buffer was read.
    ensures once { IfOk result (λ run. IfSome (history_of run.audit) (λ posts.
        ∥ ArePostedOnce (fronts_of run.audit) J.began posts ∥₁
        × (length posts ≡ posts_in (posted_in run.counted)))) }
    ensures unforgotten { remembers keeper.now ≡ None
        → IfOk result (λ run. fronts_of run.audit ≡ []) }
    ensures read { remembers keeper.now ≢ None
        → IfOk result (λ run. HasFrontOfEach (buffers_of keeper.now) run.audit) }
{
    let ends = ends_of(alloc, keeper, serving)?;
    let shared = keeper.shared;
    let (seats, closed) = serve_ends(rt, alloc, keeper, ends, groups, all, &shared.desk)?;
    let Closed { totals, posts } = closed;
    let counted = match counted_of(alloc, totals, &seats) {
        Ok(counted) => counted,
        Err(_) => return Err(LiveError::Memory),
    };
    let audit = audit_of(rt, alloc, shared, posts)?;
    Ok(CountedRun {
        seats,
        counted,
        audit,
    })
}
