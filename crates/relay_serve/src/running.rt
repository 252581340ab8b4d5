//! A relay runs in threads, over stores and peer sources that are given.
ghost use Rattle.std.specs.Prelude.{◌≡◌, ◌<◌, ◌^◌, ◌⊎◌, true, All, List, Ok, Err, IfErr, IfOk};
ghost use Rattle.std.specs.Prelude.{length, map};
ghost use Rattle.block_shelf.specs.Filling.{IsBeginRefusal};
ghost use Rattle.feed_queue.specs.Feeds.{ring_size};
ghost use Rattle.post_history.specs.Opening.{book_in};
ghost use Rattle.relay_live.specs.Holding.{has_buffer};
ghost use Rattle.relay_live.specs.Making.{buffers_in, ends_in, slots_of};
ghost use Rattle.relay_serve.specs.Lives.{AreOfOrigin, IsNoStart, IsUnbegun, RunsRelay, text_in};
ghost use Rattle.relay_serve.specs.Running.{CanRun};
ghost use Rattle.relay_serve.specs.Running.{RunGives};
ghost use Rattle.relay_serve.specs.Running.{ended_as};
ghost use Rattle.relay_serve.specs.Running.{channel_count};
ghost use Rattle.buffer_files.specs.Faults.{IsRelayFault, IsRunFault};
ghost use Rattle.relay_report.specs.declared.fault.ServeError.TheVariants as faults;

use crate::lives::{finish, tell_audit};
use crate::run_totals::RunTotals;
use crate::served::Served;
use block_shelf::BeginError;
use buffer_files::{Beginning, Looked, hasher_of, unbegun, unformatted};
use cyc_block::BlockStore;
use live_journal::PendingJournal;
use live_store::{ArticleLog, StorePremises};
use live_wire::Port;
use news_log::{NewsFile, NewsLines};
use post_history::{Naming, Opened};
use relay_ages::AgesDesk;
use relay_attendant::{Attendant, Figured, MachineClock, Writers, start_beside};
use relay_conf::Config;
use relay_core::Stopped;
use relay_folder::{HistoryPlace, JournalFile, Origin};
use relay_gate::CountingGate;
use relay_journal::JournalLines;
use relay_live::{Counted, Keeper, LiveError, PeerSource, RegisterRef, Serving, Shared, serve_all};
use relay_report::ServeError;
use relay_startup::unstarted;
use std::alloc::Global;
use std::random::RandomSource;
use std::sync::Wait;
use std::sync::ledger::{Blank, Book, Ledger, Share};
use std::thread;
use std::thread::Threads;
use std::time::Clock;

/// What a relay that was run and stopped has come to.
#[derive(Drop)]
pub(crate) struct Finished<S> {
    /// What its run counted.
    pub counted: Counted,
    /// The totals, or that there was no memory for them.
    pub totals: RunTotals,
    /// What it was stopped with.
    pub stopped: Stopped<S>,
}

/// What the texts and the posts of a relay are recorded in.
#[derive(Drop)]
pub(crate) struct Records<'a> {
    /// The register, in which each stored text has a record.
    pub register: &'a ArticleLog,
    /// The ledger of the posts before it is opened, with a part for each writer.
    pub blank: Blank,
    /// The book of the posts before it has a name.
    pub opened: Opened,
}

/// What stands around a relay.
#[derive(Drop)]
pub(crate) struct Surroundings<'a, O, K, N, M, G, R> {
    /// The clock that it goes by.
    pub clock: &'a MachineClock<'a, R>,
    /// What lets its sessions' commands in, and is told of them.
    pub gate: &'a CountingGate<'a>,
    /// What goes on beside it.
    pub side: &'a Attendant<'a>,
    /// The marks of its buffers.
    pub ages: &'a AgesDesk<G>,
    /// What is said to its journal.
    pub pending: &'a PendingJournal,
    /// What is written beside it.
    pub writers: Writers<'a, O, K, N, M>,
}

/// Runs a relay of this configuration over these stores, the i-th for buffer i: an end behind each
/// peer source, each end and each group's writer in a thread of its own, until all have ended, and
/// beside them what goes on, whose thread is had before any other. It begins from nothing, each
/// buffer being formatted, or from what it was stopped with. Then it is stopped. What comes back is
/// what the run itself counted, and the totals, with the same numbers, or that there was no memory
/// for these, and what it was stopped with. The error is that it can't start, or not be stopped, or
/// want of memory, of random numbers, or of a thread, or the file of a buffer whose device failed
/// when it was formatted; what was served before stands, and nothing is counted.
pub(crate) fn run_relay<
    S: BlockStore + Looked + Drop + Send,
    J: StorePremises + Naming + Send + Sync,
    L: Ledger + Send + Sync,
    O: JournalFile + Drop + Send,
    K: JournalLines + Drop + Send,
    N: NewsFile + Drop + Send,
    M: NewsLines + Drop + Send,
    G: HistoryPlace + Drop + Send,
    R: Threads + Wait + Clock + Eprint + RandomSource + Sync,
>(
    rt: &R,
    alloc: Global,
    config: &Config,
    beginning: Beginning<S>,
    records: Records<'_>,
    peer_sources: Vec<PeerSource<Port<'_>>>,
    surroundings: Surroundings<'_, O, K, N, M, G, R>,
) -> Result<Finished<S>, ServeError>
    requires register { records.register.now ≡ J.register }
    requires holds { J.holds ≡ has_buffer config.now.buffers }
    requires name { records.blank.name ≡ L.name }
    requires posts { (book_in records.opened ≡ J.book)
        × (J.began ≡ text_in beginning.origin) }
    requires rings { J.rings ≡ map ring_size config.now.relay.feeds.items }
    requires parts { (records.blank.parts ≡ L.parts)
        × (records.blank.parts ≡ channel_count config.now) }
    requires stores { map (λ store. length (S.blocks store)) beginning.stores.items
        ≡ map (λ buffer. buffer.blocks) config.now.buffers.buffers.items }
    requires honest { J.trusted ≡ true → All S.honest beginning.stores.items }
    requires stopped { J.trusted ≡ true
        → AreOfOrigin ⟦<S as BlockStore>⟧ beginning.origin beginning.stores.items }
    requires few { length peer_sources.items < 2 ^ 62 }
    ensures { RunsRelay ⟦<S as BlockStore>⟧ ⟦<J as StorePremises>⟧ config.now
        beginning.stores.items beginning.origin
        (map (λ peer_source. peer_source.peer) peer_sources.entry.items) result }
{
    // A relay that was started and can't be served would have lost what it was stopped with.
    let hasher = hasher_of(rt)?;
    let Records {
        register,
        blank,
        opened,
    } = records;
    let (book, all) = blank.open::<L>();
    let ends = peer_sources.len();
    let shared = begun_by::<S, J, L, R>(
        rt, alloc, config, register, beginning, book, opened, ends,
    )?;
    let Surroundings {
        clock,
        gate,
        side,
        ages,
        pending,
        writers,
    } = surroundings;
    let serving = Serving {
        config,
        gate,
        hasher,
        peer_sources,
    };
    let counted = attended(
        rt, alloc, register, &shared, serving, all, clock, side, ages, pending, writers,
    );
    match counted {
        Ok(counted) => finish(rt, alloc, config, shared, counted),
        Err(error) => {
            drop(shared);
            Err(error)
        }
    }
}

/// What so many ends share over these stores, from nothing or from what it was stopped with: then
/// nothing is written until it is known that it starts.
fn begun_by<
    S: BlockStore + Looked + Drop + Send,
    J: StorePremises + Naming + Send + Sync,
    L: Ledger,
    R: RandomSource + Threads + Wait + Sync,
>(
    rt: &R,
    alloc: Global,
    config: &Config,
    register: &ArticleLog,
    beginning: Beginning<S>,
    book: Book<L>,
    opened: Opened,
    ends: usize,
) -> Result<Shared<S, J, L>, ServeError>
    requires register { register.now ≡ J.register }
    requires stores { map (λ store. length (S.blocks store)) beginning.stores.items
        ≡ map (λ buffer. buffer.blocks) config.now.buffers.buffers.items }
    requires honest { J.trusted ≡ true → All S.honest beginning.stores.items }
    requires stopped { J.trusted ≡ true
        → AreOfOrigin ⟦<S as BlockStore>⟧ beginning.origin beginning.stores.items }
    requires book { book.total ≡ 0 }
    requires posts { (book_in opened ≡ J.book) × (J.began ≡ text_in beginning.origin) }
    requires rings { J.rings ≡ map ring_size config.now.relay.feeds.items }
    ensures buffers { IfOk result (λ shared.
        buffers_in shared ≡ length config.now.buffers.buffers.items) }
    ensures ends { IfOk result (λ shared. ends_in shared ≡ ends) }
    ensures unbegun { IfErr result (IsUnbegun ⟦<S as BlockStore>⟧ config.now
        beginning.stores.items beginning.origin) }
{
    let Beginning {
        stores,
        origin,
        fresh: _,
    } = beginning;
    match origin {
        Origin::Formatted => match Shared::new(rt, alloc, config, stores, book, opened, ends) {
            Ok(shared) => Ok(shared),
            Err(error) => Err(unshared(alloc, config, error)),
        },
        Origin::Stopped(history) => {
            let stopped = Stopped { stores, history };
            match Shared::start(rt, alloc, config, register, stopped, book, opened, ends) {
                Ok(shared) => Ok(shared),
                Err(refused) => Err(unstarted(alloc, config, refused)),
            }
        }
    }
}

/// Why nothing is shared over the stores of a configuration.
#[tactic(auto, using(crate::proofs::Starts::begin_ends))]
fn unshared<S: BlockStore + Drop>(
    alloc: Global,
    config: &Config,
    error: BeginError<S>,
) -> ServeError
    ensures other { IsNoStart result }
    ensures fault { (stores : List S) → IsBeginRefusal ⟦<S as BlockStore>⟧ stores error
        → IsRelayFault ⟦<S as BlockStore>⟧ config.now stores result }
{
    match error {
        BeginError::Host(error) => unbegun(error.kind()),
        BeginError::Device(number, _store) => unformatted(alloc, &config.buffers, number),
    }
}

/// Runs a relay over what its threads share, until all of them have ended.
fn run_shared<
    'a,
    S: BlockStore + Drop + Send,
    J: StorePremises + Naming + Send + Sync,
    L: Ledger + Send + Sync,
    Q: RegisterRef + Sync,
    R: Threads + Wait + Clock + Eprint + Sync,
>(
    rt: &R,
    alloc: Global,
    keeper: &Keeper<'a, S, J, L, MachineClock<'a, R>, Q>,
    serving: Serving<'a, Port<'a>, CountingGate<'a>>,
    all: Share<L>,
) -> Result<Counted, ServeError>
    requires { CanRun (channel_count serving.config.now) L.parts all.parts all.amount
        (slots_of keeper.now) (length serving.peer_sources.items) }
    ensures { RunGives ⟦<J as StorePremises>⟧ serving.entry.config.now
        (map (λ peer_source. peer_source.peer) serving.entry.peer_sources.items) result }
{
    let groups = channels_of(serving.config);
    match serve_all(rt, alloc, keeper, serving, groups, all) {
        Ok(ran) => {
            tell_audit(rt, &ran.audit);
            Ok(ran.into_counted())
        }
        Err(error) => Err(ended(error)),
    }
}

/// Runs a relay over what its threads share, until all of them have ended, and beside it what goes
/// on, which is started first.
fn attended<
    'a,
    S: BlockStore + Drop + Send,
    J: StorePremises + Naming + Send + Sync,
    L: Ledger + Send + Sync,
    O: JournalFile + Drop + Send,
    K: JournalLines + Drop + Send,
    N: NewsFile + Drop + Send,
    M: NewsLines + Drop + Send,
    G: HistoryPlace + Drop + Send,
    R: Threads + Wait + Clock + Eprint + Sync,
>(
    rt: &R,
    alloc: Global,
    register: &'a ArticleLog,
    shared: &'a Shared<S, J, L>,
    serving: Serving<'a, Port<'a>, CountingGate<'a>>,
    all: Share<L>,
    clock: &'a MachineClock<'a, R>,
    side: &Attendant<'_>,
    ages: &AgesDesk<G>,
    pending: &'a PendingJournal,
    writers: Writers<'a, O, K, N, M>,
) -> Result<Counted, ServeError>
    requires register { register.now ≡ J.register }
    requires holds { J.holds ≡ has_buffer serving.config.now.buffers }
    requires buffers { buffers_in shared.now ≡ length serving.config.now.buffers.buffers.items }
    requires can { CanRun (channel_count serving.config.now) L.parts all.parts all.amount
        (ends_in shared.now) (length serving.peer_sources.items) }
    ensures { RunGives ⟦<J as StorePremises>⟧ serving.entry.config.now
        (map (λ peer_source. peer_source.peer) serving.entry.peer_sources.items) result }
{
    let config = serving.config;
    let own = Keeper::new(shared, register, &config.buffers, clock, pending);
    let keeper = &own;
    let served = Served::new(config, shared, clock, ages);
    served.note(rt);
    let run = move || -> Result<Counted, ServeError>
        requires { CanRun (channel_count serving.config.now) L.parts all.parts all.amount
            (slots_of keeper.now) (length serving.peer_sources.items) }
        ensures { RunGives J.StorePremises serving.entry.config.now
            (map (λ peer_source. peer_source.peer) serving.entry.peer_sources.items) result }
    { run_shared(rt, alloc, keeper, serving, all) };
    run_beside(rt, run, side, &served, writers)
}

/// Has something run to its end, and beside it what goes on, which is started first. Where no
/// thread is to be had for that nothing is run.
fn run_beside<
    W: FnOnce() -> Result<Counted, ServeError> + Drop,
    F: Figured<R> + Sync,
    O: JournalFile + Drop + Send,
    K: JournalLines + Drop + Send,
    N: NewsFile + Drop + Send,
    M: NewsLines + Drop + Send,
    R: Threads + Wait + Clock + Eprint + Sync,
>(
    rt: &R,
    run: W,
    side: &Attendant<'_>,
    served: &F,
    writers: Writers<'_, O, K, N, M>,
) -> Result<Counted, ServeError>
    requires { W.pre run }
    ensures { (result ≡ Err faults.NoThread) ⊎ W.post run result }
{
    thread::scope(
        thread::scope_env(),
        rt,
        move |scope| -> Result<Counted, ServeError>
            requires { W.pre run }
            ensures { (result ≡ Err faults.NoThread) ⊎ W.post run result }
        {
            let Some(beside) = start_beside(scope, rt, side, served, writers) else {
                drop(run);
                return Err(ServeError::NoThread);
            };
            side.serve(rt, served);
            let ran = run();
            side.ended();
            beside.join(rt);
            ran
        },
    )
}

/// How many writers a relay has: one for each group, and one where there is no group.
pub(crate) fn channels_of(config: &Config) -> usize
    ensures count { result ≡ channel_count config.now }
    ensures some { 0 < result }
{
    let groups = config.buffers.groups.len();
    if groups == 0 { 1 } else { groups }
}

/// Why the threads of a relay ended before they had served.
fn ended(error: LiveError) -> ServeError
    ensures error { result ≡ ended_as error }
    ensures fault { IsRunFault result }
{
    match error {
        LiveError::Memory => ServeError::Memory,
        LiveError::NoThread => ServeError::NoThread,
    }
}
