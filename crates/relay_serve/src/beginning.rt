//! A relay is begun over its files, run, and its history kept.
ghost use Rattle.std.specs.Prelude.{◌≡◌, ◌<◌, ◌^◌, IfErr, IfOk, length, map};
ghost use Rattle.file_blocks.specs.Store.{count_of};
ghost use Rattle.relay_report.specs.Serve.{AreOf, ServeGives};
ghost use Rattle.relay_serve.specs.RunTotals.{totals_in};
ghost use Rattle.relay_devices.specs.Watched.{store_in};
ghost use Rattle.buffer_files.specs.Faults.{IsServeFault};

use crate::keeping::keep_finished;
use crate::running::{Finished, Records, Surroundings, channels_of, run_relay};
use buffer_files::{Beginning, Unbegun, begin_over};
use file_blocks::FileBlocks;
use live_journal::PendingJournal;
use live_store::ArticleLog;
use live_wire::Port;
use news_log::{NewsFile, NewsLines, NewsWriting};
use post_history::Opened;
use relay_ages::AgesDesk;
use relay_attendant::{Attendant, MachineClock, Writers};
use relay_conf::Config;
use relay_devices::{Watched, watch};
use relay_folder::{HistoryPlace, JournalFile, JournalPlace, Origin};
use relay_gate::CountingGate;
use relay_journal::{
    BegunJournal, JournalLines, JournalWriter, Journaling, PrintedLines, ROOM, ToldJournal,
    begin_journal,
};
use relay_live::PeerSource;
use relay_recovery::{HistoryPlaces, begin_again};
use relay_report::{ServeError, Totals, print_totals};
use relay_startup::{complete_first, stop_begun};
use std::alloc::Global;
use std::fs::{File, Files};
use std::io::Write;
use std::marker::Brand;
use std::random::RandomSource;
use std::sync::Wait;
use std::sync::ledger::Blank;
use std::thread::Threads;
use std::time::Clock;

/// How a relay is had from outside.
#[derive(Drop)]
pub(crate) struct Access<'a, N, M, G> {
    /// The ports of its peers.
    pub(crate) peer_sources: Vec<PeerSource<Port<'a>>>,
    pub(crate) gate: &'a CountingGate<'a>,
    pub(crate) desk: &'a Attendant<'a>,
    /// What writes its news log, where it has one.
    pub(crate) news: Option<NewsWriting<'a, N, M>>,
    /// Where the marks of its buffers are kept.
    pub(crate) ages: G,
}

/// Finds out what the relay begins from, runs it, keeps its history once all that its stores were
/// given is on their devices, and writes the report. Where there is no memory for the totals the
/// history is kept all the same.
pub(crate) fn begin_and_run<
    R,
    N: NewsFile + Drop + Send,
    M: NewsLines + Drop + Send,
    G: HistoryPlace + Drop + Send,
    H: HistoryPlace,
    K: HistoryPlace,
    P: JournalPlace,
    L: JournalLines,
    W: Write,
>(
    rt: &R,
    alloc: Global,
    config: &Config,
    unbegun: Unbegun,
    places: &mut HistoryPlaces<H, K>,
    journal: &mut ToldJournal<P, L>,
    access: Access<'_, N, M, G>,
    writer: &mut W,
) -> Result<(), ServeError>
where
    R: Threads + Wait + Clock + Eprint + Files<File = File> + RandomSource + Sync,
    requires stores { map count_of unbegun.stores.items
        ≡ map (λ buffer. buffer.blocks) config.now.buffers.buffers.items }
    requires few { length access.peer_sources.items < 2 ^ 62 }
    ensures { ServeGives config.now result (W.contents writer.old) (W.contents writer.new) }
{
    let place = &mut journal.place;
    let begun = match begin_over(alloc, &config.buffers, &mut places.history, place, unbegun) {
        Ok(begun) => begun,
        Err(error) => {
            drop(access);
            return Err(error);
        }
    };
    let finished = run_begun(rt, alloc, config, begun, places, journal, access)?;
    let totals = keep_finished(&mut places.history, finished)?;
    tell_counted(rt, &totals);
    let printed = print_totals(alloc, &totals, writer);
    drop(totals);
    printed
}

/// Tells of how many kept articles the receipt was not the writer's, where there is any.
fn tell_counted<R: Eprint>(rt: &R, totals: &Totals) {
    let mismatched = totals.mismatched_receipts;
    if mismatched > 0 {
        let _lost = eprintln!(rt; "counted mismatched={mismatched}");
    }
}

/// Tells that the relay starts from what it was stopped with, where it does.
fn tell_start<R: Eprint>(rt: &R, origin: &Origin) {
    if let Origin::Stopped(text) = origin {
        let _lost = eprintln!(rt; "starting history={}", text.len());
    }
}

/// Runs the relay over what was opened, each store watched: a first start that was cut short is
/// completed, and a relay that was left without a stop repaired first; then a journal of the stop
/// that is gone on from is begun. Nothing says that a file of the machine is honest, so nothing is
/// promised of what the stores give.
fn run_begun<
    'a,
    R,
    N: NewsFile + Drop + Send,
    M: NewsLines + Drop + Send,
    G: HistoryPlace + Drop + Send,
    H: HistoryPlace,
    K: HistoryPlace,
    P: JournalPlace,
    L: JournalLines,
>(
    rt: &'a R,
    alloc: Global,
    config: &'a Config,
    begun: Beginning<FileBlocks>,
    places: &mut HistoryPlaces<H, K>,
    journal: &mut ToldJournal<P, L>,
    access: Access<'_, N, M, G>,
) -> Result<Finished<Watched<'a, FileBlocks, R>>, ServeError>
where
    R: Threads + Wait + Clock + Eprint + Files<File = File> + RandomSource + Sync,
    requires stores { map count_of begun.stores.items
        ≡ map (λ buffer. buffer.blocks) config.now.buffers.buffers.items }
    requires few { length access.peer_sources.items < 2 ^ 62 }
    ensures totals { IfOk result (λ run. IfOk (totals_in run.totals) (AreOf config.now)) }
    ensures fault { IfErr result (IsServeFault config.now) }
{
    let watched = watch(rt, &config.buffers, begun)?;
    let completed = complete_first(alloc, config, watched)?;
    let begun = begin_again(rt, alloc, config, places, journal, completed, access.desk)?;
    tell_start(rt, &begun.origin);
    let stop = stop_begun(alloc, config, &begun.origin)?;
    let begun_journal = begin_journal(alloc, journal, stop)?;
    run_watched(rt, alloc, config, begun, begun_journal, access)
}

/// Runs the relay over stores that are watched, by the machine's clock. Where no journal was begun
/// there is no room for what is said to it.
fn run_watched<
    'a,
    R,
    N: NewsFile + Drop + Send,
    M: NewsLines + Drop + Send,
    G: HistoryPlace + Drop + Send,
    O: JournalFile + Drop + Send,
>(
    rt: &'a R,
    alloc: Global,
    config: &'a Config,
    beginning: Beginning<Watched<'a, FileBlocks, R>>,
    begun_journal: Option<BegunJournal<O>>,
    access: Access<'_, N, M, G>,
) -> Result<Finished<Watched<'a, FileBlocks, R>>, ServeError>
where
    R: Threads + Wait + Clock + Eprint + Files<File = File> + RandomSource + Sync,
    requires stores { map count_of (map store_in beginning.stores.items)
        ≡ map (λ buffer. buffer.blocks) config.now.buffers.buffers.items }
    requires few { length access.peer_sources.items < 2 ^ 62 }
    ensures totals { IfOk result (λ run. IfOk (totals_in run.totals) (AreOf config.now)) }
    ensures fault { IfErr result (IsServeFault config.now) }
{
    let register = ArticleLog::new(alloc)?;
    let clock = MachineClock::new(rt);
    let room = if begun_journal.is_some() { ROOM } else { 0 };
    let pending = PendingJournal::new(alloc, room)?;
    let journaling = match begun_journal {
        Some(begun) => {
            let writer = JournalWriter::new(begun, PrintedLines::new(rt));
            Some(Journaling::new(alloc, writer, &pending, config.relay.sync)?)
        }
        None => None,
    };
    let news = access.news;
    let ages = AgesDesk::begun(rt, alloc, config, access.ages, &beginning.origin)?;
    run_relay::<Watched<'a, FileBlocks, R>, Brand, Brand, O, PrintedLines<'a, R>, N, M, G, R>(
        rt,
        alloc,
        config,
        beginning,
        Records {
            register: &register,
            blank: Blank::new(channels_of(config) as u64),
            opened: Opened::new(),
        },
        access.peer_sources,
        Surroundings {
            clock: &clock,
            gate: access.gate,
            side: access.desk,
            ages: &ages,
            pending: &pending,
            writers: Writers { journaling, news },
        },
    )
}
