//! A relay is served on the ports of the machine, over its files.
ghost use Rattle.std.specs.Prelude.{◌≡◌, ◌<◌, ◌^◌, ◌⊎◌, All, IfErr, IfOk, length, map};
ghost use Rattle.buffer_files.specs.Files.{IsFileFault};
ghost use Rattle.relay_ports.specs.Callers.{AreCallers, HasCallers};
ghost use Rattle.relay_ports.specs.Ports.{IsPortFault};
ghost use Rattle.relay_report.specs.Serve.{ServeGives};
ghost use Rattle.relay_report.specs.declared.fault.ServeError.TheVariants as faults;
ghost use Rattle.file_blocks.specs.Store.{count_of};

use crate::beginning::{Access, begin_and_run};
use buffer_files::{Unbegun, fill_streams, fit_files, hold_files};
use live_wire::{Callers, Port, Stop};
use news_log::{HostNews, NewsFile, NewsLines, NewsWriting, Opening};
use relay_attendant::{Attendant, KeepingNet, KeptOpen};
use relay_conf::Config;
use relay_devices::{Syncing, open_syncing};
use relay_folder::{Filing, HistoryPlace, HostHistory, HostJournal, JournalPlace};
use relay_gate::{CountingGate, News, pending_of, writing_of};
use relay_journal::{JournalLines, PrintedLines, ToldJournal};
use relay_live::PeerSource;
use relay_ports::{callers_of, open_doors, open_ports};
use relay_recovery::{HistoryPlaces, places_in};
use relay_report::ServeError;
use std::alloc::Global;
use std::fs::{File, Files};
use std::io::{ErrorKind, Write};
use std::net::{Net, TcpListener, TcpStream};
use std::random::RandomSource;
use std::sync::Wait;
use std::thread::Threads;
use std::time::Clock;

/// Serves a relay of this configuration on the ports of the machine, over its files, until it is
/// told to stop, or to go on with another configuration: the files are opened and locked first, in
/// the order of the buffers, those whose path is relative in the folder, then the ports are had, in
/// the order of the peers, then the files are made as long as they have to be, and last comes the
/// socket in the folder by which it is asked. Sockets that an earlier life has left open are had
/// again. Then it begins: from nothing where that is asked for (`fresh`), or where neither a
/// history nor a buffer was kept there, else from what it was stopped with. Once it was told to
/// stop, or each port has served so many connections, it is stopped, its history is kept, and the
/// report is written. What it does is told in lines on standard error.
pub fn serve_on<R, W: Write>(
    rt: &R,
    alloc: Global,
    config: &Config,
    folder: &str,
    sessions: Option<u32>,
    fresh: bool,
    kept: &KeptOpen,
    writer: &mut W,
) -> Result<(), ServeError>
where
    R: Threads
        + Wait
        + Net<Listener = TcpListener, Stream = TcpStream>
        + Files<File = File>
        + Filing
        + Opening
        + Clock
        + Eprint
        + RandomSource
        + Sync,
    ensures { ServeGives config.now result (W.contents writer.old) (W.contents writer.new) }
{
    fill_streams(rt);
    let mut places = places_in(rt, alloc, folder)?;
    let mut journal = ToldJournal {
        place: HostJournal::in_folder(rt, alloc, folder)?,
        lines: PrintedLines::new(rt),
    };
    let ages = HostHistory::of_ages(rt, alloc, folder)?;
    let lines = pending_of(alloc, &config.relay)?;
    let logged = News::of(&config.relay, &lines);
    let gate = CountingGate::new(alloc, &config.relay.peers, logged)?;
    let writing = writing_of(rt, alloc, folder, logged, HostNews::unnamed(rt))?;
    let callers = callers_of(alloc, &config.relay)?;
    let stop = Stop::new();
    let asked = Asked {
        folder,
        sessions,
        fresh,
        callers: &callers,
        kept,
    };
    let answer = open_and_run(
        rt,
        alloc,
        config,
        &asked,
        &stop,
        &gate,
        writing,
        ages,
        &mut places,
        &mut journal,
        writer,
    );
    drop(journal);
    drop(places);
    drop(gate);
    drop(lines);
    drop(callers);
    drop(stop);
    if kept.end_life(rt, alloc, folder) && answer.is_ok() {
        tell_stopped(rt);
    }
    answer
}

/// Tells that a relay was served, and has stopped.
fn tell_stopped<R: Eprint>(rt: &R) {
    let _lost = eprintln!(rt; "stopped");
}

/// How a relay is to be served.
#[derive(Drop)]
struct Asked<'a> {
    /// Its folder.
    folder: &'a str,
    /// How many connections each port takes.
    sessions: Option<u32>,
    /// Whether it is to begin from nothing.
    fresh: bool,
    /// Who may connect to the port of each peer.
    callers: &'a [Callers<'a>],
    /// What stays open when it has ended.
    kept: &'a KeptOpen,
}

/// Opens what a relay is served over, last the socket by which it is asked, where that isn't open,
/// and runs the relay.
fn open_and_run<
    R,
    N: NewsFile + Drop + Send,
    M: NewsLines + Drop + Send,
    G: HistoryPlace + Drop + Send,
    H: HistoryPlace,
    K: HistoryPlace,
    P: JournalPlace,
    L: JournalLines,
    W: Write,
>(
    rt: &R,
    alloc: Global,
    config: &Config,
    asked: &Asked<'_>,
    stop: &Stop,
    gate: &CountingGate<'_>,
    news: Option<NewsWriting<'_, N, M>>,
    ages: G,
    places: &mut HistoryPlaces<H, K>,
    journal: &mut ToldJournal<P, L>,
    writer: &mut W,
) -> Result<(), ServeError>
where
    R: Threads
        + Wait
        + Net<Listener = TcpListener, Stream = TcpStream>
        + Files<File = File>
        + Clock
        + Eprint
        + RandomSource
        + Sync,
    requires { AreCallers config.now.relay asked.now.callers.now }
    ensures { ServeGives config.now result (W.contents writer.old) (W.contents writer.new) }
{
    let (unbegun, peer_sources, syncing) = open_all(rt, alloc, config, asked, stop)?;
    let Ok(doors) = open_doors(alloc, &peer_sources, asked.sessions) else {
        return Err(ServeError::Memory);
    };
    match asked.kept.questions_in(rt, alloc, asked.folder) {
        Ok(questions) => {
            let desk = Attendant::new(alloc, stop, gate, asked.kept, questions, doors, syncing);
            tell_serving(rt, peer_sources.len(), unbegun.stores.len());
            let access = Access {
                peer_sources,
                gate,
                desk: &desk,
                news,
                ages,
            };
            let answer = begin_and_run(rt, alloc, config, unbegun, places, journal, access, writer);
            drop(desk);
            answer
        }
        Err(error) => {
            drop(ages);
            drop(news);
            drop(doors);
            drop(syncing);
            drop(peer_sources);
            drop(unbegun);
            Err(unasked(error.kind()))
        }
    }
}

/// Why there is no socket by which a relay is asked.
fn unasked(kind: ErrorKind) -> ServeError
    ensures { (result ≡ faults.Memory) ⊎ (result ≡ faults.Control) }
{
    match kind {
        ErrorKind::OutOfMemory => ServeError::Memory,
        _ => ServeError::Control,
    }
}

/// Has the files of the buffers, each once more where they are flushed meanwhile, then the ports of
/// the peers, and then makes the files as long as they have to be.
fn open_all<'a, R>(
    rt: &R,
    alloc: Global,
    config: &'a Config,
    asked: &Asked<'a>,
    stop: &'a Stop,
) -> Result<(Unbegun, Vec<PeerSource<Port<'a>>>, Option<Syncing<'a>>), ServeError>
where
    R: Wait + Net<Listener = TcpListener, Stream = TcpStream> + Files<File = File>,
    requires { AreCallers config.now.relay asked.now.callers.now }
    ensures callers { IfOk result (λ opened.
        All (HasCallers config.now.relay.allows.items) opened.1.items) }
    ensures stores { IfOk result (λ opened. map count_of opened.0.stores.items
        ≡ map (λ buffer. buffer.blocks) config.now.buffers.buffers.items) }
    ensures few { IfOk result (λ opened. length opened.1.items < 2 ^ 62) }
    ensures fault { IfErr result (λ error. IsFileFault config.now.buffers error
        ⊎ IsPortFault config.now.relay.peers.items error) }
{
    let files = hold_files(rt, alloc, &config.buffers, asked.folder)?;
    let syncing = open_syncing(rt, alloc, config, asked.folder, &files)?;
    let (relay, sessions) = (&config.relay, asked.sessions);
    asked.kept.sockets.begin(rt);
    let net = KeepingNet::new(rt, &asked.kept.sockets);
    let peer_sources = open_ports(&net, alloc, relay, sessions, asked.callers, stop)?;
    let stores = fit_files(alloc, &config.buffers, files)?;
    let unbegun = Unbegun {
        stores,
        fresh: asked.fresh,
    };
    Ok((unbegun, peer_sources, syncing))
}

/// Tells that a relay is served, at so many ports, over so many buffers.
fn tell_serving<R: Eprint>(rt: &R, ports: usize, buffers: usize) {
    let _lost = eprintln!(rt; "serving ports={ports} buffers={buffers}");
}
