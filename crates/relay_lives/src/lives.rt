//! Serving a relay, one life after the other.
ghost use Rattle.std.specs.Prelude.{◌≡◌, IfErr, false, true, unwrap_or};
ghost use Rattle.relay_adding.specs.Telling.{IsAddFault};
ghost use Rattle.relay_command.specs.Check.{IsIn};
ghost use Rattle.relay_command.specs.Serving.{LivesGive};
ghost use Rattle.relay_lives.specs.Lives.{IsToldRefused, Lived, Served, Serves, TurnGives};
ghost use Rattle.relay_lives.specs.Lives.{anybody};
ghost use Rattle.relay_report.specs.Serve.{ServeGives};

use news_log::Opening;
use relay_attendant::KeptOpen;
use relay_check::add_between;
use relay_command::{Failure, load_config, told_text};
use relay_conf::Config;
use relay_folder::Filing;
use relay_report::ServeError;
use relay_serve::serve_on;
use std::alloc::Global;
use std::fs::{File, Files};
use std::io::Write;
use std::net::{Net, TcpListener, TcpStream};
use std::random::RandomSource;
use std::sync::Wait;
use std::sync::atomic::{AtomicUsize, Ordering};
use std::thread::Threads;
use std::time::Clock;

/// What goes on from one life of a relay to the next.
#[derive(Drop)]
pub struct Living {
    /// What stays open.
    kept: KeptOpen,
    /// With how many buffers the last life was served that ended well; 0 before there was one.
    buffers: AtomicUsize,
}

impl Living {
    /// Before any life.
    pub fn new(alloc: Global) -> Living {
        Living {
            kept: KeptOpen::new(alloc),
            buffers: AtomicUsize::new(0),
        }
    }
}

/// Serves one life, with a configuration.
fn serve<R, W: Write>(
    rt: &R,
    alloc: Global,
    config: &Config,
    folder: &str,
    sessions: Option<u32>,
    fresh: bool,
    writer: &mut W,
    lives: &Living,
) -> Result<(), ServeError>
where
    R: Files<File = File>
        + Filing
        + Opening
        + Eprint
        + Clock
        + RandomSource
        + Net<Listener = TcpListener, Stream = TcpStream>
        + Threads
        + Wait
        + Sync,
    ensures gives { ServeGives config.now result (W.contents writer.old) (W.contents writer.new) }
    ensures comes { anybody.serves config.now folder.now sessions fresh result
        (W.contents writer.old) (W.contents writer.new) }
{
    let served = serve_life(rt, alloc, config, folder, sessions, fresh, writer, lives);
    if served.is_ok() {
        lives
            .buffers
            .store(config.buffers.buffers.len(), Ordering::SeqCst);
    }
    served
}

/// Whether somebody has asked that another life follow, and hasn't been told what came of it.
fn is_asked<R: Wait>(rt: &R, lives: &Living) -> bool
    ensures { anybody.asked result }
{
    lives.kept.reloads.is_asked(rt)
}

/// Tells whoever has asked why the relay can't go on with the configuration that its folder has now;
/// whether it goes on as it was: not where that life had begun to be served before it failed.
fn goes_on<R: Eprint + Clock + Wait>(rt: &R, alloc: Global, why: &Failure, lives: &Living) -> bool
    ensures { anybody.told why.now result }
{
    let goes_on = match told_text(alloc, why) {
        Ok(text) => lives.kept.reloads.tell(rt, &text),
        Err(_) => lives.kept.reloads.tell(rt, b"out of memory\n"),
    };
    if goes_on {
        let _unseen = eprintln!(rt; "refused for=reload\n{why}");
    }
    goes_on
}

/// Serves a life of a relay, once the files of the buffers are made that it has behind those of the
/// last.
#[tactic(auto, using(crate::proofs::Added::add_gives))]
fn serve_life<R, W: Write>(
    rt: &R,
    alloc: Global,
    config: &Config,
    folder: &str,
    sessions: Option<u32>,
    fresh: bool,
    writer: &mut W,
    lives: &Living,
) -> Result<(), ServeError>
where
    R: Files<File = File>
        + Filing
        + Opening
        + Eprint
        + Clock
        + RandomSource
        + Net<Listener = TcpListener, Stream = TcpStream>
        + Threads
        + Wait
        + Sync,
    ensures { ServeGives config.now result (W.contents writer.old) (W.contents writer.new) }
{
    match add_more(
        rt,
        alloc,
        config,
        folder,
        lives.buffers.load(Ordering::SeqCst),
    ) {
        Ok(()) => {
            serve_on(
                rt,
                alloc,
                config,
                folder,
                sessions,
                fresh,
                &lives.kept,
                writer,
            )
        }
        Err(error) => Err(error),
    }
}

/// Makes the files of the buffers that the next life of a relay has behind those of the last, which
/// were so many, and tells of each; nothing before a first life.
fn add_more<R: Files<File = File> + Filing + Eprint>(
    rt: &R,
    alloc: Global,
    config: &Config,
    folder: &str,
    served: usize,
) -> Result<(), ServeError>
    ensures { IfErr result (IsAddFault config.now) }
{
    if served == 0 || config.buffers.buffers.len() <= served {
        return Ok(());
    }
    let text = add_between(rt, alloc, config, folder, served)?;
    if let Ok(lines) = str::from_utf8(&text) {
        if lines.starts_with("added ") {
            let _unseen = eprint!(rt; "{lines}");
        }
    }
    Ok(())
}

/// Serves a relay with this configuration, and then, as long as that is asked for once a life has
/// ended well, with the configuration that its folder has by then; where that can't be had, or a
/// life with it is refused before it is served, the relay goes on with the one before. Only the
/// first life formats all buffers where that is asked for.
pub fn serve_lives<R, W: Write>(
    rt: &R,
    alloc: Global,
    config: &Config,
    folder: &str,
    sessions: Option<u32>,
    fresh: bool,
    writer: &mut W,
    lives: &Living,
) -> Result<(), ServeError>
where
    R: Files<File = File>
        + Filing
        + Opening
        + Eprint
        + Clock
        + RandomSource
        + Net<Listener = TcpListener, Stream = TcpStream>
        + Threads
        + Wait
        + Sync,
    ensures lived { Lived anybody folder.now sessions (Serves config.now fresh) result
        (W.contents writer.old) (W.contents writer.new) }
    ensures gives { LivesGive (IsIn folder.now) config.now result (W.contents writer.old)
        (W.contents writer.new) }
{
    match serve(rt, alloc, config, folder, sessions, fresh, writer, lives) {
        Ok(()) => serve_others(rt, alloc, config, folder, sessions, writer, lives),
        Err(error) => Err(error),
    }
}

/// Serves those that follow a life with this configuration that has ended well.
fn serve_others<R, W: Write>(
    rt: &R,
    alloc: Global,
    config: &Config,
    folder: &str,
    sessions: Option<u32>,
    writer: &mut W,
    lives: &Living,
) -> Result<(), ServeError>
where
    R: Files<File = File>
        + Filing
        + Opening
        + Eprint
        + Clock
        + RandomSource
        + Net<Listener = TcpListener, Stream = TcpStream>
        + Threads
        + Wait
        + Sync,
    ensures { Lived anybody folder.now sessions (Served config.now) result
        (W.contents writer.old) (W.contents writer.new) }
{
    let mut other = None;
    'lives: for _ in rt.forever() {
        if !is_asked(rt, lives) {
            return Ok(());
        }
        let now = going_on(config, &other);
        let next = match serve_next(rt, alloc, now, folder, sessions, writer, lives) {
            Ok(next) => next,
            Err(error) => return Err(error),
        };
        other = next.or(other);
    }
    unreachable!()
}

/// The configuration with which a relay goes on: the one that it began with, until there is
/// another.
fn going_on<'a>(config: &'a Config, other: &'a Option<Config>) -> &'a Config
    ensures { result.now ≡ unwrap_or other.now config.now }
{
    match other {
        Some(other) => other,
        None => config,
    }
}

/// Behind a life with this configuration that has ended well, serves one with that in the folder,
/// or another with this one where that can't be had or is refused. Where the relay goes on with
/// another configuration, it is given.
fn serve_next<R, W: Write>(
    rt: &R,
    alloc: Global,
    config: &Config,
    folder: &str,
    sessions: Option<u32>,
    writer: &mut W,
    lives: &Living,
) -> Result<Option<Config>, ServeError>
where
    R: Files<File = File>
        + Filing
        + Opening
        + Eprint
        + Clock
        + RandomSource
        + Net<Listener = TcpListener, Stream = TcpStream>
        + Threads
        + Wait
        + Sync,
    ensures { anybody.asked true → TurnGives anybody folder.now sessions
        (Served config.now) config.now result (W.contents writer.old) (W.contents writer.new) }
{
    match load_config(rt, alloc, folder) {
        Ok(next) => serve_changed(rt, alloc, config, next, folder, sessions, writer, lives),
        Err(error) => {
            let _either = goes_on(rt, alloc, &Failure::Check(error), lives);
            serve_again(rt, alloc, config, folder, sessions, writer, lives)
        }
    }
}

/// Serves a life with the next configuration, or another with this one where that is refused.
fn serve_changed<R, W: Write>(
    rt: &R,
    alloc: Global,
    config: &Config,
    next: Config,
    folder: &str,
    sessions: Option<u32>,
    writer: &mut W,
    lives: &Living,
) -> Result<Option<Config>, ServeError>
where
    R: Files<File = File>
        + Filing
        + Opening
        + Eprint
        + Clock
        + RandomSource
        + Net<Listener = TcpListener, Stream = TcpStream>
        + Threads
        + Wait
        + Sync,
    ensures { anybody.asked true → IsIn folder.now next
        → TurnGives anybody folder.now sessions (Served config.now) config.now result
        (W.contents writer.old) (W.contents writer.new) }
{
    match serve(rt, alloc, &next, folder, sessions, false, writer, lives) {
        Ok(()) => Ok(Some(next)),
        Err(error) => {
            drop(next);
            match tell_refused(rt, alloc, error, lives) {
                Ok(()) => serve_again(rt, alloc, config, folder, sessions, writer, lives),
                Err(error) => Err(error),
            }
        }
    }
}

/// Tells why a life failed; the error again where the relay doesn't go on as it was.
fn tell_refused<R: Eprint + Clock + Wait>(
    rt: &R,
    alloc: Global,
    error: ServeError,
    lives: &Living,
) -> Result<(), ServeError>
    ensures { IsToldRefused anybody error result }
{
    let failure = Failure::Serve(error);
    if goes_on(rt, alloc, &failure, lives) {
        drop(failure);
        return Ok(());
    }
    match failure.into_served() {
        Some(error) => Err(error),
        None => unreachable!(),
    }
}

/// Goes on as it was: serves another life with this configuration.
fn serve_again<R, W: Write>(
    rt: &R,
    alloc: Global,
    config: &Config,
    folder: &str,
    sessions: Option<u32>,
    writer: &mut W,
    lives: &Living,
) -> Result<Option<Config>, ServeError>
where
    R: Files<File = File>
        + Filing
        + Opening
        + Eprint
        + Clock
        + RandomSource
        + Net<Listener = TcpListener, Stream = TcpStream>
        + Threads
        + Wait
        + Sync,
    ensures { TurnGives anybody folder.now sessions (Serves config.now false)
        config.now result (W.contents writer.old) (W.contents writer.new) }
{
    match serve(rt, alloc, config, folder, sessions, false, writer, lives) {
        Ok(()) => Ok(None),
        Err(error) => Err(error),
    }
}
