//! cnrelay, the incoming side of a Netnews transit server: it serves peers on ports, over files; it
//! runs a drill, a script of events, over memory, and prints what the relay answers; it says how
//! much a configuration has and how its relay stands, or its first fault, and what a token stands
//! for; it adds buffers to a relay that was stopped, and asks one that is served to end, to take no
//! new articles for now, to go on with its configuration as it is now, or for its report.
//!
//! What it does with its words is a promise of `relay_command`, what serves of `relay_serve` and
//! `relay_lives`, and what adds and looks of `relay_startup`. Here the calls of the first are handed the words, the
//! streams and the files of the system, the calls of the others and what asks, and nothing is
//! decided.
#![tactic(auto)]

use news_log::Opening;
use relay_check::{add_on, stand_on};
use relay_command::{
    Failure, Request, exit_code, gathering, hint, print_failure, program_words, run,
};
use relay_folder::{Filing, Word, ask};
use relay_lives::{Living, serve_lives};
use std::alloc::Global;
use std::env::Env;
use std::fs::{File, Files};
use std::io;
use std::io::{IsTerminal, Write};
use std::net::{Net, TcpListener, TcpStream};
use std::process::ExitCode;
use std::random::RandomSource;
use std::sync::Wait;
use std::thread::Threads;
use std::time::Clock;

fn main(rt: HostRuntime) -> ExitCode {
    let host = Host::new(rt);
    let ran = run_here(&host, &mut host.rt.stderr());
    let _unseen = print_failure(&ran, &mut host.rt.stderr());
    exit_code(&ran)
}

/// The system, and what serves a relay on it, one life after the other.
#[derive(Drop)]
struct Host<R> {
    rt: R,
    living: Living,
}

impl<R: AllocGlobal> Host<R> {
    /// Before any life.
    fn new(rt: R) -> Host<R> {
        let living = Living::new(rt.alloc());
        Host { rt, living }
    }
}

/// Does what the words of the system ask for, over its streams, files and ports. What could not be
/// handed on to standard output is let go of, and not written when its writer is. `errors` is
/// standard error.
fn run_here<R, E: Write + IsTerminal>(host: &Host<R>, errors: &mut E) -> Result<(), Failure>
where
    R: AllocGlobal
        + Env
        + Files<File = File>
        + Filing
        + Opening
        + Input
        + Print
        + Eprint
        + Clock
        + RandomSource
        + Net<Listener = TcpListener, Stream = TcpStream>
        + Threads
        + Wait
        + Sync,
{
    let rt = &host.rt;
    let alloc = rt.alloc();
    let words = program_words(rt)?;
    let _unseen = hint(&words, errors.is_terminal(), errors);
    let mut output = gathering(alloc, io::writer(rt))?;
    let ran = run(
        rt,
        alloc,
        &words,
        &mut rt.reader(),
        &mut output,
        move |config, folder, sessions, fresh, writer| serve_lives(
            &host.rt,
            alloc,
            config,
            folder,
            sessions,
            fresh,
            writer,
            &host.living,
        ),
        move |config, folder, writer| add_on(rt, alloc, config, folder, writer),
        move |config, folder, writer| stand_on(rt, alloc, config, folder, writer),
        move |folder, request| ask_there(rt, alloc, folder, request),
    );
    let (_device, _unwritten) = output.into_parts();
    ran
}

/// What the relay tells that is served in a folder.
fn ask_there<N: Net>(
    net: &N,
    alloc: Global,
    folder: &str,
    request: Request,
) -> io::Result<Vec<u8>> {
    let word = match request {
        Request::Stop => Word::Stop,
        Request::Report => Word::Report,
        Request::Pause => Word::Pause,
        Request::Go => Word::Go,
        Request::Reload => Word::Reload,
    };
    ask(net, alloc, folder, word)
}
