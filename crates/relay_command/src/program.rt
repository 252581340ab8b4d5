//! Doing what the words ask for (docs/PROTOCOL.md, Program).
ghost use Rattle.std.specs.Prelude.{◌≡◌, ◌⊎◌, map, bytes_eq, codes, string_bytes, IfOk, IfErr};
ghost use Rattle.relay_command.specs.Adding.{HandedTo};
ghost use Rattle.relay_command.specs.Ask.{Answered};
ghost use Rattle.relay_command.specs.CommandLine.{asked};
ghost use Rattle.std.specs.Vec.Iter.{into_iter_items};
ghost use Rattle.std.specs.Io.Buffered.{writer_buffer, writer_contents, writer_inner};
ghost use Rattle.relay_command.specs.Failure.{unbegun_as};
ghost use Rattle.relay_command.specs.Gathered.{RunsGathered};
ghost use Rattle.relay_command.specs.Run.{DrillsFolder, DrillsScript, Performs, RunGives};
ghost use Rattle.relay_command.specs.Serving.{Handed, LivesRightly};
ghost use Rattle.relay_adding.specs.Telling.{AddsRightly};
ghost use Rattle.relay_command.specs.declared.failure.Failure.TheVariants as failures;
ghost use Rattle.relay_command.specs.declared.failure.Unbegun.TheVariants as begin;

use crate::add::add_in;
use crate::ask::{Form, Request, ask_in};
use crate::check::check;
use crate::command_line::{Job, read_words};
use crate::explain::explain_folder;
use crate::failure::{Failure, Unbegun};
use crate::file::read_file;
use crate::gathered::hand_on;
use crate::help::help;
use crate::load::load;
use crate::reload::reload_in;
use crate::serve::serve_in;
use crate::token::tell;
use relay_conf::Config;
use relay_drill::{DrillError, drill};
use relay_report::ServeError;
use std::alloc::Global;
use std::env::{Args, Env};
use std::fs::Files;
use std::io::{BufWriter, ErrorKind, Read, Write};
use std::random::RandomSource;
use std::{env, io};

/// The words that the program was started with, its name first.
pub fn program_words<E: Env + AllocGlobal>(rt: &E) -> Result<Vec<String>, Failure>
    ensures { IfErr result (λ failure. (failure ≡ failures.Unbegun begin.Memory)
        ⊎ (failure ≡ failures.Unbegun begin.NoText)) }
{
    let words = match env::args(rt) {
        Ok(words) => words,
        Err(error) => return Err(Failure::Unbegun(unread(error.kind()))),
    };
    collected(rt.alloc(), words)
}

/// The words in one list.
fn collected(alloc: Global, words: Args) -> Result<Vec<String>, Failure>
    ensures words { IfOk result (λ all. all.items ≡ into_iter_items words) }
    ensures memory { IfErr result (λ failure. failure ≡ failures.Unbegun begin.Memory) }
{
    match words.collect(alloc) {
        Ok(words) => Ok(words),
        Err(_) => Err(Failure::Unbegun(Unbegun::Memory)),
    }
}

/// Why the words could not be had: memory ran out, or one is no UTF-8.
fn unread(kind: ErrorKind) -> Unbegun
    ensures { result ≡ unbegun_as kind }
{
    match kind {
        ErrorKind::OutOfMemory => Unbegun::Memory,
        _ => Unbegun::NoText,
    }
}

/// Does what the words ask for, of which the first is the program's name. `reader` is standard
/// input; what is printed where nothing fails goes to standard output by `writer`, and is handed on
/// to its end before a failure is told. `rt` has the files, and seeds the core's hasher; `serve` is
/// asked to serve a relay on ports: with its configuration, the folder of its files, after how many
/// connections each port ends, and whether all buffers are formatted; it may go on with another
/// configuration that the folder has later. `add` is asked to add buffers
/// to the relay that was stopped in a folder: with its configuration, and the folder. `stand` is
/// asked to tell how the relay of a folder stands, by the same. `ask` is asked what the relay tells
/// that is served in a folder.
pub fn run<S: Files + RandomSource, R: Read, W: Write + Drop, V, D, T, A>(
    rt: &S,
    alloc: Global,
    words: &[String],
    reader: &mut R,
    writer: &mut BufWriter<W>,
    serve: V,
    add: D,
    stand: T,
    ask: A,
) -> Result<(), Failure>
where
    V: FnOnce(&Config, &str, Option<u32>, bool, &mut BufWriter<W>) -> Result<(), ServeError>,
    D: FnOnce(&Config, &str, &mut BufWriter<W>) -> Result<(), ServeError>,
    T: FnOnce(&Config, &str, &mut BufWriter<W>) -> Result<(), ServeError>,
    A: FnOnce(&str, Request) -> io::Result<Vec<u8>>,
    requires called { V.IsAlwaysCallable serve }
    requires added { D.IsAlwaysCallable add }
    requires stood { T.IsAlwaysCallable stand }
    requires asked { A.IsAlwaysCallable ask }
    requires rightly { LivesRightly (writer_contents W.contents) (V.post serve) }
    requires adds_rightly { AddsRightly (writer_contents W.contents) (D.post add) }
    ensures { RunsGathered (Handed (writer_contents W.contents) (V.post serve))
        (HandedTo (writer_contents W.contents) (D.post add))
        (HandedTo (writer_contents W.contents) (T.post stand)) (Answered (A.post ask))
        (map string_bytes words.now) result (R.remaining reader.old)
        (writer_contents W.contents writer.old) (W.contents (writer_inner writer.new))
        (writer_buffer writer.new) }
{
    let ran = obey(rt, alloc, words, reader, writer, serve, add, stand, ask);
    hand_on(ran, writer)
}

/// Does what the words ask for, or tells the help or the version that they ask for.
fn obey<S: Files + RandomSource, R: Read, W: Write, V, D, T, A>(
    rt: &S,
    alloc: Global,
    words: &[String],
    reader: &mut R,
    writer: &mut W,
    serve: V,
    add: D,
    stand: T,
    ask: A,
) -> Result<(), Failure>
where
    V: FnOnce(&Config, &str, Option<u32>, bool, &mut W) -> Result<(), ServeError>,
    D: FnOnce(&Config, &str, &mut W) -> Result<(), ServeError>,
    T: FnOnce(&Config, &str, &mut W) -> Result<(), ServeError>,
    A: FnOnce(&str, Request) -> io::Result<Vec<u8>>,
    requires called { V.IsAlwaysCallable serve }
    requires added { D.IsAlwaysCallable add }
    requires stood { T.IsAlwaysCallable stand }
    requires asked { A.IsAlwaysCallable ask }
    requires rightly { LivesRightly W.contents (V.post serve) }
    requires adds_rightly { AddsRightly W.contents (D.post add) }
    ensures { RunGives (Handed W.contents (V.post serve)) (HandedTo W.contents (D.post add))
        (HandedTo W.contents (T.post stand)) (Answered (A.post ask))
        (map string_bytes words.now) result (R.remaining reader.old) (W.contents writer.old)
        (W.contents writer.new) }
{
    match read_words(alloc, words) {
        Ok(job) => {
            let done = perform(rt, alloc, &job, reader, writer, serve, add, stand, ask);
            drop(job);
            done
        }
        Err(error) => help(alloc, error, writer),
    }
}

/// Does what is asked for.
fn perform<S: Files + RandomSource, R: Read, W: Write, V, D, T, A>(
    rt: &S,
    alloc: Global,
    job: &Job,
    reader: &mut R,
    writer: &mut W,
    serve: V,
    add: D,
    stand: T,
    ask: A,
) -> Result<(), Failure>
where
    V: FnOnce(&Config, &str, Option<u32>, bool, &mut W) -> Result<(), ServeError>,
    D: FnOnce(&Config, &str, &mut W) -> Result<(), ServeError>,
    T: FnOnce(&Config, &str, &mut W) -> Result<(), ServeError>,
    A: FnOnce(&str, Request) -> io::Result<Vec<u8>>,
    requires called { V.IsAlwaysCallable serve }
    requires added { D.IsAlwaysCallable add }
    requires stood { T.IsAlwaysCallable stand }
    requires asked { A.IsAlwaysCallable ask }
    requires rightly { LivesRightly W.contents (V.post serve) }
    requires adds_rightly { AddsRightly W.contents (D.post add) }
    ensures { Performs (Handed W.contents (V.post serve)) (HandedTo W.contents (D.post add))
        (HandedTo W.contents (T.post stand)) (Answered (A.post ask))
        (asked job.now) result (R.remaining reader.old) (W.contents writer.old)
        (W.contents writer.new) }
{
    match job {
        Job::Drill {
            folder,
            script,
            reasons,
        } => drill_in(rt, alloc, folder, script, *reasons, reader, writer),
        Job::Check(folder) => check(rt, alloc, folder, writer, stand),
        Job::Explain { folder, question } => explain_folder(rt, alloc, folder, question, writer),
        Job::Token(text) => tell(text.as_bytes(), writer),
        Job::Serve {
            folder,
            sessions,
            fresh,
        } => serve_in(rt, alloc, folder, *sessions, *fresh, writer, serve),
        Job::Stop(folder) => ask_in(alloc, folder, Request::Stop, Form::Told, writer, ask),
        Job::Report { folder, form } => {
            ask_in(alloc, folder, Request::Report, *form, writer, ask)
        }
        Job::Pause(folder) => ask_in(alloc, folder, Request::Pause, Form::Told, writer, ask),
        Job::Go(folder) => ask_in(alloc, folder, Request::Go, Form::Told, writer, ask),
        Job::Reload(folder) => reload_in(rt, alloc, folder, writer, ask),
        Job::Clash => Err(Failure::Clash),
        Job::Add(folder) => add_in(rt, alloc, folder, writer, add),
    }
}

/// Runs a script with the configuration in a folder, which is read first, and tells the reasons for
/// which articles are refused or not.
fn drill_in<S: Files + RandomSource, R: Read, W: Write>(
    rt: &S,
    alloc: Global,
    folder: &str,
    script: &str,
    reasons: bool,
    reader: &mut R,
    writer: &mut W,
) -> Result<(), Failure>
    ensures { DrillsFolder folder.now script.now reasons result (R.remaining reader.old)
        (W.contents writer.old) (W.contents writer.new) }
{
    let config = match load(rt, alloc, folder) {
        Ok(config) => config,
        Err(error) => return Err(Failure::Check(error)),
    };
    match drill_script(rt, alloc, config, script, reasons, reader, writer) {
        Ok(()) => Ok(()),
        Err(error) => Err(Failure::Drill(error)),
    }
}

/// Runs a script with a configuration. A file is read whole, and then drilled.
fn drill_script<S: Files + RandomSource, R: Read, W: Write>(
    rt: &S,
    alloc: Global,
    config: Config,
    script: &str,
    reasons: bool,
    reader: &mut R,
    writer: &mut W,
) -> Result<(), DrillError>
    ensures { DrillsScript config script.now reasons result (R.remaining reader.old)
        (W.contents writer.old) (W.contents writer.new) }
{
    if is_standard_input(script) {
        return drill(rt, alloc, config, reasons, reader, writer);
    }
    match read_file(rt, alloc, script) {
        Ok(text) => drill(rt, alloc, config, reasons, &mut text.as_slice(), writer),
        Err(error) => {
            drop(config);
            Err(error)
        }
    }
}

/// Whether the script is the name of standard input.
fn is_standard_input(script: &str) -> bool
    ensures { result ≡ bytes_eq script.now (codes "stdin") }
{
    script == "stdin"
}
