//! Reading the program's words (docs/PROTOCOL.md, Commands).
ghost use Rattle.std.specs.Prelude.{◌≡◌, map, option_and_then, string_bytes, None};
ghost use Rattle.std.specs.Prelude.{IfOk, Some, bytes_eq};
ghost use Rattle.clap.specs.Words.{found_of, one_of, rows_of, subcommand_rows_of};
ghost use Rattle.relay_command.specs.CommandLine.{ReadsWords, asked, asked_by};
ghost use Rattle.relay_command.specs.CommandLine.{word_given};
ghost use Rattle.relay_command.specs.CommandLine.{Explains, Serves, drills_in};
ghost use Rattle.relay_command.specs.CommandLine.{flag_given, form_given, fresh_given};
ghost use Rattle.relay_command.specs.CommandLine.{reports_in, sessions_given, two_given};
ghost use Rattle.relay_command.specs.Numbers.{number_of};
ghost use Rattle.relay_command.specs.Questions.{question_given};

use crate::ask::Form;
use crate::question::{Question, question_in};
use crate::words::command;
use clap::{ArgMatches, Error};
use std::alloc::{AllocError, Global};

/// What the words ask for.
#[derive(Drop)]
pub enum Job {
    /// To run a script with the configuration in this folder, or the built-in one, and tell the
    /// reasons for which articles are refused or not.
    Drill {
        folder: String,
        script: String,
        reasons: bool,
    },
    /// To read the configuration in this folder, or the built-in one, and say what it has.
    Check(String),
    /// To say what the configuration in this folder does, or the built-in one; or where an article
    /// goes by it.
    Explain {
        folder: String,
        question: Option<Question>,
    },
    /// To say what this text of a token stands for.
    Token(String),
    /// To serve the configuration in this folder, or the built-in one, on its peers' ports: each
    /// until it has served so many connections, or without an end; from its files, or with all
    /// buffers formatted.
    Serve {
        folder: String,
        sessions: Option<u32>,
        fresh: bool,
    },
    /// To have the relay end that is served in this folder.
    Stop(String),
    /// To print the report of the relay that is served in this folder, in this form.
    Report {
        folder: String,
        form: Form,
    },
    /// To have the relay that is served in this folder take no new articles for now.
    Pause(String),
    /// To have it take them again.
    Go(String),
    /// To have the relay that is served in this folder go on with the configuration there.
    Reload(String),
    /// To print a report in two forms, which isn't done.
    Clash,
    /// To make the files of the buffers that the configuration in this folder, or the built-in one,
    /// has behind those of the relay that was stopped there.
    Add(String),
}

/// Reads the words, the program's name first. Without further words they ask for a drill.
pub fn read_words(alloc: Global, words: &[String]) -> Result<Job, Error>
    ensures { ReadsWords (map string_bytes words.now) result }
{
    match command(alloc)?.try_get_matches_from(words) {
        Ok(matches) => {
            let job = job_of(alloc, &matches);
            drop(matches);
            Ok(job?)
        }
        Err(error) => Err(error),
    }
}

/// What the words that were matched ask for.
fn job_of(alloc: Global, matches: &ArgMatches<'_>) -> Result<Job, AllocError>
    ensures { IfOk result (λ job. asked job ≡ asked_by (subcommand_rows_of matches.now)) }
{
    match matches.subcommand() {
        Some((name, given)) => job_named(alloc, name, given),
        None => first_drill(alloc),
    }
}

/// What is asked for without words: a drill of the script on standard input, with the built-in
/// configuration and without reasons.
fn first_drill(alloc: Global) -> Result<Job, AllocError>
    ensures { IfOk result (λ job. asked job ≡ asked_by None) }
{
    Ok(Job::Drill {
        folder: String::from_str(alloc, "K1")?,
        script: String::from_str(alloc, "stdin")?,
        reasons: false,
    })
}

/// What the subcommand of this name asks for, with what was given for its words.
fn job_named(alloc: Global, name: &str, given: &ArgMatches<'_>) -> Result<Job, AllocError>
    ensures { IfOk result (λ job. asked job
        ≡ asked_by (Some (name.now, rows_of (found_of given.now)))) }
{
    if is(name, "token") {
        return Ok(Job::Token(word(alloc, given, "TEXT")?));
    }
    let folder = word(alloc, given, "DIR")?;
    if is(name, "check") {
        return Ok(Job::Check(folder));
    }
    if is(name, "explain") {
        return explanation(alloc, given, folder);
    }
    if is(name, "serve") {
        return Ok(service(given, folder));
    }
    if is(name, "stop") {
        return Ok(Job::Stop(folder));
    }
    if is(name, "report") {
        return Ok(reporting(given, folder));
    }
    if is(name, "add-buffer") {
        return Ok(Job::Add(folder));
    }
    if is(name, "pause") {
        return Ok(Job::Pause(folder));
    }
    if is(name, "go") {
        return Ok(Job::Go(folder));
    }
    if is(name, "reload") {
        return Ok(Job::Reload(folder));
    }
    drilling(alloc, given, folder)
}

/// Whether a name is this one.
fn is(name: &str, other: &str) -> bool
    ensures { result ≡ bytes_eq name.now other.now }
{
    name == other
}

/// What `drill` asks for in this folder, with what was given for its words.
fn drilling(alloc: Global, given: &ArgMatches<'_>, folder: String) -> Result<Job, AllocError>
    ensures { IfOk result (λ job. asked job
        ≡ drills_in (string_bytes folder) (rows_of (found_of given.now))) }
{
    let script = word(alloc, given, "SCRIPT")?;
    let reasons = flag(given, "reasons");
    Ok(Job::Drill {
        folder,
        script,
        reasons,
    })
}

/// What `serve` asks for in this folder, with what was given for its words.
fn service(given: &ArgMatches<'_>, folder: String) -> Job
    ensures { asked result ≡ Serves (string_bytes folder)
        (sessions_given (rows_of (found_of given.now)))
        (fresh_given (rows_of (found_of given.now))) }
{
    let sessions = number(given, "sessions");
    let fresh = flag(given, "fresh");
    Job::Serve {
        folder,
        sessions,
        fresh,
    }
}

/// What `report` asks for of this folder, with what was given for its words: one form at most.
fn reporting(given: &ArgMatches<'_>, folder: String) -> Job
    ensures { asked result ≡ reports_in (string_bytes folder) (rows_of (found_of given.now)) }
{
    if are_both(given) {
        drop(folder);
        return Job::Clash;
    }
    let form = form(given);
    Job::Report { folder, form }
}

/// Whether two forms of a report are given.
fn are_both(given: &ArgMatches<'_>) -> bool
    ensures { result ≡ two_given (rows_of (found_of given.now)) }
{
    let metrics = flag(given, "openmetrics");
    let page = flag(given, "html");
    metrics && page
}

/// In which form the report is printed.
fn form(given: &ArgMatches<'_>) -> Form
    ensures { result ≡ form_given (rows_of (found_of given.now)) }
{
    if flag(given, "openmetrics") {
        Form::Metrics
    } else if flag(given, "html") {
        Form::Page
    } else {
        Form::Told
    }
}

/// What `explain` asks for in this folder, with what was given for its words.
fn explanation(alloc: Global, given: &ArgMatches<'_>, folder: String) -> Result<Job, AllocError>
    ensures { IfOk result (λ job. asked job ≡ Explains (string_bytes folder)
        (question_given (rows_of (found_of given.now)))) }
{
    let question = question_in(alloc, given)?;
    Ok(Job::Explain { folder, question })
}

/// The number that was given for a name, where one was.
pub(crate) fn number(given: &ArgMatches<'_>, name: &str) -> Option<u32>
    ensures { result ≡ option_and_then number_of
        (one_of name.now (rows_of (found_of given.now))) }
{
    given.get_one::<u32>(name)
}

/// Whether a word was given that has no value.
fn flag(given: &ArgMatches<'_>, name: &str) -> bool
    ensures { result ≡ flag_given name.now (rows_of (found_of given.now)) }
{
    match given.get_str(name) {
        Some(word) => word == "true",
        None => false,
    }
}

/// The word that was given for a name, empty where none was.
fn word(alloc: Global, given: &ArgMatches<'_>, name: &str) -> Result<String, AllocError>
    ensures { IfOk result (λ word. string_bytes word
        ≡ word_given name.now (rows_of (found_of given.now))) }
{
    match given.get_str(name) {
        Some(word) => String::from_str(alloc, word),
        None => Ok(String::new(alloc)),
    }
}
