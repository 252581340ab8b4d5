//! Why the program ends with a status other than 0 (docs/PROTOCOL.md, Statuses), and how it ends.
ghost use Rattle.std.specs.Prelude.{◌≡◌, ⊤, IfOk, MatchOption, Some, OnOk};
ghost use Rattle.std.specs.Process.{exit_status};
ghost use Rattle.clap.specs.Words.{kind_of};
ghost use Rattle.relay_command.specs.Failure.{ends_with, failure_text, status_of, Tells};
ghost use Rattle.relay_command.specs.Failure.{served_of, told_of};
ghost use Rattle.relay_command.specs.Failure.{check_status, unbegun_text, words_status};

use crate::ask::AskError;
use crate::explain::Unexplained;
use crate::load::CheckError;
use crate::token::TokenFault;
use clap::error::ErrorKind;
use relay_drill::DrillError;
use relay_report::ServeError;
use std::alloc::{AllocError, Global};
use std::fmt::{Display, Formatter};
use std::io::Write;
use std::process::ExitCode;
use std::{error, fmt, io};
use thiserror::Error;

/// Why the words could not be had.
#[derive(Drop)]
pub enum Unbegun {
    /// Memory ran out.
    Memory,
    /// A word is no UTF-8.
    NoText,
}

impl Display for Unbegun {
    ghost output = { λ unbegun. Some (unbegun_text unbegun) };

    fn fmt<W: fmt::Write>(&self, formatter: &mut Formatter<W>) -> fmt::Result {
        formatter.write_str(match self {
            Unbegun::Memory => "out of memory",
            Unbegun::NoText => "a word is no UTF-8",
        })
    }
}

impl fmt::Debug for Unbegun {
    fn fmt<W: fmt::Write>(&self, formatter: &mut Formatter<W>) -> fmt::Result {
        Display::fmt(self, formatter)
    }
}

impl error::Error for Unbegun {}

/// What is told of a report in two forms, as clap tells it of words that clash.
const CLASH: &str = "error: the argument '--openmetrics' cannot be used with '--html'";

/// Why the program ends with a status other than 0. Its text is what the program prints.
#[derive(Error)]
pub enum Failure {
    /// The words could not be had, or there was no memory for the output.
    Unbegun(Unbegun),
    /// The words are no command line; or memory ran out as they were read, or as help was made.
    Words(clap::Error),
    /// The words ask for a report in two forms.
    Clash,
    /// A configuration can't be had, or is not told.
    Check(CheckError),
    /// A configuration can't be had, or is not explained.
    Explain(Unexplained),
    /// A script did not run to its end.
    Drill(DrillError),
    /// A token is not told.
    Token(TokenFault),
    /// A relay was not served to its end, or its report not written; or buffers were not added to
    /// one, or what was added is not told.
    Serve(ServeError),
    /// A relay that is served can't be asked, or what it told is not written.
    Ask(AskError),
    /// Standard output took no more. What it took before stands.
    Unwritten,
}

impl Display for Failure {
    ghost output = { failure_text };

    fn fmt<W: fmt::Write>(&self, formatter: &mut Formatter<W>) -> fmt::Result {
        match self {
            Failure::Unbegun(unbegun) => Display::fmt(unbegun, formatter),
            Failure::Words(error) => Display::fmt(error, formatter),
            Failure::Check(error) => Display::fmt(error, formatter),
            Failure::Explain(unexplained) => Display::fmt(unexplained, formatter),
            Failure::Drill(error) => Display::fmt(error, formatter),
            Failure::Token(fault) => Display::fmt(fault, formatter),
            Failure::Serve(error) => Display::fmt(error, formatter),
            Failure::Ask(error) => Display::fmt(error, formatter),
            Failure::Clash => formatter.write_str(CLASH),
            Failure::Unwritten => formatter.write_str("stdout: unwritten"),
        }
    }
}

// Written out, so that no crate above proves anew how each part is let go.
impl Drop for Failure {
    fn drop(self) {
        match self {
            Failure::Unbegun(_) => {}
            Failure::Words(_) => {}
            Failure::Clash => {}
            Failure::Check(_) => {}
            Failure::Explain(_) => {}
            Failure::Drill(_) => {}
            Failure::Token(_) => {}
            Failure::Serve(_) => {}
            Failure::Ask(_) => {}
            Failure::Unwritten => {}
        }
    }
}

impl fmt::Debug for Failure {
    fn fmt<W: fmt::Write>(&self, formatter: &mut Formatter<W>) -> fmt::Result {
        Display::fmt(self, formatter)
    }
}

impl Failure {
    /// The status that the program ends with (docs/PROTOCOL.md, Statuses).
    pub fn status(&self) -> u8
        ensures { result ≡ status_of self.now }
    {
        match self {
            Failure::Unbegun(Unbegun::NoText) => 1,
            Failure::Words(error) => words_status(error),
            Failure::Clash => 1,
            Failure::Check(error) => check_status(error),
            Failure::Explain(unexplained) => check_status(&unexplained.error),
            Failure::Drill(DrillError::Line(_) | DrillError::Unreadable) => 3,
            Failure::Token(TokenFault::Unwritten) => 4,
            Failure::Token(_) => 3,
            Failure::Unwritten => 4,
            Failure::Drill(DrillError::Unwritten | DrillError::Unseeded) => 4,
            Failure::Drill(DrillError::Device | DrillError::Unrepaired) => 4,
            Failure::Serve(ServeError::File(_) | ServeError::Port(_)) => 4,
            Failure::Serve(ServeError::Control) => 4,
            Failure::Serve(ServeError::Start(_) | ServeError::Stop(_)) => 4,
            Failure::Serve(ServeError::Unseeded | ServeError::Unwritten) => 4,
            Failure::Ask(AskError::Unserved(_) | AskError::Unusable) => 4,
            Failure::Ask(AskError::Unwritten | AskError::Refused) => 4,
            Failure::Unbegun(Unbegun::Memory) => 5,
            Failure::Drill(DrillError::Memory) => 5,
            Failure::Serve(ServeError::Memory | ServeError::NoThread) => 5,
            Failure::Ask(AskError::Memory) => 5,
        }
    }
}

impl Failure {
    /// Why a relay was not served to its end, where that is the failure.
    pub fn into_served(self) -> Option<ServeError>
        ensures { result ≡ served_of self }
    {
        match self {
            Failure::Serve(error) => Some(error),
            _ => None,
        }
    }
}

/// The status where the words are no command line, unless memory ran out.
fn words_status(error: &clap::Error) -> u8
    ensures { result ≡ words_status (kind_of error.now) }
{
    match error.kind() {
        ErrorKind::OutOfMemory => 5,
        _ => 1,
    }
}

/// The status where a configuration is at fault, can't be read, or is not told.
fn check_status(error: &CheckError) -> u8
    ensures { result ≡ check_status error.now }
{
    match error {
        CheckError::Unreadable(_) | CheckError::Faulty { .. } => 2,
        CheckError::Unwritten => 4,
        CheckError::Memory => 5,
    }
}

/// Writes the text of the failure where there is one: what goes to standard error. Clap's has the
/// line's end.
pub fn print_failure<W: Write>(ran: &Result<(), Failure>, writer: &mut W) -> io::Result<()>
    ensures { OnOk result (Tells ran.now (W.contents writer.old) (W.contents writer.new)) }
{
    match ran {
        Ok(()) => Ok(()),
        Err(Failure::Words(error)) => write!(writer, "{error}"),
        Err(failure) => writeln!(writer, "{failure}"),
    }
}

/// The octets that are written of a failure where the program ends with it, for somebody else to
/// be told.
pub fn told_text(alloc: Global, failure: &Failure) -> Result<Vec<u8>, AllocError>
    ensures { IfOk result (λ text.
        MatchOption (told_of failure.now) ⊤ (λ told. text.items ≡ told)) }
{
    let text = match failure {
        Failure::Words(error) => format!(in alloc; "{error}")?,
        failure => format!(in alloc; "{failure}\n")?,
    };
    Ok(text.into_bytes())
}

/// How the program ends.
pub fn exit_code(ran: &Result<(), Failure>) -> ExitCode
    ensures { exit_status result ≡ ends_with ran.now }
{
    match ran {
        Ok(()) => ExitCode::SUCCESS,
        Err(failure) => ExitCode::from(failure.status()),
    }
}
