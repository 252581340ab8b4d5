//! Asking the relay that is served in a folder (docs/PROTOCOL.md, `stop` and `report`, `pause` and
//! `go`, `reload`).
ghost use Rattle.std.specs.Prelude.{◌≡◌, IfErr, IfOk, Some, true};
ghost use Rattle.relay_command.specs.Ask.{Answered, IsUnheard, IsUnserved, ask_text};
ghost use Rattle.relay_command.specs.Ask.{formed, is_made};
ghost use Rattle.relay_command.specs.Run.{AsksFolder};

use crate::failure::Failure;
use relay_metrics::exposition;
use relay_page::page;
use relay_report::put;
use std::alloc::{AllocError, Global};
use std::error::Error;
use std::fmt::{Display, Formatter};
use std::io::{ErrorKind, Write};
use std::{fmt, io};

/// What a relay that is served is asked for.
#[derive(Clone, Copy)]
pub enum Request {
    /// To end.
    Stop,
    /// The report of what it has then.
    Report,
    /// To take no new articles for now.
    Pause,
    /// To take them again.
    Go,
    /// To go on with the configuration that its folder has now.
    Reload,
}

/// In which form it is printed what a relay tells.
#[derive(Clone, Copy)]
pub enum Form {
    /// As it is told.
    Told,
    /// As metrics (docs/FORMATS.md, Metrics).
    Metrics,
    /// As a page (docs/FORMATS.md, Page).
    Page,
}

/// Why what a relay tells can't be had, or is not printed. Its text is what the program prints.
#[derive(Drop)]
pub enum AskError {
    /// No relay is served in this folder.
    Unserved(String),
    /// The socket in the folder can't be had, or failed.
    Unusable,
    /// Memory was refused.
    Memory,
    /// The writer failed.
    Unwritten,
    /// The relay did not do what it was asked for.
    Refused,
}

impl Display for AskError {
    ghost output = { λ error. Some (ask_text error) };

    fn fmt<W: fmt::Write>(&self, formatter: &mut Formatter<W>) -> fmt::Result {
        match self {
            AskError::Unserved(folder) => write!(formatter, "{folder}: no relay is served there"),
            AskError::Unusable => formatter.write_str("control: unusable"),
            AskError::Memory => formatter.write_str("out of memory"),
            AskError::Unwritten => formatter.write_str("stdout: unwritten"),
            AskError::Refused => formatter.write_str("refused: the relay goes on as it was"),
        }
    }
}

impl fmt::Debug for AskError {
    fn fmt<W: fmt::Write>(&self, formatter: &mut Formatter<W>) -> fmt::Result {
        Display::fmt(self, formatter)
    }
}

impl Error for AskError {}

/// Has the relay asked for this that is served in a folder, and writes what it tells in this form.
pub fn ask_in<W: Write, A>(
    alloc: Global,
    folder: &str,
    request: Request,
    form: Form,
    writer: &mut W,
    ask: A,
) -> Result<(), Failure>
where
    A: FnOnce(&str, Request) -> io::Result<Vec<u8>>,
    requires { A.IsAlwaysCallable ask }
    ensures { AsksFolder (Answered (A.post ask)) folder.now request form result
        (W.contents writer.old) (W.contents writer.new) }
{
    match ask(folder, request) {
        Ok(told) => match in_form(alloc, form, told) {
            Ok(text) => match put(writer, &text) {
                Ok(()) => Ok(()),
                Err(_) => Err(Failure::Ask(AskError::Unwritten)),
            },
            Err(_) => Err(Failure::Ask(AskError::Memory)),
        },
        Err(error) => Err(Failure::Ask(unheard(alloc, folder, error.kind()))),
    }
}

/// What a relay told, in this form. What is told as it is takes no memory.
fn in_form(alloc: Global, form: Form, told: Vec<u8>) -> Result<Vec<u8>, AllocError>
    ensures text { IfOk result (λ text. text.items ≡ formed form told.items) }
    ensures memory { IfErr result (λ error. is_made form ≡ true) }
{
    match form {
        Form::Told => Ok(told),
        Form::Metrics => {
            let text = exposition(alloc, &told);
            drop(told);
            text
        }
        Form::Page => {
            let text = page(alloc, &told);
            drop(told);
            text
        }
    }
}

/// Why the relay of a folder could not be asked, or what it told not be had.
pub(crate) fn unheard(alloc: Global, folder: &str, kind: ErrorKind) -> AskError
    ensures { IsUnheard folder.now kind result }
{
    match kind {
        ErrorKind::OutOfMemory => AskError::Memory,
        ErrorKind::NotFound | ErrorKind::ConnectionRefused => unserved(alloc, folder),
        _ => AskError::Unusable,
    }
}

/// That no relay is served in a folder.
fn unserved(alloc: Global, folder: &str) -> AskError
    ensures { IsUnserved folder.now result }
{
    match String::from_str(alloc, folder) {
        Ok(name) => AskError::Unserved(name),
        Err(_) => AskError::Memory,
    }
}
