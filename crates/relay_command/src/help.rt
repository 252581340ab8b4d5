//! Telling what the words ask for in the place of something to do: help, or the version
//! (docs/PROTOCOL.md, Commands).
ghost use Rattle.std.specs.Prelude.{List};
ghost use Rattle.clap.specs.Words.{Text};
ghost use Rattle.relay_command.specs.CommandLine.{IsRefusedBy};
ghost use Rattle.relay_command.specs.Help.{HelpGives, ErrorTextGives};

use crate::failure::Failure;
use crate::version::tell_version;
use clap::error::ErrorKind;
use relay_report::put;
use std::alloc::Global;
use std::io::Write;

/// Writes what words ask for of which clap answers this error: the version's line, or clap's text
/// where they ask for help. Any other error is a fault of theirs, and nothing is written.
pub fn help<W: Write>(alloc: Global, error: clap::Error, writer: &mut W) -> Result<(), Failure>
    ensures { (words : List Text) → IsRefusedBy words error
        → HelpGives words result (W.contents writer.old) (W.contents writer.new) }
{
    match error.kind() {
        ErrorKind::DisplayVersion => match tell_version(writer) {
            Ok(()) => Ok(()),
            Err(_) => Err(Failure::Unwritten),
        },
        ErrorKind::DisplayHelp => clap_text(alloc, &error, writer),
        _ => Err(Failure::Words(error)),
    }
}

/// Writes clap's text of an error, which is made whole first.
fn clap_text<W: Write>(alloc: Global, error: &clap::Error, writer: &mut W) -> Result<(), Failure>
    ensures { ErrorTextGives result (W.contents writer.old) (W.contents writer.new) }
{
    match error.to_string(alloc) {
        Ok(text) => match put(writer, text.as_bytes()) {
            Ok(()) => Ok(()),
            Err(_) => Err(Failure::Unwritten),
        },
        Err(error) => Err(Failure::Words(clap::Error::from(error))),
    }
}
