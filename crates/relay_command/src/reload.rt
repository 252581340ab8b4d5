//! Having a relay that is served go on with the configuration as it is now (docs/PROTOCOL.md,
//! `reload`).
ghost use Rattle.std.specs.Prelude.{◌≡◌, bytes_eq};
ghost use Rattle.relay_command.specs.Ask.{Answered, TellsReload, reloaded_line};
ghost use Rattle.relay_command.specs.Run.{ReloadsFolder};

use crate::ask::{AskError, Request, unheard};
use crate::failure::Failure;
use crate::load::load;
use relay_report::put;
use std::alloc::Global;
use std::fs::Files;
use std::io;
use std::io::Write;

/// Has the relay that is served in a folder go on with the configuration there, which is read
/// first, and writes what it tells. A configuration at fault is not handed to it.
pub fn reload_in<S: Files, W: Write, A>(
    rt: &S,
    alloc: Global,
    folder: &str,
    writer: &mut W,
    ask: A,
) -> Result<(), Failure>
where
    A: FnOnce(&str, Request) -> io::Result<Vec<u8>>,
    requires { A.IsAlwaysCallable ask }
    ensures { ReloadsFolder (Answered (A.post ask)) folder.now result (W.contents writer.old)
        (W.contents writer.new) }
{
    match load(rt, alloc, folder) {
        Ok(config) => drop(config),
        Err(error) => return Err(Failure::Check(error)),
    }
    match ask(folder, Request::Reload) {
        Ok(told) => match tell_reload(&told, writer) {
            Ok(()) => Ok(()),
            Err(error) => Err(Failure::Ask(error)),
        },
        Err(error) => Err(Failure::Ask(unheard(alloc, folder, error.kind()))),
    }
}

/// Writes what a relay told that was to reload, and answers whether it did.
fn tell_reload<W: Write>(told: &[u8], writer: &mut W) -> Result<(), AskError>
    ensures { TellsReload told.now result (W.contents writer.old) (W.contents writer.new) }
{
    match put(writer, told) {
        Ok(()) => {
            if is_reloaded(told) {
                Ok(())
            } else {
                Err(AskError::Refused)
            }
        }
        Err(_) => Err(AskError::Unwritten),
    }
}

/// Whether what a relay told says that it goes on with the configuration as it is now.
fn is_reloaded(told: &[u8]) -> bool
    ensures { result ≡ bytes_eq told.now reloaded_line }
{
    told == b"reloaded\n".as_slice()
}
