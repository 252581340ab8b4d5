//! Saying what a configuration has (docs/PROTOCOL.md, Program).
ghost use Rattle.std.specs.Prelude.{◌≡◌, decimal};
ghost use Rattle.relay_report.specs.Written.{Writes};
ghost use Rattle.relay_command.specs.Check.{counted};
ghost use Rattle.relay_command.specs.Adding.{HandedTo};
ghost use Rattle.relay_command.specs.Run.{ChecksFolder, TellsConfig};

use crate::failure::Failure;
use crate::load::{CheckError, load};
use itoa::Buffer;
use relay_conf::Config;
use relay_report::{ServeError, Unwritten, put_all};
use std::alloc::Global;
use std::fs::Files;
use std::io::Write;

/// Reads the configuration in a folder, or the built-in one where the folder is `K1`, and writes
/// how much it has; then has it told how the relay of the folder stands.
pub fn check<R: Files, W: Write, T>(
    rt: &R,
    alloc: Global,
    folder: &str,
    writer: &mut W,
    stand: T,
) -> Result<(), Failure>
where
    T: FnOnce(&Config, &str, &mut W) -> Result<(), ServeError>,
    requires { T.IsAlwaysCallable stand }
    ensures { ChecksFolder (HandedTo W.contents (T.post stand)) folder.now result
        (W.contents writer.old) (W.contents writer.new) }
{
    match load(rt, alloc, folder) {
        Ok(config) => {
            let told = tell_config(&config, folder, writer, stand);
            drop(config);
            told
        }
        Err(error) => Err(Failure::Check(error)),
    }
}

/// Writes how much a configuration has, and has it told how the relay of its folder stands.
fn tell_config<W: Write, T>(
    config: &Config,
    folder: &str,
    writer: &mut W,
    stand: T,
) -> Result<(), Failure>
where
    T: FnOnce(&Config, &str, &mut W) -> Result<(), ServeError>,
    requires { T.IsAlwaysCallable stand }
    ensures { TellsConfig (HandedTo W.contents (T.post stand)) config.now folder.now result
        (W.contents writer.old) (W.contents writer.new) }
{
    match print_counts(writer, config) {
        Ok(()) => match stand(config, folder, writer) {
            Ok(()) => Ok(()),
            Err(error) => Err(Failure::Serve(error)),
        },
        Err(_) => Err(Failure::Check(CheckError::Unwritten)),
    }
}

/// The digits of a number.
pub(crate) fn digits(buffer: &mut Buffer, number: u64) -> &[u8]
    ensures { result.now ≡ decimal number }
{
    buffer.format(number).as_bytes()
}

/// Prints how much a configuration has.
fn print_counts<W: Write>(writer: &mut W, config: &Config) -> Result<(), Unwritten>
    ensures { Writes result (counted config.now) (W.contents writer.old) (W.contents writer.new) }
{
    let mut buffers = Buffer::new();
    let mut groups = Buffer::new();
    let mut classes = Buffer::new();
    let mut peers = Buffer::new();
    let mut feeds = Buffer::new();
    put_all(
        writer,
        &[
            b"ok: ",
            digits(&mut buffers, config.buffers.buffers.len() as u64),
            b" buffers, ",
            digits(&mut groups, config.buffers.groups.len() as u64),
            b" groups, ",
            digits(&mut classes, config.storage_entries.len() as u64),
            b" classes, ",
            digits(&mut peers, config.relay.peers.len() as u64),
            b" peers, ",
            digits(&mut feeds, config.relay.feeds.len() as u64),
            b" feeds\n",
        ],
    )
}
