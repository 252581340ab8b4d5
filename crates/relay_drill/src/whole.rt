//! Reading a script whole, and running it over memory (docs/PROTOCOL.md, The call `drill`).
ghost use Rattle.std.specs.Prelude.{◌≡◌, ◌≢◌, vec_items, IfErr, IfOk, IfSome};
ghost use Rattle.std.specs.declared.io.ErrorKind.TheVariants as kinds;
ghost use Rattle.relay_drill.specs.Drill.{DrillGives};
ghost use Rattle.relay_drill.specs.Fault.{ReadGives, told_as, unbegun_as};
ghost use Rattle.relay_drill.specs.Stores.{AreStoresOf};
ghost use Rattle.relay_drill.specs.declared.whole.Unread.TheVariants as reasons;

use crate::fault::DrillError;
use crate::life::{Life, Store};
use crate::manner::Manner;
use crate::play::play;
use crate::power::Supply;
use crate::powered::Powered;
use crate::script::read_script;
use block_shelf::BeginError;
use cyc_block::BlockStore;
use relay_conf::{BufferConf, Config};
use relay_core::System;
use std::alloc::{AllocError, Global};
use std::io::{ErrorKind, Read, Write};
use std::random::RandomSource;

/// The turns that reading a script takes, at most.
const MOST_TURNS: u64 = 1 << 40;

/// The octets that a turn of the reader takes, at most.
const READ_ROOM: usize = 8_192;

/// Reads a whole script, and runs it on a relay with this configuration, over memory. What the
/// relay answers is written as docs/FORMATS.md, Drill scripts, says: with the reason behind each
/// reply by which an article is refused, where `reasons` says so. A refused event is written, and
/// the drill goes on. `rt` seeds the relay's hashers.
pub fn drill<R: Read, W: Write>(
    rt: &impl RandomSource,
    alloc: Global,
    config: Config,
    reasons: bool,
    reader: &mut R,
    writer: &mut W,
) -> Result<(), DrillError>
    ensures { DrillGives reasons config result (R.remaining reader.old)
        (W.contents writer.old) (W.contents writer.new) }
{
    let script = match read_all(alloc, reader) {
        Ok(script) => script,
        Err(error) => {
            drop(config);
            return Err(error);
        }
    };
    let lines = match read_script(alloc, &config, &script) {
        Ok(lines) => lines,
        Err(error) => {
            drop(config);
            return Err(error);
        }
    };
    let Ok(supply) = Supply::new(alloc, config.buffers.buffers.len()) else {
        drop(config);
        return Err(DrillError::Memory);
    };
    let Ok(stores) = new_stores(alloc, &supply, &config.buffers.buffers) else {
        drop(config);
        return Err(DrillError::Memory);
    };
    let manner = Manner {
        groups: config.buffers.groups.len(),
        reasons,
        armed: false,
    };
    match System::new(rt, alloc, config, stores) {
        Ok(relay) => {
            let life = Life {
                relay,
                history: None,
                earlier: None,
            };
            match play(rt, alloc, life, manner, &supply, &lines, writer) {
                Ok(life) => {
                    life.let_go();
                    Ok(())
                }
                Err(error) => Err(error),
            }
        }
        Err(error) => Err(refused(error)),
    }
}

/// Why a drill ends whose relay doesn't begin.
fn refused(error: BeginError<Store>) -> DrillError
    ensures { result ≡ told_as error }
{
    match error {
        BeginError::Host(error) => unbegun(error.kind()),
        BeginError::Device(_number, _store) => DrillError::Device,
    }
}

/// Why the host could not let a relay begin.
fn unbegun(kind: ErrorKind) -> DrillError
    ensures { result ≡ unbegun_as kind }
{
    match kind {
        ErrorKind::OutOfMemory => DrillError::Memory,
        _ => DrillError::Unseeded,
    }
}

/// A store in memory for each of the buffers, of its blocks, with power from this supply.
fn new_stores(
    alloc: Global,
    supply: &Supply,
    buffers: &[BufferConf],
) -> Result<Vec<Store>, AllocError>
    ensures { IfOk result (λ stores.
        AreStoresOf ⟦<Store as BlockStore>⟧ buffers.now stores.items) }
{
    let mut stores = Vec::with_capacity(alloc, buffers.len())?;
    for buffer in buffers {
        let store = Powered::new(alloc, supply, stores.len(), buffer.blocks)?;
        stores.push_reserved(store);
    }
    Ok(stores)
}

/// All that the reader has.
pub fn read_all<R: Read>(alloc: Global, reader: &mut R) -> Result<Vec<u8>, DrillError>
    ensures { ReadGives vec_items result (R.remaining reader.old) }
{
    match read_on(alloc, reader) {
        Ok(text) => Ok(text),
        Err(Unread::Memory) => Err(DrillError::Memory),
        Err(Unread::Failed(_)) => Err(DrillError::Unreadable),
    }
}

/// Why a reader wasn't read to its end.
#[derive(Drop)]
enum Unread {
    /// Memory was refused.
    Memory,
    /// A read failed so; `Other` where the reader took more turns than it may.
    Failed(ErrorKind),
}

impl From<AllocError> for Unread {
    ghost from_gives = { λ _ e. e ≡ reasons.Memory };

    fn from(_error: AllocError) -> Unread {
        Unread::Memory
    }
}

/// All that the reader has. A read that was interrupted has failed in nothing: it is tried again.
fn read_on<R: Read>(alloc: Global, reader: &mut R) -> Result<Vec<u8>, Unread>
    ensures all { IfOk result (λ text. IfSome (R.remaining reader.old) (λ all. text.items ≡ all)) }
    ensures retried { IfErr result (λ error. error ≢ reasons.Failed kinds.Interrupted) }
{
    let mut text = Vec::new(alloc);
    let mut room = [0u8; READ_ROOM];
    for turn in 0..MOST_TURNS {
        let _turn = turn;
        match reader.read(&mut room) {
            Ok(0) => return Ok(text),
            Ok(count) => text.extend_from_slice(&room[..count])?,
            Err(error) => {
                let kind = error.kind();
                if kind != ErrorKind::Interrupted {
                    return Err(Unread::Failed(kind));
                }
            }
        }
    }
    Err(Unread::Failed(ErrorKind::Other))
}
