//! Reading a configuration with the texts of its files (docs/FORMATS.md, Configuration).
ghost use Rattle.relay_conf.specs.RelayViews.{RelayGives};
ghost use Rattle.relay_command.specs.Check.{CycbuffReads, StorageReads};
ghost use Rattle.relay_command.specs.Sources.{FileGivesBoth, IsReadAs, LoadGivesBoth};
ghost use Rattle.relay_command.specs.declared.load.ConfFile.TheVariants as files;

use crate::load::{CheckError, ConfFile, text_of};
use relay_conf::{
    Buffers, ConfError, Config, Relay, StorageEntry, read_cycbuff, read_relay, read_storage,
};
use relay_explain::Sources;
use std::alloc::Global;
use std::fs::Files;

/// Reads the configuration in a folder, or the built-in one where the folder is `K1`, and keeps the
/// texts that say it.
pub(crate) fn load_both<R: Files>(
    rt: &R,
    alloc: Global,
    folder: &str,
) -> Result<(Config, Sources), CheckError>
    ensures { LoadGivesBoth folder.now result }
{
    let (buffers, cycbuff) = match cycbuff_in(rt, alloc, folder) {
        Ok(both) => both,
        Err(error) => return Err(error),
    };
    let (storage_entries, storage) = match storage_in(rt, alloc, folder, &buffers) {
        Ok(both) => both,
        Err(error) => {
            drop(buffers);
            return Err(error);
        }
    };
    match relay_in(rt, alloc, folder) {
        Ok((settings, relay)) => Ok((
            Config::new(buffers, storage_entries, settings),
            Sources {
                cycbuff,
                storage,
                relay,
            },
        )),
        Err(error) => {
            drop(buffers);
            Err(error)
        }
    }
}

/// Reads a folder's cycbuff.conf.
fn cycbuff_in<R: Files>(
    rt: &R,
    alloc: Global,
    folder: &str,
) -> Result<(Buffers, Vec<u8>), CheckError>
    ensures { FileGivesBoth folder.now files.Cycbuff CycbuffReads result }
{
    let text = text_of(rt, alloc, folder, ConfFile::Cycbuff)?;
    let read = read_cycbuff(alloc, &text);
    both(ConfFile::Cycbuff, text, read)
}

/// Reads a folder's storage.conf.
fn storage_in<R: Files>(
    rt: &R,
    alloc: Global,
    folder: &str,
    buffers: &Buffers,
) -> Result<(Vec<StorageEntry>, Vec<u8>), CheckError>
    ensures { FileGivesBoth folder.now files.Storage (StorageReads buffers.now) result }
{
    let text = text_of(rt, alloc, folder, ConfFile::Storage)?;
    let read = read_storage(alloc, &text, buffers);
    both(ConfFile::Storage, text, read)
}

/// Reads a folder's relay.conf.
fn relay_in<R: Files>(rt: &R, alloc: Global, folder: &str) -> Result<(Relay, Vec<u8>), CheckError>
    ensures { FileGivesBoth folder.now files.Relay RelayGives result }
{
    let text = text_of(rt, alloc, folder, ConfFile::Relay)?;
    let read = read_relay(alloc, &text);
    both(ConfFile::Relay, text, read)
}

/// What was read of the text of a file, with that text.
fn both<T>(
    file: ConfFile,
    text: Vec<u8>,
    read: Result<T, ConfError>,
) -> Result<(T, Vec<u8>), CheckError>
    ensures { IsReadAs file text read result }
{
    match read {
        Ok(settings) => Ok((settings, text)),
        Err(error) => {
            drop(text);
            Err(CheckError::of(file, error))
        }
    }
}
