//! How the relay of a folder stands is told, by its files (docs/PROTOCOL.md, `check`).
ghost use Rattle.std.specs.Prelude.{◌≡◌, ◌⊎◌, length, map, IfErr, IfOk};
ghost use Rattle.file_blocks.specs.Store.{count_of};
ghost use Rattle.relay_report.specs.declared.fault.ServeError.TheVariants as faults;
ghost use Rattle.buffer_files.specs.Files.{IsFaultOf, IsFileFault};
ghost use Rattle.relay_check.specs.Looking.{StandGives, TellsFailure, TellsRefusal};
ghost use Rattle.buffer_files.specs.Faults.{IsServeFault};

use crate::adding::unasked;
use crate::seen_file::SeenFile;
use crate::standing::{FolderStanding, Stands, standing_by};
use buffer_files::{are_blank, is_of_earlier, path_of, reason_of, unusable};
use file_blocks::{FileBlocks, FittedFile, size_of};
use relay_conf::{BufferConf, Buffers, Config};
use relay_folder::{Filing, HostHistory, is_served};
use relay_report::{Reason, ServeError, StartFault, put};
use std::alloc::{AllocError, Global};
use std::fs::{File, Files};
use std::io::Write;
use std::net::Net;

/// Tells in a line how the relay of this configuration in a folder stands, behind what a start
/// would change by name, or that a start would be refused, and why. Nothing is made, written or
/// locked, and a relay that is served there is asked nothing.
pub fn stand_on<R, W: Write>(
    rt: &R,
    alloc: Global,
    config: &Config,
    folder: &str,
    writer: &mut W,
) -> Result<(), ServeError>
where
    R: Net + Files<File = File> + Filing,
    ensures { StandGives config.now result (W.contents writer.old) (W.contents writer.new) }
{
    let stands = match standing_there(rt, alloc, config, folder) {
        Ok(stands) => stands,
        Err(error) => return Err(tell_failure(alloc, error, writer)),
    };
    let text = stands.into_text()?;
    let written = put(writer, &text);
    drop(text);
    match written {
        Ok(()) => Ok(()),
        Err(_) => Err(ServeError::Unwritten),
    }
}

/// What is answered where a start would be refused, which is told in a line, or where it isn't
/// known how a relay stands.
#[tactic(auto, using(crate::proofs::Looks::kept))]
fn tell_failure<W: Write>(alloc: Global, error: ServeError, writer: &mut W) -> ServeError
    ensures { TellsFailure error result (W.contents writer.old) (W.contents writer.new) }
{
    match error {
        ServeError::Start(fault) => tell_refusal(alloc, fault, writer),
        error => error,
    }
}

/// Tells in a line that a start would be refused for this fault, which is the answer. There is none
/// where memory is refused for the line, or the writer fails.
#[tactic(auto, using(crate::proofs::Looks::kept))]
fn tell_refusal<W: Write>(alloc: Global, fault: StartFault, writer: &mut W) -> ServeError
    ensures { TellsRefusal fault result (W.contents writer.old) (W.contents writer.new) }
{
    let line = match format!(in alloc; "would not start: {fault}\n") {
        Ok(line) => line,
        Err(_) => {
            drop(fault);
            return ServeError::Memory;
        }
    };
    let written = put(writer, line.as_bytes());
    drop(line);
    match written {
        Ok(()) => ServeError::Start(fault),
        Err(_) => {
            drop(fault);
            ServeError::Unwritten
        }
    }
}

/// How the relay of a folder stands. The error is that the socket by which one is asked can't be
/// asked, or what a start says of files, history and heads.
fn standing_there<R>(
    rt: &R,
    alloc: Global,
    config: &Config,
    folder: &str,
) -> Result<Stands, ServeError>
where
    R: Net + Files<File = File> + Filing,
    ensures { IfErr result (λ error.
        (error ≡ faults.Control) ⊎ IsServeFault config.now error) }
{
    match is_served(rt, alloc, folder) {
        Ok(true) => Ok(Stands::unchanged(alloc, FolderStanding::Running)),
        Ok(false) => standing_in(rt, alloc, config, folder),
        Err(error) => Err(unasked(error.kind())),
    }
}

/// How the relay of a folder stands in which none is served.
fn standing_in<R>(
    rt: &R,
    alloc: Global,
    config: &Config,
    folder: &str,
) -> Result<Stands, ServeError>
where
    R: Files<File = File> + Filing,
    ensures { IfErr result (IsServeFault config.now) }
{
    let mut stores = see_files(rt, alloc, &config.buffers, folder)?;
    let blank = are_blank(&stores);
    let mut history = HostHistory::in_folder(rt, alloc, folder)?;
    let mut names = HostHistory::of_names(rt, alloc, folder)?;
    let stands = standing_by(alloc, config, &mut history, &mut names, &mut stores, blank);
    drop(names);
    drop(history);
    drop(stores);
    stands
}

/// A store in the file of each buffer, of its blocks, in the order of the buffers, to be looked at.
/// The error is want of memory, or the first file with which that can't be done, as one that is the
/// file of an earlier buffer, whatever its name.
fn see_files<R: Files<File = File>>(
    rt: &R,
    alloc: Global,
    settings: &Buffers,
    folder: &str,
) -> Result<Vec<FileBlocks<SeenFile>>, ServeError>
    ensures blocks { IfOk result (λ stores. map count_of stores.items
        ≡ map (λ buffer. buffer.blocks) settings.now.buffers.items) }
    ensures fault { IfErr result (IsFileFault settings.now) }
{
    let mut stores = Vec::with_capacity(alloc, settings.buffers.len())?;
    for buffer in &settings.buffers {
        let count = stores.len();
        let store = see_file(rt, alloc, settings, count, folder, buffer)?;
        stores.push_reserved(store);
    }
    Ok(stores)
}

/// The store in the file of a buffer behind the first so many.
fn see_file<R: Files<File = File>>(
    rt: &R,
    alloc: Global,
    settings: &Buffers,
    count: usize,
    folder: &str,
    buffer: &BufferConf,
) -> Result<FileBlocks<SeenFile>, ServeError>
    ensures blocks { IfOk result (λ store. count_of store ≡ buffer.now.blocks) }
    ensures fault { IfErr result (IsFaultOf buffer.now) }
{
    match open_to_see(rt, alloc, settings, count, folder, buffer) {
        Ok(file) => Ok(look_into(alloc, buffer, file)?),
        Err(Some(reason)) => Err(unusable(alloc, buffer, reason)),
        Err(None) => Err(ServeError::Memory),
    }
}

/// The file of a buffer, or why it can't be looked at, as one that is the file of one of the first
/// so many; no reason where memory was refused.
fn open_to_see<R: Files<File = File>>(
    rt: &R,
    alloc: Global,
    settings: &Buffers,
    count: usize,
    folder: &str,
    buffer: &BufferConf,
) -> Result<SeenFile, Option<Reason>> {
    let path = path_of(alloc, folder, buffer)?;
    match SeenFile::at(rt, path.as_str(), size_of(buffer.blocks)) {
        Ok(file) => match is_of_earlier(rt, alloc, settings, count, folder, buffer) {
            Ok(false) => Ok(file),
            Ok(true) => Err(Some(Reason::Shared)),
            Err(_) => Err(None),
        },
        Err(refused) => Err(reason_of(&refused)),
    }
}

/// The store in a file, into which was looked whether a buffer was kept there, or a block device
/// that was looked through whether anything was.
fn look_into(
    alloc: Global,
    buffer: &BufferConf,
    file: SeenFile,
) -> Result<FileBlocks<SeenFile>, AllocError>
    ensures { IfOk result (λ store. count_of store ≡ buffer.now.blocks) }
{
    let is_device = file.is_device();
    let mut fitted = FittedFile::new(file, buffer.blocks);
    if is_device {
        fitted.look_through();
    } else {
        fitted.look();
    }
    let (file, count, blank) = fitted.into_parts();
    FileBlocks::new(alloc, file, count, blank)
}
