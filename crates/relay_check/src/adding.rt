//! Buffers are added to a relay that was stopped, in files of the machine (docs/PROTOCOL.md,
//! `add-buffer`).
ghost use Rattle.std.specs.Prelude.{◌≡◌, ◌<◌, ◌≤◌, drop as behind, length, map, IfErr, IfOk};
ghost use Rattle.std.specs.Prelude.{Some};
ghost use Rattle.block_shelf.specs.declared.starting.StopFault.TheVariants as reasons;
ghost use Rattle.file_blocks.specs.Store.{count_of};
ghost use Rattle.relay_adding.specs.Telling.{AddGives, IsAddFault, TellsAdded};
ghost use Rattle.relay_adding.specs.Telling.{added_text as told_text};
ghost use Rattle.relay_check.specs.Adding.{IsFileOrHead, IsUnmade, control_fault};
ghost use Rattle.buffer_files.specs.Files.{IsFaultOf, IsFileFault};
ghost use Rattle.relay_startup.specs.Starting.{IsRefusal};

use block_shelf::{StopFault, number_of};
use buffer_files::{fill_streams, hold_files, unfit, unformatted};
use file_blocks::{FileBlocks, FittedFile, HeldFile};
use relay_adding::{Unadded, add_each, added_text, first_added};
use relay_conf::{BufferConf, Buffers, Config};
use relay_folder::{Control, Filing, HistoryPlace, HostHistory};
use relay_report::{ServeError, put};
use relay_startup::{refusal, stop_kept};
use std::alloc::Global;
use std::fs::{File, Files};
use std::io::{ErrorKind, Write};
use std::net::Net;

/// Makes the files of the buffers that were added to a relay's configuration behind the others
/// since it was stopped, so that it starts again, and tells of each. No relay may be served in the
/// folder: the socket by which one is asked is had first. Then the history is read, the files are
/// opened and locked in the order of the buffers, and what they have is looked at. Those to be
/// added are the last ones, whose files have no octet but 0; each buffer before them has something
/// kept. What is told is written once the devices have what was made.
pub fn add_on<R, W: Write>(
    rt: &R,
    alloc: Global,
    config: &Config,
    folder: &str,
    writer: &mut W,
) -> Result<(), ServeError>
where
    R: Net + Files<File = File> + Filing,
    ensures { AddGives config.now result (W.contents writer.old) (W.contents writer.new) }
{
    fill_streams(rt);
    let mut history = HostHistory::in_folder(rt, alloc, folder)?;
    let mut names = HostHistory::of_names(rt, alloc, folder)?;
    let text = match add_alone(rt, alloc, config, folder, &mut history, &mut names) {
        Ok(text) => text,
        Err(error) => return Err(error),
    };
    match put(writer, &text) {
        Ok(()) => Ok(()),
        Err(_) => Err(ServeError::Unwritten),
    }
}

/// The same between two lives of a relay, whose socket is had meanwhile, for the buffers behind so
/// many with which it was served. It gives what is told of them.
pub fn add_between<R>(
    rt: &R,
    alloc: Global,
    config: &Config,
    folder: &str,
    served: usize,
) -> Result<Vec<u8>, ServeError>
where
    R: Files<File = File> + Filing,
    ensures told { IfOk result (λ text. TellsAdded config.now text.items) }
    ensures fault { IfErr result (IsAddFault config.now) }
{
    let mut history = HostHistory::in_folder(rt, alloc, folder)?;
    let mut names = HostHistory::of_names(rt, alloc, folder)?;
    add_there(rt, alloc, config, folder, served, &mut history, &mut names)
}

/// Adds the buffers while no relay is served in the folder, and says what is told of them.
fn add_alone<R, H: HistoryPlace, N: HistoryPlace>(
    rt: &R,
    alloc: Global,
    config: &Config,
    folder: &str,
    history: &mut H,
    names: &mut N,
) -> Result<Vec<u8>, ServeError>
where
    R: Net + Files<File = File>,
    ensures told { IfOk result (λ text. TellsAdded config.now text.items) }
    ensures fault { IfErr result (IsAddFault config.now) }
{
    match Control::listen(rt, alloc, folder) {
        Ok(control) => {
            let added = add_there(rt, alloc, config, folder, 0, history, names);
            control.close(rt, alloc, folder);
            drop(control);
            added
        }
        Err(error) => Err(unasked(error.kind())),
    }
}

/// Why the socket in the folder can't be had.
pub(crate) fn unasked(kind: ErrorKind) -> ServeError
    ensures { result ≡ control_fault kind }
{
    match kind {
        ErrorKind::OutOfMemory => ServeError::Memory,
        _ => ServeError::Control,
    }
}

/// Adds the buffers that stand behind so many, and says what is told of them.
fn add_there<R, H: HistoryPlace, N: HistoryPlace>(
    rt: &R,
    alloc: Global,
    config: &Config,
    folder: &str,
    served: usize,
    history: &mut H,
    names: &mut N,
) -> Result<Vec<u8>, ServeError>
where
    R: Files<File = File>,
    ensures told { IfOk result (λ text. TellsAdded config.now text.items) }
    ensures fault { IfErr result (IsAddFault config.now) }
{
    let stop = stop_kept(alloc, config, history, names)?;
    let files = hold_files(rt, alloc, &config.buffers, folder)?;
    let first = first_of(alloc, &config.buffers, &files, served)?;
    add_from(alloc, &config.buffers, files, first, stop)
}

/// The number of the first buffer that is to be added, by what the files have: one behind those with
/// which the relay was served, which are so many.
fn first_of(
    alloc: Global,
    settings: &Buffers,
    files: &[HeldFile],
    served: usize,
) -> Result<usize, ServeError>
    requires count { length files.now ≡ length settings.now.buffers.items }
    ensures within { IfOk result (λ first. first ≤ length settings.now.buffers.items) }
    ensures fault { IfErr result (IsFileOrHead settings.now) }
{
    let blank = zeros_in(alloc, settings, files)?;
    match first_added(&blank) {
        Ok(first) => Ok(behind_served(first, served, files.len())),
        Err(number) => Err(headless(alloc, settings, number)),
    }
}

/// The number of the first buffer from this one on, of so many, that is none of those with which the
/// relay was served.
fn behind_served(first: usize, served: usize, count: usize) -> usize
    requires { first ≤ count }
    ensures within { result ≤ count }
    ensures from { first ≤ result }
    ensures behind { served ≤ count → served ≤ result }
    ensures first { served ≤ first → result ≡ first }
{
    if served <= first {
        return first;
    }
    if served <= count { served } else { count }
}

/// Why no buffer can be added: the one of this number has no head block.
fn headless(alloc: Global, settings: &Buffers, number: usize) -> ServeError
    requires { number < length settings.now.buffers.items }
    ensures { IsRefusal settings.now (Some number) reasons.NoHead result }
{
    refusal(alloc, settings, Some(number_of(number)), StopFault::NoHead)
}

/// Whether each file has zeros alone.
fn zeros_in(alloc: Global, settings: &Buffers, files: &[HeldFile]) -> Result<Vec<bool>, ServeError>
    requires count { length files.now ≡ length settings.now.buffers.items }
    ensures count { IfOk result (λ blank. length blank.items ≡ length files.now) }
    ensures fault { IfErr result (IsFileFault settings.now) }
{
    let mut blank = Vec::with_capacity(alloc, files.len())?;
    for number in 0..files.len() {
        let buffer = &settings.buffers[number];
        match files[number].is_zeros() {
            Ok(zeros) => blank.push_reserved(zeros),
            Err(refused) => return Err(unfit(alloc, buffer, &refused)),
        }
    }
    Ok(blank)
}

/// Adds the buffers from this number on, and says what is told of them. Memory for that is taken
/// before anything is written.
fn add_from(
    alloc: Global,
    settings: &Buffers,
    files: Vec<HeldFile>,
    first: usize,
    stop: u64,
) -> Result<Vec<u8>, ServeError>
    requires count { length files.items ≡ length settings.now.buffers.items }
    requires within { first ≤ length settings.now.buffers.items }
    ensures told { IfOk result (λ text.
        text.items ≡ told_text first stop settings.now.buffers.items) }
    ensures fault { IfErr result (IsFileFault settings.now) }
{
    let text = added_text(alloc, &settings.buffers, first, stop)?;
    let stores = fit_added(alloc, settings, files, first)?;
    match add_each(alloc, stores, first, stop) {
        Ok(left) => {
            drop(left);
            Ok(text)
        }
        Err(unadded) => {
            drop(text);
            Err(unmade(alloc, settings, unadded))
        }
    }
}

/// Why buffers aren't made, as it is told.
fn unmade(alloc: Global, settings: &Buffers, unadded: Unadded) -> ServeError
    ensures { IsUnmade settings.now unadded result }
{
    match unadded {
        Unadded::Memory => ServeError::Memory,
        Unadded::Device(number) => unformatted(alloc, settings, number),
    }
}

/// A store in the file of each buffer from this number on, of its blocks, in the order of the
/// buffers. The files of the others are let go as they are.
fn fit_added(
    alloc: Global,
    settings: &Buffers,
    files: Vec<HeldFile>,
    first: usize,
) -> Result<Vec<FileBlocks>, ServeError>
    requires count { length files.items ≡ length settings.now.buffers.items }
    requires within { first ≤ length settings.now.buffers.items }
    ensures blocks { IfOk result (λ stores. map count_of stores.items
        ≡ map (λ buffer. buffer.blocks) (behind first settings.now.buffers.items)) }
    ensures fault { IfErr result (IsFileFault settings.now) }
{
    let mut files = files;
    let mut rest = files.split_off(first)?.into_iter();
    drop(files);
    let mut stores = Vec::with_capacity(alloc, settings.buffers.len())?;
    for number in first..settings.buffers.len() {
        let Some(file) = rest.next() else {
            unreachable!()
        };
        let store = fit(alloc, &settings.buffers[number], file)?;
        stores.push_reserved(store);
    }
    Ok(stores)
}

/// The store in the file of a buffer.
fn fit(alloc: Global, buffer: &BufferConf, file: HeldFile) -> Result<FileBlocks, ServeError>
    ensures blocks { IfOk result (λ store. count_of store ≡ buffer.now.blocks) }
    ensures fault { IfErr result (IsFaultOf buffer.now) }
{
    match FittedFile::of_held(file, buffer.blocks) {
        Ok(fitted) => Ok(FileBlocks::of_fitted(alloc, fitted)?),
        Err(refused) => Err(unfit(alloc, buffer, &refused)),
    }
}
