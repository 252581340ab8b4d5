//! The files of the buffers (docs/FORMATS.md, cycbuff.conf).
ghost use Rattle.std.specs.Prelude.{◌≡◌, ◌↔◌, length, map, All, AllPairs, Any, IfErr, IfOk};
ghost use Rattle.std.specs.Prelude.{IsSome, IsTrue, MatchBool};
ghost use Rattle.buffer_files.specs.Files.{HasReason, IsFaultAt, IsFaultOf, IsFileFault};
ghost use Rattle.buffer_files.specs.Files.{DifferentFiles, SharesFile, WasBlank, WasEmptied};
ghost use Rattle.file_blocks.specs.Fitted.{count_of as fitted_count};
ghost use Rattle.file_blocks.specs.Host.{flushed_identity, held_identity};
ghost use Rattle.file_blocks.specs.Store.{count_of, was_blank};

use crate::reasons::reason_of;
use file_blocks::{FileBlocks, FittedFile, Flusher, HeldFile, Identity, RunFile, Unusable};
use relay_conf::{BufferConf, Buffers};
use relay_report::{LostFile, Reason, ServeError};
use std::alloc::{AllocError, Global};
use std::fs::{File, Files};
use std::path::{Path, PathBuf};
use std::str;

/// The file of each buffer, held, in the order of the buffers. A file whose path is relative lies
/// in the folder. Nothing is read of them or written to them. The error is want of memory, or the
/// first file that can't be had, as one that another holds, or one that is the file of an earlier
/// buffer, whatever its name.
pub fn hold_files<R: Files<File = File>>(
    rt: &R,
    alloc: Global,
    settings: &Buffers,
    folder: &str,
) -> Result<Vec<HeldFile>, ServeError>
    ensures count { IfOk result (λ files. length files.items
        ≡ length settings.now.buffers.items) }
    ensures apart { IfOk result (λ files. AllPairs DifferentFiles files.items) }
    ensures fault { IfErr result (IsFileFault settings.now) }
{
    let mut files = Vec::with_capacity(alloc, settings.buffers.len())?;
    for buffer in &settings.buffers {
        let file = held_or_told(rt, alloc, settings, folder, buffer, &files)?;
        files.push_reserved(file);
    }
    Ok(files)
}

/// The file of a buffer, held, beside those of the buffers before it. The error is want of memory,
/// or that it can't be had.
fn held_or_told<R: Files<File = File>>(
    rt: &R,
    alloc: Global,
    settings: &Buffers,
    folder: &str,
    buffer: &BufferConf,
    earlier: &[HeldFile],
) -> Result<HeldFile, ServeError>
    ensures apart { IfOk result (λ file. All (DifferentFiles file) earlier.now) }
    ensures fault { IfErr result (IsFaultOf buffer.now) }
{
    match hold_file(rt, alloc, buffer, folder, earlier) {
        Ok(file) => Ok(file),
        Err(Some(reason)) => {
            let count = earlier.len();
            Err(unheld(rt, alloc, settings, count, folder, buffer, reason))
        }
        Err(None) => Err(ServeError::Memory),
    }
}

/// The file of a buffer, held, or why that can't be had, as one that is one of the others; no
/// reason where memory was refused.
fn hold_file<R: Files<File = File>>(
    rt: &R,
    alloc: Global,
    buffer: &BufferConf,
    folder: &str,
    others: &[HeldFile],
) -> Result<HeldFile, Option<Reason>>
    ensures { IfOk result (λ file. All (DifferentFiles file) others.now) }
{
    let path = path_of(alloc, folder, buffer)?;
    match HeldFile::hold(rt, path.as_str()) {
        Ok(file) => {
            if is_one_of(&file, others) {
                Err(Some(Reason::Shared))
            } else {
                Ok(file)
            }
        }
        Err(refused) => Err(reason_of(&refused)),
    }
}

/// The file of a buffer, which is held, open once more to be flushed beside whoever writes it. The
/// error is want of memory, or that this can't be done.
pub fn flusher_of<R: Files<File = File>>(
    rt: &R,
    alloc: Global,
    folder: &str,
    buffer: &BufferConf,
    held: &HeldFile,
) -> Result<Flusher, ServeError>
    ensures same { IfOk result (λ flusher. flushed_identity flusher ≡ held_identity held.now) }
    ensures fault { IfErr result (IsFaultOf buffer.now) }
{
    match open_once_more(rt, alloc, folder, buffer, held) {
        Ok(flusher) => Ok(flusher),
        Err(Some(reason)) => Err(unusable(alloc, buffer, reason)),
        Err(None) => Err(ServeError::Memory),
    }
}

/// The file of a buffer, which is held, open once more, or why that can't be; no reason where
/// memory was refused.
fn open_once_more<R: Files<File = File>>(
    rt: &R,
    alloc: Global,
    folder: &str,
    buffer: &BufferConf,
    held: &HeldFile,
) -> Result<Flusher, Option<Reason>>
    ensures { IfOk result (λ flusher. flushed_identity flusher ≡ held_identity held.now) }
{
    let path = path_of(alloc, folder, buffer)?;
    match held.flusher(rt, path.as_str()) {
        Ok(flusher) => Ok(flusher),
        Err(refused) => Err(reason_of(&refused)),
    }
}

/// The path of the file of a buffer, or why it has none; no reason where memory was refused.
pub fn path_of(
    alloc: Global,
    folder: &str,
    buffer: &BufferConf,
) -> Result<PathBuf, Option<Reason>> {
    match str::from_utf8(buffer.file.as_slice()) {
        Ok(file) => match Path::new(folder).join(alloc, file) {
            Ok(path) => Ok(path),
            Err(_) => Err(None),
        },
        Err(_) => Err(Some(Reason::NoText)),
    }
}

/// The fault of the file of a buffer that can't be held. One that is locked may be the file of one
/// of the first so many buffers, which hold theirs.
fn unheld<R: Files>(
    rt: &R,
    alloc: Global,
    settings: &Buffers,
    count: usize,
    folder: &str,
    buffer: &BufferConf,
    reason: Reason,
) -> ServeError
    ensures { IsFaultOf buffer.now result }
{
    match reason {
        Reason::Held => match is_of_earlier(rt, alloc, settings, count, folder, buffer) {
            Ok(true) => unusable(alloc, buffer, Reason::Shared),
            Ok(false) => unusable(alloc, buffer, Reason::Held),
            Err(_) => ServeError::Memory,
        },
        other => unusable(alloc, buffer, other),
    }
}

/// Whether the file of a buffer is that of one of the first so many, whatever its name.
pub fn is_of_earlier<R: Files>(
    rt: &R,
    alloc: Global,
    settings: &Buffers,
    count: usize,
    folder: &str,
    buffer: &BufferConf,
) -> Result<bool, AllocError> {
    let own = identity_of(rt, alloc, folder, buffer)?;
    let buffers = settings.buffers.as_slice();
    for earlier in buffers.get(..count).unwrap_or(buffers) {
        let other = identity_of(rt, alloc, folder, earlier)?;
        if is_same(own, other) {
            return Ok(true);
        }
    }
    Ok(false)
}

/// Which file that of a buffer is, where that is to be had.
fn identity_of<R: Files>(
    rt: &R,
    alloc: Global,
    folder: &str,
    buffer: &BufferConf,
) -> Result<Option<Identity>, AllocError> {
    match path_of(alloc, folder, buffer) {
        Ok(path) => Ok(identity_at(rt, path.as_str())),
        Err(Some(_)) => Ok(None),
        Err(None) => Err(AllocError),
    }
}

/// Which file stands at a path, where that is to be had.
fn identity_at<R: Files>(rt: &R, path: &str) -> Option<Identity> {
    match rt.metadata(path) {
        Ok(found) => match Identity::of(&found) {
            Ok(identity) => Some(identity),
            Err(_) => None,
        },
        Err(_) => None,
    }
}

/// Whether both are one file, and that is to be had.
fn is_same(own: Option<Identity>, other: Option<Identity>) -> bool
    ensures { IsTrue result ↔ IsSome own × (own ≡ other) }
{
    match (own, other) {
        (Some(own), Some(other)) => own == other,
        _ => false,
    }
}

/// Whether the file is one of the others.
fn is_one_of(file: &HeldFile, others: &[HeldFile]) -> bool
    ensures { MatchBool result (Any (SharesFile file.now) others.now)
        (All (DifferentFiles file.now) others.now) }
{
    for other in others {
        if file.same_file(other) {
            return true;
        }
    }
    false
}

/// A store in the file of each buffer, of its blocks, in the order of the buffers, which writes and
/// reads runs of them: each file is made as long as that takes, its last block is tried, and it is
/// looked whether a buffer was kept there; a block device has to be as long, and isn't written. The
/// error is want of memory, or the first file with which that can't be done.
pub fn fit_files(
    alloc: Global,
    settings: &Buffers,
    files: Vec<HeldFile>,
) -> Result<Vec<FileBlocks>, ServeError>
    requires count { length files.items ≡ length settings.now.buffers.items }
    ensures blocks { IfOk result (λ stores. map count_of stores.items
        ≡ map (λ buffer. buffer.blocks) settings.now.buffers.items) }
    ensures fault { IfErr result (IsFileFault settings.now) }
{
    let mut stores = Vec::with_capacity(alloc, settings.buffers.len())?;
    let mut rest = files.into_iter();
    for buffer in &settings.buffers {
        let Some(file) = rest.next() else {
            unreachable!()
        };
        let store = fit_file(alloc, buffer, file)?;
        stores.push_reserved(store);
    }
    Ok(stores)
}

/// The store in the file of a buffer, into which was looked.
fn fit_file(alloc: Global, buffer: &BufferConf, file: HeldFile) -> Result<FileBlocks, ServeError>
    ensures blocks { IfOk result (λ store. count_of store ≡ buffer.now.blocks) }
    ensures fault { IfErr result (IsFaultOf buffer.now) }
{
    match FittedFile::of_held(file, buffer.blocks) {
        Ok(mut file) => {
            look_into(&mut file);
            Ok(FileBlocks::of_fitted(alloc, file)?)
        }
        Err(refused) => Err(unfit(alloc, buffer, &refused)),
    }
}

/// Looks into a file whether a buffer was kept there. A block device is looked through whether
/// anything was: what another program keeps there may begin anywhere, and isn't to be written over.
fn look_into(file: &mut FittedFile)
    ensures { fitted_count file.new ≡ fitted_count file.old }
{
    if file.is_device() {
        file.look_through();
    } else {
        file.look();
    }
}

/// The stores, the file of each of which was emptied: a regular one was made as long again, of a
/// block device all blocks have zeros. The error is want of memory, or the first file with which
/// that can't be done.
pub(crate) fn empty_files(
    alloc: Global,
    settings: &Buffers,
    stores: Vec<FileBlocks>,
) -> Result<Vec<FileBlocks>, ServeError>
    ensures blocks { IfOk result (λ emptied. map count_of emptied.items
        ≡ map count_of stores.items) }
    ensures found { IfOk result (λ emptied. map was_blank emptied.items
        ≡ map was_blank stores.items) }
    ensures emptied { IfOk result (λ emptied. All WasEmptied emptied.items) }
    ensures fault { IfErr result (IsFileFault settings.now) }
{
    let mut emptied = Vec::with_capacity(alloc, stores.len())?;
    for store in stores {
        let number = emptied.len();
        let store = empty_file(alloc, settings, number, store)?;
        emptied.push_reserved(store);
    }
    Ok(emptied)
}

/// The store of the buffer of this number, whose file was emptied.
fn empty_file(
    alloc: Global,
    settings: &Buffers,
    number: usize,
    mut store: FileBlocks,
) -> Result<FileBlocks, ServeError>
    ensures blocks { IfOk result (λ emptied. count_of emptied ≡ count_of store) }
    ensures found { IfOk result (λ emptied. was_blank emptied ≡ was_blank store) }
    ensures emptied { IfOk result WasEmptied }
    ensures fault { IfErr result (IsFileFault settings.now) }
{
    match store.empty() {
        Ok(()) => Ok(store),
        Err(refused) => Err(unfit_at(alloc, settings, number, &refused)),
    }
}

/// The fault of the file of the buffer of this number that can't be used so.
fn unfit_at(alloc: Global, settings: &Buffers, number: usize, refused: &Unusable) -> ServeError
    ensures { IsFileFault settings.now result }
{
    match settings.buffers.get(number) {
        Some(buffer) => unfit(alloc, buffer, refused),
        None => ServeError::Memory,
    }
}

/// Whether no buffer was found in any of the files.
pub fn are_blank<F: RunFile>(stores: &[FileBlocks<F>]) -> bool
    ensures { IsTrue result ↔ All WasBlank stores.now }
{
    for store in stores {
        if !store.was_blank() {
            return false;
        }
    }
    true
}

/// The fault of the file of a buffer that can't be used so.
pub fn unfit(alloc: Global, buffer: &BufferConf, refused: &Unusable) -> ServeError
    ensures { IsFaultOf buffer.now result }
{
    match reason_of(refused) {
        Some(reason) => unusable(alloc, buffer, reason),
        None => ServeError::Memory,
    }
}

/// The fault of the file of the buffer of this number, whose head block couldn't be written.
pub fn unformatted(alloc: Global, settings: &Buffers, number: u8) -> ServeError
    ensures { IsFaultAt settings.now number result }
{
    match settings.buffers.get(usize::from(number)) {
        Some(buffer) => unusable(alloc, buffer, Reason::Unwritten),
        None => ServeError::Memory,
    }
}

/// The fault of a buffer's file: its name as cycbuff.conf has it, with a mark in the place of what
/// is no UTF-8, and why it can't be had, or want of memory for it.
pub fn unusable(alloc: Global, buffer: &BufferConf, reason: Reason) -> ServeError
    ensures name { IsFaultOf buffer.now result }
    ensures reason { HasReason reason result }
{
    match String::from_utf8_lossy(alloc, buffer.file.as_slice()) {
        Ok(name) => ServeError::File(LostFile { name, reason }),
        Err(_) => ServeError::Memory,
    }
}
