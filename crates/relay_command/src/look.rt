//! Looking at what lies where the files of buffers are to be (docs/FORMATS.md, cycbuff.conf).
ghost use Rattle.std.specs.Prelude.{◌≡◌, length, IfErr, IfOk};
ghost use Rattle.relay_command.specs.declared.load.CheckError.TheVariants.{Memory};

use crate::load::CheckError;
use file_blocks::{Identity, size_of};
use relay_conf::{BufferConf, Buffers};
use relay_drill::{DrillError, read_all};
use relay_explain::{Found, found_device, found_of};
use std::alloc::Global;
use std::fs::Files;
use std::io::{ErrorKind, Read, Seek, SeekFrom};
use std::path::Path;
use std::{fs, str};

/// The octets of a file that are looked at: its first block.
const FRONT_OCTETS: u64 = 512;

/// Those of a block device: file systems begin behind up to 64 KiB of zeros.
const DEVICE_FRONT_OCTETS: u64 = 131_072;

/// What lies where the file of each buffer is to be, in the order of the buffers. A file whose path
/// is relative lies in the folder. Nothing is made or locked, and nothing is waited for.
pub(crate) fn look_at_files<R: Files>(
    rt: &R,
    alloc: Global,
    settings: &Buffers,
    folder: &str,
) -> Result<Vec<Found>, CheckError>
    ensures count { IfOk result (λ found. length found.items
        ≡ length settings.now.buffers.items) }
    ensures memory { IfErr result (λ error. error ≡ Memory) }
{
    let mut found = Vec::with_capacity(alloc, settings.buffers.len())?;
    for buffer in &settings.buffers {
        found.push_reserved(look_at_file(rt, alloc, buffer, folder)?);
    }
    Ok(found)
}

/// What lies where the file of a buffer is to be. A path that is no UTF-8 can't be looked at.
fn look_at_file<R: Files>(
    rt: &R,
    alloc: Global,
    buffer: &BufferConf,
    folder: &str,
) -> Result<Found, CheckError>
    ensures { IfErr result (λ error. error ≡ Memory) }
{
    let Ok(file) = str::from_utf8(buffer.file.as_slice()) else {
        return Ok(Found::Unseen);
    };
    let path = Path::new(folder).join(alloc, file)?;
    look_at(rt, alloc, path.as_str(), size_of(buffer.blocks))
}

/// What lies at a path, for a buffer that takes so many octets.
fn look_at<R: Files>(rt: &R, alloc: Global, path: &str, size: u64) -> Result<Found, CheckError>
    ensures { IfErr result (λ error. error ≡ Memory) }
{
    match kind_at(rt, path) {
        Ok(Kind::Regular) => look_into(rt, alloc, path),
        Ok(Kind::Device) => look_into_device(rt, alloc, path, size),
        Ok(Kind::Other) => Ok(Found::NotRegular),
        Err(ErrorKind::NotFound) => Ok(absent(rt, path)),
        Err(_) => Ok(Found::Unseen),
    }
}

/// What kind of file lies at a path.
#[derive(Clone, Copy)]
enum Kind {
    Regular,
    Device,
    Other,
}

/// What kind of file lies at a path, or why that can't be told.
fn kind_at<R: Files>(rt: &R, path: &str) -> Result<Kind, ErrorKind> {
    match fs::metadata(rt, path) {
        Ok(there) => match Identity::of(&there) {
            Ok(identity) if identity.is_device() => Ok(Kind::Device),
            Ok(_) => Ok(Kind::Regular),
            Err(_) => Ok(Kind::Other),
        },
        Err(error) => Err(error.kind()),
    }
}

/// That nothing lies at a path, with or without the folder that it is to be in.
fn absent<R: Files>(rt: &R, path: &str) -> Found {
    match Path::new(path).parent() {
        None => Found::NoFolder,
        Some(folder) => {
            let name = folder.as_str();
            let name = if name.is_empty() { "." } else { name };
            if is_folder(rt, name) {
                Found::Absent
            } else {
                Found::NoFolder
            }
        }
    }
}

/// Whether a folder lies at a path.
fn is_folder<R: Files>(rt: &R, path: &str) -> bool {
    match fs::metadata(rt, path) {
        Ok(there) => there.is_dir(),
        Err(_) => false,
    }
}

/// What a regular file is, by its first octets.
fn look_into<R: Files>(rt: &R, alloc: Global, path: &str) -> Result<Found, CheckError>
    ensures { IfErr result (λ error. error ≡ Memory) }
{
    let Ok(file) = fs::File::open(rt, path) else {
        return Ok(Found::Unseen);
    };
    let mut front = file.take(FRONT_OCTETS);
    let read = read_all(alloc, &mut front);
    drop(front);
    match read {
        Ok(octets) => Ok(found_of(&octets)),
        Err(error) => unread(&error),
    }
}

/// What a block device is, for a buffer that takes so many octets, by its size and its first
/// octets.
fn look_into_device<R: Files>(
    rt: &R,
    alloc: Global,
    path: &str,
    size: u64,
) -> Result<Found, CheckError>
    ensures { IfErr result (λ error. error ≡ Memory) }
{
    let Ok(mut file) = fs::File::open(rt, path) else {
        return Ok(Found::Unseen);
    };
    let Ok(octets) = file.seek(SeekFrom::End(0)) else {
        return Ok(Found::Unseen);
    };
    if file.seek(SeekFrom::Start(0)).is_err() {
        return Ok(Found::Unseen);
    }
    let mut front = file.take(DEVICE_FRONT_OCTETS);
    let read = read_all(alloc, &mut front);
    drop(front);
    match read {
        Ok(seen) => Ok(found_device(octets, size, &seen)),
        Err(error) => unread(&error),
    }
}

/// What a file is that can't be read; want of memory says nothing of it.
fn unread(error: &DrillError) -> Result<Found, CheckError>
    ensures { IfErr result (λ error. error ≡ Memory) }
{
    match error {
        DrillError::Memory => Err(CheckError::Memory),
        _ => Ok(Found::Unseen),
    }
}
