//! Files of the machine: regular ones and block devices.
ghost use Rattle.std.specs.Prelude.{◌≡◌, ◌+◌, ◌++◌, ◌∷◌, [], true, false, length, is_err};
ghost use Rattle.std.specs.Prelude.{◌↔◌, ◌≤◌, IfErr, IfOk, IsOk, IsTrue, OnErr, OnOk};
ghost use Rattle.file_blocks.specs.declared.host.Unusable.TheVariants as unusable;
ghost use Rattle.file_blocks.specs.Host.{asked_of, failed_in, held_identity, identity_of};
ghost use Rattle.file_blocks.specs.Host.{IsEmptied, IsFlushed};

use crate::device::Device;
use crate::file::RunFile;
use crate::fitted::size_of;
use crate::which::{Identity, look_before};
use crate::zeros::zero_blocks;
use cyc_block::{BLOCK_OCTETS, DeviceFailed, are_zeros};
use http_server::Log;
use std::fs::{File, Files, OpenOptions, TryLockError};
use std::io;
use std::io::{Seek, SeekFrom};
use std::os::unix::fs::FileExt;

/// How many octets are read at once to see whether a file has zeros alone.
const PIECE: usize = 65_536;

/// How many such pieces are read at most: no file is longer.
const MOST_PIECES: u64 = 1 << 47;

/// Why a file can't be used, in the order of trial.
#[derive(Drop)]
pub enum Unusable {
    /// What stands at the path is neither a regular file nor a block device, such as a folder, a
    /// pipe or a terminal.
    NotRegular,
    /// Another holds it, as a relay that is served by it.
    Locked,
    /// It is a block device with fewer octets than the blocks and their head blocks take.
    TooSmall,
    /// It is a block device over which zeros couldn't be written.
    Unwritten,
    /// The machine refused to find it, open it, lock it, ask its size, make it longer, or read and
    /// write its last block.
    Refused(io::Error),
}

impl From<DeviceFailed> for Unusable {
    fn from(_failed: DeviceFailed) -> Unusable
        ensures { result ≡ unusable.Unwritten }
    {
        Unusable::Unwritten
    }
}

impl From<io::Error> for Unusable {
    fn from(error: io::Error) -> Unusable
        ensures { result ≡ unusable.Refused error }
    {
        Unusable::Refused(error)
    }
}

/// A regular file of the machine, or a block device, that is held: it is open to be read and
/// written, and locked, so that nobody else who asks for its lock has it. Nothing was read of it or
/// written to it.
pub struct HeldFile {
    file: File,
    pub(crate) identity: Identity,
}

// Written out, so that no crate above proves anew how each part is let go.
impl Drop for HeldFile {
    fn drop(self) {
        let HeldFile {
            file: _,
            identity: _,
        } = self;
    }
}

impl HeldFile {
    /// Holds the file at a path, until the file is closed. It is made where it isn't there. Nothing
    /// waits for another program, as the opening of a pipe or a lock would.
    pub fn hold<R: Files<File = File>>(rt: &R, path: &str) -> Result<HeldFile, Unusable> {
        look_before(rt, path)?;
        let file = OpenOptions::new()
            .read(true)
            .write(true)
            .create(true)
            .open(rt, path)?;
        // Another may have taken its place since.
        let identity = Identity::of(&file.metadata()?)?;
        lock(&file)?;
        Ok(HeldFile { file, identity })
    }

    /// Whether both are one file, whatever its names: the same inode of the same device, or one
    /// block device.
    pub fn same_file(&self, other: &HeldFile) -> bool
        ensures { IsTrue result ↔ (held_identity self.now ≡ held_identity other.now) }
    {
        self.identity == other.identity
    }

    /// Whether the file has no other octet than 0, as one that was just made or made longer. Of a
    /// block device all octets are read, also those behind a buffer.
    pub fn is_zeros(&self) -> Result<bool, Unusable> {
        let mut room = [0; PIECE];
        let mut place: u64 = 0;
        for _ in 0..MOST_PIECES {
            let count = self.file.read_at(&mut room, place)?;
            if count == 0 {
                return Ok(true);
            }
            if !are_zeros(&room[..count]) {
                return Ok(false);
            }
            place = place.saturating_add(count as u64);
        }
        Ok(false)
    }

    /// The file, which has so many octets afterwards, or more. A regular one is made longer with
    /// zeros where it is shorter, and is left as it is where it is longer; its last block of these
    /// is tried. A block device has to have as many, and isn't written.
    pub(crate) fn fit(self, size: u64) -> Result<HostFile, Unusable>
        ensures unasked { IfOk result (λ file. asked_of file ≡ []) }
        ensures same { IfOk result (λ file. identity_of file ≡ held_identity self) }
    {
        let HeldFile { file, identity } = self;
        if identity.is_device() {
            take_long_enough(end_of_device(&file)?, size)?;
        } else {
            make_longer(&file, size)?;
        }
        Ok(HostFile {
            file,
            identity,
            asked: Log::new(),
            flushed: false,
            emptied: false,
        })
    }
}

/// A regular file of the machine, or a block device, open to be read and written, and locked.
#[derive(Drop)]
pub struct HostFile {
    file: File,
    pub(crate) identity: Identity,
    /// The place of each call, and whether it failed.
    asked: Log<u64, bool>,
    /// Whether the device was had take all that was written.
    flushed: bool,
    /// Whether it was emptied since it was opened.
    emptied: bool,
}

impl HostFile {
    /// Has the device take all that was written.
    pub fn flush(&self) -> Result<(), DeviceFailed> {
        match self.file.sync_all() {
            Ok(()) => Ok(()),
            Err(_) => Err(DeviceFailed),
        }
    }

    /// The same, which is noted until more is written.
    pub fn flush_noted(&mut self) -> Result<(), DeviceFailed>
        ensures flushed { OnOk result (IsFlushed self.new) }
        ensures failed { OnErr result (¬ IsFlushed self.new) }
        ensures asked { asked_of self.new ≡ asked_of self.old }
        ensures same { identity_of self.new ≡ identity_of self.old }
    {
        match self.flush() {
            Ok(()) => {
                self.flushed = true;
                Ok(())
            }
            Err(failed) => {
                self.flushed = false;
                Err(failed)
            }
        }
    }

    /// Empties the file: nothing of what was kept there in n blocks and their head blocks stays. A
    /// regular one is made as long again, and long enough for them, each octet of which is 0 then,
    /// also behind them, and its last block of these is tried. Over those of a block device zeros
    /// are written, which the device takes; what is behind them stays. It is noted.
    pub(crate) fn empty(&mut self, n: u32) -> Result<(), Unusable>
        ensures emptied { OnOk result (IsEmptied self.new) }
        ensures failed { OnErr result (self.new.emptied ≡ self.old.emptied) }
        ensures unflushed { ¬ IsFlushed self.new }
        ensures asked { asked_of self.new ≡ asked_of self.old }
        ensures same { identity_of self.new ≡ identity_of self.old }
    {
        self.flushed = false;
        if self.identity.is_device() {
            zero_blocks(&mut Device::of(&self.file), n)?;
        } else {
            empty_regular(&self.file, size_of(n))?;
        }
        self.emptied = true;
        Ok(())
    }

    /// Notes the answer of a call at a place, and says whether it failed.
    fn answer(&mut self, place: u64, answer: io::Result<()>) -> Result<(), DeviceFailed>
        ensures answer { is_err result ≡ is_err answer }
        ensures asked { asked_of self.new ≡ asked_of self.old ++ (place, is_err result) ∷ [] }
        ensures failed { OnErr result (failed_in (asked_of self.new)
            ≡ failed_in (asked_of self.old) + 1) }
        ensures no_failure { OnOk result (failed_in (asked_of self.new)
            ≡ failed_in (asked_of self.old)) }
        ensures flushed { IsFlushed self.new ↔ IsFlushed self.old }
        ensures emptied { self.new.emptied ≡ self.old.emptied }
    {
        self.asked = self.asked.and(&place, &answer.is_err());
        match answer {
            Ok(()) => Ok(()),
            Err(_) => Err(DeviceFailed),
        }
    }
}

impl RunFile for HostFile {
    // Of a file of the machine nothing is promised, so contracts see no octet of it, and nothing
    // says that it is honest.
    ghost held = { λ file. [] };

    ghost honest = { λ file. ⊥ };

    ghost calls = { λ file. length (asked_of file) };

    ghost failures = { λ file. failed_in (asked_of file) };

    fn read(&mut self, place: u64, octets: &mut [u8]) -> Result<(), DeviceFailed>
        // It is one call, at this place.
        ensures asked { asked_of self.new ≡ asked_of self.old ++ (place, is_err result) ∷ [] }
        ensures failed { OnErr result (failed_in (asked_of self.new)
            ≡ failed_in (asked_of self.old) + 1) }
        ensures no_failure { OnOk result (failed_in (asked_of self.new)
            ≡ failed_in (asked_of self.old)) }
    {
        let answer = self.file.read_exact_at(octets, place);
        self.answer(place, answer)
    }

    fn write(&mut self, place: u64, octets: &[u8]) -> Result<(), DeviceFailed>
        // It is one call, at this place.
        ensures asked { asked_of self.new ≡ asked_of self.old ++ (place, is_err result) ∷ [] }
        ensures failed { OnErr result (failed_in (asked_of self.new)
            ≡ failed_in (asked_of self.old) + 1) }
        ensures no_failure { OnOk result (failed_in (asked_of self.new)
            ≡ failed_in (asked_of self.old)) }
        // What is written may be in memory alone.
        ensures unflushed { ¬ IsFlushed self.new }
    {
        self.flushed = false;
        let answer = self.file.write_all_at(octets, place);
        self.answer(place, answer)
    }
}

/// Makes a regular file so long with zeros where it is shorter, and tries its last block of these.
fn make_longer(file: &File, size: u64) -> Result<(), Unusable> {
    if file.metadata()?.len() < size {
        file.set_len(size)?;
    }
    Ok(try_last_block(file, size)?)
}

/// Empties a regular file, makes it as long again, and so long at least, and tries its last block
/// of these.
fn empty_regular(file: &File, size: u64) -> Result<(), Unusable> {
    let length = file.metadata()?.len();
    file.set_len(0)?;
    file.set_len(length.max(size))?;
    Ok(try_last_block(file, size)?)
}

/// How many octets a block device has: of one the machine says no length.
fn end_of_device(file: &File) -> io::Result<u64> {
    let mut file = file;
    file.seek(SeekFrom::End(0))
}

/// Takes a block device that has so many octets, or more.
fn take_long_enough(length: u64, size: u64) -> Result<(), Unusable>
    ensures enough { IsOk result ↔ (size ≤ length) }
    ensures named { IfErr result (λ error. error ≡ unusable.TooSmall) }
{
    if size <= length {
        Ok(())
    } else {
        Err(Unusable::TooSmall)
    }
}

/// Locks a file, where nobody else has its lock. Nothing waits.
fn lock(file: &File) -> Result<(), Unusable> {
    match file.try_lock() {
        Ok(()) => Ok(()),
        Err(TryLockError::WouldBlock) => Err(Unusable::Locked),
        Err(TryLockError::Error(error)) => Err(error.into()),
    }
}

/// Reads the last block of so many octets and writes it back as it is, so that a disk that is full
/// is told before anything is served.
fn try_last_block(file: &File, size: u64) -> io::Result<()> {
    let Some(place) = size.checked_sub(BLOCK_OCTETS as u64) else {
        return Ok(());
    };
    let mut octets = [0; BLOCK_OCTETS];
    file.read_exact_at(&mut octets, place)?;
    file.write_all_at(&octets, place)
}
