//! Files of the machine that are looked at.
ghost use Rattle.std.specs.Prelude.{[]};

use cyc_block::{DeviceFailed, Tally};
use file_blocks::{Identity, RunFile, Unusable};
use std::fs::{File, Files};
use std::io::{ErrorKind, Seek, SeekFrom};
use std::os::unix::fs::FileExt;
use std::{fs, io};

/// A regular file of the machine or a block device that is open to be read alone, or one that isn't
/// there. Nobody is kept from it. Behind the end of a regular one it has zeros, as a start would
/// make it longer.
#[derive(Drop)]
pub(crate) struct SeenFile {
    /// The file, where it is there.
    file: Option<File>,
    /// How many octets it has.
    length: u64,
    /// Whether it is a block device.
    is_device: bool,
    /// Its calls, and those that failed.
    asked: Tally,
    failed: Tally,
}

impl SeenFile {
    /// The file at a path, for so many octets, which a block device has to have. Nothing is made,
    /// and nothing waits for another program.
    pub(crate) fn at<R: Files<File = File>>(
        rt: &R,
        path: &str,
        size: u64,
    ) -> Result<SeenFile, Unusable> {
        let found = match fs::metadata(rt, path) {
            Ok(found) => found,
            Err(error) if error.kind() == ErrorKind::NotFound => {
                return Ok(SeenFile::over(None, 0, false));
            }
            Err(error) => return Err(Unusable::Refused(error)),
        };
        let is_device = Identity::of(&found)?.is_device();
        match File::open(rt, path) {
            Ok(file) if is_device => SeenFile::of_device(file, size),
            Ok(file) => Ok(SeenFile::over(Some(file), found.len(), false)),
            Err(error) => Err(Unusable::Refused(error)),
        }
    }

    /// A block device that has to have so many octets.
    fn of_device(mut file: File, size: u64) -> Result<SeenFile, Unusable> {
        let length = file.seek(SeekFrom::End(0))?;
        if length < size {
            return Err(Unusable::TooSmall);
        }
        Ok(SeenFile::over(Some(file), length, true))
    }

    /// Whether it is a block device.
    pub(crate) fn is_device(&self) -> bool {
        self.is_device
    }

    /// The file, with so many octets.
    fn over(file: Option<File>, length: u64, is_device: bool) -> SeenFile {
        SeenFile {
            file,
            length,
            is_device,
            asked: Tally::new(),
            failed: Tally::new(),
        }
    }

    /// Reads the octets at a place, zeros behind the end of the file.
    fn read_there(&self, place: u64, octets: &mut [u8]) -> io::Result<()> {
        octets.fill(0);
        let there = self.length.saturating_sub(place).min(octets.len() as u64) as usize;
        match &self.file {
            Some(file) => file.read_exact_at(&mut octets[..there], place),
            None => Ok(()),
        }
    }
}

impl RunFile for SeenFile {
    // Of a file of the machine nothing is promised, so contracts see no octet of it, and nothing
    // says that it is honest.
    ghost held = { λ file. [] };

    ghost honest = { λ file. ⊥ };

    ghost calls = { λ file. file.asked };

    ghost failures = { λ file. file.failed };

    fn read(&mut self, place: u64, octets: &mut [u8]) -> Result<(), DeviceFailed> {
        self.asked.add_one();
        match self.read_there(place, octets) {
            Ok(()) => Ok(()),
            Err(_) => {
                self.failed.add_one();
                Err(DeviceFailed)
            }
        }
    }

    /// It isn't written.
    fn write(&mut self, _place: u64, _octets: &[u8]) -> Result<(), DeviceFailed> {
        self.asked.add_one();
        self.failed.add_one();
        Err(DeviceFailed)
    }
}
