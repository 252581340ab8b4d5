//! Block devices over which zeros are written.
ghost use Rattle.std.specs.Prelude.{◌≡◌, ◌+◌, [], OnErr, OnOk};

use crate::file::RunFile;
use crate::zeros::SafeFile;
use cyc_block::{DeviceFailed, Tally};
use std::fs::File;
use std::io;
use std::os::unix::fs::FileExt;

/// A block device of the machine, open to be read and written.
#[derive(Drop)]
pub(crate) struct Device<'a> {
    file: &'a File,
    /// Its calls, and those that failed.
    asked: Tally,
    failed: Tally,
}

impl<'a> Device<'a> {
    /// The device that is open there, of which nothing was asked.
    pub(crate) fn of(file: &'a File) -> Device<'a> {
        Device {
            file,
            asked: Tally::new(),
            failed: Tally::new(),
        }
    }

    /// Counts a call, and says whether it failed.
    fn answer(&mut self, answer: io::Result<()>) -> Result<(), DeviceFailed>
        ensures asked { self.new.asked ≡ self.old.asked + 1 }
        ensures failed { OnErr result (self.new.failed ≡ self.old.failed + 1) }
        ensures no_failure { OnOk result (self.new.failed ≡ self.old.failed) }
    {
        self.asked.add_one();
        match answer {
            Ok(()) => Ok(()),
            Err(_) => {
                self.failed.add_one();
                Err(DeviceFailed)
            }
        }
    }
}

impl RunFile for Device<'_> {
    // Of a device of the machine nothing is promised, so contracts see no octet of it, and nothing
    // says that it is honest.
    ghost held = { λ device. [] };

    ghost honest = { λ device. ⊥ };

    ghost calls = { λ device. device.asked };

    ghost failures = { λ device. device.failed };

    fn read(&mut self, place: u64, octets: &mut [u8]) -> Result<(), DeviceFailed> {
        let answer = self.file.read_exact_at(octets, place);
        self.answer(answer)
    }

    fn write(&mut self, place: u64, octets: &[u8]) -> Result<(), DeviceFailed> {
        let answer = self.file.write_all_at(octets, place);
        self.answer(answer)
    }
}

impl SafeFile for Device<'_> {
    ghost safe = { λ device. [] };

    fn flush(&mut self) -> Result<(), DeviceFailed> {
        match self.file.sync_all() {
            Ok(()) => Ok(()),
            Err(_) => Err(DeviceFailed),
        }
    }
}
