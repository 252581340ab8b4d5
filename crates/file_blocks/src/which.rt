//! Which file it is that stands at a path: a regular one or a block device.
ghost use Rattle.std.specs.Prelude.{◌≡◌, ◌↔◌, ◌⊎◌, IfErr, IfOk, IsOk, IsTrue};
ghost use Rattle.std.specs.Fs.{file_type, IsFile};
ghost use Rattle.file_blocks.specs.declared.host.Unusable.TheVariants as unusable;
ghost use Rattle.file_blocks.specs.Which.{IsBlockDevice, IsOfDevice};

use crate::host::Unusable;
use std::fs::{Files, Metadata};
use std::os::unix::fs::MetadataExt;
use std::{fs, io};

/// The bits of the mode that say what kind of file it is (stat(2), `S_IFMT`).
const KIND: u32 = 0o170000;

/// Those of a block device (stat(2), `S_IFBLK`).
const BLOCK_DEVICE: u32 = 0o060000;

/// Which file it is, whatever its names.
#[derive(Clone, Copy, PartialEq, Eq)]
pub enum Identity {
    /// A regular file: the number of the device that it lies on, and that of its inode there.
    Regular { device: u64, inode: u64 },
    /// A block device: its own number, which each node of it has.
    Device { number: u64 },
}

impl Identity {
    /// Which file it is of which this was found: a regular one or a block device, and nothing else.
    pub fn of(found: &Metadata) -> Result<Identity, Unusable>
        ensures usable { IsOk result ↔ (IsFile (file_type found.now) ⊎ IsBlockDevice found.now) }
        ensures device { IfOk result (λ which. IsOfDevice which ↔ IsBlockDevice found.now) }
        ensures named { IfErr result (λ error. error ≡ unusable.NotRegular) }
    {
        if found.is_file() {
            return Ok(Identity::Regular {
                device: found.dev(),
                inode: found.ino(),
            });
        }
        if is_block_device(found) {
            return Ok(Identity::Device {
                number: found.rdev(),
            });
        }
        Err(Unusable::NotRegular)
    }

    /// Whether it is a block device.
    pub fn is_device(self) -> bool
        ensures { IsTrue result ↔ IsOfDevice self }
    {
        match self {
            Identity::Regular {
                device: _,
                inode: _,
            } => false,
            Identity::Device { number: _ } => true,
        }
    }
}

/// Whether that is a block device of which this was found.
fn is_block_device(found: &Metadata) -> bool
    ensures { IsTrue result ↔ IsBlockDevice found.now }
{
    found.mode() & KIND == BLOCK_DEVICE
}

/// Refuses what stands at the path and is neither a regular file nor a block device. Where nothing
/// stands there, the file is to be made.
pub(crate) fn look_before(rt: &impl Files, path: &str) -> Result<(), Unusable> {
    match fs::metadata(rt, path) {
        Ok(found) => {
            Identity::of(&found)?;
            Ok(())
        }
        Err(error) if error.kind() == io::ErrorKind::NotFound => Ok(()),
        Err(error) => Err(error.into()),
    }
}
