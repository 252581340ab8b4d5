//! Files that are flushed beside whoever writes them.
ghost use Rattle.std.specs.Prelude.{◌≡◌, IfOk, is_err};
ghost use Rattle.file_blocks.specs.Host.{flushed_identity, held_identity};

use crate::host::{HeldFile, Unusable};
use crate::which::{Identity, look_before};
use cyc_block::DeviceFailed;
use std::fs::{File, Files, OpenOptions};
use std::io;
use std::io::ErrorKind;

/// A regular file of the machine, or a block device, that is open once more, to be flushed by
/// another thread than the one that writes it.
pub struct Flusher {
    file: File,
    identity: Identity,
}

// Written out, so that no crate above proves anew how each part is let go.
impl Drop for Flusher {
    fn drop(self) {
        let Flusher {
            file: _,
            identity: _,
        } = self;
    }
}

impl HeldFile {
    /// The same file, open once more. It is found by a path of it; where another file stands there
    /// now, that is refused. It takes no lock, and the one by which the file is held stays.
    pub fn flusher<R: Files<File = File>>(&self, rt: &R, path: &str) -> Result<Flusher, Unusable>
        ensures same { IfOk result (λ flusher.
            flushed_identity flusher ≡ held_identity self.now) }
    {
        look_before(rt, path)?;
        let file = OpenOptions::new().read(true).write(true).open(rt, path)?;
        let identity = Identity::of(&file.metadata()?)?;
        if identity == self.identity {
            Ok(Flusher { file, identity })
        } else {
            Err(Unusable::Refused(ErrorKind::Other.into()))
        }
    }
}

impl Flusher {
    /// Has the device take all that was written to the file, through this opening of it and others.
    /// Nothing is read or written. Of what the device couldn't take each opening is told once.
    pub fn flush(&self) -> Result<(), DeviceFailed> {
        told(self.file.sync_all())
    }
}

/// What the machine answered: that it did, or that it failed.
fn told(answer: io::Result<()>) -> Result<(), DeviceFailed>
    ensures { is_err result ≡ is_err answer }
{
    match answer {
        Ok(()) => Ok(()),
        Err(_) => Err(DeviceFailed),
    }
}
