//! Files that lines are appended to.
ghost use Rattle.std.specs.Prelude.{◌≡◌, ◌++◌, List, OnErr, OnOk, ℕ};
ghost use Rattle.news_log.specs.Growing.{IsFrontBehind};

use std::alloc::{AllocError, Global};
use std::io;

/// A file that lines are appended to, by its path: as often as another one stands there, or none,
/// it is another one.
pub trait NewsFile {
    /// What was written to it, under each name that it had since.
    ghost written: { Self → List ℕ };

    /// Nobody else writes it, and what was written stays.
    ghost honest: { Self → Type 0 };

    /// From now on it is the one of this path, which lies in the folder where it is relative.
    fn name(&mut self, alloc: Global, folder: &str, path: &str) -> Result<(), AllocError>
        ensures same { honest self.old → written self.new ≡ written self.old }
        ensures honest { honest self.old → honest self.new };

    /// Opens what stands at its path, where that isn't open, and makes a file where nothing is
    /// there. Where this fails what was open stays so.
    fn look(&mut self) -> io::Result<()>
        ensures same { honest self.old → written self.new ≡ written self.old }
        ensures honest { honest self.old → honest self.new };

    /// Puts octets behind what is in the file. Where that fails, a front of them may stand there.
    fn append(&mut self, octets: &[u8]) -> io::Result<()>
        ensures written { honest self.old
            → OnOk result (written self.new ≡ written self.old ++ octets.now) }
        ensures front { honest self.old
            → OnErr result (IsFrontBehind (written self.old) octets.now (written self.new)) }
        ensures honest { honest self.old → honest self.new };
}
