//! Files as a store of runs asks them.
ghost use Rattle.std.specs.Prelude.{◌≡◌, ◌+◌, ℕ, List, length, OnOk, OnErr};
ghost use Rattle.file_blocks.specs.File.{octets_in, ChangesOnlyIn};

use cyc_block::DeviceFailed;

/// A file of which any number of octets at a place are read or written at once.
pub trait RunFile {
    /// What the file holds, as far as anything is promised of it.
    ghost held: { Self → List ℕ };

    /// How often the file was asked, a count without end: each read and each write is one call.
    ghost calls: { Self → ℕ };

    /// How many of the calls failed, a count without end.
    ghost failures: { Self → ℕ };

    /// A read that answers Ok gives what was last written there by a write that answered Ok, and
    /// nobody else writes the file.
    ghost honest: { Self → Type 0 };

    /// Reads the octets at a place, as many as the slice has. A failed read leaves any octets in
    /// the slice and changes nothing else.
    fn read(&mut self, place: u64, octets: &mut [u8]) -> Result<(), DeviceFailed>
        ensures octets { honest self.old → OnOk result (octets.new
            ≡ octets_in (held self.old) place (length octets.old)) }
        ensures same { honest self.old → held self.new ≡ held self.old }
        ensures honest { honest self.old → honest self.new }
        // It is one call, and the file failed where an error is answered, and only there.
        ensures calls { calls self.new ≡ calls self.old + 1 }
        ensures failed { OnErr result (failures self.new ≡ failures self.old + 1) }
        ensures no_failure { OnOk result (failures self.new ≡ failures self.old) };

    /// Writes these octets at a place. A failed write leaves any octets there and changes no
    /// others.
    fn write(&mut self, place: u64, octets: &[u8]) -> Result<(), DeviceFailed>
        ensures written { honest self.old → OnOk result (octets_in (held self.new) place
            (length octets.now) ≡ octets.now) }
        ensures others { honest self.old
            → ChangesOnlyIn place (length octets.now) (held self.old) (held self.new) }
        ensures honest { honest self.old → honest self.new }
        // It is one call, and the file failed where an error is answered, and only there.
        ensures calls { calls self.new ≡ calls self.old + 1 }
        ensures failed { OnErr result (failures self.new ≡ failures self.old + 1) }
        ensures no_failure { OnOk result (failures self.new ≡ failures self.old) };
}
