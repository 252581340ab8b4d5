//! Zeros in files: whether a file has nothing else, and how they are written over what it has
//! (docs/FORMATS.md, Blocks on the device).
ghost use Rattle.std.specs.Prelude.{◌≡◌, ◌+◌, ◌-◌, ◌≤◌, ◌↔◌, ℕ, List, length, drop, All, IfOk};
ghost use Rattle.std.specs.Prelude.{IsTrue, OnErr, OnOk};
ghost use Rattle.file_blocks.specs.Asked.{IsReadFrom};
ghost use Rattle.file_blocks.specs.File.{octets_in, ChangesOnlyIn};
ghost use Rattle.file_blocks.specs.Zeros.{AreZeros, HasZeros, IsPartlyZeroed, IsPartlyEmptied};
ghost use Rattle.file_blocks.specs.Zeros.{end_of};

use crate::file::RunFile;
use crate::fitted::{place_of, size_of};
use crate::run::read_front;
use cyc_block::{DeviceFailed, are_zeros};

/// How many octets are read or written at once.
pub(crate) const PIECE: usize = 65_536;

/// A file whose device can be had to take what was written.
pub(crate) trait SafeFile: RunFile {
    /// What its device has for good.
    ghost safe: { Self → List ℕ };

    /// Has the device take all that was written.
    fn flush(&mut self) -> Result<(), DeviceFailed>
        ensures safe { Self.honest self.old → OnOk result (safe self.new ≡ Self.held self.old) }
        ensures same { Self.honest self.old → Self.held self.new ≡ Self.held self.old }
        ensures honest { Self.honest self.old → Self.honest self.new };
}

/// Whether each octet of a file from one place on up to another is 0.
pub(crate) fn are_zeros_between<F: RunFile>(
    file: &mut F,
    from: u64,
    to: u64,
) -> Result<bool, DeviceFailed>
    requires { from ≤ to }
    ensures zeros { F.honest file.old → IfOk result (λ zeros. IsTrue zeros
        ↔ AreZeros from to (F.held file.old)) }
    ensures same { F.honest file.old → F.held file.new ≡ F.held file.old }
    ensures honest { F.honest file.old → F.honest file.new }
    ensures failed { OnErr result (F.failures file.new ≡ F.failures file.old + 1) }
    ensures no_failure { OnOk result (F.failures file.new ≡ F.failures file.old) }
{
    let mut room = [0; PIECE];
    let mut at = from;
    while at < to {
        let many = (to - at).min(PIECE as u64);
        if !is_zero_piece(file, at, &mut room, many as usize)? {
            return Ok(false);
        }
        at += many;
    }
    Ok(true)
}

/// Whether so many octets at a place of a file are all 0. They are read into the front of a room.
fn is_zero_piece<F: RunFile>(
    file: &mut F,
    place: u64,
    room: &mut [u8],
    size: usize,
) -> Result<bool, DeviceFailed>
    requires { size ≤ length room.old }
    ensures length { length room.new ≡ length room.old }
    ensures zeros { F.honest file.old → IfOk result (λ zeros. IsTrue zeros
        ↔ All (λ octet. octet ≡ 0) (octets_in (F.held file.old) place size)) }
    ensures read { IsReadFrom F.RunFile file.old file.new result }
{
    read_front(file, place, room, size)?;
    Ok(are_zeros(&room[..size]))
}

/// Writes zeros into a file from one place on up to another, from the front on. Where that fails
/// there are zeros up to a place between them.
pub(crate) fn write_zeros<F: RunFile>(file: &mut F, from: u64, to: u64) -> Result<(), DeviceFailed>
    requires { from ≤ to }
    ensures zeros { F.honest file.old → OnOk result (HasZeros from to (F.held file.new)) }
    ensures others { F.honest file.old
        → ChangesOnlyIn from (to - from) (F.held file.old) (F.held file.new) }
    ensures left { F.honest file.old
        → IsPartlyZeroed from to (F.held file.old) (F.held file.new) }
    ensures honest { F.honest file.old → F.honest file.new }
    ensures failed { OnErr result (F.failures file.new ≡ F.failures file.old + 1) }
    ensures no_failure { OnOk result (F.failures file.new ≡ F.failures file.old) }
{
    let zeros = [0; PIECE];
    let mut at = from;
    while at < to {
        let many = (to - at).min(PIECE as u64);
        file.write(at, &zeros[..many as usize])?;
        at += many;
    }
    Ok(())
}

/// Writes zeros over n blocks of a file and their head blocks, and has its device take them. The
/// head blocks come first, and are with the device before a block is written: so no head is found
/// that vouches for blocks of which some have zeros.
pub(crate) fn zero_blocks<F: SafeFile>(file: &mut F, n: u32) -> Result<(), DeviceFailed>
    ensures zeros { F.honest file.old → OnOk result (HasZeros 0 (end_of n) (F.safe file.new)) }
    ensures held { F.honest file.old → OnOk result (F.safe file.new ≡ F.held file.new) }
    ensures behind { F.honest file.old
        → drop (end_of n) (F.held file.new) ≡ drop (end_of n) (F.held file.old) }
    ensures left { F.honest file.old
        → IsPartlyEmptied n (F.held file.old) (F.held file.new) }
    ensures honest { F.honest file.old → F.honest file.new }
{
    let heads = place_of(n);
    write_zeros(file, heads, size_of(n))?;
    file.flush()?;
    write_zeros(file, 0, heads)?;
    file.flush()
}
