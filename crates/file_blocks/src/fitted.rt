//! Files that are long enough for their blocks, and where in a file blocks begin.
ghost use Rattle.std.specs.Prelude.{◌≡◌, ◌≢◌, ◌+◌, ◌*◌, ◌↔◌, [], false, All, IfOk, IsTrue};
ghost use Rattle.std.specs.Prelude.{OnErr, OnOk};
ghost use Rattle.news_terms.specs.HeadBlocks.{head_blocks};
ghost use Rattle.file_blocks.specs.Blocks.{IsBlank, octets_at};
ghost use Rattle.file_blocks.specs.Fitted.{count_of, file_of, was_blank};
ghost use Rattle.file_blocks.specs.Host.{asked_of, held_identity, identity_of};
ghost use Rattle.file_blocks.specs.Which.{IsOfDevice};
ghost use Rattle.file_blocks.specs.Zeros.{IsUntouched};

use crate::file::RunFile;
use crate::host::{HeldFile, HostFile, Unusable};
use crate::zeros::are_zeros_between;
use cyc_block::{BLOCK_OCTETS, DeviceFailed, are_zeros, head_count};

/// A file that has room for so many blocks and their head blocks.
#[derive(Drop)]
pub struct FittedFile<F = HostFile> {
    file: F,
    /// For how many blocks it has room.
    count: u32,
    /// Whether no buffer was found in it.
    blank: bool,
}

impl<F: RunFile> FittedFile<F> {
    /// A file that has room for n blocks and their head blocks, into which nobody has looked.
    pub fn new(file: F, n: u32) -> FittedFile<F>
        ensures file { file_of result ≡ file }
        ensures count { count_of result ≡ n }
        ensures blank { was_blank result ≡ false }
    {
        FittedFile {
            file,
            count: n,
            blank: false,
        }
    }

    /// The file, for how many blocks it has room, and whether no buffer was found in it.
    pub fn into_parts(self) -> (F, u32, bool)
        ensures file { result.0 ≡ file_of self }
        ensures count { result.1 ≡ count_of self }
        ensures blank { result.2 ≡ was_blank self }
    {
        (self.file, self.count, self.blank)
    }

    /// Looks into the file whether no buffer was kept there. In one that can't be read a buffer may
    /// have been.
    pub fn look(&mut self)
        ensures blank { F.honest (file_of self.old)
            → F.failures (file_of self.new) ≡ F.failures (file_of self.old)
            → (IsTrue (was_blank self.new)
            ↔ IsBlank (count_of self.old) (F.held (file_of self.old))) }
        ensures unread { F.failures (file_of self.new) ≢ F.failures (file_of self.old)
            → was_blank self.new ≡ false }
        ensures count { count_of self.new ≡ count_of self.old }
        ensures same { F.honest (file_of self.old)
            → F.held (file_of self.new) ≡ F.held (file_of self.old) }
        ensures honest { F.honest (file_of self.old) → F.honest (file_of self.new) }
    {
        match self.is_blank() {
            Ok(blank) => self.blank = blank,
            Err(_) => self.blank = false,
        }
    }

    /// Looks through the file whether nothing was ever kept there, a buffer or anything else: each
    /// octet of its blocks and head blocks is 0. In one that can't be read something may have been.
    pub fn look_through(&mut self)
        ensures blank { F.honest (file_of self.old)
            → F.failures (file_of self.new) ≡ F.failures (file_of self.old)
            → (IsTrue (was_blank self.new)
            ↔ IsUntouched (count_of self.old) (F.held (file_of self.old))) }
        ensures unread { F.failures (file_of self.new) ≢ F.failures (file_of self.old)
            → was_blank self.new ≡ false }
        ensures count { count_of self.new ≡ count_of self.old }
        ensures same { F.honest (file_of self.old)
            → F.held (file_of self.new) ≡ F.held (file_of self.old) }
        ensures honest { F.honest (file_of self.old) → F.honest (file_of self.new) }
    {
        match self.is_untouched() {
            Ok(untouched) => self.blank = untouched,
            Err(_) => self.blank = false,
        }
    }

    /// Whether each octet of the blocks and head blocks is 0. The head blocks come first: where a
    /// buffer was kept they have other octets.
    fn is_untouched(&mut self) -> Result<bool, DeviceFailed>
        ensures zeros { F.honest (file_of self.old) → IfOk result (λ untouched. IsTrue untouched
            ↔ IsUntouched (count_of self.old) (F.held (file_of self.old))) }
        ensures count { count_of self.new ≡ count_of self.old }
        ensures same { F.honest (file_of self.old)
            → F.held (file_of self.new) ≡ F.held (file_of self.old) }
        ensures honest { F.honest (file_of self.old) → F.honest (file_of self.new) }
        ensures failed { OnErr result (F.failures (file_of self.new)
            ≡ F.failures (file_of self.old) + 1) }
        ensures no_failure { OnOk result (F.failures (file_of self.new)
            ≡ F.failures (file_of self.old)) }
    {
        let heads = place_of(self.count);
        if !are_zeros_between(&mut self.file, heads, size_of(self.count))? {
            return Ok(false);
        }
        are_zeros_between(&mut self.file, 0, heads)
    }

    /// Whether no buffer was kept in the file: each octet of its first block and of its first head
    /// block is 0, as in a file that was just made.
    fn is_blank(&mut self) -> Result<bool, DeviceFailed>
        ensures blank { F.honest (file_of self.old) → IfOk result (λ blank. IsTrue blank
            ↔ IsBlank (count_of self.old) (F.held (file_of self.old))) }
        ensures count { count_of self.new ≡ count_of self.old }
        ensures same { F.honest (file_of self.old)
            → F.held (file_of self.new) ≡ F.held (file_of self.old) }
        ensures honest { F.honest (file_of self.old) → F.honest (file_of self.new) }
        ensures failed { OnErr result (F.failures (file_of self.new)
            ≡ F.failures (file_of self.old) + 1) }
        ensures no_failure { OnOk result (F.failures (file_of self.new)
            ≡ F.failures (file_of self.old)) }
    {
        let block = self.is_zero_at(0)?;
        let head = self.is_zero_at(place_of(self.count))?;
        Ok(block && head)
    }

    /// Whether each of the 512 octets at a place is 0.
    fn is_zero_at(&mut self, place: u64) -> Result<bool, DeviceFailed>
        ensures zero { F.honest self.old.file → IfOk result (λ zero. IsTrue zero
            ↔ All (λ octet. octet ≡ 0) (octets_at (F.held self.old.file) place)) }
        ensures count { self.new.count ≡ self.old.count }
        ensures same { F.honest self.old.file
            → F.held self.new.file ≡ F.held self.old.file }
        ensures honest { F.honest self.old.file → F.honest self.new.file }
        ensures failed { OnErr result (F.failures self.new.file ≡ F.failures self.old.file + 1) }
        ensures no_failure { OnOk result (F.failures self.new.file ≡ F.failures self.old.file) }
    {
        let mut octets = [0; BLOCK_OCTETS];
        self.file.read(place, &mut octets)?;
        Ok(are_zeros(&octets))
    }
}

impl FittedFile<HostFile> {
    /// A file that is held, for n blocks and their head blocks. A regular one is made longer with
    /// zeros where it is shorter; octets that it has stay. The error says why it can't be used, as
    /// a block device that is smaller, and then nothing is promised of the file.
    pub fn of_held(held: HeldFile, n: u32) -> Result<FittedFile<HostFile>, Unusable>
        ensures count { IfOk result (λ fitted. count_of fitted ≡ n) }
        ensures unasked { IfOk result (λ fitted. asked_of (file_of fitted) ≡ []) }
        ensures same { IfOk result (λ fitted. identity_of (file_of fitted) ≡ held_identity held) }
    {
        Ok(FittedFile::new(held.fit(size_of(n))?, n))
    }

    /// Whether it is a block device.
    pub fn is_device(&self) -> bool
        ensures { IsTrue result ↔ IsOfDevice (identity_of (file_of self.now)) }
    {
        self.file.identity.is_device()
    }
}

/// How many octets of a file, or of a device, n blocks and their head blocks take.
pub fn size_of(n: u32) -> u64
    ensures { result ≡ (n + head_blocks n) * BLOCK_OCTETS }
{
    (u64::from(n) + u64::from(head_count(n))) * BLOCK_OCTETS as u64
}

/// Where block k begins, in octets from the front of the file.
pub(crate) fn place_of(k: u32) -> u64
    ensures { result ≡ k * BLOCK_OCTETS }
{
    u64::from(k) * BLOCK_OCTETS as u64
}

/// Where head block k of a file of n blocks begins, in octets from the front of the file.
pub(crate) fn head_place_of(n: u32, k: u32) -> u64
    ensures { result ≡ n * BLOCK_OCTETS + k * BLOCK_OCTETS }
{
    place_of(n) + place_of(k)
}
