//! Blocks that are read, alone or in runs.
ghost use Rattle.std.specs.Prelude.{◌≡◌, ◌<◌, ◌+◌, ◌≤◌, OnOk};
ghost use Rattle.cyc_block.specs.Store.{block_at};
ghost use Rattle.file_blocks.specs.declared.run.TheConstants.{RUN_BLOCKS};

use crate::file::RunFile;
use crate::fitted::place_of;
use crate::store::FileBlocks;
use cyc_block::{BLOCK_OCTETS, DeviceFailed};

impl<F: RunFile> FileBlocks<F> {
    ghost use Rattle.file_blocks.specs.Run.{Holds};
    ghost use Rattle.file_blocks.specs.Store.{asked_of};
    ghost use Rattle.file_blocks.specs.Store.{blocks_there, IsHonest, AsksFile, KeepsBlocks};

    /// Reads block k, which isn't gathered, out of the file: with those that follow it, where it is
    /// the one that is expected.
    pub(crate) fn read_there(
        &mut self,
        k: u32,
        octets: &mut [u8; BLOCK_OCTETS],
    ) -> Result<(), DeviceFailed>
        requires { k < self.old.count }
        ensures octets { IsHonest F.RunFile self.old
            → OnOk result (octets.new ≡ block_at (blocks_there F.RunFile self.old) k) }
        ensures seen { KeepsBlocks F.RunFile self.old self.new }
        ensures gathered { self.new.gathered ≡ self.old.gathered }
        ensures asked { asked_of self.new ≡ asked_of self.old }
        ensures file { AsksFile F.RunFile 1 self.old self.new result }
    {
        let many = self.course.at_once(k, self.count);
        if many == 1 {
            return self.file.read(place_of(k), octets);
        }
        self.read_ahead(k, many)?;
        self.ahead.get(k, octets);
        Ok(())
    }

    /// Reads so many blocks from block k on at once. After a failure none are expected, so that the
    /// next read is of one block alone.
    pub(crate) fn read_ahead(&mut self, k: u32, many: u32) -> Result<(), DeviceFailed>
        requires within { k + many ≤ self.old.count }
        requires few { many ≤ RUN_BLOCKS }
        requires some { 0 < many }
        ensures seen { KeepsBlocks F.RunFile self.old self.new }
        ensures there { IsHonest F.RunFile self.old
            → blocks_there F.RunFile self.new ≡ blocks_there F.RunFile self.old }
        ensures holds { OnOk result (Holds self.new.ahead k) }
        ensures gathered { self.new.gathered ≡ self.old.gathered }
        ensures asked { asked_of self.new ≡ asked_of self.old }
        ensures file { AsksFile F.RunFile 1 self.old self.new result }
    {
        let in_order = self.course.in_order;
        self.course.left = 0;
        self.course.in_order = 0;
        self.ahead.read(&mut self.file, k, many)?;
        self.course.in_order = in_order;
        Ok(())
    }
}
