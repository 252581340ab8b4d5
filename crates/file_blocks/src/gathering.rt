//! Blocks that are gathered, and written in runs.
ghost use Rattle.std.specs.Prelude.{◌≡◌, ◌<◌, ◌+◌, ◌*◌, ◌≤◌, ℕ, [], slice_set, OnErr, OnOk};
ghost use Rattle.news_terms.specs.BlockImage.{Block, IsBlock, block_image as image_of};
ghost use Rattle.news_terms.specs.BlockImage.{chunk_size};

use crate::file::RunFile;
use crate::fitted::place_of;
use crate::last::octets_left;
use crate::run::RUN_BLOCKS;
use crate::store::FileBlocks;
use cyc_block::{BLOCK_OCTETS, DeviceFailed};

impl<F: RunFile> FileBlocks<F> {
    ghost use Rattle.file_blocks.specs.Store.{asked_of, gathered_of, blocks_seen, AsksFile};
    ghost use Rattle.file_blocks.specs.Store.{CanTake, IsInMemory, IsSetAside, WritesBlock};
    ghost use Rattle.file_blocks.specs.Writing.{MakesRoom, Settles, WritesRun};

    /// Writes what is gathered, in one call of the file. After a failure it is set aside.
    pub(crate) fn write_run(&mut self) -> Result<(), DeviceFailed>
        ensures { WritesRun F.RunFile self.old self.new result }
    {
        if self.gathered.count == 0 {
            return Ok(());
        }
        self.ahead
            .give_way(self.gathered.first, self.gathered.count);
        let place = place_of(self.gathered.first);
        self.set_aside = true;
        self.file.write(place, self.gathered.octets())?;
        self.set_aside = false;
        self.gathered.clear();
        Ok(())
    }

    /// Takes block k behind what is gathered, where that isn't set aside, and writes what is to be
    /// written with it.
    pub(crate) fn gather(&mut self, k: u32, octets: &[u8; BLOCK_OCTETS]) -> Result<(), DeviceFailed>
        requires within { k < self.old.count }
        ensures block { WritesBlock F.RunFile k octets.now self.old self.new result }
        ensures last { (b : Block) → IsBlock b → octets.now ≡ image_of b
            → b.article_length ≤ chunk_size * (b.index + 1)
            → OnOk result (gathered_of self.new ≡ []) }
        ensures aside { OnErr result ((j : ℕ) → IsInMemory self.new j → IsSetAside self.new) }
        ensures asked { asked_of self.new ≡ asked_of self.old }
        ensures file { AsksFile F.RunFile 2 self.old self.new result }
    {
        self.make_room(k)?;
        self.take(k, octets);
        self.settle(octets)
    }

    /// Makes room for block k behind what is gathered: where it doesn't follow that, this is
    /// written first.
    pub(crate) fn make_room(&mut self, k: u32) -> Result<(), DeviceFailed>
        ensures { MakesRoom F.RunFile k self.old self.new result }
    {
        if self.gathered.takes(k) {
            return Ok(());
        }
        self.write_run()
    }

    /// Takes block k behind what is gathered.
    pub(crate) fn take(&mut self, k: u32, octets: &[u8; BLOCK_OCTETS])
        requires room { CanTake self.old k }
        requires within { k < self.old.count }
        ensures blocks { blocks_seen F.RunFile self.new
            ≡ slice_set (blocks_seen F.RunFile self.old) k octets.now }
        ensures last { k + 1 ≡ self.new.gathered.first + self.new.gathered.count }
        ensures some { 0 < self.new.gathered.count }
        ensures file { self.new.file ≡ self.old.file }
        ensures count { self.new.count ≡ self.old.count }
        ensures ahead { self.new.ahead ≡ self.old.ahead }
        ensures asked { self.new.asked ≡ self.old.asked }
    {
        self.gathered.put(k, octets);
    }

    /// Writes what is gathered where it is full, or where the block that was taken last, of these
    /// octets, is the last of its article. After a failure that block is no longer taken, and the
    /// others are set aside.
    pub(crate) fn settle(&mut self, octets: &[u8; BLOCK_OCTETS]) -> Result<(), DeviceFailed>
        requires { 0 < self.old.gathered.count }
        ensures { Settles F.RunFile octets.now self.old self.new result }
    {
        if self.gathered.count < RUN_BLOCKS && octets_left(octets) != 0 {
            return Ok(());
        }
        match self.write_run() {
            Ok(()) => Ok(()),
            Err(failed) => {
                self.gathered.give_back();
                self.set_aside = self.gathered.count > 0;
                Err(failed)
            }
        }
    }
}
