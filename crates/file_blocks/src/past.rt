//! Blocks that are written past a run that is set aside.
ghost use Rattle.std.specs.Prelude.{◌≡◌, ◌<◌, ◌+◌, ◌-◌, OnOk};
ghost use Rattle.news_terms.specs.BlockImage.{Block, IsBlock, block_image as image_of};
ghost use Rattle.cyc_block.specs.Store.{block_at, ChangesOnly};

use crate::file::RunFile;
use crate::fitted::place_of;
use crate::last::index;
use crate::store::FileBlocks;
use cyc_block::{BLOCK_OCTETS, DeviceFailed};

impl<F: RunFile> FileBlocks<F> {
    ghost use Rattle.file_blocks.specs.Store.{asked_of, blocks_seen, blocks_there, IsHonest};
    ghost use Rattle.file_blocks.specs.Store.{AsksFile, IsInMemory, IsSetAside, AreWritten};
    ghost use Rattle.file_blocks.specs.Store.{PassesBy, KeepsAside, WritesBlock};
    ghost use Rattle.file_blocks.specs.Writing.{ClearsWay, LetsGo};

    /// Writes block k into the file at once, where something is set aside.
    pub(crate) fn write_past(
        &mut self,
        k: u32,
        octets: &[u8; BLOCK_OCTETS],
    ) -> Result<(), DeviceFailed>
        requires within { k < self.old.count }
        requires aside { IsSetAside self.old }
        ensures block { WritesBlock F.RunFile k octets.now self.old self.new result }
        ensures there { IsHonest F.RunFile self.old
            → OnOk result (block_at (blocks_there F.RunFile self.new) k ≡ octets.now) }
        ensures article { (b : Block) → IsBlock b → octets.now ≡ image_of b
            → OnOk result (AreWritten (k - b.index) k self.new) }
        ensures aside { KeepsAside k self.old self.new }
        ensures asked { asked_of self.new ≡ asked_of self.old }
        ensures file { AsksFile F.RunFile 2 self.old self.new result }
        ensures once { (b : Block) → IsBlock b → octets.now ≡ image_of b
            → PassesBy k b.index self.old → AsksFile F.RunFile 1 self.old self.new result }
    {
        self.let_go(k, index(octets))?;
        self.write_alone(k, octets)
    }

    /// Has block k, and as many before it as its index in its article says, no longer in memory
    /// alone. Where block k is the first of what is set aside it is dropped, since other octets are
    /// to be written in its place; where any other of these is among it, all is written first.
    pub(crate) fn let_go(&mut self, k: u32, index: u32) -> Result<(), DeviceFailed>
        requires aside { IsSetAside self.old }
        ensures { LetsGo F.RunFile k index self.old self.new result }
    {
        if self.gathered.first == k {
            self.drop_first();
            return Ok(());
        }
        let from = k.saturating_sub(index);
        if self.gathered.meets(from, k) {
            return self.write_run();
        }
        Ok(())
    }

    /// Drops the first block of what is set aside.
    pub(crate) fn drop_first(&mut self)
        requires aside { IsSetAside self.old }
        ensures others { ChangesOnly self.old.gathered.first
            (blocks_seen F.RunFile self.old) (blocks_seen F.RunFile self.new) }
        ensures first { self.new.gathered.first ≡ self.old.gathered.first + 1 }
        ensures fewer { self.new.gathered.count + 1 ≡ self.old.gathered.count }
        ensures aside { 0 < self.new.gathered.count → IsSetAside self.new }
        ensures file { self.new.file ≡ self.old.file }
        ensures count { self.new.count ≡ self.old.count }
        ensures ahead { self.new.ahead ≡ self.old.ahead }
        ensures asked { self.new.asked ≡ self.old.asked }
    {
        self.gathered.drop_first();
        self.set_aside = self.gathered.count > 0;
    }

    /// Writes block k, which isn't in memory alone, in one call of the file.
    pub(crate) fn write_alone(
        &mut self,
        k: u32,
        octets: &[u8; BLOCK_OCTETS],
    ) -> Result<(), DeviceFailed>
        requires within { k < self.old.count }
        requires apart { ¬ IsInMemory self.old k }
        ensures block { WritesBlock F.RunFile k octets.now self.old self.new result }
        ensures there { IsHonest F.RunFile self.old
            → OnOk result (block_at (blocks_there F.RunFile self.new) k ≡ octets.now) }
        ensures gathered { self.new.gathered ≡ self.old.gathered }
        ensures aside { self.new.set_aside ≡ self.old.set_aside }
        ensures asked { asked_of self.new ≡ asked_of self.old }
        ensures file { AsksFile F.RunFile 1 self.old self.new result }
    {
        self.ahead.give_way(k, 1);
        self.file.write(place_of(k), octets)
    }

    /// Writes what is gathered before a head block is, but for what is set aside: that is of no
    /// article that is kept, so no head block waits for it.
    pub(crate) fn clear_way(&mut self) -> Result<(), DeviceFailed>
        ensures { ClearsWay F.RunFile self.old self.new result }
    {
        if self.set_aside {
            return Ok(());
        }
        self.write_run()
    }
}
