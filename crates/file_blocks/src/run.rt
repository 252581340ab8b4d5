//! Runs of blocks in memory.
ghost use Rattle.std.specs.Prelude.{◌≡◌, ◌+◌, ◌-◌, ◌*◌, ◌<◌, ◌≤◌, ◌++◌, ◌∷◌, [], ◌↔◌, ◌^◌};
ghost use Rattle.std.specs.Prelude.{length, take, drop, IfOk, IsTrue, OnErr, OnOk};
ghost use Rattle.cyc_block.specs.Store.{block_at};
ghost use Rattle.file_blocks.specs.Blocks.{blocks_of, octets_at, ChangesOnlyAt};
ghost use Rattle.file_blocks.specs.File.{octets_in};
ghost use Rattle.file_blocks.specs.Asked.{IsReadFrom};
ghost use Rattle.file_blocks.specs.declared.run.TheConstants.{RUN_BLOCKS, RUN_OCTETS};

use crate::file::RunFile;
use crate::fitted::place_of;
use cyc_block::{BLOCK_OCTETS, DeviceFailed};
use std::alloc::{AllocError, Global};

/// The blocks of a run, at most.
pub const RUN_BLOCKS: u32 = 128;

/// The octets that so many blocks take.
const RUN_OCTETS: usize = 65_536;

/// Blocks that follow each other, in memory.
#[derive(Drop)]
pub(crate) struct Run {
    /// The first of them.
    pub(crate) first: u32,
    /// How many there are.
    pub(crate) count: u32,
    octets: Vec<u8>,
    ghost room: { length octets.items ≡ RUN_OCTETS },
    ghost few: { count ≤ RUN_BLOCKS },
}

impl Run {
    ghost use Rattle.file_blocks.specs.Run.{blocks_in, Holds};

    /// No blocks. All memory is taken here.
    pub(crate) fn new(alloc: Global) -> Result<Run, AllocError>
        ensures first { IfOk result (λ run. run.first ≡ 0) }
        ensures none { IfOk result (λ run. run.count ≡ 0) }
    {
        Ok(Run {
            first: 0,
            count: 0,
            octets: vec![in alloc; 0; RUN_OCTETS]?,
        })
    }

    /// Whether block k is one of them.
    pub(crate) fn holds(&self, k: u32) -> bool
        ensures { IsTrue result ↔ Holds self.now k }
    {
        self.first <= k && k - self.first < self.count
    }

    /// Whether block k can be put behind them: it follows them, or there are none.
    pub(crate) fn takes(&self, k: u32) -> bool
        ensures { IsTrue result → (self.now.count < RUN_BLOCKS)
            × (0 < self.now.count → k ≡ self.now.first + self.now.count) }
    {
        if self.count == 0 {
            return true;
        }
        self.count < RUN_BLOCKS && self.first <= k && k - self.first == self.count
    }

    /// Whether one of the blocks from this one on up to that one is one of them.
    pub(crate) fn meets(&self, first: u32, last: u32) -> bool
        requires some { 0 < self.now.count }
        requires order { first ≤ last }
        ensures { IsTrue result
            ↔ (self.now.first ≤ last) × (first < self.now.first + self.now.count) }
    {
        self.first <= last && (first < self.first || first - self.first < self.count)
    }

    /// Takes all of them away where one of so many blocks from block `first` on is one of them.
    pub(crate) fn give_way(&mut self, first: u32, count: u32)
        ensures stays { 0 < self.new.count → self.new ≡ self.old }
        ensures apart { 0 < self.new.count → self.old.first < first + count
            → first < self.old.first + self.old.count → ⊥ }
        ensures within { self.new.first + self.new.count ≤ self.old.first + self.old.count }
    {
        let end = u64::from(first) + u64::from(count);
        let own_end = u64::from(self.first) + u64::from(self.count);
        if u64::from(self.first) < end && u64::from(first) < own_end {
            self.count = 0;
        }
    }

    /// The octets of block k, which is one of them.
    pub(crate) fn get(&self, k: u32, octets: &mut [u8; BLOCK_OCTETS])
        requires { Holds self.now k }
        ensures { octets.new ≡ block_at (blocks_in self.now) (k - self.now.first) }
    {
        let place = (k - self.first) as usize * BLOCK_OCTETS;
        let all = self.octets.as_slice();
        octets.copy_from_slice(&all[place..place + BLOCK_OCTETS]);
    }

    /// Puts block k behind them, which follows them where there are any.
    pub(crate) fn put(&mut self, k: u32, octets: &[u8; BLOCK_OCTETS])
        requires room { self.old.count < RUN_BLOCKS }
        requires follows { 0 < self.old.count → k ≡ self.old.first + self.old.count }
        ensures first { k ≡ self.new.first + self.old.count }
        ensures count { self.new.count ≡ self.old.count + 1 }
        ensures more { blocks_in self.new ≡ blocks_in self.old ++ octets.now ∷ [] }
    {
        if self.count == 0 {
            self.first = k;
        }
        let place = self.count as usize * BLOCK_OCTETS;
        let all = self.octets.as_mut_slice();
        put_at(all, place, octets);
        self.count += 1;
    }

    /// Takes back the block that was put last.
    pub(crate) fn give_back(&mut self)
        requires { 0 < self.old.count }
        ensures first { self.new.first ≡ self.old.first }
        ensures count { self.new.count + 1 ≡ self.old.count }
        ensures fewer { blocks_in self.new ≡ take self.new.count (blocks_in self.old) }
    {
        self.count -= 1;
    }

    /// Takes the first of them away; the others are moved to the front.
    pub(crate) fn drop_first(&mut self)
        requires some { 0 < self.old.count }
        requires small { self.old.first + 1 < 2 ^ 32 }
        ensures first { self.new.first ≡ self.old.first + 1 }
        ensures count { self.new.count + 1 ≡ self.old.count }
        ensures fewer { blocks_in self.new ≡ drop 1 (blocks_in self.old) }
    {
        let left = self.count - 1;
        let all = self.octets.as_mut_slice();
        all.copy_within(BLOCK_OCTETS..RUN_OCTETS, 0);
        self.first += 1;
        self.count = left;
    }

    /// Takes all of them away.
    pub(crate) fn clear(&mut self)
        ensures first { self.new.first ≡ self.old.first }
        ensures none { self.new.count ≡ 0 }
    {
        self.count = 0;
    }

    /// Their octets, one block behind the other.
    pub(crate) fn octets(&self) -> &[u8]
        ensures length { length result.now ≡ self.now.count * BLOCK_OCTETS }
        ensures blocks { blocks_of self.now.count result.now ≡ blocks_in self.now }
    {
        let all = self.octets.as_slice();
        &all[..self.count as usize * BLOCK_OCTETS]
    }

    /// Reads so many blocks of a file from block `first` on, in place of those that were there. A
    /// failed read leaves none.
    pub(crate) fn read<F: RunFile>(
        &mut self,
        file: &mut F,
        first: u32,
        count: u32,
    ) -> Result<(), DeviceFailed>
        requires few { count ≤ RUN_BLOCKS }
        ensures none { OnErr result (self.new.count ≡ 0) }
        ensures stays { OnErr result (self.new.first ≡ self.old.first) }
        ensures first { OnOk result (self.new.first ≡ first) }
        ensures count { OnOk result (self.new.count ≡ count) }
        ensures octets { F.honest file.old → OnOk result (blocks_in self.new
            ≡ blocks_of count (octets_in (F.held file.old) (first * BLOCK_OCTETS)
            (count * BLOCK_OCTETS))) }
        ensures read { IsReadFrom F.RunFile file.old file.new result }
    {
        self.count = 0;
        let all = self.octets.as_mut_slice();
        read_front(file, place_of(first), all, count as usize * BLOCK_OCTETS)?;
        self.first = first;
        self.count = count;
        Ok(())
    }
}

/// Puts the octets of a block at a place.
fn put_at(all: &mut [u8], place: usize, octets: &[u8; BLOCK_OCTETS])
    requires { place + BLOCK_OCTETS ≤ length all.old }
    ensures length { length all.new ≡ length all.old }
    ensures octets { octets_at all.new place ≡ octets.now }
    ensures others { ChangesOnlyAt place all.old all.new }
{
    all[place..place + BLOCK_OCTETS].copy_from_slice(octets);
}

/// Reads so many octets at a place of a file into the front of a room.
pub(crate) fn read_front<F: RunFile>(
    file: &mut F,
    place: u64,
    all: &mut [u8],
    size: usize,
) -> Result<(), DeviceFailed>
    requires { size ≤ length all.old }
    ensures length { length all.new ≡ length all.old }
    ensures octets { F.honest file.old → OnOk result (take size all.new
        ≡ octets_in (F.held file.old) place size) }
    ensures read { IsReadFrom F.RunFile file.old file.new result }
{
    file.read(place, &mut all[..size])
}
