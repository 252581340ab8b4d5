//! Blocks in a file, in runs.
ghost use Rattle.std.specs.Prelude.{◌≡◌, ◌<◌, ◌+◌, ◌-◌, ◌*◌, ◌≤◌, ◌^◌, ℕ, [], length, slice_set};
ghost use Rattle.std.specs.Prelude.{IfOk, IsTrue, OnErr, OnOk};
ghost use Rattle.news_terms.specs.HeadBlocks.{head_blocks};
ghost use Rattle.cyc_block.specs.Store.{block_at, ChangesOnly};
ghost use Rattle.file_blocks.specs.Fitted as fitted_file;

use crate::course::Course;
use crate::file::RunFile;
use crate::fitted::{FittedFile, head_place_of, size_of};
use crate::host::{HostFile, Unusable};
use crate::run::Run;
use cyc_block::{BLOCK_OCTETS, BlockStore, DeviceFailed, Tally};
use std::alloc::{AllocError, Global};

/// The first blocks of a file: block k has the 512 octets from 512 k on. Its head blocks follow
/// them. What is written is gathered in a run of blocks that follow each other, and the run is
/// written in one call. A run that couldn't be written is set aside: each block is written by
/// itself then, until the run was written or its blocks were.
pub struct FileBlocks<F = HostFile> {
    pub(crate) file: F,
    /// How many blocks there are.
    pub(crate) count: u32,
    /// The calls of the store.
    pub(crate) asked: Tally,
    /// What was taken and isn't written yet.
    pub(crate) gathered: Run,
    /// Whether that couldn't be written: it is set aside then, and nothing more is gathered.
    pub(crate) set_aside: bool,
    /// What was read at once, as it is in the file.
    pub(crate) ahead: Run,
    /// What is expected to be read next.
    pub(crate) course: Course,
    /// Whether no buffer was found in the file before it was one of blocks.
    pub(crate) blank: bool,
    ghost few: { count < 2 ^ 32 },
    ghost aside_some: { IsTrue set_aside → 0 < gathered.count },
    ghost gathered_within: { gathered.first + gathered.count ≤ count },
    ghost ahead_within: { ahead.first + ahead.count ≤ count },
}

// Written out, so that no crate above proves anew how each part is let go.
impl<F: Drop> Drop for FileBlocks<F> {
    fn drop(self) {
        let FileBlocks {
            file: _,
            count: _,
            asked: _,
            gathered: _,
            set_aside: _,
            ahead: _,
            course: _,
            blank: _,
        } = self;
    }
}

impl<F: RunFile> FileBlocks<F> {
    ghost use Rattle.file_blocks.specs.Store.{asked_of, count_of, file_of, gathered_of};
    ghost use Rattle.file_blocks.specs.Store.{IsHonest, AsksFile, KeepsBlocks, IsSetAside};
    ghost use Rattle.file_blocks.specs.Store.{blocks_seen, blocks_there, heads_seen, was_blank};
    ghost use Rattle.file_blocks.specs.Blocks.{blocks_of, heads_of};

    /// The first n blocks of a file, and their head blocks, in which no buffer was found, or one
    /// may have been; nothing is gathered. All memory is taken here: 65,536 octets for what is
    /// gathered, and as many for what is read at once.
    pub fn new(alloc: Global, file: F, n: u32, blank: bool) -> Result<FileBlocks<F>, AllocError>
    where
        F: Drop,
        ensures file { IfOk result (λ store. file_of store ≡ file) }
        ensures count { IfOk result (λ store. count_of store ≡ n) }
        ensures gathered { IfOk result (λ store. gathered_of store ≡ []) }
        ensures asked { IfOk result (λ store. asked_of store ≡ 0) }
        ensures aside { IfOk result (λ store. ¬ IsSetAside store) }
        ensures honest { IfOk result (λ store. F.honest file → IsHonest F.RunFile store) }
        ensures blank { IfOk result (λ store. was_blank store ≡ blank) }
        // Whoever opens a file anew, as after its program was killed, sees what the file has.
        ensures blocks { IfOk result (λ store. blocks_seen F.RunFile store
            ≡ blocks_of n (F.held file)) }
        ensures heads { IfOk result (λ store. heads_seen F.RunFile store
            ≡ heads_of n (F.held file)) }
    {
        Ok(FileBlocks {
            gathered: Run::new(alloc)?,
            ahead: Run::new(alloc)?,
            set_aside: false,
            file,
            count: n,
            asked: Tally::new(),
            course: Course::new(),
            blank,
        })
    }

    /// Whether no buffer was found in the file before it was one of blocks.
    pub fn was_blank(&self) -> bool
        ensures { result ≡ was_blank self.now }
    {
        self.blank
    }

    /// Writes what is gathered, set aside or not, in one call of the file. After a failure it is as
    /// it was, and is set aside: it is read out of memory.
    pub fn flush(&mut self) -> Result<(), DeviceFailed>
        ensures seen { KeepsBlocks F.RunFile self.old self.new }
        ensures written { OnOk result (gathered_of self.new ≡ []) }
        ensures kept { OnErr result (gathered_of self.new ≡ gathered_of self.old) }
        ensures aside { OnErr result (IsSetAside self.new) }
        ensures asked { asked_of self.new ≡ asked_of self.old }
        ensures file { AsksFile F.RunFile 1 self.old self.new result }
        // All that is seen is in the file then.
        ensures there { OnOk result (blocks_there F.RunFile self.new
            ≡ blocks_seen F.RunFile self.new) }
    {
        self.write_run()
    }
}

impl FileBlocks<HostFile> {
    ghost use Rattle.file_blocks.specs.Store.{ahead_count, asked_of, count_of, file_of};
    ghost use Rattle.file_blocks.specs.Store.{gathered_of, was_blank};
    ghost use Rattle.file_blocks.specs.Host.{IsEmptied, IsFlushed, asked_of as asked_in};

    /// The blocks of a file that was made long enough for them. All memory that it ever takes is
    /// taken here, as by `new`.
    pub fn of_fitted(alloc: Global, fitted: FittedFile) -> Result<FileBlocks<HostFile>, AllocError>
        ensures count { IfOk result (λ store. count_of store ≡ fitted_file.count_of fitted) }
        ensures file { IfOk result (λ store. file_of store ≡ fitted_file.file_of fitted) }
        ensures gathered { IfOk result (λ store. gathered_of store ≡ []) }
        ensures asked { IfOk result (λ store. asked_of store ≡ 0) }
        ensures blank { IfOk result (λ store. was_blank store ≡ fitted_file.was_blank fitted) }
    {
        let (file, count, blank) = fitted.into_parts();
        FileBlocks::new(alloc, file, count, blank)
    }

    /// Empties the file, a regular one by making it as long again, a block device by writing zeros:
    /// each of its blocks and head blocks has zeros alone then, as of a file that was just made.
    /// What was gathered or read at once is given up, also where that fails.
    pub fn empty(&mut self) -> Result<(), Unusable>
        ensures emptied { OnOk result (IsEmptied (file_of self.new)) }
        ensures gathered { gathered_of self.new ≡ [] }
        ensures ahead { ahead_count self.new ≡ 0 }
        ensures count { count_of self.new ≡ count_of self.old }
        ensures asked { asked_of self.new ≡ asked_of self.old }
        ensures blank { was_blank self.new ≡ was_blank self.old }
    {
        self.set_aside = false;
        self.gathered.clear();
        self.ahead.clear();
        self.course = Course::new();
        self.file.empty(self.count)
    }

    /// Has the device take all that was written to the file, which what is gathered is not.
    pub fn sync(&self) -> Result<(), DeviceFailed> {
        self.file.flush()
    }

    /// The same, which is noted until more is written.
    pub fn sync_noted(&mut self) -> Result<(), DeviceFailed>
        ensures flushed { OnOk result (IsFlushed (file_of self.new)) }
        ensures failed { OnErr result (¬ IsFlushed (file_of self.new)) }
        ensures count { count_of self.new ≡ count_of self.old }
        ensures asked { asked_of self.new ≡ asked_of self.old }
        ensures unasked { asked_in (file_of self.new) ≡ asked_in (file_of self.old) }
        ensures gathered { gathered_of self.new ≡ gathered_of self.old }
    {
        self.file.flush_noted()
    }
}

impl<F: RunFile> BlockStore for FileBlocks<F> {
    ghost use Rattle.news_terms.specs.BlockImage.{Block, IsBlock, block_image as image_of};
    ghost use Rattle.news_terms.specs.BlockImage.{chunk_size};
    ghost use Rattle.file_blocks.specs.Store.{asked_of, gathered_of, blocks_there, blocks_seen};
    ghost use Rattle.file_blocks.specs.Store.{heads_seen, IsHonest, AsksFile, IsInMemory};
    ghost use Rattle.file_blocks.specs.Store.{IsSetAside, AreInFile, AreWritten, PassesBy};
    ghost use Rattle.file_blocks.specs.Store.{KeepsAside};
    ghost use Rattle.file_blocks.specs.Store.{StaysAside};

    ghost blocks = { λ store. blocks_seen F.RunFile store };

    ghost heads = { λ store. heads_seen F.RunFile store };

    // A call of the store is one, whether the file is called for it or not.
    ghost calls = { λ store. asked_of store };

    ghost failures = { λ store. F.failures store.file };

    ghost honest = { λ store. IsHonest F.RunFile store };

    fn count(&self) -> u32 {
        self.count
    }

    fn read(&mut self, k: u32, octets: &mut [u8; BLOCK_OCTETS]) -> Result<(), DeviceFailed>
        requires { k < length (blocks_seen F.RunFile self.old) }
        ensures octets { IsHonest F.RunFile self.old
            → OnOk result (octets.new ≡ block_at (blocks_seen F.RunFile self.old) k) }
        ensures same { IsHonest F.RunFile self.old
            → blocks_seen F.RunFile self.new ≡ blocks_seen F.RunFile self.old }
        ensures heads { IsHonest F.RunFile self.old
            → heads_seen F.RunFile self.new ≡ heads_seen F.RunFile self.old }
        ensures honest { IsHonest F.RunFile self.old → IsHonest F.RunFile self.new }
        ensures count { length (blocks_seen F.RunFile self.new)
            ≡ length (blocks_seen F.RunFile self.old) }
        ensures calls { asked_of self.new ≡ asked_of self.old + 1 }
        // What is gathered stays so.
        ensures gathered { gathered_of self.new ≡ gathered_of self.old }
        ensures file { AsksFile F.RunFile 1 self.old self.new result }
    {
        self.asked.add_one();
        if self.gathered.holds(k) {
            self.gathered.get(k, octets);
            return Ok(());
        }
        if self.ahead.holds(k) {
            self.ahead.get(k, octets);
            self.course.expect(k, octets);
            return Ok(());
        }
        self.read_there(k, octets)?;
        self.course.expect(k, octets);
        Ok(())
    }

    fn write(&mut self, k: u32, octets: &[u8; BLOCK_OCTETS]) -> Result<(), DeviceFailed>
        requires { k < length (blocks_seen F.RunFile self.old) }
        ensures written { IsHonest F.RunFile self.old
            → OnOk result (blocks_seen F.RunFile self.new
            ≡ slice_set (blocks_seen F.RunFile self.old) k octets.now) }
        ensures others { IsHonest F.RunFile self.old → ChangesOnly k
            (blocks_seen F.RunFile self.old) (blocks_seen F.RunFile self.new) }
        ensures heads { IsHonest F.RunFile self.old
            → heads_seen F.RunFile self.new ≡ heads_seen F.RunFile self.old }
        ensures honest { IsHonest F.RunFile self.old → IsHonest F.RunFile self.new }
        ensures count { length (blocks_seen F.RunFile self.new)
            ≡ length (blocks_seen F.RunFile self.old) }
        ensures calls { asked_of self.new ≡ asked_of self.old + 1 }
        // With an article's last block all that is gathered is written, where nothing is set aside.
        ensures last { ¬ IsSetAside self.old → (b : Block) → IsBlock b → octets.now ≡ image_of b
            → b.article_length ≤ chunk_size * (b.index + 1)
            → OnOk result (gathered_of self.new ≡ []) }
        // In any case no block of that article is in memory alone.
        ensures article { (b : Block) → IsBlock b → octets.now ≡ image_of b
            → b.article_length ≤ chunk_size * (b.index + 1)
            → OnOk result (AreWritten (k - b.index) k self.new) }
        // They are in the file as they are seen: a kill leaves each of them.
        ensures kept { (b : Block) → IsBlock b → octets.now ≡ image_of b
            → b.article_length ≤ chunk_size * (b.index + 1)
            → OnOk result (AreInFile F.RunFile (k - b.index) k self.new) }
        // Where something is set aside the block goes into the file at once, and nothing is
        // gathered beside what is set aside, which loses block k alone, unless it is written.
        ensures there { IsSetAside self.old → IsHonest F.RunFile self.old
            → OnOk result (block_at (blocks_there F.RunFile self.new) k ≡ octets.now) }
        ensures rest { IsSetAside self.old → KeepsAside k self.old self.new }
        // The file is asked once then, unless the article waits for what is set aside.
        ensures once { IsSetAside self.old → (b : Block) → IsBlock b → octets.now ≡ image_of b
            → PassesBy k b.index self.old → AsksFile F.RunFile 1 self.old self.new result }
        // After a failure nothing is gathered that isn't set aside.
        ensures aside { OnErr result ((j : ℕ) → IsInMemory self.new j → IsSetAside self.new) }
        ensures file { AsksFile F.RunFile 2 self.old self.new result }
    {
        self.asked.add_one();
        if self.set_aside {
            return self.write_past(k, octets);
        }
        self.gather(k, octets)
    }

    fn read_head(&mut self, k: u32, octets: &mut [u8; BLOCK_OCTETS]) -> Result<(), DeviceFailed>
        requires { k < head_blocks (length (blocks_seen F.RunFile self.old)) }
        ensures octets { IsHonest F.RunFile self.old
            → OnOk result (octets.new ≡ block_at (heads_seen F.RunFile self.old) k) }
        ensures same { IsHonest F.RunFile self.old
            → heads_seen F.RunFile self.new ≡ heads_seen F.RunFile self.old }
        ensures blocks { IsHonest F.RunFile self.old
            → blocks_seen F.RunFile self.new ≡ blocks_seen F.RunFile self.old }
        ensures honest { IsHonest F.RunFile self.old → IsHonest F.RunFile self.new }
        ensures count { length (blocks_seen F.RunFile self.new)
            ≡ length (blocks_seen F.RunFile self.old) }
        ensures calls { asked_of self.new ≡ asked_of self.old + 1 }
        // What is gathered stays so.
        ensures gathered { gathered_of self.new ≡ gathered_of self.old }
        ensures file { AsksFile F.RunFile 1 self.old self.new result }
    {
        self.asked.add_one();
        self.file.read(head_place_of(self.count, k), octets)
    }

    fn write_head(&mut self, k: u32, octets: &[u8; BLOCK_OCTETS]) -> Result<(), DeviceFailed>
        requires { k < head_blocks (length (blocks_seen F.RunFile self.old)) }
        ensures written { IsHonest F.RunFile self.old
            → OnOk result (heads_seen F.RunFile self.new
            ≡ slice_set (heads_seen F.RunFile self.old) k octets.now) }
        ensures others { IsHonest F.RunFile self.old → ChangesOnly k
            (heads_seen F.RunFile self.old) (heads_seen F.RunFile self.new) }
        ensures blocks { IsHonest F.RunFile self.old
            → blocks_seen F.RunFile self.new ≡ blocks_seen F.RunFile self.old }
        ensures honest { IsHonest F.RunFile self.old → IsHonest F.RunFile self.new }
        ensures count { length (blocks_seen F.RunFile self.new)
            ≡ length (blocks_seen F.RunFile self.old) }
        ensures calls { asked_of self.new ≡ asked_of self.old + 1 }
        // All that is gathered is written before, but for what is set aside, which stays as it is.
        ensures flushed { ¬ IsSetAside self.old → OnOk result (gathered_of self.new ≡ []) }
        ensures stays { IsSetAside self.old → StaysAside self.old self.new }
        ensures once { IsSetAside self.old → AsksFile F.RunFile 1 self.old self.new result }
        // After a failure nothing is gathered that isn't set aside.
        ensures aside { OnErr result ((j : ℕ) → IsInMemory self.new j → IsSetAside self.new) }
        ensures file { AsksFile F.RunFile 2 self.old self.new result }
    {
        self.asked.add_one();
        self.clear_way()?;
        self.file.write(head_place_of(self.count, k), octets)
    }
}
