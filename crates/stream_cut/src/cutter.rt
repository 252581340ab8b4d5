//! The cutter: the octets that came, and what is cut off their front.
ghost use Rattle.std.specs.Prelude.{◌≡◌, ◌+◌, ◌*◌, ◌++◌, ◌≤◌, [], length, drop, false, nat_lt};
ghost use Rattle.std.specs.Prelude.{IfOk, IfErr, IsOk, OnErr, OnOk, vec_len, vec_capacity};
ghost use Rattle.news_terms.specs.Lines.{spelled};
ghost use Rattle.news_terms.specs.Blocks.{text_lines, unstuffed};
ghost use Rattle.stream_cut.specs.Stream.{Stream, HasRoom, with_memory, with_unread};
ghost use Rattle.stream_cut.specs.Stream.{kept_octets, after_pass};
ghost use Rattle.stream_cut.specs.Stream.{LineFound, BlockFound, LineCut, BlockCut};
ghost use Rattle.stream_cut.specs.Dots.{dots_of};
ghost use Rattle.stream_cut.specs.Past.{KeepsStream};
ghost use Rattle.stream_cut.specs.declared.cutter.CutError.TheVariants.{Memory};

use crate::found::{FoundBlock, FoundLine};
use crate::gone::Gone;
use crate::look::{LineLook, Progress, look_for_line};
use crate::past::{BlockStand, Within, look_at_block};
use crate::stuffing::unstuff;
use std::alloc::{AllocError, Global};
use std::marker::Model;

/// Why no line or block is given.
#[derive(Clone, Copy)]
pub enum CutError {
    /// Memory was refused.
    Memory,
    /// The next 512 octets hold no CRLF, now or when a line was wanted before (RFC 3977 section
    /// 3.1).
    LineTooLong,
}

impl From<AllocError> for CutError {
    ghost from_gives = { λ _ e. e ≡ Memory };

    fn from(_e: AllocError) -> CutError {
        CutError::Memory
    }
}

/// A block of a stream.
#[derive(Drop)]
pub enum Block {
    /// Its text: its lines but the last, unstuffed, each with its CRLF.
    Whole(Vec<u8>),
    /// Its text has more octets than the limit allows; it was read to its end.
    Oversize,
}

/// Cuts a stream that comes in pieces into lines and blocks (RFC 3977 section 3.1).
///
/// `find_line` and `find_block` say what stands at the front, `kept` shows the octets, and `pass`
/// cuts them off; `line` and `block` do this and give a copy. A cutter keeps what was fed and not
/// cut yet. Of a block whose text is past the limit the octets are dropped as they come, so that
/// after each `find_block` no more are kept than a block within the limit may have. What was looked
/// through for a line or a block isn't looked through again for it, so the work is linear in the
/// octets; only a line that is cut where a block was awaited makes the next look for a block begin
/// anew. Where a block is being passed (`is_passing`) no line may be wanted before its end.
pub struct Cutter {
    alloc: Global,
    /// What was fed. The octets before `start` are cut, or gone.
    octets: Vec<u8>,
    start: usize,
    /// The unread octets before those, which aren't kept.
    gone: Gone,
    /// Where those end, if there are any.
    passing: Option<Within>,
    /// How far the octets from `start` on were looked through.
    progress: Progress,
    max_block: usize,
    overlong: bool,
}

// Written out, so that no crate above proves anew how each part is let go.
impl Drop for Cutter {
    fn drop(self) {
        let Cutter {
            alloc: _,
            octets: _,
            start: _,
            gone: _,
            passing: _,
            progress: _,
            max_block: _,
            overlong: _,
        } = self;
    }
}

impl Model for Cutter {
    ghost Value = { Stream };

    ghost view = { λ c. record {
      unread = c.gone ++ drop c.start c.octets.items;
      dropped = length c.gone;
      held = length c.octets.items;
      room = vec_capacity c.octets;
      limit = c.max_block;
      overlong = c.overlong;
    } };

    ghost invariant = { λ c. KeepsStream c.octets.items c.start c.max_block c.passing c.gone
        c.progress.passed c.progress.looked c.progress.dots };
}

impl Cutter {
    /// A cutter that was fed nothing, for blocks with texts of up to `max_block` octets. It takes
    /// no memory.
    pub fn new(alloc: Global, max_block: usize) -> Cutter
        ensures { result ≡ record {
          unread = [];
          dropped = 0;
          held = 0;
          room = 0;
          limit = max_block;
          overlong = false;
        } }
    {
        Cutter {
            alloc,
            octets: Vec::new(alloc),
            start: 0,
            gone: Gone::none(),
            passing: None,
            progress: Progress::none(),
            max_block,
            overlong: false,
        }
    }

    /// Adds the next piece of the stream. Memory is refused only where the room that there is
    /// doesn't do, and no more octets are held than twice those that are kept, and the piece.
    pub fn feed(&mut self, piece: &[u8]) -> Result<(), CutError>
        ensures fed { OnOk result (self.new ≡ with_memory
            (with_unread self.old (self.old.unread ++ piece.now)) self.new.held self.new.room) }
        ensures refused { IfErr result (λ error. (error ≡ CutError.Memory)
            × (self.new ≡ with_memory self.old self.new.held self.new.room)) }
        ensures fewer { OnErr result (self.new.held ≤ self.old.held) }
        ensures room { HasRoom self.old (length piece.now) → IsOk result }
        ensures bounded { self.new.held ≤ 2 * length (kept_octets self.old) + length piece.now }
        ensures grows { self.old.room ≤ self.new.room }
    {
        self.drop_cut();
        self.octets.extend_from_slice(piece)?;
        Ok(())
    }

    /// Whether octets of a block that is past the limit were dropped, and its end is still to come.
    pub fn is_passing(&self) -> bool
        ensures { result ≡ nat_lt 0 self.now.dropped }
    {
        self.passing.is_some()
    }

    /// Says what stands at the front where a line is wanted. Nothing is copied or cut, and a line
    /// that is too long is found so again.
    pub fn find_line(&mut self) -> FoundLine
        requires { self.old.dropped ≡ 0 }
        ensures found { LineFound self.old result }
        ensures same { self.new ≡ self.old }
    {
        let start = self.start;
        match look_for_line(&self.octets[start..], self.progress) {
            LineLook::Ends(end) => FoundLine::Whole(end),
            LineLook::TooLong => FoundLine::TooLong,
            LineLook::Incomplete(progress) => {
                self.progress = progress;
                FoundLine::Incomplete
            }
        }
    }

    /// Says what stands at the front where a block is wanted. Nothing is copied or cut, but of a
    /// block that is past the limit and not whole so far the octets are dropped. It takes no
    /// memory.
    pub fn find_block(&mut self) -> FoundBlock
        ensures found { BlockFound self.old result self.new }
    {
        let start = self.start;
        match look_at_block(
            &self.octets[start..],
            self.passing,
            self.progress,
            self.max_block,
        ) {
            BlockStand::Whole(progress) => {
                self.progress = progress;
                FoundBlock::Whole {
                    octets: progress.passed,
                    dots: progress.dots,
                }
            }
            BlockStand::Oversize(count, progress) => {
                self.progress = progress;
                FoundBlock::Oversize(count)
            }
            BlockStand::Open(progress) => {
                self.progress = progress;
                FoundBlock::Unfinished
            }
            BlockStand::Past(count, within) => {
                self.gone.add(&self.octets, start, count);
                self.start = start + count;
                self.passing = Some(within);
                self.progress = Progress::none();
                FoundBlock::Unfinished
            }
        }
    }

    /// The unread octets that are kept: all of them, unless a block past the limit is being passed.
    pub fn kept(&self) -> &[u8]
        ensures { result.now ≡ kept_octets self.now }
    {
        &self.octets[self.start..]
    }

    /// Cuts so many of the octets that are kept off the front, and with them those that were
    /// dropped; all that are kept, where they are fewer. It moves no octets.
    pub fn pass(&mut self, count: usize)
        ensures { self.new ≡ after_pass self.old count }
    {
        self.start += count.min(self.octets.len() - self.start);
        self.gone = Gone::none();
        self.passing = None;
        self.progress = Progress::none();
    }

    /// The first line that is unread, without its CRLF, or `None` as long as it isn't whole. Once a
    /// line was too long there is none.
    pub fn line(&mut self) -> Result<Option<Vec<u8>>, CutError>
        requires { self.old.dropped ≡ 0 }
        ensures cut { LineCut self.old result self.new }
    {
        if self.overlong {
            return Err(CutError::LineTooLong);
        }
        match self.find_line() {
            FoundLine::Whole(end) => {
                let line = Vec::from_slice(self.alloc, &self.kept()[..end])?;
                self.pass(end + 2);
                Ok(Some(line))
            }
            FoundLine::TooLong => {
                self.overlong = true;
                Err(CutError::LineTooLong)
            }
            FoundLine::Incomplete => Ok(None),
        }
    }

    /// The first block that is unread, or `None` as long as it isn't whole. Once a line was too
    /// long there is none.
    pub fn block(&mut self) -> Result<Option<Block>, CutError>
        ensures cut { BlockCut self.old result self.new }
    {
        // Where the long line ends isn't known, so neither is where a block would begin.
        if self.overlong {
            return Err(CutError::LineTooLong);
        }
        match self.find_block() {
            FoundBlock::Whole { octets, dots } => {
                let text = text_of(self.alloc, &self.kept()[..octets], dots)?;
                self.pass(octets + 3);
                Ok(Some(Block::Whole(text)))
            }
            FoundBlock::Oversize(count) => {
                self.pass(count);
                Ok(Some(Block::Oversize))
            }
            FoundBlock::Unfinished => Ok(None),
        }
    }

    /// Drops the octets that are cut, once they are more than those that are left to move.
    fn drop_cut(&mut self)
        ensures same { self.new ≡ with_memory self.old self.new.held self.old.room }
        ensures fewer { self.new.held ≤ self.old.held }
        ensures bounded { self.new.held ≤ 2 * length (kept_octets self.old) }
    {
        if self.start > self.octets.len() / 2 {
            drop_front(&mut self.octets, self.start);
            self.start = 0;
        }
    }
}

/// Drops so many octets off the front.
fn drop_front(octets: &mut Vec<u8>, count: usize)
    requires { count ≤ vec_len octets.old }
    ensures items { octets.new.items ≡ drop count octets.old.items }
    ensures capacity { vec_capacity octets.new ≡ vec_capacity octets.old }
{
    let left = octets.len() - count;
    octets.copy_within(count.., 0);
    octets.truncate(left);
}

/// The text of these whole lines, so many of them with a dot at their front.
fn text_of(alloc: Global, lines: &[u8], dots: usize) -> Result<Vec<u8>, AllocError>
    requires whole { spelled (text_lines lines.now) ≡ lines.now }
    requires dotted { dots_of (text_lines lines.now) ≡ dots }
    ensures { IfOk result (λ v. v.items ≡ unstuffed (text_lines lines.now)) }
{
    if dots == 0 {
        return Vec::from_slice(alloc, lines);
    }
    unstuff(alloc, lines, lines.len() - dots)
}
