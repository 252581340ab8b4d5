ghost use Rattle.std.specs.Prelude.{◌≡◌, ◌≤◌, ◌<◌, ◌*◌, ◌+◌, length};
ghost use Rattle.news_terms.specs.Places.{size_of, on_line};
ghost use Rattle.cyc_buffer.specs.Progress.{start_of, end_of, open_count};

use crate::answers::{BufError, Fault, FaultKind, Front};
use crate::line::{Line, Place, size_of};
use crate::marks::Marks;
use crate::stamping::stamp_at;
use cyc_block::{HeadNumbers, HeadState, Stamp};
use cyc_token::Token;
use std::alloc::{AllocError, Global};

/// An open write of a buffer: its article is begun and neither finished nor abandoned.
pub struct Open {
    /// The token that the article is finished under.
    pub(crate) token: Token,
}

impl Open {
    ghost use Rattle.cyc_buffer.specs.Agreement.{length_of, token_of};

    /// The octets of the article.
    pub fn length(&self) -> u32
        ensures { result ≡ length_of self.now }
    {
        self.token.length
    }

    /// The token that the article is finished under.
    pub fn token(&self) -> Token
        ensures { result ≡ token_of self.now }
    {
        self.token
    }

    /// Gives the handle up, and nothing else: an open write that is its own stays open.
    pub fn into_token(self) -> Token
        ensures { result ≡ self.token }
    {
        let Open { token } = self;
        token
    }
}

/// How far the open write has come.
#[derive(Clone, Copy)]
pub(crate) struct Progress {
    pub(crate) token: Token,
    /// The blocks that are written.
    pub(crate) written: u32,
    /// A write of a block failed.
    pub(crate) broken: bool,
}

/// How many articles were begun in a buffer, and how many of them were finished.
#[derive(Clone, Copy)]
pub(crate) struct Counts {
    pub(crate) begun: u64,
    pub(crate) stored: u64,
}

/// What a buffer keeps in memory.
#[derive(Drop)]
pub(crate) struct BufferState {
    pub(crate) line: Line,
    /// The blocks in which a finished article begins that the front hasn't passed.
    pub(crate) starts: Marks,
    /// Blocks of finished articles that the front hasn't passed, all those of live ones among them.
    /// What such a block holds is known; any other may hold anything, an image of this very token
    /// too.
    pub(crate) kept: Marks,
    pub(crate) counts: Counts,
    pub(crate) progress: Option<Progress>,
    ghost starts_room: { line.blocks ≤ 64 * length starts.words.items },
    ghost kept_room: { line.blocks ≤ 64 * length kept.words.items },
    /// No more words are kept than these marks need.
    ghost starts_least: { 64 * length starts.words.items < line.blocks + 64 },
    ghost kept_least: { 64 * length kept.words.items < line.blocks + 64 },
    ghost begins_within: { start_of progress ≤ line.blocks },
    ghost ends_within: { end_of progress ≤ line.blocks },
    /// Each article has a block at least, so there are no more of them than blocks up to the front.
    ghost begun_within: { counts.begun ≤ on_line line.blocks line.cycle line.used },
    ghost stored_within: { counts.stored + open_count progress ≤ counts.begun },
}

/// What the register says of a block that is asked for.
#[derive(Clone, Copy)]
pub(crate) enum Look {
    /// It is the chunk, if its stamp is the token's.
    Block(u32),
    /// The front has passed the article.
    Gone,
    /// Nothing was finished under the token, or it has no such chunk.
    Unknown,
}

impl BufferState {
    ghost use Rattle.std.specs.Prelude.{◌≡◌, ◌≤◌, ◌<◌, ◌+◌, ◌^◌, ◌==◌, ◌↔◌, ℕ, IsTrue, false, None};
    ghost use Rattle.std.specs.Prelude.{true, is_some, IfErr, IfOk, OnOk, OnErr};
    ghost use Rattle.news_terms.specs.Places.{size_of, on_line};
    ghost use Rattle.cyc_token.specs.Token.{token_view};
    ghost use Rattle.cyc_buffer.specs.Answers.{refusal, error_of, fault_of, front_view};
    ghost use Rattle.cyc_buffer.specs.Look.{look_of};
    ghost use Rattle.cyc_buffer.specs.History.{History, new_history, with_begin, with_finish};
    ghost use Rattle.news_terms.specs.Picks.{head_past};
    ghost use Rattle.cyc_buffer.specs.Marks.{is_marked, marked_after};
    ghost use Rattle.cyc_buffer.specs.Progress.{IsTheOpen, written_of, has_failed, started};
    ghost use Rattle.cyc_buffer.specs.Progress.{CanWriteOn, CanFinishOn, counted, failed, stamp_of};
    ghost use Rattle.cyc_buffer.specs.BufferState.{Keeps, buffer_of, mark_passed, line_head};
    ghost use Rattle.cyc_buffer.specs.BufferState.{place_view, Stays, numbers_in};
    ghost use Rattle.cyc_buffer.specs.Remembered.{IsUnbegun};
    ghost use Rattle.cyc_block.specs.Heads.{head_view, state_view};

    /// The register of a buffer in which nothing was begun.
    pub(crate) fn new(
        alloc: Global,
        number: u8,
        blocks: u32,
        first_cycle: u32,
    ) -> Result<BufferState, AllocError>
        ensures keeps { IfOk result (λ buffer_state. Keeps buffer_state
            (new_history
            (record { number = number; blocks = blocks; first_cycle = first_cycle }))) }
        ensures unmarked { IfOk result (λ buffer_state. (j : ℕ)
            → is_marked buffer_state.starts.words.items j ≡ false) }
        ensures blocks { IfOk result (λ buffer_state. buffer_state.line.blocks ≡ blocks) }
        ensures progress { IfOk result (λ buffer_state. buffer_state.progress ≡ None) }
    {
        Ok(BufferState {
            line: Line {
                number,
                blocks,
                first_cycle,
                cycle: first_cycle,
                used: 0,
            },
            starts: Marks::new(alloc, blocks)?,
            kept: Marks::new(alloc, blocks)?,
            counts: Counts {
                begun: 0,
                stored: 0,
            },
            progress: None,
        })
    }

    /// What head block 0 says of the buffer, in a state and under the number of a stop.
    pub(crate) fn numbers(&self, state: HeadState, stop: u64) -> HeadNumbers
        ensures { head_view result ≡ numbers_in self.now (state_view state) stop }
    {
        HeadNumbers {
            state,
            number: self.line.number,
            blocks: self.line.blocks,
            first_cycle: self.line.first_cycle,
            cycle: self.line.cycle,
            head: self.line.used,
            stop,
            begun: self.counts.begun,
            stored: self.counts.stored,
        }
    }

    /// The buffer's front.
    pub(crate) fn front(&self) -> Front
        ensures { result ≡ front_view (buffer_of self.now.line)
            (on_line self.now.line.blocks self.now.line.cycle self.now.line.used) }
    {
        Front {
            buffer: self.line.number,
            blocks: self.line.blocks,
            front: self.line.front(),
        }
    }

    /// A fault of the buffer, at a call that spoke of an article of so many octets.
    pub(crate) fn fault(&self, kind: FaultKind, length: u32) -> Fault
        ensures { result ≡ fault_of (buffer_of self.now.line) kind length }
    {
        Fault {
            kind,
            buffer: self.line.number,
            length,
        }
    }

    /// Begins an article.
    pub(crate) fn begin(&mut self, class: u8, length: u32, fresh: bool) -> Result<Open, BufError>
        requires { 1 ≤ length }
        ensures refusal { (h : History) → Keeps self.old h
            → error_of result ≡ refusal h length fresh }
        ensures refused { OnErr result (self.new ≡ self.old) }
        ensures begun { OnOk result ((h : History) → Keeps self.old h
            → Keeps self.new (with_begin class length fresh h)) }
        ensures open { IfOk result (λ write. self.new.progress ≡ started write.token) }
        ensures length { IfOk result (λ write. write.token.length ≡ length) }
        ensures class { IfOk result (λ write. write.token.class ≡ class) }
        ensures blocks { self.new.line.blocks ≡ self.old.line.blocks }
        // Whatever is known of its history.
        ensures fault { IfErr result (IsUnbegun (buffer_of self.old.line)
            (is_some self.old.progress) length) }
        ensures idle { OnOk result (self.old.progress ≡ None) }
        ensures starts { (j : ℕ) → is_marked self.new.starts.words.items j ≡ true
            → is_marked self.old.starts.words.items j ≡ true }
    {
        let size = size_of(length);
        if size > self.line.blocks {
            return Err(BufError::TooBig);
        }
        let Some(place) = self.line.next(size, fresh) else {
            return Err(BufError::Worn(self.fault(FaultKind::Worn, length)));
        };
        if self.progress.is_some() {
            return Err(BufError::Busy);
        }
        let token = Token {
            class,
            buffer: self.line.number,
            cycle: place.cycle,
            first: place.first,
            length,
        };
        self.pass(place, size);
        self.progress = Some(Progress {
            token,
            written: 0,
            broken: false,
        });
        Ok(Open { token })
    }

    /// Moves the front past an article of so many blocks, and counts it.
    fn pass(&mut self, place: Place, size: u32)
        requires some { 1 ≤ size }
        requires within { place.first + size ≤ self.old.line.blocks }
        requires ahead { on_line self.old.line.blocks self.old.line.cycle self.old.line.used
            ≤ on_line self.old.line.blocks place.cycle place.first }
        ensures head { line_head self.new.line ≡ head_past (place_view place) size }
        ensures buffer { buffer_of self.new.line ≡ buffer_of self.old.line }
        ensures starts { (j : ℕ) → is_marked self.new.starts.words.items j
            ≡ mark_passed self.old.line (place_view place) size j
            (is_marked self.old.starts.words.items j) }
        ensures kept { (j : ℕ) → is_marked self.new.kept.words.items j
            ≡ mark_passed self.old.line (place_view place) size j
            (is_marked self.old.kept.words.items j) }
        ensures begun { self.new.counts.begun ≡ self.old.counts.begun + 1 }
        ensures stored { self.new.counts.stored ≡ self.old.counts.stored }
        ensures progress { self.new.progress ≡ self.old.progress }
    {
        let blocks = self.line.blocks;
        let end = place.first + size;
        prove!(end <= blocks);
        self.unmark_passed(place, size);
        self.line.cycle = place.cycle;
        self.line.used = end;
        prove!(self.counts.begun < self.line.front());
        self.counts.begun += 1;
    }

    /// Clears the marks of the blocks that the front passes when an article is put there.
    fn unmark_passed(&mut self, place: Place, size: u32)
        requires { place.first + size ≤ self.old.line.blocks }
        ensures starts { (j : ℕ) → is_marked self.new.starts.words.items j
            ≡ mark_passed self.old.line (place_view place) size j
            (is_marked self.old.starts.words.items j) }
        ensures kept { (j : ℕ) → is_marked self.new.kept.words.items j
            ≡ mark_passed self.old.line (place_view place) size j
            (is_marked self.old.kept.words.items j) }
        ensures line { self.new.line ≡ self.old.line }
        ensures counts { self.new.counts ≡ self.old.counts }
        ensures progress { self.new.progress ≡ self.old.progress }
    {
        let blocks = self.line.blocks;
        let end = place.first + size;
        if place.cycle != self.line.cycle {
            self.unmark(self.line.used, blocks);
        }
        self.unmark(place.first, end);
    }

    /// Clears the marks of the blocks from one up to another.
    pub(crate) fn unmark(&mut self, from: u32, to: u32)
        requires { to ≤ self.old.line.blocks }
        ensures starts { (j : ℕ) → is_marked self.new.starts.words.items j
            ≡ marked_after from to false j (is_marked self.old.starts.words.items j) }
        ensures kept { (j : ℕ) → is_marked self.new.kept.words.items j
            ≡ marked_after from to false j (is_marked self.old.kept.words.items j) }
        ensures line { self.new.line ≡ self.old.line }
        ensures counts { self.new.counts ≡ self.old.counts }
        ensures progress { self.new.progress ≡ self.old.progress }
    {
        self.starts.change(from, to, false);
        self.kept.change(from, to, false);
    }

    /// Whether this is the open write.
    pub(crate) fn owns(&self, write: &Open) -> bool
        ensures { IsTrue result ↔ IsTheOpen write.now self.now.progress }
    {
        match self.progress {
            Some(progress) => progress.token == write.token,
            None => false,
        }
    }

    /// Whether the next block of the text can be written.
    pub(crate) fn can_write(&self, write: &Open, text: &[u8]) -> bool
        ensures { IsTrue result ↔ CanWriteOn self.now.progress write.now text.now }
    {
        let Some(progress) = self.progress else {
            return false;
        };
        self.owns(write)
            && !progress.broken
            && progress.written < size_of(write.token.length)
            && text.len() == write.token.length as usize
    }

    /// Whether the open write can be finished.
    pub(crate) fn can_finish(&self, write: &Open) -> bool
        ensures { IsTrue result ↔ CanFinishOn self.now.progress write.now }
    {
        match self.progress {
            Some(progress) if !progress.broken => {
                self.owns(write) && progress.written == size_of(write.token.length)
            }
            _ => false,
        }
    }

    /// The stamp of the next block of the open write.
    #[tactic(auto, using(crate::proofs::OpenLemmas::open_end))]
    pub(crate) fn next_stamp(&self, write: &Open) -> Stamp
        requires open { IsTheOpen write.now self.now.progress }
        requires left { written_of self.now.progress < size_of write.now.token.length }
        ensures stamp { result ≡ stamp_of write.now.token (written_of self.now.progress) }
        ensures within { write.now.token.first + written_of self.now.progress
            < self.now.line.blocks }
        ensures fits { (result.cycle < 2 ^ 32) × (result.first < 2 ^ 32) × (result.index < 2 ^ 32) }
    {
        let index = match self.progress {
            Some(progress) => progress.written,
            None => unreachable!(),
        };
        let token = write.token;
        stamp_at(token.cycle, token.first, index, token.length, token.class)
    }

    /// One more block is written; whether it was the last.
    pub(crate) fn count_block(&mut self, write: &Open) -> bool
        requires open { IsTheOpen write.now self.old.progress }
        requires left { written_of self.old.progress < size_of write.now.token.length }
        ensures progress { self.new.progress ≡ counted self.old.progress }
        ensures rest { Stays self.old self.new }
        ensures last { result
            ≡ (written_of self.old.progress + 1 == size_of write.now.token.length) }
    {
        let blocks = size_of(write.token.length);
        match &mut self.progress {
            Some(progress) => {
                prove!(progress.written < blocks);
                progress.written += 1;
                progress.written == blocks
            }
            None => unreachable!(),
        }
    }

    /// A write of a block failed.
    pub(crate) fn mark_broken(&mut self)
        ensures progress { self.new.progress ≡ failed self.old.progress }
        ensures rest { Stays self.old self.new }
    {
        if let Some(progress) = &mut self.progress {
            progress.broken = true;
        }
    }

    /// Finishes the open write.
    #[tactic(auto, using(crate::proofs::OpenLemmas::open_place))]
    pub(crate) fn finish(&mut self, write: Open) -> Token
        requires open { IsTheOpen write self.old.progress }
        requires written { written_of self.old.progress ≡ size_of write.token.length }
        ensures token { result ≡ write.token }
        ensures finished { (h : History) → Keeps self.old h → Keeps self.new (with_finish h) }
        ensures starts { (j : ℕ) → is_marked self.new.starts.words.items j
            ≡ marked_after write.token.first (write.token.first + 1) true j
            (is_marked self.old.starts.words.items j) }
        ensures line { self.new.line ≡ self.old.line }
        ensures progress { self.new.progress ≡ None }
        ensures cycle { write.token.cycle < 2 ^ 32 }
        ensures end { write.token.first + size_of write.token.length < 2 ^ 32 }
    {
        let Open { token } = write;
        let Token { first, length, .. } = token;
        prove!(first < self.line.blocks);
        self.starts.change(first, first + 1, true);
        self.kept.change(first, first + size_of(length), true);
        prove!(self.counts.stored < self.counts.begun);
        self.counts.stored += 1;
        self.progress = None;
        token
    }

    /// Abandons the open write.
    pub(crate) fn abandon(&mut self)
        ensures progress { self.new.progress ≡ None }
        ensures rest { Stays self.old self.new }
    {
        self.progress = None;
    }

    /// Looks for block k of the article under a token.
    pub(crate) fn look(&self, token: &Token, k: u32) -> Look
        ensures look { result ≡ look_of self.now token.now k }
        ensures within { (block : ℕ) → result ≡ Look.Block block → block < self.now.line.blocks }
        ensures fits { (self.now.line.cycle < 2 ^ 32) × (self.now.line.blocks < 2 ^ 32) }
    {
        let line = &self.line;
        let front = line.front();
        let size = size_of(token.length);
        if token.buffer != line.number || k >= size {
            return Look::Unknown;
        }
        if token.first > line.blocks || size > line.blocks - token.first {
            return Look::Unknown;
        }
        let place = line.place_of(token.cycle, token.first);
        if place >= front {
            return Look::Unknown;
        }
        if place + u64::from(line.blocks) < front {
            return Look::Gone;
        }
        let block = token.first + k;
        if self.starts.has(token.first) && self.kept.has(block) {
            Look::Block(block)
        } else {
            Look::Unknown
        }
    }
}
