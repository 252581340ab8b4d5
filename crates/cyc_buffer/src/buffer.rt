ghost use Rattle.std.specs.Prelude.{◌≡◌, ◌≤◌, ◌<◌, ◌*◌, ℕ, length, take, drop, IfSome, IfNone};
ghost use Rattle.std.specs.Prelude.{IsSomeAnd};
ghost use Rattle.news_terms.specs.BlockImage.{Block, IsBlock, chunk, chunk_size};
ghost use Rattle.news_terms.specs.BlockImage.{block_image as image_of};
ghost use Rattle.cyc_block.specs.Image.{stamped};
ghost use Rattle.cyc_buffer.specs.Progress.{stamp_of};

use crate::answers::{BufError, FaultKind, FormatError, Found, Front};
use crate::buffer_state::{BufferState, Look, Open};
use cyc_block::{
    BLOCK_OCTETS, BlockStore, CHUNK_OCTETS, HeadState, Stamp, block_image, read_image,
};
use cyc_token::Token;
use std::alloc::Global;

/// A cyclic buffer over a store of blocks.
pub struct Buffer<S: BlockStore> {
    pub(crate) store: S,
    pub(crate) buffer_state: BufferState,
    /// The number of the stop that it was started from; 0 where it was made anew.
    pub(crate) stop: u64,
    /// It has said in head block 0 that it may change.
    pub(crate) has_open_head: bool,
    ghost counted: { buffer_state.line.blocks ≡ length (S.blocks store) },
}

// Written out, so that no crate above proves anew how each part is let go.
impl<S: BlockStore + Drop> Drop for Buffer<S> {
    fn drop(self) {
        let Buffer {
            store: _,
            buffer_state: _,
            stop: _,
            has_open_head: _,
        } = self;
    }
}

/// A store over which no buffer is made, and why.
#[derive(Drop)]
pub struct Unformatted<S: BlockStore> {
    /// The store, as it was where memory was refused.
    pub store: S,
    /// Memory was refused, or the device failed.
    pub error: FormatError,
}

impl<S: BlockStore> Buffer<S> {
    ghost use Rattle.std.specs.Prelude.{◌≡◌, ◌≤◌, ◌+◌, ◌↔◌, length, Bool, true, false, Some, IfOk};
    ghost use Rattle.std.specs.Prelude.{◌⊎◌, IfErr, IsTrue, OnOk, OnErr};
    ghost use Rattle.cyc_token.specs.Token.{token_view};
    ghost use Rattle.cyc_buffer.specs.Agreement.{Agrees, Follows, Owns, store_of, buffer_state_of};
    ghost use Rattle.cyc_buffer.specs.Agreement.{blocks_written, is_broken, length_of, token_of};
    ghost use Rattle.cyc_buffer.specs.Agreement.{CanWrite, CanFinish};
    ghost use Rattle.news_terms.specs.Token as terms;
    ghost use Rattle.news_terms.specs.Places.{IsLive, on_line};
    ghost use Rattle.cyc_buffer.specs.Crash.{IsLeftOf, IsWrittenWhole};
    ghost use Rattle.cyc_buffer.specs.Answers.{refusal, error_of, front_view, IsDeviceFault};
    ghost use Rattle.cyc_buffer.specs.Calls.{LeavesDevice, WritesNext, ReadsBlock};
    ghost use Rattle.cyc_buffer.specs.History.{History, new_history, with_begin, with_finish};
    ghost use Rattle.cyc_buffer.specs.History.{without_write, open_token, front_of, cycle_of};
    ghost use Rattle.cyc_buffer.specs.History.{stored_count};
    ghost use Rattle.cyc_buffer.specs.Head.{has_open_head, is_busy, stop_of, LeavesBlocks};
    ghost use Rattle.cyc_buffer.specs.Head.{IsFormatRefusal};
    ghost use Rattle.cyc_buffer.specs.Reads.{StaysHeld};
    ghost use Rattle.cyc_buffer.specs.Remembered.{AddsNoStart, AddsStart, IsFoundBy, IsUnbegun};
    ghost use Rattle.cyc_buffer.specs.Remembered.{is_start, place_of};
    ghost use Rattle.cyc_buffer.specs.declared.answers.FaultKind.TheVariants as kinds;
    ghost use Rattle.cyc_buffer.specs.Stopped.{numbers_of};
    ghost use Rattle.cyc_block.specs.Store.{block_at, ChangesOnly};
    ghost use Rattle.news_terms.specs.HeadBlocks.{Open as OpenState, head_image as head_of};

    /// A buffer over all blocks of a store, in which nothing was begun yet, and head block 0 says
    /// so. All memory is taken here.
    pub fn format(
        alloc: Global,
        store: S,
        number: u8,
        first_cycle: u32,
    ) -> Result<Buffer<S>, Unformatted<S>>
        ensures new { IfOk result (λ buffer. (trusted : Bool) → (trusted ≡ true → S.honest store)
            → Agrees trusted buffer (new_history (record {
              number = number;
              blocks = length (S.blocks store);
              first_cycle = first_cycle;
            }))) }
        ensures opened { IfOk result (λ buffer. has_open_head buffer ≡ true) }
        ensures unmarked { IfOk result (λ buffer. (block : ℕ)
            → is_start buffer block ≡ false) }
        ensures idle { IfOk result (λ buffer. is_busy buffer ≡ false) }
        ensures written { IfOk result (λ buffer. S.honest store
            → block_at (S.heads (store_of buffer)) 0 ≡ head_of (numbers_of OpenState 0
            (new_history (record {
              number = number;
              blocks = length (S.blocks store);
              first_cycle = first_cycle;
            })))) }
        // The device is called once, for this block alone.
        ensures others { IfOk result (λ buffer. S.honest store
            → ChangesOnly 0 (S.heads store) (S.heads (store_of buffer))) }
        ensures blocks { IfOk result (λ buffer.
            LeavesBlocks ⟦<S as BlockStore>⟧ store (store_of buffer)) }
        ensures calls { IfOk result (λ buffer. S.calls (store_of buffer) ≡ S.calls store + 1) }
        ensures failures { IfOk result (λ buffer.
            S.failures (store_of buffer) ≡ S.failures store) }
        // Else the store is handed back.
        ensures refusal { IfErr result (λ refused.
            IsFormatRefusal ⟦<S as BlockStore>⟧ store refused.error refused.store) }
    {
        let blocks = store.count();
        let buffer_state = match BufferState::new(alloc, number, blocks, first_cycle) {
            Ok(buffer_state) => buffer_state,
            Err(_refused) => {
                let error = FormatError::Memory;
                return Err(Unformatted { store, error });
            }
        };
        let mut buffer = Buffer {
            store,
            buffer_state,
            stop: 0,
            has_open_head: false,
        };
        if buffer.write_head(HeadState::Open, 0).is_err() {
            let error = FormatError::Device;
            let store = buffer.into_store();
            return Err(Unformatted { store, error });
        }
        buffer.has_open_head = true;
        Ok(buffer)
    }

    /// Begins an article of a class and of so many octets, at least 1; `fresh` at the front of a
    /// cycle. What the front passes is gone from now on.
    pub fn begin(&mut self, class: u8, length: u32, fresh: bool) -> Result<Open, BufError>
        requires { 1 ≤ length }
        // Refused for the first reason, and then nothing is changed; else begun.
        ensures refusal { (trusted : Bool) (h : History) → Agrees trusted self.old h
            → error_of result ≡ refusal h length fresh }
        ensures refused { OnErr result (buffer_state_of self.new ≡ buffer_state_of self.old) }
        ensures begun { OnOk result (Follows (with_begin class length fresh) self.old self.new) }
        // The open write is this one, of which nothing is written, and its token the history's.
        ensures token { IfOk result (λ write. (trusted : Bool) (h : History)
            → Agrees trusted self.old h → Some (token_view (token_of write))
            ≡ open_token (with_begin class length fresh h)) }
        ensures open { IfOk result (λ write. Owns self.new write) }
        ensures length { IfOk result (λ write. length_of write ≡ length) }
        ensures class { IfOk result (λ write. (token_of write).class ≡ class) }
        ensures none_written { OnOk result (blocks_written self.new ≡ 0) }
        ensures whole { OnOk result (is_broken self.new ≡ false) }
        // Whatever is known of its history, none was open, and no article begins anew.
        ensures idle { OnOk result (is_busy self.old ≡ false) }
        ensures fault { IfErr result (IsUnbegun (place_of self.old) (is_busy self.old) length) }
        ensures starts { AddsNoStart self.old self.new }
        ensures head { has_open_head self.new ≡ has_open_head self.old }
        // The device isn't called.
        ensures store { store_of self.new ≡ store_of self.old }
        // What a crash may have left before it, it may leave behind it, but for what is passed.
        ensures leaves { OnOk result ((h : History) (kept later : terms.Token → Bool)
            → Agrees true self.old h → IsLeftOf h kept (S.blocks (store_of self.old))
            → ((t : terms.Token) → later t ≡ true → (kept t ≡ true)
            × IsLive h.buffer.blocks (front_of (with_begin class length fresh h))
            (on_line h.buffer.blocks t.cycle t.first))
            → IsLeftOf (with_begin class length fresh h) later (S.blocks (store_of self.new))) }
    {
        self.buffer_state.begin(class, length, fresh)
    }

    /// Whether the next block of a text can be written to the write of this handle: it is open
    /// here, no block of it failed, one is left, and the text has the article's length.
    pub fn can_write(&self, write: &Open, text: &[u8]) -> bool
        ensures { IsTrue result ↔ CanWrite self.now write.now text.now }
    {
        self.buffer_state.can_write(write, text)
    }

    /// Writes the next block of the open write's text, and says whether it was the last. After
    /// Device the write can only be abandoned.
    pub fn write_next(&mut self, write: &Open, text: &[u8]) -> Result<bool, BufError>
        requires { CanWrite self.old write.now text.now }
        ensures written { WritesNext self.old write.now text.now result self.new }
        // An error says that the device failed.
        ensures fault { IfErr result (IsDeviceFault (place_of self.old) kinds.Write
            (length_of write.now)) }
        ensures starts { AddsNoStart self.old self.new }
        ensures device { LeavesDevice self.old result self.new }
        ensures head { has_open_head self.new ≡ has_open_head self.old }
        // What a crash may have left before it, it may leave behind it. A write that failed has to
        // leave its block as it was, or as one of the article.
        ensures leaves { (h : History) (kept : terms.Token → Bool) → Agrees true self.old h
            → IsLeftOf h kept (S.blocks (store_of self.old))
            → OnOk result (IsLeftOf h kept (S.blocks (store_of self.new))) }
        ensures leaves_failed { (h : History) (kept : terms.Token → Bool) → Agrees true self.old h
            → IsLeftOf h kept (S.blocks (store_of self.old))
            → IsWrittenWhole h.buffer (S.blocks (store_of self.old)) (S.blocks (store_of self.new))
            (token_view (token_of write.now)) (blocks_written self.old)
            → IsLeftOf h kept (S.blocks (store_of self.new)) }
    {
        let stamp = self.buffer_state.next_stamp(write);
        prove!(stamp.first < self.buffer_state.line.blocks);
        let image = block_image(&stamp, chunk_of(text, stamp.index));
        if self.store.write(stamp.first + stamp.index, &image).is_err() {
            self.buffer_state.mark_broken();
            let fault = self
                .buffer_state
                .fault(FaultKind::Write, stamp.article_length);
            return Err(BufError::Device(fault));
        }
        Ok(self.buffer_state.count_block(write))
    }

    /// Whether the write of this handle can be finished: it is open here, no block of it failed,
    /// and all of it is written.
    pub fn can_finish(&self, write: &Open) -> bool
        ensures { IsTrue result ↔ CanFinish self.now write.now }
    {
        self.buffer_state.can_finish(write)
    }

    /// Finishes the open write, all of which is written: from now on its text is given by the
    /// token.
    pub fn finish(&mut self, write: Open) -> Token
        requires { CanFinish self.old write }
        ensures handle { result ≡ token_of write }
        ensures token { (trusted : Bool) (h : History) → Agrees trusted self.old h
            → Some (token_view result) ≡ open_token h }
        ensures finished { Follows with_finish self.old self.new }
        ensures idle { is_busy self.new ≡ false }
        ensures starts { AddsStart (token_of write).first self.old self.new }
        ensures head { has_open_head self.new ≡ has_open_head self.old }
        // The device isn't called.
        ensures store { store_of self.new ≡ store_of self.old }
        // What a crash may have left before it, it may leave behind it, and from now on it leaves
        // the article that was finished, too.
        ensures leaves { (h : History) (kept later : terms.Token → Bool) → Agrees true self.old h
            → IsLeftOf h kept (S.blocks (store_of self.old))
            → ((t : terms.Token) → later t ≡ true
            → (kept t ≡ true) ⊎ (t ≡ token_view (token_of write)))
            → IsLeftOf (with_finish h) later (S.blocks (store_of self.new)) }
    {
        self.buffer_state.finish(write)
    }

    /// Abandons the open write. Its space stays lost. Nothing is done to another buffer's.
    pub fn abandon(&mut self, write: Open)
        ensures abandoned { Owns self.old write → Follows without_write self.old self.new }
        ensures idle { Owns self.old write → is_busy self.new ≡ false }
        ensures starts { AddsNoStart self.old self.new }
        ensures refused { (Owns self.old write → ⊥) → self.new ≡ self.old }
        ensures head { has_open_head self.new ≡ has_open_head self.old }
        // The device isn't called.
        ensures store { store_of self.new ≡ store_of self.old }
        ensures leaves { (h : History) (kept : terms.Token → Bool)
            → IsLeftOf h kept (S.blocks (store_of self.old))
            → IsLeftOf (without_write h) kept (S.blocks (store_of self.new)) }
    {
        let owned = self.buffer_state.owns(&write);
        let Open { token: _ } = write;
        if owned {
            self.buffer_state.abandon();
        }
    }

    /// Reads block k of the article under a token.
    pub fn read_block(
        &mut self,
        token: &Token,
        k: u32,
        chunk: &mut [u8; CHUNK_OCTETS],
    ) -> Result<Found, BufError>
        ensures reads { ReadsBlock self.old token.now k chunk.old result chunk.new self.new }
        ensures remembered { IsFoundBy self.old token.now k result }
        // Nothing is written.
        ensures held { StaysHeld S.BlockStore (store_of self.old) (store_of self.new) }
        ensures stop { stop_of self.new ≡ stop_of self.old }
    {
        let block = match self.buffer_state.look(token, k) {
            Look::Block(block) => block,
            Look::Gone => return Ok(Found::Gone(self.buffer_state.front())),
            Look::Unknown => return Ok(Found::Unknown),
        };
        let mut image = [0; BLOCK_OCTETS];
        if self.store.read(block, &mut image).is_err() {
            let fault = self.buffer_state.fault(FaultKind::Read, token.length);
            return Err(BufError::Device(fault));
        }
        Ok(match take_chunk(&image, token, k, chunk) {
            Some(octets) => Found::Chunk(octets),
            None => Found::Unknown,
        })
    }

    /// The front's place on the endless line of the buffer's blocks.
    pub fn front(&self) -> u64
        ensures { (trusted : Bool) (h : History) → Agrees trusted self.now h → result ≡ front_of h }
    {
        self.buffer_state.line.front()
    }

    /// The front as a value, which a buffer alone makes.
    pub fn passed(&self) -> Front
        ensures { (trusted : Bool) (h : History) → Agrees trusted self.now h
            → result ≡ front_view h.buffer (front_of h) }
    {
        self.buffer_state.front()
    }

    /// The cycle that the newest article is in; the first one where there is none.
    pub fn cycle(&self) -> u32
        ensures { (trusted : Bool) (h : History) → Agrees trusted self.now h → result ≡ cycle_of h }
    {
        self.buffer_state.line.cycle
    }

    /// How many articles were begun in the buffer.
    pub fn begun(&self) -> u64
        ensures { (trusted : Bool) (h : History) → Agrees trusted self.now h
            → result ≡ length h.begins }
    {
        self.buffer_state.counts.begun
    }

    /// How many of the articles that were begun in the buffer were finished.
    pub fn stored(&self) -> u64
        ensures { (trusted : Bool) (h : History) → Agrees trusted self.now h
            → result ≡ stored_count h.begins }
    {
        self.buffer_state.counts.stored
    }

    /// How many blocks the buffer has.
    pub fn blocks(&self) -> u32
        ensures store { result ≡ length (S.blocks (store_of self.now)) }
        ensures history { (trusted : Bool) (h : History) → Agrees trusted self.now h
            → result ≡ h.buffer.blocks }
    {
        self.buffer_state.line.blocks
    }

    /// The buffer's store.
    pub fn into_store(self) -> S
        ensures { result ≡ store_of self }
    {
        let Buffer {
            store,
            buffer_state: _,
            stop: _,
            has_open_head: _,
        } = self;
        store
    }
}

/// The k-th chunk of a text, which has one.
fn chunk_of(text: &[u8], k: u32) -> &[u8]
    requires { chunk_size * k < length text.now }
    ensures { result.now ≡ chunk k text.now }
{
    let from = CHUNK_OCTETS * k as usize;
    let rest = &text[from..];
    &rest[..rest.len().min(CHUNK_OCTETS)]
}

/// Takes the chunk that a block holds, and says how many octets it has; none where the block is no
/// image, or its stamp isn't that of block k of the token's article.
fn take_chunk(
    image: &[u8; BLOCK_OCTETS],
    token: &Token,
    k: u32,
    chunk: &mut [u8; CHUNK_OCTETS],
) -> Option<usize>
    ensures same { (b : Block) → IsBlock b → image.now ≡ image_of b
        → stamped (stamp_of token.now k) b.payload ≡ b
        → IsSomeAnd result (λ octets. (octets ≡ length b.payload)
        × (take octets chunk.new ≡ b.payload)) }
    ensures other { (b : Block) → IsBlock b → image.now ≡ image_of b
        → IfSome result (λ octets. stamped (stamp_of token.now k) b.payload ≡ b) }
    ensures room { IfSome result (λ octets. octets ≤ chunk_size) }
    ensures rest { IfSome result (λ octets. drop octets chunk.new ≡ drop octets chunk.old) }
    ensures none { IfNone result (chunk.new ≡ chunk.old) }
{
    let Some(read) = read_image(image) else {
        return None;
    };
    let wanted = Stamp {
        cycle: token.cycle,
        first: token.first,
        index: k,
        article_length: token.length,
        class: token.class,
    };
    if read.stamp != wanted {
        return None;
    }
    let octets = read.payload.len();
    chunk[..octets].copy_from_slice(read.payload);
    Some(octets)
}
