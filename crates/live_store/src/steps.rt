//! The steps under a buffer's lock, each one call of the buffer.
ghost use Rattle.std.specs.Prelude.{◌≡◌, None, Some, slice_index_or};
ghost use Rattle.live_store.specs.Steps.{IsDevice};
ghost use Rattle.cyc_buffer.specs.declared.answers.BufError.TheVariants as errors;

use crate::answers::{Reading, WriteFault};
use crate::numbered::NumberedBuffer;
use crate::open_write::OpenWrite;
use crate::record::{ArticleLog, RecordNumber, StorePremises};
use crate::stored::{Finished, Receipt};
use crate::writing::Begun;
use cyc_block::{BlockStore, CHUNK_OCTETS};
use cyc_buffer::{BufError, Fault, Found, Open};
use cyc_token::Token;
use std::marker::PhantomData;

mod beginning;
mod entered;
mod fitting;
mod handles;
mod unfound;

pub use entered::Entered;
use fitting::{can_finish, can_write, is_named};
pub(crate) use handles::octets_of;
pub use handles::{Conflict, ConflictCause};
pub use unfound::{Unfound, UnfoundCause};

impl<S: BlockStore, J: StorePremises> NumberedBuffer<S, J> {
    ghost use Rattle.std.specs.Prelude.{◌≡◌, ◌+◌, ◌≤◌, ◌<◌, Bool, true, None, Some, Ok, Err, IfOk};
    ghost use Rattle.std.specs.Prelude.{OnOk, OnErr, IfErr, IsSomeAnd, slice_set};
    ghost use Rattle.boxcar.specs.Table.{Shows};
    ghost use Rattle.cyc_token.specs.Token.{token_view};
    ghost use Rattle.cyc_buffer.specs.Agreement.{Agrees, Follows, buffer_state_of, store_of};
    ghost use Rattle.cyc_buffer.specs.Answers.{refusal, error_of};
    ghost use Rattle.cyc_buffer.specs.Calls.{ReadsBlock};
    ghost use Rattle.cyc_buffer.specs.History.{History, with_begin, with_finish, without_write};
    ghost use Rattle.cyc_buffer.specs.History.{open_token};
    ghost use Rattle.live_store.specs.Tied.{text_in, token_in};
    ghost use Rattle.live_store.specs.Steps.{buffer_of, open_write_of, numbers_of, IsBegunAs};
    ghost use Rattle.live_store.specs.Steps.{WritesOrConflicts, CanWriteFor, IsNumberedAt};
    ghost use Rattle.live_store.specs.Steps.{CanFinishFor, IsOfWrite, IsReading, IsPassed};
    ghost use Rattle.live_store.specs.Steps.{IsReadFault, HasOctets, IsShown, IsBeginFault};
    ghost use Rattle.live_store.specs.Steps.{IsWriteFault, as_found, IsConflict, ReadsNumbered};
    ghost use Rattle.live_store.specs.Steps.{IsUnfoundAt};
    ghost use Rattle.live_store.specs.Handles.{begun_token, begun_fresh, blocks_of, shown_of};
    ghost use Rattle.live_store.specs.Handles.{conflict_in, written_with};
    ghost use Rattle.live_store.specs.declared.steps.handles.ConflictCause.TheVariants as conflicts;
    ghost use Rattle.live_store.specs.Stores.{receipt_token};

    /// Begins an article of a class and of so many octets, at least 1; `fresh` at the front of a
    /// cycle. What the front passes is gone from now on.
    pub fn begin(&mut self, class: u8, length: u32, fresh: bool) -> Result<Begun, BufError>
        requires { 1 ≤ length }
        // Refused for the first reason, and then nothing is changed; else begun.
        ensures refusal { (trusted : Bool) (h : History) → Agrees trusted (buffer_of self.old) h
            → error_of result ≡ refusal h length fresh }
        ensures refused { OnErr result
            (buffer_state_of (buffer_of self.new) ≡ buffer_state_of (buffer_of self.old)) }
        ensures begun { OnOk result
            (Follows (with_begin class length fresh) (buffer_of self.old) (buffer_of self.new)) }
        // The token is the history's.
        ensures token { IfOk result (λ begun. (trusted : Bool) (h : History)
            → Agrees trusted (buffer_of self.old) h → Some (token_view (begun_token begun))
            ≡ open_token (with_begin class length fresh h)) }
        ensures length { IfOk result (λ begun. (begun_token begun).length ≡ length) }
        ensures class { IfOk result (λ begun. (begun_token begun).class ≡ class) }
        // What is begun tells with which flag that was.
        ensures fresh { IfOk result (λ begun. begun_fresh begun ≡ fresh) }
        ensures fault { IfErr result (IsBeginFault length) }
        // It is begun where none was open, and stands beside the buffer from now on.
        ensures free { OnOk result (open_write_of self.old ≡ None) }
        ensures open_write { IfOk result (λ begun. IsSomeAnd (open_write_of self.new)
            (IsBegunAs (begun_token begun))) }
        ensures kept { OnErr result (open_write_of self.new ≡ open_write_of self.old) }
        ensures numbers { numbers_of self.new ≡ numbers_of self.old }
        // The device isn't called.
        ensures store { store_of (buffer_of self.new) ≡ store_of (buffer_of self.old) }
    {
        let write = match self.buffer.begin(class, length, fresh) {
            Ok(write) => write,
            Err(error) => return Err(error),
        };
        let token = write.token();
        let open_write = OpenWrite {
            write,
            shown: None,
            written: 0,
            broken: false,
        };
        match self.open_write.replace(open_write) {
            None => Ok(Begun::new(token, fresh)),
            Some(_) => unreachable!(),
        }
    }

    /// Writes the next block of the record's text, where the open write is the record's, and says
    /// whether nothing of it is left. After Device the write can only be abandoned.
    pub fn write_next(
        &mut self,
        register: &ArticleLog,
        entered: &mut Entered,
        text: &[u8],
    ) -> Result<bool, WriteFault>
        requires register { register.now ≡ J.register }
        requires shown { Shows J.register (shown_of entered.old) }
        requires text { text.now ≡ text_in (shown_of entered.old) }
        // No block past the last is asked for.
        requires left { written_with entered.old < blocks_of entered.old }
        ensures writes { WritesOrConflicts self.old (shown_of entered.old) text.now
            result self.new }
        ensures fault { IfErr result (IsWriteFault text.now) }
        // Conflict says that no block can be written for the record.
        ensures conflict { IfErr result (λ e. IsConflict e
            → IsSomeAnd (open_write_of self.old) (λ b. CanWriteFor b (shown_of entered.old)) → ⊥) }
        // The handle tells of one block more; else it is as it was.
        ensures record { shown_of entered.new ≡ shown_of entered.old }
        ensures blocks { blocks_of entered.new ≡ blocks_of entered.old }
        ensures one { OnOk result (written_with entered.new ≡ written_with entered.old + 1) }
        ensures none { OnErr result (written_with entered.new ≡ written_with entered.old) }
    {
        let Some(open_write) = &self.open_write else {
            return Err(WriteFault::Conflict(Conflict::of_write()));
        };
        if !can_write(register, open_write, entered, text.len()) {
            return Err(WriteFault::Conflict(Conflict::of_write()));
        }
        let Some(
            OpenWrite {
                write,
                shown: before,
                written,
                broken: _,
            },
        ) = self.open_write.take()
        else {
            unreachable!()
        };
        drop(before);
        match self.buffer.write_next(&write, text) {
            Ok(last) => {
                put(
                    &mut self.open_write,
                    write,
                    entered.shown.again(),
                    written + 1,
                    false,
                );
                entered.written += 1;
                Ok(last)
            }
            Err(error) => {
                put(
                    &mut self.open_write,
                    write,
                    entered.shown.again(),
                    written,
                    true,
                );
                Err(WriteFault::Device(device_fault(error)))
            }
        }
    }

    /// Finishes the open write, where it is the record's and all of it is written: from now on the
    /// record's text is given by the token. What can't be finished is given back.
    pub fn finish(
        &mut self,
        register: &ArticleLog,
        entered: Entered,
    ) -> Result<Finished<J>, (Conflict, Entered)>
        requires register { register.now ≡ J.register }
        requires shown { Shows J.register (shown_of entered) }
        // All blocks were written with it.
        requires all { written_with entered ≡ blocks_of entered }
        ensures named { IfOk result (λ finished. finished.receipt.shown ≡ shown_of entered) }
        ensures finished { OnOk result
            (Follows with_finish (buffer_of self.old) (buffer_of self.new)) }
        // It was the record's, all of it written, and nothing stands beside the buffer any more.
        ensures own { OnOk result
            (IsSomeAnd (open_write_of self.old) (λ b. CanFinishFor b (shown_of entered))) }
        ensures closed { OnOk result (open_write_of self.new ≡ None) }
        // The record's number stands at the article's first block; the other numbers stay.
        ensures numbers { IfOk result (λ finished. numbers_of self.new
            ≡ slice_set (numbers_of self.old) (receipt_token finished.receipt).first
            (Some (shown_of entered))) }
        // Conflict says that it can't be finished for the record, and nothing is changed.
        ensures conflict { OnErr result
            (IsSomeAnd (open_write_of self.old) (λ b. CanFinishFor b (shown_of entered)) → ⊥) }
        ensures refused { OnErr result (self.new ≡ self.old) }
        ensures back { IfErr result (λ back. back.1 ≡ entered) }
        ensures cause { IfErr result (λ back. conflict_in back.0 ≡ conflicts.Write) }
        // The device isn't called.
        ensures store { store_of (buffer_of self.new) ≡ store_of (buffer_of self.old) }
    {
        let Some(open_write) = &self.open_write else {
            return Err((Conflict::of_write(), entered));
        };
        if !can_finish(register, open_write, &entered) {
            return Err((Conflict::of_write(), entered));
        }
        let Entered {
            token: _,
            shown,
            written: _,
        } = entered;
        let Some(
            OpenWrite {
                write,
                shown: before,
                written: _,
                broken: _,
            },
        ) = self.open_write.take()
        else {
            unreachable!()
        };
        drop(before);
        let token = self.buffer.finish(write);
        self.numbers[token.first as usize] = Some(shown.again());
        let receipt = Receipt {
            shown,
            of: PhantomData,
        };
        Ok(Finished { token, receipt })
    }

    /// Abandons the open write, where it is the record's. Its space stays lost.
    pub fn abandon(&mut self, register: &ArticleLog, entered: Entered) -> Result<(), Conflict>
        requires register { register.now ≡ J.register }
        requires shown { Shows J.register (shown_of entered) }
        ensures abandoned { OnOk result
            (Follows without_write (buffer_of self.old) (buffer_of self.new)) }
        // It was the record's, and nothing stands beside the buffer any more.
        ensures own { OnOk result
            (IsSomeAnd (open_write_of self.old) (λ b. IsOfWrite b (shown_of entered))) }
        ensures closed { OnOk result (open_write_of self.new ≡ None) }
        ensures numbers { numbers_of self.new ≡ numbers_of self.old }
        // Conflict says that the open write isn't the record's, and nothing is changed.
        ensures conflict { OnErr result
            (IsSomeAnd (open_write_of self.old) (λ b. IsOfWrite b (shown_of entered)) → ⊥) }
        ensures refused { OnErr result (self.new ≡ self.old) }
        // The device isn't called.
        ensures store { store_of (buffer_of self.new) ≡ store_of (buffer_of self.old) }
    {
        let named = match &self.open_write {
            Some(open_write) => is_named(register, open_write, &entered),
            None => false,
        };
        let Entered {
            shown,
            token: _,
            written: _,
        } = entered;
        drop(shown);
        if !named {
            return Err(Conflict::of_write());
        }
        let Some(
            OpenWrite {
                write,
                shown: before,
                written: _,
                broken: _,
            },
        ) = self.open_write.take()
        else {
            unreachable!()
        };
        drop(before);
        self.buffer.abandon(write);
        Ok(())
    }

    /// Reads block k of the article under a token. With each chunk a number comes.
    pub fn read(
        &mut self,
        token: &Token,
        k: u32,
        chunk: &mut [u8; CHUNK_OCTETS],
    ) -> Result<Reading, Fault>
        // A chunk is that of the record of the number, which has the token.
        ensures chunk { J.trusted ≡ true
            → IfOk result (IsReading J.register (token_view token.now) k chunk.new) }
        ensures shown { IfOk result (IsShown J.register) }
        // Over any store the number is the one that stands at the token's first block.
        ensures number { IfOk result (IsNumberedAt (numbers_of self.old) token.now.first) }
        ensures room { IfOk result HasOctets }
        ensures gone { IfOk result (IsPassed (token_view token.now)) }
        // Unknown is said of the block that was asked for.
        ensures unknown { IfOk result (IsUnfoundAt k) }
        // An error is the device's fault at a read of this article.
        ensures fault { IfErr result (IsReadFault (token_view token.now)) }
        // It is the buffer's own read: what is found, the slice, the buffer after and its device.
        ensures reads { ReadsBlock (buffer_of self.old) token.now k chunk.old (as_found result)
            chunk.new (buffer_of self.new) }
        ensures open_write { open_write_of self.new ≡ open_write_of self.old }
        ensures numbers { numbers_of self.new ≡ numbers_of self.old }
    {
        self.read_numbered(token, k, chunk)
    }

    /// The same, where the number of a chunk is that of the block where its article begins.
    fn read_numbered(
        &mut self,
        token: &Token,
        k: u32,
        chunk: &mut [u8; CHUNK_OCTETS],
    ) -> Result<Reading, Fault>
        ensures { ReadsNumbered J.trusted J.register self.old token.now k chunk.old result
            chunk.new self.new }
    {
        match self.buffer.read_block(token, k, chunk) {
            Ok(Found::Chunk(octets)) => match number_at(&self.numbers, token.first) {
                Some(shown) => Ok(Reading::Chunk(octets, shown)),
                None => unreachable!(),
            },
            Ok(Found::Gone(front)) => Ok(Reading::Gone(front)),
            Ok(Found::Unknown) => Ok(Reading::Unknown(Unfound::no_chunk(k))),
            Err(error) => Err(device_fault(error)),
        }
    }
}

/// The number that stands at a block.
fn number_at(numbers: &[Option<RecordNumber>], block: u32) -> Option<RecordNumber>
    ensures { result ≡ slice_index_or numbers.now block None }
{
    match numbers.get(block as usize) {
        Some(Some(shown)) => Some(shown.again()),
        Some(None) => None,
        None => None,
    }
}

/// The fault of a device that failed.
fn device_fault(error: BufError) -> Fault
    requires { IsDevice error }
    ensures { error ≡ errors.Device result }
{
    match error {
        BufError::Device(fault) => fault,
        _ => unreachable!(),
    }
}

/// Puts an open write beside its buffer, where none is.
fn put(
    open_write: &mut Option<OpenWrite>,
    write: Open,
    shown: RecordNumber,
    written: u32,
    broken: bool,
)
    requires { open_write.old ≡ None }
    ensures { open_write.new
        ≡ Some (record { write = write; shown = Some shown; written = written; broken = broken }) }
{
    let before = open_write.replace(OpenWrite {
        write,
        shown: Some(shown),
        written,
        broken,
    });
    match before {
        None => {}
        Some(_) => unreachable!(),
    }
}
