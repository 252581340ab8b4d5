//! The reads of one article, a block at a time, in any thread.
ghost use Rattle.std.specs.Prelude.{◌≡◌, ◌≢◌, true, false};
ghost use Rattle.std.specs.Option.{ForSome, IsSomeAnd};
ghost use Rattle.boxcar.specs.Table.{Shows};
ghost use Rattle.live_store.specs.Ahead.{IsReadAhead};
ghost use Rattle.live_store.specs.Tied.{IsSameRecord};

use crate::ahead::Ahead;
use crate::answers::{OneRead, Reading};
use crate::numbered::NumberedBuffer;
use crate::reading_ahead::read_behind;
use crate::record::{ArticleLog, RecordNumber, StorePremises};
use crate::steps::Unfound;
use cyc_block::{BlockStore, CHUNK_OCTETS};
use cyc_buffer::Fault;
use cyc_token::Token;
use std::alloc::Global;
use std::marker::PhantomData;
use std::sync::{Mutex, Wait};

/// The record that the reads of one article are of: none before the first chunk, and from then on
/// always the same. With it go the chunks of that record that were read before they are asked for;
/// a record's text never changes, so they are right whenever they are told.
#[derive(Drop)]
pub struct OneRecord<J: StorePremises> {
    pub(crate) alloc: Global,
    pub(crate) shown: Option<RecordNumber>,
    pub(crate) ahead: Option<Ahead>,
    pub(crate) of: PhantomData<J>,
    ghost here: { ForSome shown (λ w. Shows J.register w) },
    ghost chunks: { ForSome ahead (λ a. ∥ IsReadAhead J.trusted J.register shown a ∥₁) },
}

impl<J: StorePremises> OneRecord<J> {
    ghost use Rattle.std.specs.Prelude.{◌≡◌, ◌≢◌, ℕ, true, None, Some, length, IfOk, IfErr, IfSome};
    ghost use Rattle.std.specs.Prelude.{◌+◌, ◌≤◌, ◌<◌, IsSome, OnErr, OnOk, OnSome, take};
    ghost use Rattle.std.specs.Option.{IsSomeAnd};
    ghost use Rattle.boxcar.specs.Table.{Shows};
    ghost use Rattle.cyc_buffer.specs.Answers.{HasRoom};
    ghost use Rattle.cyc_buffer.specs.declared.answers.Found.TheVariants as found;
    ghost use Rattle.cyc_token.specs.Token.{token_view};
    ghost use Rattle.live_store.specs.Ahead.{GoesAsFar, IsAhead, IsGivenAhead, IsToldOfRead};
    ghost use Rattle.live_store.specs.Ahead.{WasMerelyRead, blocks_behind, chunk_ahead};
    ghost use Rattle.live_store.specs.Ahead.{left_behind};
    ghost use Rattle.live_store.specs.Causes.{cause_of};
    ghost use Rattle.live_store.specs.Steps.{IsFoundIn, IsFoundGone, IsReadFault, IsRecordAfter};
    ghost use Rattle.live_store.specs.Steps.{IsShown, IsOneNowhere, IsOneThere, IsOneUnfound};
    ghost use Rattle.live_store.specs.Steps.{IsUnfoundAt};
    ghost use Rattle.live_store.specs.Steps.{TellsRead, ones_found};
    ghost use Rattle.live_store.specs.Tied.{IsSameRecord, token_in};
    ghost use Rattle.news_terms.specs.BlockImage.{chunk_size};
    ghost use Rattle.news_terms.specs.Token as tokens;
    ghost use Rattle.live_store.specs.declared.steps.unfound.UnfoundCause.TheVariants as causes;

    /// Nothing is read yet. It takes no memory.
    pub fn new(alloc: Global) -> OneRecord<J>
        ensures shown { result.shown ≡ None }
        ensures ahead { result.ahead ≡ None }
    {
        OneRecord {
            alloc,
            shown: None,
            ahead: None,
            of: PhantomData,
        }
    }

    /// Reads block k of the article under a token, out of the buffer of its number: a chunk of
    /// another record than that of an earlier chunk is Unknown. The lock is held for this block,
    /// and where an earlier chunk was found for those behind it too: what is found of them is given
    /// without a lock when they are asked for.
    pub fn read<S: BlockStore, R: Wait>(
        &mut self,
        rt: &R,
        buffers: &[Mutex<NumberedBuffer<S, J>>],
        register: &ArticleLog,
        token: &Token,
        k: u32,
        chunk: &mut [u8; CHUNK_OCTETS],
    ) -> Result<OneRead, Fault>
        requires { register.now ≡ J.register }
        // A chunk is that of the record, which has the token.
        ensures chunk { J.trusted ≡ true → IfOk (ones_found result)
            (IsFoundIn J.register (token_view token.now) k chunk.new self.new.shown) }
        // Once there is a record it stays.
        ensures kept { IfSome self.old.shown (λ w. self.new.shown ≡ Some w) }
        // With a chunk there is one, over any store; else it is as it was.
        ensures after { IsRecordAfter (ones_found result) self.old.shown self.new.shown }
        ensures room { IfOk (ones_found result) HasRoom }
        ensures gone { IfOk (ones_found result) (IsFoundGone (token_view token.now)) }
        // Unknown has its cause: of another record a chunk is only where there was one before.
        ensures unknown { IfOk result (IsOneUnfound k self.old.shown) }
        ensures nowhere { IfOk result (IsOneNowhere (length buffers.now) (token_view token.now)) }
        // Without a buffer of the token's number there is no chunk.
        ensures there { IfOk result (IsOneThere (length buffers.now) (token_view token.now)) }
        ensures fault { IfErr result (IsReadFault (token_view token.now)) }
        // What was read ahead is told without another read, and the rest of it stays.
        ensures ahead { IfSome self.old.ahead (λ a. IsAhead a token.now k
            → (token_view token.now).buffer < length buffers.now
            → IsGivenAhead k a result chunk.new self.new.ahead) }
    {
        let Some(buffer) = buffers.get(usize::from(token.buffer)) else {
            return Ok(OneRead::Unknown(Unfound::no_buffer(buffers.len(), token)));
        };
        if let Some(octets) = self.give(token, k, chunk) {
            return Ok(OneRead::Chunk(octets));
        }
        self.ahead = None;
        let mut guard = buffer.lock(rt);
        self.read_run(&mut guard, register, token, k, chunk)
    }

    /// Gives the chunk of block k under a token, where it was read ahead: so many octets at the
    /// front of the slice. Behind the last of these their room is let go.
    fn give(&mut self, token: &Token, k: u32, chunk: &mut [u8; CHUNK_OCTETS]) -> Option<usize>
        ensures chunk { J.trusted ≡ true → IfSome result (λ n.
            IsFoundIn J.register (token_view token.now) k chunk.new self.old.shown
            (found.Chunk n)) }
        ensures octets { IfSome result (λ n.
            IfSome self.old.ahead (λ a. take n chunk.new ≡ chunk_ahead a k)) }
        ensures room { IfSome result (λ n. n ≤ chunk_size) }
        ensures own { OnSome result (IsSome self.old.shown) }
        ensures shown { self.new.shown ≡ self.old.shown }
        ensures left { OnSome result (self.new.ahead ≡ left_behind k self.old.ahead) }
        // Nothing is given only where it isn't there.
        ensures none { result ≡ None → IfSome self.old.ahead (λ a. IsAhead a token.now k → ⊥) }
        ensures same { result ≡ None → self.new.ahead ≡ self.old.ahead }
    {
        let Some(ahead) = &self.ahead else {
            return None;
        };
        let octets = ahead.give(token, k, chunk)?;
        if ahead.ends_with(k) {
            self.ahead = None;
        }
        Some(octets)
    }

    /// Reads block k under the lock, and what is behind it where there was a record before: the
    /// first block of an article is read alone, since more than one isn't always asked for.
    fn read_run<S: BlockStore>(
        &mut self,
        buffer: &mut NumberedBuffer<S, J>,
        register: &ArticleLog,
        token: &Token,
        k: u32,
        chunk: &mut [u8; CHUNK_OCTETS],
    ) -> Result<OneRead, Fault>
        requires register { register.now ≡ J.register }
        requires none { self.old.ahead ≡ None }
        ensures chunk { J.trusted ≡ true → IfOk (ones_found result)
            (IsFoundIn J.register (token_view token.now) k chunk.new self.new.shown) }
        ensures kept { IfSome self.old.shown (λ w. self.new.shown ≡ Some w) }
        ensures after { IsRecordAfter (ones_found result) self.old.shown self.new.shown }
        ensures room { IfOk (ones_found result) HasRoom }
        ensures gone { IfOk (ones_found result) (IsFoundGone (token_view token.now)) }
        ensures unknown { IfOk result (IsOneUnfound k self.old.shown) }
        ensures nowhere { (count : ℕ) → IfOk result (IsOneNowhere count (token_view token.now)) }
        ensures fault { IfErr result (IsReadFault (token_view token.now)) }
        // It is the buffer's own read of this block, and the first one is read alone.
        ensures told { IsToldOfRead buffer.old token.now k chunk.old self.old.shown result
            chunk.new }
        ensures alone { self.old.shown ≡ None → self.new.ahead ≡ None }
        ensures buffer { WasMerelyRead buffer.old buffer.new }
    {
        let begun = self.shown.is_some();
        let reading = match buffer.read(token, k, chunk) {
            Ok(reading) => reading,
            Err(fault) => return Err(fault),
        };
        let one = self.tell(register, reading, k);
        if !begun {
            return Ok(one);
        }
        let OneRead::Chunk(octets) = one else {
            return Ok(one);
        };
        self.read_ahead(buffer, register, token, k);
        Ok(OneRead::Chunk(octets))
    }

    /// Reads what is behind block k, a chunk of the record of these reads.
    fn read_ahead<S: BlockStore>(
        &mut self,
        buffer: &mut NumberedBuffer<S, J>,
        register: &ArticleLog,
        token: &Token,
        k: u32,
    )
        requires register { register.now ≡ J.register }
        // The room of what was there before was let go.
        requires none { self.old.ahead ≡ None }
        requires found { J.trusted ≡ true
            → IfSome self.old.shown (λ own. token_in own ≡ token_view token.now) }
        ensures shown { self.new.shown ≡ self.old.shown }
        ensures ahead { IfSome self.new.ahead (λ a. (a.token ≡ token.now) × (a.from ≡ k + 1)) }
        ensures far { IfSome self.new.ahead (λ a. IfSome self.old.shown (λ own.
            GoesAsFar buffer.old own (blocks_behind k token.now.length) a)) }
        ensures buffer { WasMerelyRead buffer.old buffer.new }
    {
        let Some(own) = &self.shown else {
            return;
        };
        // Without memory the next block is read when it is asked for.
        self.ahead = match read_behind(self.alloc, buffer, register, own, token, k) {
            Ok(read) => read,
            Err(_) => None,
        };
    }

    /// What a reading of block k is to these reads: a chunk of another record than theirs is
    /// Unknown.
    fn tell(&mut self, register: &ArticleLog, reading: Reading, k: u32) -> OneRead
        requires register { register.now ≡ J.register }
        requires shown { IsShown J.register reading }
        ensures tells { TellsRead J.register reading self.old.shown result self.new.shown }
        ensures ahead { self.new.ahead ≡ self.old.ahead }
        ensures unknown { IsUnfoundAt k reading → IsOneUnfound k self.old.shown result }
        ensures nowhere { (count : ℕ) (token : tokens.Token) → IsUnfoundAt k reading
            → IsOneNowhere count token result }
    {
        match reading {
            Reading::Chunk(octets, shown) => match self.takes(register, shown, k) {
                Ok(()) => OneRead::Chunk(octets),
                Err(unfound) => OneRead::Unknown(unfound),
            },
            Reading::Gone(front) => OneRead::Gone(front),
            Reading::Unknown(unfound) => OneRead::Unknown(unfound),
        }
    }

    /// Whether a chunk of the record of this number, read as block k, is one of these reads: the
    /// first one always is.
    fn takes(&mut self, register: &ArticleLog, shown: RecordNumber, k: u32) -> Result<(), Unfound>
        requires register { register.now ≡ J.register }
        requires shown { Shows J.register shown }
        ensures same { OnOk result (IsSomeAnd self.new.shown (IsSameRecord shown)) }
        ensures kept { IfSome self.old.shown (λ w. self.new.shown ≡ Some w) }
        ensures ahead { self.new.ahead ≡ self.old.ahead }
        ensures other { OnErr result (self.new.shown ≡ self.old.shown) }
        ensures apart { OnErr result
            (IsSomeAnd self.old.shown (λ own. shown.index ≢ own.index)) }
        ensures cause { IfErr result (λ unfound. cause_of unfound ≡ causes.Another k) }
    {
        let Some(own) = &self.shown else {
            drop(self.shown.replace(shown));
            return Ok(());
        };
        if is_same(register, &shown, own) {
            drop(shown);
            return Ok(());
        }
        let unfound = Unfound::another(k, &shown, own);
        drop(shown);
        Err(unfound)
    }
}

/// Whether two numbers are one, and so of one record.
pub(crate) fn is_same(register: &ArticleLog, a: &RecordNumber, b: &RecordNumber) -> bool
    requires { Shows register.now a.now × Shows register.now b.now }
    ensures same { result ≡ true → IsSameRecord a.now b.now }
    ensures apart { result ≡ false → a.now.index ≢ b.now.index }
{
    if a.index() != b.index() {
        return false;
    }
    register.agrees(a, b);
    true
}

/// The record that reads are of is that of a number, where they have one number: in any thread.
pub fn same_record<J: StorePremises>(
    register: &ArticleLog,
    reads: &OneRecord<J>,
    shown: &RecordNumber,
)
    requires register { register.now ≡ J.register }
    requires shown { Shows J.register shown.now }
    requires number { IsSomeAnd reads.now.shown (λ own. own.index ≡ shown.now.index) }
    ensures { IsSomeAnd reads.now.shown (IsSameRecord shown.now) }
{
    if let Some(own) = &reads.shown {
        register.agrees(shown, own);
    }
}
