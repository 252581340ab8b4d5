//! What the blocks of a device say, read in order, of a buffer that was not stopped.
ghost use Rattle.std.specs.Prelude.{◌≡◌, ◌⊎◌, ◌+◌, ◌^◌, ◌≤◌, ◌<◌, List, [], ℕ, None, Some, length};
ghost use Rattle.std.specs.Prelude.{true};
ghost use Rattle.std.specs.Prelude.{false, IfErr, IfOk, OnOk};
ghost use Rattle.news_terms.specs.Places.{on_line, size_of};
ghost use Rattle.cyc_block.specs.Store.{block_at};
ghost use Rattle.cyc_token.specs.Token.{token_view};
ghost use Rattle.cyc_buffer.specs.BufferState.{buffer_of};
ghost use Rattle.cyc_buffer.specs.Crash.{end_on_line};
ghost use Rattle.cyc_buffer.specs.Readings.{ReadsStore};
ghost use Rattle.cyc_buffer.specs.Scanning.{HasScanned, IsScan};
ghost use Rattle.cyc_buffer.specs.Starting.{IsOutside};

use crate::answers::StartError;
use crate::articles::read_octets;
use crate::line::{Line, size_of};
use crate::pieces::piece_of;
use cyc_block::{BLOCK_OCTETS, BlockStore};
use cyc_token::Token;
use std::alloc::{AllocError, Global};

/// What the blocks that were read so far say.
#[derive(Drop)]
pub(crate) struct Scan {
    /// The line of the buffer's blocks, used up to the end of the article that ends last of all of
    /// which a block is there.
    pub(crate) line: Line,
    /// The articles of which all blocks are there, in the order of their blocks.
    pub(crate) tokens: Vec<Token>,
    /// The article of which all blocks up to the last one read are there, and more are to come.
    pub(crate) run: Option<Token>,
}

impl Scan {
    /// Nothing was read yet.
    fn new(alloc: Global, number: u8, blocks: u32, first_cycle: u32) -> Scan
        ensures number { result.line.number ≡ number }
        ensures blocks { result.line.blocks ≡ blocks }
        ensures first_cycle { result.line.first_cycle ≡ first_cycle }
        ensures cycle { result.line.cycle ≡ first_cycle }
        ensures used { result.line.used ≡ 0 }
        ensures tokens { result.tokens.items ≡ [] }
        ensures run { result.run ≡ None }
    {
        Scan {
            line: Line {
                number,
                blocks,
                first_cycle,
                cycle: first_cycle,
                used: 0,
            },
            tokens: Vec::new(alloc),
            run: None,
        }
    }

    /// Takes what a block says, the one behind those that were taken.
    fn take(&mut self, octets: &[u8; BLOCK_OCTETS], block: u32) -> Result<(), AllocError>
        requires scan { IsScan (buffer_of self.old.line) self.old.line.cycle self.old.line.used
            self.old.tokens.items self.old.run block }
        requires within { block < self.old.line.blocks }
        requires fits { self.old.line.blocks < 2 ^ 32 }
        ensures buffer { OnOk result (buffer_of self.new.line ≡ buffer_of self.old.line) }
        ensures sound { OnOk result
            (IsScan (buffer_of self.old.line) self.new.line.cycle self.new.line.used
            self.new.tokens.items self.new.run (block + 1)) }
        ensures scanned { OnOk result ((blocks : List (List ℕ))
            → block_at blocks block ≡ octets.now
            → HasScanned (buffer_of self.old.line) blocks self.old.line.cycle self.old.line.used
            self.old.tokens.items self.old.run block
            → HasScanned (buffer_of self.old.line) blocks self.new.line.cycle self.new.line.used
            self.new.tokens.items self.new.run (block + 1)) }
    {
        let Some(token) = piece_of(octets, &self.line, block) else {
            self.run = None;
            return Ok(());
        };
        self.line.reach(&token);
        if token.first != block && !self.goes_on_with(&token) {
            self.run = None;
            return Ok(());
        }
        if block + 1 < token.first + size_of(token.length) {
            self.run = Some(token);
            return Ok(());
        }
        self.run = None;
        self.tokens.push(token)?;
        Ok(())
    }

    /// Whether the article that is under way is this one.
    fn goes_on_with(&self, token: &Token) -> bool
        ensures is { result ≡ true → self.now.run ≡ Some token.now }
        ensures other { result ≡ false → self.now.run ≡ Some token.now → ⊥ }
    {
        match self.run {
            Some(run) => run == *token,
            None => false,
        }
    }
}

impl Line {
    /// Uses the line up to the end of an article, at least.
    fn reach(&mut self, token: &Token)
        requires { token.now.first + size_of token.now.length ≤ self.old.blocks }
        ensures buffer { buffer_of self.new ≡ buffer_of self.old }
        ensures ends { end_on_line self.old.blocks (token_view token.now)
            ≤ on_line self.old.blocks self.new.cycle self.new.used }
        ensures rises { on_line self.old.blocks self.old.cycle self.old.used
            ≤ on_line self.old.blocks self.new.cycle self.new.used }
        ensures to { (self.new ≡ self.old) ⊎ ((self.new.cycle ≡ token.now.cycle)
            × (self.new.used ≡ token.now.first + size_of token.now.length)) }
    {
        let end = token.first + size_of(token.length);
        if self.place_of(token.cycle, end) > self.front() {
            self.cycle = token.cycle;
            self.used = end;
        }
    }
}

/// Reads all blocks, each once, in order.
pub(crate) fn scan_blocks<S: BlockStore>(
    alloc: Global,
    store: &mut S,
    number: u8,
    first_cycle: u32,
) -> Result<Scan, StartError>
    ensures buffer { IfOk result (λ scan. buffer_of scan.line ≡ record {
      number = number;
      blocks = length (S.blocks store.old);
      first_cycle = first_cycle;
    }) }
    ensures fits { IfOk result (λ scan. scan.line.blocks < 2 ^ 32) }
    ensures sound { IfOk result (λ scan. IsScan (buffer_of scan.line) scan.line.cycle
        scan.line.used scan.tokens.items scan.run (length (S.blocks store.old))) }
    ensures scanned { S.honest store.old → IfOk result (λ scan. HasScanned (buffer_of scan.line)
        (S.blocks store.old) scan.line.cycle scan.line.used scan.tokens.items scan.run
        (length (S.blocks store.old))) }
    ensures cause { IfErr result IsOutside }
    ensures calls { OnOk result (S.calls store.new
        ≡ S.calls store.old + length (S.blocks store.old)) }
    ensures reads { ReadsStore S.BlockStore store.old store.new result }
{
    let blocks = store.count();
    let mut scan = Scan::new(alloc, number, blocks, first_cycle);
    for block in 0..blocks {
        let octets = read_octets(store, block)?;
        scan.take(&octets, block)?;
    }
    Ok(scan)
}
