//! Which of the articles that were scanned are found again, and the register that they make.
ghost use Rattle.std.specs.Prelude.{◌≡◌, ◌↔◌, ◌⊎◌, ◌+◌, ◌*◌, ◌^◌, ◌≤◌, ◌<◌, List, [], ℕ, None, All};
ghost use Rattle.std.specs.Prelude.{IfOk, OnOk, IsTrue, length};
ghost use Rattle.std.specs.List.{Contains};
ghost use Rattle.news_terms.specs.Places.{on_line, size_of};
ghost use Rattle.cyc_token.specs.declared.Token as declared;
ghost use Rattle.cyc_buffer.specs.BufferState.{IsUnpassed, IsUnpassedBy, buffer_of};
ghost use Rattle.cyc_buffer.specs.Crash.{AreOnLine};
ghost use Rattle.cyc_buffer.specs.Scanning.{AreInOrder, AreMarksOf, IsLiveOf};
ghost use Rattle.cyc_buffer.specs.Scanning.{IsScan, passed_on};
ghost use Rattle.cyc_buffer.specs.Starting.{blocks_in};

use crate::buffer_state::{BufferState, Counts};
use crate::line::{Line, size_of};
use crate::marks::Marks;
use crate::scanning::Scan;
use cyc_token::Token;
use std::alloc::{AllocError, Global};

impl Line {
    /// Whether the front has not passed a block since it was in this cycle.
    pub(crate) fn has_not_passed(&self, cycle: u32, block: u32) -> bool
        ensures { IsTrue result ↔ IsUnpassed self.now cycle block }
    {
        if cycle == self.cycle {
            return block < self.used;
        }
        cycle < self.cycle && self.cycle - cycle == 1 && self.used <= block
    }

    /// Whether an article is of a cycle, and the front has not passed it.
    fn has_live(&self, token: &Token, cycle: u32) -> bool
        ensures { IsTrue result ↔ ((token.now.cycle ≡ cycle)
            × IsUnpassed self.now token.now.cycle token.now.first) }
    {
        token.cycle == cycle && self.has_not_passed(token.cycle, token.first)
    }

    /// The blocks that the front passed since the first cycle.
    fn passed(&self) -> u64
        requires { self.now.first_cycle ≤ self.now.cycle }
        ensures { result ≡ passed_on self.now }
    {
        let cycles = u64::from(self.cycle - self.first_cycle);
        cycles * u64::from(self.blocks) + u64::from(self.used)
    }
}

/// Lists the live ones of the articles that were scanned, rising by place, and marks their blocks.
pub(crate) fn list_found(
    alloc: Global,
    scan: &Scan,
    starts: &mut Marks,
    kept: &mut Marks,
) -> Result<Vec<Token>, AllocError>
    requires sound { IsScan (buffer_of scan.now.line) scan.now.line.cycle scan.now.line.used
        scan.now.tokens.items scan.now.run scan.now.line.blocks }
    requires fits { scan.now.line.blocks < 2 ^ 32 }
    requires starts_room { scan.now.line.blocks ≤ 64 * length starts.old.words.items }
    requires kept_room { scan.now.line.blocks ≤ 64 * length kept.old.words.items }
    requires unmarked { AreMarksOf [] starts.old.words.items kept.old.words.items }
    ensures listed { IfOk result (λ tokens. (t : declared.Token) → Contains tokens.items t
        ↔ (Contains scan.now.tokens.items t × IsUnpassed scan.now.line t.cycle t.first)) }
    ensures marks { IfOk result (λ tokens.
        AreMarksOf tokens.items starts.new.words.items kept.new.words.items) }
    ensures order { IfOk result (λ tokens. AreOnLine scan.now.line.blocks
        (on_line scan.now.line.blocks scan.now.line.first_cycle 0)
        (on_line scan.now.line.blocks scan.now.line.cycle scan.now.line.used) tokens.items) }
    ensures starts_room { length starts.new.words.items ≡ length starts.old.words.items }
    ensures kept_room { length kept.new.words.items ≡ length kept.old.words.items }
{
    // Rising by place, those of the cycle before come first.
    let mut tokens = list_before(alloc, scan, starts, kept)?;
    list_live(scan, scan.line.cycle, &mut tokens, starts, kept)?;
    Ok(tokens)
}

/// Lists the live ones of the cycle before the front's, and marks their blocks.
fn list_before(
    alloc: Global,
    scan: &Scan,
    starts: &mut Marks,
    kept: &mut Marks,
) -> Result<Vec<Token>, AllocError>
    requires sound { IsScan (buffer_of scan.now.line) scan.now.line.cycle scan.now.line.used
        scan.now.tokens.items scan.now.run scan.now.line.blocks }
    requires fits { scan.now.line.blocks < 2 ^ 32 }
    requires starts_room { scan.now.line.blocks ≤ 64 * length starts.old.words.items }
    requires kept_room { scan.now.line.blocks ≤ 64 * length kept.old.words.items }
    requires unmarked { AreMarksOf [] starts.old.words.items kept.old.words.items }
    ensures listed { IfOk result (λ tokens. (t : declared.Token) → Contains tokens.items t
        ↔ (Contains scan.now.tokens.items t × (t.cycle + 1 ≡ scan.now.line.cycle)
        × (scan.now.line.used ≤ t.first))) }
    ensures marks { IfOk result (λ tokens.
        AreMarksOf tokens.items starts.new.words.items kept.new.words.items) }
    ensures order { IfOk result (λ tokens. AreOnLine scan.now.line.blocks
        (on_line scan.now.line.blocks scan.now.line.first_cycle 0)
        (on_line scan.now.line.blocks scan.now.line.cycle 0) tokens.items) }
    ensures starts_room { length starts.new.words.items ≡ length starts.old.words.items }
    ensures kept_room { length kept.new.words.items ≡ length kept.old.words.items }
{
    let mut tokens = Vec::new(alloc);
    if scan.line.cycle > scan.line.first_cycle {
        list_live(scan, scan.line.cycle - 1, &mut tokens, starts, kept)?;
        return Ok(tokens);
    }
    Ok(tokens)
}

/// Lists the live ones of a cycle, and marks their blocks.
fn list_live(
    scan: &Scan,
    cycle: u32,
    tokens: &mut Vec<Token>,
    starts: &mut Marks,
    kept: &mut Marks,
) -> Result<(), AllocError>
    requires sound { IsScan (buffer_of scan.now.line) scan.now.line.cycle scan.now.line.used
        scan.now.tokens.items scan.now.run scan.now.line.blocks }
    requires fits { scan.now.line.blocks < 2 ^ 32 }
    requires starts_room { scan.now.line.blocks ≤ 64 * length starts.old.words.items }
    requires kept_room { scan.now.line.blocks ≤ 64 * length kept.old.words.items }
    ensures listed { OnOk result ((t : declared.Token) → Contains tokens.new.items t
        ↔ (Contains tokens.old.items t ⊎ IsLiveOf scan.now.line scan.now.tokens.items cycle t)) }
    ensures marks { OnOk result (AreMarksOf tokens.old.items starts.old.words.items
        kept.old.words.items
        → AreMarksOf tokens.new.items starts.new.words.items kept.new.words.items) }
    ensures order { OnOk result ((from : ℕ) → AreOnLine scan.now.line.blocks from
        (on_line scan.now.line.blocks cycle 0) tokens.old.items
        → AreOnLine scan.now.line.blocks from
        (on_line scan.now.line.blocks cycle scan.now.line.blocks) tokens.new.items) }
    ensures starts_room { length starts.new.words.items ≡ length starts.old.words.items }
    ensures kept_room { length kept.new.words.items ≡ length kept.old.words.items }
{
    for token in &scan.tokens {
        if scan.line.has_live(token, cycle) {
            starts.change(token.first, token.first + 1, true);
            kept.change(token.first, token.first + size_of(token.length), true);
            tokens.push(*token)?;
        }
    }
    Ok(())
}

/// How many begins are counted: that of each article, and one for each other block that the front
/// passed.
fn begun_count(line: &Line, tokens: &[Token]) -> u64
    requires begun { line.now.first_cycle ≤ line.now.cycle }
    requires some { All (λ (t : declared.Token). 1 ≤ size_of t.length) tokens.now }
    requires within { blocks_in tokens.now ≤ passed_on line.now }
    ensures { result + blocks_in tokens.now ≡ passed_on line.now + length tokens.now }
{
    let mut begun = line.passed();
    for token in tokens {
        begun -= u64::from(size_of(token.length) - 1);
    }
    begun
}

/// The register of a buffer that was found again, with these marks.
pub(crate) fn found_state(line: Line, tokens: &[Token], starts: Marks, kept: Marks) -> BufferState
    requires begun { line.first_cycle ≤ line.cycle }
    requires some { All (λ (t : declared.Token). 1 ≤ size_of t.length) tokens.now }
    requires within { blocks_in tokens.now ≤ passed_on line }
    requires starts_room { line.blocks ≤ 64 * length starts.words.items }
    requires kept_room { line.blocks ≤ 64 * length kept.words.items }
    requires starts_least { 64 * length starts.words.items < line.blocks + 64 }
    requires kept_least { 64 * length kept.words.items < line.blocks + 64 }
    ensures line { result.line ≡ line }
    ensures starts { result.starts ≡ starts }
    ensures kept { result.kept ≡ kept }
    ensures begun { result.counts.begun + blocks_in tokens.now
        ≡ passed_on line + length tokens.now }
    ensures stored { result.counts.stored ≡ length tokens.now }
    ensures progress { result.progress ≡ None }
{
    let counts = Counts {
        begun: begun_count(&line, tokens),
        stored: tokens.len() as u64,
    };
    BufferState {
        line,
        starts,
        kept,
        counts,
        progress: None,
    }
}
