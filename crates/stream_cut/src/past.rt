//! What stands where a block is wanted, also where the block is past its limit and octets of it are
//! gone.
ghost use Rattle.std.specs.Prelude.{◌≡◌, ◌+◌, ◌-◌, ◌<◌, ◌≤◌, ◌++◌, [], List, ℕ, length, take, Some};
ghost use Rattle.std.specs.Prelude.{nat_lt, if◌then◌else◌};
ghost use Rattle.stream_cut.specs.Look.{IsPassed};
ghost use Rattle.stream_cut.specs.Stream.{IsPastLimit};
ghost use Rattle.stream_cut.specs.Past.{AreLinesOf, ArePast, HasDropped, StandsAs};
ghost use Rattle.stream_cut.specs.declared.past.Within.TheVariants as within;
ghost use Rattle.stream_cut.specs.declared.past.BlockStand.TheVariants.{Past};

use crate::look::{BlockLook, Progress, line_end, look_for_block};

/// Where the octets of a block that are gone end.
#[derive(Clone, Copy)]
pub(crate) enum Within {
    /// With a line.
    Block,
    /// In a line that isn't the lone dot.
    Line,
}

/// What stands where a block is wanted.
pub(crate) enum BlockStand {
    /// A block whose text is within the limit: its lines, and after them the lone dot.
    Whole(Progress),
    /// A block whose text is past the limit, which ends after so many octets.
    Oversize(usize, Progress),
    /// No lone dot so far.
    Open(Progress),
    /// No lone dot so far, and the text is past the limit: so many octets can go.
    Past(usize, Within),
}

/// What stands where a block is wanted, behind octets that are gone.
pub(crate) fn look_at_block(
    kept: &[u8],
    passing: Option<Within>,
    progress: Progress,
    limit: usize,
) -> BlockStand
    requires { IsPassed kept.now progress.passed progress.looked progress.dots }
    ensures { (gone : List ℕ) → HasDropped limit passing gone kept.now
        → StandsAs limit gone kept.now result }
{
    match passing {
        None => look_at_front(kept, progress, limit),
        Some(within) => look_past(kept, within),
    }
}

/// What stands where a block is wanted and nothing is gone.
fn look_at_front(kept: &[u8], progress: Progress, limit: usize) -> BlockStand
    requires { IsPassed kept.now progress.passed progress.looked progress.dots }
    ensures { StandsAs limit [] kept.now result }
{
    match look_for_block(kept, progress) {
        BlockLook::Closed(progress) => {
            if progress.passed - progress.dots > limit {
                return BlockStand::Oversize(progress.passed + 3, progress);
            }
            BlockStand::Whole(progress)
        }
        BlockLook::Open(progress) => {
            if progress.passed - progress.dots + sure(kept.len() - progress.passed) > limit {
                return part_to_drop(kept.len(), progress.passed);
            }
            BlockStand::Open(progress)
        }
    }
}

/// The least that a line adds to the text once so many octets of it came, among which no CRLF
/// begins: none where it may be the lone dot; else it gains a CRLF, and loses a dot and a CR at
/// most.
fn sure(tail: usize) -> usize
    ensures { result ≡ (if nat_lt 2 tail then tail else 0) }
{
    if tail > 2 {
        return tail;
    }
    0
}

/// What stands behind octets of a block past its limit.
fn look_past(kept: &[u8], within: Within) -> BlockStand
    ensures { (limit : ℕ) (gone : List ℕ) → ArePast limit within gone kept.now
        → StandsAs limit gone kept.now result }
{
    match within {
        Within::Block => look_past_line(kept, 0),
        Within::Line => match line_end(kept, 0) {
            Some(end) => look_past_line(kept, end + 2),
            None => BlockStand::Past(kept.len().saturating_sub(1), Within::Line),
        },
    }
}

/// What stands behind octets of a block past its limit, where a line of it begins at place `at`.
fn look_past_line(kept: &[u8], at: usize) -> BlockStand
    requires { at ≤ length kept.now }
    ensures { (limit : ℕ) (gone : List ℕ) → 0 < length gone → IsPastLimit limit (gone ++ kept.now)
        → AreLinesOf (gone ++ take at kept.now) → StandsAs limit gone kept.now result }
{
    match look_for_block(&kept[at..], Progress::none()) {
        BlockLook::Closed(progress) => {
            BlockStand::Oversize(at + progress.passed + 3, Progress::none())
        }
        BlockLook::Open(progress) => part_to_drop(kept.len(), at + progress.passed),
    }
}

/// What can go of so many octets that begin with whole lines of a block past its limit: the lines;
/// and of octets that can't be the lone dot any more all but the last, which may be a CR.
fn part_to_drop(len: usize, lines: usize) -> BlockStand
    requires { lines ≤ len }
    ensures { result ≡ (if nat_lt 2 (len - lines) then Past (len - 1) within.Line
        else Past lines within.Block) }
{
    if len - lines > 2 {
        return BlockStand::Past(len - 1, Within::Line);
    }
    BlockStand::Past(lines, Within::Block)
}
