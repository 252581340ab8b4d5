//! A whole run over pieces: what is cut depends on the joined octets alone.
ghost use Rattle.std.specs.Prelude.{◌≡◌, ◌++◌, [], List, ℕ, length, drop, map, flat_map};
ghost use Rattle.std.specs.Prelude.{false, IfOk};
ghost use Rattle.stream_cut.specs.Cuts.{cut_off, cuts_of, CutsUp};
ghost use Rattle.stream_cut.specs.Steps.{CutsNext, GoesOn, KeepsLine};

use crate::cutter::{Block, CutError, Cutter};
use std::alloc::{AllocError, Global};

/// What is wanted next of a stream.
#[derive(Clone, Copy)]
pub enum Want {
    /// A command line.
    Line,
    /// A block of text.
    Block,
}

/// What was cut.
#[derive(Drop)]
pub enum Cut {
    /// A line, without its CRLF.
    Line(Vec<u8>),
    /// A block.
    Block(Block),
    /// A line was too long, and nothing is cut after it.
    TooLong,
}

/// Feeds the pieces one after the other, and cuts what is wanted, in order, as soon as it is whole.
pub fn cut_all(
    alloc: Global,
    max_block: usize,
    pieces: &[Vec<u8>],
    wants: &[Want],
) -> Result<Vec<Cut>, AllocError>
    // However the stream came in pieces, the same is cut.
    ensures cut { IfOk result (λ cuts. map cut_off cuts.items
        ≡ cuts_of max_block wants.now (flat_map (λ piece. piece.items) pieces.now)) }
    // What was cut, followed by a rest, is all that was fed.
    ensures whole { IfOk result (λ cuts. (rest : List ℕ) × CutsUp max_block wants.now
        (map cut_off cuts.items) (flat_map (λ piece. piece.items) pieces.now) rest) }
{
    let mut cutter = Cutter::new(alloc, max_block);
    let mut cuts = Vec::new(alloc);
    let mut next = 0;
    for piece in pieces {
        if cutter.feed(piece).is_err() {
            return Err(AllocError);
        }
        next = cut_ready(&mut cutter, wants, next, &mut cuts)?;
    }
    Ok(cuts)
}

/// Cuts what is whole of what is wanted from place `next` on, and gives the place of the next want;
/// past a line that is too long nothing is wanted.
fn cut_ready(
    cutter: &mut Cutter,
    wants: &[Want],
    next: usize,
    cuts: &mut Vec<Cut>,
) -> Result<usize, AllocError>
    requires sound { GoesOn (drop next wants.now) cutter.old }
    ensures sound { IfOk result (λ at. GoesOn (drop at wants.now) cutter.new) }
    ensures limit { IfOk result (λ at. cutter.new.limit ≡ cutter.old.limit) }
    ensures waits { IfOk result (λ at.
        cuts_of cutter.old.limit (drop at wants.now) cutter.new.unread ≡ []) }
    ensures cut { IfOk result (λ at. (more : List ℕ) → map cut_off cuts.new.items
        ++ cuts_of cutter.old.limit (drop at wants.now) (cutter.new.unread ++ more)
        ≡ map cut_off cuts.old.items
        ++ cuts_of cutter.old.limit (drop next wants.now) (cutter.old.unread ++ more)) }
{
    let mut at = next;
    while at < wants.len() {
        match cut_next(cutter, wants[at])? {
            None => return Ok(at),
            Some(Cut::TooLong) => {
                cuts.push(Cut::TooLong)?;
                return Ok(wants.len());
            }
            Some(cut) => {
                cuts.push(cut)?;
                at += 1;
            }
        }
    }
    Ok(at)
}

/// Cuts what is wanted, if it is whole.
fn cut_next(cutter: &mut Cutter, want: Want) -> Result<Option<Cut>, AllocError>
    requires sound { cutter.old.overlong ≡ false }
    requires kept { KeepsLine want cutter.old }
    ensures { IfOk result (λ cut. CutsNext cutter.old want cut cutter.new) }
{
    match want {
        Want::Line => match cutter.line() {
            Ok(Some(line)) => Ok(Some(Cut::Line(line))),
            Ok(None) => Ok(None),
            Err(CutError::LineTooLong) => Ok(Some(Cut::TooLong)),
            Err(CutError::Memory) => Err(AllocError),
        },
        Want::Block => match cutter.block() {
            Ok(Some(block)) => Ok(Some(Cut::Block(block))),
            Ok(None) => Ok(None),
            Err(CutError::LineTooLong) => Ok(Some(Cut::TooLong)),
            Err(CutError::Memory) => Err(AllocError),
        },
    }
}
