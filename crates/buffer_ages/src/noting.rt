//! A mark is added where one is due.
ghost use Rattle.std.specs.Prelude.{◌≡◌, IfOk, filter, nat_le};
ghost use Rattle.buffer_ages.specs.Marks.{behind, newest};
ghost use Rattle.buffer_ages.specs.Marks as terms;

use crate::marks::{MOST_MARKS, Mark};
use std::alloc::{AllocError, Global};

/// The marks of a buffer of so many blocks, whose front is here at this moment: those that were of
/// it, without any that its front has not come to, and behind them a new one where one is due.
/// Then those of a later moment are gone, of a clock that was set back, and the oldest where there
/// would be more than there may be.
pub fn noted(
    alloc: Global,
    marks: &[Mark],
    front: u64,
    blocks: u64,
    moment: u64,
) -> Result<Vec<Mark>, AllocError>
    ensures { IfOk result (λ now. now.items ≡ terms.noted marks.now front blocks moment) }
{
    let before = marks_behind(alloc, marks, front)?;
    if is_due(&before, front, blocks) {
        let marked = marked(alloc, &before, Mark { front, moment });
        drop(before);
        marked
    } else {
        Ok(before)
    }
}

/// Whether a new mark is due where the front is here: there is none, or the buffer was empty by the
/// last one and isn't any more, or the front has gone on by a 64th of the buffer since.
pub fn is_due(marks: &[Mark], front: u64, blocks: u64) -> bool
    ensures { result ≡ terms.is_due marks.now front blocks }
{
    match marks.last() {
        None => true,
        Some(last) => is_due_after(*last, front, blocks),
    }
}

/// Whether one is due after this one.
fn is_due_after(last: Mark, front: u64, blocks: u64) -> bool
    ensures { result ≡ terms.is_due_after last front blocks }
{
    if front <= last.front {
        return false;
    }
    last.front == 0 || blocks <= (front - last.front).saturating_mul(64)
}

/// The marks that a front has come to.
fn marks_behind(alloc: Global, marks: &[Mark], front: u64) -> Result<Vec<Mark>, AllocError>
    ensures { IfOk result (λ some. some.items ≡ behind front marks.now) }
{
    marks
        .iter()
        .filter(|mark| mark.front <= front)
        .copied()
        .collect(alloc)
}

/// These marks with a new one behind them.
fn marked(alloc: Global, marks: &[Mark], mark: Mark) -> Result<Vec<Mark>, AllocError>
    ensures { IfOk result (λ now. now.items ≡ terms.marked marks.now mark) }
{
    let earlier = marks_until(alloc, marks, mark.moment)?;
    let mut now = Vec::from_slice(alloc, newest_of(&earlier, MOST_MARKS - 1))?;
    drop(earlier);
    now.push(mark)?;
    Ok(now)
}

/// The marks of this moment or an earlier one.
fn marks_until(alloc: Global, marks: &[Mark], moment: u64) -> Result<Vec<Mark>, AllocError>
    ensures { IfOk result (λ some.
        some.items ≡ filter (λ mark. nat_le mark.moment moment) marks.now) }
{
    marks
        .iter()
        .filter(|mark| mark.moment <= moment)
        .copied()
        .collect(alloc)
}

/// So many of the marks, the newest, or all where there are no more.
pub(crate) fn newest_of(marks: &[Mark], most: usize) -> &[Mark]
    ensures { result.now ≡ newest most marks.now }
{
    &marks[marks.len().saturating_sub(most)..]
}
