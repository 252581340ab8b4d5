//! How the text of marks is read.
ghost use Rattle.std.specs.Prelude.{◌≡◌, ◌++◌, IfOk, OnOk, map};
ghost use Rattle.std.specs.Option.{option_to_list};
ghost use Rattle.line_words.specs.Words.{words};
ghost use Rattle.line_words.specs.declared.words.Between.TheVariants.{Spaces};
ghost use Rattle.buffer_ages.specs.Text.{mark_said, marks_read};
ghost use Rattle.buffer_ages.specs.Text as terms;
ghost use Rattle.buffer_ages.specs.Views.{ages_view};

use crate::marks::{BufferMarks, MOST_MARKS, Mark};
use crate::noting::newest_of;
use line_words::{Between, Octets, first_word, is, number_within};
use relay_conf::{BufferConf, lines_of};
use std::alloc::{AllocError, Global};

/// The marks that a text has of each of these buffers, in their order. A line that doesn't fit says
/// nothing.
pub fn read_ages(
    alloc: Global,
    buffers: &[BufferConf],
    text: &[u8],
) -> Result<Vec<BufferMarks>, AllocError>
    ensures { IfOk result (λ ages. map ages_view ages.items
        ≡ terms.read_ages (map (λ buffer. buffer.name) buffers.now) text.now) }
{
    let lines = lines_of(alloc, text)?;
    each_buffer(alloc, buffers, &lines)
}

/// The same of lines.
fn each_buffer(
    alloc: Global,
    buffers: &[BufferConf],
    lines: &[&[u8]],
) -> Result<Vec<BufferMarks>, AllocError>
    ensures { IfOk result (λ ages. map ages_view ages.items
        ≡ map (terms.ages_in (map (λ line. line.now) lines.now))
        (map (λ buffer. buffer.name) buffers.now)) }
{
    let mut ages = Vec::new(alloc);
    for buffer in buffers {
        ages.push(one_buffer(alloc, buffer, lines)?)?;
    }
    Ok(ages)
}

/// The marks that lines have of a buffer.
fn one_buffer(
    alloc: Global,
    buffer: &BufferConf,
    lines: &[&[u8]],
) -> Result<BufferMarks, AllocError>
    ensures { IfOk result (λ ages.
        ages_view ages ≡ terms.ages_in (map (λ line. line.now) lines.now) buffer.now.name) }
{
    let name = Octets::copied(alloc, buffer.name.as_slice())?;
    let all = marks_of(alloc, buffer.name.as_slice(), lines)?;
    let marks = Vec::from_slice(alloc, newest_of(&all, MOST_MARKS))?;
    drop(all);
    Ok(BufferMarks { name, marks })
}

/// The marks that lines say of the buffer of this name, each where it may follow the one before.
fn marks_of(alloc: Global, name: &[u8], lines: &[&[u8]]) -> Result<Vec<Mark>, AllocError>
    ensures { IfOk result (λ marks.
        marks.items ≡ marks_read (map (λ line. line.now) lines.now) name.now) }
{
    let mut marks = Vec::new(alloc);
    let mut last = None;
    for line in lines {
        let next = next_mark(name, last, line);
        put_mark(&mut marks, next)?;
        last = newer(next, last);
    }
    Ok(marks)
}

/// Puts a mark behind these, where there is one.
fn put_mark(marks: &mut Vec<Mark>, next: Option<Mark>) -> Result<(), AllocError>
    ensures { OnOk result (marks.new.items ≡ marks.old.items ++ option_to_list next) }
{
    if let Some(mark) = next {
        marks.push(mark)?;
    }
    Ok(())
}

/// The next mark, where there is one, else the last one.
fn newer(next: Option<Mark>, last: Option<Mark>) -> Option<Mark>
    ensures { result ≡ terms.newer next last }
{
    match next {
        Some(mark) => Some(mark),
        None => last,
    }
}

/// The mark that a line says of the buffer of this name, where it may follow this one.
fn next_mark(name: &[u8], last: Option<Mark>, line: &[u8]) -> Option<Mark>
    ensures { result ≡ terms.next_mark name.now last line.now }
{
    let mark = mark_of(name, line)?;
    if may_follow(last, mark) {
        Some(mark)
    } else {
        None
    }
}

/// Whether a mark may follow this one, where there is one: its front is farther, and its moment no
/// earlier.
fn may_follow(last: Option<Mark>, mark: Mark) -> bool
    ensures { result ≡ terms.may_follow last mark }
{
    match last {
        None => true,
        Some(last) => last.front < mark.front && last.moment <= mark.moment,
    }
}

/// The mark that a line says of the buffer of this name.
fn mark_of(name: &[u8], line: &[u8]) -> Option<Mark>
    ensures { result ≡ mark_said name.now line.now }
{
    let (first, rest) = first_word(line, Between::Spaces)?;
    if is(first, name) { mark_in(rest) } else { None }
}

/// The mark that two words are, where a text is just two.
fn mark_in(text: &[u8]) -> Option<Mark>
    ensures { result ≡ terms.mark_in (words Spaces text.now) }
{
    let (front, rest) = first_word(text, Between::Spaces)?;
    let (moment, rest) = first_word(rest, Between::Spaces)?;
    match first_word(rest, Between::Spaces) {
        None => mark_by(front, moment),
        Some(_) => None,
    }
}

/// The mark of these two words.
fn mark_by(front: &[u8], moment: &[u8]) -> Option<Mark>
    ensures { result ≡ terms.mark_by front.now moment.now }
{
    let front = number_within(0, u64::MAX, front)?;
    let moment = number_within(0, u64::MAX, moment)?;
    Some(Mark { front, moment })
}
