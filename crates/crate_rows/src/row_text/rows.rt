//! Playing the rows of a text.

use crate::row_text::cell::octets_of;
use crate::row_text::cells::Cells;
use crate::row_text::lists::add_octets;
use crate::row_text::names::Names;
use crate::row_text::sheet::Sheet;
use line_words::{cut, is_skipped};
use std::io;
use std::io::{ErrorKind, Write};
use std::process::ExitCode;

/// The status where memory ran out.
const MEMORY: u8 = 5;

/// What answers the calls of rows.
pub(crate) trait Answers {
    /// Writes the answer of a row with this call, in whose cells the texts stand that have a name.
    /// It has none where the call is not known.
    fn answer(&mut self, call: &[u8], cells: &Cells, names: &mut Names, sheet: &Sheet);
}

/// Prints the lines of a text with an answer behind each row. A line that is empty or begins with
/// `#` is printed as it is; any other line is a row, cut into words at single spaces: a call and
/// its cells. A row is printed with ` = ` and its answer behind it, which is `?` where the call is
/// not known, an escape is bad, or it takes other cells. Where memory runs out that is the error,
/// once all before it is printed.
pub(crate) fn play<A: Answers>(rt: &HostRuntime, text: &[u8], answers: &mut A) -> io::Result<()> {
    let printed = Sheet::new(rt.alloc());
    put_all(answers, text, &printed);
    let is_spoilt = printed.is_spoilt();
    io::writer(rt).write_all(&printed.into_octets())?;
    if is_spoilt {
        return Err(io::Error::from(ErrorKind::OutOfMemory));
    }
    Ok(())
}

/// Says `memory`, or that it was not read or not written, and answers the status.
pub(crate) fn failed(rt: &HostRuntime, error: &io::Error) -> ExitCode {
    let (said, status) = match error.kind() {
        ErrorKind::OutOfMemory => ("memory", ExitCode::from(MEMORY)),
        _ => ("not read or not written", ExitCode::FAILURE),
    };
    let _unseen = eprintln!(rt; "{said}");
    status
}

/// Writes lines with their answers.
fn put_all<A: Answers>(answers: &mut A, lines: &[u8], sheet: &Sheet) {
    let mut names = Names::new(sheet.alloc);
    let mut unread = Some(lines);
    while let Some(rest) = unread {
        let (line, after) = cut(rest, b'\n');
        sheet.put(line);
        if !is_skipped(line) {
            put_answer(answers, line, &mut names, sheet);
        }
        if after.is_some() {
            sheet.put(b"\n");
        }
        unread = after;
    }
}

/// Writes the answer of a row.
fn put_answer<A: Answers>(answers: &mut A, line: &[u8], names: &mut Names, sheet: &Sheet) {
    let (call, rest) = cut(line, b' ');
    let said = Sheet::new(sheet.alloc);
    let cells = Cells::new(cells_of(rest, names, &said));
    put_said(answers, call, &cells, names, &said);
    said.end(sheet);
}

/// Writes what a row is answered. It has no answer where not all its cells were read, or more.
fn put_said<A: Answers>(
    answers: &mut A,
    call: &[u8],
    cells: &Cells,
    names: &mut Names,
    sheet: &Sheet,
) {
    if !sheet.is_spoilt() {
        answers.answer(call, cells, names, sheet);
    }
    if !cells.are_read() {
        sheet.refuse();
    }
}

/// The octets of the cells that follow a call, and of a name its text.
fn cells_of(rest: Option<&[u8]>, names: &Names, sheet: &Sheet) -> Vec<Vec<u8>> {
    let mut cells = Vec::new(sheet.alloc);
    let mut unread = rest;
    while let Some(rest) = unread {
        let (word, after) = cut(rest, b' ');
        let octets = octets_of(word, sheet);
        add_octets(&mut cells, names.meaning(&octets), sheet);
        unread = after;
    }
    cells
}
