//! The calls of `nntp_text` and `uwild`, and those of the other crates that take one content.

use crate::row_text::Sheet;
use crate::runs::Change;
use crate::texts::articles::put_identities;
use crate::texts::walks::{Look, put_look, walk};
use article_parse::{is_blank, unfolded};
use date_rules::{seconds, stamp};
use id_history::LAST_MOMENT;
use nntp_text::MsgId;
use path_rules::loops;
use std::alloc::AllocError;
use stream_cut::stuff;
use uwild::Expr;

/// Writes the answer of a call of one cell.
pub fn of_line(call: usize, line: &[u8], sheet: &Sheet) {
    match call {
        0 => sheet.debug(&MsgId::parse(sheet.alloc, line)),
        1 => put_look(Look::Command, line, sheet),
        2 => walk(Look::Command, line, Change::Cut, line.len(), sheet),
        3 => walk(Look::Expression, line, Change::Cut, line.len(), sheet),
        4 => put_look(Look::Expression, line, sheet),
        5 => put_made(stuff(sheet.alloc, line), sheet),
        6 => put_made(unfolded(sheet.alloc, line), sheet),
        7 => sheet.debug(&is_blank(line)),
        8 => put_identities(line, sheet),
        9 => put_seconds(line, sheet),
        _ => put_stamp(line, sheet),
    }
}

/// Writes a text that was made.
pub fn put_made(made: Result<Vec<u8>, AllocError>, sheet: &Sheet) {
    match made {
        Ok(octets) => sheet.cell(&octets),
        Err(_) => sheet.lack(),
    }
}

/// Writes the second that a content reads as.
fn put_seconds(content: &[u8], sheet: &Sheet) {
    match seconds(sheet.alloc, content) {
        Ok(second) => sheet.debug(&second),
        Err(_) => sheet.lack(),
    }
}

/// Writes the stamp of a moment.
fn put_stamp(moment: &[u8], sheet: &Sheet) {
    let now = sheet.read(moment);
    if now > LAST_MOMENT {
        return sheet.refuse();
    }
    sheet.cell(&stamp(now));
}

/// Writes the answer of a call of two cells.
pub fn of_two(call: usize, first: &[u8], second: &[u8], sheet: &Sheet) {
    match call {
        11 => walk(Look::Command, second, put_first(first), second.len(), sheet),
        12 => sheet.debug(&loops(second, first)),
        _ => put_verdict(first, second, sheet),
    }
}

/// Writes what an expression says of a name, or the fault of a text that is none.
fn put_verdict(expression: &[u8], name: &[u8], sheet: &Sheet) {
    match Expr::parse(sheet.alloc, expression) {
        Ok(expression) => sheet.debug(&expression.judge(name)),
        Err(error) => sheet.debug(&error),
    }
}

/// That the first of these octets stands in the place of another.
pub fn put_first(octets: &[u8]) -> Change {
    Change::Put(octets.first().copied().unwrap_or(0))
}

/// Writes octets, or that there are none.
pub fn put_some(octets: Option<&[u8]>, sheet: &Sheet) {
    match octets {
        Some(octets) => sheet.cell(octets),
        None => sheet.put(b"None"),
    }
}
