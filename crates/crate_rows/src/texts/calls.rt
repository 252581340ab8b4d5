//! The calls and their names.

use crate::row_text::{Cells, Sheet, joined, place_of};
use crate::texts::articles::of_text;
use crate::texts::lines::{of_line, of_two};
use crate::texts::streams::of_pieces;

/// The names of the calls, each of which is answered by its place: up to `stamp` those of one cell,
/// up to `judge` of two, up to `cut_in_two` of the pieces of a stream; the others are of the parts
/// of a text, from `field` on behind a cell, from `arrived` on behind two.
const NAMES: &str = "message_id command command_cuts expression_cuts expression_fault stuff \
    unfolded is_blank identities seconds stamp command_changes loops judge cut_all cut_in \
    cut_in_two octets article_fault article_cuts overview_cuts article groups overview field \
    article_changes arrived judge_date put_overview";

/// Writes the answer of a call.
pub fn answer(name: &[u8], cells: &Cells, sheet: &Sheet) {
    let Some(call) = place_of(NAMES, name) else {
        return sheet.refuse();
    };
    match call {
        14..=16 => of_pieces(call, cells, sheet),
        _ => answer_of_text(call, cells, sheet),
    }
}

/// Writes the answer of a call of one cell, of two, or of the parts of a text.
fn answer_of_text(call: usize, cells: &Cells, sheet: &Sheet) {
    let first = match call {
        0..=13 | 24.. => cells.next(),
        _ => b"",
    };
    let second = match call {
        11..=13 | 26.. => cells.next(),
        _ => b"",
    };
    match call {
        0..=10 => of_line(call, first, sheet),
        11..=13 => of_two(call, first, second, sheet),
        _ => {
            let octets = joined(cells.rest(), sheet);
            of_text(call, first, second, &octets, sheet);
        }
    }
}
