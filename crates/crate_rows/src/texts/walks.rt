//! Walks over a text.

use crate::row_text::{Sheet, add_octets};
use crate::runs::{Change, Runs, changed};
use crate::stops::put_kept;
use crate::texts::articles::{put_front_line, put_reading};
use crate::texts::streams::put_cuts;
use id_history::Setting;
use nntp_text::Command;
use uwild::Expr;

/// What is looked at in a walk.
#[derive(Clone, Copy)]
pub enum Look<'a> {
    /// What the text of a history gives under this setting.
    History(&'a Setting),
    /// What a command line gives.
    Command,
    /// The fault of a text, `None` where it is an expression.
    Expression,
    /// The overview line of a text.
    Overview,
    /// What an article gives.
    Article,
    /// What is cut off this stream in two pieces, of which the text is the first, with a limit, by
    /// what is wanted.
    Pieces(&'a [u8], usize, &'a [u8]),
}

/// Writes what a text gives with this change at each of so many places in turn: behind the places
/// that have it where the text is of a history, else behind their number.
pub fn walk(look: Look<'_>, octets: &[u8], change: Change, places: usize, sheet: &Sheet) {
    let are_counted = !matches!(look, Look::History(_));
    let mut runs = Runs::new(sheet.alloc, are_counted, 0);
    for place in 0..places {
        let text = changed(octets, place, change, sheet);
        let said = Sheet::new(sheet.alloc);
        put_look(look, &text, &said);
        runs.add(said.onto(sheet), sheet);
    }
    runs.end(sheet);
}

/// Writes what a text gives.
pub fn put_look(look: Look<'_>, octets: &[u8], sheet: &Sheet) {
    match look {
        Look::History(setting) => put_kept(octets, setting, sheet),
        Look::Command => sheet.debug(&Command::parse(sheet.alloc, octets)),
        Look::Expression => sheet.debug(&Expr::parse(sheet.alloc, octets).err()),
        Look::Overview => put_front_line(octets, sheet),
        Look::Article => put_reading(octets, sheet),
        Look::Pieces(stream, limit, wants) => put_in_two(octets, stream, limit, wants, sheet),
    }
}

/// Writes what is cut off a stream in two pieces, of which this is the first.
fn put_in_two(first: &[u8], stream: &[u8], limit: usize, wants: &[u8], sheet: &Sheet) {
    let mut pieces = Vec::new(sheet.alloc);
    add_octets(&mut pieces, first, sheet);
    add_octets(&mut pieces, stream.get(first.len()..).unwrap_or(b""), sheet);
    put_cuts(limit, wants, &pieces, sheet);
}
