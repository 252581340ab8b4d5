//! The calls of `stream_cut`.

use crate::row_text::{Cells, Sheet, add_octets};
use crate::runs::Change;
use crate::texts::walks::{Look, walk};
use stream_cut::{Block, Cut, Want, cut_all};

/// Writes the answer of a call of pieces, which come behind a limit and what is wanted: what is cut
/// off them, off a stream in pieces of a size that stands in front, or off one of two pieces.
pub fn of_pieces(call: usize, cells: &Cells, sheet: &Sheet) {
    let size = match call {
        15 => sheet.read(cells.next()) as usize,
        _ => 0,
    };
    let limit = sheet.read(cells.next()) as usize;
    let wants = cells.next();
    if call == 14 {
        return put_cuts(limit, wants, cells.rest(), sheet);
    }
    let stream = cells.next();
    if call == 15 {
        return put_cuts(limit, wants, &pieces_of(size, stream, sheet), sheet);
    }
    let look = Look::Pieces(stream, limit, wants);
    let fronts = stream.len().saturating_add(1);
    walk(look, stream, Change::Cut, fronts, sheet);
}

/// Writes what is cut off these pieces, between square brackets.
pub fn put_cuts(limit: usize, wants: &[u8], pieces: &[Vec<u8>], sheet: &Sheet) {
    let wants = wants_of(wants, sheet);
    match cut_all(sheet.alloc, limit, pieces, &wants) {
        Ok(cuts) => {
            sheet.put(b"[ ");
            for cut in &cuts {
                put_cut(cut, sheet);
            }
            sheet.put(b"]");
            drop(cuts);
        }
        Err(_) => sheet.lack(),
    }
}

/// What is wanted: a block by a `B`, a line by any other octet.
fn wants_of(letters: &[u8], sheet: &Sheet) -> Vec<Want> {
    let mut wants = Vec::new(sheet.alloc);
    for letter in letters {
        let want = if *letter == b'B' {
            Want::Block
        } else {
            Want::Line
        };
        if wants.push(want).is_err() {
            sheet.lack();
        }
    }
    wants
}

/// Writes what was cut, and a space.
fn put_cut(cut: &Cut, sheet: &Sheet) {
    match cut {
        Cut::Line(line) => put_in(b"Line", line, sheet),
        Cut::Block(Block::Whole(octets)) => put_in(b"Whole", octets, sheet),
        Cut::Block(Block::Oversize) => sheet.put(b"Oversize "),
        Cut::TooLong => sheet.put(b"TooLong "),
    }
}

/// Writes octets between round brackets, behind a word, and a space.
fn put_in(word: &[u8], octets: &[u8], sheet: &Sheet) {
    sheet.put(word);
    sheet.put(b"(");
    sheet.cell(octets);
    sheet.put(b") ");
}

/// The pieces of this size of a stream.
fn pieces_of(size: usize, stream: &[u8], sheet: &Sheet) -> Vec<Vec<u8>> {
    let mut pieces = Vec::new(sheet.alloc);
    for piece in stream.chunks(size.max(1)) {
        add_octets(&mut pieces, piece, sheet);
    }
    pieces
}
