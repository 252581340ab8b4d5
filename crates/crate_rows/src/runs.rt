//! Walks over a text, whose answers are written in runs.

use crate::row_text::{Cells, Sheet, copy_of};
use line_words::is;
use std::alloc::Global;

/// What is done to a text at a place.
#[derive(Clone, Copy)]
pub enum Change {
    /// It ends there.
    Cut,
    /// This octet stands there.
    Put(u8),
    /// The bits of a mask are turned in the octet there.
    Turn(u8),
}

/// A text with this change at a place.
pub fn changed(text: &[u8], place: usize, change: Change, sheet: &Sheet) -> Vec<u8> {
    let mut other = copy_of(text, sheet);
    if matches!(change, Change::Cut) {
        other.truncate(place);
    } else if let Some(octet) = other.get_mut(place) {
        *octet = turned(*octet, change);
    }
    other
}

/// An octet with this change.
fn turned(octet: u8, change: Change) -> u8 {
    match change {
        Change::Cut => 0,
        Change::Put(other) => other,
        Change::Turn(mask) => octet ^ mask,
    }
}

/// Answers of a walk: those that are equal one after another are written once, behind their number
/// and a star, or behind the first and the last place that have them.
#[derive(Drop)]
pub struct Runs {
    said: Vec<u8>,
    are_counted: bool,
    /// The first place that has what was said last, and the next one.
    first: u64,
    next: u64,
}

impl Runs {
    /// Nothing was said, of the places from the first one on.
    pub fn new(alloc: Global, are_counted: bool, first: u64) -> Runs {
        Runs {
            said: Vec::new(alloc),
            are_counted,
            first,
            next: first,
        }
    }

    /// Takes the answer at the next place; where it is another, what was said before is written.
    pub fn add(&mut self, said: Vec<u8>, sheet: &Sheet) {
        if !is(&self.said, &said) {
            self.end(sheet);
            self.said = said;
            self.first = self.next;
        }
        self.next = self.next.saturating_add(1);
    }

    /// Writes what was said last.
    pub fn end(&self, sheet: &Sheet) {
        let count = self.next.saturating_sub(self.first);
        if count == 0 {
            return;
        }
        if !sheet.is_empty() {
            sheet.put(if self.are_counted { b" " } else { b"; " });
        }
        if self.are_counted {
            sheet.filled(b"#*", &[count]);
        } else if count > 1 {
            sheet.filled(b"#-# ", &[self.first, self.next.saturating_sub(1)]);
        } else {
            sheet.filled(b"# ", &[self.first]);
        }
        sheet.put(&self.said);
    }
}

/// The number up to 2^32 - 1 that the next cell writes.
pub fn number(cells: &Cells, sheet: &Sheet) -> u32 {
    sheet.read_up_to(4_294_967_295, cells.next()) as u32
}

/// The number up to 255 that the next cell writes.
pub fn octet(cells: &Cells, sheet: &Sheet) -> u8 {
    sheet.read_up_to(255, cells.next()) as u8
}
