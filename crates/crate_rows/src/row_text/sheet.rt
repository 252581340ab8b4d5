//! The sheet that the answer of a row is written on.
ghost use Rattle.std.specs.Prelude.{◌≤◌};

use itoa::Buffer;
use line_words::{cut, number_within};
use std::alloc::Global;
use std::cell::Cell;
use std::fmt;
use std::fmt::{Debug, Write};

/// The hexadecimal digits.
const DIGITS: [u8; 16] = *b"0123456789ABCDEF";

/// What is written as the answer of a row. No call of it has a result: want of memory, and that the
/// row has no answer, are noted, and told at the end. So what answers a row writes line after line,
/// and nothing has to be looked at in between. It is written behind a shared reference.
pub(crate) struct Sheet {
    /// Where the memory comes from.
    pub(crate) alloc: Global,
    octets: Cell<Vec<u8>>,
    lacks: Cell<bool>,
    refused: Cell<bool>,
}

// Written out, so that no crate above proves anew how each part is let go.
impl Drop for Sheet {
    fn drop(self) {
        let Sheet {
            alloc: _,
            octets: _,
            lacks: _,
            refused: _,
        } = self;
    }
}

impl Sheet {
    /// Nothing is written.
    pub(crate) fn new(alloc: Global) -> Sheet {
        Sheet {
            alloc,
            octets: Cell::new(Vec::new(alloc)),
            lacks: Cell::new(false),
            refused: Cell::new(false),
        }
    }

    /// Writes octets as they are; nothing more once memory ran out, so that what is written is a
    /// front of what was to be written.
    pub(crate) fn put(&self, octets: &[u8]) {
        if self.lacks.get() {
            return;
        }
        let mut written = self.octets.replace(Vec::new(self.alloc));
        if written.extend_from_slice(octets).is_err() {
            self.lacks.set(true);
        }
        self.octets.set(written);
    }

    /// Writes octets as a cell: those from 0x21 to 0x7E as they are but the backslash, the others
    /// by escapes, and `\e` where there are none.
    pub(crate) fn cell(&self, octets: &[u8]) {
        if octets.is_empty() {
            self.put(b"\\e");
        }
        for octet in octets {
            self.octet(*octet);
        }
    }

    /// Writes one octet of a cell.
    fn octet(&self, octet: u8) {
        let letter = match octet {
            b' ' => b's',
            b'\t' => b't',
            b'\r' => b'r',
            b'\n' => b'n',
            b'\\' => b'\\',
            0x21..=0x7E => return self.put(&[octet]),
            _ => {
                let high = DIGITS[usize::from(octet >> 4)];
                let low = DIGITS[usize::from(octet & 15)];
                return self.put(&[b'\\', b'x', high, low]);
            }
        };
        self.put(&[b'\\', letter]);
    }

    /// Writes octets as a cell behind a space.
    pub(crate) fn next(&self, octets: &[u8]) {
        self.put(b" ");
        self.cell(octets);
    }

    /// Writes a number by its decimal digits.
    pub(crate) fn number(&self, number: u64) {
        let mut digits = Buffer::new();
        self.put(digits.format(number).as_bytes());
    }

    /// Writes a number behind a text.
    pub(crate) fn numbered(&self, before: &[u8], number: u64) {
        self.put(before);
        self.number(number);
    }

    /// Writes a text with these numbers in the places of its `#`.
    pub(crate) fn filled(&self, text: &[u8], numbers: &[u64]) {
        let mut rest = text;
        for number in numbers {
            let (before, behind) = cut(rest, b'#');
            self.numbered(before, *number);
            rest = behind.unwrap_or(b"");
        }
        self.put(rest);
    }

    /// Writes a value as its `Debug` does.
    pub(crate) fn debug<T: Debug>(&self, value: &T) {
        let mut out = self;
        if write!(out, "{value:?}").is_err() {
            self.lacks.set(true);
        }
    }

    /// The number that a cell writes; where it writes none, the row has no answer.
    pub(crate) fn read(&self, cell: &[u8]) -> u64 {
        self.read_up_to(u64::MAX, cell)
    }

    /// The number up to the most that a cell writes; where it writes none, the row has no answer.
    pub(crate) fn read_up_to(&self, most: u64, cell: &[u8]) -> u64
        ensures { result ≤ most }
    {
        match number_within(0, most, cell) {
            Some(number) => number,
            None => {
                self.refused.set(true);
                0
            }
        }
    }

    /// The row has no answer.
    pub(crate) fn refuse(&self) {
        self.refused.set(true);
    }

    /// Memory ran out.
    pub(crate) fn lack(&self) {
        self.lacks.set(true);
    }

    /// Whether the row has no answer, or memory ran out.
    pub(crate) fn is_spoilt(&self) -> bool {
        self.refused.get() || self.lacks.get()
    }

    /// Whether nothing is written.
    pub(crate) fn is_empty(&self) -> bool {
        let octets = self.octets.replace(Vec::new(self.alloc));
        let is_empty = octets.is_empty();
        self.octets.set(octets);
        is_empty
    }

    /// What is written.
    pub(crate) fn into_octets(self) -> Vec<u8> {
        let Sheet {
            alloc: _,
            octets,
            lacks: _,
            refused: _,
        } = self;
        octets.into_inner()
    }

    /// What is written, for another sheet, where the same is noted as here.
    pub(crate) fn onto(self, other: &Sheet) -> Vec<u8> {
        let Sheet {
            alloc: _,
            octets,
            lacks,
            refused,
        } = self;
        if lacks.get() {
            other.lack();
        }
        if refused.get() {
            other.refuse();
        }
        octets.into_inner()
    }

    /// Writes the answer on another sheet behind ` = `, `?` where the row has none; that memory ran
    /// out is noted there too.
    pub(crate) fn end(self, other: &Sheet) {
        if self.lacks.get() {
            other.lack();
        }
        other.put(b" = ");
        let is_refused = self.refused.get();
        let octets = self.into_octets();
        other.put(if is_refused { b"?" } else { &octets });
    }
}

impl fmt::Write for &Sheet {
    fn write_str(&mut self, text: &str) -> fmt::Result {
        self.put(text.as_bytes());
        Ok(())
    }
}
