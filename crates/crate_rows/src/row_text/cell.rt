//! The octets that a cell stands for.

use crate::row_text::lists::add;
use crate::row_text::sheet::Sheet;
use line_words::{cut, number_within};
use std::mem;

/// The most times that octets may stand for themselves.
const MOST_TIMES: u64 = 1 << 20;

/// A cell that is read, part by part: a backslash stands between each two.
#[derive(Drop)]
struct Cell {
    octets: Vec<u8>,
    /// Whether the next part stands for itself: the first one does, and one behind two backslashes.
    is_plain: bool,
    /// How many times the octets that come stand for themselves, where an end of them is to come.
    times: Option<u64>,
    /// Those of them that came.
    repeated: Vec<u8>,
}

/// The octets that a cell of a row stands for; where an escape is bad, the row has no answer.
/// Octets that stand for themselves many times are not nested.
pub(crate) fn octets_of(cell: &[u8], sheet: &Sheet) -> Vec<u8> {
    let mut read = Cell {
        octets: Vec::new(sheet.alloc),
        is_plain: true,
        times: None,
        repeated: Vec::new(sheet.alloc),
    };
    let mut unread = Some(cell);
    while let Some(rest) = unread {
        let (part, after) = cut(rest, b'\\');
        read.take(part, sheet);
        unread = after;
    }
    if read.is_plain || read.times.is_some() {
        sheet.refuse();
    }
    read.octets
}

impl Cell {
    /// Takes the next part.
    fn take(&mut self, part: &[u8], sheet: &Sheet) {
        let behind = if mem::replace(&mut self.is_plain, false) {
            part
        } else {
            self.behind_escape(part, sheet)
        };
        self.put(behind, sheet);
    }

    /// What stands behind the escape that a part begins with, once that is taken.
    fn behind_escape<'a>(&mut self, part: &'a [u8], sheet: &Sheet) -> &'a [u8] {
        let Some((letter, behind)) = part.split_first() else {
            self.is_plain = true;
            return b"\\";
        };
        match *letter {
            b'(' => return self.begin_repeated(behind, sheet),
            b'x' => return self.take_digits(behind, sheet),
            b')' => self.end_repeated(sheet),
            other => self.put(meant_by(other, sheet), sheet),
        }
        behind
    }

    /// What stands behind two hexadecimal digits, once their octet is taken.
    fn take_digits<'a>(&mut self, part: &'a [u8], sheet: &Sheet) -> &'a [u8] {
        let [high, low, behind @ ..] = part else {
            sheet.refuse();
            return part;
        };
        match (digit(*high), digit(*low)) {
            (Some(high), Some(low)) => self.put(&[high << 4 | low], sheet),
            _ => sheet.refuse(),
        }
        behind
    }

    /// These octets follow.
    fn put(&mut self, octets: &[u8], sheet: &Sheet) {
        let whole = match self.times {
            Some(_) => &mut self.repeated,
            None => &mut self.octets,
        };
        add(whole, octets, sheet);
    }

    /// What stands behind the number and the colon of octets that stand for themselves many times.
    fn begin_repeated<'a>(&mut self, part: &'a [u8], sheet: &Sheet) -> &'a [u8] {
        let (number, behind) = cut(part, b':');
        let times = number_within(0, MOST_TIMES, number);
        if self.times.is_some() || times.is_none() || behind.is_none() {
            sheet.refuse();
        }
        self.times = times;
        behind.unwrap_or(b"")
    }

    /// The octets that stand for themselves many times are whole.
    fn end_repeated(&mut self, sheet: &Sheet) {
        let Some(times) = self.times.take() else {
            return sheet.refuse();
        };
        for _time in 0..times {
            add(&mut self.octets, &self.repeated, sheet);
        }
        self.repeated.clear();
    }
}

/// What a letter behind a backslash stands for.
fn meant_by(letter: u8, sheet: &Sheet) -> &'static [u8] {
    match letter {
        b's' => b" ",
        b't' => b"\t",
        b'r' => b"\r",
        b'n' => b"\n",
        b'e' => b"",
        _ => {
            sheet.refuse();
            b""
        }
    }
}

/// The value of a hexadecimal digit.
fn digit(octet: u8) -> Option<u8> {
    match octet {
        b'0'..=b'9' => Some(octet - b'0'),
        b'a'..=b'f' => Some(octet - b'a' + 10),
        b'A'..=b'F' => Some(octet - b'A' + 10),
        _ => None,
    }
}
