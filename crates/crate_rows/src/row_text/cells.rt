//! The cells of a row that is answered.
use std::cell::Cell;

/// The cells of a row, which are read one after another. How many were read is changed behind a
/// shared reference, so that a cell may be held while further ones are read.
#[derive(Drop)]
pub(crate) struct Cells {
    list: Vec<Vec<u8>>,
    /// How many were read, with those that were missing.
    read: Cell<usize>,
}

impl Cells {
    /// These cells, of which none is read.
    pub(crate) fn new(list: Vec<Vec<u8>>) -> Cells {
        Cells {
            list,
            read: Cell::new(0),
        }
    }

    /// The next cell; where there is none, it is empty, and the row has no answer.
    pub(crate) fn next(&self) -> &[u8] {
        let place = self.read.get();
        self.read.set(place.saturating_add(1));
        match self.list.get(place) {
            Some(cell) => cell,
            None => b"",
        }
    }

    /// The cells that are left, which are read by that.
    pub(crate) fn rest(&self) -> &[Vec<u8>] {
        let place = self.read.get();
        self.read.set(place.max(self.list.len()));
        self.list.get(place..).unwrap_or(&[])
    }

    /// Whether a cell is left.
    pub(crate) fn has_more(&self) -> bool {
        self.read.get() < self.list.len()
    }

    /// Whether all were read, and none was missing.
    pub(crate) fn are_read(&self) -> bool {
        self.read.get() == self.list.len()
    }
}
