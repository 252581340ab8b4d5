//! Texts that rows name, so that later rows need not write them again.

use crate::row_text::sheet::Sheet;
use line_words::is;
use std::alloc::Global;

/// The texts that were named so far.
#[derive(Drop)]
pub(crate) struct Names {
    list: Vec<Named>,
}

/// A text that was named.
#[derive(Drop)]
struct Named {
    name: Vec<u8>,
    octets: Vec<u8>,
}

impl Names {
    /// No text has a name.
    pub(crate) fn new(alloc: Global) -> Names {
        Names {
            list: Vec::new(alloc),
        }
    }

    /// No text has a name from here on.
    pub(crate) fn clear(&mut self) {
        self.list.clear();
    }

    /// Names a text.
    pub(crate) fn name(&mut self, name: Vec<u8>, octets: Vec<u8>, sheet: &Sheet) {
        if self.list.push(Named { name, octets }).is_err() {
            sheet.lack();
        }
    }

    /// The text that the cell names, or the cell itself.
    pub(crate) fn meaning<'a>(&'a self, cell: &'a [u8]) -> &'a [u8] {
        for named in &self.list {
            if is(&named.name, cell) {
                return &named.octets;
            }
        }
        cell
    }
}
