//! The calls and their names.

use crate::row_text::{Cells, Sheet, place_of};
use crate::runs::{Change, octet};
use crate::stops::Stops;
use crate::stops::articles::End;
use crate::stops::bench::Bench;
use crate::stops::histories::Texts;

/// The names of the calls, in the order of `answer`, but for those of a step.
const NAMES: &str = "format zeros fail each store abandon unfinished read numbers octets put \
    changes cuts setting text history text_changes text_cuts safe losses";

impl Stops {
    /// Writes the answer of a call.
    pub(crate) fn answer(&mut self, call: &[u8], cells: &Cells, sheet: &Sheet) {
        match place_of(NAMES, call) {
            None => self.bench.put_step(call, cells, sheet),
            Some(place @ 0..=8) => self.bench.answer(place, cells, sheet),
            Some(place @ 9..=12) => self.bench.answer_of_block(place, cells, sheet),
            Some(place @ 13..=17) => self.texts.answer(place, cells, sheet),
            Some(18) => self.keep_safe(sheet),
            Some(_) => self.put_losses(cells, sheet),
        }
    }
}

impl Bench {
    /// Writes the answer of the call of a device or an article whose name has this place.
    fn answer(&mut self, place: usize, cells: &Cells, sheet: &Sheet) {
        match place {
            0 => self.format(cells, sheet),
            1 => self.make(cells, sheet),
            2 => self.fail(cells, sheet),
            3 => self.put_each(cells, sheet),
            4 => self.store(End::Finished, cells, sheet),
            5 => self.store(End::Abandoned, cells, sheet),
            6 => self.store(End::Unfinished, cells, sheet),
            7 => self.read(cells, sheet),
            _ => self.put_numbers(sheet),
        }
    }
}

impl Texts {
    /// Writes the answer of the call of a text whose name has this place.
    fn answer(&mut self, place: usize, cells: &Cells, sheet: &Sheet) {
        match place {
            13 => self.set(cells, sheet),
            14 => self.name(cells, sheet),
            15 => self.put_history(sheet),
            16 => self.walk(Change::Turn(octet(cells, sheet)), sheet),
            _ => self.walk(Change::Cut, sheet),
        }
    }
}
