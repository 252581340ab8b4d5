//! The worked examples of single crates, each a row of standard input: a line is a call with its
//! cells, and is printed with its answer.
//!
//! The rows stand in the file `stdin` of this crate, and what they have to print in `stdout`, whose
//! answers are those of docs/ and of the contracts, never this program's own.
#![tactic(auto)]

mod blocks;
mod fetches;
mod jobs;
mod queues;
mod row_text;
mod runs;
mod stops;
mod texts;

use crate::row_text::{Answers, Cells, Names, Sheet, copy_of, failed, joined, place_of};
use line_words::is;
use std::io;
use std::io::Read;
use std::process::ExitCode;
use std::random::RandomSource;
use std::sync::Wait;
use stops::Stops;

fn main(rt: HostRuntime) -> ExitCode {
    match play(&rt, &rt) {
        Ok(()) => ExitCode::SUCCESS,
        Err(error) => failed(&rt, &error),
    }
}

/// Plays the rows of standard input, with what may wait for locks.
fn play<R: RandomSource + Wait>(rt: &HostRuntime, waits: &R) -> io::Result<()> {
    let mut text = Vec::new(rt.alloc());
    rt.reader().read_to_end(&mut text)?;
    let mut rows = Rows {
        waits,
        part: Part::Texts,
        stops: Stops::new(rt.alloc()),
    };
    let played = row_text::play(rt, &text, &mut rows);
    drop(rows);
    played
}

/// The names of the parts, in the order of `begin`.
const PARTS: &str = "texts blocks stops fetches queues";

/// Which crates a row is of.
#[derive(Clone, Copy)]
enum Part {
    Texts,
    Blocks,
    Stops,
    Fetches,
    Queues,
}

/// What may wait for locks, the part that the next row is of, and what stops have left.
#[derive(Drop)]
struct Rows<'a, R> {
    waits: &'a R,
    part: Part,
    stops: Stops,
}

impl<R: RandomSource + Wait> Answers for Rows<'_, R> {
    fn answer(&mut self, call: &[u8], cells: &Cells, names: &mut Names, sheet: &Sheet) {
        if is(call, b"part") {
            self.begin(cells, names, sheet);
        } else if is(call, b"text") && !matches!(self.part, Part::Stops) {
            name(cells, names, sheet);
        } else {
            self.put_told(call, cells, sheet);
        }
    }
}

impl<R: RandomSource + Wait> Rows<'_, R> {
    /// `part NAME`: the rows behind are of this part, and no text has a name.
    fn begin(&mut self, cells: &Cells, names: &mut Names, sheet: &Sheet) {
        self.part = match place_of(PARTS, cells.next()) {
            Some(0) => Part::Texts,
            Some(1) => Part::Blocks,
            Some(2) => Part::Stops,
            Some(3) => Part::Fetches,
            Some(_) => Part::Queues,
            None => return sheet.refuse(),
        };
        names.clear();
        sheet.put(b"begins");
    }

    /// Writes the answer of a call of the part. Of want of memory nothing is expected, so that no
    /// answer may stand in its place.
    fn put_told(&mut self, call: &[u8], cells: &Cells, sheet: &Sheet) {
        let said = Sheet::new(sheet.alloc);
        self.put(call, cells, &said);
        let octets = said.onto(sheet);
        if says_memory(&octets) {
            sheet.lack();
        }
        sheet.put(&octets);
    }

    /// Writes the answer of a call of the part.
    fn put(&mut self, call: &[u8], cells: &Cells, sheet: &Sheet) {
        match self.part {
            Part::Texts => texts::answer(call, cells, sheet),
            Part::Blocks => blocks::answer(call, cells, sheet),
            Part::Stops => self.stops.answer(call, cells, sheet),
            Part::Fetches => fetches::answer(self.waits, call, cells, sheet),
            Part::Queues => queues::answer(self.waits, call, sheet),
        }
    }
}

/// `text NAME PARTS..`: names a text, and writes how many octets it has.
fn name(cells: &Cells, names: &mut Names, sheet: &Sheet) {
    let name = copy_of(cells.next(), sheet);
    let octets = joined(cells.rest(), sheet);
    sheet.number(octets.len() as u64);
    names.name(name, octets, sheet);
}

/// Whether an answer has the fault `Memory`.
fn says_memory(text: &[u8]) -> bool {
    for word in text.windows(6) {
        if is(word, b"Memory") {
            return true;
        }
    }
    false
}
