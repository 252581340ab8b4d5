//! The octets of a device on which no buffer runs.

use crate::blocks::{block_of, with_part, without_zeros};
use crate::row_text::{Cells, Sheet, place_of};
use crate::runs::{Change, Runs, changed, number, octet};
use crate::stops::bench::Bench;
use crate::stops::steps::{Step, start_in};
use cyc_block::{BLOCK_OCTETS, BlockStore, head_count};
use hex::FromHexError;
use std::alloc::AllocError;

/// A block of a device.
#[derive(Clone, Copy)]
pub(crate) enum Block {
    Head(u32),
    Data(u32),
}

impl Bench {
    /// Writes the answer of the call of this place, which is of the block that two cells name.
    pub(crate) fn answer_of_block(&mut self, place: usize, cells: &Cells, sheet: &Sheet) {
        let block = block_in(cells, sheet);
        match place {
            9 => self.put_octets(block, sheet),
            10 => self.change(block, cells, sheet),
            11 => self.walk(block, Change::Turn(octet(cells, sheet)), cells, sheet),
            _ => self.walk(block, Change::Cut, cells, sheet),
        }
    }

    /// Writes the octets of a block but for the zeros at its end.
    fn put_octets(&mut self, block: Block, sheet: &Sheet) {
        let octets = self.octets_of(block, sheet);
        put_hex(without_zeros(&octets), sheet);
    }

    /// Puts octets into a block from a place on.
    fn change(&mut self, block: Block, cells: &Cells, sheet: &Sheet) {
        let place = number(cells, sheet) as usize;
        let other = octets_by(cells.next(), sheet);
        let octets = self.octets_of(block, sheet);
        let changed = with_part(octets, place, &other, sheet);
        self.put_block(block, &changed, sheet);
        sheet.put(b"put");
    }

    /// Writes what a start answers with this change at each octet of a block in turn; it has zeros
    /// behind a cut. The block is then as it was.
    fn walk(&mut self, block: Block, change: Change, cells: &Cells, sheet: &Sheet) {
        let start = start_in(cells, sheet);
        let octets = self.octets_of(block, sheet);
        if sheet.is_spoilt() {
            return;
        }
        let mut runs = Runs::new(sheet.alloc, false, 0);
        for place in 0..BLOCK_OCTETS {
            let other = block_of(&changed(&octets, place, change, sheet), sheet);
            let said = self.said_of(block, &other, start, sheet);
            runs.add(said, sheet);
        }
        runs.end(sheet);
        self.put_block(block, &octets, sheet);
    }

    /// What a start answers where a block has these octets. No buffer runs then.
    fn said_of(
        &mut self,
        block: Block,
        octets: &[u8; BLOCK_OCTETS],
        start: Step,
        sheet: &Sheet,
    ) -> Vec<u8> {
        self.put_block(block, octets, sheet);
        self.said_by(start, sheet)
    }

    /// The octets of a block; where there is none, the row has no answer.
    pub(crate) fn octets_of(&mut self, block: Block, sheet: &Sheet) -> [u8; BLOCK_OCTETS] {
        let mut octets = [0; BLOCK_OCTETS];
        let Bench::Stopped(device) = self else {
            sheet.refuse();
            return octets;
        };
        let count = device.count();
        let is_read = match block {
            Block::Head(k) => k < head_count(count) && device.read_head(k, &mut octets).is_ok(),
            Block::Data(k) => k < count && device.read(k, &mut octets).is_ok(),
        };
        if !is_read {
            sheet.refuse();
        }
        octets
    }

    /// Puts octets into a block; where there is none, the row has no answer.
    pub(crate) fn put_block(&mut self, block: Block, octets: &[u8; BLOCK_OCTETS], sheet: &Sheet) {
        let Bench::Stopped(device) = self else {
            return sheet.refuse();
        };
        let count = device.count();
        let is_written = match block {
            Block::Head(k) => k < head_count(count) && device.write_head(k, octets).is_ok(),
            Block::Data(k) => k < count && device.write(k, octets).is_ok(),
        };
        if !is_written {
            sheet.refuse();
        }
    }
}

/// The block that the next two cells name.
fn block_in(cells: &Cells, sheet: &Sheet) -> Block {
    let kind = place_of("head block", cells.next());
    let block = number(cells, sheet);
    match kind {
        Some(0) => Block::Head(block),
        Some(_) => Block::Data(block),
        None => {
            sheet.refuse();
            Block::Data(block)
        }
    }
}

/// Writes the digits of octets, `zeros` where there are none.
fn put_hex(octets: &[u8], sheet: &Sheet) {
    if octets.is_empty() {
        return sheet.put(b"zeros");
    }
    match hex::encode_upper(sheet.alloc, octets) {
        Ok(digits) => sheet.put(digits.as_bytes()),
        Err(AllocError) => sheet.lack(),
    }
}

/// The octets that digits write; none where they write none.
pub(crate) fn octets_by(digits: &[u8], sheet: &Sheet) -> Vec<u8> {
    match hex::decode(sheet.alloc, digits) {
        Ok(octets) => return octets,
        Err(FromHexError::OutOfMemory) => sheet.lack(),
        Err(_) => sheet.refuse(),
    }
    Vec::new(sheet.alloc)
}
