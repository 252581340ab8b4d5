//! A device in memory, and the buffer that runs over it, where one does.

use crate::row_text::{Cells, Sheet};
use crate::runs::{number, octet};
use cyc_block::{FailAt, MemoryBlocks};
use cyc_buffer::{Buffer, FormatError, Unopened};
use std::mem;

/// Blocks in memory, a call of which can fail.
pub type Store = FailAt<MemoryBlocks>;

/// What the rows so far have left.
#[derive(Drop)]
pub enum Bench {
    /// There is no device yet.
    Nothing,
    /// A buffer was started on the device, and its head isn't open.
    Unopened(Unopened<Store>),
    /// A buffer runs over the device.
    Running(Buffer<Store>),
    /// No buffer runs over the device.
    Stopped(Store),
}

impl Bench {
    /// From here this is what the rows have left.
    pub(crate) fn set(&mut self, bench: Bench) {
        drop(mem::replace(self, bench));
    }

    /// Makes a device of so many blocks of zeros.
    pub fn make(&mut self, cells: &Cells, sheet: &Sheet) {
        if let Some(device) = zeros(number(cells, sheet), sheet) {
            sheet.put(b"made");
            self.set(Bench::Stopped(device));
        }
    }

    /// Makes a buffer of the number and at the cycle that the cells say, over a device of so many
    /// blocks, of which a call fails where one is named.
    pub fn format(&mut self, cells: &Cells, sheet: &Sheet) {
        let blocks = number(cells, sheet);
        let buffer = octet(cells, sheet);
        let cycle = number(cells, sheet);
        let failing = if cells.has_more() {
            sheet.read(cells.next())
        } else {
            0
        };
        if let Some(device) = zeros(blocks, sheet) {
            self.set(formatted(device, failing, buffer, cycle, sheet));
        }
    }

    /// The call of the device of this number fails; with 0 none does.
    pub fn fail(&mut self, cells: &Cells, sheet: &Sheet) {
        self.arm(sheet.read(cells.next()));
        sheet.put(b"armed");
    }

    /// From here the call of the device of this number fails; but for a buffer whose head isn't
    /// open.
    pub(crate) fn arm(&mut self, number: u64) {
        match self {
            Bench::Nothing | Bench::Unopened(_) => {}
            Bench::Running(buffer) => buffer.arm(number),
            Bench::Stopped(device) => device.arm(number),
        }
    }
}

/// A device of so many blocks of zeros.
fn zeros(blocks: u32, sheet: &Sheet) -> Option<Store> {
    match MemoryBlocks::new(sheet.alloc, blocks) {
        Ok(blocks) => Some(FailAt::new(blocks, 0)),
        Err(_) => {
            sheet.lack();
            None
        }
    }
}

/// A buffer of this number at this cycle, over a device of which this call fails.
fn formatted(mut device: Store, failing: u64, number: u8, cycle: u32, sheet: &Sheet) -> Bench {
    device.arm(failing);
    match Buffer::format(sheet.alloc, device, number, cycle) {
        Ok(buffer) => {
            sheet.put(b"formatted");
            Bench::Running(buffer)
        }
        Err(refused) => {
            match refused.error {
                FormatError::Memory => sheet.lack(),
                FormatError::Device => sheet.put(b"Device"),
            }
            Bench::Stopped(refused.store)
        }
    }
}
