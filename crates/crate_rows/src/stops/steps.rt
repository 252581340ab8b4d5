//! The stops and starts of a buffer.

use crate::row_text::{Cells, Sheet, place_of};
use crate::runs::{Runs, number, octet};
use crate::stops::bench::{Bench, Store};
use cyc_buffer::{Buffer, Unopened};
use cyc_token::Token;
use std::mem;

/// A stop or a start.
#[derive(Clone, Copy)]
pub(crate) enum Step {
    /// The buffer is shut under the number of a stop.
    Shut(u64),
    /// The buffer is left as it is.
    Leave,
    /// The buffer of this number and first cycle is started.
    Start(u8, u32),
    /// The buffer of this number and first cycle, which was not stopped, is found again.
    Recover(u8, u32),
    /// The article that was found under a token is rejected.
    Reject(Token),
    /// The head of the buffer is opened.
    Open,
    /// The buffer is stopped under this number and started in place.
    Restart(u64),
}

/// More calls of a device than a step takes in which each of them fails in turn.
const MOST_CALLS: u64 = 64;

impl Bench {
    /// Writes what the step of this name answers.
    pub fn put_step(&mut self, name: &[u8], cells: &Cells, sheet: &Sheet) {
        if let Some(step) = step_of(name, cells, sheet) {
            self.take_step(step, sheet);
        }
    }

    /// Writes what the step that the cells name answers with each call of the device failing in
    /// turn, the last time none.
    pub fn put_each(&mut self, cells: &Cells, sheet: &Sheet) {
        let Some(step) = step_of(cells.next(), cells, sheet) else {
            return;
        };
        let mut runs = Runs::new(sheet.alloc, false, 1);
        for failing in 1..MOST_CALLS {
            let said = Sheet::new(sheet.alloc);
            self.arm(failing);
            self.take_step(step, &said);
            // An answer that is an error begins with a capital letter.
            let text = said.onto(sheet);
            let is_last = !matches!(text.first(), Some(b'A'..=b'Z'));
            runs.add(text, sheet);
            if is_last {
                break;
            }
        }
        runs.end(sheet);
        self.arm(0);
    }

    /// What a step answers. No buffer runs behind it.
    pub(crate) fn said_by(&mut self, step: Step, sheet: &Sheet) -> Vec<u8> {
        let said = Sheet::new(sheet.alloc);
        self.take_step(step, &said);
        let unread = Sheet::new(sheet.alloc);
        self.take_step(Step::Leave, &unread);
        said.onto(sheet)
    }

    /// Takes a step, and writes its answer.
    pub(crate) fn take_step(&mut self, step: Step, sheet: &Sheet) {
        let after = match mem::replace(self, Bench::Nothing) {
            Bench::Running(buffer) => stopped(buffer, step, sheet),
            Bench::Unopened(buffer) => opened(buffer, step, sheet),
            Bench::Stopped(device) => started(device, step, sheet),
            Bench::Nothing => {
                sheet.refuse();
                Bench::Nothing
            }
        };
        self.set(after);
    }
}

/// The step of this name and these cells; where they are no step's, the row has no answer.
fn step_of(name: &[u8], cells: &Cells, sheet: &Sheet) -> Option<Step> {
    let step = match place_of("shut restart start recover reject open leave", name) {
        Some(0) => Step::Shut(sheet.read(cells.next())),
        Some(1) => Step::Restart(sheet.read(cells.next())),
        Some(2) => start_in(cells, sheet),
        Some(3) => recovery_in(cells, sheet),
        Some(4) => return rejected_in(cells, sheet),
        Some(5) => Step::Open,
        Some(_) => Step::Leave,
        None => {
            sheet.refuse();
            return None;
        }
    };
    if cells.are_read() && !sheet.is_spoilt() {
        Some(step)
    } else {
        None
    }
}

/// The start that the next two cells name.
pub(crate) fn start_in(cells: &Cells, sheet: &Sheet) -> Step {
    let buffer = octet(cells, sheet);
    let cycle = number(cells, sheet);
    Step::Start(buffer, cycle)
}

/// The recovery that the next two cells name.
pub(crate) fn recovery_in(cells: &Cells, sheet: &Sheet) -> Step {
    let buffer = octet(cells, sheet);
    let cycle = number(cells, sheet);
    Step::Recover(buffer, cycle)
}

/// The rejection of the article under the token in the last cell.
fn rejected_in(cells: &Cells, sheet: &Sheet) -> Option<Step> {
    match Token::parse(cells.next()) {
        Ok(token) if cells.are_read() => Some(Step::Reject(token)),
        _ => {
            sheet.refuse();
            None
        }
    }
}

/// Takes a step of a buffer that runs.
fn stopped(buffer: Buffer<Store>, step: Step, sheet: &Sheet) -> Bench {
    match step {
        Step::Shut(stop) => shut(buffer, stop, sheet),
        Step::Restart(stop) => restarted(buffer, stop, sheet),
        Step::Leave => {
            sheet.put(b"left");
            Bench::Stopped(buffer.into_store())
        }
        _ => {
            sheet.refuse();
            Bench::Running(buffer)
        }
    }
}

/// Shuts a buffer under the number of a stop.
fn shut(buffer: Buffer<Store>, stop: u64, sheet: &Sheet) -> Bench {
    match buffer.shut(stop) {
        Ok(device) => {
            sheet.put(b"shut");
            Bench::Stopped(device)
        }
        Err(refused) => {
            sheet.debug(&refused.error);
            Bench::Running(refused.buffer)
        }
    }
}

/// Stops a buffer and starts it in place.
fn restarted(mut buffer: Buffer<Store>, stop: u64, sheet: &Sheet) -> Bench {
    match buffer.restart(sheet.alloc, stop) {
        Ok(tokens) => {
            sheet.put(b"restarted");
            put_tokens(&tokens, sheet);
        }
        Err(error) => sheet.debug(&error),
    }
    Bench::Running(buffer)
}

/// Takes a step of a buffer whose head isn't open.
fn opened(buffer: Unopened<Store>, step: Step, sheet: &Sheet) -> Bench {
    match step {
        Step::Leave => {
            sheet.put(b"left");
            let mut device = buffer.into_store();
            device.arm(0);
            Bench::Stopped(device)
        }
        Step::Open => open(buffer, sheet),
        Step::Shut(stop) => shut_unopened(buffer, stop, sheet),
        Step::Reject(token) => {
            let mut buffer = buffer;
            buffer.reject(&token);
            sheet.put(b"done");
            Bench::Unopened(buffer)
        }
        _ => {
            sheet.refuse();
            Bench::Unopened(buffer)
        }
    }
}

/// Shuts a buffer whose head isn't open under the number of a stop.
fn shut_unopened(buffer: Unopened<Store>, stop: u64, sheet: &Sheet) -> Bench {
    match buffer.shut(stop) {
        Ok(device) => {
            sheet.put(b"shut");
            Bench::Stopped(device)
        }
        Err(refused) => {
            sheet.debug(&refused.error);
            Bench::Unopened(refused.buffer)
        }
    }
}

/// Opens the head of a buffer.
fn open(buffer: Unopened<Store>, sheet: &Sheet) -> Bench {
    match buffer.open() {
        Ok(buffer) => {
            sheet.put(b"opened");
            Bench::Running(buffer)
        }
        Err(buffer) => {
            sheet.put(b"Device");
            Bench::Unopened(buffer)
        }
    }
}

/// Takes a step of a device on which no buffer runs.
fn started(device: Store, step: Step, sheet: &Sheet) -> Bench {
    let begun = match step {
        Step::Start(number, cycle) => Buffer::start(sheet.alloc, device, number, cycle),
        Step::Recover(number, cycle) => Buffer::recover(sheet.alloc, device, number, cycle),
        _ => {
            sheet.refuse();
            return Bench::Stopped(device);
        }
    };
    match begun {
        Ok(started) => {
            sheet.numbered(b"stop ", started.stop);
            put_tokens(&started.tokens, sheet);
            Bench::Unopened(started.buffer)
        }
        Err(refused) => {
            sheet.debug(&refused.error);
            Bench::Stopped(refused.store)
        }
    }
}

/// Writes tokens, each behind a space.
pub(crate) fn put_tokens(tokens: &[Token], sheet: &Sheet) {
    for token in tokens {
        sheet.next(&token.to_text());
    }
}
