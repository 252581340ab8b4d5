//! Lines that wait, behind their lock.
use crate::waiting::Lines;
use std::alloc::{AllocError, Global};
use std::sync::{Mutex, Wait};

/// Lines that were put and aren't taken yet. Whoever puts one holds no other lock meanwhile, and
/// waits for nothing but the copies of others' lines.
#[derive(Drop)]
pub struct PendingLines {
    lines: Mutex<Lines>,
}

impl PendingLines {
    /// None, with room for so many octets (`Lines::new`).
    pub fn new(alloc: Global, octets: usize) -> Result<PendingLines, AllocError> {
        Ok(PendingLines {
            lines: Mutex::new(Lines::new(alloc, octets)?),
        })
    }

    /// Puts a line behind the others, whole, where there is room for it; else it is lost, and
    /// counted (`Lines::put`).
    pub fn put<R: Wait>(&self, rt: &R, line: &[u8]) {
        self.lines.lock(rt).put(line);
    }

    /// A line for which there was no memory is lost, and counted (`Lines::lose`).
    pub fn lose<R: Wait>(&self, rt: &R) {
        self.lines.lock(rt).lose();
    }

    /// What was put since the last call, in the order in which it was put, and how many lines were
    /// lost. The spare lines, which are let go, are what is put behind from then on.
    pub fn take<R: Wait>(&self, rt: &R, spare: Lines) -> Lines {
        self.lines.lock(rt).take(spare)
    }
}
