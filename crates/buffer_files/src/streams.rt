//! The standard streams of the program.
use std::fs::{File, Files, OpenOptions};
use std::mem;
use std::os::fd::AsRawFd;

/// The number of the last standard stream.
const LAST_STREAM: i32 = 2;

/// Opens the empty device in the place of each standard stream that is closed, for good. Else the
/// next file that is opened would be one of them, and what is told would be written into it.
pub fn fill_streams<R: Files<File = File>>(rt: &R) {
    for _ in 0..=LAST_STREAM {
        let opened = OpenOptions::new()
            .read(true)
            .write(true)
            .open(rt, "/dev/null");
        let Ok(empty) = opened else {
            return;
        };
        if empty.as_raw_fd() > LAST_STREAM {
            return;
        }
        mem::forget(empty);
    }
}
