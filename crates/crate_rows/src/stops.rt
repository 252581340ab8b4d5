//! Rows for what a clean stop or a crash leaves, and what a start or a recovery makes of it:
//! buffers over blocks in memory, and texts of histories (cyc_buffer, id_history).

mod articles;
mod bench;
mod calls;
mod histories;
mod losses;
mod octets;
mod steps;

use bench::Bench;
use cyc_block::BLOCK_OCTETS;
use histories::Texts;
pub(crate) use histories::put_kept;
use std::alloc::Global;

/// The buffer and the text of a history that the rows so far have left.
#[derive(Drop)]
pub struct Stops {
    bench: Bench,
    texts: Texts,
    /// What the blocks held when the device was last safe.
    safe: Vec<[u8; BLOCK_OCTETS]>,
}

impl Stops {
    /// No row yet.
    pub fn new(alloc: Global) -> Stops {
        Stops {
            bench: Bench::Nothing,
            texts: Texts::new(alloc),
            safe: Vec::new(alloc),
        }
    }
}
