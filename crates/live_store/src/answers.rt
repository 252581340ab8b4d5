//! What the steps under a buffer's lock answer.
use crate::record::RecordNumber;
use crate::steps::{Conflict, Unfound};
use cyc_buffer::{Fault, Found, Front};

/// Why a block was not written, in the order of trial.
#[derive(Drop)]
pub enum WriteFault {
    /// The open write isn't the record's, or no further block of it can be written.
    Conflict(Conflict),
    /// The device failed.
    Device(Fault),
}

/// What a read of a block found.
#[derive(Drop)]
pub enum Reading {
    /// So many octets at the front of the slice are the chunk, of the record of this number.
    Chunk(usize, RecordNumber),
    /// The article was overwritten: this front has passed it.
    Gone(Front),
    /// Nothing was finished under the token, or it has no such chunk.
    Unknown(Unfound),
}

/// What reads of one article found.
#[derive(Drop)]
pub enum OneRead {
    /// So many octets at the front of the slice are the chunk, of the record of these reads.
    Chunk(usize),
    /// The article was overwritten: this front has passed it.
    Gone(Front),
    /// There is no such chunk.
    Unknown(Unfound),
}

impl OneRead {
    ghost use Rattle.std.specs.Prelude.{◌≡◌};
    ghost use Rattle.live_store.specs.Steps.{one_found};

    /// What was found, without the cause where that is nothing.
    pub fn into_found(self) -> Found
        ensures { result ≡ one_found self }
    {
        match self {
            OneRead::Chunk(octets) => Found::Chunk(octets),
            OneRead::Gone(front) => Found::Gone(front),
            OneRead::Unknown(_) => Found::Unknown,
        }
    }
}
