ghost use Rattle.std.specs.Prelude.{◌≡◌};
ghost use Rattle.cyc_buffer.specs.declared.answers.StartError.TheVariants as StartError;

use std::alloc::AllocError;

/// A front of a buffer: what lies a whole buffer before it is gone. A buffer alone makes one, of
/// itself.
#[derive(Clone, Copy, Debug)]
pub struct Front {
    pub(crate) buffer: u8,
    pub(crate) blocks: u32,
    pub(crate) front: u64,
}

impl Front {
    /// The number of the buffer.
    pub fn buffer(&self) -> u8
        ensures { result ≡ self.now.buffer }
    {
        self.buffer
    }

    /// How many blocks the buffer has.
    pub fn blocks(&self) -> u32
        ensures { result ≡ self.now.blocks }
    {
        self.blocks
    }

    /// The front's place on the endless line of the buffer's blocks.
    pub fn front(&self) -> u64
        ensures { result ≡ self.now.front }
    {
        self.front
    }
}

/// What failed.
#[derive(Clone, Copy, Debug, PartialEq, Eq)]
pub enum FaultKind {
    /// A read of the device.
    Read,
    /// A write of the device.
    Write,
    /// The buffer has no further cycle.
    Worn,
}

/// A fault of a buffer. A buffer alone makes one, of itself and of the call that failed;
/// it can't be copied.
#[derive(Debug, Drop)]
pub struct Fault {
    pub(crate) kind: FaultKind,
    pub(crate) buffer: u8,
    pub(crate) length: u32,
}

impl Fault {
    /// What failed.
    pub fn kind(&self) -> FaultKind
        ensures { result ≡ self.now.kind }
    {
        self.kind
    }

    /// The number of the buffer.
    pub fn buffer(&self) -> u8
        ensures { result ≡ self.now.buffer }
    {
        self.buffer
    }

    /// The octets of the article that the call spoke of; 0 where it spoke of none.
    pub fn length(&self) -> u32
        ensures { result ≡ self.now.length }
    {
        self.length
    }
}

/// Why a buffer refuses a call, in the order of trial.
#[derive(Debug, Drop)]
pub enum BufError {
    /// The article has more blocks than the buffer.
    TooBig,
    /// The next cycle is one that a token has no room for.
    Worn(Fault),
    /// A write is open.
    Busy,
    /// The device failed during the call.
    Device(Fault),
}

/// Why a buffer isn't started, in the order of trial.
#[derive(Clone, Copy, Debug)]
pub enum StartError {
    /// Memory was refused.
    Memory,
    /// A read of the device failed.
    Device,
    /// Head block 0 is none of this buffer's.
    NoHead,
    /// The buffer was not stopped.
    Unclosed,
    /// The numbers, the bitmap and the blocks don't agree.
    Damaged,
}

impl From<AllocError> for StartError {
    ghost from_gives = { λ _ made. made ≡ StartError.Memory };

    fn from(_error: AllocError) -> StartError {
        StartError::Memory
    }
}

/// Why a buffer isn't made, in the order of trial.
#[derive(Clone, Copy)]
pub enum FormatError {
    /// Memory was refused.
    Memory,
    /// The device failed while head block 0 was written.
    Device,
}

/// What a read found.
#[derive(Clone, Copy)]
pub enum Found {
    /// So many octets at the front of the slice are the chunk.
    Chunk(usize),
    /// The article was overwritten: this front has passed it.
    Gone(Front),
    /// Nothing was finished under the token, or it has no such chunk.
    Unknown,
}
