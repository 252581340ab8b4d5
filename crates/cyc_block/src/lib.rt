//! Block stores and the octets of a block (docs/FORMATS.md, Blocks on the device).
//!
//! A store is a row of blocks of 512 octets. What a read gives is what was last written there, as
//! far as the store is honest; an error comes only where the device failed. An image reads back,
//! and nothing else is read as an image.
#![tactic(auto)]

mod failing;
mod head;
mod image;
mod memory;
mod numbers;
mod store;
mod tally;

pub use failing::FailAt;
pub use head::{HeadNumbers, HeadState, head_count, head_image, read_head_image};
pub use image::{Image, Stamp, are_zeros, block_image, read_image};
pub use memory::MemoryBlocks;
pub use store::{BlockStore, DeviceFailed};
pub use tally::Tally;

/// The octets of a block.
pub const BLOCK_OCTETS: usize = 512;

/// The octets of a text that one block holds, behind those of its head.
pub const CHUNK_OCTETS: usize = 480;
