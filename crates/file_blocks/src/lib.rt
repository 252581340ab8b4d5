//! Stores of blocks in files that are read and written in runs of blocks that follow each other
//! (docs/FORMATS.md, Blocks on the device).
//!
//! A store is a front of a file, block after block of 512 octets. What is written is gathered
//! first: blocks that follow each other go to the file in one call. What is gathered is read out of
//! memory. A run that can't be written is set aside, and blocks are written past it. After the
//! write of an article's last block none of its blocks is in memory alone. A store keeps what a
//! store promises as far as its file is honest; of a file of the machine nothing says that it is.
#![tactic(auto)]

mod course;
mod device;
mod file;
mod fitted;
mod flusher;
mod gathering;
mod host;
mod last;
mod past;
mod reading;
mod run;
mod store;
mod which;
mod zeros;

pub use file::RunFile;
pub use fitted::{FittedFile, size_of};
pub use flusher::Flusher;
pub use host::{HeldFile, HostFile, Unusable};
pub use run::RUN_BLOCKS;
pub use store::FileBlocks;
pub use which::Identity;
