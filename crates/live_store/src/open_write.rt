//! What stands beside a buffer.
use crate::record::RecordNumber;
use cyc_buffer::Open;

/// The open write of a buffer, and its record's number from its first block on.
pub struct OpenWrite {
    pub(crate) write: Open,
    pub(crate) shown: Option<RecordNumber>,
    /// The blocks that are written.
    pub(crate) written: u32,
    /// A write of a block failed.
    pub(crate) broken: bool,
}
