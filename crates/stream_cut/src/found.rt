//! What stands at the front of a stream.

/// What stands where a line is wanted.
#[derive(Clone, Copy)]
pub enum FoundLine {
    /// A line of so many octets, and its CRLF.
    Whole(usize),
    /// The next 512 octets hold no CRLF (RFC 3977 section 3.1).
    TooLong,
    /// Less than a line so far.
    Incomplete,
}

/// What stands where a block is wanted.
#[derive(Clone, Copy)]
pub enum FoundBlock {
    /// A block whose text is within the limit. Its lines take `octets` octets as they came, each
    /// with its CRLF, and three more close it; `dots` of the lines begin with a dot, which the text
    /// has not.
    Whole { octets: usize, dots: usize },
    /// A block whose text is past the limit: so many of the octets that are kept belong to it.
    Oversize(usize),
    /// No block is whole so far.
    Unfinished,
}
