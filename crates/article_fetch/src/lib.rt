//! A fetch in progress: ARTICLE, HEAD, BODY, OVER and STAT of a message-id (RFC 3977, sections 6.2
//! and 8.3) and XFETCH of a token read a stored text block by block, and the reply comes with the
//! last block (docs/PROTOCOL.md, Sessions).
//!
//! The overview line of an article (RFC 3977, section 8.3.2; docs/FORMATS.md, Overview line): of an
//! article that was read, and of a text, into room that the caller has.
#![tactic(auto)]

mod asked;
mod chunk;
mod finding;
pub mod laws;
mod layout;
mod overview;
mod parts;
mod puts;
mod reading;
mod shown;

pub use asked::Asked;
pub use chunk::{Chunk, ChunkOctets};
pub use overview::{LINE_ROOM, PutError, line, put_line};
pub use reading::Reading;
