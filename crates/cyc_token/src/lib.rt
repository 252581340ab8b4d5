//! The token of a stored article: the place and length that the store gives out for it and that
//! feeds hand on. It is a value of its own, so that what is queued or asked for by token can speak
//! of places without the buffers.
//!
//! Two tokens are equal exactly where they agree in all five parts. Each has one text, and nothing
//! else is read as a token.
#![tactic(auto)]

pub mod laws;
mod text;

pub use text::TokenError;

/// Where a stored article lies and how long it is (docs/FORMATS.md, Tokens).
#[derive(Clone, Copy, Debug, PartialEq, Eq)]
pub struct Token {
    /// The number of its storage class.
    pub class: u8,
    /// The number of its buffer, counted from 0 in the order of the configuration.
    pub buffer: u8,
    /// The cycle of the buffer in which it was begun.
    pub cycle: u32,
    /// Its first block in the buffer, in blocks of 512 octets.
    pub first: u32,
    /// The octets of its text.
    pub length: u32,
}
