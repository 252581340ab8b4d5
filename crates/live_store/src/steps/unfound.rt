//! Why reads found no chunk: a value that is made only where its cause is so.
ghost use Rattle.std.specs.Prelude.{◌≡◌, ◌≢◌, ◌≤◌};
ghost use Rattle.live_store.specs.Causes.{cause_of};
ghost use Rattle.live_store.specs.declared.steps.unfound.UnfoundCause.TheVariants as causes;
ghost use Rattle.news_terms.specs.Places.{size_of};

use crate::record::RecordNumber;
use cyc_token::Token;

/// Why reads of an article found no chunk, in the order of trial.
#[derive(Clone, Copy)]
pub enum UnfoundCause {
    /// The token tells no octets, and so no block was asked for.
    NoOctets,
    /// No buffer has the token's number.
    NoBuffer,
    /// The buffer has no such chunk: nothing was finished under the token, or it has no block of
    /// this number.
    NoChunk(u32),
    /// The chunk of this block is of another record than the earlier ones.
    Another(u32),
}

/// That no chunk was found. A buffer's read alone says that it has none; each other cause is shown
/// where it is said.
#[derive(Clone, Copy)]
pub struct Unfound {
    cause: UnfoundCause,
}

impl Unfound {
    /// A buffer has no such block under the token.
    pub(super) fn no_chunk(block: u32) -> Unfound
        ensures { cause_of result ≡ causes.NoChunk block }
    {
        Unfound {
            cause: UnfoundCause::NoChunk(block),
        }
    }

    /// The block is of another record.
    pub(crate) fn another(block: u32, own: &RecordNumber, other: &RecordNumber) -> Unfound
        requires { own.now.index ≢ other.now.index }
        ensures { cause_of result ≡ causes.Another block }
    {
        let _ = own;
        let _ = other;
        Unfound {
            cause: UnfoundCause::Another(block),
        }
    }

    /// There are only so many buffers.
    pub(crate) fn no_buffer(count: usize, token: &Token) -> Unfound
        requires { count ≤ token.now.buffer }
        ensures { cause_of result ≡ causes.NoBuffer }
    {
        let _ = count;
        let _ = token;
        Unfound {
            cause: UnfoundCause::NoBuffer,
        }
    }

    /// The token tells no octets.
    pub(crate) fn no_octets(token: &Token) -> Unfound
        requires { size_of token.now.length ≡ 0 }
        ensures { cause_of result ≡ causes.NoOctets }
    {
        let _ = token;
        Unfound {
            cause: UnfoundCause::NoOctets,
        }
    }

    /// The cause.
    pub fn cause(&self) -> UnfoundCause
        ensures { result ≡ cause_of self.now }
    {
        self.cause
    }
}
