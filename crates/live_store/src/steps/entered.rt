//! What a writer holds of its article: a value that the steps alone use up.
ghost use Rattle.std.specs.Prelude.{◌≡◌, length};
ghost use Rattle.live_store.specs.Tied.{named_in, text_in};

use crate::record::RecordNumber;
use cyc_buffer::size_of;
use cyc_token::Token;

/// An article that was begun and has its record: its write is open. It can be neither copied nor
/// let go: `finish` and `abandon` alone use it up. It has the token at run time, which the record
/// has for contracts alone, and tells how many blocks were written with it.
pub struct Entered {
    pub(super) token: Token,
    pub(super) shown: RecordNumber,
    pub(super) written: u32,
    // The token is the record's.
    ghost named: { named_in shown ≡ token },
    // It tells how long the text is.
    ghost long: { length (text_in shown) ≡ token.length },
}

impl Entered {
    ghost use Rattle.std.specs.Prelude.{◌≡◌, length};
    ghost use Rattle.live_store.specs.Handles.{blocks_of, shown_of, written_with};
    ghost use Rattle.live_store.specs.Tied.{named_in, text_in};

    /// The article of this record, whose write is open under the record's token.
    pub(crate) fn new(token: Token, shown: RecordNumber) -> Entered
        requires named { named_in shown ≡ token }
        requires long { length (text_in shown) ≡ token.length }
        ensures shown { shown_of result ≡ shown }
        ensures none { written_with result ≡ 0 }
    {
        Entered {
            token,
            shown,
            written: 0,
        }
    }

    /// The blocks that it takes.
    pub(crate) fn blocks(&self) -> u32
        ensures { result ≡ blocks_of self.now }
    {
        size_of(self.token.length)
    }
}
