//! What a writer has of a job.
ghost use Rattle.std.specs.Prelude.{◌≡◌};
ghost use Rattle.boxcar.specs.Table.{Shows};
ghost use Rattle.live_store.specs.Tied.{named_in};

use crate::record::{RecordNumber, StorePremises};
use crate::steps::Conflict;
use cyc_buffer::Fault;
use cyc_token::Token;
use std::marker::{Brand, PhantomData};
use std::mem::size_of;

/// That a text is stored: its record's number. For contracts its token is the record's.
pub struct Receipt<J: StorePremises> {
    pub(crate) shown: RecordNumber,
    pub(crate) of: PhantomData<J>,
    ghost here: { Shows J.register shown },
}

// Written out, so that no crate above proves anew how each part is let go.
impl<J: StorePremises> Drop for Receipt<J> {
    fn drop(self) {
        let Receipt { shown: _, of: _ } = self;
    }
}

// What the README says of the memory of a receipt.
const _: () = prove!(size_of::<Receipt<Brand>>() == 8);

impl<J: StorePremises> Receipt<J> {
    /// The number of the record.
    pub fn number(&self) -> usize
        ensures { result ≡ self.now.shown.index }
    {
        self.shown.index()
    }

    /// The same receipt once more.
    pub fn again(&self) -> Receipt<J>
        ensures { result.shown ≡ self.now.shown }
    {
        Receipt {
            shown: self.shown.again(),
            of: PhantomData,
        }
    }

    /// What shows the record.
    pub fn shown(&self) -> &RecordNumber
        ensures { result.now ≡ self.now.shown }
    {
        &self.shown
    }
}

/// What a finish gives: the receipt of the text, and its token at run time.
#[derive(Drop)]
pub struct Finished<J: StorePremises> {
    pub(crate) token: Token,
    pub(crate) receipt: Receipt<J>,
    // The token is the receipt's.
    ghost same: { named_in receipt.shown ≡ token },
}

impl<J: StorePremises> Finished<J> {
    ghost use Rattle.std.specs.Prelude.{◌≡◌};
    ghost use Rattle.live_store.specs.Tied.{named_in};

    /// The token.
    pub fn token(&self) -> Token
        ensures { result ≡ named_in self.now.receipt.shown }
    {
        self.token
    }

    /// The receipt alone.
    pub fn into_receipt(self) -> Receipt<J>
        ensures { result ≡ self.receipt }
    {
        self.receipt
    }
}

/// How the storing of a text ended.
#[derive(Drop)]
pub enum Stored<J: StorePremises> {
    /// The text is stored.
    Kept(Finished<J>),
    /// The device failed, or the buffer has no further cycle.
    Failed(Fault),
    /// The buffer is not this writer's alone, or the text is none for it: another write was open
    /// or came between, or it has no octets or more than a buffer holds.
    Conflict(Conflict),
}
