//! What a fetch finds.
ghost use Rattle.std.specs.Prelude.{◌≡◌, true};
ghost use Rattle.boxcar.specs.Table.{Shows};
ghost use Rattle.live_store.specs.Tied.{text_in};

use crate::record::{ArticleLog, RecordNumber, StorePremises};
use crate::steps::Unfound;
use cyc_buffer::{Fault, Front};
use std::marker::PhantomData;

/// A whole text that was fetched, with the number of its record.
#[derive(Drop)]
pub struct Text<J: StorePremises> {
    pub(crate) octets: Vec<u8>,
    pub(crate) shown: RecordNumber,
    pub(crate) of: PhantomData<J>,
    ghost here: { Shows J.register shown },
    ghost whole: { J.trusted ≡ true → octets.items ≡ text_in shown },
}

impl<J: StorePremises> Text<J> {
    /// The octets.
    pub fn octets(&self) -> &[u8]
        ensures { result.now ≡ self.now.octets.items }
    {
        self.octets.as_slice()
    }

    /// The number of the record.
    pub fn number(&self) -> usize
        ensures { result ≡ self.now.shown.index }
    {
        self.shown.index()
    }
}

/// What a fetch found.
#[derive(Drop)]
pub enum Fetched<J: StorePremises> {
    /// The text of the record of this number, whole.
    Whole(Text<J>),
    /// The article was overwritten: this front has passed it.
    Gone(Front),
    /// Nothing was finished under the token, or another article took its place meanwhile.
    Unknown(Unfound),
    /// The device failed.
    Device(Fault),
}

/// What was fetched is what the holder of the number had entered, in any thread.
pub fn same_text<J: StorePremises>(register: &ArticleLog, text: &Text<J>, shown: &RecordNumber)
    requires register { register.now ≡ J.register }
    requires shown { Shows J.register shown.now }
    requires number { text.now.shown.index ≡ shown.now.index }
    ensures { J.trusted ≡ true → text.now.octets.items ≡ text_in shown.now }
{
    register.agrees(&text.shown, shown);
}
