//! The number of a session that was drawn last, and those that were drawn.
ghost use Rattle.std.specs.Prelude.{◌≡◌, ◌+◌, ◌-◌, ◌^◌, ◌↔◌, None, IfSome};

use std::marker::PhantomData;
use std::sync::ledger::{Book, Ledger};

/// The number of a session, drawn. `Last::next` alone makes one, and it isn't copied: so in a relay
/// no two have one value.
#[derive(Drop)]
pub(crate) struct Number<L: Ledger> {
    value: u64,
    relay: PhantomData<Book<L>>,
}

impl<L: Ledger> Number<L> {
    ghost use Rattle.relay_live.specs.Numbers.{number_of};

    /// Spends it for its value.
    pub(crate) fn into_value(self) -> u64
        ensures { result ≡ number_of self }
    {
        self.value
    }
}

/// The number that was drawn last, 0 before the first.
#[derive(Drop)]
pub(crate) struct Last<L: Ledger> {
    number: u64,
    relay: PhantomData<Book<L>>,
}

impl<L: Ledger> Last<L> {
    ghost use Rattle.relay_live.specs.Numbers.{last_of, number_of};

    /// This number was drawn last, or 0 where none was drawn yet. The book of the relay is shown,
    /// and nobody has that once the desk keeps it: so no other `Last` is made later.
    pub(crate) fn after(_book: &Book<L>, number: u64) -> Last<L>
        ensures { last_of result ≡ number }
    {
        Last {
            number,
            relay: PhantomData,
        }
    }

    /// The number that was drawn last.
    pub(crate) fn number(&self) -> u64
        ensures { result ≡ last_of self.now }
    {
        self.number
    }

    /// One above the last, which is the last from now on; none after the greatest of 64 bits.
    pub(crate) fn next(&mut self) -> Option<Number<L>>
        ensures some { IfSome result (λ number. (number_of number ≡ last_of self.old + 1)
            × (last_of self.new ≡ number_of number)) }
        ensures none { (result ≡ None) ↔ (last_of self.old ≡ 2 ^ 64 - 1) }
        ensures same { result ≡ None → self.new ≡ self.old }
    {
        let value = self.number.checked_add(1)?;
        self.number = value;
        Some(Number {
            value,
            relay: PhantomData,
        })
    }
}
