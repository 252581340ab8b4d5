//! The register: what was begun, under numbers that never change.
use crate::writing::Record;
use std::marker::Brand;
use std::mem::size_of;

// What the README says of the memory of a number.
const _: () = prove!(size_of::<Option<RecordNumber>>() == 16);

/// The register of a relay: a record never changes under its number, and none is ever taken out.
pub type ArticleLog = crate::register::Register<Record>;

/// A record's number, with what shows that the register holds the record under it.
pub type RecordNumber = crate::entry_number::EntryNumber<Record>;

/// Which register the numbers are of, whether the stores are promised to be honest, and which
/// buffers a group has.
pub trait StorePremises {
    ghost use Rattle.std.specs.Prelude.{Bool, ℕ};
    ghost use Rattle.boxcar.specs.Table.{Shelves};

    ghost register: { Shelves };

    ghost trusted: { Bool };

    /// Which buffers a group has, by the numbers of group and buffer.
    ghost holds: { ℕ → ℕ → Bool };
}

impl StorePremises for Brand {
    ghost use Rattle.std.specs.Prelude.{[], false};

    ghost register = { record { tag = []; buckets = [] } };

    ghost trusted = { false };

    ghost holds = { λ _ _. false };
}
