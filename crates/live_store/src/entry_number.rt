//! What shows that a value stands under a number.
ghost use Rattle.std.specs.Prelude.{◌≡◌};

use crate::buckets::Place;
use crate::places::At;
use boxcar::slot::Written;
use std::marker::Model;
use std::mem::size_of;

/// The number of a value, with what shows that a register has the value under it, for as long as
/// the register lasts.
pub struct EntryNumber<T> {
    pub(crate) index: usize,
    pub(crate) at: Written<At>,
    pub(crate) bucket: Written<Vec<Place<T>>>,
    pub(crate) item: Written<T>,
}

// Written out, so that no crate above proves anew how each part is let go.
impl<T: Drop> Drop for EntryNumber<T> {
    fn drop(self) {
        let EntryNumber {
            index: _,
            at: _,
            bucket: _,
            item: _,
        } = self;
    }
}

// What the README says of the memory of a number.
const _: () = prove!(size_of::<EntryNumber<u64>>() == 8);

impl<T> Model for EntryNumber<T> {
    ghost use Rattle.std.specs.Prelude.{◌≡◌};
    ghost use Rattle.boxcar.specs.Table.{Where, where_coded, id_at};
    ghost use Rattle.live_store.specs.Places.{IsAt, bucket_of};

    ghost Value = { Where T };

    ghost coded = { where_coded T.code };

    ghost view = { λ s. record {
      index = s.index;
      value = s.item.value;
      bucket = bucket_of s.at.value.octave s.at.value.part;
      row = s.bucket.of;
      item = s.item.of;
    } };

    ghost invariant = { λ s. IsAt s.index s.at.value.octave s.at.value.part s.at.value.place
        × (s.item.of ≡ id_at s.bucket.value.items s.at.value.place) };
}

impl<T> EntryNumber<T> {
    /// The number.
    pub fn index(&self) -> usize
        ensures { result ≡ self.now.index }
    {
        self.index
    }

    /// The same once more.
    pub fn again(&self) -> EntryNumber<T>
        ensures { result ≡ self.now }
    {
        EntryNumber {
            index: self.index,
            at: self.at.again(),
            bucket: self.bucket.again(),
            item: self.item.again(),
        }
    }
}
