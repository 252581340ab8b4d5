//! The register.
ghost use Rattle.std.specs.Prelude.{◌≡◌, ◌+◌, ◌<◌, ◌^◌, ℕ, IfOk, IfErr};
ghost use Rattle.boxcar.specs.Table.{Shows, id_at};
ghost use Rattle.live_store.specs.Places.{IsAt, bucket_of};

use crate::buckets::{AnyValue, Bucket, Place, new_buckets};
use crate::entry_number::EntryNumber;
use crate::laid::lay;
use crate::places::{At, LIMIT, PARTS, locate};
use boxcar::slot::{OnceSlot, Written};
use boxcar::tag::Tag;
use std::alloc::{AllocError, Global};
use std::marker::Model;
use std::sync::Wait;
use std::sync::atomic::{AtomicUsize, Ordering};

/// Values under numbers: a value never changes under its number, and none is taken out. Threads
/// enter them by a `&`, with no lock.
pub struct Register<T> {
    next: AtomicUsize,
    buckets: Vec<OnceSlot<Vec<Place<T>>, Bucket>>,
    alloc: Global,
}

// Written out, so that no crate above proves anew how each part is let go.
impl<T: Drop> Drop for Register<T> {
    fn drop(self) {
        let Register {
            next: _,
            buckets: _,
            alloc: _,
        } = self;
    }
}

impl<T> Model for Register<T> {
    ghost use Rattle.std.specs.Prelude.{[]};
    ghost use Rattle.boxcar.specs.Table.{Shelves, shelves_coded};
    ghost use Rattle.live_store.specs.Places.{AreBuckets};

    ghost Value = { Shelves };

    ghost coded = { shelves_coded };

    ghost view = { λ r. record { tag = []; buckets = r.buckets.items } };

    ghost invariant = { λ r. AreBuckets r.buckets.items };
}

impl<T: Drop> Register<T> {
    /// A register without a value. It takes memory for the places of none yet.
    pub fn new(alloc: Global) -> Result<Register<T>, AllocError> {
        let buckets = new_buckets(alloc)?;
        Ok(Register {
            next: AtomicUsize::new(0),
            buckets,
            alloc,
        })
    }

    /// Enters a value under a number that no other value has. It comes back where memory is refused
    /// for its place, or where no number is left.
    pub fn enter<R: Wait>(&self, rt: &R, value: T) -> Result<EntryNumber<T>, T>
        ensures shown { IfOk result (λ s. Shows self.now s × (s.value ≡ value)) }
        ensures back { IfErr result (λ v. v ≡ value) }
    {
        let Ok(index) = self.next_index() else {
            return Err(value);
        };
        self.write(rt, index, value)
    }

    /// The next number. Its bucket has its memory before it is given out, so that what is refused
    /// memory takes no number unless another thread came between.
    fn next_index(&self) -> Result<usize, AllocError>
        ensures { IfOk result (λ index. index + 512 < 2 ^ 63) }
    {
        let next = self.next.load(Ordering::SeqCst);
        if next >= LIMIT {
            return Err(AllocError);
        }
        lay(self.alloc, &self.buckets, &locate(next))?;
        let index = self.next.fetch_add(1, Ordering::SeqCst);
        if index >= LIMIT {
            self.next.fetch_sub(1, Ordering::SeqCst);
            return Err(AllocError);
        }
        Ok(index)
    }

    /// What shows a bucket's places, once it has them.
    fn laid<R: Wait>(&self, rt: &R, at: &At) -> Result<Written<Vec<Place<T>>>, AllocError>
        requires at { (index : ℕ) × IsAt index at.now.octave at.now.part at.now.place }
        ensures { IfOk result
            (λ w. w.of ≡ id_at self.now.buckets (bucket_of at.now.octave at.now.part)) }
    {
        Ok(lay(self.alloc, &self.buckets, at)?.places(rt))
    }

    /// Writes a value in the place of a number.
    fn write<R: Wait>(&self, rt: &R, index: usize, value: T) -> Result<EntryNumber<T>, T>
        requires { index + 512 < 2 ^ 63 }
        ensures shown { IfOk result
            (λ s. Shows self.now s × (s.value ≡ value) × (s.index ≡ index)) }
        ensures back { IfErr result (λ v. v ≡ value) }
    {
        let at = locate(index);
        let Ok(bucket) = self.laid(rt, &at) else {
            return Err(value);
        };
        let places = self.buckets[at.octave * PARTS + at.part].value(&bucket);
        let place = at.place;
        let Ok(at) = noted(at) else {
            return Err(value);
        };
        match places[place].set_written(value) {
            Ok(item) => Ok(EntryNumber {
                index,
                at,
                bucket,
                item,
            }),
            Err(value) => Err(value),
        }
    }
}

/// What shows where a number is, for contracts alone.
fn noted(at: At) -> Result<Written<At>, At>
    ensures { IfOk result (λ noted. noted.value ≡ at) }
{
    OnceSlot::<At, AnyValue>::new(&Tag::empty()).set_written(at)
}

impl<T> Register<T> {
    /// A number has one value.
    pub fn agrees(&self, a: &EntryNumber<T>, b: &EntryNumber<T>)
        requires a_here { Shows self.now a.now }
        requires b_here { Shows self.now b.now }
        requires same { a.now.index ≡ b.now.index }
        ensures { a.now.value ≡ b.now.value }
    {
        a.bucket.agrees(&b.bucket);
        a.item.agrees(&b.item);
    }
}
