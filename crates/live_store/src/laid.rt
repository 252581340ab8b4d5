//! Buckets that have their places.
ghost use Rattle.std.specs.Prelude.{◌≡◌, ◌<◌, ℕ, IfOk};
ghost use Rattle.boxcar.specs.Table.{id_at};
ghost use Rattle.live_store.specs.Places.{AreBuckets, IsAt, IsBucket, bucket_of, span};

use crate::buckets::{Bucket, Place, new_places};
use crate::places::{At, PARTS, width};
use boxcar::slot::{OnceSlot, Written};
use std::alloc::{AllocError, Global};
use std::sync::Wait;

/// A bucket that has its places, or is being given them by another thread: `lay` alone says so.
#[derive(Drop)]
pub(crate) struct Laid<'a, T> {
    bucket: &'a OnceSlot<Vec<Place<T>>, Bucket>,
}

impl<'a, T> Laid<'a, T> {
    /// What shows the bucket's places, once it has them. Nothing else waits for a bucket.
    pub(crate) fn places<R: Wait>(&self, rt: &R) -> Written<Vec<Place<T>>>
        ensures { result.of ≡ self.now.bucket.now.id }
    {
        let bucket = self.bucket;
        for _ in rt.forever() {
            if let Some(places) = bucket.witness() {
                return places;
            }
            std::hint::spin_loop();
        }
        unreachable!()
    }
}

/// Takes memory for a bucket's places, unless it has it.
pub(crate) fn lay<'a, T: Drop>(
    alloc: Global,
    buckets: &'a [OnceSlot<Vec<Place<T>>, Bucket>],
    at: &At,
) -> Result<Laid<'a, T>, AllocError>
    requires buckets { AreBuckets buckets.now }
    requires at { (index : ℕ) × IsAt index at.now.octave at.now.part at.now.place }
    ensures { IfOk result
        (λ laid. laid.bucket.now.id ≡ id_at buckets.now (bucket_of at.now.octave at.now.part)) }
{
    let bucket = &buckets[at.octave * PARTS + at.part];
    if bucket.get().is_none() {
        make(alloc, bucket, at.octave)?;
    }
    Ok(Laid { bucket })
}

/// Takes memory for a bucket's places. Where another thread did so first, it is given back.
#[cold]
fn make<T: Drop>(
    alloc: Global,
    bucket: &OnceSlot<Vec<Place<T>>, Bucket>,
    octave: usize,
) -> Result<(), AllocError>
    requires octave { octave < 54 }
    requires bucket { IsBucket bucket.now.tag (span octave) }
{
    let places = new_places(alloc, width(octave))?;
    drop(bucket.set_written(places));
    Ok(())
}
