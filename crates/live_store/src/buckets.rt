//! Buckets of places.
ghost use Rattle.std.specs.Prelude.{◌≡◌, ◌+◌, ◌<◌, ◌^◌, [], ◌∷◌, length, IfOk};
ghost use Rattle.live_store.specs.Places.{AreBuckets};

use crate::places::{OCTAVES, PARTS};
use boxcar::slot::{OnceSlot, SlotRule};
use boxcar::tag::{Names, Tag};
use std::alloc::{AllocError, Global};

/// What is so of a value that stands in a place: nothing.
pub struct AnyValue;

impl<T> SlotRule<T> for AnyValue {
    ghost use Rattle.std.specs.Prelude.{⊤};

    ghost holds = { λ _ _. ⊤ };
}

/// A place of a number, which is written once.
pub type Place<T> = OnceSlot<T, AnyValue>;

/// What is so of a bucket: it has as many places as its number says.
pub struct Bucket;

impl<T> SlotRule<Vec<Place<T>>> for Bucket {
    ghost use Rattle.std.specs.Prelude.{length};
    ghost use Rattle.live_store.specs.Places.{IsBucket};

    ghost holds = { λ tag places. IsBucket tag (length places.items) };
}

/// How a number is read as a tag.
struct OwnNumber;

impl Names<usize> for OwnNumber {
    ghost use Rattle.std.specs.Prelude.{[], ◌∷◌};

    ghost numbers = { λ number. number ∷ [] };
}

/// So many free places.
pub(crate) fn new_places<T: Drop>(alloc: Global, count: usize) -> Result<Vec<Place<T>>, AllocError>
    ensures { IfOk result (λ places. length places.items ≡ count) }
{
    let mut places = Vec::with_capacity(alloc, count)?;
    for _ in 0..count {
        places.push_reserved(OnceSlot::new(&Tag::empty()));
    }
    Ok(places)
}

/// All buckets, none of which has memory.
pub(crate) fn new_buckets<T: Drop>(
    alloc: Global,
) -> Result<Vec<OnceSlot<Vec<Place<T>>, Bucket>>, AllocError>
    ensures { IfOk result (λ buckets. AreBuckets buckets.items) }
{
    let mut buckets = Vec::with_capacity(alloc, OCTAVES * PARTS)?;
    for number in 0..OCTAVES * PARTS {
        buckets.push_reserved(OnceSlot::new(&Tag::of::<usize, OwnNumber>(&number)));
    }
    Ok(buckets)
}
