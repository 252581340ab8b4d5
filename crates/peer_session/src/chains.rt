//! The chains of places by which an id is found.
ghost use Rattle.std.specs.Prelude.{◌≡◌, ◌≢◌, ◌≤◌, ◌<◌, ◌++◌, ◌∷◌, [], ℕ, List, Option};
ghost use Rattle.std.specs.Prelude.{None, Some, ◌↔◌, true, length, slice_index_or, slice_set};
ghost use Rattle.std.specs.Prelude.{IfOk, IfSome, MatchOption};
ghost use Rattle.peer_session.specs.Places.{bucket_of, bucket_count, ids_of, place_count};
ghost use Rattle.peer_session.specs.Chains.{AreChains, HasRoom, IsSpot};

use nntp_text::MsgId;
use std::alloc::{AllocError, Global};
use std::hash::{BuildHasher, Hasher, RandomState};

/// How many buckets there are.
const BUCKETS: usize = 512;

/// How many places there are: twice as many as offers may be open, so that 256 more can be opened
/// before they have to be closed up again.
pub(crate) const PLACES: usize = 512;

/// An open offer: its id, and the moment at which it was opened.
#[derive(Drop)]
pub(crate) struct Opened {
    pub(crate) id: MsgId,
    pub(crate) since: u64,
}

/// Where an id was found.
#[derive(Clone, Copy)]
pub(crate) struct Spot {
    pub(crate) place: usize,
    bucket: usize,
    /// One more than the place from which the chain leads here, 0 where the bucket does itself.
    newer: usize,
}

/// For each bucket a chain of its places, from the latest on. A link is one more than a place, 0
/// where the chain ends.
#[derive(Drop)]
pub(crate) struct Chains {
    hasher: RandomState,
    /// The link to the latest place of each bucket.
    latest: Vec<usize>,
    /// The bucket of each place.
    buckets: Vec<usize>,
    /// The link from each place to the next older one of its bucket.
    older: Vec<usize>,
}

impl Chains {
    /// Chains of no places.
    pub(crate) fn new(alloc: Global, hasher: RandomState) -> Result<Chains, AllocError>
        ensures chains { IfOk result (AreChains []) }
        ensures room { IfOk result HasRoom }
    {
        Ok(Chains {
            hasher,
            latest: vec![in alloc; 0; BUCKETS]?,
            buckets: Vec::with_capacity(alloc, PLACES)?,
            older: Vec::with_capacity(alloc, PLACES)?,
        })
    }

    /// Forgets all places.
    pub(crate) fn clear(&mut self)
        requires { HasRoom self.old }
        ensures chains { AreChains [] self.new }
        ensures room { HasRoom self.new }
        ensures hasher { self.new.hasher ≡ self.old.hasher }
    {
        self.latest.fill(0);
        self.buckets.clear();
        self.older.clear();
    }

    /// The bucket of an id.
    pub(crate) fn bucket(&self, id: &MsgId) -> usize
        ensures bucket { result ≡ bucket_of self.now.hasher id.now }
        ensures within { result < bucket_count }
    {
        let mut state = self.hasher.build_hasher();
        state.write(id.as_bytes());
        (state.finish() % BUCKETS as u64) as usize
    }

    /// Adds a place; the id that it has, if any, is of this bucket.
    pub(crate) fn add(&mut self, bucket: usize)
        requires within { bucket < bucket_count }
        requires room { HasRoom self.old }
        requires free { length self.old.buckets.items < place_count }
        requires free_older { length self.old.older.items < place_count }
        ensures chains { (places : List (Option (List ℕ))) (id : Option (List ℕ))
            → AreChains places self.old
            → ((octets : List ℕ) → id ≡ Some octets
            → bucket_of self.old.hasher octets ≡ bucket)
            → AreChains (places ++ id ∷ []) self.new }
        ensures room { HasRoom self.new }
        ensures hasher { self.new.hasher ≡ self.old.hasher }
    {
        let link = self.latest[bucket];
        self.buckets.push_reserved(bucket);
        self.older.push_reserved(link);
        self.latest[bucket] = self.buckets.len();
    }

    /// Finds the id among the places from `first` on; those before it have none.
    pub(crate) fn find(&self, offers: &[Option<Opened>], first: usize, id: &MsgId) -> Option<Spot>
        requires chains { AreChains (ids_of offers.now) self.now }
        requires room { HasRoom self.now }
        requires before { (j : ℕ) → j < first → slice_index_or (ids_of offers.now) j None ≡ None }
        ensures found { MatchOption result
            ((j : ℕ) → slice_index_or (ids_of offers.now) j None ≢ Some id.now)
            (λ spot. slice_index_or (ids_of offers.now) spot.place None ≡ Some id.now) }
        ensures spot { IfSome result (IsSpot self.now) }
    {
        let bucket = self.bucket(id);
        let mut newer = 0;
        let mut link = self.latest[bucket];
        while link > first {
            let place = link - 1;
            if is_at(offers, place, id) {
                return Some(Spot {
                    place,
                    bucket,
                    newer,
                });
            }
            newer = link;
            link = self.older[place];
        }
        None
    }

    /// Takes the place out of its chain.
    pub(crate) fn remove(&mut self, spot: Spot)
        requires spot { IsSpot self.old spot }
        requires room { HasRoom self.old }
        requires each { length self.old.older.items ≡ length self.old.buckets.items }
        ensures chains { (places : List (Option (List ℕ))) → AreChains places self.old
            → AreChains (slice_set places spot.place None) self.new }
        ensures room { HasRoom self.new }
        ensures hasher { self.new.hasher ≡ self.old.hasher }
    {
        let link = self.older[spot.place];
        if spot.newer == 0 {
            self.latest[spot.bucket] = link;
        } else {
            self.older[spot.newer - 1] = link;
        }
    }
}

/// Whether the place has this id.
fn is_at(offers: &[Option<Opened>], place: usize, id: &MsgId) -> bool
    requires { place < length offers.now }
    ensures { (result ≡ true) ↔ (slice_index_or (ids_of offers.now) place None ≡ Some id.now) }
{
    match &offers[place] {
        Some(other) => other.id.as_bytes() == id.as_bytes(),
        None => false,
    }
}
