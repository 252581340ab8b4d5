//! Those who wait until others have brought something about, and are told of it.
//!
//! Who may wait announces it first, then looks a last time, and waits only where he found nothing.
//! What is told of after the announcement ends the wait, also one that hasn't begun: so nothing
//! that is brought about after the last look is missed. That order is one of types: a wait needs a
//! `Looked`, which a last look alone makes. So is that a change is told of, and told of once it is
//! made: a `Change` is made by a step of a queue alone, and is neither copied nor let go.
use crossbeam_utils::sync::{EventCount, Key};
use std::marker::PhantomData;
use std::sync::{Mutex, MutexGuard, Wait};
use std::thread;

/// Parcels are waited for: by who takes them.
pub struct Parcels;

/// Room for parcels is waited for: by who hands them over.
pub struct Room;

/// Those who wait beside a queue for the same, of whom a change serves one: of each change one is
/// told.
#[derive(Drop)]
pub struct Row<K> {
    told: EventCount,
    kind: PhantomData<K>,
}

impl<K> Row<K> {
    /// Nobody waits.
    pub fn new() -> Row<K> {
        Row {
            told: EventCount::new(),
            kind: PhantomData,
        }
    }

    /// Announces a wait.
    pub fn announce(&self) -> Announced<'_, K> {
        Announced {
            key: self.told.prepare_wait(),
            kind: PhantomData,
        }
    }

    /// Tells one of a change.
    pub fn tell(&self, change: Change<K>) {
        change.seen_to();
        self.told.notify_one();
    }
}

/// A change for which somebody may wait, and of which nobody was told yet.
pub struct Change<K> {
    kind: PhantomData<K>,
}

impl<K> Change<K> {
    /// It was made.
    pub(crate) fn made() -> Change<K> {
        Change { kind: PhantomData }
    }

    /// It needn't be told of any more.
    pub(crate) fn seen_to(self) {
        let Change { kind: _ } = self;
    }
}

/// A wait that is announced, with no look since.
#[derive(Drop)]
pub struct Announced<'a, K> {
    key: Key<'a>,
    kind: PhantomData<K>,
}

impl<'a, K> Announced<'a, K> {
    /// Nothing was found in a last look.
    pub(crate) fn found_nothing(self) -> Looked<'a> {
        Looked { key: self.key }
    }
}

/// Those who wait each for something of its own that stands behind a lock: of each change all are
/// told.
#[derive(Drop)]
pub struct Crowd {
    told: EventCount,
}

impl Crowd {
    /// Nobody waits.
    pub fn new() -> Crowd {
        Crowd {
            told: EventCount::new(),
        }
    }

    /// Announces a wait, and then takes the lock for a last look.
    pub fn lock_last<'a, 'm, T, R: Wait>(
        &'a self,
        rt: &R,
        mutex: &'m Mutex<T>,
    ) -> (MutexGuard<'m, T>, Looked<'a>) {
        let key = self.told.prepare_wait();
        (mutex.lock(rt), Looked { key })
    }

    /// Lets go of the lock of what was changed, and tells all.
    pub fn unlock<T>(&self, guard: MutexGuard<'_, T>) {
        drop(guard);
        self.tell();
    }

    /// Tells all of a change, which whoever looks from now on has to see.
    pub fn tell(&self) {
        self.told.notify_all();
    }
}

/// A wait that is announced, with a look since.
#[derive(Drop)]
pub struct Looked<'a> {
    key: Key<'a>,
}

impl Looked<'_> {
    /// Waits until a change is told of, after the announcement. It gives way to other threads
    /// first, of whom one may be about to tell.
    pub fn wait<R: Wait>(self, rt: &R) {
        thread::yield_now();
        self.key.wait(rt);
    }
}
