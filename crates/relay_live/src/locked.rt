//! The parts of a relay behind their locks, each with its number among those of its kind.
ghost use Rattle.std.specs.Prelude.{◌≡◌};
ghost use Rattle.std.specs.Sync.Mutex.{mutex_guard_value};
ghost use Rattle.relay_live.specs.Locked.{freed_number, freed_value, held_number, held_value};
ghost use Rattle.relay_live.specs.Locked.{number_of};

use crate::claims::Claims;
use post_history::{Naming, RememberingShard};
use std::marker::PhantomData;
use std::sync::{Mutex, MutexGuard, Wait};

/// What stands round a value as its lock.
pub(crate) trait LockOf<T> {
    /// The value, behind a lock of its own.
    fn over(value: T) -> Self;

    /// The value, for which nobody waits any more.
    fn into_value(self) -> T;

    /// The lock.
    fn mutex(&self) -> &Mutex<T>;
}

impl<T> LockOf<T> for Mutex<T> {
    fn over(value: T) -> Mutex<T> {
        Mutex::new(value)
    }

    fn into_value(self) -> T {
        self.into_inner()
    }

    fn mutex(&self) -> &Mutex<T> {
        self
    }
}

impl<J: Naming> LockOf<RememberingShard<J>> for Claims<J> {
    fn over(shard: RememberingShard<J>) -> Claims<J> {
        Claims::over(shard)
    }

    fn into_value(self) -> RememberingShard<J> {
        self.into_shard()
    }

    fn mutex(&self) -> &Mutex<RememberingShard<J>> {
        &self.shard
    }
}

/// A value behind its lock, with its number among those of its kind. Who holds the lock, and what
/// comes out of it, has the number of the lock: nothing else is known of what comes out.
#[derive(Drop)]
pub(crate) struct Locked<T: Drop, K: Drop> {
    number: usize,
    lock: K,
    of: PhantomData<T>,
}

impl<T: Drop, K: LockOf<T> + Drop> Locked<T, K> {
    /// The value of this number goes behind a lock.
    pub(crate) fn over(number: usize, value: T) -> Locked<T, K>
        ensures { number_of result ≡ number }
    {
        Locked {
            number,
            lock: K::over(value),
            of: PhantomData,
        }
    }

    /// The value comes out.
    pub(crate) fn free(self) -> Freed<T>
        ensures { freed_number result ≡ number_of self }
    {
        let Locked {
            number,
            lock,
            of: _,
        } = self;
        Freed {
            number,
            value: lock.into_value(),
        }
    }

    /// Takes the lock.
    pub(crate) fn hold<R: Wait>(&self, rt: &R) -> Held<'_, T>
        ensures { held_number result ≡ number_of self.now }
    {
        Held {
            number: self.number,
            guard: self.lock.mutex().lock(rt),
        }
    }

    /// The lock itself.
    pub(crate) fn mutex(&self) -> &Mutex<T> {
        self.lock.mutex()
    }

    /// What stands round the value.
    pub(crate) fn lock(&self) -> &K {
        &self.lock
    }
}

/// A value that came out of the lock of a number.
#[derive(Drop)]
pub(crate) struct Freed<T: Drop> {
    number: usize,
    value: T,
}

impl<T: Drop> Freed<T> {
    /// The value came out of the lock of this number.
    pub(crate) fn of(number: usize, value: T) -> Freed<T>
        ensures number { freed_number result ≡ number }
        ensures value { freed_value result ≡ value }
    {
        Freed { number, value }
    }

    /// The value, without the number.
    pub(crate) fn into_value(self) -> T
        ensures { result ≡ freed_value self }
    {
        self.value
    }
}

/// The lock of a number, taken.
#[derive(Drop)]
pub(crate) struct Held<'a, T> {
    number: usize,
    pub(crate) guard: MutexGuard<'a, T>,
}

impl<'a, T> Held<'a, T> {
    /// The lock of this number is taken.
    pub(crate) fn of(number: usize, guard: MutexGuard<'a, T>) -> Held<'a, T>
        ensures number { held_number result ≡ number }
        ensures value { held_value result ≡ mutex_guard_value guard.entry }
    {
        Held { number, guard }
    }

    /// The number of the lock.
    pub(crate) fn number(&self) -> usize
        ensures { result ≡ held_number self.now }
    {
        self.number
    }
}
