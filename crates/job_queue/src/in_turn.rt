//! Parcels that nobody has taken yet, and those who take them in turn.
//!
//! Whoever brings a parcel may take what lies in the queue, where nobody else does: the right to
//! take lies behind a lock, which is tried and not waited for. So that no parcel stays behind, its
//! order is one of types. A parcel is counted before it is handed over: each step that hands one
//! over uses up a `Counted`. Who has handed it over has a `Change`, and tells of it or tries the
//! lock; where another has that, the other sees to it. Who has had the lock looks at the count once
//! he has let go of it: a `Turn` is neither copied nor let go, and such a look alone uses it up.
//! What is left then is a change once more.
use crate::waiting::{Announced, Change, Looked, Parcels};
use std::sync::atomic::{AtomicU64, Ordering};
use std::sync::{Mutex, MutexGuard, Wait};

/// How many parcels are counted for a queue, and not taken out of it yet.
#[derive(Drop)]
pub struct Untaken {
    count: AtomicU64,
}

/// That a parcel is counted which isn't handed over yet. It is neither copied nor let go.
pub struct Counted {
    made: (),
}

impl Untaken {
    /// None is counted.
    pub fn new() -> Untaken {
        Untaken {
            count: AtomicU64::new(0),
        }
    }

    /// Counts a parcel that is about to be handed over.
    pub fn count(&self) -> Counted {
        self.count.fetch_add(1, Ordering::SeqCst);
        Counted { made: () }
    }

    /// A parcel that was counted wasn't handed over.
    pub fn uncount(&self, counted: Counted) {
        let Counted { made: _ } = counted;
        self.count.fetch_sub(1, Ordering::SeqCst);
    }

    /// A parcel was taken.
    pub(crate) fn took_one(&self) {
        self.count.fetch_sub(1, Ordering::SeqCst);
    }

    /// Whether something is left: that is a change.
    pub fn left(&self) -> Option<Change<Parcels>> {
        if self.count.load(Ordering::SeqCst) == 0 {
            return None;
        }
        Some(Change::made())
    }

    /// Lets go of the lock, and then looks whether something is left.
    pub fn end_turn<T>(&self, held: MutexGuard<'_, T>, turn: Turn) -> Option<Change<Parcels>> {
        let Turn { made: _ } = turn;
        drop(held);
        self.left()
    }

    /// The same of one whose wait for a parcel is announced; where nothing is left he may wait.
    pub fn end_turn_last<'a, T>(
        &self,
        held: MutexGuard<'_, T>,
        turn: Turn,
        announced: Announced<'a, Parcels>,
    ) -> Option<Looked<'a>> {
        let Turn { made: _ } = turn;
        drop(held);
        if self.count.load(Ordering::SeqCst) == 0 {
            return Some(announced.found_nothing());
        }
        None
    }
}

impl Counted {
    /// The parcel was handed over.
    pub(crate) fn handed_over(self) -> Change<Parcels> {
        let Counted { made: _ } = self;
        Change::made()
    }
}

/// What threads have in turn, behind a lock.
#[derive(Drop)]
pub struct InTurn<T> {
    lock: Mutex<T>,
}

/// That the lock of what is had in turn was taken. It is neither copied nor let go.
pub struct Turn {
    made: (),
}

impl<T> InTurn<T> {
    /// Nobody has it.
    pub fn new(value: T) -> InTurn<T> {
        InTurn {
            lock: Mutex::new(value),
        }
    }

    /// Takes the lock for this change. Where another has it none is given: he looks for what is
    /// left once he has let go of it.
    pub fn try_turn(&self, change: Change<Parcels>) -> Option<(MutexGuard<'_, T>, Turn)> {
        change.seen_to();
        match self.lock.try_lock() {
            Some(held) => Some((held, Turn { made: () })),
            None => None,
        }
    }

    /// Waits for the lock.
    pub fn turn<R: Wait>(&self, rt: &R) -> (MutexGuard<'_, T>, Turn) {
        (self.lock.lock(rt), Turn { made: () })
    }
}
