//! The word by which all ports of a relay are told to end.
ghost use Rattle.std.specs.Prelude.{◌≤◌, ◌+◌, ◌↔◌, IsTrue};

use std::sync::atomic::{AtomicBool, AtomicU64, Ordering};

/// For how many seconds lines still write what they owe once it was asked.
const LATE_SECONDS: u64 = 8;

/// How many seconds pass at least between two lines that tell of want of descriptors, and between
/// two that tell of too many connections.
const BETWEEN_LINES: u64 = 60;

/// How many numbers have a bit for each port: a relay has 1,024 peers at most.
const WAITED: usize = 16;

/// What the ports of a relay and their connections look at: whether they are to stop, which is
/// asked once, and for good; and how many of them are there.
pub struct Stop {
    asked: AtomicBool,
    /// The second after that in which that was seen, 0 before that.
    seen: AtomicU64,
    /// Whether so much time has passed since then that no line writes any more.
    over: AtomicBool,
    /// How many ports were made.
    made: AtomicU64,
    /// How many of them are served.
    begun: AtomicU64,
    /// The second after that in which want of descriptors was last told of, 0 before that.
    told: AtomicU64,
    /// The same of too many connections.
    told_of_many: AtomicU64,
    /// How many ports have a place here.
    placed: AtomicU64,
    /// A bit for each of them by its place: whether a connection waits at it.
    waited: [AtomicU64; WAITED],
}

// Written out, so that no crate above proves anew how each part is let go.
impl Drop for Stop {
    fn drop(self) {
        let Stop {
            asked: _,
            seen: _,
            over: _,
            made: _,
            begun: _,
            told: _,
            told_of_many: _,
            placed: _,
            waited: _,
        } = self;
    }
}

impl Stop {
    /// Nobody has asked yet, and no port was made.
    pub fn new() -> Stop {
        Stop {
            asked: AtomicBool::new(false),
            seen: AtomicU64::new(0),
            over: AtomicBool::new(false),
            made: AtomicU64::new(0),
            begun: AtomicU64::new(0),
            told: AtomicU64::new(0),
            told_of_many: AtomicU64::new(0),
            placed: AtomicU64::new(0),
            waited: [
                AtomicU64::new(0),
                AtomicU64::new(0),
                AtomicU64::new(0),
                AtomicU64::new(0),
                AtomicU64::new(0),
                AtomicU64::new(0),
                AtomicU64::new(0),
                AtomicU64::new(0),
                AtomicU64::new(0),
                AtomicU64::new(0),
                AtomicU64::new(0),
                AtomicU64::new(0),
                AtomicU64::new(0),
                AtomicU64::new(0),
                AtomicU64::new(0),
                AtomicU64::new(0),
            ],
        }
    }

    /// Asks: from now on each port ends, and each line hears the end of its input.
    pub fn ask(&self) {
        self.asked.store(true, Ordering::SeqCst);
    }

    /// Whether anybody has asked.
    pub fn is_asked(&self) -> bool {
        self.asked.load(Ordering::SeqCst)
    }

    /// Is told which second it is, again and again. By that it knows when the time is up that lines
    /// have, once it was asked.
    pub fn pass(&self, second: u64) {
        if !self.is_asked() {
            return;
        }
        let now = second.saturating_add(1);
        let seen = self
            .seen
            .compare_exchange(0, now, Ordering::SeqCst, Ordering::SeqCst);
        if let Err(first) = seen {
            if have_passed(first, LATE_SECONDS, now) {
                self.over.store(true, Ordering::SeqCst);
            }
        }
    }

    /// Whether the time is up that lines have once it was asked.
    pub(crate) fn is_over(&self) -> bool {
        self.over.load(Ordering::SeqCst)
    }

    /// Counts a port that was made.
    pub(crate) fn count_made(&self) {
        self.made.fetch_add(1, Ordering::SeqCst);
    }

    /// Counts a port that is served from now on.
    pub(crate) fn count_begun(&self) {
        self.begun.fetch_add(1, Ordering::SeqCst);
    }

    /// Whether all ports that were made are served.
    pub(crate) fn have_all_begun(&self) -> bool {
        self.begun.load(Ordering::SeqCst) >= self.made.load(Ordering::SeqCst)
    }

    /// A place for one more port.
    pub(crate) fn place(&self) -> u64 {
        self.placed.fetch_add(1, Ordering::SeqCst)
    }

    /// Is told whether a connection waits at the port of this place, by one thread alone.
    pub(crate) fn wait_at(&self, place: u64, waits: bool) {
        if let Some(bits) = self.waited.get((place / 64) as usize) {
            let others = bits.load(Ordering::SeqCst) & !bit_of(place);
            let own = if waits { bit_of(place) } else { 0 };
            bits.store(others | own, Ordering::SeqCst);
        }
    }

    /// Whether a connection waits at the port of this place.
    pub(crate) fn is_waited_at(&self, place: u64) -> bool {
        match self.waited.get((place / 64) as usize) {
            Some(bits) => bits.load(Ordering::SeqCst) & bit_of(place) != 0,
            None => false,
        }
    }

    /// Whether want of descriptors may be told of in this second: once a minute, by one port.
    pub(crate) fn may_tell(&self, second: u64) -> bool {
        may_tell(&self.told, second)
    }

    /// Whether it may be told in this second that there are too many connections: once a minute, of
    /// one port.
    pub(crate) fn may_tell_of_many(&self, second: u64) -> bool {
        may_tell(&self.told_of_many, second)
    }
}

/// The bit of a port of this place.
fn bit_of(place: u64) -> u64 {
    1 << (place % 64)
}

/// Whether something may be told of in this second that was told of last in the one before this
/// number, not yet at 0: once a minute, by whoever asks first.
pub(crate) fn may_tell(last: &AtomicU64, second: u64) -> bool {
    let told = last.load(Ordering::SeqCst);
    let now = second.saturating_add(1);
    if told != 0 && !have_passed(told, BETWEEN_LINES, now) {
        return false;
    }
    last.compare_exchange(told, now, Ordering::SeqCst, Ordering::SeqCst)
        .is_ok()
}

/// Whether so many seconds have passed between these two.
pub(crate) fn have_passed(first: u64, seconds: u64, now: u64) -> bool
    ensures { IsTrue result ↔ (first + seconds ≤ now) }
{
    match first.checked_add(seconds) {
        Some(end) => end <= now,
        None => false,
    }
}
