//! Whoever waits at a port all of whose connections are taken.
ghost use Rattle.std.specs.Prelude.{◌≡◌, ◌+◌, ◌-◌, ◌^◌, true, false};
ghost use Rattle.std.specs.Prelude.{min};

use crate::callers::Callers;
use crate::listeners::Listeners;
use crate::stop::{Stop, have_passed};
use std::io;
use std::io::Write;
use std::net::{Shutdown, TcpStream};
use std::sync::atomic::{AtomicU64, Ordering};
use std::time::Clock;

/// For how many seconds the first who waits does so for one of the port's ends, at least.
const PATIENCE: u64 = 2;

/// What one is told that waited for longer (RFC 3977 section 5.1.1).
const REFUSAL: &[u8] = b"400 Too many connections\r\n";

/// The number of no second.
const NEVER: u64 = u64::MAX;

/// The door of a port, at which connections wait until one of the port's ends takes them.
pub struct Door<'a> {
    listeners: Listeners,
    /// Who may connect.
    callers: &'a Callers<'a>,
    /// By what the port is told to end.
    stop: &'a Stop,
    /// The place of the port there.
    place: u64,
    /// The second behind the one in which it was first seen that he waits who is the first now.
    since: AtomicU64,
    /// How many the port's ends had taken when it was last looked.
    taken: AtomicU64,
}

// Written out, so that no crate above proves anew how each part is let go.
impl Drop for Door<'_> {
    fn drop(self) {
        let Door {
            listeners: _,
            callers: _,
            stop: _,
            place: _,
            since: _,
            taken: _,
        } = self;
    }
}

impl<'a> Door<'a> {
    /// The door of the port that listens so.
    pub(crate) fn of(
        listeners: Listeners,
        callers: &'a Callers<'a>,
        stop: &'a Stop,
        place: u64,
    ) -> Door<'a> {
        Door {
            listeners,
            callers,
            stop,
            place,
            since: AtomicU64::new(NEVER),
            taken: AtomicU64::new(0),
        }
    }

    /// Looks at the door in this second. Where some wait there, a connection of the port makes room
    /// that was silent for a minute. Where the first of them has waited for two seconds he is told
    /// that there are too many, and let go; one from an address that may not connect is closed
    /// without a word.
    pub fn look<C: Clock + Eprint>(&self, rt: &C, second: u64) {
        let waits = self.has_waiting();
        self.stop.wait_at(self.place, waits);
        // Where an end has taken one since the last look the first is another.
        let taken = self.callers.taken();
        let is_new = self.taken.swap(taken, Ordering::SeqCst) != taken;
        let since = waits_since(self.since.load(Ordering::SeqCst), waits, is_new, second);
        self.since.store(since, Ordering::SeqCst);
        if have_passed(since, PATIENCE, second) {
            self.refuse(rt, second);
        }
    }

    /// Whether a connection waits while the port takes connections.
    fn has_waiting(&self) -> bool {
        if self.stop.is_asked() || !self.stop.have_all_begun() {
            return false;
        }
        matches!(self.listeners.has_one(0), Ok(true))
    }

    /// Tells the first who waits that there are too many, where an end of the port hasn't taken him
    /// meanwhile; that this was so is told in one line a minute at most.
    fn refuse<R: Eprint>(&self, rt: &R, second: u64) {
        let Ok((stream, from)) = self.listeners.accept() else {
            return;
        };
        let Some(stream) = self.callers.let_in(stream, from) else {
            let _unseen = self.callers.refuse(rt, &self.listeners, from, second);
            return;
        };
        let _lost = dismiss(&stream);
        if self.stop.may_tell_of_many(second) {
            let _unseen = self.tell(rt);
        }
    }

    /// Tells that a connection of the port was refused.
    fn tell<R: Eprint>(&self, rt: &R) -> io::Result<()> {
        let number = self.listeners.number()?;
        eprintln!(rt; "refused port={number} for=connections")
    }
}

/// The second from which on he waits who is the first, whole, where it was this one before, and now
/// some wait or none, of whom the first is new or not. Where none waits it is that of no second.
fn waits_since(since: u64, waits: bool, is_new: bool, second: u64) -> u64
    ensures nobody { waits ≡ false → result ≡ 2 ^ 64 - 1 }
    ensures new { waits ≡ true → is_new ≡ true → result ≡ min (second + 1) (2 ^ 64 - 1) }
    ensures known { waits ≡ true → is_new ≡ false
        → result ≡ min since (min (second + 1) (2 ^ 64 - 1)) }
{
    if !waits {
        return NEVER;
    }
    let next = second.saturating_add(1);
    if is_new { next } else { since.min(next) }
}

/// Tells who is connected that there are too many, without waiting for him.
fn dismiss(stream: &TcpStream) -> io::Result<()> {
    stream.set_nonblocking(true)?;
    let mut to = stream;
    to.write_all(REFUSAL)?;
    stream.shutdown(Shutdown::Write)
}
