//! The socket of a relay that is served.
use crate::askers::{Askers, WAITED_FOR};
use crate::socket_place::{Identity, listen_in, take_away};
use crate::teller::Teller;
use crate::waits::is_wait;
use crate::words::Word;
use libc::net::{POLLIN, poll};
use libc::types::pollfd;
use std::alloc::Global;
use std::fs::Files;
use std::net::Net;
use std::os::fd::AsRawFd;
use std::os::unix::net::UnixListener;
use std::sync::atomic::{AtomicBool, Ordering};
use std::time::{Clock, Duration};
use std::{io, thread};

/// How many milliseconds it waits at once for whoever asks.
const PART: i32 = 100;

/// How many milliseconds it waits after nobody could be heard for another cause, as where the
/// machine has no further descriptor.
const PAUSE: u64 = 10;

/// The socket, while the relay is served.
pub struct Control {
    listener: UnixListener,
    /// Which file it is.
    identity: Identity,
    /// Whether nobody is waited for any more.
    is_closed: AtomicBool,
}

// Written out, so that no crate above proves anew how each part is let go.
impl Drop for Control {
    fn drop(self) {
        let Control {
            listener: _,
            identity: _,
            is_closed: _,
        } = self;
    }
}

impl Control {
    /// Listens in a folder. A socket that another relay left there is taken away; where another
    /// relay is served in the folder, or what stands there is no socket, it can't be had.
    pub fn listen<R: Files + Net>(rt: &R, alloc: Global, folder: &str) -> io::Result<Control> {
        let control = listen_in(rt, alloc, folder)?;
        match control.listener.set_nonblocking(true) {
            Ok(()) => Ok(control),
            Err(error) => Err(error),
        }
    }

    /// The socket that listens and is this file.
    pub(crate) fn over(listener: UnixListener, identity: Identity) -> Control {
        Control {
            listener,
            identity,
            is_closed: AtomicBool::new(false),
        }
    }

    /// Waits until somebody connects, one of those who have says something, or a part of the wait
    /// has passed: whether somebody connects. The end of the wait is a moment of the machine's
    /// clock: where the program is stopped and goes on it comes no later. Where the wait of
    /// `accept` is interrupted it begins anew.
    fn has_one<C: Clock>(&self, clock: &C, askers: &Askers) -> bool {
        let nobody = pollfd {
            fd: -1,
            events: 0,
            revents: 0,
        };
        let mut ready = [nobody; WAITED_FOR + 1];
        ready[0] = pollfd {
            fd: self.listener.as_raw_fd(),
            events: POLLIN,
            revents: 0,
        };
        askers.put_into(&mut ready);
        let part = if self.is_closed.load(Ordering::SeqCst) {
            0
        } else {
            PART
        };
        if poll(&mut ready, part) < 0 {
            thread::sleep(clock, Duration::from_millis(PAUSE));
            return false;
        }
        ready[0].revents != 0
    }

    /// Whoever connects next is one of those whose words are waited for: nobody where none has for
    /// a part of a second.
    fn accept_one<C: Clock>(&self, clock: &C, askers: &mut Askers) {
        if !self.has_one(clock, askers) {
            return;
        }
        match self.listener.accept() {
            Ok((stream, _address)) => askers.add(clock, stream),
            Err(error) => {
                if !is_wait(&error) {
                    thread::sleep(clock, Duration::from_millis(PAUSE));
                }
            }
        }
    }

    /// What is asked for next, and by whom: none where nobody has said a word for a part of a
    /// second, or what was said is none; then he is told so. Nobody waits for another's word.
    pub fn next_word<C: Clock>(&self, clock: &C, askers: &mut Askers) -> Option<(Word, Teller)> {
        self.accept_one(clock, askers);
        askers.next_word(clock)
    }

    /// Whoever asks next, whatever for: his word isn't waited for.
    pub fn next_one<C: Clock>(&self, clock: &C, askers: &mut Askers) -> Option<Teller> {
        self.accept_one(clock, askers);
        askers.next_one()
    }

    /// Takes the socket away from its folder, where it is this one. Who has asked meanwhile is
    /// still given, and nobody is waited for.
    pub fn close<R: Files>(&self, rt: &R, alloc: Global, folder: &str) {
        let _left = take_away(rt, alloc, folder, self.identity);
        self.is_closed.store(true, Ordering::SeqCst);
    }
}
