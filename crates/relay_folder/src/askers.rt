//! Those who have connected to the socket, and whose words aren't heard yet.
ghost use Rattle.std.specs.Prelude.{◌≤◌, vec_len};

use crate::teller::Teller;
use crate::waits::is_wait;
use crate::words::{LONGEST, Word, word_of};
use libc::net::POLLIN;
use libc::types::pollfd;
use std::alloc::Global;
use std::io::Read;
use std::os::fd::AsRawFd;
use std::os::unix::net::UnixStream;
use std::time::{Clock, Duration, Instant};

/// How many of them are waited for at a time, at most.
pub const WAITED_FOR: usize = 64;

/// For how many milliseconds the word of one is waited for, at most.
const HIS_TIME: u128 = 1000;

/// What was heard of one.
enum Heard {
    /// His word.
    Word(Word),
    /// Nothing, or a part of a word.
    Part,
    /// What is no word, or his end before it was one.
    NoWord,
    /// He is gone.
    Gone,
}

/// Whoever has connected, since when, and what he has said.
struct Asker {
    stream: UnixStream,
    begun: Instant,
    said: [u8; LONGEST],
    count: usize,
    ghost within: { count ≤ 7 },
}

// Written out, so that no crate above proves anew how each part is let go.
impl Drop for Asker {
    fn drop(self) {
        let Asker {
            stream: _,
            begun: _,
            said: _,
            count: _,
        } = self;
    }
}

impl Asker {
    /// What he has said until now.
    fn hear(&mut self) -> Heard {
        let mut from = &self.stream;
        match from.read(&mut self.said[self.count..]) {
            Ok(0) => return Heard::NoWord,
            Ok(n) => self.count += n,
            Err(error) => {
                return if is_wait(&error) {
                    Heard::Part
                } else {
                    Heard::Gone
                };
            }
        }
        match word_of(&self.said[..self.count]) {
            Some(word) => Heard::Word(word),
            None if self.count < LONGEST => Heard::Part,
            None => Heard::NoWord,
        }
    }

    /// Whether his word was waited for as long as it is.
    fn is_late<C: Clock>(&self, clock: &C) -> bool {
        match self.begun.elapsed(clock) {
            Ok(passed) => passed.as_millis() >= HIS_TIME,
            Err(_) => true,
        }
    }

    /// The connection with him.
    fn into_stream(self) -> UnixStream {
        let Asker {
            stream,
            begun: _,
            said: _,
            count: _,
        } = self;
        stream
    }
}

/// Those whose words are waited for, at most 64, in the order in which they came.
pub struct Askers {
    waiting: Vec<Asker>,
    ghost few: { vec_len waiting ≤ 64 },
}

// Written out, so that no crate above proves anew how each part is let go.
impl Drop for Askers {
    fn drop(self) {
        let Askers { waiting: _ } = self;
    }
}

impl Askers {
    ghost use Rattle.std.specs.Prelude.{◌<◌, IfSome, length};

    /// Nobody. It takes no memory.
    pub fn new(alloc: Global) -> Askers {
        Askers {
            waiting: Vec::new(alloc),
        }
    }

    /// One more, behind the others. Where there are as many as are waited for the first of them is
    /// let go, and where there is no clock or memory for him this one is.
    pub(crate) fn add<C: Clock>(&mut self, clock: &C, stream: UnixStream) {
        if stream.set_nonblocking(true).is_err() {
            return;
        }
        let Ok(begun) = Instant::now(clock) else {
            return;
        };
        if self.waiting.len() >= WAITED_FOR {
            drop(self.waiting.remove(0));
        }
        let _full = self.waiting.push(Asker {
            stream,
            begun,
            said: [0; LONGEST],
            count: 0,
        });
    }

    /// Has the system say which of them has said something: theirs are the places of these behind
    /// the first.
    pub(crate) fn put_into(&self, places: &mut [pollfd; WAITED_FOR + 1]) {
        for (place, asker) in places[1..].iter_mut().zip(self.waiting.iter()) {
            *place = pollfd {
                fd: asker.stream.as_raw_fd(),
                events: POLLIN,
                revents: 0,
            };
        }
    }

    /// The first of them who isn't waited for any more, and what was heard of him.
    fn heard<C: Clock>(&mut self, clock: &C) -> Option<(usize, Heard)>
        ensures place { IfSome result (λ one. one.0 < length self.new.waiting.items) }
    {
        for (i, asker) in self.waiting.iter_mut().enumerate() {
            match asker.hear() {
                Heard::Part => {
                    if asker.is_late(clock) {
                        return Some((i, Heard::NoWord));
                    }
                }
                heard => return Some((i, heard)),
            }
        }
        None
    }

    /// The word of the first of them who isn't waited for any more, and who he is. Where he has
    /// said what is none, or has said nothing for as long as he was waited for, he is told so and
    /// let go.
    pub(crate) fn next_word<C: Clock>(&mut self, clock: &C) -> Option<(Word, Teller)> {
        let (i, heard) = self.heard(clock)?;
        let stream = self.waiting.remove(i).into_stream();
        match heard {
            Heard::Word(word) => Some((word, Teller::of_asker(stream)?)),
            Heard::NoWord => {
                Teller::of_asker(stream)?.tell(clock, b"?\n");
                None
            }
            Heard::Part | Heard::Gone => None,
        }
    }

    /// The first of them, whatever he has said.
    pub(crate) fn next_one(&mut self) -> Option<Teller> {
        if self.waiting.is_empty() {
            return None;
        }
        Some(Teller::new(self.waiting.remove(0).into_stream()))
    }
}
