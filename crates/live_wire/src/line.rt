//! A connection of a peer, which waits in parts.
ghost use Rattle.std.specs.Prelude.{◌≡◌, ◌<◌, ◌↔◌, ℕ, IfErr, IfOk, IfSome, IsErrAnd, IsTrue};
ghost use Rattle.std.specs.Prelude.{Err, None, Ok, Some};
ghost use Rattle.std.specs.Io.{WritesAtMost};
ghost use Rattle.std.specs.IoError.{error_kind};
ghost use Rattle.live_wire.specs.Waits.{IsLate, IsWait};

use crate::stop::Stop;
use std::io;
use std::io::{ErrorKind, Read, Write};
use std::net::{Ipv6Addr, Shutdown, TcpStream};
use std::time::{Clock, Duration, Instant};

/// How many milliseconds a wait for a peer takes at once. Between two waits a line looks whether it
/// is to stop.
const PART: u64 = 500;

/// How many such parts make a second.
const PARTS_A_SECOND: u32 = 2;

/// For how many parts in a row a peer is silent before its connection makes room for another that
/// waits at its port: a minute.
const SILENT_PARTS: u32 = 60 * PARTS_A_SECOND;

/// How many milliseconds a wait takes at once after the session has ended, or is to stop.
const LATE_PART: u64 = 100;

/// How many such parts in a row a write waits once it is to stop, while nothing goes.
const LATE_PARTS: u32 = 30;

/// For how many milliseconds what a peer sends on is read and dropped once its session has ended.
const DROPPING: u64 = 5_000;

/// The same once the relay is to stop.
const DROPPING_LATE: u64 = 500;

/// How many octets are dropped so, at most.
const MOST_DROPPED: usize = 1 << 20;

/// How many octets are dropped at once, at most.
const DROPPED_AT_ONCE: usize = 4_096;

/// One side of a peer's connection. It waits for its peer in parts of a second: it reads the end of
/// the input once the relay is to stop or the peer has been silent for too many of them, or for a
/// minute while another of its connections waits at its port. A write
/// fails once the peer has taken nothing for too many of them, which are fewer once the relay is to
/// stop, or once the time is up that lines have then.
#[derive(Drop)]
pub struct Line<'a> {
    stream: TcpStream,
    /// The address that it comes from.
    from: Ipv6Addr,
    stop: &'a Stop,
    /// The place of its port.
    place: u64,
    /// How many parts in a row it waits for its peer.
    parts: u32,
}

impl<'a> Line<'a> {
    /// Both sides of a connection from this address, each of which waits for so many seconds. Small
    /// writes are sent at once.
    pub(crate) fn both(
        stream: TcpStream,
        from: Ipv6Addr,
        stop: &'a Stop,
        place: u64,
        patience: u32,
    ) -> io::Result<(Line<'a>, Line<'a>)>
        ensures { IfOk result (λ pair. pair.0.from ≡ from) }
    {
        stream.set_nodelay(true)?;
        stream.set_read_timeout(Some(Duration::from_millis(PART)))?;
        stream.set_write_timeout(Some(Duration::from_millis(PART)))?;
        let other = stream.try_clone()?;
        let parts = patience.saturating_mul(PARTS_A_SECOND);
        let reader = Line {
            stream,
            from,
            stop,
            place,
            parts,
        };
        let writer = Line {
            stream: other,
            from,
            stop,
            place,
            parts,
        };
        Ok((reader, writer))
    }

    /// The address that it comes from.
    pub(crate) fn from(&self) -> Ipv6Addr
        ensures { result ≡ self.now.from }
    {
        self.from
    }

    /// Whether it makes room for another connection that waits at its port: the peer was silent for
    /// so many parts, which are a minute at least.
    fn makes_room(&self, silent: u32) -> bool {
        silent >= SILENT_PARTS && self.stop.is_waited_at(self.place)
    }

    /// Lets the peer read all that was written, where it does so in time: it is told that no more
    /// comes, and what it still sends is read and dropped until it has sent its last. A connection
    /// that is closed with octets unread is reset, and what the peer hasn't read yet may be lost.
    pub(crate) fn finish<C: Clock>(&self, clock: &C) -> io::Result<()> {
        self.stream.shutdown(Shutdown::Write)?;
        self.stream
            .set_read_timeout(Some(Duration::from_millis(LATE_PART)))?;
        self.drop_rest(clock, &Instant::now(clock)?)
    }

    /// Writes once, once it is to stop. Only parts of the wait in which nothing went are counted,
    /// so that a peer that takes what it is sent is sent all of it, until the time is up.
    fn write_late(&mut self, buf: &[u8]) -> io::Result<usize>
        ensures { WritesAtMost result buf.now }
    {
        self.stream
            .set_write_timeout(Some(Duration::from_millis(LATE_PART)))?;
        for _ in 0..LATE_PARTS {
            if self.stop.is_over() {
                return Ok(0);
            }
            if let Some(answer) = came_of(self.stream.write(buf)) {
                return answer;
            }
        }
        Ok(0)
    }

    /// Drops what the peer still sends, until its last octet or for as long as that may take.
    fn drop_rest<C: Clock>(&self, clock: &C, begun: &Instant) -> io::Result<()> {
        let mut dropped: usize = 0;
        for _ in 0..MOST_DROPPED {
            if dropped >= MOST_DROPPED || begun.elapsed(clock)? >= self.longest() {
                return Ok(());
            }
            match self.drop_some()? {
                Some(octets) => dropped = dropped.saturating_add(octets),
                None => return Ok(()),
            }
        }
        Ok(())
    }

    /// For how long what the peer sends on is read and dropped.
    fn longest(&self) -> Duration {
        if self.stop.is_asked() {
            Duration::from_millis(DROPPING_LATE)
        } else {
            Duration::from_millis(DROPPING)
        }
    }

    /// Reads once, and drops what came: how many octets, of which there are none where a part of
    /// the wait has passed; `None` at the end of the input.
    fn drop_some(&self) -> io::Result<Option<usize>> {
        let mut room = [0; DROPPED_AT_ONCE];
        dropped_in((&self.stream).read(&mut room))
    }
}

impl Read for Line<'_> {
    fn read(&mut self, buf: &mut [u8]) -> io::Result<usize> {
        for silent in 0..self.parts {
            if self.stop.is_asked() || self.makes_room(silent) {
                return Ok(0);
            }
            if let Some(answer) = came_of(self.stream.read(buf)) {
                return answer;
            }
        }
        Ok(0)
    }
}

impl Write for Line<'_> {
    fn write(&mut self, buf: &[u8]) -> io::Result<usize> {
        for _ in 0..self.parts {
            if self.stop.is_asked() {
                return self.write_late(buf);
            }
            if let Some(answer) = came_of(self.stream.write(buf)) {
                return answer;
            }
        }
        Ok(0)
    }

    fn flush(&mut self) -> io::Result<()> {
        Ok(())
    }
}

/// What came of a try to read or to write: none where a part of the wait has passed, and nothing
/// came or went.
fn came_of(answer: io::Result<usize>) -> Option<io::Result<usize>>
    ensures late { (result ≡ None) ↔ IsErrAnd answer (λ error. IsLate (error_kind error)) }
    ensures came { IfSome result (λ came. came ≡ answer) }
{
    match answer {
        Err(error) if is_late(&error) => None,
        other => Some(other),
    }
}

/// How many octets were dropped by a read, none where a part of its wait has passed or a signal
/// came first; `None` at the end of the input. The error is the read's.
fn dropped_in(answer: io::Result<usize>) -> io::Result<Option<usize>>
    ensures end { answer ≡ Ok 0 → result ≡ Ok None }
    ensures some { (n : ℕ) → answer ≡ Ok n → 0 < n → result ≡ Ok (Some n) }
    ensures wait { IfErr answer (λ error. IsWait (error_kind error) → result ≡ Ok (Some 0)) }
    ensures failed { IfErr result (λ failure. answer ≡ Err failure) }
{
    match answer {
        Ok(0) => Ok(None),
        Ok(octets) => Ok(Some(octets)),
        Err(error) if is_wait(&error) => Ok(Some(0)),
        Err(error) => Err(error),
    }
}

/// Whether a part of a wait has passed, and nothing came or went.
fn is_late(error: &io::Error) -> bool
    ensures { IsTrue result ↔ IsLate (error_kind error.now) }
{
    matches!(error.kind(), ErrorKind::WouldBlock | ErrorKind::TimedOut)
}

/// Whether a part of a wait has passed, or a signal came first.
pub(crate) fn is_wait(error: &io::Error) -> bool
    ensures { IsTrue result ↔ IsWait (error_kind error.now) }
{
    is_late(error) || error.kind() == ErrorKind::Interrupted
}
