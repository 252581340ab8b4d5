//! A port of a peer.
ghost use Rattle.std.specs.Prelude.{◌≡◌, true, IfOk, IfSome};
ghost use Rattle.std.specs.Net.Addr.{ipv6_octets};
ghost use Rattle.live_wire.specs.Callers.{may_call};
ghost use Rattle.live_wire.specs.Ports.{callers_of, left_of};

use crate::callers::Callers;
use crate::connections::Connections;
use crate::door::Door;
use crate::line::{Line, is_wait};
use crate::listeners::Listeners;
use crate::stop::Stop;
use crate::wire::{RecordingReader, RecordingWriter};
use std::alloc::Global;
use std::net::{Ipv6Addr, Net, TcpListener, TcpStream};
use std::sync::Wait;
use std::sync::atomic::{AtomicBool, Ordering};
use std::time::{Clock, Duration};
use std::{io, thread};

/// How many milliseconds it waits for a connection at once. Between two waits it looks whether it
/// is to stop.
const PART: i32 = 500;

/// How many milliseconds it waits after a connection could not be taken, and between two looks
/// whether all ports are served.
const PAUSE: u64 = 10;

/// The same where the machine has no further descriptor: long enough for others to get one.
const LONG_PAUSE: u64 = 1_000;

/// The system's numbers for want of descriptors: of the machine (ENFILE), of the program (EMFILE).
const NO_DESCRIPTOR: [i32; 2] = [23, 24];

/// A port of a peer, on each address of the machine that the settings name.
pub struct Port<'a> {
    listeners: Listeners,
    /// How many connections it still takes; without a number it never ends by itself.
    left: Option<u32>,
    /// Who may connect.
    callers: &'a Callers<'a>,
    /// By what it is told to end.
    stop: &'a Stop,
    /// Its place there.
    place: u64,
    /// For how many seconds in a row its connections wait for the peer.
    patience: u32,
    /// Whether it is served.
    is_served: AtomicBool,
}

// Written out, so that no crate above proves anew how each part is let go.
impl Drop for Port<'_> {
    fn drop(self) {
        let Port {
            listeners: _,
            left: _,
            callers: _,
            stop: _,
            place: _,
            patience: _,
            is_served: _,
        } = self;
    }
}

impl<'a> Port<'a> {
    /// Listens on this port of each address that the settings name, for so many connections of
    /// these callers, until it is told to stop. The error is the system's, or want of memory.
    pub fn listen<N: Net<Listener = TcpListener, Stream = TcpStream>>(
        net: &N,
        alloc: Global,
        port: u16,
        connections: Option<u32>,
        callers: &'a Callers<'a>,
        stop: &'a Stop,
    ) -> io::Result<Port<'a>>
        ensures left { IfOk result (λ port. left_of port ≡ connections) }
        ensures callers { IfOk result (λ port. callers_of port ≡ callers.now) }
    {
        let relay = callers.relay();
        let listeners = Listeners::bind(net, alloc, &relay.binds, port)?;
        stop.count_made();
        Ok(Port {
            listeners,
            left: connections,
            callers,
            stop,
            place: stop.place(),
            patience: relay.patience,
            is_served: AtomicBool::new(false),
        })
    }

    /// The same port for a further end, which takes as many connections as this one still does, of
    /// the same callers. Each connection is given by one of them. The error is the system's, or
    /// want of memory.
    pub fn another(&self) -> io::Result<Port<'a>>
        ensures left { IfOk result (λ port. left_of port ≡ left_of self.now) }
        ensures callers { IfOk result (λ port. callers_of port ≡ callers_of self.now) }
    {
        let listeners = self.listeners.try_clone()?;
        self.stop.count_made();
        Ok(Port {
            listeners,
            left: self.left,
            callers: self.callers,
            stop: self.stop,
            place: self.place,
            patience: self.patience,
            is_served: AtomicBool::new(false),
        })
    }

    /// Its door, at which connections wait that none of its ends has taken. The error is the
    /// system's, or want of memory.
    pub fn door(&self) -> io::Result<Door<'a>> {
        Ok(Door::of(
            self.listeners.try_clone()?,
            self.callers,
            self.stop,
            self.place,
        ))
    }

    /// Its number, where the system chose it.
    pub fn number(&self) -> io::Result<u16> {
        self.listeners.number()
    }

    /// Counts this port as one that is served, once.
    pub(crate) fn begin(&self) {
        if !self.is_served.swap(true, Ordering::SeqCst) {
            self.stop.count_begun();
        }
    }

    /// Takes one connection, where one has come that no other end behind this port has taken. One
    /// from an address that may not connect is closed, and there is none.
    fn accept<R: Clock + Eprint>(&self, rt: &R) -> io::Result<Option<(Line<'a>, Line<'a>)>>
        ensures { IfOk result (λ taken. IfSome taken
            (λ pair. may_call (callers_of self.now) (ipv6_octets pair.0.from) ≡ true)) }
    {
        let (stream, from) = self.listeners.accept()?;
        self.callers.count_taken();
        let Some(stream) = self.callers.let_in(stream, from) else {
            let _unseen = self.refuse(rt, from);
            return Ok(None);
        };
        Ok(Some(Line::both(stream, from, self.stop, self.place, self.patience)?))
    }

    /// Counts a connection from an address that may not connect, and tells of such.
    fn refuse<R: Clock + Eprint>(&self, rt: &R, from: Ipv6Addr) -> io::Result<()> {
        let second = rt.monotonic()?.as_secs();
        self.callers.refuse(rt, &self.listeners, from, second)
    }

    /// Waits until a connection has come, or a part of the wait has passed: whether one has come.
    /// The end of the wait is a moment of the machine's clock: where the program is stopped and
    /// goes on it comes no later. Where the wait of `accept` is interrupted it begins anew.
    fn has_one<C: Clock>(&self, clock: &C) -> bool {
        match self.listeners.has_one(PART) {
            Ok(has) => has,
            Err(_) => {
                thread::sleep(clock, Duration::from_millis(PAUSE));
                false
            }
        }
    }

    /// Waits until all ports are served, then for a connection, both in parts; none comes once it
    /// is to stop.
    fn wait<R: Wait + Clock + Eprint>(&self, rt: &R) -> Option<(Line<'a>, Line<'a>)>
        ensures { IfSome result
            (λ pair. may_call (callers_of self.now) (ipv6_octets pair.0.from) ≡ true) }
    {
        for _ in rt.forever() {
            if self.stop.is_asked() {
                return None;
            }
            if !self.stop.have_all_begun() {
                thread::sleep(rt, Duration::from_millis(PAUSE));
                continue;
            }
            if !self.has_one(rt) {
                continue;
            }
            match self.accept(rt) {
                Ok(Some(pair)) => return Some(pair),
                Ok(None) => {}
                Err(error) if is_wait(&error) => {}
                Err(error) => self.pause(rt, &error),
            }
        }
        unreachable!()
    }

    /// Waits a little after a connection could not be taken. Where the machine has no further
    /// descriptor that is told, in one line a minute at most.
    fn pause<R: Clock + Eprint>(&self, rt: &R, error: &io::Error) {
        let mut pause = PAUSE;
        if is_want_of_descriptors(error) {
            let _unseen = self.tell(rt);
            pause = LONG_PAUSE;
        }
        thread::sleep(rt, Duration::from_millis(pause));
    }

    /// Tells that there is no descriptor for a connection of this port.
    fn tell<R: Clock + Eprint>(&self, rt: &R) -> io::Result<()> {
        if !self.stop.may_tell(rt.monotonic()?.as_secs()) {
            return Ok(());
        }
        eprintln!(rt; "waiting port={} for=descriptors", self.number()?)
    }
}

/// Whether the machine or the program has no further descriptor.
fn is_want_of_descriptors(error: &io::Error) -> bool {
    match error.raw_os_error() {
        Some(number) => NO_DESCRIPTOR.contains(&number),
        None => false,
    }
}

impl<'a, R: Wait + Clock + Eprint> Connections<R> for Port<'a> {
    ghost use Rattle.std.specs.Prelude.{◌≡◌, [], Some, None, IfSome, IsSome};
    ghost use Rattle.live_wire.specs.Wire.{heard_by, said_by};
    ghost use Rattle.std.specs.Prelude.{true};
    ghost use Rattle.live_wire.specs.Callers.{may_call};
    ghost use Rattle.live_wire.specs.Ports.{callers_of, comes_from, left_of, OneLess};

    type Reader = RecordingReader<Line<'a>>;

    type Writer = RecordingWriter<Line<'a>>;

    /// None once it has given as many connections as it was to take, or is to stop. No connection
    /// is taken before all ports that were made are served. What it can't take is let go, and it
    /// waits for the next.
    fn next_one(&mut self, rt: &R) -> Option<(RecordingReader<Line<'a>>, RecordingWriter<Line<'a>>)>
        ensures new { IfSome result (λ pair. (heard_by pair.0 ≡ []) × (said_by pair.1 ≡ [])) }
        ensures none { left_of self.old ≡ Some 0 → (result ≡ None) × (self.new ≡ self.old) }
        ensures same { result ≡ None → self.new ≡ self.old }
        ensures one { IsSome result → OneLess (left_of self.old) (left_of self.new) }
        ensures callers { callers_of self.new ≡ callers_of self.old }
        ensures allowed { IfSome result
            (λ pair. may_call (callers_of self.old) (comes_from pair.0) ≡ true) }
    {
        self.begin();
        let later = match self.left {
            Some(0) => return None,
            Some(left) => Some(left - 1),
            None => None,
        };
        let (reader, writer) = self.wait(rt)?;
        self.left = later;
        Some((RecordingReader::new(reader), RecordingWriter::new(writer)))
    }

    fn caller(&self, reader: &RecordingReader<Line<'a>>) -> Ipv6Addr
        ensures { ipv6_octets result ≡ comes_from reader.now }
    {
        reader.reader().from()
    }

    /// The peer is let to read what was written, at most for some seconds, then it is closed.
    fn let_go(
        &mut self,
        rt: &R,
        reader: RecordingReader<Line<'a>>,
        writer: RecordingWriter<Line<'a>>,
    )
        ensures same { self.new ≡ self.old }
    {
        drop(writer);
        let _lost = reader.into_reader().finish(rt);
    }

    /// All ports are told to end.
    fn give_up(&mut self, _rt: &R)
        ensures same { self.new ≡ self.old }
    {
        self.stop.ask();
    }
}
