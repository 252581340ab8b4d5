//! Readers and writers that tell their octets.
ghost use Rattle.std.specs.Prelude.{◌≡◌, ◌≢◌, ◌≤◌, ◌<◌, ◌+◌, ◌++◌, ℕ, List, []};
ghost use Rattle.std.specs.Prelude.{IfOk, OnErr, OnOk, IfErr, IfNone, IfSome, Option, Ok, Some};
ghost use Rattle.std.specs.Prelude.{None, length, take, drop};
ghost use Rattle.std.specs.IoError.{error_kind};
ghost use Rattle.std.specs.declared.io.ErrorKind.TheVariants.{Interrupted};
ghost use Rattle.std.specs.Io.KnownBytes.{ReadConsumes, WriteAppends};
ghost use Rattle.live_wire.specs.Wire.{heard_of, said_of};

use http_server::Log;
use std::io;
use std::io::{ErrorKind, Read, Write};

/// A reader that tells what was read.
pub trait Hears {
    /// All that was read.
    ghost heard: { Self → List ℕ };

    /// What is still to be read, where that is known of what it reads from: of octets in memory it
    /// is, of a socket it isn't.
    ghost left: { Self → Option (List ℕ) };

    /// Reads once, to the front of the room: how many octets came, none at the end of the input.
    /// The error is the reader's; then nothing was read.
    fn hear(&mut self, room: &mut Vec<u8>) -> io::Result<usize>
        ensures ok { IfOk result (λ n. (n ≤ length room.new.items)
            × (heard self.new ≡ heard self.old ++ take n room.new.items)) }
        ensures err { OnErr result (heard self.new ≡ heard self.old) }
        // These octets came from what it reads from, and no others left that.
        ensures taken { ReadConsumes (left self.old) (left self.new) result room.new.items };
}

/// A writer that tells what was written.
pub trait Says {
    /// All that was written.
    ghost said: { Self → List ℕ };

    /// What stands in what it writes to, where that is known: of octets in memory it is, of a
    /// socket it isn't.
    ghost held: { Self → Option (List ℕ) };

    /// Writes once, the octets from a place on: how many of them went. The error is the writer's;
    /// then nothing was written.
    fn say(&mut self, octets: &Vec<u8>, from: usize) -> io::Result<usize>
        requires { from ≤ length octets.now.items }
        ensures ok { IfOk result (λ n. (from + n ≤ length octets.now.items)
            × (said self.new ≡ said self.old ++ take n (drop from octets.now.items))) }
        ensures err { OnErr result (said self.new ≡ said self.old) }
        // These octets went to what it writes to, and no others.
        ensures given { WriteAppends (held self.old) (held self.new) result
            (drop from octets.now.items) };
}

/// Any reader of std.
#[derive(Drop)]
pub struct RecordingReader<R: Read> {
    reader: R,
    heard: Log<Vec<u8>, usize>,
}

impl<R: Read> RecordingReader<R> {
    /// A reader of which nothing was read.
    pub fn new(reader: R) -> RecordingReader<R>
        ensures { (heard_of result.heard.items ≡ []) × (result.reader ≡ reader) }
    {
        RecordingReader {
            reader,
            heard: Log::new(),
        }
    }

    /// The reader below, which stays there.
    pub(crate) fn reader(&self) -> &R
        ensures { result.now ≡ self.now.reader }
    {
        &self.reader
    }

    /// The reader below.
    pub fn into_reader(self) -> R
        ensures { result ≡ self.reader }
    {
        self.reader
    }
}

impl<R: Read> Hears for RecordingReader<R> {
    ghost heard = { λ e. heard_of e.heard.items };

    ghost left = { λ e. R.remaining e.reader };

    fn hear(&mut self, room: &mut Vec<u8>) -> io::Result<usize> {
        match self.reader.read(room.as_mut_slice()) {
            Ok(n) => {
                self.heard = self.heard.and(room, &n);
                Ok(n)
            }
            Err(e) => Err(e),
        }
    }
}

/// Any writer of std.
#[derive(Drop)]
pub struct RecordingWriter<W: Write> {
    writer: W,
    said: Log<Vec<u8>, (usize, usize)>,
}

impl<W: Write> RecordingWriter<W> {
    /// A writer to which nothing was written.
    pub fn new(writer: W) -> RecordingWriter<W>
        ensures { (said_of result.said.items ≡ []) × (result.writer ≡ writer) }
    {
        RecordingWriter {
            writer,
            said: Log::new(),
        }
    }
}

impl<W: Write> Says for RecordingWriter<W> {
    ghost said = { λ m. said_of m.said.items };

    ghost held = { λ m. W.contents m.writer };

    fn say(&mut self, octets: &Vec<u8>, from: usize) -> io::Result<usize> {
        let rest = &octets.as_slice()[from..];
        match self.writer.write(rest) {
            Ok(n) => {
                self.said = self.said.and(octets, &(from, n));
                Ok(n)
            }
            Err(e) => Err(e),
        }
    }
}

/// Writes all octets, in as many writes as that takes. Where the writer fails, or takes none, the
/// error is how many octets went before.
pub fn say_all<W: Says>(writer: &mut W, octets: &Vec<u8>) -> Result<(), usize>
    ensures all { OnOk result (W.said writer.new ≡ W.said writer.old ++ octets.now.items) }
    ensures part { IfErr result (λ n. W.said writer.new
        ≡ W.said writer.old ++ take n octets.now.items) }
    ensures short { IfErr result (λ n. n < length octets.now.items) }
{
    let mut at = 0;
    for _ in 0..u64::MAX {
        if at >= octets.len() {
            return Ok(());
        }
        match say_on(writer, octets, at) {
            Some(n) => at += n,
            None => return Err(at),
        }
    }
    if at >= octets.len() {
        return Ok(());
    }
    Err(at)
}

/// One write of the octets from a place on: how many went, none where a signal came first. `None`
/// where the writer failed or takes no more; then nothing was written.
fn say_on<W: Says>(writer: &mut W, octets: &Vec<u8>, from: usize) -> Option<usize>
    requires { from ≤ length octets.now.items }
    ensures went { IfSome result (λ n. (from + n ≤ length octets.now.items)
        × (W.said writer.new ≡ W.said writer.old ++ take n (drop from octets.now.items))) }
    ensures none { IfNone result (W.said writer.new ≡ W.said writer.old) }
{
    went(writer.say(octets, from))
}

/// How many octets went in a write, none where a signal came first. `None` where it failed, or
/// went no further.
fn went(answer: io::Result<usize>) -> Option<usize>
    ensures some { (n : ℕ) → answer ≡ Ok n → 0 < n → result ≡ Some n }
    ensures no_further { answer ≡ Ok 0 → result ≡ None }
    ensures interrupted { IfErr answer (λ error. error_kind error ≡ Interrupted
        → result ≡ Some 0) }
    ensures failed { IfErr answer (λ error. error_kind error ≢ Interrupted → result ≡ None) }
{
    match answer {
        Ok(n) if n > 0 => Some(n),
        Ok(_) => None,
        Err(error) if error.kind() == ErrorKind::Interrupted => Some(0),
        Err(_) => None,
    }
}
