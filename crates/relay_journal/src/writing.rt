//! A journal is written in its file.
ghost use Rattle.std.specs.Prelude.{◌≡◌, ◌∷◌, [], IfOk, OnOk, true};
ghost use Rattle.relay_journal.specs.Beginning.{IsBegun};
ghost use Rattle.relay_journal.specs.Writing.{Begins, Fails, Flushes, IsNewWriter, MakesReady};
ghost use Rattle.relay_journal.specs.Writing.{Puts, TellsLeft, Writes, is_ready};

use crate::lines::{JournalLine, JournalLines, ToldJournal};
use relay_folder::{HistoryPlace, JournalFile, JournalPlace, keep};
use relay_log::begin;
use std::alloc::{AllocError, Global};
use std::io;

/// How many octets of entries are put behind a journal until a new one is begun, so that a start
/// has memory for what it reads.
const MOST_OCTETS: u64 = 268_435_456;

/// A journal without entries that is kept, and its file.
#[derive(Drop)]
pub struct BegunJournal<F> {
    file: F,
    /// Its text.
    front: Vec<u8>,
}

/// Begins a journal of this stop in the place of the one that is kept, and opens its file. Where
/// that fails it is told, and there is none. The error is want of memory.
pub fn begin_journal<P: JournalPlace, L: JournalLines>(
    alloc: Global,
    journal: &mut ToldJournal<P, L>,
    stop: u64,
) -> Result<Option<BegunJournal<P::Open>>, AllocError>
    ensures { IfOk result (IsBegun ⟦<P as HistoryPlace>⟧ ⟦<P::Open as JournalFile>⟧
        L.JournalLines stop journal.old journal.new) }
{
    let front = begin(alloc, stop)?;
    match kept_open(&mut journal.place, &front) {
        Ok(file) => Ok(Some(BegunJournal { file, front })),
        Err(_) => {
            drop(front);
            journal.lines.tell(JournalLine::Unwritten);
            Ok(None)
        }
    }
}

/// The file of a journal, once this text of it is kept.
fn kept_open<P: JournalPlace>(place: &mut P, front: &[u8]) -> io::Result<P::Open>
    ensures text { P.honest place.old → IfOk result (λ file. P.Open.text file ≡ front.now) }
    ensures lasts { P.honest place.old
        → IfOk result (λ file. P.Open.lasting file ≡ front.now ∷ []) }
    ensures honest { P.honest place.old → IfOk result P.Open.honest }
{
    keep(place, front)?;
    place.open()
}

/// Who writes the journal of a relay. It begins a new one in the same file once a call has failed,
/// so that no entry is ever put behind one that may be torn, and once the file is full. Of the
/// calls that fail until entries are put behind a journal again the first is told.
#[derive(Drop)]
pub struct JournalWriter<F, L> {
    file: F,
    lines: L,
    /// The text of a journal without entries.
    front: Vec<u8>,
    /// How many octets of entries were put behind it.
    written: u64,
    /// Whether a journal is begun, and all that was put behind it since stands there.
    is_begun: bool,
    /// Whether it is told that a call has failed since entries were put last.
    is_told: bool,
}

impl<F: JournalFile, L: JournalLines> JournalWriter<F, L> {
    /// One that writes behind a journal that was begun, and tells of it there.
    pub fn new(begun: BegunJournal<F>, lines: L) -> JournalWriter<F, L>
        ensures { IsNewWriter begun lines result }
    {
        let BegunJournal { file, front } = begun;
        JournalWriter {
            file,
            lines,
            front,
            written: 0,
            is_begun: true,
            is_told: false,
        }
    }

    /// Whether entries can be put behind the journal: it is begun, all that was put behind it
    /// stands there, and it isn't full.
    fn is_ready(&self) -> bool
        ensures { result ≡ is_ready self.now }
    {
        self.is_begun && self.written < MOST_OCTETS
    }

    /// Begins a new journal in the file. Where that fails it is told.
    fn begin(&mut self)
        ensures { Begins ⟦<F as JournalFile>⟧ L.JournalLines self.old self.new }
    {
        match begun_anew(&mut self.file, &self.front) {
            Ok(()) => {
                self.is_begun = true;
                self.written = 0;
            }
            Err(_) => self.fail(),
        }
    }

    /// Begins a new journal, where nothing can be put behind the one that is there.
    fn make_ready(&mut self)
        ensures { MakesReady ⟦<F as JournalFile>⟧ L.JournalLines self.old self.new }
    {
        if !self.is_ready() {
            self.begin();
        }
    }

    /// Puts the octets of entries behind the journal, which is begun anew first where it has to be.
    /// Where that fails it is told.
    pub fn write(&mut self, octets: &[u8])
        ensures { Writes ⟦<F as JournalFile>⟧ L.JournalLines octets.now self.old self.new }
    {
        self.make_ready();
        if self.is_begun {
            self.put(octets);
        }
    }

    /// Puts the octets of entries behind the journal that was begun.
    fn put(&mut self, octets: &[u8])
        requires { self.old.is_begun ≡ true }
        ensures { Puts ⟦<F as JournalFile>⟧ L.JournalLines octets.now self.old self.new }
    {
        match self.file.append(octets) {
            Ok(()) => {
                self.is_told = false;
                self.written = self.written.saturating_add(octets.len() as u64);
            }
            Err(_) => self.fail(),
        }
    }

    /// A call has failed: the journal has to be begun anew. That is told, where no failure is.
    fn fail(&mut self)
        ensures { Fails L.JournalLines self.old self.new }
    {
        self.is_begun = false;
        if !self.is_told {
            self.lines.tell(JournalLine::Unwritten);
            self.is_told = true;
        }
    }

    /// Has the device take what was written. Where that fails it is told.
    pub fn flush(&mut self)
        ensures { Flushes ⟦<F as JournalFile>⟧ L.JournalLines self.old self.new }
    {
        if self.file.flush().is_err() {
            self.lines.tell(JournalLine::Unflushed);
        }
    }

    /// Tells how many entries were left out, where any was.
    pub fn tell_left(&mut self, count: u64)
        ensures { TellsLeft L.JournalLines count self.old self.new }
    {
        if count > 0 {
            self.lines.tell(JournalLine::LeftOut(count));
        }
    }
}

/// Begins a journal of this text without entries anew in its file.
fn begun_anew<F: JournalFile>(file: &mut F, front: &[u8]) -> io::Result<()>
    ensures text { F.honest file.old → OnOk result (F.text file.new ≡ front.now) }
    ensures honest { F.honest file.old → F.honest file.new }
{
    file.cut()?;
    file.append(front)
}
