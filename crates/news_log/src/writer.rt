//! Lines are written to their file.
ghost use Rattle.std.specs.Prelude.{◌≡◌};
ghost use Rattle.news_log.specs.Writing as terms;
ghost use Rattle.news_log.specs.Writing.{Appends, IsNewWriter, Looks, Loses, TellsLost, Writes};
ghost use Rattle.news_log.specs.Writing.{WritesBatch, WritesSome};

use crate::news_file::NewsFile;
use crate::news_lines::{NewsLine, NewsLines};
use crate::waiting::Lines;

/// Who writes lines to their file, which is looked at before each write, so that one that was moved
/// is written on to no more. Lines that can't be written count as lost, and so do those that never
/// came; how many were lost is told once lines are written again. Of the writes that fail until
/// then the first is told, and of the looks that fail until one doesn't.
#[derive(Drop)]
pub struct NewsWriter<F, L> {
    file: F,
    lines: L,
    /// How many lines were lost, and aren't told.
    lost: u64,
    /// Whether it is told that lines can't be written, since some were last.
    is_told: bool,
    /// Whether it is told that the file can't be opened, since it was last.
    is_unopened: bool,
}

impl<F: NewsFile, L: NewsLines> NewsWriter<F, L> {
    /// One that writes to this file, and tells of it there.
    pub fn new(file: F, lines: L) -> NewsWriter<F, L>
        ensures { IsNewWriter file lines result }
    {
        NewsWriter {
            file,
            lines,
            lost: 0,
            is_told: false,
            is_unopened: false,
        }
    }

    /// Looks whether the file is still what stands at its path, and opens it where it isn't.
    pub fn look(&mut self)
        ensures { Looks ⟦<F as NewsFile>⟧ L.NewsLines self.old self.new }
    {
        match self.file.look() {
            Ok(()) => self.is_unopened = false,
            Err(_) => self.tell_unopened(),
        }
    }

    /// Writes a batch of lines, where it has any, and counts those that it lacks. Whether it has
    /// any.
    pub fn write_batch(&mut self, batch: &Lines) -> bool
        ensures { WritesBatch ⟦<F as NewsFile>⟧ L.NewsLines batch.now.octets batch.now.lost
            self.old self.new result }
    {
        self.lose(batch.lost());
        self.write_some(batch.octets())
    }

    /// Tells how many lines were lost, where any was.
    pub fn tell_lost(&mut self)
        ensures { TellsLost L.NewsLines self.old self.new }
    {
        if self.lost > 0 {
            self.lines.tell(NewsLine::Lost(self.lost));
            self.lost = 0;
        }
    }

    /// So many lines more are lost.
    fn lose(&mut self, count: u64)
        ensures { Loses count self.old self.new }
    {
        self.lost = self.lost.saturating_add(count);
    }

    /// Writes the octets of lines, where there are any: whether there are.
    fn write_some(&mut self, octets: &[u8]) -> bool
        ensures { WritesSome ⟦<F as NewsFile>⟧ L.NewsLines octets.now self.old self.new result }
    {
        if octets.is_empty() {
            return false;
        }
        self.write(octets);
        true
    }

    /// Writes the octets of lines to the file that stands at its path by now.
    fn write(&mut self, octets: &[u8])
        ensures { Writes ⟦<F as NewsFile>⟧ L.NewsLines octets.now self.old self.new }
    {
        self.look();
        self.append(octets);
    }

    /// Puts the octets of lines behind what the file has.
    fn append(&mut self, octets: &[u8])
        ensures { Appends ⟦<F as NewsFile>⟧ L.NewsLines octets.now self.old self.new }
    {
        match self.file.append(octets) {
            Ok(()) => {
                self.is_told = false;
                self.tell_lost();
            }
            Err(_) => {
                self.lose(lines_in(octets));
                self.tell_unwritten();
            }
        }
    }

    /// Tells that the file can't be opened, where that isn't told.
    fn tell_unopened(&mut self)
        ensures { terms.TellsUnopened L.NewsLines self.old self.new }
    {
        if !self.is_unopened {
            self.lines.tell(NewsLine::Unopened);
            self.is_unopened = true;
        }
    }

    /// Tells that lines can't be written, where that isn't told.
    fn tell_unwritten(&mut self)
        ensures { terms.TellsUnwritten L.NewsLines self.old self.new }
    {
        if !self.is_told {
            self.lines.tell(NewsLine::Unwritten);
            self.is_told = true;
        }
    }
}

/// How many lines these octets are: so many end.
fn lines_in(octets: &[u8]) -> u64
    ensures { result ≡ terms.lines_in octets.now }
{
    octets.iter().filter(|octet| **octet == b'\n').count() as u64
}
