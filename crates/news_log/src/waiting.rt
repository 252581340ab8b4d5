//! Lines that wait until they are written.
ghost use Rattle.std.specs.Prelude.{◌≡◌, IfOk};
ghost use Rattle.news_log.specs.Pending.{emptied, has_room, none_in, with_line, without_line};

use line_words::put_octets;
use std::alloc::{AllocError, Global};
use std::marker::Model;
use std::mem;

/// Lines that wait, whole, one behind the other, in room that is taken once.
#[derive(Drop)]
pub struct Lines {
    octets: Vec<u8>,
    lost: u64,
}

impl Model for Lines {
    ghost use Rattle.std.specs.Prelude.{vec_capacity};
    ghost use Rattle.news_log.specs.Pending.{Lines};

    ghost Value = { Lines };

    ghost view = { λ lines. record {
      octets = lines.octets.items;
      room = vec_capacity lines.octets;
      lost = lines.lost;
    } };
}

impl Lines {
    /// None, with room for so many octets: all memory that they will have is taken here.
    pub fn new(alloc: Global, octets: usize) -> Result<Lines, AllocError>
        ensures { IfOk result (λ lines. lines ≡ none_in octets) }
    {
        Ok(Lines {
            octets: Vec::with_capacity(alloc, octets)?,
            lost: 0,
        })
    }

    /// The octets of the lines.
    pub fn octets(&self) -> &[u8]
        ensures { result.now ≡ self.now.octets }
    {
        self.octets.as_slice()
    }

    /// How many lines were lost since there was none, as there was no room for them or no memory
    /// for one of them, counted as far as there are numbers.
    pub fn lost(&self) -> u64
        ensures { result ≡ self.now.lost }
    {
        self.lost
    }

    /// Puts a line behind the others, where there is room for all of it; else it is lost. It takes
    /// no memory.
    pub fn put(&mut self, line: &[u8])
        ensures { self.new ≡ with_line line.now self.old }
    {
        if self.has_room(line) {
            put_octets(&mut self.octets, line);
        } else {
            self.lose();
        }
    }

    /// A line is lost.
    pub fn lose(&mut self)
        ensures { self.new ≡ without_line self.old }
    {
        self.lost = self.lost.saturating_add(1);
    }

    /// Gives what waits, with the spare one in its place, whose lines are let go. It takes no
    /// memory.
    pub fn take(&mut self, spare: Lines) -> Lines
        ensures given { result ≡ self.old }
        ensures emptied { self.new ≡ emptied spare }
    {
        let mut empty = spare;
        empty.octets.clear();
        empty.lost = 0;
        mem::replace(self, empty)
    }

    /// Whether there is room for all of a line behind the others.
    fn has_room(&self, line: &[u8]) -> bool
        ensures { result ≡ has_room line.now self.now }
    {
        line.len() <= self.octets.capacity() - self.octets.len()
    }
}
