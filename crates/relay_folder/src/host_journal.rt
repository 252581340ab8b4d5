//! The journal's file in a folder of the machine.
ghost use Rattle.std.specs.Prelude.{None, []};
ghost use Rattle.relay_folder.specs.Place.{Nothing};

use crate::filing::Filing;
use crate::history_place::HistoryPlace;
use crate::host::{HostHistory, is_file_at};
use crate::journal_file::JournalFile;
use crate::journal_place::JournalPlace;
use crate::socket_place::path_in;
use std::alloc::{AllocError, Global};
use std::fs::{File, Files, OpenOptions};
use std::io;
use std::io::{ErrorKind, Write};
use std::path::PathBuf;

/// The name of the file in the relay's folder.
const NAME: &str = "relay.log";

/// The name of the file that is written before it takes that name.
const BESIDE: &str = "relay.log.new";

/// The file `relay.log` in a folder.
pub struct HostJournal<'a, R> {
    rt: &'a R,
    path: PathBuf,
    /// The file, as one that is replaced.
    text: HostHistory<'a, R>,
}

// Written out, so that no crate above proves anew how each part is let go.
impl<R> Drop for HostJournal<'_, R> {
    fn drop(self) {
        let HostJournal {
            rt: _,
            path: _,
            text: _,
        } = self;
    }
}

impl<'a, R> HostJournal<'a, R> {
    /// The file in this folder, which is neither opened nor made.
    pub fn in_folder(
        rt: &'a R,
        alloc: Global,
        folder: &'a str,
    ) -> Result<HostJournal<'a, R>, AllocError> {
        let path = path_in(alloc, folder, NAME)?;
        let text = HostHistory::named(rt, alloc, folder, NAME, BESIDE)?;
        Ok(HostJournal { rt, path, text })
    }
}

impl<R: Filing> HistoryPlace for HostJournal<'_, R> {
    // As of a history's file: nothing is promised, so contracts see no octet of it.
    ghost kept = { λ journal. None };

    ghost beside = { λ journal. Nothing };

    ghost lasting = { λ journal. [] };

    ghost honest = { λ journal. ⊥ };

    fn read(&mut self, alloc: Global) -> io::Result<Option<Vec<u8>>> {
        self.text.read(alloc)
    }

    fn remove(&mut self) -> io::Result<()> {
        self.text.remove()
    }

    fn clear_beside(&mut self) -> io::Result<()> {
        self.text.clear_beside()
    }

    fn write_beside(&mut self, text: &[u8]) -> io::Result<()> {
        self.text.write_beside(text)
    }

    fn flush_beside(&mut self) -> io::Result<()> {
        self.text.flush_beside()
    }

    fn put_in_place(&mut self) -> io::Result<()> {
        self.text.put_in_place()
    }

    fn flush_names(&mut self) -> io::Result<()> {
        self.text.flush_names()
    }
}

impl<R: Files<File = File> + Filing> JournalPlace for HostJournal<'_, R> {
    type Open = HostJournalFile;

    fn open(&mut self) -> io::Result<HostJournalFile> {
        let file = end_of(self.rt, self.path.as_str())?;
        Ok(HostJournalFile { file })
    }
}

/// The file at a path, which is there, opened so that each write goes behind its end.
fn end_of<R: Files<File = File> + Filing>(rt: &R, path: &str) -> io::Result<File> {
    // The opening of a pipe would wait for whoever reads it.
    match is_file_at(rt, path) {
        Ok(true) => OpenOptions::new().append(true).open(rt, path),
        Ok(false) => Err(io::Error::from(ErrorKind::NotFound)),
        Err(error) => Err(error),
    }
}

/// The file `relay.log`, open.
#[derive(Drop)]
pub struct HostJournalFile {
    file: File,
}

impl JournalFile for HostJournalFile {
    // As of a history's file: nothing is promised, so contracts see no octet of it.
    ghost text = { λ file. [] };

    ghost lasting = { λ file. [] };

    ghost honest = { λ file. ⊥ };

    fn cut(&mut self) -> io::Result<()> {
        self.file.set_len(0)
    }

    fn append(&mut self, octets: &[u8]) -> io::Result<()> {
        self.file.write_all(octets)
    }

    fn flush(&mut self) -> io::Result<()> {
        self.file.sync_data()
    }
}
