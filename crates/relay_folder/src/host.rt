//! The history's file in a folder of the machine.
ghost use Rattle.std.specs.Prelude.{◌≡◌, ◌≢◌, None, Err, Ok, false, []};
ghost use Rattle.std.specs.IoError.{error_kind};
ghost use Rattle.std.specs.declared.io.ErrorKind.TheVariants as kinds;
ghost use Rattle.relay_folder.specs.Files.{HasNoFlush};
ghost use Rattle.relay_folder.specs.Place.{Nothing};

use crate::filing::Filing;
use crate::history_place::HistoryPlace;
use crate::socket_place::path_in;
use std::alloc::{AllocError, Global};
use std::fs::File;
use std::io;
use std::io::{ErrorKind, Write};
use std::path::PathBuf;

/// The name of the file in the relay's folder.
const NAME: &str = "relay.hist";

/// The name of the file that is written before it takes that name.
const BESIDE: &str = "relay.hist.new";

/// The name of the file of names in the relay's folder.
const NAMES: &str = "relay.names";

/// The name of the file that is written before it takes that name.
const NAMES_BESIDE: &str = "relay.names.new";

/// The name of the file of marks in the relay's folder.
const AGES: &str = "relay.ages";

/// The name of the file that is written before it takes that name.
const AGES_BESIDE: &str = "relay.ages.new";

/// The file `relay.hist` in a folder, or another that is kept as it is.
pub struct HostHistory<'a, R> {
    rt: &'a R,
    folder: &'a str,
    path: PathBuf,
    beside: PathBuf,
    /// What was last written beside it, until it takes its place.
    written: Option<File>,
}

// Written out, so that no crate above proves anew how each part is let go.
impl<R> Drop for HostHistory<'_, R> {
    fn drop(self) {
        let HostHistory {
            rt: _,
            folder: _,
            path: _,
            beside: _,
            written: _,
        } = self;
    }
}

impl<'a, R> HostHistory<'a, R> {
    /// The file in this folder, which is neither opened nor made.
    pub fn in_folder(
        rt: &'a R,
        alloc: Global,
        folder: &'a str,
    ) -> Result<HostHistory<'a, R>, AllocError> {
        HostHistory::named(rt, alloc, folder, NAME, BESIDE)
    }

    /// The file `relay.names` in this folder, which is neither opened nor made.
    pub fn of_names(
        rt: &'a R,
        alloc: Global,
        folder: &'a str,
    ) -> Result<HostHistory<'a, R>, AllocError> {
        HostHistory::named(rt, alloc, folder, NAMES, NAMES_BESIDE)
    }

    /// The file `relay.ages` in this folder, which is neither opened nor made.
    pub fn of_ages(
        rt: &'a R,
        alloc: Global,
        folder: &'a str,
    ) -> Result<HostHistory<'a, R>, AllocError> {
        HostHistory::named(rt, alloc, folder, AGES, AGES_BESIDE)
    }

    /// The file of this name in this folder, with room beside it under the other name.
    pub(crate) fn named(
        rt: &'a R,
        alloc: Global,
        folder: &'a str,
        name: &str,
        beside: &str,
    ) -> Result<HostHistory<'a, R>, AllocError> {
        let path = path_in(alloc, folder, name)?;
        let beside = path_in(alloc, folder, beside)?;
        Ok(HostHistory {
            rt,
            folder,
            path,
            beside,
            written: None,
        })
    }
}

impl<R: Filing> HistoryPlace for HostHistory<'_, R> {
    // Of a file of the machine nothing is promised, so contracts see no octet of it, and nothing
    // says that it is honest.
    ghost kept = { λ history. None };

    ghost beside = { λ history. Nothing };

    ghost lasting = { λ history. [] };

    ghost honest = { λ history. ⊥ };

    fn read(&mut self, alloc: Global) -> io::Result<Option<Vec<u8>>> {
        text_at(self.rt, alloc, self.path.as_str())
    }

    fn remove(&mut self) -> io::Result<()> {
        take_away(self.rt, self.path.as_str())
    }

    fn clear_beside(&mut self) -> io::Result<()> {
        self.written = None;
        take_away(self.rt, self.beside.as_str())
    }

    fn write_beside(&mut self, text: &[u8]) -> io::Result<()> {
        let mut file = self.rt.create_at(self.beside.as_str())?;
        file.write_all(text)?;
        self.written = Some(file);
        Ok(())
    }

    fn flush_beside(&mut self) -> io::Result<()> {
        match &self.written {
            Some(file) => file.sync_all(),
            None => Err(io::Error::from(ErrorKind::NotFound)),
        }
    }

    fn put_in_place(&mut self) -> io::Result<()> {
        self.written = None;
        self.rt.rename_at(self.beside.as_str(), self.path.as_str())
    }

    fn flush_names(&mut self) -> io::Result<()> {
        flush_folder(self.rt, self.folder)
    }
}

/// The text of the file at a path, none where nothing is there.
fn text_at<R: Filing>(rt: &R, alloc: Global, path: &str) -> io::Result<Option<Vec<u8>>> {
    // The opening of a pipe would wait for whoever writes it.
    match is_file_at(rt, path) {
        Ok(true) => match rt.read_at(alloc, path) {
            Ok(text) => Ok(Some(text)),
            Err(error) => Err(error),
        },
        Ok(false) => Ok(None),
        Err(error) => Err(error),
    }
}

/// Whether a file stands at a path, or nothing does. Anything else is the error.
pub(crate) fn is_file_at<R: Filing>(rt: &R, path: &str) -> io::Result<bool> {
    match rt.metadata_at(path) {
        Ok(found) => {
            if found.is_file() {
                Ok(true)
            } else {
                Err(io::Error::from(ErrorKind::InvalidInput))
            }
        }
        Err(error) => unseen(error),
    }
}

/// What is told of a path at which nothing could be looked at: only of one that isn't there, that
/// nothing stands at it.
fn unseen(error: io::Error) -> io::Result<bool>
    ensures none { error_kind error ≡ kinds.NotFound → result ≡ Ok false }
    ensures told { error_kind error ≢ kinds.NotFound → result ≡ Err error }
{
    match error.kind() {
        ErrorKind::NotFound => Ok(false),
        _ => Err(error),
    }
}

/// Takes away the file at a path, where one is there.
fn take_away<R: Filing>(rt: &R, path: &str) -> io::Result<()> {
    match rt.remove_at(path) {
        Ok(()) => Ok(()),
        Err(error) => unremoved(error),
    }
}

/// What is told of a file that couldn't be taken away: only one that isn't there is away.
fn unremoved(error: io::Error) -> io::Result<()>
    ensures none { error_kind error ≡ kinds.NotFound → result ≡ Ok tt }
    ensures told { error_kind error ≢ kinds.NotFound → result ≡ Err error }
{
    match error.kind() {
        ErrorKind::NotFound => Ok(()),
        _ => Err(error),
    }
}

/// Has the device take the names of a folder.
fn flush_folder<R: Filing>(rt: &R, folder: &str) -> io::Result<()> {
    let flushed = match rt.open_at(folder) {
        Ok(opened) => opened.sync_all(),
        Err(error) => Err(error),
    };
    match flushed {
        Ok(()) => Ok(()),
        Err(error) => unflushed(error),
    }
}

/// What is told of a folder that couldn't be flushed. One that its owner may not read, or whose
/// file system has no such flush, is as flushed as it can be.
fn unflushed(error: io::Error) -> io::Result<()>
    ensures none { HasNoFlush (error_kind error) → result ≡ Ok tt }
    ensures told { ¬ HasNoFlush (error_kind error) → result ≡ Err error }
{
    match error.kind() {
        ErrorKind::PermissionDenied | ErrorKind::InvalidInput | ErrorKind::Unsupported => Ok(()),
        _ => Err(error),
    }
}
