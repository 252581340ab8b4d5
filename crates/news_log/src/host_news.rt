//! The file of the machine that lines are appended to.
ghost use Rattle.std.specs.Prelude.{◌≡◌, ◌≢◌, Err, None, Ok, [], true};
ghost use Rattle.std.specs.IoError.{error_kind};
ghost use Rattle.std.specs.declared.io.ErrorKind.TheVariants as kinds;

use crate::news_file::NewsFile;
use std::alloc::{AllocError, Global};
use std::fs::{File, Files, Metadata, OpenOptions};
use std::io;
use std::io::{ErrorKind, Write};
use std::os::unix::fs::MetadataExt;
use std::path::{Path, PathBuf};

/// Who opens files that lines go behind. A thread that is started over a runtime can open them by
/// this, where it can't by a runtime that is only said to have files of some type.
pub trait Opening {
    /// What stands at a path.
    fn metadata_at(&self, path: &str) -> io::Result<Metadata>;

    /// The file at a path, opened so that each write goes behind its end, and made where nothing is
    /// there.
    fn open_end(&self, path: &str) -> io::Result<File>;
}

impl Opening for HostRuntime {
    fn metadata_at(&self, path: &str) -> io::Result<Metadata> {
        self.metadata(path)
    }

    fn open_end(&self, path: &str) -> io::Result<File> {
        OpenOptions::new()
            .append(true)
            .create(true)
            .open(self, path)
    }
}

/// A file of the machine that lines go behind, by its path. It is opened when it is looked at, and
/// again once another stands at its path, or none, as where it was renamed (logrotate).
#[derive(Drop)]
pub struct HostNews<'a, R> {
    rt: &'a R,
    /// Its path, once it is named.
    path: Option<PathBuf>,
    opened: Option<Opened>,
}

/// A file that is open.
#[derive(Drop)]
struct Opened {
    file: File,
    number: Number,
}

/// Which file it is, whatever its names: the number of its device, and that of its inode there.
#[derive(Clone, Copy, PartialEq, Eq)]
struct Number {
    device: u64,
    inode: u64,
}

impl<'a, R> HostNews<'a, R> {
    /// One that has no path, so that nothing is written to it.
    pub fn unnamed(rt: &'a R) -> HostNews<'a, R> {
        HostNews {
            rt,
            path: None,
            opened: None,
        }
    }
}

impl<R: Opening> NewsFile for HostNews<'_, R> {
    // Of a file of the machine nothing is promised, so contracts see no octet of it, and nothing
    // says that it is honest.
    ghost written = { λ news. [] };

    ghost honest = { λ news. ⊥ };

    fn name(&mut self, alloc: Global, folder: &str, path: &str) -> Result<(), AllocError> {
        self.path = Some(Path::new(folder).join(alloc, path)?);
        Ok(())
    }

    fn look(&mut self) -> io::Result<()> {
        match &self.path {
            Some(path) => look_at(self.rt, path.as_str(), &mut self.opened),
            None => Err(io::Error::from(ErrorKind::NotFound)),
        }
    }

    fn append(&mut self, octets: &[u8]) -> io::Result<()> {
        match &mut self.opened {
            Some(opened) => opened.file.write_all(octets),
            None => Err(io::Error::from(ErrorKind::NotFound)),
        }
    }
}

/// Opens what stands at a path, where that isn't the file that is open.
fn look_at<R: Opening>(rt: &R, path: &str, opened: &mut Option<Opened>) -> io::Result<()> {
    let found = found_at(rt, path)?;
    if !is_found(opened, found) {
        *opened = Some(opened_at(rt, path)?);
    }
    Ok(())
}

/// Whether the file that is open is the one that was found at its path, if one was.
fn is_found(opened: &Option<Opened>, found: Option<Number>) -> bool {
    match (opened, found) {
        (Some(opened), Some(found)) => opened.number == found,
        (None, _) | (_, None) => false,
    }
}

/// The file at a path, opened, with its number.
fn opened_at<R: Opening>(rt: &R, path: &str) -> io::Result<Opened> {
    let file = rt.open_end(path)?;
    let number = number_of(&file.metadata()?);
    Ok(Opened { file, number })
}

/// The number of the file that stands at a path, none where nothing does. Anything else is the
/// error: the opening of a pipe would wait for whoever reads it.
fn found_at<R: Opening>(rt: &R, path: &str) -> io::Result<Option<Number>> {
    match rt.metadata_at(path) {
        Ok(found) => {
            if found.is_file() {
                Ok(Some(number_of(&found)))
            } else {
                Err(io::Error::from(ErrorKind::InvalidInput))
            }
        }
        Err(error) => unseen(error),
    }
}

/// The number of the file of which this was found.
fn number_of(found: &Metadata) -> Number {
    Number {
        device: found.dev(),
        inode: found.ino(),
    }
}

/// What is told of a path at which nothing could be looked at: only of one that isn't there, that
/// nothing stands at it.
fn unseen(error: io::Error) -> io::Result<Option<Number>>
    ensures none { error_kind error ≡ kinds.NotFound → result ≡ Ok None }
    ensures told { error_kind error ≢ kinds.NotFound → result ≡ Err error }
{
    match error.kind() {
        ErrorKind::NotFound => Ok(None),
        _ => Err(error),
    }
}
