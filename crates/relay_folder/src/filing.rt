//! Who reads and writes files by their paths.

use std::alloc::Global;
use std::fs::{File, Files, Metadata};
use std::{fs, io};

/// Who reads and writes files by their paths. A thread that is started over a runtime can do so by
/// this, where it can't by a runtime that is only said to have files of some type.
pub trait Filing {
    /// What stands at a path.
    fn metadata_at(&self, path: &str) -> io::Result<Metadata>;

    /// The text of the file at a path.
    fn read_at(&self, alloc: Global, path: &str) -> io::Result<Vec<u8>>;

    /// Takes away the file at a path.
    fn remove_at(&self, path: &str) -> io::Result<()>;

    /// A file at a path at which nothing stands, made to be written.
    fn create_at(&self, path: &str) -> io::Result<File>;

    /// What stands at a path, opened to be read or flushed.
    fn open_at(&self, path: &str) -> io::Result<File>;

    /// Gives the file at a path another path, in place of what stands there.
    fn rename_at(&self, from: &str, to: &str) -> io::Result<()>;
}

impl Filing for HostRuntime {
    fn metadata_at(&self, path: &str) -> io::Result<Metadata> {
        self.metadata(path)
    }

    fn read_at(&self, alloc: Global, path: &str) -> io::Result<Vec<u8>> {
        fs::read(&(self, alloc), path)
    }

    fn remove_at(&self, path: &str) -> io::Result<()> {
        self.remove_file(path)
    }

    fn create_at(&self, path: &str) -> io::Result<File> {
        File::create_new(self, path)
    }

    fn open_at(&self, path: &str) -> io::Result<File> {
        File::open(self, path)
    }

    fn rename_at(&self, from: &str, to: &str) -> io::Result<()> {
        self.rename(from, to)
    }
}
