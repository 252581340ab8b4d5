//! Reading a configuration (docs/PROTOCOL.md, Program; docs/FORMATS.md, Configuration).
ghost use Rattle.std.specs.Prelude.{◌≡◌, ◌⊎◌, bytes_eq, codes, IfErr, Some};
ghost use Rattle.relay_command.specs.Check.{IsErrorIn, LoadGives, TextGives};
ghost use Rattle.relay_command.specs.Check.{check_text, file_name, k1_text, unread_as};
ghost use Rattle.relay_command.specs.declared.load.CheckError.TheVariants.{Memory, Unreadable};

use crate::file::read_file;
use crate::sources::load_both;
use relay_conf::{ConfError, Config, K1_CYCBUFF, K1_RELAY, K1_STORAGE};
use relay_drill::DrillError;
use std::alloc::{AllocError, Global};
use std::error::Error;
use std::fmt;
use std::fmt::{Display, Formatter};
use std::fs::Files;
use std::path::Path;

/// The files of a configuration, in the order in which they are read.
#[derive(Clone, Copy)]
pub enum ConfFile {
    Cycbuff,
    Storage,
    Relay,
}

impl ConfFile {
    /// The bare name of the file.
    pub fn name(self) -> &'static str
        ensures { result.now ≡ file_name self }
    {
        match self {
            ConfFile::Cycbuff => "cycbuff.conf",
            ConfFile::Storage => "storage.conf",
            ConfFile::Relay => "relay.conf",
        }
    }
}

/// Why a configuration can't be had, or is not told. Its text is what the program prints.
#[derive(Drop)]
pub enum CheckError {
    /// Memory ran out, which says nothing of the configuration.
    Memory,
    /// The file can't be read; those before it have no fault.
    Unreadable(ConfFile),
    /// The first fault of the file: its line, its code and its name; those before it have none.
    Faulty {
        file: ConfFile,
        line: usize,
        code: u8,
        name: &'static str,
    },
    /// The writer failed.
    Unwritten,
}

impl Display for CheckError {
    ghost output = { λ error. Some (check_text error) };

    fn fmt<W: fmt::Write>(&self, formatter: &mut Formatter<W>) -> fmt::Result {
        match self {
            CheckError::Memory => formatter.write_str("out of memory"),
            CheckError::Unreadable(file) => {
                let file = file.name();
                write!(formatter, "{file}: unreadable")
            }
            CheckError::Faulty {
                file,
                line,
                code,
                name,
            } => {
                let file = file.name();
                write!(formatter, "{file}:{line}: {code} {name}")
            }
            CheckError::Unwritten => formatter.write_str("stdout: unwritten"),
        }
    }
}

impl fmt::Debug for CheckError {
    fn fmt<W: fmt::Write>(&self, formatter: &mut Formatter<W>) -> fmt::Result {
        Display::fmt(self, formatter)
    }
}

impl Error for CheckError {}

impl CheckError {
    /// The fault of a file.
    pub(crate) fn of(file: ConfFile, error: ConfError) -> CheckError
        ensures { IsErrorIn file error result }
    {
        match error {
            ConfError::Memory => CheckError::Memory,
            ConfError::Faulty(at) => CheckError::Faulty {
                file,
                line: at.line,
                code: at.fault.code(),
                name: at.fault.name(),
            },
        }
    }
}

impl From<AllocError> for CheckError {
    ghost from_gives = { λ _ e. e ≡ Memory };

    fn from(_error: AllocError) -> CheckError {
        CheckError::Memory
    }
}

/// Reads the configuration in a folder, or the built-in one where the folder is `K1`.
pub fn load<R: Files>(rt: &R, alloc: Global, folder: &str) -> Result<Config, CheckError>
    ensures { LoadGives folder.now result }
{
    match load_both(rt, alloc, folder) {
        Ok((config, sources)) => {
            drop(sources);
            Ok(config)
        }
        Err(error) => Err(error),
    }
}

/// The text of a file of a folder: of `K1` the built-in one.
pub(crate) fn text_of<R: Files>(
    rt: &R,
    alloc: Global,
    folder: &str,
    file: ConfFile,
) -> Result<Vec<u8>, CheckError>
    ensures { TextGives folder.now file result }
{
    if is_built_in(folder) {
        let text = Vec::from_slice(alloc, k1_text(file))?;
        return Ok(text);
    }
    text_in(rt, alloc, folder, file)
}

/// Whether the folder is the name of the built-in configuration.
fn is_built_in(folder: &str) -> bool
    ensures { result ≡ bytes_eq folder.now (codes "K1") }
{
    folder == "K1"
}

/// The text of a file of the built-in configuration.
fn k1_text(file: ConfFile) -> &'static [u8]
    ensures { result.now ≡ k1_text file }
{
    match file {
        ConfFile::Cycbuff => K1_CYCBUFF,
        ConfFile::Storage => K1_STORAGE,
        ConfFile::Relay => K1_RELAY,
    }
}

/// All that a file of a folder has.
fn text_in<R: Files>(
    rt: &R,
    alloc: Global,
    folder: &str,
    file: ConfFile,
) -> Result<Vec<u8>, CheckError>
    ensures { IfErr result (λ error. (error ≡ Memory) ⊎ (error ≡ Unreadable file)) }
{
    let path = Path::new(folder).join(alloc, file.name())?;
    let read = read_file(rt, alloc, path.as_str());
    drop(path);
    match read {
        Ok(text) => Ok(text),
        Err(error) => Err(unread(file, &error)),
    }
}

/// Why what a file has could not be had.
fn unread(file: ConfFile, error: &DrillError) -> CheckError
    ensures { result ≡ unread_as file error.now }
{
    match error {
        DrillError::Memory => CheckError::Memory,
        _ => CheckError::Unreadable(file),
    }
}
