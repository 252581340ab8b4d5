//! Asking a relay that is served.
ghost use Rattle.std.specs.Prelude.{◌≡◌, ◌↔◌, Err, IsTrue, Ok, false};
ghost use Rattle.std.specs.IoError.{error_kind};
ghost use Rattle.relay_folder.specs.Files.{HasNobody, IsEnd};

use crate::socket_place::{NAME, path_in};
use crate::words::Word;
use std::alloc::Global;
use std::io;
use std::io::{ErrorKind, Read, Write};
use std::net::Net;
use std::os::unix::net::UnixStream;

/// Asks the relay of a folder, and gives all that it tells, until it lets go: after `stop` that is
/// when it has ended.
pub fn ask<N: Net>(net: &N, alloc: Global, folder: &str, word: Word) -> io::Result<Vec<u8>> {
    let stream = connect(net, alloc, folder)?;
    match tell(&stream, word) {
        Ok(()) => told_by(alloc, &stream, word),
        Err(error) => Err(error),
    }
}

/// Whether a relay is served in a folder: whoever comes to its socket is heard. It is asked
/// nothing. The error is that this isn't known, as where the socket is another user's.
pub fn is_served<N: Net>(net: &N, alloc: Global, folder: &str) -> io::Result<bool> {
    match connect(net, alloc, folder) {
        Ok(_living) => Ok(true),
        Err(error) => unheard(error),
    }
}

/// What is told of a relay with which no connection could be made: that none is served, only where
/// no socket is there, or nobody listens at it.
fn unheard(error: io::Error) -> io::Result<bool>
    ensures none { HasNobody (error_kind error) → result ≡ Ok false }
    ensures told { ¬ HasNobody (error_kind error) → result ≡ Err error }
{
    match error.kind() {
        ErrorKind::NotFound | ErrorKind::ConnectionRefused => Ok(false),
        _ => Err(error),
    }
}

/// A connection to the relay of a folder.
fn connect<N: Net>(net: &N, alloc: Global, folder: &str) -> io::Result<UnixStream> {
    match path_in(alloc, folder, NAME) {
        Ok(path) => UnixStream::connect(net, path.as_str()),
        Err(error) => Err(io::Error::from(error)),
    }
}

/// Says the word to the relay.
fn tell(mut stream: &UnixStream, word: Word) -> io::Result<()> {
    stream.write_all(word.line())
}

/// All that the relay tells after this word.
fn told_by(alloc: Global, mut stream: &UnixStream, word: Word) -> io::Result<Vec<u8>> {
    let mut told = Vec::new(alloc);
    match stream.read_to_end(&mut told) {
        Ok(_) => Ok(told),
        Err(error) => {
            if is_end(&error, word) {
                Ok(told)
            } else {
                Err(error)
            }
        }
    }
}

/// Whether it ended before it had heard the word.
fn is_end(error: &io::Error, word: Word) -> bool
    ensures { IsTrue result ↔ IsEnd word (error_kind error.now) }
{
    match word {
        Word::Stop => matches!(error.kind(), ErrorKind::ConnectionReset),
        Word::Report | Word::Pause | Word::Go | Word::Reload => false,
    }
}
