//! What the text of a token stands for (docs/PROTOCOL.md, Program; docs/FORMATS.md, Tokens).
ghost use Rattle.std.specs.Prelude.{◌≡◌, Some};
ghost use Rattle.cyc_token.specs.Token.{token_view};
ghost use Rattle.relay_report.specs.Written.{Writes};
ghost use Rattle.relay_command.specs.Run.{TellsText};
ghost use Rattle.relay_command.specs.Tell.{fault_view};
ghost use Rattle.relay_command.specs.Tell as terms;

use crate::check::digits;
use crate::failure::Failure;
use cyc_token::{Token, TokenError};
use itoa::Buffer;
use relay_report::{Unwritten, put_all};
use std::error::Error;
use std::fmt;
use std::fmt::{Display, Formatter};
use std::io::Write;

/// Why a text is not told as a token. Its text is what the program prints.
#[derive(Drop)]
pub enum TokenFault {
    /// The text is not 30 octets.
    Length,
    /// The text has no `@` first, or none last.
    Marks,
    /// An octet between the marks is no hexadecimal digit.
    Digit,
    /// A digit is a lower case letter, and all else is right.
    LowerCase,
    /// The writer failed.
    Unwritten,
}

impl Display for TokenFault {
    ghost output = { λ fault. Some (terms.fault_text fault) };

    fn fmt<W: fmt::Write>(&self, formatter: &mut Formatter<W>) -> fmt::Result {
        formatter.write_str(match self {
            TokenFault::Length => "token: 1 Length",
            TokenFault::Marks => "token: 2 Marks",
            TokenFault::Digit => "token: 3 Digit",
            TokenFault::LowerCase => "token: 4 LowerCase",
            TokenFault::Unwritten => "stdout: unwritten",
        })
    }
}

impl fmt::Debug for TokenFault {
    fn fmt<W: fmt::Write>(&self, formatter: &mut Formatter<W>) -> fmt::Result {
        Display::fmt(self, formatter)
    }
}

impl Error for TokenFault {}

impl From<TokenError> for TokenFault {
    ghost from_gives = { λ error fault. fault ≡ fault_view error };

    fn from(error: TokenError) -> TokenFault {
        match error {
            TokenError::Length => TokenFault::Length,
            TokenError::Marks => TokenFault::Marks,
            TokenError::Digit => TokenFault::Digit,
            TokenError::LowerCase => TokenFault::LowerCase,
        }
    }
}

/// Writes the parts of the token that has this text, in one line; of any other text nothing.
pub fn tell<W: Write>(text: &[u8], writer: &mut W) -> Result<(), Failure>
    ensures { TellsText text.now result (W.contents writer.old) (W.contents writer.new) }
{
    let token = match Token::parse(text) {
        Ok(token) => token,
        Err(error) => return Err(Failure::Token(TokenFault::from(error))),
    };
    match print_parts(writer, &token) {
        Ok(()) => Ok(()),
        Err(_) => Err(Failure::Token(TokenFault::Unwritten)),
    }
}

/// Prints the parts of a token in one line.
fn print_parts<W: Write>(writer: &mut W, token: &Token) -> Result<(), Unwritten>
    ensures { Writes result (terms.parts_line (token_view token.now))
        (W.contents writer.old) (W.contents writer.new) }
{
    let mut class = Buffer::new();
    let mut buffer = Buffer::new();
    let mut cycle = Buffer::new();
    let mut first = Buffer::new();
    let mut length = Buffer::new();
    put_all(
        writer,
        &[
            b"class ",
            digits(&mut class, token.class as u64),
            b" buffer ",
            digits(&mut buffer, token.buffer as u64),
            b" cycle ",
            digits(&mut cycle, token.cycle as u64),
            b" first ",
            digits(&mut first, token.first as u64),
            b" length ",
            digits(&mut length, token.length as u64),
            b"\n",
        ],
    )
}
