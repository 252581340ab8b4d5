ghost use Rattle.std.specs.Prelude.{◌≡◌, ◌≢◌, ◌<◌, None, Err, length, IfOk};
ghost use Rattle.std.specs.List.{list_all};
ghost use Rattle.std.specs.Str.{IsAscii};
ghost use Rattle.std.specs.String.{string_bytes};
ghost use Rattle.news_terms.specs.MessageId.{id_fault, has_brackets, IsMessageId};
ghost use Rattle.news_terms.specs.MessageId as terms;
ghost use Rattle.nntp_text.specs.MessageId.{IdGives};
ghost use Rattle.nntp_text.specs.declared.id.IdError.TheVariants.{Memory};

use std::alloc::{AllocError, Global};
use std::marker::Model;
use std::str;

/// The fewest octets of a message-id (RFC 3977 section 3.6).
const LEAST_OCTETS: usize = 3;

/// The most octets of a message-id (RFC 3977 section 3.6).
const MOST_OCTETS: usize = 250;

/// Why a text is no message-id, in the order of trial.
#[derive(Clone, Copy, Debug)]
pub enum IdError {
    /// Memory ran out for a text that is a message-id.
    Memory,
    /// The text has not 3 to 250 octets.
    Length,
    /// The text doesn't begin with `<`, doesn't end with `>`, or has a `>` before its end.
    Brackets,
    /// An octet is not graphic in ASCII, 0x21 to 0x7E.
    Octet,
}

impl From<AllocError> for IdError {
    ghost from_gives = { λ _ e. e ≡ Memory };

    fn from(_error: AllocError) -> IdError {
        IdError::Memory
    }
}

/// A message-id (RFC 3977 section 3.6). Two of them are the same where their octets are.
#[derive(Debug)]
pub struct MsgId {
    text: String,
}

// Written out, so that no crate above proves anew how each part is let go.
impl Drop for MsgId {
    fn drop(self) {
        let MsgId { text: _ } = self;
    }
}

impl Model for MsgId {
    ghost use Rattle.std.specs.Prelude.{ℕ, List};
    ghost use Rattle.std.specs.String.{string_bytes};

    ghost Value = { List ℕ };

    ghost use Rattle.nntp_text.specs.MessageId.{IsId};

    ghost view = { λ id. string_bytes id.text };

    ghost invariant = { λ id. IsId (string_bytes id.text) };
}

impl MsgId {
    /// Reads a message-id; nothing may stand before or after it. A text that is none is told by its
    /// fault, whatever memory there is.
    pub fn parse(alloc: Global, text: &[u8]) -> Result<MsgId, IdError>
        ensures text { IfOk result (λ id. id ≡ text.now) }
        ensures fault { IdGives result (id_fault text.now) }
    {
        tried(text)?;
        let text = str::from_utf8(text).unwrap();
        Ok(MsgId {
            text: String::from_str(alloc, text)?,
        })
    }

    /// The message-id with its brackets.
    pub fn as_str(&self) -> &str
        ensures value { result.now ≡ self.now }
        ensures ascii { IsAscii self.now }
    {
        self.text.as_str()
    }

    /// The octets of the message-id with its brackets, 3 to 250 of them.
    pub fn as_bytes(&self) -> &[u8]
        ensures value { result.now ≡ self.now }
        ensures no_fault { id_fault self.now ≡ None }
        ensures parts { IsMessageId self.now }
    {
        self.text.as_bytes()
    }

    /// Another message-id of the same octets.
    pub fn copied(&self, alloc: Global) -> Result<MsgId, AllocError>
        ensures { IfOk result (λ id. id ≡ self.now) }
    {
        Ok(MsgId {
            text: String::from_str(alloc, self.text.as_str())?,
        })
    }

    /// The text of the message-id, which takes no memory.
    pub fn into_string(self) -> String
        ensures { string_bytes result ≡ self }
    {
        let MsgId { text } = self;
        text
    }
}

/// The first fault of the text, which takes no memory to find.
fn tried(text: &[u8]) -> Result<(), IdError>
    ensures fault { IdGives result (id_fault text.now) }
    ensures no_memory { result ≢ Err IdError.Memory }
{
    if text.len() < LEAST_OCTETS || text.len() > MOST_OCTETS {
        return Err(IdError::Length);
    }
    if !is_bracketed(text) {
        return Err(IdError::Brackets);
    }
    if !is_graphic(text) {
        return Err(IdError::Octet);
    }
    Ok(())
}

/// Whether the text begins with `<` and ends with its one `>`.
fn is_bracketed(text: &[u8]) -> bool
    requires { 0 < length text.now }
    ensures { result ≡ has_brackets text.now }
{
    let last = text.len() - 1;
    text[0] == b'<' && text[last] == b'>' && !text[..last].contains(&b'>')
}

/// Whether each octet is graphic in ASCII.
fn is_graphic(text: &[u8]) -> bool
    ensures { result ≡ list_all terms.is_graphic text.now }
{
    text.iter().all(|octet| octet.is_ascii_graphic())
}
