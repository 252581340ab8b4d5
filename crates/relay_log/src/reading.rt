//! Reading the text of a journal.
ghost use Rattle.std.specs.Prelude.{◌≡◌, ◌≤◌, ◌<◌, ◌++◌, map, length, option_map, IfOk, IfSome};
ghost use Rattle.std.specs.Prelude.{IfNone};
ghost use Rattle.std.specs.Int.{w16, w64};
ghost use Rattle.std.specs.List.{AllByRecursion, flat_map};
ghost use Rattle.cyc_token.specs.Token.{token_view};
ghost use Rattle.relay_log.specs.Beginning.{IsLongest};
ghost use Rattle.relay_log.specs.Journal.{IsEntry, BeginsWithEntry, HasFront, entry_octets};
ghost use Rattle.id_history.specs.Reading.{number_at, token_at};
ghost use Rattle.relay_log.specs.Reading.{moment_at, id_of, refused_of, stored_of, taken_of};
ghost use Rattle.relay_log.specs.Reading.{said_of, checked_at, entry_at, front_at};
ghost use Rattle.relay_log.specs.Views.{entry_view, journal_view};

use crate::check::check;
use crate::journal::{Entry, Journal};
use cyc_token::Token;
use id_history::LAST_MOMENT;
use nntp_text::{IdError, MsgId};
use std::alloc::{AllocError, Global};

/// The four octets that a journal begins with.
pub(crate) const MARK: [u8; 4] = *b"CNL1";

/// A number of two octets.
fn number16(bytes: &[u8]) -> Option<(u16, &[u8])>
    ensures { number_at w16 bytes.now ≡ option_map (λ x. (x.0, x.1.now)) result }
{
    match bytes.split_first_chunk::<2>() {
        Some((octets, rest)) => Some((u16::from_be_bytes(*octets), rest)),
        None => None,
    }
}

/// A number of eight octets.
fn number64(bytes: &[u8]) -> Option<(u64, &[u8])>
    ensures { number_at w64 bytes.now ≡ option_map (λ x. (x.0, x.1.now)) result }
{
    match bytes.split_first_chunk::<8>() {
        Some((octets, rest)) => Some((u64::from_be_bytes(*octets), rest)),
        None => None,
    }
}

/// A moment that there is.
#[tactic(auto, unfolding(crate::specs::Reading::moment_at))]
fn moment(bytes: &[u8]) -> Option<(u64, &[u8])>
    ensures { moment_at bytes.now ≡ option_map (λ x. (x.0, x.1.now)) result }
{
    match number64(bytes) {
        Some((moment, rest)) => {
            if moment <= LAST_MOMENT {
                Some((moment, rest))
            } else {
                None
            }
        }
        None => None,
    }
}

/// A token.
fn token(bytes: &[u8]) -> Option<(Token, &[u8])>
    ensures { token_at bytes.now ≡ option_map (λ x. (token_view x.0, x.1.now)) result }
{
    match bytes.split_first_chunk::<14>() {
        Some((octets, rest)) => Some((Token::from_octets(octets), rest)),
        None => None,
    }
}

/// A message-id, after which nothing follows.
fn id(alloc: Global, text: &[u8]) -> Result<Option<MsgId>, AllocError>
    ensures { IfOk result (λ id. id ≡ id_of text.now) }
{
    match MsgId::parse(alloc, text) {
        Ok(id) => Ok(Some(id)),
        Err(IdError::Memory) => Err(AllocError),
        Err(_) => Ok(None),
    }
}

/// An article that was refused.
#[tactic(auto, unfolding(crate::specs::Reading::refused_of))]
fn refused(alloc: Global, bytes: &[u8]) -> Result<Option<Entry>, AllocError>
    ensures { IfOk result (λ entry. option_map entry_view entry ≡ refused_of bytes.now) }
{
    let Some((moment, rest)) = moment(bytes) else {
        return Ok(None);
    };
    match id(alloc, rest)? {
        Some(id) => Ok(Some(Entry::Refused { id, moment })),
        None => Ok(None),
    }
}

/// An article that was stored.
#[tactic(auto, unfolding(crate::specs::Reading::stored_of))]
fn stored(alloc: Global, bytes: &[u8]) -> Result<Option<Entry>, AllocError>
    ensures { IfOk result (λ entry. option_map entry_view entry ≡ stored_of bytes.now) }
{
    let Some((moment, rest)) = moment(bytes) else {
        return Ok(None);
    };
    let Some((token, rest)) = token(rest) else {
        return Ok(None);
    };
    match id(alloc, rest)? {
        Some(id) => Ok(Some(Entry::Stored { id, moment, token })),
        None => Ok(None),
    }
}

/// A take of a feed.
#[tactic(auto, unfolding(crate::specs::Reading::taken_of))]
fn taken(bytes: &[u8]) -> Option<Entry>
    ensures { option_map entry_view result ≡ taken_of bytes.now }
{
    let Some((feed, rest)) = number16(bytes) else {
        return None;
    };
    let Some((gained, rest)) = number64(rest) else {
        return None;
    };
    let Some((passed, rest)) = number64(rest) else {
        return None;
    };
    let Some((taken, rest)) = number64(rest) else {
        return None;
    };
    if !rest.is_empty() {
        return None;
    }
    Some(Entry::Taken {
        feed,
        gained,
        passed,
        taken,
    })
}

/// What an entry says.
#[tactic(auto, unfolding(crate::specs::Reading::said_of))]
fn said(alloc: Global, bytes: &[u8]) -> Result<Option<Entry>, AllocError>
    ensures { IfOk result (λ entry. option_map entry_view entry ≡ said_of bytes.now) }
{
    let [kind, content @ ..] = bytes else {
        return Ok(None);
    };
    match *kind {
        1 => refused(alloc, content),
        2 => stored(alloc, content),
        3 => Ok(taken(content)),
        _ => Ok(None),
    }
}

/// What the entry in front says, where its check is right, and the octets after it.
#[tactic(auto, unfolding(crate::specs::Reading::checked_at))]
fn checked(bytes: &[u8]) -> Option<(&[u8], &[u8])>
    ensures { checked_at bytes.now ≡ option_map (λ x. (x.0.now, x.1.now)) result }
{
    let Some((count, rest)) = number16(bytes) else {
        return None;
    };
    let count = usize::from(count);
    if rest.len() < count {
        return None;
    }
    let (said, rest) = rest.split_at(count);
    let Some((sum, rest)) = rest.split_first_chunk::<4>() else {
        return None;
    };
    if u32::from_be_bytes(*sum) != check(&bytes[..2 + count]) {
        return None;
    }
    Some((said, rest))
}

/// The entry in front, and the octets after it.
#[tactic(auto, unfolding(crate::specs::Reading::entry_at))]
fn entry(alloc: Global, bytes: &[u8]) -> Result<Option<(Entry, &[u8])>, AllocError>
    ensures { IfOk result (λ found. option_map (λ x. (entry_view x.0, x.1.now)) found
        ≡ entry_at bytes.now) }
{
    let Some((octets, rest)) = checked(bytes) else {
        return Ok(None);
    };
    match said(alloc, octets)? {
        Some(entry) => Ok(Some((entry, rest))),
        None => Ok(None),
    }
}

/// The entries in front, one behind the other, and the octets after them, which begin with none.
fn entries(alloc: Global, bytes: &[u8]) -> Result<(Vec<Entry>, &[u8]), AllocError>
    ensures octets { IfOk result (λ x. bytes.now
        ≡ flat_map entry_octets (map entry_view x.0.items) ++ x.1.now) }
    ensures entries { IfOk result (λ x. AllByRecursion IsEntry (map entry_view x.0.items)) }
    ensures ends { IfOk result (λ x. ¬ BeginsWithEntry x.1.now) }
{
    let mut all = Vec::new(alloc);
    let mut rest = bytes;
    while let Some((one, after)) = entry(alloc, rest)? {
        all.push(one)?;
        rest = after;
    }
    Ok((all, rest))
}

/// The number of the stop, and the octets after the front.
#[tactic(auto, unfolding(crate::specs::Reading::front_at))]
fn front(bytes: &[u8]) -> Option<(u64, &[u8])>
    ensures { front_at bytes.now ≡ option_map (λ x. (x.0, x.1.now)) result }
{
    match bytes.strip_prefix(&MARK) {
        Some(rest) => number64(rest),
        None => None,
    }
}

/// The longest beginning of the text that is a journal; `None` where the text has not the front of
/// one. Reading takes a time that is linear in the text, and memory for what it gives alone.
pub fn read(alloc: Global, text: &[u8]) -> Result<Option<Journal>, AllocError>
    // What was read is the text up to a place where no entry begins.
    ensures longest { IfOk result (λ found.
        IfSome found (λ journal. IsLongest text.now (journal_view journal))) }

    // A text that has the front of a journal is read.
    ensures front { IfOk result (λ found. IfNone found (¬ HasFront text.now)) }
{
    let Some((stop, behind)) = front(text) else {
        return Ok(None);
    };
    let (entries, rest) = entries(alloc, behind)?;
    let octets = text.len() - rest.len();
    Ok(Some(Journal {
        stop,
        entries,
        octets,
    }))
}
