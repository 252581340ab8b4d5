//! Reading the text of a history.
ghost use Rattle.std.specs.Prelude.{◌≡◌, ℕ, List, Option, map, option_map, IfOk, Some};
ghost use Rattle.std.specs.Int.{w32, w64};
ghost use Rattle.cyc_token.specs.Token.{token_view};
ghost use Rattle.news_terms.specs.Token as terms;
ghost use Rattle.id_history.specs.Reading.{Gives, number_at, token_at, id_at, fate_at};
ghost use Rattle.id_history.specs.Reading.{kept_id_at, times_at, counted_at, feed_at, marked_at};
ghost use Rattle.id_history.specs.Reading.{lists_at, all_of};
ghost use Rattle.id_history.specs.History.{Kept, Fits, Holds, history_octets};
ghost use Rattle.id_history.specs.History as kept;
ghost use Rattle.id_history.specs.Views.{id_view, feed_view, history_view, setting_view};

use crate::conditions::holds;
use crate::fault::HistoryError;
use crate::kept::{History, KeptFeed, KeptId, Setting};
use cyc_token::Token;
use nntp_text::{IdError, MsgId};
use std::alloc::Global;

/// The four octets that a history begins with.
pub(crate) const MARK: [u8; 4] = *b"CNR1";

/// A kind of which a history has many, one after the other.
trait Readable: Drop {
    // What one says.
    ghost Said: { Type 0 };

    // A value that says this.
    ghost said: { Self → Said };

    // What the octets say from the front on, and those after it.
    ghost at: { List ℕ → Option (Said × List ℕ) };

    /// Reads one, and gives the octets after it.
    fn read(alloc: Global, bytes: &[u8]) -> Result<(Self, &[u8]), HistoryError>
        ensures { Gives (λ x. (said x.0, x.1.now)) result (at bytes.now) };
}

/// A number of four octets.
impl Readable for u32 {
    ghost Said = { ℕ };

    ghost said = { λ number. number };

    ghost at = { number_at w32 };

    fn read(_alloc: Global, bytes: &[u8]) -> Result<(u32, &[u8]), HistoryError> {
        match bytes.split_first_chunk::<4>() {
            Some((octets, rest)) => Ok((u32::from_be_bytes(*octets), rest)),
            None => Err(HistoryError::BadHistory),
        }
    }
}

/// A number of eight octets.
fn number64(bytes: &[u8]) -> Option<(u64, &[u8])>
    ensures { number_at w64 bytes.now ≡ option_map (λ x. (x.0, x.1.now)) result }
{
    match bytes.split_first_chunk::<8>() {
        Some((octets, rest)) => Some((u64::from_be_bytes(*octets), rest)),
        None => None,
    }
}

/// A token.
impl Readable for Token {
    ghost Said = { terms.Token };

    ghost said = { token_view };

    ghost at = { token_at };

    fn read(_alloc: Global, bytes: &[u8]) -> Result<(Token, &[u8]), HistoryError> {
        let Some((octets, rest)) = bytes.split_first_chunk::<14>() else {
            return Err(HistoryError::BadHistory);
        };
        Ok((Token::from_octets(octets), rest))
    }
}

/// A message-id.
#[tactic(auto, unfolding(crate::specs::Reading::id_at))]
fn id(alloc: Global, bytes: &[u8]) -> Result<(MsgId, &[u8]), HistoryError>
    ensures { Gives (λ x. (x.0, x.1.now)) result (id_at bytes.now) }
{
    let [count, rest @ ..] = bytes else {
        return Err(HistoryError::BadHistory);
    };
    let count = usize::from(*count);
    if rest.len() < count {
        return Err(HistoryError::BadHistory);
    }
    let (text, rest) = rest.split_at(count);
    match MsgId::parse(alloc, text) {
        Ok(id) => Ok((id, rest)),
        Err(IdError::Memory) => Err(HistoryError::Memory),
        Err(_) => Err(HistoryError::BadHistory),
    }
}

/// What became of a message-id: the token, where it is stored, and the moment.
#[tactic(auto, unfolding(crate::specs::Reading::fate_at))]
fn fate(alloc: Global, bytes: &[u8]) -> Result<(Option<Token>, u64, &[u8]), HistoryError>
    ensures { Gives (λ x. ((option_map token_view x.0, x.1), x.2.now)) result (fate_at bytes.now) }
{
    let [kind, rest @ ..] = bytes else {
        return Err(HistoryError::BadHistory);
    };
    let Some((moment, rest)) = number64(rest) else {
        return Err(HistoryError::BadHistory);
    };
    match *kind {
        1 => Ok((None, moment, rest)),
        2 => match Token::read(alloc, rest) {
            Ok((token, rest)) => Ok((Some(token), moment, rest)),
            Err(error) => Err(error),
        },
        _ => Err(HistoryError::BadHistory),
    }
}

/// A message-id that is remembered.
impl Readable for KeptId {
    ghost Said = { kept.KeptId };

    ghost said = { id_view };

    ghost at = { kept_id_at };

    #[tactic(auto, unfolding(crate::specs::Reading::kept_id_at))]
    fn read(alloc: Global, bytes: &[u8]) -> Result<(KeptId, &[u8]), HistoryError> {
        match id(alloc, bytes) {
            Ok((id, rest)) => match fate(alloc, rest) {
                Ok((token, moment, rest)) => Ok((KeptId { id, token, moment }, rest)),
                Err(error) => Err(error),
            },
            Err(error) => Err(error),
        }
    }
}

/// A feed.
impl Readable for KeptFeed {
    ghost Said = { kept.KeptFeed };

    ghost said = { feed_view };

    ghost at = { feed_at };

    #[tactic(auto, unfolding(crate::specs::Reading::feed_at))]
    fn read(alloc: Global, bytes: &[u8]) -> Result<(KeptFeed, &[u8]), HistoryError> {
        let Some((gained, rest)) = number64(bytes) else {
            return Err(HistoryError::BadHistory);
        };
        let Some((passed, rest)) = number64(rest) else {
            return Err(HistoryError::BadHistory);
        };
        let Some((taken, rest)) = number64(rest) else {
            return Err(HistoryError::BadHistory);
        };
        match counted(alloc, rest) {
            Ok((waiting, rest)) => {
                let feed = KeptFeed {
                    gained,
                    passed,
                    taken,
                    waiting,
                };
                Ok((feed, rest))
            }
            Err(error) => Err(error),
        }
    }
}

/// So many of a kind.
fn times<T: Readable>(
    alloc: Global,
    count: u64,
    bytes: &[u8],
) -> Result<(Vec<T>, &[u8]), HistoryError>
    ensures { Gives (λ x. (map T.said x.0.items, x.1.now)) result (times_at T.at count bytes.now) }
{
    let mut all = Vec::new(alloc);
    let mut rest = bytes;
    for _ in 0..count {
        let (one, after) = T::read(alloc, rest)?;
        all.push(one)?;
        rest = after;
    }
    Ok((all, rest))
}

/// Those of a kind, after their number of four octets.
#[tactic(auto, unfolding(crate::specs::Reading::counted_at))]
fn counted<T: Readable>(alloc: Global, bytes: &[u8]) -> Result<(Vec<T>, &[u8]), HistoryError>
    ensures { Gives (λ x. (map T.said x.0.items, x.1.now)) result (counted_at w32 T.at bytes.now) }
{
    match u32::read(alloc, bytes) {
        Ok((count, rest)) => times(alloc, u64::from(count), rest),
        Err(error) => Err(error),
    }
}

/// The message-ids, after their number of eight octets.
#[tactic(auto, unfolding(crate::specs::Reading::counted_at))]
fn counted_ids(alloc: Global, bytes: &[u8]) -> Result<(Vec<KeptId>, &[u8]), HistoryError>
    ensures { Gives (λ x. (map id_view x.0.items, x.1.now)) result
        (counted_at w64 kept_id_at bytes.now) }
{
    let Some((count, rest)) = number64(bytes) else {
        return Err(HistoryError::BadHistory);
    };
    times(alloc, count, rest)
}

/// The lists of a history, each after its number.
#[tactic(auto, unfolding(crate::specs::Reading::lists_at))]
fn lists(
    alloc: Global,
    stop: u64,
    newest: u64,
    bytes: &[u8],
) -> Result<(History, &[u8]), HistoryError>
    ensures { Gives (λ x. (history_view x.0, x.1.now)) result (lists_at stop newest bytes.now) }
{
    let (positions, rest) = counted(alloc, bytes)?;
    let (feeds, rest) = counted(alloc, rest)?;
    let (ids, rest) = match counted_ids(alloc, rest) {
        Ok(read) => read,
        Err(error) => {
            drop(feeds);
            return Err(error);
        }
    };
    let history = History {
        stop,
        newest,
        positions,
        feeds,
        ids,
    };
    Ok((history, rest))
}

/// The octets after the mark.
fn marked(bytes: &[u8]) -> Result<&[u8], HistoryError>
    ensures { Gives (λ x. x.now) result (marked_at bytes.now) }
{
    match bytes.strip_prefix(&MARK) {
        Some(rest) => Ok(rest),
        None => Err(HistoryError::BadHistory),
    }
}

/// The history of which these octets are the text, whatever the configuration.
#[tactic(auto, unfolding(crate::specs::Reading::all_of))]
fn all(alloc: Global, bytes: &[u8]) -> Result<History, HistoryError>
    ensures { Gives history_view result (all_of bytes.now) }
{
    let rest = marked(bytes)?;
    let Some((stop, rest)) = number64(rest) else {
        return Err(HistoryError::BadHistory);
    };
    let Some((newest, rest)) = number64(rest) else {
        return Err(HistoryError::BadHistory);
    };
    let (history, rest) = lists(alloc, stop, newest, rest)?;
    if !rest.is_empty() {
        drop(history);
        return Err(HistoryError::BadHistory);
    }
    Ok(history)
}

/// The history of which this is the text, where it is one that a relay with this setting can have
/// stopped with. Reading takes a time that is linear in the text.
pub fn read(alloc: Global, text: &[u8], setting: &Setting) -> Result<History, HistoryError>
    // What is read is written so, and holds.
    ensures found { IfOk result (λ history. Fits (history_view history)
        × Holds (setting_view setting.now) (history_view history)
        × (text.now ≡ history_octets (history_view history))) }

    // What is written so and holds is read, unless memory runs out.
    ensures only { (kept : Kept) → Fits kept → Holds (setting_view setting.now) kept
        → text.now ≡ history_octets kept → Gives history_view result (Some kept) }
{
    let history = all(alloc, text)?;
    if !holds(setting, &history) {
        drop(history);
        return Err(HistoryError::BadHistory);
    }
    Ok(history)
}

/// The history that a text is, whatever the configuration.
pub fn read_any(alloc: Global, text: &[u8]) -> Result<History, HistoryError>
    ensures { Gives history_view result (all_of text.now) }
{
    all(alloc, text)
}
