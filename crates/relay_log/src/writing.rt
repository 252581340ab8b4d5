//! Writing the text of a journal.
ghost use Rattle.std.specs.Prelude.{◌≡◌, ◌+◌, ◌≤◌, ◌∷◌, ◌++◌, [], length, IfOk, OnOk, OnErr};
ghost use Rattle.std.specs.Prelude.{IsOk, vec_capacity, vec_len};
ghost use Rattle.std.specs.Int.{to_be_bytes, w16, w32, w64};
ghost use Rattle.cyc_token.specs.Token.{token_view};
ghost use Rattle.relay_log.specs.Check.{check};
ghost use Rattle.relay_log.specs.Journal.{entry_octets, journal_octets, HasMoment, IsEntry};
ghost use Rattle.relay_log.specs.Journal.{Refused, Stored};
ghost use Rattle.relay_log.specs.Room.{HasEntryRoom, most_entry_octets};
ghost use Rattle.relay_log.specs.Views.{entry_view};

use crate::check::{BASIS, not_zero, sum_on};
use crate::journal::Entry;
use crate::reading::MARK;
use cyc_token::Token;
use line_words::put_octets;
use nntp_text::MsgId;
use std::alloc::{AllocError, Global};

/// The most octets of an entry: one that was stored, with a message-id of 250 octets.
pub const MOST_ENTRY_OCTETS: usize = 279;

/// The octets of a kind and a moment.
const DATED_OCTETS: u16 = 9;

/// The octets of a token.
const TOKEN_OCTETS: u16 = 14;

/// What a take begins with: that 27 octets follow, and the kind.
const TAKEN: [u8; 3] = [0, 27, 3];

/// The text of a journal without entries, which begins after this stop.
pub fn begin(alloc: Global, stop: u64) -> Result<Vec<u8>, AllocError>
    ensures { IfOk result (λ text. text.items ≡ journal_octets stop []) }
{
    [MARK.as_slice(), stop.to_be_bytes().as_slice()].concat(alloc)
}

/// Puts the entry behind the text.
pub fn append(out: &mut Vec<u8>, entry: &Entry) -> Result<(), AllocError>
    ensures octets { OnOk result
        (out.new.items ≡ out.old.items ++ entry_octets (entry_view entry.now)) }

    // No part of an entry is left.
    ensures unchanged { OnErr result (out.new.items ≡ out.old.items) }

    // It can be read again, unless its moment is none that there is.
    ensures entry { OnOk result
        (HasMoment (entry_view entry.now) → IsEntry (entry_view entry.now)) }
{
    match entry {
        Entry::Refused { id, moment } => append_refused(out, id, *moment),
        Entry::Stored { id, moment, token } => append_stored(out, id, *moment, token),
        Entry::Taken {
            feed,
            gained,
            passed,
            taken,
        } => {
            let counts = [
                gained.to_be_bytes(),
                passed.to_be_bytes(),
                taken.to_be_bytes(),
            ];
            put(out, &TAKEN, &feed.to_be_bytes(), counts.as_flattened())
        }
    }
}

/// Puts behind the text that an article of the message-id was refused at this moment.
pub fn append_refused(out: &mut Vec<u8>, id: &MsgId, moment: u64) -> Result<(), AllocError>
    ensures octets { OnOk result
        (out.new.items ≡ out.old.items ++ entry_octets (Refused id.now moment)) }
    ensures unchanged { OnErr result (out.new.items ≡ out.old.items) }
    ensures entry { OnOk result
        (HasMoment (Refused id.now moment) → IsEntry (Refused id.now moment)) }

    // Where there is room for the longest entry, no memory is taken.
    ensures room { HasEntryRoom out.old → IsOk result }
    ensures capacity { HasEntryRoom out.old → vec_capacity out.new ≡ vec_capacity out.old }
{
    let id = id.as_bytes();
    let count = DATED_OCTETS + id.len() as u16;
    put(out, &dated(count, 1, moment), &[], id)
}

/// Puts behind the text that an article of the message-id was stored under the token at this
/// moment.
pub fn append_stored(
    out: &mut Vec<u8>,
    id: &MsgId,
    moment: u64,
    token: &Token,
) -> Result<(), AllocError>
    ensures octets { OnOk result (out.new.items
        ≡ out.old.items ++ entry_octets (Stored id.now moment (token_view token.now))) }
    ensures unchanged { OnErr result (out.new.items ≡ out.old.items) }
    ensures entry { OnOk result (HasMoment (Stored id.now moment (token_view token.now))
        → IsEntry (Stored id.now moment (token_view token.now))) }

    // Where there is room for the longest entry, no memory is taken.
    ensures room { HasEntryRoom out.old → IsOk result }
    ensures capacity { HasEntryRoom out.old → vec_capacity out.new ≡ vec_capacity out.old }
{
    let id = id.as_bytes();
    let count = DATED_OCTETS + TOKEN_OCTETS + id.len() as u16;
    put(out, &dated(count, 2, moment), &token.octets(), id)
}

/// What stands before token and message-id: how many octets follow, the kind and the moment.
fn dated(count: u16, kind: u8, moment: u64) -> [u8; 11]
    ensures { result ≡ to_be_bytes w16 count ++ (kind ∷ to_be_bytes w64 moment) }
{
    let count = count.to_be_bytes();
    let moment = moment.to_be_bytes();
    [
        count[0], count[1], kind, moment[0], moment[1], moment[2], moment[3], moment[4], moment[5],
        moment[6], moment[7],
    ]
}

/// Puts three texts behind one another, and their check behind them.
fn put(out: &mut Vec<u8>, first: &[u8], second: &[u8], third: &[u8]) -> Result<(), AllocError>
    requires { length first.now + length second.now + length third.now ≤ 275 }
    ensures octets { OnOk result (out.new.items ≡ out.old.items ++ (first.now ++ (second.now
        ++ (third.now ++ to_be_bytes w32 (check (first.now ++ (second.now ++ third.now))))))) }
    ensures unchanged { OnErr result (out.new.items ≡ out.old.items) }
    ensures room { HasEntryRoom out.old → IsOk result }
    ensures capacity { HasEntryRoom out.old → vec_capacity out.new ≡ vec_capacity out.old }
{
    let sum = sum_on(sum_on(sum_on(BASIS, first), second), third);
    let check = not_zero(sum).to_be_bytes();

    // Room for all of it first: what fails then leaves no part of an entry.
    find_room(out)?;
    put_octets(out, first);
    put_octets(out, second);
    put_octets(out, third);
    put_octets(out, &check);
    Ok(())
}

/// Finds room for an entry, whichever it is.
fn find_room(out: &mut Vec<u8>) -> Result<(), AllocError>
    ensures items { out.new.items ≡ out.old.items }
    ensures len { vec_len out.new ≡ vec_len out.old }
    ensures found { OnOk result (HasEntryRoom out.new) }
    ensures room { HasEntryRoom out.old → IsOk result }
    ensures capacity { HasEntryRoom out.old → vec_capacity out.new ≡ vec_capacity out.old }
{
    if out.capacity() - out.len() < MOST_ENTRY_OCTETS {
        out.reserve(MOST_ENTRY_OCTETS)?;
    }
    Ok(())
}
