//! Histories, taken by name.
ghost use Rattle.std.specs.Prelude.{◌≡◌, IfOk};
ghost use Rattle.id_history.specs.History.{Fits, history_octets};
ghost use Rattle.id_history.specs.Room.{HasRoom};
ghost use Rattle.id_history.specs.Views.{history_view};
ghost use Rattle.named_history.specs.Naming as terms;
ghost use Rattle.relay_names.specs.Views.{names_view};

use crate::feeds::feeds_by;
use crate::groups::{are_positions, positions_by};
use id_history::{History, write};
use relay_names::Names;
use std::alloc::{AllocError, Global};

/// Whether the names can be those under which the history was kept.
pub fn is_of(names: &Names, history: &History) -> bool
    ensures { result ≡ terms.is_of (names_view names.now) (history_view history.now) }
{
    names.feeds.len() == history.feeds.len() && are_positions(&history.positions, &names.groups)
}

/// What a relay of these names and rings goes on with, from a history that was kept under the known
/// names. Names in numbers of 2^32 and more are met as if memory had run out.
pub fn named(
    alloc: Global,
    known: &Names,
    own: &Names,
    rings: &[u32],
    history: History,
) -> Result<History, AllocError>
    ensures named { IfOk result (λ new. history_view new
        ≡ terms.named (names_view known.now) (names_view own.now) rings.now
        (history_view history)) }

    // So it can be written.
    ensures room { IfOk result HasRoom }
{
    let History {
        stop,
        newest,
        positions,
        feeds,
        ids,
    } = history;
    let positions = positions_by(alloc, &known.groups, &positions, &own.groups)?;
    let feeds = feeds_by(alloc, &known.feeds, feeds, &own.feeds, rings)?;
    Ok(History {
        stop,
        newest,
        positions,
        feeds,
        ids,
    })
}

/// The text of that history.
pub fn text_by(
    alloc: Global,
    known: &Names,
    own: &Names,
    rings: &[u32],
    history: History,
) -> Result<Vec<u8>, AllocError>
    ensures octets { IfOk result (λ text. text.items ≡ history_octets
        (terms.named (names_view known.now) (names_view own.now) rings.now
        (history_view history))) }

    // Each part has room in the text, so that it can be read again.
    ensures fits { IfOk result (λ text. Fits
        (terms.named (names_view known.now) (names_view own.now) rings.now
        (history_view history))) }
{
    let new = named(alloc, known, own, rings, history)?;
    write(alloc, &new)
}
