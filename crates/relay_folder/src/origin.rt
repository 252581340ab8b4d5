//! What a relay begins from.
ghost use Rattle.std.specs.Prelude.{◌≡◌, ◌⊎◌, ◌∷◌, [], true, false, None, IfOk, IsTrue, OnErr};
ghost use Rattle.std.specs.Prelude.{OnOk};
ghost use Rattle.relay_folder.specs.Keeping.{IsAsBefore, IsNotTakenAway};
ghost use Rattle.relay_folder.specs.Origin.{begins_from, origin_view, IsFormatted};

use crate::history_place::HistoryPlace;
use std::alloc::Global;
use std::io;

/// What a relay begins from (docs/PROTOCOL.md, `serve`).
#[derive(Drop)]
pub enum Origin {
    /// From nothing: all its buffers are formatted.
    Formatted,
    /// From what it was stopped with: its buffers, and this text of a history.
    Stopped(Vec<u8>),
}

/// What a relay begins from: `fresh` asks for nothing, `blank` says that no buffer was kept in any
/// file. A history that a relay is not to begin from is taken away first: when the new one is
/// stopped for the first time its number might be that of the old one's stop. So a power cut
/// mustn't bring it back either.
pub fn origin_of<P: HistoryPlace>(
    alloc: Global,
    place: &mut P,
    fresh: bool,
    blank: bool,
) -> io::Result<Origin>
    ensures origin { P.honest place.old → IfOk result (λ origin.
        origin_view origin ≡ begins_from fresh blank (P.kept place.old)) }
    // From nothing only where that is asked for, or no buffer was kept, whatever the place gives.
    ensures formatted { IfOk result (λ origin. IsFormatted origin
        → IsTrue fresh ⊎ IsTrue blank) }
    ensures gone { P.honest place.old → fresh ≡ true → OnOk result (P.kept place.new ≡ None) }
    ensures lasts { P.honest place.old → fresh ≡ true
        → OnOk result (P.lasting place.new ≡ None ∷ []) }
    ensures same { P.honest place.old → fresh ≡ false
        → IsAsBefore P.HistoryPlace place.old place.new }
    ensures refused { P.honest place.old
        → OnErr result (IsNotTakenAway P.HistoryPlace place.old place.new) }
    ensures honest { P.honest place.old → P.honest place.new }
{
    if fresh {
        take_away(place)?;
        return Ok(Origin::Formatted);
    }
    match place.read(alloc)? {
        Some(text) => Ok(Origin::Stopped(text)),
        None => Ok(origin_without(alloc, blank)),
    }
}

/// Takes the text of a place away for good: no power cut brings it back.
pub fn take_away<P: HistoryPlace>(place: &mut P) -> io::Result<()>
    ensures gone { P.honest place.old → OnOk result (P.kept place.new ≡ None) }
    ensures lasts { P.honest place.old → OnOk result (P.lasting place.new ≡ None ∷ []) }
    ensures refused { P.honest place.old
        → OnErr result (IsNotTakenAway P.HistoryPlace place.old place.new) }
    ensures honest { P.honest place.old → P.honest place.new }
{
    place.remove()?;
    place.flush_names()
}

/// What a relay begins from whose folder has no history.
fn origin_without(alloc: Global, blank: bool) -> Origin
    ensures origin { origin_view result ≡ begins_from false blank None }
    ensures formatted { IsFormatted result → IsTrue blank }
{
    if blank {
        Origin::Formatted
    } else {
        Origin::Stopped(Vec::new(alloc))
    }
}
