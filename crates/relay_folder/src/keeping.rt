//! A history is kept.
ghost use Rattle.std.specs.Prelude.{◌≡◌, ◌∷◌, [], Some, OnErr, OnOk};
ghost use Rattle.relay_folder.specs.Keeping.{IsAsBefore, IsNotKept};
ghost use Rattle.relay_folder.specs.Place.{Nothing};

use crate::history_place::HistoryPlace;
use std::io;

/// Keeps this text in the place of the one that was kept before, for good: a power cut leaves it.
/// Until all of it is on the device the one before stays, and what is left beside it where this
/// fails is taken away when the next text is kept. Where the names alone can't be flushed the text
/// is kept, and a power cut may bring back the one before.
pub fn keep<P: HistoryPlace>(place: &mut P, text: &[u8]) -> io::Result<()>
    ensures kept { P.honest place.old → OnOk result (P.kept place.new ≡ Some text.now) }
    ensures lasts { P.honest place.old
        → OnOk result (P.lasting place.new ≡ Some text.now ∷ []) }
    ensures clear { P.honest place.old → OnOk result (P.beside place.new ≡ Nothing) }
    ensures refused { P.honest place.old
        → OnErr result (IsNotKept P.HistoryPlace text.now place.old place.new) }
    ensures honest { P.honest place.old → P.honest place.new }
{
    put_there(place, text)?;
    place.flush_names()
}

/// Puts this text in the place of the one that was kept before, once the device has all of it.
fn put_there<P: HistoryPlace>(place: &mut P, text: &[u8]) -> io::Result<()>
    ensures kept { P.honest place.old → OnOk result (P.kept place.new ≡ Some text.now) }
    ensures may { P.honest place.old
        → OnOk result (P.lasting place.new ≡ Some text.now ∷ P.lasting place.old) }
    ensures clear { P.honest place.old → OnOk result (P.beside place.new ≡ Nothing) }
    ensures same { P.honest place.old
        → OnErr result (IsAsBefore P.HistoryPlace place.old place.new) }
    ensures honest { P.honest place.old → P.honest place.new }
{
    place.clear_beside()?;
    place.write_beside(text)?;
    // A text that took its place before the device has it could be a front of itself later.
    place.flush_beside()?;
    place.put_in_place()
}
