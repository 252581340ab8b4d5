//! Laws of the text of a history, and the worked example *relay.hist*.
ghost use Rattle.std.specs.Prelude.{◌≡◌, ◌∷◌, [], Some, drop, length, take};
ghost use Rattle.id_history.specs.Examples.{first_stop, unlike_stop};
ghost use Rattle.id_history.specs.History.{Kept, Fits, Holds, history_octets};
ghost use Rattle.id_history.specs.Reading.{Gives};
ghost use Rattle.id_history.specs.Room.{HasRoom};
ghost use Rattle.id_history.specs.Views.{history_view, setting_view};

use crate::{History, HistoryError, Setting, read, write};
use std::alloc::Global;

/// What was written is read again, unless memory runs out.
pub fn read_back(
    alloc: Global,
    history: &History,
    setting: &Setting,
) -> Result<History, HistoryError>
    requires room { HasRoom history.now }
    requires holds { Holds (setting_view setting.now) (history_view history.now) }
    ensures { Gives history_view result (Some (history_view history.now)) }
{
    match write(alloc, history) {
        Ok(text) => read(alloc, &text, setting),
        Err(_) => Err(HistoryError::Memory),
    }
}

/// A text is that of one history.
pub fn one_text()
    ensures { (one other : Kept) → Fits one → Fits other
        → history_octets one ≡ history_octets other → one ≡ other }
{}

/// The text after one article was stored, in a relay of one group and one feed.
pub fn first_stop_example()
    ensures length { length (history_octets first_stop) ≡ 111 }
    ensures mark { take 12 (history_octets first_stop)
        ≡ 0x43 ∷ 0x4E ∷ 0x52 ∷ 0x31 ∷ 0 ∷ 0 ∷ 0 ∷ 0 ∷ 0 ∷ 0 ∷ 0 ∷ 1 ∷ [] }
    ensures last { drop 82 (history_octets first_stop)
        ≡ 0x05 ∷ 0x3C ∷ 0x61 ∷ 0x40 ∷ 0x78 ∷ 0x3E ∷ 0x02 ∷ 0 ∷ 0 ∷ 0 ∷ 0 ∷ 0x5F ∷ 0xEE ∷ 0x66
        ∷ 0 ∷ 1 ∷ 0 ∷ 0 ∷ 0 ∷ 0 ∷ 0 ∷ 0 ∷ 0 ∷ 0 ∷ 0 ∷ 0 ∷ 0 ∷ 0 ∷ 0xA4 ∷ [] }
{}

/// The text of a stop of which no two numbers are alike but those of its lists: where each stands.
pub fn unlike_stop_example()
    ensures { history_octets unlike_stop
        ≡ 0x43 ∷ 0x4E ∷ 0x52 ∷ 0x31 ∷ 0 ∷ 0 ∷ 0 ∷ 0 ∷ 0 ∷ 0 ∷ 0 ∷ 2 ∷ 0 ∷ 0 ∷ 0 ∷ 0 ∷ 0 ∷ 0 ∷ 0 ∷
        3 ∷ 0 ∷ 0 ∷ 0 ∷ 2 ∷ 0 ∷ 0 ∷ 0 ∷ 7 ∷ 0 ∷ 0 ∷ 0 ∷ 8 ∷ 0 ∷ 0 ∷ 0 ∷ 1 ∷ 0 ∷ 0 ∷ 0 ∷ 0 ∷ 0 ∷
        0 ∷ 0 ∷ 9 ∷ 0 ∷ 0 ∷ 0 ∷ 0 ∷ 0 ∷ 0 ∷ 0 ∷ 6 ∷ 0 ∷ 0 ∷ 0 ∷ 0 ∷ 0 ∷ 0 ∷ 0 ∷ 1 ∷ 0 ∷ 0 ∷ 0 ∷
        1 ∷ 10 ∷ 11 ∷ 0 ∷ 0 ∷ 0 ∷ 12 ∷ 0 ∷ 0 ∷ 0 ∷ 13 ∷ 0 ∷ 0 ∷ 0 ∷ 14 ∷ 0 ∷ 0 ∷ 0 ∷ 0 ∷ 0 ∷ 0 ∷
        0 ∷ 1 ∷ 5 ∷ 60 ∷ 98 ∷ 64 ∷ 120 ∷ 62 ∷ 1 ∷ 0 ∷ 0 ∷ 0 ∷ 0 ∷ 0 ∷ 0 ∷ 0 ∷ 4 ∷ [] }
{}
