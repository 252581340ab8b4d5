//! Marks of a buffer, and what they tell.
ghost use Rattle.std.specs.Prelude.{◌≡◌};
ghost use Rattle.buffer_ages.specs.Marks as terms;

use line_words::Octets;

/// How many marks a buffer has at most: one for each 64th of it, and the one before them.
pub const MOST_MARKS: usize = 65;

/// At this moment the front of a buffer was here.
#[derive(Clone, Copy)]
pub struct Mark {
    /// The front, in blocks of 512 octets, counted on over all cycles.
    pub front: u64,
    /// The moment, in seconds since 1970 UTC.
    pub moment: u64,
}

/// The marks of a buffer, the oldest first.
pub struct BufferMarks {
    /// The name of the buffer.
    pub name: Octets,
    pub marks: Vec<Mark>,
}

// Written out, so that no crate above proves anew how each part is let go.
impl Drop for BufferMarks {
    fn drop(self) {
        let BufferMarks { name: _, marks: _ } = self;
    }
}

/// Since when the oldest article is there that a buffer of so many blocks, whose front is here,
/// still has: the moment of the first mark past the oldest live place. So each article is there
/// that came since then, and it may be that the oldest came a little before. None where nothing is
/// there, and where no mark is at or behind that place: what was there by the first mark came
/// nobody knows when.
pub fn since(marks: &[Mark], front: u64, blocks: u64) -> Option<u64>
    ensures { result ≡ terms.since marks.now front blocks }
{
    let place = front.saturating_sub(blocks);
    let (first, later) = marks.split_first()?;
    if first.front <= place {
        first_past(later, place)
    } else {
        None
    }
}

/// The moment of the first of these marks that is past a place.
fn first_past(marks: &[Mark], place: u64) -> Option<u64>
    ensures { result ≡ terms.first_past place marks.now }
{
    for mark in marks {
        if place < mark.front {
            return Some(mark.moment);
        }
    }
    None
}
