ghost use Rattle.std.specs.Prelude.{◌≡◌, ◌≤◌, ◌+◌};
ghost use Rattle.news_terms.specs.Places.{size_of};

use cyc_block::CHUNK_OCTETS;

/// The octets of a text that one block holds, as articles' lengths are counted.
const CHUNK_LENGTH: u32 = CHUNK_OCTETS as u32;

/// Where an article begins in its buffer.
#[derive(Clone, Copy)]
pub(crate) struct Place {
    pub(crate) cycle: u32,
    pub(crate) first: u32,
}

/// The endless line of a buffer's blocks, and how far it is used.
#[derive(Clone, Copy)]
pub(crate) struct Line {
    pub(crate) number: u8,
    pub(crate) blocks: u32,
    pub(crate) first_cycle: u32,
    /// The cycle that the newest article is in; the first one where there is none.
    pub(crate) cycle: u32,
    /// How many blocks of the cycle are used.
    pub(crate) used: u32,
    ghost within: { used ≤ blocks },
}

impl Line {
    ghost use Rattle.std.specs.Prelude.{◌≡◌, ◌≤◌, ◌<◌, ◌+◌, ◌^◌, IfSome, IfNone};
    ghost use Rattle.news_terms.specs.Places.{on_line, last_cycle};
    ghost use Rattle.news_terms.specs.Picks.{place_after};
    ghost use Rattle.cyc_buffer.specs.BufferState.{line_head, place_view};

    /// The place after the newest article.
    pub(crate) fn front(&self) -> u64
        ensures place { result ≡ on_line self.now.blocks self.now.cycle self.now.used }
        ensures fits { (self.now.cycle < 2 ^ 32) × (self.now.blocks < 2 ^ 32) }
    {
        u64::from(self.cycle) * u64::from(self.blocks) + u64::from(self.used)
    }

    /// The place of a block of a cycle.
    pub(crate) fn place_of(&self, cycle: u32, block: u32) -> u64
        ensures { result ≡ on_line self.now.blocks cycle block }
    {
        u64::from(cycle) * u64::from(self.blocks) + u64::from(block)
    }

    /// Where an article of so many blocks goes; none where the cycles are used up.
    pub(crate) fn next(&self, size: u32, fresh: bool) -> Option<Place>
        requires { size ≤ self.now.blocks }
        ensures place { IfSome result (λ place. place_view place
            ≡ place_after self.now.blocks (line_head self.now) fresh size) }
        ensures none { IfNone result
            (last_cycle < (place_after self.now.blocks (line_head self.now) fresh size).run) }
        ensures within { IfSome result (λ place. place.first + size ≤ self.now.blocks) }
        ensures ahead { IfSome result (λ place.
            on_line self.now.blocks self.now.cycle self.now.used
            ≤ on_line self.now.blocks place.cycle place.first) }
    {
        let stays = size <= self.blocks - self.used && !(fresh && self.used > 0);
        if stays {
            return Some(Place {
                cycle: self.cycle,
                first: self.used,
            });
        }
        let cycle = self.cycle.checked_add(1)?;
        Some(Place { cycle, first: 0 })
    }
}

/// The blocks that an article of so many octets takes.
pub fn size_of(length: u32) -> u32
    ensures { result ≡ size_of length }
{
    length.div_ceil(CHUNK_LENGTH)
}
