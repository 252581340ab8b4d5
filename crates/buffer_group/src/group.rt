ghost use Rattle.std.specs.Prelude.{◌<◌, length};

use cyc_buffer::size_of;
use news_terms::courses::positions_follow;
use relay_conf::Mode;

/// Where an article goes in its group.
#[derive(Clone, Copy)]
pub struct Pick {
    /// The buffer, by its place in the group, counted from 0.
    pub buffer: usize,
    /// Whether it goes to the front of a cycle there.
    pub fresh: bool,
}

/// A group of buffers, and where it is.
#[derive(Drop)]
pub struct Group {
    mode: Mode,
    /// How many blocks each buffer has.
    blocks: Vec<u32>,
    /// The buffer that is the current one, by its place in the group.
    position: usize,
    /// Where one buffer is filled after the other: the blocks used of the current one's run.
    used: u32,
    ghost within: { position < length blocks.items },
}

impl Group {
    ghost use Rattle.std.specs.Prelude.{◌≡◌, ◌<◌, length, slice_get};
    ghost use Rattle.buffer_group.specs.Groups.{KeepsPlaces, blocks_in, pick_view, position_view};
    ghost use Rattle.buffer_group.specs.Groups.{group_mode, group_blocks, buffer_count};
    ghost use Rattle.news_terms.specs.Courses.{Course, course_next, pick_in, position_in};
    ghost use Rattle.news_terms.specs.Places as places;
    ghost use Rattle.news_terms.specs.Places.{size_of};
    ghost use Rattle.news_terms.specs.Positions.{index_after};
    ghost use Rattle.relay_conf.specs.Places.{mode_view};

    /// A group that was at this place of its buffers, as it is again: where one is filled after the
    /// other with so many blocks used of the current one's run; where they take turns these are 0.
    pub fn resume(mode: Mode, blocks: Vec<u32>, position: usize, used: u32) -> Group
        requires { position < length blocks.items }
        ensures places { (group : places.Group) (begun : Course) → mode_view mode ≡ group.mode
            → blocks.items ≡ blocks_in group.buffers
            → position_in group begun ≡ record { index = position; used = used }
            → KeepsPlaces result group begun }
        // Whether a course has brought a group there or not.
        ensures position { position_view result ≡ record { index = position; used = used } }
        ensures mode { group_mode result ≡ mode }
        ensures blocks { group_blocks result ≡ blocks.items }
    {
        Group {
            mode,
            blocks,
            position,
            used,
        }
    }

    /// The place of the current buffer in the group, counted from 0.
    pub fn position(&self) -> usize
        ensures places { (group : places.Group) (begun : Course) → KeepsPlaces self.now group begun
            → result ≡ (position_in group begun).index }
        ensures here { result ≡ (position_view self.now).index }
        ensures within { result < buffer_count self.now }
    {
        self.position
    }

    /// Where the next article of the group goes, which has so many octets.
    pub fn pick(&self, length: u32) -> Pick
        ensures places { (group : places.Group) (begun : Course) → KeepsPlaces self.now group begun
            → pick_view result ≡ pick_in group begun (size_of length) }
        ensures within { result.buffer < buffer_count self.now }
    {
        match self.mode {
            Mode::Interleave => Pick {
                buffer: self.position,
                fresh: false,
            },
            Mode::Sequential => {
                let used = u64::from(self.used) + u64::from(size_of(length));
                if used <= u64::from(self.room()) {
                    Pick {
                        buffer: self.position,
                        fresh: false,
                    }
                } else {
                    Pick {
                        buffer: self.next(),
                        fresh: true,
                    }
                }
            }
        }
    }

    /// Goes on after an article of so many octets was begun where it was picked.
    pub fn begun(&mut self, pick: &Pick, length: u32)
        ensures places { (group : places.Group) (begun : Course) → KeepsPlaces self.old group begun
            → pick_view pick.now ≡ pick_in group begun (size_of length)
            → KeepsPlaces self.new group (course_next group begun (size_of length)) }
        ensures mode { group_mode self.new ≡ group_mode self.old }
        ensures blocks { group_blocks self.new ≡ group_blocks self.old }
    {
        positions_follow();
        match self.mode {
            Mode::Interleave => self.position = self.next(),
            Mode::Sequential => {
                let size = size_of(length);
                if pick.fresh {
                    self.position = self.next();
                    self.used = size;
                } else {
                    self.used = self.used.saturating_add(size).min(self.room());
                }
            }
        }
    }

    /// How many blocks the current buffer has.
    fn room(&self) -> u32
        ensures { slice_get (group_blocks self.now) self.now.position ≡ Some result }
    {
        self.blocks[self.position]
    }

    /// The buffer after the current one, the first one after the last.
    fn next(&self) -> usize
        ensures after { result ≡ index_after (buffer_count self.now) self.now.position }
        ensures within { result < buffer_count self.now }
    {
        let next = self.position + 1;
        if next == self.blocks.len() { 0 } else { next }
    }
}
