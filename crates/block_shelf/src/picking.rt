//! Where the next article of a group goes, for who has its buffers elsewhere.
use crate::buffer_set::PlacedGroup;
use buffer_group::Pick;

/// Where an article goes: what its group picks, and the number of that buffer.
#[derive(Clone, Copy)]
pub struct Place {
    pub pick: Pick,
    pub number: usize,
}

impl PlacedGroup {
    ghost use Rattle.std.specs.Prelude.{◌≡◌, IsSomeAnd};
    ghost use Rattle.block_shelf.specs.Keeping.{KeepsPlacedGroup};
    ghost use Rattle.block_shelf.specs.Picking.{IsPicked};
    ghost use Rattle.buffer_group.specs.Groups.{pick_view};
    ghost use Rattle.news_terms.specs.Courses.{Course, course_next, pick_in};
    ghost use Rattle.news_terms.specs.Places.{Group, size_of};

    /// Where the next article of the group goes, which has so many octets.
    pub fn pick(&self, length: u32) -> Option<Place>
        ensures { (group : Group) (begun : Course) → KeepsPlacedGroup self.now group begun
            → IsSomeAnd result (IsPicked group begun (size_of length)) }
    {
        let pick = self.group.pick(length);
        let number = *self.numbers.get(pick.buffer)?;
        Some(Place { pick, number })
    }

    /// Goes on after an article of so many octets was begun where it was picked.
    pub fn begun(&mut self, pick: &Pick, length: u32)
        ensures { (group : Group) (begun : Course) → KeepsPlacedGroup self.old group begun
            → pick_view pick.now ≡ pick_in group begun (size_of length)
            → KeepsPlacedGroup self.new group (course_next group begun (size_of length)) }
    {
        self.group.begun(pick, length);
    }
}
