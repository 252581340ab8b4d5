//! Fronts of buffers, the older and the newer.
ghost use Rattle.std.specs.Prelude.{◌≡◌, ◌↔◌, ◌≤◌, IsTrue, length, vec_capacity};
ghost use Rattle.post_history.specs.Remembering.{AreInOrder, AreLater, IsLaterFront};

use cyc_buffer::Front;

/// Whether the new fronts are of the buffers of the old ones, in their order, each as far or
/// further on: then what is passed by the old ones is by the new ones.
pub fn are_later(old: &[Front], new: &[Front]) -> bool
    ensures { IsTrue result → AreLater old.now new.now }
{
    if old.len() > new.len() {
        return false;
    }
    for place in 0..old.len() {
        if !is_later(&old[place], &new[place]) {
            return false;
        }
    }
    true
}

/// Whether the new front is of the buffer of the old one, and as far or further on.
fn is_later(old: &Front, new: &Front) -> bool
    ensures { IsTrue result → IsLaterFront old.now new.now }
{
    old.buffer() == new.buffer() && old.blocks() == new.blocks() && old.front() <= new.front()
}

/// Whether each front is of the buffer of its place.
pub fn are_in_order(fronts: &[Front]) -> bool
    ensures { IsTrue result ↔ AreInOrder fronts.now }
{
    for place in 0..fronts.len() {
        if fronts[place].buffer() as usize != place {
            return false;
        }
    }
    true
}

/// These are the fronts of the list from now on, for which there is room.
pub(crate) fn put_all(list: &mut Vec<Front>, fronts: &[Front])
    requires { length fronts.now ≤ vec_capacity list.old }
    ensures { list.new.items ≡ fronts.now }
{
    list.clear();
    for front in fronts {
        list.push_reserved(*front);
    }
}
