//! Where names are among names.
ghost use Rattle.std.specs.Prelude.{◌≡◌};
ghost use Rattle.named_history.specs.Places as terms;

use line_words::{Octets, is};

/// The first place where the name is, counted from 0.
pub(crate) fn place_of(name: &[u8], names: &[Octets]) -> Option<usize>
    ensures { result ≡ terms.place_of name.now names.now }
{
    for place in 0..names.len() {
        if is(name, names[place].as_slice()) {
            return Some(place);
        }
    }
    None
}

/// The place, in the list, of the first of these names that is in it.
pub(crate) fn first_place(names: &[Octets], list: &[Octets]) -> Option<usize>
    ensures { result ≡ terms.first_place names.now list.now }
{
    for name in names {
        let place = place_of(name.as_slice(), list);
        if place.is_some() {
            return place;
        }
    }
    None
}
