//! Whether names are the same.
ghost use Rattle.std.specs.Prelude.{◌≡◌, ◌↔◌, IsTrue, map};
ghost use Rattle.relay_names.specs.Views.{group_view, names_view};

use crate::names::{GroupNames, Names};
use line_words::{Octets, is};

/// Whether the names are the same, each kind in the same order.
pub fn are_same(a: &Names, b: &Names) -> bool
    ensures { IsTrue result ↔ (names_view a.now ≡ names_view b.now) }
{
    are_same_names(&a.buffers, &b.buffers)
        && are_same_groups(&a.groups, &b.groups)
        && are_same_names(&a.feeds, &b.feeds)
}

/// Whether the groups have the same names, in the same order.
fn are_same_groups(a: &[GroupNames], b: &[GroupNames]) -> bool
    ensures { IsTrue result ↔ (map group_view a.now ≡ map group_view b.now) }
{
    if a.len() != b.len() {
        return false;
    }
    for i in 0..a.len() {
        if !is_same_group(&a[i], &b[i]) {
            return false;
        }
    }
    true
}

/// Whether the groups have the same names.
fn is_same_group(a: &GroupNames, b: &GroupNames) -> bool
    ensures { IsTrue result ↔ (group_view a.now ≡ group_view b.now) }
{
    is(a.name.as_slice(), b.name.as_slice()) && are_same_names(&a.buffers, &b.buffers)
}

/// Whether the names are the same, in the same order.
fn are_same_names(a: &[Octets], b: &[Octets]) -> bool
    ensures { IsTrue result ↔ (a.now ≡ b.now) }
{
    if a.len() != b.len() {
        return false;
    }
    for i in 0..a.len() {
        if !is(a[i].as_slice(), b[i].as_slice()) {
            return false;
        }
    }
    true
}
