//! Lists of names and of texts.

use crate::row_text::sheet::Sheet;
use line_words::{cut, is};

/// The place of a name in a list of names between single spaces. So a further name is a number
/// more to match; of a `match` over texts each name is a comparison to prove.
pub(crate) fn place_of(names: &str, name: &[u8]) -> Option<usize> {
    let mut place = 0usize;
    let mut unread = Some(names.as_bytes());
    while let Some(rest) = unread {
        let (known, after) = cut(rest, b' ');
        if is(known, name) {
            return Some(place);
        }
        place = place.saturating_add(1);
        unread = after;
    }
    None
}

/// These octets follow.
pub(crate) fn add(octets: &mut Vec<u8>, more: &[u8], sheet: &Sheet) {
    if octets.extend_from_slice(more).is_err() {
        sheet.lack();
    }
}

/// A copy of these octets, empty where memory ran out.
pub(crate) fn copy_of(octets: &[u8], sheet: &Sheet) -> Vec<u8> {
    let mut copy = Vec::new(sheet.alloc);
    add(&mut copy, octets, sheet);
    copy
}

/// A text of these octets follows.
pub(crate) fn add_octets(texts: &mut Vec<Vec<u8>>, octets: &[u8], sheet: &Sheet) {
    if texts.push(copy_of(octets, sheet)).is_err() {
        sheet.lack();
    }
}

/// The text of these parts, one after another.
pub(crate) fn joined(parts: &[Vec<u8>], sheet: &Sheet) -> Vec<u8> {
    let mut octets = Vec::new(sheet.alloc);
    for part in parts {
        add(&mut octets, part, sheet);
    }
    octets
}
