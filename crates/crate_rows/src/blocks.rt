//! Rows for the octets of blocks (cyc_block). The octets of a block are a word without the zeros at
//! its end.

use crate::row_text::{Cells, Sheet, place_of};
use crate::runs::{number, octet};
use cyc_block::{BLOCK_OCTETS, CHUNK_OCTETS, Stamp, block_image, read_image};

/// Writes the answer of a call.
pub fn answer(call: &[u8], cells: &Cells, sheet: &Sheet) {
    match place_of("image_read image_write", call) {
        Some(0) => put_image(cells.next(), sheet),
        Some(_) => put_image_of(cells, sheet),
        None => sheet.refuse(),
    }
}

/// Writes the image of the block with the stamp of five cells and the payload of the last one.
fn put_image_of(cells: &Cells, sheet: &Sheet) {
    let stamp = Stamp {
        cycle: number(cells, sheet),
        first: number(cells, sheet),
        index: number(cells, sheet),
        article_length: number(cells, sheet),
        class: octet(cells, sheet),
    };
    let payload = cells.next();
    if payload.is_empty() || payload.len() > CHUNK_OCTETS {
        return sheet.refuse();
    }
    let block = block_image(&stamp, payload);
    sheet.cell(without_zeros(&block));
}

/// Writes the stamp and the payload of the image that a block has, or that it has none.
fn put_image(octets: &[u8], sheet: &Sheet) {
    match read_image(&block_of(octets, sheet)) {
        Some(image) => {
            sheet.debug(&image.stamp);
            sheet.next(image.payload);
        }
        None => sheet.put(b"None"),
    }
}

/// The block of these octets and as many zeros as it has room for.
pub fn block_of(octets: &[u8], sheet: &Sheet) -> [u8; BLOCK_OCTETS] {
    with_part([0; BLOCK_OCTETS], 0, octets, sheet)
}

/// A block with these octets from a place on; where it has no room for them, the row has no answer.
pub fn with_part(
    mut block: [u8; BLOCK_OCTETS],
    place: usize,
    octets: &[u8],
    sheet: &Sheet,
) -> [u8; BLOCK_OCTETS] {
    match block.get_mut(place..place.saturating_add(octets.len())) {
        Some(part) => part.copy_from_slice(octets),
        None => sheet.refuse(),
    }
    block
}

/// The octets of a block but for the zeros at its end.
pub fn without_zeros(octets: &[u8; BLOCK_OCTETS]) -> &[u8] {
    let mut end = 0;
    let mut place = 0usize;
    for octet in octets.iter() {
        place = place.saturating_add(1);
        if *octet != 0 {
            end = place;
        }
    }
    octets.get(..end).unwrap_or(b"")
}
