//! The buffers on the page, each with its size and what is told of its oldest article.
ghost use Rattle.std.specs.Prelude.{◌≡◌, ◌++◌, OnOk, map};
ghost use Rattle.relay_metrics.specs.Lines.{line_view};
ghost use Rattle.relay_page.specs.Figures.{buffer_figures, figures_text};
ghost use Rattle.relay_page.specs.Rows.{buffer_row, buffer_rows, filled_share, oldest_of};
ghost use Rattle.relay_page.specs.Rows.{oldest_text, paragraph, size_at, size_text};
ghost use Rattle.relay_page.specs.Rows as terms;

use crate::bar::{hundredths, number_at, put_bar};
use crate::figures::{BUFFER, OLDEST, SIZE, put_figures};
use crate::rows::put_heading;
use line_words::is;
use relay_metrics::Line;
use std::alloc::AllocError;

/// Puts the buffers, each with its size, which stands at the same place among the sizes, and with
/// what is told of its oldest article.
pub(crate) fn put_buffers(
    text: &mut Vec<u8>,
    buffers: &[Line<'_>],
    sizes: &[Line<'_>],
    oldest: &[Line<'_>],
) -> Result<(), AllocError>
    ensures { OnOk result (text.new.items ≡ text.old.items
        ++ buffer_rows (map line_view sizes.now) (map line_view oldest.now) 0
        (map line_view buffers.now)) }
{
    for (place, buffer) in buffers.iter().enumerate() {
        put_buffer(text, buffer, sizes, oldest, place)?;
    }
    Ok(())
}

/// Puts a buffer: its name, a bar of what is filled, and its numbers, those of its size and of its
/// oldest article too.
fn put_buffer(
    text: &mut Vec<u8>,
    line: &Line<'_>,
    sizes: &[Line<'_>],
    oldest: &[Line<'_>],
    place: usize,
) -> Result<(), AllocError>
    ensures { OnOk result (text.new.items ≡ text.old.items
        ++ buffer_row (size_at (map line_view sizes.now) place (line_view line.now).name)
        (oldest_of (map line_view oldest.now) (line_view line.now).name) (line_view line.now)) }
{
    put_heading(text, line.name)?;
    put_bar(text, filled_share(sizes, place, line.name))?;
    put_numbers(text, line, sizes, oldest, place)
}

/// Puts the numbers of a buffer.
fn put_numbers(
    text: &mut Vec<u8>,
    line: &Line<'_>,
    sizes: &[Line<'_>],
    oldest: &[Line<'_>],
    place: usize,
) -> Result<(), AllocError>
    ensures { OnOk result (text.new.items ≡ text.old.items
        ++ paragraph (figures_text buffer_figures (line_view line.now)
        ++ size_text (size_at (map line_view sizes.now) place (line_view line.now).name)
        ++ oldest_text (oldest_of (map line_view oldest.now) (line_view line.now).name))) }
{
    text.extend_from_slice(b"<p>\n")?;
    put_figures(text, BUFFER, line)?;
    put_size(text, sizes, place, line.name)?;
    put_oldest(text, oldest, line.name)?;
    text.extend_from_slice(b"</p>\n")
}

/// Puts since when the oldest article of the buffer of this name is there, where that is told.
fn put_oldest(text: &mut Vec<u8>, oldest: &[Line<'_>], name: &[u8]) -> Result<(), AllocError>
    ensures { OnOk result (text.new.items ≡ text.old.items
        ++ oldest_text (oldest_of (map line_view oldest.now) name.now)) }
{
    for line in oldest {
        if is(line.name, name) {
            return put_figures(text, OLDEST, line);
        }
    }
    Ok(())
}

/// How many hundredths of the blocks of the buffer of this name are filled, by the size at this
/// place, where that is of that name.
fn filled_share(sizes: &[Line<'_>], place: usize, name: &[u8]) -> Option<u64>
    ensures { result ≡ filled_share (size_at (map line_view sizes.now) place name.now) }
{
    match sizes.get(place) {
        Some(size) if is(size.name, name) => share_of(size),
        _ => None,
    }
}

/// How many hundredths of its blocks are filled, by the line of a buffer's size.
fn share_of(size: &Line<'_>) -> Option<u64>
    ensures { result ≡ terms.share_by (line_view size.now) }
{
    let blocks = number_at(size, 0)?;
    hundredths(number_at(size, 1)?, blocks)
}

/// Puts the numbers of the size at this place, where it is of the buffer of this name.
fn put_size(
    text: &mut Vec<u8>,
    sizes: &[Line<'_>],
    place: usize,
    name: &[u8],
) -> Result<(), AllocError>
    ensures { OnOk result (text.new.items ≡ text.old.items
        ++ size_text (size_at (map line_view sizes.now) place name.now)) }
{
    match sizes.get(place) {
        Some(size) if is(size.name, name) => put_figures(text, SIZE, size),
        _ => Ok(()),
    }
}
