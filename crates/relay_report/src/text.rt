//! The text of a report (docs/FORMATS.md, Report).
ghost use Rattle.std.specs.Prelude.{◌≡◌, ◌++◌, IfOk, OnOk, flat_map, map};
ghost use Rattle.relay_report.specs.Figures.{buffer_view, feed_view};
ghost use Rattle.relay_report.specs.Report.{text_of_figures};
ghost use Rattle.relay_report.specs.Text.{buffer_line, feed_line, ids_line};

use crate::columns::{put_name, put_numbers};
use crate::figures::{Figures, NamedBuffer, NamedFeed};
use id_history::Counts;
use std::alloc::{AllocError, Global};

/// The places of a name.
const NAME_PLACES: usize = 16;

/// The places of a number.
const PLACES: usize = 11;

/// The places of a number in a wide column.
const WIDE_PLACES: usize = 20;

/// The text of a report of these figures. The error is want of memory.
pub fn text_of(alloc: Global, figures: &Figures) -> Result<Vec<u8>, AllocError>
    ensures { IfOk result (λ text. text.items ≡ text_of_figures figures.now) }
{
    let mut text = Vec::new(alloc);
    put_buffers(&mut text, &figures.buffers)?;
    put_feeds(&mut text, &figures.feeds)?;
    put_ids(&mut text, &figures.ids)?;
    Ok(text)
}

/// Puts a line for each buffer.
fn put_buffers(text: &mut Vec<u8>, buffers: &[NamedBuffer]) -> Result<(), AllocError>
    ensures { OnOk result (text.new.items
        ≡ text.old.items ++ flat_map buffer_line (map buffer_view buffers.now)) }
{
    for buffer in buffers {
        put_buffer(text, buffer)?;
    }
    Ok(())
}

/// Puts the line of a buffer.
fn put_buffer(text: &mut Vec<u8>, buffer: &NamedBuffer) -> Result<(), AllocError>
    ensures { OnOk result (text.new.items
        ≡ text.old.items ++ buffer_line (buffer_view buffer.now)) }
{
    text.extend_from_slice(b"buffer ")?;
    put_name(text, buffer.name.as_slice(), NAME_PLACES)?;
    let columns = [
        (buffer.figures.cycle as u128, PLACES),
        (buffer.figures.front as u128, WIDE_PLACES),
        (buffer.figures.begun as u128, PLACES),
        (buffer.figures.stored as u128, PLACES),
    ];
    put_numbers(text, &columns)
}

/// Puts a line for each feed.
fn put_feeds(text: &mut Vec<u8>, feeds: &[NamedFeed]) -> Result<(), AllocError>
    ensures { OnOk result (text.new.items
        ≡ text.old.items ++ flat_map feed_line (map feed_view feeds.now)) }
{
    for feed in feeds {
        put_feed(text, feed)?;
    }
    Ok(())
}

/// Puts the line of a feed.
fn put_feed(text: &mut Vec<u8>, feed: &NamedFeed) -> Result<(), AllocError>
    ensures { OnOk result (text.new.items ≡ text.old.items ++ feed_line (feed_view feed.now)) }
{
    text.extend_from_slice(b"feed   ")?;
    put_name(text, feed.peer.as_slice(), NAME_PLACES)?;
    let columns = [
        (feed.figures.waiting as u128, PLACES),
        (feed.figures.gained as u128, WIDE_PLACES),
        (feed.figures.overwritten as u128, PLACES),
    ];
    put_numbers(text, &columns)
}

/// Puts the line of the message-ids.
fn put_ids(text: &mut Vec<u8>, ids: &Counts) -> Result<(), AllocError>
    ensures { OnOk result (text.new.items ≡ text.old.items ++ ids_line ids.now) }
{
    text.extend_from_slice(b"ids    ")?;
    let columns = [
        (ids.offered, PLACES),
        (ids.storing, PLACES),
        (ids.stored, PLACES),
        (ids.refused, PLACES),
    ];
    put_numbers(text, &columns)
}
