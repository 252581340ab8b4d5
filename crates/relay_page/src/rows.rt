//! What the page has of each line of a report.
ghost use Rattle.std.specs.Prelude.{◌≡◌, ◌++◌, OnOk, flat_map, map};
ghost use Rattle.std.specs.List.{list_any};
ghost use Rattle.relay_metrics.specs.Lines.{line_view};
ghost use Rattle.relay_page.specs.Figures.{figure_view};
ghost use Rattle.relay_page.specs.Rows.{address_row, feed_row, heading, ids_row, is_some_number};
ghost use Rattle.relay_page.specs.Rows.{refusals_row, row_of, table_row};
ghost use Rattle.relay_page.specs.Rows as terms;

use crate::bar::{hundredths, number_at, put_bar};
use crate::escaped::put_escaped;
use crate::figures::{FEED, Figure, IDS, PEER, REFUSALS, put_figures};
use line_words::is;
use relay_metrics::{Line, Subject};
use std::alloc::AllocError;

/// A part of the page, by what its lines are about.
#[derive(Clone, Copy)]
pub(crate) enum Part {
    /// That the relay is being repaired, or that it is paused.
    Notice,
    /// The buffers of a relay that is being repaired.
    Repaired,
    /// The feeds.
    Feeds,
    /// The message-ids.
    Ids,
    /// The peers.
    Peers,
    /// What was refused of the peers.
    Refusals,
    /// The addresses that the newest connections of the peers came from.
    Addresses,
}

/// What is told of a relay that is being repaired.
const NOTICE: &[u8] = b"<p>The relay is being repaired and serves nobody yet.</p>\n";

/// What is told of a relay that is paused.
const PAUSED: &[u8] = b"<p>The relay is paused and takes no new articles.</p>\n";

/// Puts what a part of the page has of these lines. In no feed wait more tokens than `most`.
pub(crate) fn put_rows(
    text: &mut Vec<u8>,
    part: Part,
    most: u64,
    lines: &[Line<'_>],
) -> Result<(), AllocError>
    ensures { OnOk result (text.new.items
        ≡ text.old.items ++ flat_map (row_of part most) (map line_view lines.now)) }
{
    for line in lines {
        put_row(text, part, most, line)?;
    }
    Ok(())
}

/// Puts what a part of the page has of a line.
fn put_row(text: &mut Vec<u8>, part: Part, most: u64, line: &Line<'_>) -> Result<(), AllocError>
    ensures { OnOk result (text.new.items
        ≡ text.old.items ++ row_of part most (line_view line.now)) }
{
    match (part, line.subject) {
        (Part::Notice, Subject::Recovering) => text.extend_from_slice(NOTICE),
        (Part::Notice, Subject::Paused) => text.extend_from_slice(PAUSED),
        (Part::Repaired, Subject::Repaired) => put_heading(text, line.name),
        (Part::Feeds, Subject::Feed) => put_feed(text, most, line),
        (Part::Ids, Subject::Ids) => put_ids(text, line),
        (Part::Peers, Subject::Peer) => put_table_row(text, PEER, line),
        (Part::Refusals, Subject::Refusals) => put_refusals(text, line),
        (Part::Addresses, Subject::Address) => put_address(text, line),
        _ => Ok(()),
    }
}

/// Puts a name as a heading.
pub(crate) fn put_heading(text: &mut Vec<u8>, name: &[u8]) -> Result<(), AllocError>
    ensures { OnOk result (text.new.items ≡ text.old.items ++ heading name.now) }
{
    text.extend_from_slice(b"<h3>")?;
    put_escaped(text, name)?;
    text.extend_from_slice(b"</h3>\n")
}

/// Puts a feed: its name, a bar of the tokens that wait, and its numbers.
fn put_feed(text: &mut Vec<u8>, most: u64, line: &Line<'_>) -> Result<(), AllocError>
    ensures { OnOk result (text.new.items
        ≡ text.old.items ++ feed_row most (line_view line.now)) }
{
    put_heading(text, line.name)?;
    put_bar(text, waiting_share(most, line))?;
    text.extend_from_slice(b"<p>\n")?;
    put_figures(text, FEED, line)?;
    text.extend_from_slice(b"</p>\n")
}

/// How many hundredths of the most the tokens are that wait by a line.
fn waiting_share(most: u64, line: &Line<'_>) -> Option<u64>
    ensures { result ≡ terms.waiting_share most (line_view line.now) }
{
    match number_at(line, 0) {
        Some(waiting) => hundredths(waiting, most),
        None => None,
    }
}

/// Puts the numbers of the message-ids.
fn put_ids(text: &mut Vec<u8>, line: &Line<'_>) -> Result<(), AllocError>
    ensures { OnOk result (text.new.items ≡ text.old.items ++ ids_row (line_view line.now)) }
{
    text.extend_from_slice(b"<p>\n")?;
    put_figures(text, IDS, line)?;
    text.extend_from_slice(b"</p>\n")
}

/// Puts a line as a row of a table: its name, and these of its numbers.
fn put_table_row(text: &mut Vec<u8>, figures: &[Figure], line: &Line<'_>) -> Result<(), AllocError>
    ensures { OnOk result (text.new.items
        ≡ text.old.items ++ table_row (map figure_view figures.now) (line_view line.now)) }
{
    text.extend_from_slice(b"<tr><th>")?;
    put_escaped(text, line.name)?;
    text.extend_from_slice(b"</th>")?;
    put_figures(text, figures, line)?;
    text.extend_from_slice(b"</tr>\n")
}

/// Puts what was refused of a peer as a row of a table, where anything was.
fn put_refusals(text: &mut Vec<u8>, line: &Line<'_>) -> Result<(), AllocError>
    ensures { OnOk result (text.new.items ≡ text.old.items ++ refusals_row (line_view line.now)) }
{
    if has_some_number(line) {
        put_table_row(text, REFUSALS, line)
    } else {
        Ok(())
    }
}

/// Whether a number of a line isn't 0.
fn has_some_number(line: &Line<'_>) -> bool
    ensures { result ≡ list_any is_some_number (line_view line.now).numbers }
{
    for number in &line.numbers {
        if !is(number, b"0") {
            return true;
        }
    }
    false
}

/// Puts a peer and the address of its newest connection.
fn put_address(text: &mut Vec<u8>, line: &Line<'_>) -> Result<(), AllocError>
    ensures { OnOk result (text.new.items ≡ text.old.items ++ address_row (line_view line.now)) }
{
    let address = line.name;
    text.extend_from_slice(b"<span>")?;
    put_escaped(text, address)?;
    text.extend_from_slice(b"</span>\n")
}
