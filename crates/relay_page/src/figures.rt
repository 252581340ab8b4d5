//! The numbers of a line on the page.
ghost use Rattle.std.specs.Prelude.{◌≡◌, ◌++◌, OnOk, flat_map, map};
ghost use Rattle.relay_metrics.specs.Lines.{line_view};
ghost use Rattle.relay_page.specs.Figures.{figure_text, figure_view, number_text};

use relay_metrics::Line;
use std::alloc::AllocError;

/// A number of a line, and what stands round it.
pub(crate) struct Figure {
    /// Its place in the line.
    pub place: usize,
    /// What stands before it.
    pub before: &'static [u8],
    /// What stands behind it.
    pub behind: &'static [u8],
}

/// What stands behind a number with its word.
const SPAN_END: &[u8] = b"</b></span>\n";

/// The numbers of a buffer.
pub(crate) const BUFFER: &[Figure] = &[
    Figure {
        place: 0,
        before: b"<span>cycle <b>",
        behind: SPAN_END,
    },
    Figure {
        place: 1,
        before: b"<span>front <b>",
        behind: SPAN_END,
    },
    Figure {
        place: 2,
        before: b"<span>articles begun <b>",
        behind: SPAN_END,
    },
    Figure {
        place: 3,
        before: b"<span>articles whole <b>",
        behind: SPAN_END,
    },
];

/// The numbers of a buffer's size.
pub(crate) const SIZE: &[Figure] = &[
    Figure {
        place: 0,
        before: b"<span>blocks <b>",
        behind: SPAN_END,
    },
    Figure {
        place: 1,
        before: b"<span>filled <b>",
        behind: SPAN_END,
    },
];

/// The number of a buffer's oldest article.
pub(crate) const OLDEST: &[Figure] = &[Figure {
    place: 0,
    before: b"<span>oldest article since <b>",
    behind: SPAN_END,
}];

/// The numbers of a feed.
pub(crate) const FEED: &[Figure] = &[
    Figure {
        place: 0,
        before: b"<span>waiting <b>",
        behind: SPAN_END,
    },
    Figure {
        place: 1,
        before: b"<span>gained <b>",
        behind: SPAN_END,
    },
    Figure {
        place: 2,
        before: b"<span>overwritten <b>",
        behind: SPAN_END,
    },
];

/// The numbers of the message-ids.
pub(crate) const IDS: &[Figure] = &[
    Figure {
        place: 0,
        before: b"<span>offered <b>",
        behind: SPAN_END,
    },
    Figure {
        place: 1,
        before: b"<span>storing <b>",
        behind: SPAN_END,
    },
    Figure {
        place: 2,
        before: b"<span>stored <b>",
        behind: SPAN_END,
    },
    Figure {
        place: 3,
        before: b"<span>refused <b>",
        behind: SPAN_END,
    },
];

/// The numbers of a peer, each in a cell of a table.
pub(crate) const PEER: &[Figure] = &[
    Figure {
        place: 0,
        before: b"<td>",
        behind: b"</td>",
    },
    Figure {
        place: 1,
        before: b"<td>",
        behind: b"</td>",
    },
    Figure {
        place: 2,
        before: b"<td>",
        behind: b"</td>",
    },
    Figure {
        place: 3,
        before: b"<td>",
        behind: b"</td>",
    },
    Figure {
        place: 4,
        before: b"<td>",
        behind: b"</td>",
    },
    Figure {
        place: 5,
        before: b"<td>",
        behind: b"</td>",
    },
    Figure {
        place: 6,
        before: b"<td>",
        behind: b"</td>",
    },
];

/// The numbers of what was refused of a peer, each in a cell of a table.
pub(crate) const REFUSALS: &[Figure] = &[
    Figure {
        place: 0,
        before: b"<td>",
        behind: b"</td>",
    },
    Figure {
        place: 1,
        before: b"<td>",
        behind: b"</td>",
    },
    Figure {
        place: 2,
        before: b"<td>",
        behind: b"</td>",
    },
    Figure {
        place: 3,
        before: b"<td>",
        behind: b"</td>",
    },
    Figure {
        place: 4,
        before: b"<td>",
        behind: b"</td>",
    },
    Figure {
        place: 5,
        before: b"<td>",
        behind: b"</td>",
    },
    Figure {
        place: 6,
        before: b"<td>",
        behind: b"</td>",
    },
    Figure {
        place: 7,
        before: b"<td>",
        behind: b"</td>",
    },
];

/// Puts these numbers of a line.
pub(crate) fn put_figures(
    text: &mut Vec<u8>,
    figures: &[Figure],
    line: &Line<'_>,
) -> Result<(), AllocError>
    ensures { OnOk result (text.new.items ≡ text.old.items
        ++ flat_map (figure_text (line_view line.now)) (map figure_view figures.now)) }
{
    for figure in figures {
        put_figure(text, figure, line)?;
    }
    Ok(())
}

/// Puts a number of a line, where it is there.
fn put_figure(text: &mut Vec<u8>, figure: &Figure, line: &Line<'_>) -> Result<(), AllocError>
    ensures { OnOk result (text.new.items ≡ text.old.items
        ++ figure_text (line_view line.now) (figure_view figure.now)) }
{
    match line.numbers.get(figure.place) {
        Some(number) => put_round(text, figure, number),
        None => Ok(()),
    }
}

/// Puts a number with what stands round it.
fn put_round(text: &mut Vec<u8>, figure: &Figure, number: &[u8]) -> Result<(), AllocError>
    ensures { OnOk result (text.new.items ≡ text.old.items
        ++ number_text (figure_view figure.now) number.now) }
{
    text.extend_from_slice(figure.before)?;
    text.extend_from_slice(number)?;
    text.extend_from_slice(figure.behind)
}
