//! The lines of a report that are about one thing.
ghost use Rattle.std.specs.Prelude.{◌≡◌, IfOk, filter, map};
ghost use Rattle.relay_metrics.specs.Lines.{line_view, report_lines};
ghost use Rattle.relay_page.specs.Selected.{is_of, most_waiting, waiting_in};
ghost use Rattle.relay_page.specs.Selected as terms;

use crate::bar::number_at;
use relay_metrics::{Line, Subject, lines_of};
use std::alloc::{AllocError, Global};

/// What the lines of a report say that are about this, in their order.
pub(crate) fn lines_about<'a>(
    alloc: Global,
    report: &'a [u8],
    subject: Subject,
) -> Result<Vec<Line<'a>>, AllocError>
    ensures { IfOk result (λ lines. map line_view lines.items
        ≡ filter (is_of subject) (report_lines report.now)) }
{
    let mut lines = lines_of(alloc, report)?;
    lines.retain(|line| is_about(subject, line.subject));
    Ok(lines)
}

/// Whether what a line is about is this.
fn is_about(subject: Subject, other: Subject) -> bool
    ensures { result ≡ terms.is_about subject other }
{
    match (subject, other) {
        (Subject::Buffer, Subject::Buffer)
        | (Subject::Size, Subject::Size)
        | (Subject::Oldest, Subject::Oldest) => true,
        _ => false,
    }
}

/// The most tokens that wait in the ring of a feed, of the feeds that lines are about.
pub(crate) fn most_waiting(lines: &[Line<'_>]) -> u64
    ensures { result ≡ most_waiting (map line_view lines.now) }
{
    let mut most = 0;
    for line in lines {
        most = waiting_in(line).max(most);
    }
    most
}

/// How many tokens wait by a line, 0 where it is about no feed.
fn waiting_in(line: &Line<'_>) -> u64
    ensures { result ≡ waiting_in (line_view line.now) }
{
    match line.subject {
        Subject::Feed => number_at(line, 0).unwrap_or(0),
        _ => 0,
    }
}
