//! The page of a report (docs/FORMATS.md, Page).
ghost use Rattle.std.specs.Prelude.{◌≡◌, ◌++◌, IfOk, OnOk, map};
ghost use Rattle.relay_metrics.specs.Lines.{line_view, report_lines};
ghost use Rattle.relay_page.specs.Page.{foot, page_of, sized_rows};

use crate::bar::put_number;
use crate::buffers::put_buffers;
use crate::frame::{FIRST, OTHERS, put_section, put_sections};
use crate::selected::{lines_about, most_waiting};
use relay_metrics::{Line, Subject, lines_of, unread_in};
use std::alloc::{AllocError, Global};

/// The page of a report: what it says as HTML, and how many of its lines aren't known. The error
/// is want of memory.
pub fn page(alloc: Global, report: &[u8]) -> Result<Vec<u8>, AllocError>
    ensures { IfOk result (λ text. text.items ≡ page_of report.now) }
{
    let lines = lines_of(alloc, report)?;
    let text = text_of(alloc, report, &lines);
    drop(lines);
    text
}

/// The page of a report of these lines.
fn text_of(alloc: Global, report: &[u8], lines: &[Line<'_>]) -> Result<Vec<u8>, AllocError>
    requires { map line_view lines.now ≡ report_lines report.now }
    ensures { IfOk result (λ text. text.items ≡ page_of report.now) }
{
    let most = most_waiting(lines);
    let mut text = Vec::new(alloc);
    put_section(&mut text, FIRST, most, lines)?;
    put_sized(alloc, &mut text, report)?;
    put_sections(&mut text, OTHERS, most, lines)?;
    put_foot(&mut text, unread_in(lines))?;
    Ok(text)
}

/// Puts the buffers of a relay that is served, each with its size, and with what is told of its
/// oldest article.
fn put_sized(alloc: Global, text: &mut Vec<u8>, report: &[u8]) -> Result<(), AllocError>
    ensures { OnOk result (text.new.items ≡ text.old.items
        ++ sized_rows (report_lines report.now)) }
{
    let buffers = lines_about(alloc, report, Subject::Buffer)?;
    let sizes = lines_about(alloc, report, Subject::Size)?;
    let oldest = lines_about(alloc, report, Subject::Oldest)?;
    let put = put_buffers(text, &buffers, &sizes, &oldest);
    drop(oldest);
    drop(sizes);
    drop(buffers);
    put
}

/// Puts how many lines aren't known, and the end of the page.
fn put_foot(text: &mut Vec<u8>, unread: usize) -> Result<(), AllocError>
    ensures { OnOk result (text.new.items ≡ text.old.items ++ foot unread) }
{
    text.extend_from_slice(b"<p>Lines of the report that are not known here: <b>")?;
    put_number(text, unread as u64)?;
    text.extend_from_slice(b"</b></p>\n</body>\n</html>\n")
}
