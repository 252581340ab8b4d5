//! The exposition of a report (docs/FORMATS.md, Metrics).
ghost use Rattle.std.specs.Prelude.{◌≡◌, ◌++◌, IfOk, OnOk, count_by, flat_map, map};
ghost use Rattle.relay_metrics.specs.Exposition.{count_text, exposition_lines, exposition_of};
ghost use Rattle.relay_metrics.specs.Exposition.{family_text, is_unread, is_unread_about};
ghost use Rattle.relay_metrics.specs.Families.{family_view};
ghost use Rattle.relay_metrics.specs.Lines.{line_view};

use crate::families::{FAMILIES, Family, UNREAD};
use crate::lines::{Line, Subject, lines_of};
use crate::sample::{put_family, put_head, put_sample};
use itoa::Buffer;
use std::alloc::{AllocError, Global};

/// The exposition of a report: what it says as metric families with their samples, and how many of
/// its lines aren't known. The error is want of memory.
pub fn exposition(alloc: Global, report: &[u8]) -> Result<Vec<u8>, AllocError>
    ensures { IfOk result (λ text. text.items ≡ exposition_of report.now) }
{
    let lines = lines_of(alloc, report)?;
    let text = text_of(alloc, &lines);
    drop(lines);
    text
}

/// The exposition of these lines.
fn text_of(alloc: Global, lines: &[Line<'_>]) -> Result<Vec<u8>, AllocError>
    ensures { IfOk result (λ text. text.items ≡ exposition_lines (map line_view lines.now)) }
{
    let mut text = Vec::new(alloc);
    put_families(&mut text, FAMILIES, lines)?;
    put_count(&mut text, UNREAD, unread_in(lines))?;
    text.extend_from_slice(b"# EOF\n")?;
    Ok(text)
}

/// Puts each of these families that has samples of these lines.
fn put_families(
    text: &mut Vec<u8>,
    families: &[Family],
    lines: &[Line<'_>],
) -> Result<(), AllocError>
    ensures { OnOk result (text.new.items ≡ text.old.items
        ++ flat_map (family_text (map line_view lines.now)) (map family_view families.now)) }
{
    for family in families {
        put_family(text, family, lines)?;
    }
    Ok(())
}

/// Puts a family whose one sample is this number.
fn put_count(text: &mut Vec<u8>, family: &Family, count: usize) -> Result<(), AllocError>
    ensures { OnOk result (text.new.items
        ≡ text.old.items ++ count_text (family_view family.now) count) }
{
    let mut digits = Buffer::new();
    put_head(text, family)?;
    put_sample(text, family, b"", digits.format(count).as_bytes())
}

/// How many of these lines aren't known.
pub fn unread_in(lines: &[Line<'_>]) -> usize
    ensures { result ≡ count_by is_unread (map line_view lines.now) }
{
    lines
        .iter()
        .filter(|line| is_unread_about(line.subject))
        .count()
}

/// Whether that isn't known.
fn is_unread_about(subject: Subject) -> bool
    ensures { result ≡ is_unread_about subject }
{
    match subject {
        Subject::Unread => true,
        _ => false,
    }
}
