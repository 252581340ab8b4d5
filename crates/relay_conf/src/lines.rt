//! The lines of a configuration file.
ghost use Rattle.std.specs.Prelude.{◌≡◌, ◌∷◌, map, IfOk};
ghost use Rattle.std.specs.Str.Lines.{strip_carriage_return};
ghost use Rattle.relay_conf.specs.Lines.{lines_after};
ghost use Rattle.relay_conf.specs.Lines as terms;

use line_words::cut;
use std::alloc::{AllocError, Global};

/// The lines of a text, each ended by LF or CRLF, the last by the end of the text
/// (docs/FORMATS.md, Configuration).
pub fn lines_of(alloc: Global, text: &[u8]) -> Result<Vec<&[u8]>, AllocError>
    ensures { IfOk result (λ lines. map (λ line. line.now) lines.items ≡ terms.lines_of text.now) }
{
    let mut lines = Vec::new(alloc);
    let mut unread = Some(text);
    while let Some(rest) = unread {
        let (line, after) = next_line(rest);
        lines.push(line)?;
        unread = after;
    }
    Ok(lines)
}

/// The first line of a text, and what is left behind its end.
pub(crate) fn next_line(text: &[u8]) -> (&[u8], Option<&[u8]>)
    ensures { terms.lines_of text.now ≡ result.0.now ∷ lines_after result.1 }
{
    match cut(text, b'\n') {
        (line, Some(rest)) => (without_last_cr(line), Some(rest)),
        (line, None) => (line, None),
    }
}

/// A line without the CR at its end.
fn without_last_cr(line: &[u8]) -> &[u8]
    ensures { result.now ≡ strip_carriage_return line.now }
{
    match line.split_last() {
        Some((last, front)) if *last == b'\r' => front,
        _ => line,
    }
}
