//! Lines that say nothing.
ghost use Rattle.std.specs.Prelude.{◌≡◌};
ghost use Rattle.line_words.specs.Comments as terms;

/// Whether the line is empty or a comment, of which the first octet is `#` (docs/FORMATS.md,
/// Configuration and Drill scripts). White space in front is looked at as it stands.
pub fn is_skipped(line: &[u8]) -> bool
    ensures { result ≡ terms.is_skipped line.now }
{
    match line.first() {
        Some(first) => *first == b'#',
        None => true,
    }
}
