//! Telling who gave no word what is done, and how help is had (docs/PROTOCOL.md, Commands).
ghost use Rattle.std.specs.Prelude.{◌≡◌, map, string_bytes, OnOk};
ghost use Rattle.std.specs.Io.KnownBytes.{Appends};
ghost use Rattle.relay_command.specs.Hints.{hint_of};
ghost use Rattle.relay_command.specs.Hints as terms;

use std::io;
use std::io::Write;

/// What a run without words does, and how help is had.
const HINT: &[u8] =
    b"cnrelay: playing a script from standard input with the built-in configuration; \
    cnrelay --help lists the commands\n";

/// Tells whoever sits at a terminal, and gave no word behind the program's name, what is done
/// without one and how help is had. `writer` is standard error, and `is_terminal` is whether that
/// is a terminal.
pub fn hint<W: Write>(words: &[String], is_terminal: bool, writer: &mut W) -> io::Result<()>
    ensures { OnOk result (Appends (W.contents writer.old) (W.contents writer.new)
        (hint_of (map string_bytes words.now) is_terminal)) }
{
    if is_terminal && is_wordless(words) {
        writer.write_all(HINT)
    } else {
        Ok(())
    }
}

/// Whether no word stands behind the program's name.
fn is_wordless(words: &[String]) -> bool
    ensures { result ≡ terms.is_wordless (map string_bytes words.now) }
{
    words.len() <= 1
}
