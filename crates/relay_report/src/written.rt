//! Writing, so that of a writer that failed it is known what it took before: a front of what it
//! was to write, and nothing behind it.
ghost use Rattle.std.specs.Prelude.{flat_map};
ghost use Rattle.relay_report.specs.Written.{Writes};

use std::io::{ErrorKind, Write};

/// The turns that writing takes, at most.
const MOST_TURNS: u64 = 1 << 40;

/// The writer failed. What it took before stands.
#[derive(Clone, Copy)]
pub struct Unwritten;

/// Writes octets. A writer that is interrupted is asked again, one that takes none has failed.
pub fn put<W: Write>(writer: &mut W, octets: &[u8]) -> Result<(), Unwritten>
    ensures { Writes result octets.now (W.contents writer.old) (W.contents writer.new) }
{
    let mut rest = octets;
    for turn in 0..MOST_TURNS {
        let _turn = turn;
        if rest.is_empty() {
            return Ok(());
        }
        match writer.write(rest) {
            Ok(0) => return Err(Unwritten),
            Ok(count) => rest = &rest[count..],
            Err(error) => match error.kind() {
                ErrorKind::Interrupted => {}
                _ => return Err(Unwritten),
            },
        }
    }
    Err(Unwritten)
}

/// Writes the octets of these parts, one after the other.
pub fn put_all<W: Write>(writer: &mut W, parts: &[&[u8]]) -> Result<(), Unwritten>
    ensures { Writes result (flat_map (λ part. part.now) parts.now)
        (W.contents writer.old) (W.contents writer.new) }
{
    for part in parts {
        put(writer, part)?;
    }
    Ok(())
}
