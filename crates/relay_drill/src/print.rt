//! What the answer to an event prints (docs/FORMATS.md, Drill scripts: What is printed).
ghost use Rattle.std.specs.Prelude.{◌≡◌, ◌<◌, ◌∷◌, ◌++◌, length, option_map};
ghost use Rattle.article_verdict.specs.Verdict.{reason_name, reason_view};
ghost use Rattle.relay_core.specs.Views.{fault_view, output_view};
ghost use Rattle.relay_drill.specs.Print as terms;
ghost use Rattle.relay_drill.specs.Print.{lines_of, note_of, noted_lines, printed, repaired_text};
ghost use Rattle.relay_drill.specs.Print.{restart_text, session_line, session_lines};
ghost use Rattle.relay_report.specs.Written.{Writes};

use article_verdict::Reason;
use itoa::Buffer;
use memchr::memmem;
use relay_core::{CoreError, Output};
use relay_report::{Unwritten, put, put_all};
use std::io::Write;

/// Prints an output; the reason for which an article is refused where reasons are told.
pub fn print<W: Write>(writer: &mut W, output: &Output, reasons: bool) -> Result<(), Unwritten>
    ensures { Writes result (printed reasons (output_view output.now))
        (W.contents writer.old) (W.contents writer.new) }
{
    match output {
        Output::Quiet => Ok(()),
        Output::Sent(session, octets) => print_lines(writer, *session, octets.as_slice()),
        Output::Rejected(session, octets, reason) => {
            if reasons {
                print_noted(writer, *session, octets.as_slice(), Some(*reason))
            } else {
                print_lines(writer, *session, octets.as_slice())
            }
        }
        Output::Ended(session, octets) => {
            print_lines(writer, *session, octets.as_slice())?;
            print_line(writer, *session, b"closed", None)
        }
        Output::Refused(error) => put_all(writer, &[b"refused ", fault_text(*error), b"\n"]),
    }
}

/// Prints the answer to a Restart. One that was done says nothing, so it is told by a word.
pub fn print_restart<W: Write>(
    writer: &mut W,
    output: &Output,
    reasons: bool,
) -> Result<(), Unwritten>
    ensures { Writes result (restart_text reasons (output_view output.now))
        (W.contents writer.old) (W.contents writer.new) }
{
    match output {
        Output::Quiet => put(writer, b"restarted\n"),
        Output::Sent(_, _) | Output::Rejected(_, _, _) | Output::Ended(_, _) | Output::Refused(_) =>
            print(writer, output, reasons),
    }
}

/// Prints that the relay was killed, and repaired.
pub fn print_repaired<W: Write>(writer: &mut W) -> Result<(), Unwritten>
    ensures { Writes result repaired_text (W.contents writer.old) (W.contents writer.new) }
{
    put(writer, b"repaired\n")
}

/// The code and the name of a fault (docs/PROTOCOL.md, Errors of the core).
fn fault_text(error: CoreError) -> &'static [u8]
    ensures { result.now ≡ terms.fault_text (fault_view error) }
{
    match error {
        CoreError::Memory => b"0 Memory",
        CoreError::NoSession => b"1 NoSession",
        CoreError::SessionTaken => b"2 SessionTaken",
        CoreError::NoGroup => b"3 NoGroup",
        CoreError::NoPeer => b"4 NoPeer",
        CoreError::BadMoment => b"5 BadMoment",
        CoreError::NoShard => b"6 NoShard",
        CoreError::NotIdle => b"7 NotIdle",
        CoreError::NotRestarted => b"8 NotRestarted",
    }
}

/// Prints the lines that a session is sent, each after the session's number.
fn print_lines<W: Write>(writer: &mut W, session: u64, octets: &[u8]) -> Result<(), Unwritten>
    ensures { Writes result (session_lines session octets.now)
        (W.contents writer.old) (W.contents writer.new) }
{
    print_noted(writer, session, octets, None)
}

/// Prints the same lines, behind each why an article is refused, where it is.
fn print_noted<W: Write>(
    writer: &mut W,
    session: u64,
    octets: &[u8],
    why: Option<Reason>,
) -> Result<(), Unwritten>
    ensures { Writes result
        (noted_lines session octets.now (note_of (option_map reason_view why)))
        (W.contents writer.old) (W.contents writer.new) }
{
    let mut rest = octets;
    while !rest.is_empty() {
        let (line, after) = cut_line(rest);
        print_line(writer, session, line, why)?;
        rest = after;
    }
    Ok(())
}

/// Prints a line that a session is sent, and behind it why an article is refused, where it is.
fn print_line<W: Write>(
    writer: &mut W,
    session: u64,
    line: &[u8],
    why: Option<Reason>,
) -> Result<(), Unwritten>
    ensures { Writes result
        (session_line session (line.now ++ note_of (option_map reason_view why)))
        (W.contents writer.old) (W.contents writer.new) }
{
    let mut digits = Buffer::new();
    let number = digits.format(session).as_bytes();
    match why {
        Some(reason) => {
            let name = name_of(&reason);
            put_all(writer, &[number, b" ", line, b" reason=", name, b"\n"])
        }
        None => put_all(writer, &[number, b" ", line, b"\n"]),
    }
}

/// The name of a reason.
fn name_of(reason: &Reason) -> &[u8]
    ensures { result.now ≡ reason_name (reason_view reason.now) }
{
    reason.name().as_bytes()
}

/// The first line, without its CRLF, and what follows it.
fn cut_line(octets: &[u8]) -> (&[u8], &[u8])
    requires { 0 < length octets.now }
    ensures cut { lines_of octets.now ≡ result.0.now ∷ lines_of result.1.now }
    ensures shorter { length result.1.now < length octets.now }
{
    match memmem::find(octets, b"\r\n") {
        Some(at) => (&octets[..at], &octets[at + 2..]),
        None => (octets, b""),
    }
}
