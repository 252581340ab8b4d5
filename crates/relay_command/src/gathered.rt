//! Gathering what is printed, and handing it on in large pieces (docs/PROTOCOL.md, Statuses).
ghost use Rattle.std.specs.Prelude.{◌≡◌, [], IfErr, IfOk};
ghost use Rattle.std.specs.Io.Buffered.{writer_buffer, writer_capacity, writer_contents};
ghost use Rattle.std.specs.Io.Buffered.{writer_inner};
ghost use Rattle.std.specs.Io.KnownBytes.{Keeps};
ghost use Rattle.relay_command.specs.Gathered.{HandsOn};
ghost use Rattle.relay_command.specs.declared.failure.Failure.TheVariants as failures;
ghost use Rattle.relay_command.specs.declared.failure.Unbegun.TheVariants as begin;

use crate::failure::{Failure, Unbegun};
use std::alloc::Global;
use std::io::{BufWriter, Write};

/// The octets that are held at most.
const ROOM: usize = 65_536;

/// A writer that holds what is printed, up to 65,536 octets, and hands it on to this one. Memory
/// for that is taken here alone.
pub fn gathering<W: Write + Drop>(alloc: Global, writer: W) -> Result<BufWriter<W>, Failure>
    ensures inner { IfOk result (λ gathering. writer_inner gathering ≡ writer) }
    ensures empty { IfOk result (λ gathering. writer_buffer gathering ≡ []) }
    ensures room { IfOk result (λ gathering. writer_capacity gathering ≡ 65536) }
    ensures memory { IfErr result (λ failure. failure ≡ failures.Unbegun begin.Memory) }
{
    match BufWriter::with_capacity(alloc, ROOM, writer) {
        Ok(gathering) => Ok(gathering),
        Err(_) => Err(Failure::Unbegun(Unbegun::Memory)),
    }
}

/// Hands on what is still held, and says how the run ends that printed it.
pub fn hand_on<W: Write + Drop>(
    ran: Result<(), Failure>,
    writer: &mut BufWriter<W>,
) -> Result<(), Failure>
    ensures ends { HandsOn ran result (writer_buffer writer.old) (writer_buffer writer.new) }
    ensures bytes { Keeps (writer_contents W.contents writer.old)
        (writer_contents W.contents writer.new) }
{
    if writer.buffer().is_empty() {
        return ran;
    }
    match writer.flush() {
        Ok(()) => ran,
        Err(_) => Err(Failure::Unwritten),
    }
}
