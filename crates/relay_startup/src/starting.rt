//! A relay begins, from nothing or from what it was stopped with.
ghost use Rattle.std.specs.Prelude.{◌≡◌, slice_get};
ghost use Rattle.relay_startup.specs.Starting.{IsBufferFaultAt, IsFaultAtAny, IsFaultOfBuffer};
ghost use Rattle.relay_startup.specs.Starting.{IsRefusal, IsUnstartedAs};
ghost use Rattle.std.specs.Prelude.{Some};

use block_shelf::StopFault;
use buffer_files::unbegun;
use relay_conf::{BufferConf, Buffers, Config};
use relay_core::NotStarted;
use relay_report::{BufferFault, HistoryFault, ServeError, StartFault};
use std::alloc::Global;

/// Why a relay can't start: the start was refused for this reason, the fault of the buffer of this
/// number where it is one of a buffer.
pub fn refusal(
    alloc: Global,
    settings: &Buffers,
    number: Option<u8>,
    reason: StopFault,
) -> ServeError
    ensures { IsRefusal settings.now number reason result }
{
    match reason {
        StopFault::Memory => ServeError::Memory,
        StopFault::Device => told(alloc, settings, number, BufferFault::Device),
        StopFault::NoHead => told(alloc, settings, number, BufferFault::NoHead),
        StopFault::Unclosed => told(alloc, settings, number, BufferFault::Unclosed),
        StopFault::Damaged => told(alloc, settings, number, BufferFault::Damaged),
        StopFault::BadHistory => ServeError::Start(StartFault::BadHistory(HistoryFault::Text)),
        StopFault::Mixed => told(alloc, settings, number, BufferFault::Mixed),
        StopFault::Ahead => ServeError::Start(StartFault::Ahead),
    }
}

/// Why a relay can't start: a buffer has this fault, the one of this number.
fn told(alloc: Global, settings: &Buffers, number: Option<u8>, fault: BufferFault) -> ServeError
    ensures { IsFaultAtAny settings.now number fault result }
{
    match number {
        Some(number) => fault_at(alloc, settings, number, fault),
        None => ServeError::Memory,
    }
}

/// Why a relay can't start: the buffer of this number has this fault.
fn fault_at(alloc: Global, settings: &Buffers, number: u8, fault: BufferFault) -> ServeError
    ensures { IsBufferFaultAt settings.now number fault result }
{
    match settings.buffers.get(usize::from(number)) {
        Some(buffer) => fault_of(alloc, buffer, fault),
        None => ServeError::Memory,
    }
}

/// Why a relay can't start: this buffer has this fault.
fn fault_of(alloc: Global, buffer: &BufferConf, fault: BufferFault) -> ServeError
    ensures { IsFaultOfBuffer (Some buffer.now) fault result }
{
    match String::from_utf8_lossy(alloc, buffer.name.as_slice()) {
        Ok(name) => ServeError::Start(StartFault::Buffer(name, fault)),
        Err(_) => ServeError::Memory,
    }
}

/// Why a relay isn't started over the stores of a configuration.
pub fn unstarted<S: Drop>(alloc: Global, config: &Config, refused: NotStarted<S>) -> ServeError
    ensures { IsUnstartedAs config.now.buffers refused result }
{
    match refused {
        NotStarted::Host(error, _stores) => unbegun(error.kind()),
        NotStarted::Refused(refused) => {
            refusal(alloc, &config.buffers, refused.buffer, refused.error)
        }
    }
}
