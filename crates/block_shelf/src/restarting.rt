//! How a buffer set is stopped and started again in place.
ghost use Rattle.std.specs.Prelude.{◌≡◌, ◌^◌, ◌<◌, IfErr, OnErr, OnOk};
ghost use Rattle.block_shelf.specs.Restarting.{AreRestarted, IsBusyRestart, KeepsOn};
ghost use Rattle.block_shelf.specs.Restarting.{IsFaultOfPlace, IsRefusedRestart, LeavesOthers};
ghost use Rattle.block_shelf.specs.Restarting.{IsOtherFault, RestartsNext, restart_fault};

use crate::buffer_set::BufferSet;
use crate::stopping::number_of;
use cyc_block::BlockStore;
use cyc_buffer::{RestartError, StartError};
use std::alloc::Global;

/// Why a buffer set isn't stopped and started again, in the order of trial.
#[derive(Clone, Copy)]
pub enum RestartFault {
    /// A write is open in one of its buffers.
    Busy,
    /// Memory was refused.
    Memory,
    /// The buffer of this number isn't started again: its device failed, or doesn't give back what
    /// was written.
    Failed(u8),
}

impl<S: BlockStore> BufferSet<S> {
    /// Stops each buffer under this number and starts it again, in their order. Refused as Busy
    /// before a device is called. Memory is taken of one buffer after the other, and given back.
    pub fn restart(&mut self, alloc: Global, stop: u64) -> Result<(), RestartFault>
        // Done or refused, what was kept still is.
        ensures keeps { KeepsOn self.old result self.new }
        ensures restarted { OnOk result (AreRestarted stop self.old self.new) }
        ensures busy { IfErr result (λ fault. IsBusyRestart self.old fault self.new) }
        // Refused at a buffer, those before it are restarted and those behind it as they were.
        ensures refused { IfErr result (λ fault.
            IsRefusedRestart stop fault self.old self.new) }
    {
        if self.is_busy() {
            return Err(RestartFault::Busy);
        }
        for place in 0..self.buffers.len() {
            if let Err(fault) = self.restart_buffer(alloc, place, stop) {
                return Err(fault);
            }
        }
        Ok(())
    }

    /// Stops the buffer at this place and starts it again; where there is none nothing is done.
    fn restart_buffer(&mut self, alloc: Global, place: usize, stop: u64) -> Result<(), RestartFault>
        ensures keeps { KeepsOn self.old result self.new }
        ensures restarted { OnOk result (RestartsNext stop place self.old self.new) }
        ensures other { IfErr result IsOtherFault }
        ensures fault { IfErr result (IsFaultOfPlace place) }
        ensures refused { OnErr result (LeavesOthers place self.old self.new) }
    {
        let Some(buffer) = self.buffers.get_mut(place) else {
            return Ok(());
        };
        match buffer.restart(alloc, stop) {
            Ok(_tokens) => Ok(()),
            Err(error) => Err(fault_of(place, &error)),
        }
    }
}

/// The fault of the buffer set where the buffer at this place isn't restarted.
fn fault_of(place: usize, error: &RestartError) -> RestartFault
    ensures fault { place < 2 ^ 8 → result ≡ restart_fault error.now place }
    ensures other { IsOtherFault result }
    ensures number { IsFaultOfPlace place result }
{
    match error {
        RestartError::Start(StartError::Memory) => RestartFault::Memory,
        _ => RestartFault::Failed(number_of(place)),
    }
}
