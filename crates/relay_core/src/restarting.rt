//! A Restart: the relay is closed and started again in place (docs/PROTOCOL.md, Clean stop and
//! start).
ghost use Rattle.std.specs.Prelude.{◌≡◌};
ghost use Rattle.relay_core.specs.Restarting.{refused_as};

use crate::desks::{Desks, read_history};
use crate::event::{CoreError, Output};
use crate::idle::is_idle;
use crate::peers::Peers;
use crate::stopping::next_stop;
use crate::system::System;
use block_shelf::RestartFault;
use cyc_block::BlockStore;
use id_history::HistoryError;

impl<S: BlockStore> System<S> {
    ghost use Rattle.std.specs.Prelude.{IfErr, IfOk};
    ghost use Rattle.relay_model.specs.Run as run;
    ghost use Rattle.relay_core.specs.Restarting.{BeginsAgain, IsReread, IsUnread};
    ghost use Rattle.relay_core.specs.Restarting.{RestartsRightly};
    ghost use Rattle.relay_core.specs.Sharing.{KeepsFrame};
    ghost use Rattle.relay_core.specs.Steps.{StepsAs};

    /// Closes the relay and starts it again, in place: the buffers from what they write, all else
    /// from the text of its history. Where a message-id is being stored nothing is done.
    pub(crate) fn restart(&mut self) -> Output
        ensures steps { StepsAs run.Restart self.old result self.new }
        ensures refused { RestartsRightly self.old result self.new }
        ensures frame { KeepsFrame self.old self.new }
    {
        if !is_idle(&self.shards) {
            return Output::Refused(CoreError::NotIdle);
        }
        // All memory but that of the buffers is taken before a device is called.
        let stop = next_stop(self.stop);
        let desks = match self.reread(stop) {
            Ok(desks) => desks,
            Err(HistoryError::Memory) => return Output::Refused(CoreError::Memory),
            Err(HistoryError::BadHistory) => return Output::Refused(CoreError::NotRestarted),
        };
        match self.buffer_set.restart(self.alloc, stop) {
            Ok(()) => {
                self.begin_again(desks, stop);
                Output::Quiet
            }
            Err(fault) => {
                drop(desks);
                Output::Refused(refused_as(fault))
            }
        }
    }

    /// What is kept beside the buffer set, written as the text of its history at this stop, and
    /// read back.
    fn reread(&self, stop: u64) -> Result<Desks, HistoryError>
        ensures reread { IfOk result (IsReread self.now) }
        ensures unread { IfErr result (IsUnread self.now) }
    {
        let text = self.text(stop)?;
        let history = match read_history(self.alloc, &self.config, &text) {
            Ok(history) => history,
            Err(error) => return Err(error),
        };
        let desks = Desks::resume(
            self.alloc,
            self.hasher,
            &self.config,
            history,
            self.group_writers.len(),
        )?;
        Ok(desks)
    }

    /// Nobody is here, and the relay goes on with these.
    fn begin_again(&mut self, desks: Desks, stop: u64)
        ensures { BeginsAgain desks stop self.old self.new }
    {
        let Desks {
            shards,
            desk,
            group_writers,
            expirer,
        } = desks;
        self.peers = Peers::new(self.alloc, self.hasher);
        self.shards = shards;
        self.desk = desk;
        self.group_writers = group_writers;
        self.expirer = expirer;
        self.stop = stop;
    }
}

/// What a Restart is refused as, where the buffer set isn't restarted.
fn refused_as(fault: RestartFault) -> CoreError
    ensures { result ≡ refused_as fault }
{
    match fault {
        RestartFault::Memory => CoreError::Memory,
        RestartFault::Busy => CoreError::NotRestarted,
        RestartFault::Failed(_number) => CoreError::NotRestarted,
    }
}
