//! What a relay's threads share is stopped, and why it isn't.
ghost use Rattle.std.specs.Prelude.{◌≡◌, length};
ghost use Rattle.live_jobs.specs.Desks.{posts_in};
ghost use Rattle.relay_live.specs.Counts.{accepted_in, posted_in};
ghost use Rattle.relay_live.specs.Making.{buffers_in};
ghost use Rattle.relay_serve.specs.Lives.{Finishes, StopsCounted, stopped_as};
ghost use Rattle.buffer_files.specs.Faults.{IsStopFault};

use crate::figures::totals_of;
use crate::running::Finished;
use cyc_block::BlockStore;
use live_store::StorePremises;
use post_history::Naming;
use relay_conf::Config;
use relay_live::{Audit, Counted, Shared, Shut, Unshut};
use relay_report::{ServeError, StopFault};
use std::alloc::Global;
use std::sync::Wait;
use std::sync::ledger::Ledger;

/// Stops a relay whose threads have ended, of which this was counted.
pub(crate) fn finish<S: BlockStore + Drop, J: StorePremises + Naming, L: Ledger, R: Wait + Eprint>(
    rt: &R,
    alloc: Global,
    config: &Config,
    shared: Shared<S, J, L>,
    counted: Counted,
) -> Result<Finished<S>, ServeError>
    requires buffers { buffers_in shared ≡ length config.now.buffers.buffers.items }
    requires posted { posts_in (posted_in counted) ≡ accepted_in counted }
    ensures { Finishes config.now shared counted result }
{
    match stop_counted(rt, alloc, config, shared, counted) {
        Ok(finished) => Ok(finished),
        Err(refused) => {
            let error = unstopped(&refused);
            drop(refused);
            Err(error)
        }
    }
}

/// Stops it, whether or not there is memory for its totals: only `Shared::shut` refuses.
fn stop_counted<S: BlockStore + Drop, J: StorePremises + Naming, L: Ledger, R: Wait + Eprint>(
    rt: &R,
    alloc: Global,
    config: &Config,
    shared: Shared<S, J, L>,
    counted: Counted,
) -> Result<Finished<S>, Unshut<S, J, L>>
    requires buffers { buffers_in shared ≡ length config.now.buffers.buffers.items }
    requires posted { posts_in (posted_in counted) ≡ accepted_in counted }
    ensures { StopsCounted config.now shared counted result }
{
    let totals = totals_of(rt, alloc, config, &shared, &counted);
    match shared.shut(alloc) {
        Ok(shut) => {
            let Shut { stopped, audit } = shut;
            tell_audit(rt, &audit);
            Ok(Finished {
                counted,
                totals,
                stopped,
            })
        }
        Err(refused) => {
            drop(totals);
            Err(refused)
        }
    }
}

/// Tells that the desk and the shards don't agree on what was posted, where it is so: a fault of
/// the program.
pub(crate) fn tell_audit<J: Naming, R: Eprint>(rt: &R, audit: &Audit<J>) {
    if audit.differs() {
        let _lost = eprintln!(rt; "counted posts=differ");
    }
}

/// Why a relay isn't stopped so that it can start again.
fn unstopped<S: BlockStore + Drop, J: StorePremises + Naming, L: Ledger>(
    refused: &Unshut<S, J, L>,
) -> ServeError
    ensures error { result ≡ stopped_as refused.now }
    ensures fault { IsStopFault result }
{
    match refused {
        Unshut::NotIdle(_) => ServeError::Stop(StopFault::NotIdle),
        Unshut::Memory(_, _) => ServeError::Memory,
        Unshut::Device(_, _) => ServeError::Stop(StopFault::Device),
    }
}
