//! The list of the jobs that a writer took.
ghost use Rattle.std.specs.Prelude.{◌≡◌, ◌<◌, ◌^◌, ◌++◌, [], ◌∷◌, length, map, OnOk};
ghost use Rattle.live_jobs.specs.FinishedLists.{HasRoom, told_of_job};

use crate::outcome::FinishedJob;
use http_server::Log;
use std::alloc::{AllocError, Global};
use std::marker::Model;

/// What is kept of a job that a writer took: its numbers, and what became of it.
#[derive(Drop)]
pub struct ToldJob<O> {
    pub end: u64,
    pub number: u64,
    pub outcome: O,
}

/// The jobs that a writer took, in order, with what became of each. Of their message-ids nothing is
/// kept: these are for contracts alone.
pub struct FinishedList<O> {
    log: Log<FinishedJob<O>, ()>,
    told: Vec<ToldJob<O>>,
}

// Written out, so that no crate above proves anew how each part is let go.
impl<O: Drop> Drop for FinishedList<O> {
    fn drop(self) {
        let FinishedList { log: _, told: _ } = self;
    }
}

impl<O> Model for FinishedList<O> {
    ghost use Rattle.std.specs.Prelude.{◌≡◌, ◌-◌, map, vec_len, vec_capacity};
    ghost use Rattle.live_jobs.specs.FinishedLists.{FinishedItems, told_of_job};

    ghost Value = { FinishedItems O };

    ghost view = { λ list. record {
      items = map (λ pair. pair.0) list.log.items;
      places = vec_capacity list.told - vec_len list.told;
    } };

    ghost invariant = { λ list.
        list.told.items ≡ map told_of_job (map (λ pair. pair.0) list.log.items) };
}

impl<O> FinishedList<O> {
    /// No job yet, and no memory taken.
    pub fn new(alloc: Global) -> FinishedList<O>
        ensures { result.items ≡ [] }
    {
        FinishedList {
            log: Log::new(),
            told: Vec::new(alloc),
        }
    }

    /// Finds room for one job more, whichever it is. An error is want of memory.
    pub fn reserve_one(&mut self) -> Result<(), AllocError>
        ensures items { self.new.items ≡ self.old.items }
        ensures room { OnOk result (HasRoom self.new) }
        ensures few { length self.old.items < 2 ^ 63 }
    {
        self.told.reserve(1)
    }

    /// Appends a job, for which there is room. It takes no memory, and the message-id's is given
    /// back.
    pub fn push_reserved(&mut self, finished: FinishedJob<O>)
        requires room { HasRoom self.old }
        ensures items { self.new.items ≡ self.old.items ++ finished ∷ [] }
    {
        self.log = self.log.and(&finished, &());
        let FinishedJob {
            end,
            number,
            id: _,
            outcome,
        } = finished;
        self.told.push_reserved(ToldJob {
            end,
            number,
            outcome,
        });
    }

    /// What is kept of each job, in their order.
    pub fn all(&self) -> &[ToldJob<O>]
        ensures items { result.now ≡ map told_of_job self.now.items }
        ensures few { length self.now.items < 2 ^ 63 }
    {
        self.told.as_slice()
    }
}
