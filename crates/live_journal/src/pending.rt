//! What was said, behind its lock.
ghost use Rattle.std.specs.Prelude.{◌≤◌, None, Some};
ghost use Rattle.live_journal.specs.Said.{IsSaid};
ghost use Rattle.relay_model.specs.Terms.{last_moment};

use crate::batch::{Batch, Said};
use cyc_token::Token;
use nntp_text::MsgId;
use std::alloc::{AllocError, Global};
use std::sync::{Mutex, Wait};

/// What was said to a journal and isn't appended yet. Whoever says something holds no other lock.
#[derive(Drop)]
pub struct PendingJournal {
    batch: Mutex<Batch>,
}

impl PendingJournal {
    /// One to which nothing was said, with room for so many octets (`Batch::new`).
    pub fn new(alloc: Global, octets: usize) -> Result<PendingJournal, AllocError> {
        Ok(PendingJournal {
            batch: Mutex::new(Batch::new(alloc, octets)?),
        })
    }

    /// An article of the id was refused at this moment.
    pub fn refused<R: Wait>(&self, rt: &R, id: &MsgId, moment: u64) -> Said
        requires { moment ≤ last_moment }
        ensures { IsSaid id.now None moment result }
    {
        self.batch.lock(rt).refused(id, moment)
    }

    /// An article of the id was stored under the token at this moment.
    pub fn stored<R: Wait>(&self, rt: &R, id: &MsgId, token: &Token, moment: u64) -> Said
        requires { moment ≤ last_moment }
        ensures { IsSaid id.now (Some token.now) moment result }
    {
        self.batch.lock(rt).stored(id, token, moment)
    }

    /// What was said since the last call, in the order in which it was said. The spare batch, whose
    /// entries are let go, is what is said to from then on.
    pub fn take<R: Wait>(&self, rt: &R, spare: Batch) -> Batch {
        self.batch.lock(rt).take(spare)
    }
}
