//! The step that gives an article up.
ghost use Rattle.std.specs.Prelude.{◌≡◌};
ghost use Rattle.id_history.specs.Changes.{ChangesClaim};
ghost use Rattle.id_history.specs.Shard.{Keeps};
ghost use Rattle.live_jobs.specs.Forgotten.{IsForgotten};
ghost use Rattle.relay_model.specs.Claims.{after_forget};

use id_history::Shard;
use nntp_text::MsgId;
use std::mem::size_of;
use std::snapshot::Snapshot;

/// That an article was given up: of which message-id, and for which session. `forget` alone makes
/// one, for each step that it makes, and nothing copies one. Its parts are for contracts alone: it
/// takes no memory.
pub struct Forgotten {
    id: Snapshot<MsgId>,
    session: Snapshot<u64>,
}

// Written out, so that no crate above proves anew how each part is let go.
impl Drop for Forgotten {
    fn drop(self) {
        let Forgotten { id: _, session: _ } = self;
    }
}

// What its comment says of its memory.
const _: () = prove!(size_of::<Forgotten>() == 0);

impl Forgotten {
    /// Of these. Only this file can call it.
    fn of(id: &MsgId, session: u64) -> Forgotten
        ensures { IsForgotten id.now session result }
    {
        Forgotten {
            id: Snapshot::of(id),
            session: Snapshot::of(&session),
        }
    }
}

/// The session's article of the id is given up: the id is unknown from now on, where it was being
/// stored for the session. The caller holds the shard. Takes no memory.
pub fn forget(shard: &mut Shard, id: &MsgId, session: u64) -> Forgotten
    ensures claims { ChangesClaim (Keeps shard.old) (Keeps shard.new) id.now
        (after_forget session) }
    ensures forgotten { IsForgotten id.now session result }
{
    shard.forget(id, session);
    Forgotten::of(id, session)
}
