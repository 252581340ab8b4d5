//! Whether a message-id is being stored.
ghost use Rattle.relay_core.specs.Idle.{TellsIdle};

use id_history::Shards;

/// Whether no message-id is being stored.
pub(crate) fn is_idle(shards: &Shards) -> bool
    ensures { TellsIdle shards.now result }
{
    shards.counts().storing == 0
}
