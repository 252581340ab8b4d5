//! Rounds of forgetting (docs/PROTOCOL.md, Forgetting).
ghost use Rattle.std.specs.Prelude.{◌≡◌, ℕ, None, Some, IsSomeAnd};
ghost use Rattle.relay_live.specs.Making.{buffers_in, remember_in};
ghost use Rattle.relay_live.specs.Rounds.{IsRound};

mod round;

use crate::shared::Shared;
use cyc_block::BlockStore;
use live_store::StorePremises;
use post_history::Naming;
pub use round::Round;
pub(crate) use round::Rounds;
use std::sync::Wait;
use std::sync::ledger::Ledger;

/// Forgets what may be forgotten at this moment, where the configuration says how long ids are
/// remembered, else nothing: each buffer's front is read under its lock, then what may be forgotten
/// by these fronts is, in one shard after the other under its lock. It takes no memory. One round
/// goes at a time, and a second one waits for it.
pub fn expire_round<S: BlockStore + Drop, J: StorePremises + Naming, L: Ledger, R: Wait>(
    rt: &R,
    shared: &Shared<S, J, L>,
    now: u64,
) -> Option<Round>
    ensures unset { remember_in shared.now ≡ None → result ≡ None }
    ensures round { (remember : ℕ) → remember_in shared.now ≡ Some remember
        → IsSomeAnd result (IsRound now remember (buffers_in shared.now)) }
{
    let remember = shared.remember?;
    Some(go(rt, shared, &mut shared.rounds.lock(rt), now, remember))
}

/// Goes a round, in which each buffer and each shard is held for as long as it is looked at.
fn go<S: BlockStore + Drop, J: StorePremises + Naming, L: Ledger, R: Wait>(
    rt: &R,
    shared: &Shared<S, J, L>,
    rounds: &mut Rounds,
    now: u64,
    remember: u64,
) -> Round
    ensures { IsRound now remember (buffers_in shared.now) result }
{
    rounds.begin(now, remember);
    for number in 0..shared.buffers.len() {
        rounds.read(&shared.buffers.hold(rt, number));
    }
    for shard in &shared.shards {
        rounds.expire(&mut shard.hold(rt));
    }
    rounds.round()
}
