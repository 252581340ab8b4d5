//! What is done with the seat of a group's writer while its place is held.
ghost use Rattle.std.specs.Prelude.{◌≡◌, ◌<◌, ℕ, true, Some, IfSome, length, slice_get};
ghost use Rattle.live_jobs.specs.Started.{Ended};

use crate::channel::JobChannel;
use crate::outcome::Outcome;
use crate::placed::PlacedSeat;
use crate::run_premises::RunPremises;
use crate::writer::{Store, WriterSeat};
use std::sync::Wait;
use std::sync::ledger::Ledger;

/// Takes one parcel with the seat that lies there, where there are both.
pub(crate) fn take_one<L: Ledger, O: Outcome, S: Store<L, O, R>, K: RunPremises, R: Wait>(
    rt: &R,
    channels: &[JobChannel],
    store: &S,
    held: &mut Option<PlacedSeat<L, O, K>>,
)
    requires { channels.now ≡ K.channels }
{
    if let Some(placed) = held {
        placed.step(rt, channels, store);
    }
}

/// Whether the seat of this group's writer lies there, with the closing mark of each end.
fn has_ended<L: Ledger, O: Outcome, K: RunPremises>(
    held: &Option<PlacedSeat<L, O, K>>,
    group: usize,
) -> bool
    ensures { result ≡ true → IfSome held.now (λ placed. (placed.group ≡ group)
        × ((e : ℕ) → e < length placed.seat.closed.items
        → slice_get placed.seat.closed.items e ≡ Some true)) }
{
    match held {
        Some(placed) => placed.has_ended(group),
        None => false,
    }
}

/// Takes the seat of this group's writer back, where it has the closing mark of each end.
pub(crate) fn take_ended<L: Ledger, O: Outcome, K: RunPremises>(
    held: &mut Option<PlacedSeat<L, O, K>>,
    group: usize,
) -> Option<WriterSeat<L, O>>
    ensures { IfSome result (λ seat. Ended K.channels K.ends group seat.pass seat.lent
        seat.closed.items) }
{
    if !has_ended(held, group) {
        return None;
    }
    match held.take() {
        Some(placed) => Some(placed.into_seat()),
        None => None,
    }
}
