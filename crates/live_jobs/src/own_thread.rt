//! The thread of a group's writer.
ghost use Rattle.std.specs.Prelude.{◌≡◌, ℕ, ◌<◌, true, false, Some, IfSome};
ghost use Rattle.std.specs.Prelude.{length, slice_get};
ghost use Rattle.crossbeam_queue.specs.Passes.{IsPassOf};
ghost use Rattle.live_jobs.specs.JobChannels.{queue_of};
ghost use Rattle.live_jobs.specs.Started.{Ended};

use crate::channel::JobChannel;
use crate::held::{take_ended, take_one};
use crate::outcome::Outcome;
use crate::placed::{PlacedSeat, SeatPlace};
use crate::run_premises::RunPremises;
use crate::seated::SeatedWriters;
use crate::writer::{Store, WriterSeat};
use job_queue::Looked;
use std::sync::Wait;
use std::sync::ledger::Ledger;
use std::thread;

/// Puts a seat where whoever brings a job may have it.
fn put<L: Ledger, O: Outcome + Drop, K: RunPremises, R: Wait>(
    rt: &R,
    channel: &JobChannel,
    place: &SeatPlace<L, O, K>,
    placed: PlacedSeat<L, O, K>,
) {
    let (mut held, turn) = place.turn(rt);
    *held = Some(placed);
    if let Some(change) = channel.end_turn(held, turn) {
        channel.tell(change);
    }
}

/// Waits where nothing is left; else it gives way, since another thread may be about to hand over
/// what it counted.
fn rest<R: Wait>(rt: &R, looked: Option<Looked<'_>>) {
    match looked {
        Some(looked) => looked.wait(rt),
        None => thread::yield_now(),
    }
}

/// One turn of the group's own thread: it takes a parcel, where there is one; and the seat back,
/// where it has the closing mark of each end. Else it rests until something is left.
fn own_turn<L: Ledger, O: Outcome, S: Store<L, O, R>, K: RunPremises, R: Wait>(
    rt: &R,
    seated: &SeatedWriters<L, O, S, K>,
    group: usize,
) -> Option<WriterSeat<L, O>>
    requires { group < length seated.now.channels.now }
    ensures { IfSome result (λ seat. Ended K.channels K.ends group seat.pass seat.lent
        seat.closed.items) }
{
    let channel = &seated.channels[group];
    let announced = channel.announce();
    let (mut held, turn) = seated.places[group].turn(rt);
    take_one(rt, seated.channels, seated.store, &mut *held);
    let ended = take_ended(&mut *held, group);
    let looked = channel.end_turn_last(held, turn, announced);
    if ended.is_none() {
        rest(rt, looked);
    }
    ended
}

/// Takes parcels, in turn with those who bring them, until it took the closing mark of each end
/// (docs/PROTOCOL.md, Threads 5). Where memory is refused, it tries the same step again.
pub(crate) fn run_writer<L: Ledger, O: Outcome + Drop, S: Store<L, O, R>, K: RunPremises, R: Wait>(
    rt: &R,
    channel: &JobChannel,
    seated: &SeatedWriters<L, O, S, K>,
    group: usize,
    seat: WriterSeat<L, O>,
) -> WriterSeat<L, O>
    requires pass { IsPassOf (queue_of channel.now) seat.pass }
    requires here { seat.lent ≡ false }
    requires group { slice_get K.channels group ≡ Some channel.now }
    requires ends { length seat.closed.items ≡ K.ends }
    ensures pass { IsPassOf (queue_of channel.now) result.pass }
    ensures here { result.lent ≡ false }
    ensures ends { length result.closed.items ≡ length seat.closed.items }
    ensures closed { (e : ℕ) → e < length result.closed.items
        → slice_get result.closed.items e ≡ Some true }
{
    put(
        rt,
        channel,
        &seated.places[group],
        PlacedSeat::new(group, seat),
    );
    for _ in rt.forever() {
        if let Some(seat) = own_turn(rt, seated, group) {
            return seat;
        }
    }
    unreachable!()
}
