//! The seat of a group's writer, where whoever brings a job may have it.
ghost use Rattle.std.specs.Prelude.{◌≡◌};
ghost use Rattle.live_jobs.specs.Started.{Ready};

use crate::channel::JobChannel;
use crate::outcome::Outcome;
use crate::run_premises::RunPremises;
use crate::writer::{Store, WriterSeat, all_closed, take_step};
use job_queue::InTurn;
use std::marker::PhantomData;
use std::sync::Wait;
use std::sync::ledger::Ledger;

/// The seat of the writer of the group of this number: it takes from the group's channel, its share
/// is here, and it has a flag for each end.
pub(crate) struct PlacedSeat<L: Ledger, O: Outcome, K: RunPremises> {
    pub(crate) group: usize,
    pub(crate) seat: WriterSeat<L, O>,
    of: PhantomData<K>,
    ghost ready: { Ready K.channels K.ends group seat.pass seat.lent seat.closed.items },
}

// Written out, so that no crate above proves anew how each part is let go.
impl<L: Ledger, O: Outcome + Drop, K: RunPremises> Drop for PlacedSeat<L, O, K> {
    fn drop(self) {
        let PlacedSeat {
            group: _,
            seat: _,
            of: _,
        } = self;
    }
}

/// Where the seat of a group's writer lies: nothing before its thread has put it there, and once it
/// has taken it back.
pub(crate) type SeatPlace<L, O, K> = InTurn<Option<PlacedSeat<L, O, K>>>;

impl<L: Ledger, O: Outcome, K: RunPremises> PlacedSeat<L, O, K> {
    ghost use Rattle.std.specs.Prelude.{ℕ, ◌<◌, true, Some, length, slice_get};

    /// The seat of this group's writer.
    pub(crate) fn new(group: usize, seat: WriterSeat<L, O>) -> PlacedSeat<L, O, K>
        requires { Ready K.channels K.ends group seat.pass seat.lent seat.closed.items }
    {
        PlacedSeat {
            group,
            seat,
            of: PhantomData,
        }
    }

    /// Takes one parcel of its channel, where there is one.
    pub(crate) fn step<S: Store<L, O, R>, R: Wait>(
        &mut self,
        rt: &R,
        channels: &[JobChannel],
        store: &S,
    )
        requires { channels.now ≡ K.channels }
    {
        if self.group < channels.len() {
            let channel = &channels[self.group];
            take_step(rt, channel, store, &mut self.seat);
        }
    }

    /// Whether it is the seat of this group's writer, with the closing mark of each end.
    pub(crate) fn has_ended(&self, group: usize) -> bool
        ensures { result ≡ true → (self.now.group ≡ group)
            × ((e : ℕ) → e < length self.now.seat.closed.items
            → slice_get self.now.seat.closed.items e ≡ Some true) }
    {
        if self.group != group {
            return false;
        }
        all_closed(self.seat.closed.as_slice())
    }

    /// The seat, out of its place.
    pub(crate) fn into_seat(self) -> WriterSeat<L, O>
        ensures seat { result ≡ self.seat }
        ensures ready { Ready K.channels K.ends self.group result.pass result.lent
            result.closed.items }
    {
        let PlacedSeat {
            group: _,
            seat,
            of: _,
        } = self;
        seat
    }
}
