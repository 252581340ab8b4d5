//! The writers of a run, whose seats are had in turn.
ghost use Rattle.std.specs.Prelude.{◌≡◌, length};

use crate::channel::JobChannel;
use crate::held::take_one;
use crate::outcome::Outcome;
use crate::placed::{PlacedSeat, SeatPlace};
use crate::run_premises::RunPremises;
use crate::writer::Store;
use crate::writer_turns::WriterTurns;
use job_queue::{Change, Parcels};
use std::sync::Wait;
use std::sync::ledger::Ledger;

/// How many parcels one takes for others, at most, before he leaves what is left to the group's own
/// thread.
const IN_A_ROW: u32 = 16;

/// The writers of a run: its channels, the places of the writers' seats, one for each channel, and
/// what stores.
#[derive(Drop)]
pub(crate) struct SeatedWriters<'a, L: Ledger, O: Outcome, S, K: RunPremises> {
    pub(crate) channels: &'a [JobChannel],
    pub(crate) places: &'a [SeatPlace<L, O, K>],
    pub(crate) store: &'a S,
    ghost here: { channels.now ≡ K.channels },
    ghost placed: { length places.now ≡ length channels.now },
}

impl<'a, L: Ledger, O: Outcome, S, K: RunPremises> SeatedWriters<'a, L, O, S, K> {
    /// Takes what is left of a group, where no other thread does: so many parcels at most, one a
    /// turn. Then the group's own thread is told, for which no other may wait.
    fn write_some<R: Wait>(
        &self,
        rt: &R,
        channel: &JobChannel,
        place: &SeatPlace<L, O, K>,
        change: Change<Parcels>,
    )
    where
        S: Store<L, O, R>,
    {
        let mut left = change;
        for _ in 0..IN_A_ROW {
            let Some((mut held, turn)) = place.try_turn(left) else {
                return;
            };
            take_one(rt, self.channels, self.store, &mut *held);
            match channel.end_turn(held, turn) {
                Some(change) => left = change,
                None => return,
            }
        }
        channel.tell(left);
    }

    /// Takes what is left of each group, where no other thread does.
    fn write_each<R: Wait>(&self, rt: &R)
    where
        S: Store<L, O, R>,
    {
        for group in 0..self.channels.len() {
            let channel = &self.channels[group];
            if let Some(change) = channel.left() {
                self.write_some(rt, channel, &self.places[group], change);
            }
        }
    }
}

impl<'a, L: Ledger, O: Outcome, S: Store<L, O, R>, K: RunPremises, R: Wait> WriterTurns<R>
    for SeatedWriters<'a, L, O, S, K> {
    fn write(&self, rt: &R, channel: &JobChannel, group: usize, change: Change<Parcels>) {
        match self.places.get(group) {
            Some(place) => self.write_some(rt, channel, place, change),
            None => channel.tell(change),
        }
    }

    fn write_left(&self, rt: &R) {
        self.write_each(rt);
    }
}
