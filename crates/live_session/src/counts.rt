//! What is counted of a session, and told to the gate.
ghost use Rattle.std.specs.Prelude.{◌≡◌, ◌<◌, ◌+◌, ◌^◌};
ghost use Rattle.live_session.specs.Counts.{counted_in, is_of, offers_in, turns_in, untold_in};
ghost use Rattle.live_session.specs.Remarks.{is_known};
ghost use Rattle.live_wire.specs.Tally.{after_octets, after_reply, no_tally, tally_sum};

use crate::remarks::Remark;
use crate::shares::Gate;
use live_wire::Tally;

/// What is counted of a session of a peer: in all, up to when the gate was told, and since; and the
/// turns that it had.
#[derive(Drop)]
pub(crate) struct Counts {
    peer: usize,
    told: Tally,
    untold: Tally,
    turns: u64,
    /// The open offers of which the gate was told last.
    offers: usize,
}

impl Counts {
    /// Of a session of this peer that has said and read nothing.
    pub(crate) fn of(peer: usize) -> Counts
        ensures peer { is_of result ≡ peer }
        ensures none { (counted_in result ≡ no_tally) × (untold_in result ≡ no_tally) }
        ensures turns { turns_in result ≡ 0 }
        ensures offers { offers_in result ≡ 0 }
    {
        Counts {
            peer,
            told: Tally::none(),
            untold: Tally::none(),
            turns: 0,
            offers: 0,
        }
    }

    /// A turn begins.
    pub(crate) fn turn(&mut self)
        requires few { turns_in self.old < 2 ^ 63 }
        ensures turns { turns_in self.new ≡ turns_in self.old + 1 }
        ensures rest { (is_of self.new ≡ is_of self.old)
            × (counted_in self.new ≡ counted_in self.old)
            × (untold_in self.new ≡ untold_in self.old) }
    {
        self.turns += 1;
    }

    /// The turns that were had.
    pub(crate) fn turns(&self) -> u64
        ensures { result ≡ turns_in self.now }
    {
        self.turns
    }

    /// This was said; it was of an article that was known when it was sent, or not.
    pub(crate) fn say(&mut self, said: &[u8], was_known: bool)
        ensures untold { untold_in self.new ≡ after_reply was_known said.now (untold_in self.old) }
        ensures rest { (is_of self.new ≡ is_of self.old)
            × (counted_in self.new ≡ counted_in self.old)
            × (turns_in self.new ≡ turns_in self.old) }
    {
        self.untold.add_reply(said, was_known);
    }

    /// Tells the gate what became of an article, where something is remarked of it, with the reply
    /// to it: whether it was known.
    pub(crate) fn remark<G: Gate<R>, R>(
        &self,
        rt: &R,
        gate: &G,
        said: &[u8],
        remark: Option<Remark>,
    ) -> bool
        ensures { result ≡ is_known remark }
    {
        let Some(remark) = remark else {
            return false;
        };
        gate.remarked(rt, self.peer, said, &remark);
        match remark {
            Remark::Known(_) => true,
            _ => false,
        }
    }

    /// So many octets were read.
    pub(crate) fn read(&mut self, octets: usize)
        ensures untold { untold_in self.new ≡ after_octets octets (untold_in self.old) }
        ensures rest { (is_of self.new ≡ is_of self.old)
            × (counted_in self.new ≡ counted_in self.old)
            × (turns_in self.new ≡ turns_in self.old) }
    {
        self.untold.add_octets(octets);
    }

    /// Tells the gate what was counted since it was told last, and that the session has so many
    /// offers open.
    pub(crate) fn tell<G: Gate<R>, R>(&mut self, rt: &R, gate: &G, offers: usize)
        ensures untold { untold_in self.new ≡ no_tally }
        ensures all { counted_in self.new ≡ tally_sum (counted_in self.old) (untold_in self.old) }
        ensures rest { (is_of self.new ≡ is_of self.old)
            × (turns_in self.new ≡ turns_in self.old) }
        ensures offers { offers_in self.new ≡ offers }
    {
        gate.counted(rt, self.peer, &self.untold);
        gate.offers(rt, self.peer, self.offers, offers);
        self.offers = offers;
        self.told.add(&self.untold);
        self.untold = Tally::none();
    }

    /// What was counted in all, of what the gate was told.
    pub(crate) fn told(&self) -> Tally
        ensures { result ≡ counted_in self.now }
    {
        self.told
    }
}
