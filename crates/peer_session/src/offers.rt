ghost use Rattle.std.specs.Prelude.{◌≡◌, ◌≢◌, ◌≤◌, [], ◌∷◌, List, ℕ, None, Some, length, true};
ghost use Rattle.std.specs.Prelude.{false};
ghost use Rattle.std.specs.Prelude.{IfOk, MatchOption};
ghost use Rattle.std.specs.List.{AllPairs};
ghost use Rattle.relay_model.specs.Asks.{is_full, run_out, with_offer, without_offer};
ghost use Rattle.relay_model.specs.State.{OpenOffer};
ghost use Rattle.relay_model.specs.Terms.{offer_limit};

use crate::chains::Opened;
use crate::table::Table;
use id_history::has_run_out;
use nntp_text::MsgId;
use std::alloc::{AllocError, Global};
use std::hash::RandomState;
use std::marker::Model;

/// The open offers of a session, from the oldest on, each with the moment at which it was opened:
/// no id is among them twice, and there are at most 256 (docs/PROTOCOL.md, Limits).
#[derive(Drop)]
pub struct OpenOffers {
    table: Table,
}

impl Model for OpenOffers {
    ghost use Rattle.std.specs.Prelude.{List};
    ghost use Rattle.peer_session.specs.Places.{open_offers};
    ghost use Rattle.relay_model.specs.State.{OpenOffer};
    ghost use Rattle.peer_session.specs.Table.{IsTable};

    ghost Value = { List OpenOffer };

    ghost view = { λ offers. open_offers offers.table.offers.items };

    ghost invariant = { λ offers. IsTable offers.table };
}

impl OpenOffers {
    /// None are open. It takes all the memory that the table ever takes. The hasher has random
    /// keys, since peers choose the message-ids; sessions may share one.
    pub fn new(alloc: Global, hasher: RandomState) -> Result<OpenOffers, AllocError>
        ensures { IfOk result (λ offers. offers ≡ []) }
    {
        let table = Table::new(alloc, hasher)?;
        Ok(OpenOffers { table })
    }

    /// How many are open.
    pub fn len(&self) -> usize
        ensures count { result ≡ length self.now }

        // So it is of each table, which every call keeps.
        ensures once { AllPairs (λ one other. one.id ≢ other.id) self.now }
        ensures few { length self.now ≤ offer_limit }
    {
        self.table.count()
    }

    /// Whether no further offer may be opened, and the id is none of the open ones.
    pub fn is_full(&self, id: &MsgId) -> bool
        ensures { result ≡ is_full self.now id.now }
    {
        self.table.is_full(id)
    }

    /// Opens an offer of this id at this moment, the newest, unless it is open already; where no
    /// further one may be opened nothing changes. It takes no memory.
    pub fn open(&mut self, id: MsgId, now: u64)
        ensures opened { is_full self.old id ≡ false → self.new ≡ with_offer self.old id now }
        ensures full { is_full self.old id ≡ true → self.new ≡ self.old }
    {
        self.table.open(id, now);
    }

    /// The offer of this id ends, if it is open.
    pub fn close(&mut self, id: &MsgId)
        ensures { self.new ≡ without_offer self.old id.now }
    {
        self.table.close(id);
    }

    /// The id that has been open for longest.
    pub fn oldest(&self) -> Option<&MsgId>
        ensures { MatchOption result (self.now ≡ [])
            (λ id. (since : ℕ) × (rest : List OpenOffer)
            × (self.now ≡ record { id = id.now; since = since } ∷ rest)) }
    {
        let one = self.table.oldest()?;
        Some(&one.id)
    }

    /// The id that has been open for longest, where its offer has run out now, if offers last so
    /// many seconds.
    pub fn oldest_ended(&self, lasting: Option<u64>, now: u64) -> Option<&MsgId>
        ensures { MatchOption result (run_out lasting now self.now ≡ None)
            (λ id. (ended : OpenOffer × List OpenOffer)
            × (run_out lasting now self.now ≡ Some ended) × (ended.0.id ≡ id.now)) }
    {
        let one = self.table.oldest()?;
        if has_run_out(lasting, one.since, now) {
            Some(&one.id)
        } else {
            None
        }
    }

    /// Ends the offer that has been open for longest, and gives its id.
    pub fn close_oldest(&mut self) -> Option<MsgId>
        ensures { MatchOption result ((self.old ≡ []) × (self.new ≡ []))
            (λ id. (since : ℕ) × (self.old ≡ record { id = id; since = since } ∷ self.new)) }
    {
        let Opened { id, since: _ } = self.table.close_oldest()?;
        Some(id)
    }
}
