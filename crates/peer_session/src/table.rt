//! The table: places in the order in which their offers were opened, and the chains to find them.
ghost use Rattle.std.specs.Prelude.{◌≡◌, ◌≢◌, ◌≤◌, ◌<◌, [], ◌∷◌, ◌++◌, List, ℕ, None};
ghost use Rattle.std.specs.Prelude.{true, false, length, slice_index_or};
ghost use Rattle.std.specs.Prelude.{IfOk, MatchOption};
ghost use Rattle.std.specs.List.{AllPairs};
ghost use Rattle.relay_model.specs.Asks.{is_open, is_full, with_offer, without_offer};
ghost use Rattle.relay_model.specs.State.{OpenOffer};
ghost use Rattle.relay_model.specs.Terms.{offer_limit};
ghost use Rattle.peer_session.specs.Places.{ids_of, offer_view, open_offers, place_count};
ghost use Rattle.peer_session.specs.Chains.{AreChains, HasRoom};
ghost use Rattle.peer_session.specs.Table.{IsTable, IsFirst};

use crate::chains::{Chains, Opened, PLACES};
use nntp_text::MsgId;
use std::alloc::{AllocError, Global};
use std::hash::RandomState;

/// The offers that a session may have open.
const LIMIT: usize = 256;

/// The offers in the order in which they were opened. An offer that ends leaves its place empty;
/// once no place is left, the offers are closed up, which is due after 256 that were opened.
#[derive(Drop)]
pub(crate) struct Table {
    /// The offers of the places.
    offers: Vec<Option<Opened>>,
    chains: Chains,
    /// The first place that has an offer; their number where none has.
    first: usize,
    /// How many places have one.
    count: usize,
}

impl Table {
    /// A table of no offers.
    pub(crate) fn new(alloc: Global, hasher: RandomState) -> Result<Table, AllocError>
        ensures table { IfOk result IsTable }
        ensures none { IfOk result (λ table. open_offers table.offers.items ≡ []) }
    {
        Ok(Table {
            offers: Vec::with_capacity(alloc, PLACES)?,
            chains: Chains::new(alloc, hasher)?,
            first: 0,
            count: 0,
        })
    }

    /// How many are open.
    pub(crate) fn count(&self) -> usize
        requires { IsTable self.now }
        ensures count { result ≡ length (open_offers self.now.offers.items) }
        ensures once { AllPairs (λ one other. one.id ≢ other.id)
            (open_offers self.now.offers.items) }
        ensures few { length (open_offers self.now.offers.items) ≤ offer_limit }
    {
        self.count
    }

    /// Whether the id is open.
    fn is_open(&self, id: &MsgId) -> bool
        requires { IsTable self.now }
        ensures { result ≡ is_open (open_offers self.now.offers.items) id.now }
    {
        self.chains.find(&self.offers, self.first, id).is_some()
    }

    /// Whether no further one may be opened, and the id isn't open.
    pub(crate) fn is_full(&self, id: &MsgId) -> bool
        requires { IsTable self.now }
        ensures { result ≡ is_full (open_offers self.now.offers.items) id.now }
    {
        self.count >= LIMIT && !self.is_open(id)
    }

    /// Opens the id at this moment, where it isn't open and may be.
    pub(crate) fn open(&mut self, id: MsgId, now: u64)
        requires { IsTable self.old }
        ensures table { IsTable self.new }
        ensures opened { is_full (open_offers self.old.offers.items) id ≡ false
            → open_offers self.new.offers.items
            ≡ with_offer (open_offers self.old.offers.items) id now }
        ensures full { is_full (open_offers self.old.offers.items) id ≡ true
            → open_offers self.new.offers.items ≡ open_offers self.old.offers.items }
    {
        if self.count < LIMIT && !self.is_open(&id) {
            self.append(Opened { id, since: now });
        }
    }

    /// Opens the offer, whose id isn't open.
    fn append(&mut self, one: Opened)
        requires table { IsTable self.old }
        requires few { self.old.count < offer_limit }
        requires new { is_open (open_offers self.old.offers.items) one.id ≡ false }
        ensures table { IsTable self.new }
        ensures opened { open_offers self.new.offers.items
            ≡ open_offers self.old.offers.items ++ offer_view one ∷ [] }
    {
        if self.offers.len() == PLACES {
            self.close_up();
        }
        self.push(one);
    }

    /// Opens the offer, whose id isn't open, at a place that is free.
    fn push(&mut self, one: Opened)
        requires table { IsTable self.old }
        requires few { self.old.count < offer_limit }
        requires new { is_open (open_offers self.old.offers.items) one.id ≡ false }
        requires free { length self.old.offers.items < place_count }
        ensures table { IsTable self.new }
        ensures opened { open_offers self.new.offers.items
            ≡ open_offers self.old.offers.items ++ offer_view one ∷ [] }
    {
        let bucket = self.chains.bucket(&one.id);
        self.chains.add(bucket);
        self.offers.push_reserved(Some(one));
        self.count += 1;
    }

    /// Drops the places that have no offer.
    fn close_up(&mut self)
        requires { IsTable self.old }
        ensures table { IsTable self.new }
        ensures same { open_offers self.new.offers.items ≡ open_offers self.old.offers.items }
        ensures len { length self.new.offers.items ≡ self.new.count }
        ensures count { self.new.count ≡ self.old.count }
    {
        self.offers.retain(|place| place.is_some());
        self.first = 0;
        chain_all(&mut self.chains, &self.offers);
    }

    /// The id isn't open any more.
    pub(crate) fn close(&mut self, id: &MsgId)
        requires { IsTable self.old }
        ensures table { IsTable self.new }
        ensures closed { open_offers self.new.offers.items
            ≡ without_offer (open_offers self.old.offers.items) id.now }
    {
        if let Some(spot) = self.chains.find(&self.offers, self.first, id) {
            self.chains.remove(spot);
            self.offers[spot.place] = None;
            self.first = first_from(&self.offers, self.first);
            self.count -= 1;
        }
    }

    /// The offer that has been open for longest.
    pub(crate) fn oldest(&self) -> Option<&Opened>
        requires { IsTable self.now }
        ensures { MatchOption result (open_offers self.now.offers.items ≡ [])
            (λ one. (rest : List OpenOffer)
            × (open_offers self.now.offers.items ≡ offer_view one.now ∷ rest)) }
    {
        if self.first == self.offers.len() {
            return None;
        }
        self.offers[self.first].as_ref()
    }

    /// Takes the offer that has been open for longest.
    pub(crate) fn close_oldest(&mut self) -> Option<Opened>
        requires { IsTable self.old }
        ensures table { IsTable self.new }
        ensures closed { MatchOption result
            ((open_offers self.old.offers.items ≡ []) × (open_offers self.new.offers.items ≡ []))
            (λ one. open_offers self.old.offers.items
            ≡ offer_view one ∷ open_offers self.new.offers.items) }
    {
        if self.first == self.offers.len() {
            return None;
        }
        let place = self.first;
        let one = self.offers[place].take();
        self.first = first_from(&self.offers, place);
        self.count -= 1;
        one
    }
}

/// Makes the chains anew.
fn chain_all(chains: &mut Chains, offers: &[Option<Opened>])
    requires room { HasRoom chains.old }
    requires within { length offers.now ≤ place_count }
    ensures chains { AreChains (ids_of offers.now) chains.new }
    ensures room { HasRoom chains.new }
{
    chains.clear();
    for place in offers {
        let bucket = match place {
            Some(one) => chains.bucket(&one.id),
            None => 0,
        };
        chains.add(bucket);
    }
}

/// The first place that has an offer, from this one on; their number where none has.
fn first_from(offers: &[Option<Opened>], from: usize) -> usize
    requires within { from ≤ length offers.now }
    requires before { (j : ℕ) → j < from → slice_index_or (ids_of offers.now) j None ≡ None }
    ensures { IsFirst (ids_of offers.now) result }
{
    let mut first = from;
    while first < offers.len() && offers[first].is_none() {
        first += 1;
    }
    first
}
