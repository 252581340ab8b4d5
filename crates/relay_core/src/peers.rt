ghost use Rattle.std.specs.Prelude.{◌≡◌, None, OnErr, OnOk, false};
ghost use Rattle.std.specs.Option.{option_copied};
ghost use Rattle.relay_model.specs.Run as run;
ghost use Rattle.relay_core.specs.Peers.{ClosesPeer, GivesPeer, HasPlace, NoPeers, SamePeers};
ghost use Rattle.relay_core.specs.Peers.{SamePlaces, TakesPeer, TellsPeer, has_place};
ghost use Rattle.relay_core.specs.Peers.{peer_at, place_count, session_at};

use peer_session::{Outcome, Session};
use std::alloc::{AllocError, Global};
use std::collections::HashMap;
use std::hash::RandomState;

/// A session with its slot: the outcome of its article, once a writer has told it.
#[derive(Drop)]
pub struct Peer {
    pub session: Session,
    pub slot: Option<Outcome>,
}

/// The peers by the numbers of their sessions. Each open session has a place, which stays while its
/// peer is lent out.
#[derive(Drop)]
pub struct Peers {
    /// A place whose peer is lent out has `None`.
    peers: HashMap<u64, Option<Peer>, RandomState>,
}

impl Peers {
    /// No peers.
    pub fn new(alloc: Global, hasher: RandomState) -> Peers
        ensures none { NoPeers result }
        ensures count { place_count result ≡ 0 }
    {
        Peers {
            peers: HashMap::with_hasher(alloc, hasher),
        }
    }

    /// Whether the session of this number is here and has turns.
    pub fn is_running(&self, number: u64) -> bool
        ensures { result ≡ run.is_there run.is_running (session_at self.now number) }
    {
        match self.peer(number) {
            Some(peer) => peer.session.is_running(),
            None => false,
        }
    }

    /// Whether the session of this number is here and reads.
    pub fn is_reading(&self, number: u64) -> bool
        ensures { result ≡ run.is_there run.is_reading (session_at self.now number) }
    {
        match self.peer(number) {
            Some(peer) => peer.session.is_reading(),
            None => false,
        }
    }

    /// The session gets a place of this number, with an empty slot. Where there was one, its peer
    /// is dropped.
    pub fn open(&mut self, number: u64, session: Session) -> Result<(), AllocError>
        ensures opened { OnOk result (GivesPeer number (record { session = session; slot = None })
            self.old self.new) }

        // Want of memory changes nothing.
        ensures err { OnErr result (SamePeers self.old self.new) }
        ensures err_places { OnErr result (SamePlaces self.old self.new) }
    {
        let peer = Peer {
            session,
            slot: None,
        };
        drop(self.peers.insert(number, Some(peer))?);
        Ok(())
    }

    /// Takes the peer of this number out of its place, which stays. `None` where there is none, or
    /// it is lent out already.
    pub fn lend(&mut self, number: u64) -> Option<Peer>
        ensures { TakesPeer number self.old result self.new }
    {
        match self.peers.get_mut(&number) {
            Some(place) => place.take(),
            None => None,
        }
    }

    /// Puts the peer into the place of this number, which takes no memory. Where there is no such
    /// place the peer is dropped.
    pub fn give_back(&mut self, number: u64, peer: Peer)
        ensures given { HasPlace self.old number → GivesPeer number peer self.old self.new }
        ensures dropped { has_place self.old number ≡ false → SamePeers self.old self.new }
        ensures places { SamePlaces self.old self.new }
    {
        match self.peers.get_mut(&number) {
            Some(place) => drop(place.replace(peer)),
            None => drop(peer),
        }
    }

    /// The session of this number has ended: its place goes, and its peer if it is there.
    pub fn close(&mut self, number: u64)
        ensures { ClosesPeer number self.old self.new }
    {
        drop(self.peers.remove(&number));
    }

    /// The outcome of the article comes into the slot of this number's peer. What was in the slot
    /// goes, and one that isn't here is told nothing.
    pub fn tell(&mut self, number: u64, outcome: Outcome)
        ensures { TellsPeer number outcome self.old self.new }
    {
        if let Some(place) = self.peers.get_mut(&number) {
            match place {
                Some(peer) => peer.slot = Some(outcome),
                None => {}
            }
        }
    }

    /// The peer of this number, unless it is lent out.
    fn peer(&self, number: u64) -> Option<&Peer>
        ensures { option_copied result ≡ peer_at self.now number }
    {
        match self.peers.get(&number) {
            Some(place) => place.as_ref(),
            None => None,
        }
    }
}
