//! Who may connect to a port.
ghost use Rattle.std.specs.Prelude.{ℕ, List, ◌≡◌};
ghost use Rattle.std.specs.Net.Addr.{ipv6_octets};
ghost use Rattle.live_wire.specs.Callers.{let_in_of};
ghost use Rattle.live_wire.specs.Callers as terms;
ghost use Rattle.relay_conf.specs.Reach.{may_reach};

use crate::listeners::Listeners;
use crate::stop::may_tell;
use relay_conf::Relay;
use std::io;
use std::net::Ipv6Addr;
use std::sync::atomic::{AtomicU64, Ordering};

/// Who may connect to the port of a peer: those who may reach it (docs/FORMATS.md, relay.conf); and
/// how many others have come.
pub struct Callers<'a> {
    relay: &'a Relay,
    /// The number of the peer.
    peer: usize,
    /// How many connections the ends of the port have taken, of those who may and of others.
    taken: AtomicU64,
    /// How many were refused since that was last told.
    refused: AtomicU64,
    /// The second after that in which it was, 0 before that.
    told: AtomicU64,
}

// Written out, so that no crate above proves anew how each part is let go.
impl Drop for Callers<'_> {
    fn drop(self) {
        let Callers {
            relay: _,
            peer: _,
            taken: _,
            refused: _,
            told: _,
        } = self;
    }
}

impl<'a> Callers<'a> {
    /// Those who may reach the peer of this number.
    pub fn of(relay: &'a Relay, peer: usize) -> Callers<'a>
        ensures { (address : List ℕ)
            → terms.may_call result address ≡ may_reach relay.now.allows.items peer address }
    {
        Callers {
            relay,
            peer,
            taken: AtomicU64::new(0),
            refused: AtomicU64::new(0),
            told: AtomicU64::new(0),
        }
    }

    /// Whether this address may connect.
    pub fn may_call(&self, address: Ipv6Addr) -> bool
        ensures { result ≡ terms.may_call self.now (ipv6_octets address) }
    {
        self.relay.may_reach(self.peer, address.octets())
    }

    /// The connection from an address, where that may connect; else it is closed.
    pub(crate) fn let_in<S: Drop>(&self, stream: S, from: Ipv6Addr) -> Option<S>
        ensures { result ≡ let_in_of self.now (ipv6_octets from) stream }
    {
        if self.may_call(from) {
            Some(stream)
        } else {
            None
        }
    }

    /// Counts a connection that an end of the port has taken.
    pub(crate) fn count_taken(&self) {
        self.taken.fetch_add(1, Ordering::SeqCst);
    }

    /// How many the ends of the port have taken.
    pub(crate) fn taken(&self) -> u64 {
        self.taken.load(Ordering::SeqCst)
    }

    /// Counts one at the port of these listeners that was refused, and tells in one line a minute
    /// at most how many were since the last, and whence this one came.
    pub(crate) fn refuse<R: Eprint>(
        &self,
        rt: &R,
        listeners: &Listeners,
        from: Ipv6Addr,
        second: u64,
    ) -> io::Result<()> {
        self.refused.fetch_add(1, Ordering::SeqCst);
        if !may_tell(&self.told, second) {
            return Ok(());
        }
        let (number, from) = (listeners.number()?, from.to_canonical());
        let count = self.refused.swap(0, Ordering::SeqCst);
        eprintln!(rt; "refused port={number} for=address from={from} count={count}")
    }

    /// The settings that say who may.
    pub(crate) fn relay(&self) -> &'a Relay {
        self.relay
    }
}
