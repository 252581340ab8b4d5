//! Octets as a type of its own, so that contracts see their list.
ghost use Rattle.std.specs.Prelude.{◌≡◌, IfOk};

use std::alloc::{AllocError, Global};
use std::marker::Model;

/// Octets that are kept: those that come from a peer or go to one, and what a configuration names.
/// A contract sees their list, and not how it lies in memory.
pub struct Octets {
    octets: Vec<u8>,
}

// Written out, so that no crate above proves anew how each part is let go.
impl Drop for Octets {
    fn drop(self) {
        let Octets { octets: _ } = self;
    }
}

impl Model for Octets {
    ghost use Rattle.std.specs.Prelude.{List, ℕ};

    ghost Value = { List ℕ };

    ghost view = { λ o. o.octets.items };
}

impl Octets {
    /// The octets of a list.
    pub fn new(octets: Vec<u8>) -> Octets
        ensures { result ≡ octets.items }
    {
        Octets { octets }
    }

    /// A copy of the octets, which alone takes memory.
    pub fn copied(alloc: Global, octets: &[u8]) -> Result<Octets, AllocError>
        ensures { IfOk result (λ copy. copy ≡ octets.now) }
    {
        Ok(Octets {
            octets: Vec::from_slice(alloc, octets)?,
        })
    }

    /// The octets, in order.
    pub fn as_slice(&self) -> &[u8]
        ensures { result.now ≡ self.now }
    {
        &self.octets
    }

    /// The list that keeps them.
    pub fn as_vec(&self) -> &Vec<u8>
        ensures { result.now.items ≡ self.now }
    {
        &self.octets
    }
}
