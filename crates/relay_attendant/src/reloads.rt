//! Whoever has asked that a relay go on with another configuration.
use relay_folder::Teller;
use std::sync::{Mutex, Wait};
use std::time::Clock;

/// What is told once the relay is served with the configuration that was asked for.
const RELOADED: &[u8] = b"reloaded\n";

/// Who has asked that a relay go on with the configuration that its folder has, from then until he
/// is told what came of it. There is one at most.
pub struct Reloads {
    asked: Mutex<Option<Teller>>,
}

// Written out, so that no crate above proves anew how each part is let go.
impl Drop for Reloads {
    fn drop(self) {
        let Reloads { asked: _ } = self;
    }
}

impl Reloads {
    /// Nobody has asked.
    pub fn new() -> Reloads {
        Reloads {
            asked: Mutex::new(None),
        }
    }

    /// He has asked for it. Whoever asked before him, and wasn't told, is let go.
    pub(crate) fn ask<R: Wait>(&self, rt: &R, teller: Teller) {
        let mut asked = self.asked.lock(rt);
        let _before = asked.replace(teller);
    }

    /// Whether somebody has asked who wasn't told yet.
    pub fn is_asked<R: Wait>(&self, rt: &R) -> bool {
        self.asked.lock(rt).is_some()
    }

    /// Tells whoever has asked this, and lets him go: whether somebody had.
    pub fn tell<R: Wait + Clock>(&self, rt: &R, octets: &[u8]) -> bool {
        let asked = self.asked.lock(rt).take();
        match asked {
            Some(teller) => {
                teller.tell(rt, octets);
                true
            }
            None => false,
        }
    }

    /// Tells whoever has asked that the relay is served as he asked: whether somebody had.
    pub(crate) fn tell_reloaded<R: Wait + Clock>(&self, rt: &R) -> bool {
        self.tell(rt, RELOADED)
    }
}
