//! The socket by which a relay is asked, from its first life to the end of its last.
use relay_folder::{Askers, Control, WAITED_FOR};
use std::alloc::Global;
use std::fs::Files;
use std::net::Net;
use std::sync::{Mutex, Wait};
use std::time::Clock;
use std::{io, mem};

/// How many of those who have asked while the relay ended wait for the end, at most: all whose
/// words were waited for, and as many behind them.
const LAST_ONES: usize = WAITED_FOR + 64;

/// The socket in a relay's folder, and those who have connected and whose words are waited for.
/// What is asked between two lives of the relay the next one hears.
pub struct Questions {
    pub(crate) control: Control,
    pub(crate) askers: Mutex<Askers>,
}

// Written out, so that no crate above proves anew how each part is let go.
impl Drop for Questions {
    fn drop(self) {
        let Questions {
            control: _,
            askers: _,
        } = self;
    }
}

impl Questions {
    /// Listens in a folder. Where another relay is served there, or what stands there is no socket,
    /// it can't be had.
    pub fn listen<R: Files + Net>(rt: &R, alloc: Global, folder: &str) -> io::Result<Questions> {
        let control = Control::listen(rt, alloc, folder)?;
        Ok(Questions {
            control,
            askers: Mutex::new(Askers::new(alloc)),
        })
    }

    /// Takes the socket away. Who has asked meanwhile waits, as those who asked for the stop, until
    /// the program has ended, whatever he has said by now.
    pub fn close<R: Wait + Clock + Files>(&self, rt: &R, alloc: Global, folder: &str) {
        self.control.close(rt, alloc, folder);
        let mut askers = self.askers.lock(rt);
        for _ in 0..LAST_ONES {
            match self.control.next_one(rt, &mut askers) {
                Some(teller) => mem::forget(teller),
                None => break,
            }
        }
    }
}
