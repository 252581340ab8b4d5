//! What stays open from one life of a relay to the next.
use crate::kept_sockets::KeptSockets;
use crate::questions::Questions;
use crate::reloads::Reloads;
use std::alloc::Global;
use std::fs::Files;
use std::io;
use std::net::Net;
use std::sync::atomic::{AtomicBool, Ordering};
use std::sync::{OnceLock, Wait};
use std::time::Clock;

/// What stays open from one life of a relay to the next: the sockets of its ports, the one by which
/// it is asked, and whoever waits to be told that it goes on.
pub struct KeptOpen {
    pub sockets: KeptSockets,
    pub reloads: Reloads,
    questions: OnceLock<Questions>,
    /// Whether no new articles are taken.
    paused: AtomicBool,
}

// Written out, so that no crate above proves anew how each part is let go.
impl Drop for KeptOpen {
    fn drop(self) {
        let KeptOpen {
            sockets: _,
            reloads: _,
            questions: _,
            paused: _,
        } = self;
    }
}

impl KeptOpen {
    /// Nothing yet.
    pub fn new(alloc: Global) -> KeptOpen {
        KeptOpen {
            sockets: KeptSockets::new(alloc),
            reloads: Reloads::new(),
            questions: OnceLock::new(),
            paused: AtomicBool::new(false),
        }
    }

    /// The socket by which the relay is asked: the one that an earlier life has left open, or a new
    /// one in the folder.
    pub fn questions_in<R: Wait + Files + Net>(
        &self,
        rt: &R,
        alloc: Global,
        folder: &str,
    ) -> io::Result<&Questions> {
        if let Some(questions) = self.questions.get() {
            return Ok(questions);
        }
        let questions = Questions::listen(rt, alloc, folder)?;
        Ok(self.questions.get_or_init(rt, move || questions))
    }

    /// A life of the relay has ended. Where nobody waits that it go on, the socket by which it is
    /// asked is taken away: whether that is so.
    pub fn end_life<R: Wait + Clock + Files>(&self, rt: &R, alloc: Global, folder: &str) -> bool {
        if self.reloads.is_asked(rt) {
            return false;
        }
        if let Some(questions) = self.questions.get() {
            questions.close(rt, alloc, folder);
        }
        true
    }

    /// No new articles are taken from now on, or they are again, in this life and in those behind it.
    pub(crate) fn pause(&self, paused: bool) {
        self.paused.store(paused, Ordering::SeqCst);
    }

    /// Whether none are taken.
    pub(crate) fn is_paused(&self) -> bool {
        self.paused.load(Ordering::SeqCst)
    }

    /// The life of the relay that has begun is served: what it doesn't go on with is closed, and
    /// whoever waits is told.
    pub(crate) fn serve<R: Wait + Clock>(&self, rt: &R) {
        self.sockets.close_others(rt);
        let _nobody = self.reloads.tell_reloaded(rt);
    }
}
