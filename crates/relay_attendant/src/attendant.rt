//! Whoever is asked while a relay is served.
ghost use Rattle.std.specs.Prelude.{◌≡◌, is_some};
ghost use Rattle.relay_attendant.specs.Attendants.{syncing_in};

use crate::beside::Figured;
use crate::kept_open::KeptOpen;
use crate::questions::Questions;
use live_wire::{Door, Stop};
use news_log::{NewsFile, NewsLines, NewsWriting};
use relay_devices::Syncing;
use relay_folder::{Askers, JournalFile, Teller, Word};
use relay_gate::CountingGate;
use relay_journal::{JournalLines, Journaling, second_of};
use std::alloc::{AllocError, Global};
use std::mem;
use std::sync::Wait;
use std::sync::atomic::{AtomicBool, Ordering};
use std::time::Clock;

/// What is told whoever asks for another configuration while the relay ends.
const NOT_NOW: &[u8] = b"not now\n";

/// What whoever asks for a pause is told by a relay that is repaired, and heeds it not.
const UNHEEDED: &[u8] = b"recovering\n";

/// Answers what is asked at the socket of a relay's folder: `report` is told what the relay tells
/// of itself, `pause` and `go` have it take no new articles and take them again, `stop` has its
/// ports end, and who asked for that hears no end before the program has ended; `reload` has them
/// end too, and who asked for that is told once it is known how the relay goes on. Meanwhile it
/// goes the relay's rounds, and looks once a second who waits at a port.
#[derive(Drop)]
pub struct Attendant<'a> {
    alloc: Global,
    stop: &'a Stop,
    gate: &'a CountingGate<'a>,
    /// What stays open when this life of the relay ends.
    kept: &'a KeptOpen,
    questions: &'a Questions,
    /// Where connections wait that no port has taken.
    doors: Vec<Door<'a>>,
    /// What is flushed meanwhile.
    syncing: Option<Syncing<'a>>,
    ended: AtomicBool,
}

impl<'a> Attendant<'a> {
    /// One whom nobody has asked yet.
    pub fn new(
        alloc: Global,
        stop: &'a Stop,
        gate: &'a CountingGate<'a>,
        kept: &'a KeptOpen,
        questions: &'a Questions,
        doors: Vec<Door<'a>>,
        syncing: Option<Syncing<'a>>,
    ) -> Attendant<'a>
        ensures syncing { syncing_in result ≡ syncing.entry }
    {
        Attendant {
            alloc,
            stop,
            gate,
            kept,
            questions,
            doors,
            syncing,
            ended: AtomicBool::new(false),
        }
    }

    /// Has the relay stop, for good: who has asked for another configuration is told so. Who asked
    /// for the stop is never let go: he hears the end when the program ends.
    fn stop<R: Wait + Clock + Eprint>(&self, rt: &R, teller: Teller) {
        let goes_on = self.kept.reloads.tell(rt, NOT_NOW);
        if goes_on || !self.stop.is_asked() {
            self.stop.ask();
            let _lost = eprintln!(rt; "stopping");
        }
        mem::forget(teller);
    }

    /// Has this life of the relay end, so that the next goes on with the configuration that its
    /// folder has. Who asked for that waits. Where the relay ends already he is told to come later.
    fn reload<R: Wait + Clock + Eprint>(&self, rt: &R, teller: Teller) {
        if self.stop.is_asked() {
            teller.tell(rt, NOT_NOW);
            return;
        }
        self.kept.reloads.ask(rt, teller);
        self.stop.ask();
        let _lost = eprintln!(rt; "reloading");
    }

    /// Is told that this life of the relay is served from now on. It takes no new articles where the
    /// life before it took none.
    pub fn serve<F: Figured<R>, R: Wait + Clock>(&self, rt: &R, relay: &F) {
        if self.kept.is_paused() {
            let _told = relay.pause(rt, true);
        }
        self.kept.serve(rt);
    }

    /// Has the relay take no new articles, or take them again, in this life and in those behind it.
    fn pause<F: Figured<R>, R: Clock>(&self, rt: &R, relay: &F, teller: &Teller, paused: bool) {
        let told = relay.pause(rt, paused);
        if told != UNHEEDED {
            self.kept.pause(paused);
        }
        teller.tell(rt, told);
    }

    /// Tells whoever asked the report of the relay.
    fn report<F: Figured<R>, R: Clock>(
        &self,
        rt: &R,
        relay: &F,
        teller: &Teller,
    ) -> Result<(), AllocError> {
        let text = relay.report(rt, self.alloc, self.gate)?;
        teller.tell(rt, &text);
        Ok(())
    }

    /// Answers whoever asks next, if anybody does.
    fn answer<F: Figured<R>, R: Wait + Clock + Eprint>(
        &self,
        rt: &R,
        relay: &F,
        askers: &mut Askers,
    ) {
        match self.questions.control.next_word(rt, askers) {
            Some((Word::Stop, teller)) => self.stop(rt, teller),
            Some((Word::Report, teller)) => {
                let _untold = self.report(rt, relay, &teller);
            }
            Some((Word::Pause, teller)) => self.pause(rt, relay, &teller, true),
            Some((Word::Go, teller)) => self.pause(rt, relay, &teller, false),
            Some((Word::Reload, teller)) => self.reload(rt, teller),
            None => {}
        }
    }

    /// Looks at each door in this second.
    fn look_out<R: Clock + Eprint>(&self, rt: &R, second: u64) {
        for door in &self.doors {
            door.look(rt, second);
        }
    }

    /// Goes on until what it goes on beside has ended.
    pub fn attend<F: Figured<R>, R: Wait + Clock + Eprint>(&self, rt: &R, relay: &F) {
        let begun = second_of(rt);
        let mut last_round = begun;
        let mut last_look = begun;
        let mut askers = self.questions.askers.lock(rt);
        for _ in rt.forever() {
            if self.ended.load(Ordering::SeqCst) {
                return;
            }
            self.answer(rt, relay, &mut askers);
            let second = second_of(rt);
            self.stop.pass(second);
            if second != last_look {
                self.look_out(rt, second);
                last_look = second;
            }
            if second.saturating_sub(last_round) >= relay.between() {
                relay.go_round(rt, second.saturating_sub(begun));
                last_round = second;
            }
        }
    }

    /// Whether files are flushed meanwhile.
    pub fn syncs(&self) -> bool
        ensures { result ≡ is_some (syncing_in self.now) }
    {
        self.syncing.is_some()
    }

    /// Flushes them until the relay has ended.
    pub fn sync<R: Wait + Clock + Eprint>(&self, rt: &R) {
        if let Some(syncing) = &self.syncing {
            syncing.go_on(rt, &self.ended);
        }
    }

    /// Writes the journal until the relay has ended.
    pub fn journal<F, K, R>(&self, rt: &R, journaling: Journaling<'_, F, K>)
    where
        F: JournalFile + Drop,
        K: JournalLines + Drop,
        R: Wait + Clock,
    {
        journaling.go_on(rt, &self.ended);
    }

    /// Writes the news log until the relay has ended.
    pub fn write_news<F, K, R>(&self, rt: &R, writing: NewsWriting<'_, F, K>)
    where
        F: NewsFile + Drop,
        K: NewsLines + Drop,
        R: Wait + Clock,
    {
        writing.go_on(rt, &self.ended);
    }

    /// Is told that what it goes on beside has ended.
    pub fn ended(&self) {
        self.ended.store(true, Ordering::SeqCst);
    }

    /// Is told that there is something else beside which it will go on.
    pub fn goes_on(&self) {
        self.ended.store(false, Ordering::SeqCst);
    }
}
