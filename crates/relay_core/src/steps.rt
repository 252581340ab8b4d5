//! One event, and a list of events.
ghost use Rattle.std.specs.Prelude.{◌≡◌};
ghost use Rattle.relay_model.specs.Run as run;

use crate::event::{CoreError, Event, Output};
use crate::system::System;
use cyc_block::BlockStore;
use line_words::Octets;
use nntp_text::{Reply, reply_bytes};
use peer_session::Session;

impl<S: BlockStore> System<S> {
    ghost use Rattle.std.specs.Prelude.{◌≡◌, IfErr, IfOk, map};
    ghost use Rattle.relay_model.specs.Run as run;
    ghost use Rattle.relay_core.specs.Refusals.{RefusesRightly};
    ghost use Rattle.relay_core.specs.Restarting.{RefusedAs};
    ghost use Rattle.relay_core.specs.Sharing.{KeepsFrame};
    ghost use Rattle.relay_core.specs.Steps.{RunsLeft, RunsTo, Steps, StepsAs, StepsLeft};
    ghost use Rattle.relay_core.specs.Views.{event_view, output_view};
    ghost use Rattle.relay_core.specs.declared.event.CoreError.TheVariants as faults;

    /// Does what an event asks. A refused event changes nothing.
    pub fn step(&mut self, event: &Event) -> Output
        ensures steps { Steps (event_view event.now) self.old result self.new }
        // A crash may leave its stores behind it, where it might before it.
        ensures leaves { StepsLeft (event_view event.now) self.old result self.new }
        ensures refused { RefusedAs (event_view event.now) self.old result self.new }
        ensures frame { KeepsFrame self.old self.new }
    {
        match *event {
            Event::Open { session, peer } => self.open(session, peer),
            Event::Bytes { session, ref piece } => self.bytes(session, piece),
            Event::Turn { session, now } => self.turn(session, now),
            Event::Write { group, now } => self.write(group, now),
            Event::Break { session } => self.break_off(session),
            Event::Expire { shard, now } => self.expire(shard, now),
            Event::Restart => self.restart(),
        }
    }

    /// Does what a list of events asks, one after the other. What each is answered has room before
    /// the first.
    pub fn run(&mut self, events: &[Event]) -> Result<Vec<Output>, CoreError>
        ensures run { IfOk result (λ outputs. RunsTo (map event_view events.now) self.old
            (map output_view outputs.items) self.new) }
        // A crash may leave its stores behind them, where it might before the first.
        ensures leaves { IfOk result (λ outputs. RunsLeft (map event_view events.now) self.old
            (map output_view outputs.items) self.new) }
        ensures memory { IfErr result (λ error. error ≡ faults.Memory) }
        ensures unbegun { IfErr result (λ error. self.new ≡ self.old) }
    {
        let mut outputs = match Vec::with_capacity(self.alloc, events.len()) {
            Ok(outputs) => outputs,
            Err(_) => return Err(CoreError::Memory),
        };
        for event in events {
            let output = self.step(event);
            outputs.push_reserved(output);
        }
        Ok(outputs)
    }

    /// A session opens. Its greeting has room first.
    fn open(&mut self, number: u64, peer: usize) -> Output
        ensures steps { StepsAs (run.Open number peer) self.old result self.new }
        ensures refused { RefusesRightly (run.Open number peer) self.old result self.new }
        ensures frame { KeepsFrame self.old self.new }
    {
        if is_taken(self.newest, number) {
            return Output::Refused(CoreError::SessionTaken);
        }
        if peer >= self.config.relay.peers.len() {
            return Output::Refused(CoreError::NoPeer);
        }
        let greeting = match reply_bytes(self.alloc, &Reply::Greeting) {
            Ok(greeting) => greeting,
            Err(_) => return Output::Refused(CoreError::Memory),
        };
        let session = match Session::open(self.alloc, self.hasher, &self.config, peer) {
            Ok(session) => session,
            Err(_) => return Output::Refused(CoreError::Memory),
        };
        match self.peers.open(number, session) {
            Ok(()) => {
                self.newest = Some(number);
                Output::Sent(number, Octets::new(greeting))
            }
            Err(_) => Output::Refused(CoreError::Memory),
        }
    }

    /// Octets come to a session.
    fn bytes(&mut self, number: u64, piece: &Octets) -> Output
        ensures steps { StepsAs (run.Bytes number piece.now) self.old result self.new }
        ensures refused { RefusesRightly (run.Bytes number piece.now) self.old result self.new }
        ensures frame { KeepsFrame self.old self.new }
    {
        if !self.peers.is_reading(number) {
            return Output::Refused(CoreError::NoSession);
        }
        match self.peers.lend(number) {
            Some(mut peer) => {
                let fed = peer.session.feed(piece.as_slice());
                self.peers.give_back(number, peer);
                match fed {
                    Ok(()) => Output::Quiet,
                    Err(_) => Output::Refused(CoreError::Memory),
                }
            }
            None => Output::Refused(CoreError::NoSession),
        }
    }

    /// A session's connection is gone: it leaves. This takes no memory.
    fn break_off(&mut self, number: u64) -> Output
        ensures steps { StepsAs (run.Break number) self.old result self.new }
        ensures refused { RefusesRightly (run.Break number) self.old result self.new }
        ensures frame { KeepsFrame self.old self.new }
    {
        if !self.peers.is_reading(number) {
            return Output::Refused(CoreError::NoSession);
        }
        match self.peers.lend(number) {
            Some(mut peer) => {
                peer.session.break_off();
                self.peers.give_back(number, peer);
                Output::Ended(number, Octets::new(Vec::new(self.alloc)))
            }
            None => Output::Refused(CoreError::NoSession),
        }
    }
}

/// Whether the number isn't above that of every earlier session, of which this is the newest.
fn is_taken(newest: Option<u64>, number: u64) -> bool
    ensures { result ≡ run.is_taken newest number }
{
    match newest {
        Some(newest) => number <= newest,
        None => false,
    }
}
