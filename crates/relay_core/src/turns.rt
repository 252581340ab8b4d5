//! A Turn: a session plans, its step is done, and it hears the answer.
ghost use Rattle.std.specs.Prelude.{◌≡◌, ◌≤◌, option_map};
ghost use Rattle.article_verdict.specs.Verdict.{reason_view};
ghost use Rattle.peer_session.specs.Session.{session_view};
ghost use Rattle.relay_core.specs.Turns.{HearsMemory, HeardAs, PutsBack};
ghost use Rattle.relay_model.specs.Run.{is_running};
ghost use Rattle.relay_model.specs.World as world;
ghost use Rattle.relay_core.specs.Peers.{HasPlace};
ghost use Rattle.relay_core.specs.Views.{output_view};
ghost use Rattle.relay_model.specs.Terms.{last_moment};

use crate::event::{CoreError, Output};
use crate::peers::{Peer, Peers};
use crate::reading::read_chunk;
use crate::system::System;
use article_verdict::Reason;
use cyc_block::{BlockStore, CHUNK_OCTETS};
use cyc_token::Token;
use id_history::LAST_MOMENT;
use line_words::Octets;
use peer_session::{Answer, Session, Step};

impl<S: BlockStore> System<S> {
    ghost use Rattle.std.specs.Prelude.{◌≡◌, ◌≤◌, ℕ};
    ghost use Rattle.peer_session.specs.declared.steps.Step.TheVariants as steps;
    ghost use Rattle.relay_model.specs.Run as run;
    ghost use Rattle.relay_model.specs.Terms.{last_moment};
    ghost use Rattle.relay_core.specs.Refusals.{RefusesRightly};
    ghost use Rattle.relay_core.specs.Sharing.{KeepsFrame};
    ghost use Rattle.relay_core.specs.Steps.{StepsAs};
    ghost use Rattle.relay_core.specs.Turns.{IsMemoryAlone, Serves, StandsStill, StepTaken};
    ghost use Rattle.relay_core.specs.declared.event.CoreError.TheVariants as faults;
    ghost use Rattle.relay_core.specs.declared.event.Output.TheVariants as outputs;

    /// The next bit of a session's work.
    pub(crate) fn turn(&mut self, number: u64, now: u64) -> Output
        ensures steps { StepsAs (run.Turn number now) self.old result self.new }
        ensures refused { RefusesRightly (run.Turn number now) self.old result self.new }
        ensures frame { KeepsFrame self.old self.new }
    {
        if !self.peers.is_running(number) {
            return Output::Refused(CoreError::NoSession);
        }
        if now > LAST_MOMENT {
            return Output::Refused(CoreError::BadMoment);
        }
        match self.peers.lend(number) {
            Some(mut peer) => {
                let output = self.serve(&mut peer, number, now);
                take_back(&mut self.peers, number, peer);
                output
            }
            None => Output::Refused(CoreError::NoSession),
        }
    }

    /// What is due in a Turn is done, with the session's peer taken out.
    fn serve(&mut self, peer: &mut Peer, number: u64, now: u64) -> Output
        requires { now ≤ last_moment }
        ensures served { Serves number now self.old peer.old result self.new peer.new }
        ensures memory { result ≡ outputs.Refused faults.Memory
            → StandsStill number self.old peer.old self.new peer.new }
        ensures only { IsMemoryAlone result }
        ensures frame { KeepsFrame self.old self.new }
        ensures peers { self.new.peers ≡ self.old.peers }
    {
        match peer.session.plan(&self.config, now) {
            Ok(step) => self.take_step(peer, number, step, now),
            Err(_) => Output::Refused(CoreError::Memory),
        }
    }

    /// The step that a session planned is done, and it hears the answer.
    fn take_step(&mut self, peer: &mut Peer, number: u64, step: Step, now: u64) -> Output
        ensures { StepTaken number now step self.old peer.old result self.new peer.new }
    {
        match step {
            Step::Read(token, k) => {
                drop(step);
                self.take_read(peer, number, token, k)
            }
            _ => {
                let why = step.reason();
                let answer = self.share(peer, number, &step, now);
                drop(step);
                hear(&mut peer.session, number, answer, why)
            }
        }
    }

    /// The same of a step that reads a block. Room for the block's octets is made here and in no
    /// other turn.
    fn take_read(&mut self, peer: &mut Peer, number: u64, token: Token, k: u32) -> Output
        ensures { (now : ℕ) → StepTaken number now (steps.Read token k) self.old peer.old result
            self.new peer.new }
    {
        let mut room = [0; CHUNK_OCTETS];
        let chunk = read_chunk(&mut self.buffer_set, &token, k, &mut room);
        hear(&mut peer.session, number, Answer::Chunk(chunk), None)
    }
}

/// The peer is put back in its place. One that is closed is let go, with its place.
fn take_back(peers: &mut Peers, number: u64, peer: Peer)
    ensures { HasPlace peers.old number → PutsBack
        (is_running (session_view peer.session).phase) number peer peers.old peers.new }
{
    if peer.session.is_running() {
        peers.give_back(number, peer);
    } else {
        drop(peer);
        peers.close(number);
    }
}

/// A session hears the answer to what it planned: that an article was refused for this reason,
/// where there is one.
fn hear(session: &mut Session, number: u64, answer: Answer<'_>, why: Option<Reason>) -> Output
    ensures heard { HeardAs number (option_map reason_view why) session.old answer.entry result
        session.new }
    ensures memory { HearsMemory session.old answer.entry result session.new }
{
    if let Answer::Memory = answer {
        session.absorb(number, Answer::Memory);
        return Output::Refused(CoreError::Memory);
    }
    let said = session.absorb(number, answer);
    if said.is_empty() {
        Output::Quiet
    } else if session.has_parted() {
        Output::Ended(number, Octets::new(said))
    } else {
        spoken(number, Octets::new(said), why)
    }
}

/// These octets go to a session that doesn't leave.
fn spoken(number: u64, octets: Octets, why: Option<Reason>) -> Output
    ensures { output_view result ≡ world.spoken number octets (option_map reason_view why) }
{
    match why {
        Some(reason) => Output::Rejected(number, octets, reason),
        None => Output::Sent(number, octets),
    }
}
