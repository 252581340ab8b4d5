//! The step of what is shared that a Turn takes: one call of one part.
ghost use Rattle.std.specs.Prelude.{◌≡◌};
ghost use Rattle.relay_core.specs.Sharing.{queue_answer};

use crate::peers::Peer;
use crate::system::System;
use cyc_block::BlockStore;
use feed_queue::Taken;
use peer_session::{Answer, Step};
use std::alloc::AllocError;

impl<S: BlockStore> System<S> {
    ghost use Rattle.std.specs.Prelude.{◌≡◌, ◌≢◌, ℕ};
    ghost use Rattle.cyc_token.specs.declared.Token.{Token};
    ghost use Rattle.peer_session.specs.declared.steps.Answer.TheVariants as answers;
    ghost use Rattle.peer_session.specs.declared.steps.Step.TheVariants as steps;
    ghost use Rattle.relay_core.specs.Sharing.{KeepsFrame, LeavesAll, SharesStep, WantsMemory};

    /// Does the step that a session planned, but for a read, which lends what it found
    /// (`take_read`). The session's peer is taken out.
    pub(crate) fn share<'a>(
        &mut self,
        peer: &mut Peer,
        number: u64,
        step: &Step,
        now: u64,
    ) -> Answer<'a>
        requires { (token : Token) (k : ℕ) → step.now ≢ steps.Read token k }
        ensures shared { SharesStep number now step.now self.old peer.old result self.new peer.new }
        ensures memory { result ≡ answers.Memory
            → LeavesAll number self.old peer.old self.new peer.new }
        ensures wants { result ≡ answers.Memory → WantsMemory step.now }
        ensures frame { KeepsFrame self.old self.new }
        ensures peers { self.new.peers ≡ self.old.peers }
    {
        let lasting = self.config.relay.offers;
        match step {
            Step::Nothing => Answer::Nothing,
            Step::Offer(id) => match self.shards.offer(id, number, now, lasting) {
                Ok(answer) => Answer::Offer(answer),
                Err(_) => Answer::Memory,
            },
            Step::Look(id) => Answer::Look(self.shards.look(id)),
            Step::Read(_, _) => unreachable!(),
            Step::TakeQueue(feed, most) => queue_answer(self.desk.take(self.alloc, *feed, *most)),
            Step::Refuse(id, _) => match self.shards.refuse(id, number, now, lasting) {
                Ok(()) => Answer::Nothing,
                Err(_) => Answer::Memory,
            },
            Step::Take(id) => match self.shards.take(id, number) {
                Ok(answer) => Answer::Take(answer),
                Err(_) => Answer::Memory,
            },
            Step::Push(group) => self.push(peer, usize::from(*group)),
            Step::Slot => Answer::Slot(peer.slot.take()),
            Step::Release(id) => {
                self.shards.release(id, number);
                Answer::Nothing
            }
        }
    }

    /// The job in a session's hand joins the queue of its group, if that has room.
    fn push<'a>(&mut self, peer: &mut Peer, group: usize) -> Answer<'a>
        ensures shared { (number : ℕ) (now : ℕ)
            → SharesStep number now (steps.Push group) self.old peer.old result self.new peer.new }
        ensures memory { (number : ℕ) → result ≡ answers.Memory
            → LeavesAll number self.old peer.old self.new peer.new }
        ensures never { result ≡ answers.Memory → ⊥ }
        ensures frame { KeepsFrame self.old self.new }
        ensures peers { self.new.peers ≡ self.old.peers }
    {
        if group >= self.group_writers.len() {
            return Answer::Pushed(false);
        }
        if self.group_writers[group].queue.is_full() {
            return Answer::Pushed(false);
        }
        match peer.session.hand_over() {
            Some(job) => {
                self.group_writers[group].queue.push(job);
                Answer::Pushed(true)
            }
            None => Answer::Pushed(false),
        }
    }
}

/// What a session is answered where tokens were taken of a ring. A feed that isn't there has none.
fn queue_answer<'a>(taken: Result<Option<Taken>, AllocError>) -> Answer<'a>
    ensures { result ≡ queue_answer taken }
{
    match taken {
        Ok(Some(taken)) => Answer::Queue(taken),
        Ok(None) => Answer::Nothing,
        Err(_) => Answer::Memory,
    }
}
