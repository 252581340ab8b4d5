//! The channels and the seats of a run are made.
ghost use Rattle.std.specs.Prelude.{◌≡◌, ◌+◌, ◌<◌, ◌^◌, ◌++◌, [], ◌∷◌, ℕ, true, false, Some};
ghost use Rattle.std.specs.Prelude.{length, map, replicate, slice_get, vec_capacity, vec_len, IfOk};
ghost use Rattle.crossbeam_queue.specs.Passes.{view, IsPassOf};
ghost use Rattle.job_queue.specs.Delivery.{writer_knows};
ghost use Rattle.live_jobs.specs.JobChannels.{queue_of};
ghost use Rattle.live_jobs.specs.Rows.{From};
ghost use Rattle.live_jobs.specs.Gathered.{IsRest, RestsFit};
ghost use Rattle.live_jobs.specs.Started.{AllReady, AreOpened, Fresh, IsUnused};

use crate::channel::JobChannel;
use crate::finished::FinishedList;
use crate::outcome::Outcome;
use crate::session::SessionSeat;
use crate::start::Plan;
use crate::writer::WriterSeat;
use job_queue::QueuePass;
use std::alloc::{AllocError, Global};
use std::sync::ledger::{Ledger, Share};

/// An end for each service, with no channel yet.
fn new_plans<V: Drop>(alloc: Global, services: Vec<V>) -> Result<Vec<Plan<V>>, AllocError>
    ensures ends { IfOk result (λ plans. length plans.items ≡ length services.items) }
    ensures fresh { IfOk result (λ plans. From (λ e p. Fresh e p.seat) 0 plans.items) }
    ensures services { IfOk result (λ plans. map (λ p. p.service) plans.items ≡ services.items) }
{
    let mut plans = Vec::with_capacity(alloc, services.len())?;
    for service in services {
        let seat = SessionSeat {
            end: plans.len() as u64,
            handed: 0,
            passes: Vec::new(alloc),
        };
        plans.push_reserved(Plan { seat, service });
    }
    Ok(plans)
}

/// A channel more. Each end gets a pass of it; the writer's pass and the first are given back.
fn add_channel<V>(
    alloc: Global,
    channels: &[JobChannel],
    plans: &mut Vec<Plan<V>>,
) -> Result<(JobChannel, QueuePass, QueuePass), AllocError>
    requires few { length plans.old.items < 2 ^ 62 }
    requires fit { From (λ e p. IsUnused channels.now e p.seat) 0 plans.old.items }
    ensures writer { IfOk result (λ r. IsPassOf (queue_of r.0) r.1 × (view r.1 ≡ writer_knows [])) }
    ensures rest { IfOk result (λ r. IsPassOf (queue_of r.0) r.2
        × IsRest (length plans.old.items) r.2) }
    ensures ends { IfOk result (λ r. length plans.new.items ≡ length plans.old.items) }
    ensures services { IfOk result (λ r. map (λ p. p.service) plans.new.items
        ≡ map (λ p. p.service) plans.old.items) }
    ensures fit { IfOk result (λ r. From (λ e p. IsUnused (channels.now ++ r.0 ∷ []) e p.seat)
        0 plans.new.items) }
{
    let (channel, mut first) = JobChannel::new(alloc)?;
    let writer = job_queue::writer_pass(&channel.queue, &mut first);
    match give_passes(channels, &channel, &mut first, plans) {
        Ok(()) => Ok((channel, writer, first)),
        Err(error) => {
            drop(channel);
            drop(writer);
            drop(first);
            Err(error)
        }
    }
}

/// Gives each end a pass of a channel that is new, cut off the first one.
fn give_passes<V>(
    channels: &[JobChannel],
    channel: &JobChannel,
    first: &mut QueuePass,
    plans: &mut Vec<Plan<V>>,
) -> Result<(), AllocError>
    requires few { length plans.old.items < 2 ^ 62 }
    requires first { IsPassOf (queue_of channel.now) first.old × IsRest 0 first.old }
    requires fit { From (λ e p. IsUnused channels.now e p.seat) 0 plans.old.items }
    ensures rest { IfOk result (λ _. IsPassOf (queue_of channel.now) first.new
        × IsRest (length plans.old.items) first.new) }
    ensures ends { IfOk result (λ _. length plans.new.items ≡ length plans.old.items) }
    ensures services { IfOk result (λ _. map (λ p. p.service) plans.new.items
        ≡ map (λ p. p.service) plans.old.items) }
    ensures fit { IfOk result (λ _. From (λ e p. IsUnused (channels.now ++ channel.now ∷ []) e
        p.seat) 0 plans.new.items) }
{
    let _ = channels;
    for end in 0..plans.len() {
        let pass = job_queue::end_pass(&channel.queue, first);
        plans[end].seat.passes.push(pass)?;
    }
    Ok(())
}

/// A writer that has taken nothing yet, with a flag for each end.
fn new_writer<L: Ledger, O: Outcome>(
    alloc: Global,
    pass: QueuePass,
    share: Share<L>,
    closed: Vec<bool>,
) -> WriterSeat<L, O>
    requires pass { view pass ≡ writer_knows [] }
    requires share { (share.parts ≡ 1) × (share.amount ≡ 0) }
    requires none { (e : ℕ) → slice_get closed.items e ≡ Some true → ⊥ }
    ensures pass { result.pass ≡ pass }
    ensures flags { (result.lent ≡ false) × (result.closed.items ≡ closed.items) }
    ensures none { result.finished.items ≡ [] }
{
    WriterSeat {
        pass,
        finished: FinishedList::new(alloc),
        closed,
        kept: 0,
        share,
        lent: false,
    }
}

/// The channels of a run, in the order of the groups, and the seats of its ends and writers.
/// `rests` are the first passes, with the ends that nobody has.
#[derive(Drop)]
pub struct Opened<L: Ledger, O: Outcome, V> {
    pub channels: Vec<JobChannel>,
    pub rests: Vec<QueuePass>,
    pub plans: Vec<Plan<V>>,
    pub writers: Vec<WriterSeat<L, O>>,
}

/// A channel and a writer for each group, and an end for each service. `all` is the share of a
/// ledger that has as many parts as there are groups: each writer gets one.
pub fn open_all<L: Ledger, O: Outcome + Drop, V: Drop>(
    alloc: Global,
    groups: usize,
    services: Vec<V>,
    all: Share<L>,
) -> Result<Opened<L, O, V>, AllocError>
    requires parts { (all.parts ≡ groups) × (all.amount ≡ 0) }
    requires few { length services.items < 2 ^ 62 }
    ensures channels { IfOk result (λ o. (length o.channels.items ≡ groups)
        × (length o.writers.items ≡ groups) × (length o.plans.items ≡ length services.items)) }
    ensures rests { IfOk result (λ o.
        RestsFit o.channels.items (length services.items) o.rests.items) }
    ensures ends { IfOk result (λ o. From (λ e p. IsUnused o.channels.items e p.seat) 0
        o.plans.items) }
    ensures services { IfOk result (λ o. map (λ p. p.service) o.plans.items ≡ services.items) }
    ensures writers { IfOk result (λ o. AllReady o.channels.items (length services.items)
        o.writers.items) }
{
    let ends = services.len();
    let mut rest = all;
    let plans = new_plans(alloc, services)?;
    let mut opened = Opened {
        channels: Vec::new(alloc),
        rests: Vec::new(alloc),
        plans,
        writers: Vec::new(alloc),
    };
    for _group in 0..groups {
        let share = rest.split_off(1, 0);
        add_group(alloc, ends, share, &mut opened)?;
    }
    Ok(opened)
}

/// A group more, of so many ends: its channel, of which each end gets a pass, its writer with this
/// share, and its first pass.
fn add_group<L: Ledger, O: Outcome + Drop, V: Drop>(
    alloc: Global,
    ends: usize,
    share: Share<L>,
    opened: &mut Opened<L, O, V>,
) -> Result<(), AllocError>
    requires few { ends < 2 ^ 62 }
    requires share { (share.parts ≡ 1) × (share.amount ≡ 0) }
    requires fit { AreOpened (length opened.old.channels.items) ends opened.old }
    ensures fit { IfOk result (λ _. AreOpened (length opened.old.channels.items + 1) ends
        opened.new) }
    ensures services { IfOk result (λ _. map (λ p. p.service) opened.new.plans.items
        ≡ map (λ p. p.service) opened.old.plans.items) }
{
    let closed = reserve_group(alloc, ends, opened)?;
    let (channel, pass, first) = add_channel(alloc, &opened.channels, &mut opened.plans)?;
    let writer = new_writer(alloc, pass, share, closed);
    opened.channels.push_reserved(channel);
    opened.rests.push_reserved(first);
    opened.writers.push_reserved(writer);
    Ok(())
}

/// Finds room for a group more, and gives a flag for each of so many ends, that its closing mark
/// wasn't taken yet.
fn reserve_group<L: Ledger, O: Outcome + Drop, V: Drop>(
    alloc: Global,
    ends: usize,
    opened: &mut Opened<L, O, V>,
) -> Result<Vec<bool>, AllocError>
    ensures same { (opened.new.channels.items ≡ opened.old.channels.items)
        × (opened.new.rests.items ≡ opened.old.rests.items)
        × (opened.new.plans.items ≡ opened.old.plans.items)
        × (opened.new.writers.items ≡ opened.old.writers.items) }
    ensures room { IfOk result (λ _.
        (vec_len opened.new.channels < vec_capacity opened.new.channels)
        × (vec_len opened.new.rests < vec_capacity opened.new.rests)
        × (vec_len opened.new.writers < vec_capacity opened.new.writers)) }
    ensures closed { IfOk result (λ closed. closed.items ≡ replicate ends false) }
{
    opened.channels.reserve(1)?;
    opened.rests.reserve(1)?;
    opened.writers.reserve(1)?;
    Vec::from_elem(alloc, false, ends)
}
