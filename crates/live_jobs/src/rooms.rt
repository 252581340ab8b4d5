//! The room of a run, taken before its first thread.
ghost use Rattle.std.specs.Prelude.{◌≡◌, ◌≤◌, length, vec_len, vec_capacity, IfOk};

use crate::gather::Seats;
use crate::outcome::Outcome;
use crate::placed::SeatPlace;
use crate::run_premises::RunPremises;
use crate::start::{Accounts, EndFinished, Leaver, Plan, WriterFinished};
use crate::writer::WriterSeat;
use job_queue::InTurn;
use std::alloc::{AllocError, Global};
use std::sync::atomic::AtomicBool;
use std::sync::ledger::Ledger;
use std::thread::PromisedHandle;

/// Room for the handles and the seats of these writers and ends.
pub(crate) fn no_rooms<'s, L: Ledger, O: Outcome + Drop, V: Accounts + Drop>(
    plans: &Vec<Plan<V>>,
    ready: &Vec<WriterSeat<L, O>>,
) -> Result<
    (
        Vec<PromisedHandle<WriterSeat<L, O>, WriterFinished<'s>>>,
        Vec<PromisedHandle<Leaver<V>, EndFinished<'s, V>>>,
        Seats<L, O, V>,
    ),
    AllocError,
>
    ensures none { IfOk result (λ rooms. (length rooms.0.items ≡ 0)
        × (length rooms.1.items ≡ 0) × (length rooms.2.lefts.items ≡ 0)
        × (length rooms.2.services.items ≡ 0) × (length rooms.2.writers.items ≡ 0)) }
    ensures room { IfOk result (λ rooms. (vec_len ready.now ≤ vec_capacity rooms.0)
        × (vec_len plans.now ≤ vec_capacity rooms.1)
        × (vec_len plans.now ≤ vec_capacity rooms.2.lefts)
        × (vec_len plans.now ≤ vec_capacity rooms.2.services)
        × (vec_len ready.now ≤ vec_capacity rooms.2.writers)) }
{
    let alloc = *plans.allocator();
    let (running, writers) = two_rooms(alloc, ready.len())?;
    let (lefts, services) = two_rooms(alloc, plans.len())?;
    let serving = Vec::with_capacity(alloc, plans.len())?;
    let seats = Seats {
        lefts,
        services,
        writers,
    };
    Ok((running, serving, seats))
}

/// Room for so many of one kind and as many of another.
fn two_rooms<A: Drop, B: Drop>(alloc: Global, many: usize) -> Result<(Vec<A>, Vec<B>), AllocError>
    ensures none { IfOk result (λ rooms. (length rooms.0.items ≡ 0)
        × (length rooms.1.items ≡ 0)) }
    ensures room { IfOk result (λ rooms. (many ≤ vec_capacity rooms.0)
        × (many ≤ vec_capacity rooms.1)) }
{
    let one = Vec::with_capacity(alloc, many)?;
    let other = Vec::with_capacity(alloc, many)?;
    Ok((one, other))
}

/// A flag for each end.
pub(crate) fn flags(alloc: Global, ends: usize) -> Result<Vec<AtomicBool>, AllocError>
    ensures { IfOk result (λ v. length v.items ≡ ends) }
{
    let mut all = Vec::with_capacity(alloc, ends)?;
    for _end in 0..ends {
        all.push_reserved(AtomicBool::new(false));
    }
    Ok(all)
}

/// A place for the seat of each group's writer, in which none lies.
pub(crate) fn places<L: Ledger, O: Outcome + Drop, K: RunPremises>(
    alloc: Global,
    groups: usize,
) -> Result<Vec<SeatPlace<L, O, K>>, AllocError>
    ensures { IfOk result (λ v. length v.items ≡ groups) }
{
    let mut all = Vec::with_capacity(alloc, groups)?;
    for _group in 0..groups {
        all.push_reserved(InTurn::new(None));
    }
    Ok(all)
}
