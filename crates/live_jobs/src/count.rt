//! The posts are counted, once all seats have come back.
ghost use Rattle.std.specs.Prelude.{◌≡◌, ◌+◌, ◌<◌, ◌≤◌, ℕ, false, Some};
ghost use Rattle.std.specs.Prelude.{slice_get, length, map};
ghost use Rattle.live_jobs.specs.Desks.{desk_of, posts_in, posts_of};
ghost use Rattle.live_jobs.specs.Gathered.{kept_by_all};

use crate::desk::CountedDesk;
use crate::gather::Totals;
use crate::outcome::Outcome;
use crate::writer::WriterSeat;
use std::sync::ledger::{Ledger, Share};

/// Each seat lends its share to the one that counts.
fn lend_all<L: Ledger, O: Outcome>(writers: &mut Vec<WriterSeat<L, O>>, all: &mut Share<L>)
    requires none { (all.old.parts ≡ 0) × (all.old.amount ≡ 0) }
    requires here { (g : ℕ) (w : _) → slice_get writers.old.items g ≡ Some w → w.lent ≡ false }
    ensures parts { all.new.parts ≡ length writers.old.items }
    ensures amount { all.new.amount
        ≡ kept_by_all O.kept (map (λ w. w.finished.items) writers.old.items) }
    ensures finished { map (λ w. w.finished.items) writers.new.items
        ≡ map (λ w. w.finished.items) writers.old.items }
    ensures pass { map (λ w. w.pass) writers.new.items ≡ map (λ w. w.pass) writers.old.items }
    ensures closed { map (λ w. w.closed.items) writers.new.items
        ≡ map (λ w. w.closed.items) writers.old.items }
{
    for group in 0..writers.len() {
        writers[group].lend(all);
    }
}

/// How many jobs all writers kept, which are at most so many.
fn sum_kept<L: Ledger, O: Outcome>(writers: &[WriterSeat<L, O>], most: u64) -> u64
    requires { kept_by_all O.kept (map (λ w. w.finished.items) writers.now) ≤ most }
    ensures { result ≡ kept_by_all O.kept (map (λ w. w.finished.items) writers.now) }
{
    let _ = most;
    let mut accepted = 0u64;
    for group in 0..writers.len() {
        accepted += writers[group].kept;
    }
    accepted
}

/// How many jobs all writers kept, and the posts that the desk made.
pub(crate) fn count_all<L: Ledger, O: Outcome>(
    desk: &mut CountedDesk<L>,
    writers: &mut Vec<WriterSeat<L, O>>,
) -> Totals
    requires parts { (length writers.old.items ≡ L.parts) × (0 < length writers.old.items) }
    requires here { (g : ℕ) (w : _) → slice_get writers.old.items g ≡ Some w → w.lent ≡ false }
    ensures accepted { result.accepted
        ≡ kept_by_all O.kept (map (λ w. w.finished.items) writers.old.items) }
    ensures posted { posts_in result.posted ≡ result.accepted }
    ensures made { posts_in result.posted ≡ posts_of desk.old }
    ensures same { posts_of desk.new ≡ posts_of desk.old }
    ensures rings { desk_of desk.new ≡ desk_of desk.old }
    ensures finished { map (λ w. w.finished.items) writers.new.items
        ≡ map (λ w. w.finished.items) writers.old.items }
    ensures pass { map (λ w. w.pass) writers.new.items ≡ map (λ w. w.pass) writers.old.items }
    ensures closed { map (λ w. w.closed.items) writers.new.items
        ≡ map (λ w. w.closed.items) writers.old.items }
{
    let mut all = writers[0].no_share();
    lend_all(writers, &mut all);
    let posted = desk.posted(&mut all);
    Totals {
        accepted: sum_kept(writers, posted.count()),
        posted,
    }
}
