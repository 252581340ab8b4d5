//! While a relay is paused it takes no new articles (docs/PROTOCOL.md, `pause` and `go`).
ghost use Rattle.std.specs.Prelude.{◌≡◌, ◌≢◌, true, IfOk, IsOk, OnErr, OnOk};
ghost use Rattle.id_history.specs.Answers.{offer_view};
ghost use Rattle.id_history.specs.Changes.{ChangesClaim, KeepsClaims, OfClaim};
ghost use Rattle.id_history.specs.Shard.{Keeps};
ghost use Rattle.post_history.specs.Shards.{shard_in};
ghost use Rattle.relay_live.specs.Pausing.{after_while, answer_while, put_off};
ghost use Rattle.relay_model.specs.Claims.{Unknown, Wanted, offer_answer, standing};

use id_history::{Offer, Shard};
use nntp_text::MsgId;
use post_history::{Naming, RememberingShard};
use std::alloc::AllocError;
use std::sync::atomic::{AtomicBool, Ordering};

/// Whether no new articles are taken: one word that all threads share, behind no lock.
#[derive(Drop)]
pub(crate) struct Pausing {
    is_paused: AtomicBool,
}

impl Pausing {
    /// New articles are taken.
    pub(crate) fn new() -> Pausing {
        Pausing {
            is_paused: AtomicBool::new(false),
        }
    }

    /// From now on it is so. Whether it was otherwise before.
    pub(crate) fn set(&self, paused: bool) -> bool {
        self.is_paused.swap(paused, Ordering::SeqCst) != paused
    }

    /// Whether no new articles are taken.
    pub(crate) fn is_paused(&self) -> bool {
        self.is_paused.load(Ordering::SeqCst)
    }
}

/// The session offers the article of the id at this moment, where offers last so many seconds
/// (`Shard::offer`). While no new articles are taken nothing is claimed by that, and none is
/// wanted: it is to come later, and where the session had an open offer of the id this ends
/// (`Shard::release`).
pub(crate) fn offer(
    shard: &mut Shard,
    paused: bool,
    id: &MsgId,
    session: u64,
    now: u64,
    lasting: Option<u64>,
) -> Result<Offer, AllocError>
    ensures answer { IfOk result (λ answer. OfClaim (Keeps shard.old) id.now
        (λ claim. offer_view answer
        ≡ answer_while paused (offer_answer session (standing lasting now claim)))) }
    ensures claims { OnOk result (ChangesClaim (Keeps shard.old) (Keeps shard.new) id.now
        (λ claim. after_while paused session now (standing lasting now claim))) }
    ensures unwanted { paused ≡ true → IfOk result (λ answer. offer_view answer ≢ Wanted) }
    ensures err { OnErr result (KeepsClaims (Keeps shard.old) (Keeps shard.new)) }

    // An id that is known takes no memory.
    ensures known { OfClaim (Keeps shard.old) id.now (λ claim. claim ≢ Unknown → IsOk result) }
{
    let offer = shard.offer(id, session, now, lasting)?;
    if paused {
        shard.release(id, session);
        return Ok(put_off(offer));
    }
    Ok(offer)
}

/// The same of a shard that remembers its posts.
pub(crate) fn offer_remembering<J: Naming>(
    remembering: &mut RememberingShard<J>,
    paused: bool,
    id: &MsgId,
    session: u64,
    now: u64,
    lasting: Option<u64>,
) -> Result<Offer, AllocError>
    ensures answer { IfOk result (λ answer. OfClaim (Keeps (shard_in remembering.old)) id.now
        (λ claim. offer_view answer
        ≡ answer_while paused (offer_answer session (standing lasting now claim)))) }
    ensures claims { OnOk result (ChangesClaim (Keeps (shard_in remembering.old))
        (Keeps (shard_in remembering.new)) id.now
        (λ claim. after_while paused session now (standing lasting now claim))) }
    ensures unwanted { paused ≡ true → IfOk result (λ answer. offer_view answer ≢ Wanted) }
    ensures err { OnErr result (KeepsClaims (Keeps (shard_in remembering.old))
        (Keeps (shard_in remembering.new))) }

    // An id that is known takes no memory.
    ensures known { OfClaim (Keeps (shard_in remembering.old)) id.now
        (λ claim. claim ≢ Unknown → IsOk result) }
{
    let RememberingShard {
        shard,
        posts: _posts,
    } = remembering;
    offer(shard, paused, id, session, now, lasting)
}

/// What an offer is answered while no new articles are taken, whose answer would be this.
fn put_off(offer: Offer) -> Offer
    ensures answer { offer_view result ≡ put_off (offer_view offer) }
    ensures unwanted { offer_view result ≢ Wanted }
{
    match offer {
        Offer::Wanted | Offer::Later => Offer::Later,
        Offer::Seen => Offer::Seen,
    }
}
