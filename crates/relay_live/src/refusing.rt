//! Refuses an article, and tells whether its id was marked; or gives one up.
ghost use Rattle.std.specs.Prelude.{◌≡◌, IfOk, OnErr, OnOk};
ghost use Rattle.id_history.specs.Answers.{offer_view};
ghost use Rattle.id_history.specs.Changes.{ChangesClaim, KeepsClaims, OfClaim};
ghost use Rattle.id_history.specs.Shard.{Keeps};
ghost use Rattle.relay_live.specs.Journaling.{is_marked_by, is_wanted};
ghost use Rattle.live_jobs.specs.Forgotten.{IsForgotten};
ghost use Rattle.post_history.specs.Shards.{shard_in};
ghost use Rattle.relay_model.specs.Claims.{after_forget, after_refuse, standing};

use id_history::{Offer, Shard};
use live_jobs::Forgotten;
use nntp_text::MsgId;
use post_history::{Naming, RememberingShard};
use std::alloc::AllocError;

/// The session's article of the id is refused at this moment, where offers last so many seconds
/// (`Shard::refuse`). Whether that is what is known of the id from now on: not where it was stored
/// or refused before, nor where another session has to do with it.
pub(crate) fn refuse(
    shard: &mut Shard,
    id: &MsgId,
    session: u64,
    now: u64,
    lasting: Option<u64>,
) -> Result<bool, AllocError>
    ensures marked { IfOk result (λ marked. OfClaim (Keeps shard.old) id.now
        (λ claim. marked ≡ is_marked_by session (standing lasting now claim))) }
    ensures claims { OnOk result (ChangesClaim (Keeps shard.old) (Keeps shard.new) id.now
        (λ claim. after_refuse session now (standing lasting now claim))) }
    ensures err { OnErr result (KeepsClaims (Keeps shard.old) (Keeps shard.new)) }
{
    let offer = shard.offer(id, session, now, lasting)?;
    shard.refuse(id, session, now, lasting)?;
    Ok(is_wanted(offer))
}

/// Whether the session whose offer is answered so is to send the article.
fn is_wanted(offer: Offer) -> bool
    ensures { result ≡ is_wanted (offer_view offer) }
{
    match offer {
        Offer::Wanted => true,
        Offer::Later | Offer::Seen => false,
    }
}

/// The same of a shard that remembers its posts.
pub(crate) fn refuse_remembering<J: Naming>(
    remembering: &mut RememberingShard<J>,
    id: &MsgId,
    session: u64,
    now: u64,
    lasting: Option<u64>,
) -> Result<bool, AllocError>
    ensures marked { IfOk result (λ marked. OfClaim (Keeps (shard_in remembering.old)) id.now
        (λ claim. marked ≡ is_marked_by session (standing lasting now claim))) }
    ensures claims { OnOk result (ChangesClaim (Keeps (shard_in remembering.old))
        (Keeps (shard_in remembering.new)) id.now
        (λ claim. after_refuse session now (standing lasting now claim))) }
    ensures err { OnErr result (KeepsClaims (Keeps (shard_in remembering.old))
        (Keeps (shard_in remembering.new))) }
{
    let RememberingShard {
        shard,
        posts: _posts,
    } = remembering;
    refuse(shard, id, session, now, lasting)
}

/// An article is given up in a shard that remembers its posts (`live_jobs::forget`).
pub(crate) fn forget_remembering<J: Naming>(
    remembering: &mut RememberingShard<J>,
    id: &MsgId,
    session: u64,
) -> Forgotten
    ensures claims { ChangesClaim (Keeps (shard_in remembering.old))
        (Keeps (shard_in remembering.new)) id.now (after_forget session) }
    ensures forgotten { IsForgotten id.now session result }
{
    let RememberingShard {
        shard,
        posts: _posts,
    } = remembering;
    live_jobs::forget(shard, id, session)
}
