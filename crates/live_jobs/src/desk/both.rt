//! The step that settles an article: the one caller of a desk's `post`, which no other file can
//! name.
ghost use Rattle.std.specs.Prelude.{◌≡◌, ◌+◌, ◌^◌, ◌<◌, ◌≤◌, ◌⊎◌, ℕ, List, true, false};
ghost use Rattle.std.specs.Prelude.{None, IfSome};
ghost use Rattle.cyc_token.specs.Token.{token_view};
ghost use Rattle.feed_queue.specs.Feeds.{KeepsFeeds};
ghost use Rattle.id_history.specs.Changes.{OfClaim, ChangesClaim, KeepsClaims};
ghost use Rattle.id_history.specs.Shard.{Keeps};
ghost use Rattle.live_jobs.specs.Desks.{before_of, desk_of, posts_of};
ghost use Rattle.live_jobs.specs.Posted.{IsPostOf};
ghost use Rattle.relay_model.specs.Claims.{is_storing_for, after_settle};
ghost use Rattle.relay_model.specs.State.{Feed};
ghost use Rattle.relay_model.specs.Writers.{gaining};

use crate::desk::CountedDesk;
use cyc_token::Token;
use id_history::Shard;
use nntp_text::MsgId;
use std::mem::size_of;
use std::snapshot::Snapshot;
use std::sync::ledger::{Ledger, Share};

/// An article that is stored, and that the history and the feeds are to have from now on.
#[derive(Clone, Copy)]
pub struct Unsettled<'a> {
    /// Its message-id.
    pub id: &'a MsgId,
    /// The number of the session for which it is being stored.
    pub session: u64,
    /// The token under which its text is stored.
    pub token: Token,
    /// The numbers of the feeds that gain the token.
    pub permitted: &'a Vec<u16>,
    /// When it is stored, in seconds since 1970-01-01 00:00:00 UTC.
    pub moment: u64,
}

/// That an article was settled and posted, once: under which message-id, for which session, under
/// which token, and to which feeds it is permitted. `settle_both` alone makes one, for each step
/// that it makes, and nothing copies one. Its parts are for contracts alone: it takes no memory.
pub struct Posted {
    id: Snapshot<MsgId>,
    session: Snapshot<u64>,
    token: Snapshot<Token>,
    permitted: Snapshot<Vec<u16>>,
}

// Written out, so that no crate above proves anew how each part is let go.
impl Drop for Posted {
    fn drop(self) {
        let Posted {
            id: _,
            session: _,
            token: _,
            permitted: _,
        } = self;
    }
}

// What its comment says of its memory.
const _: () = prove!(size_of::<Posted>() == 0);

impl Posted {
    /// Of these. Only this file can call it.
    fn of(id: &MsgId, session: u64, token: Token, permitted: &Vec<u16>) -> Posted
        ensures { IsPostOf id.now session token permitted.now.items result }
    {
        Posted {
            id: Snapshot::of(id),
            session: Snapshot::of(&session),
            token: Snapshot::of(&token),
            permitted: Snapshot::of(permitted),
        }
    }
}

/// The article that is stored under a token is the history's and the feeds' from now on: its
/// message-id, which is being stored for the session, is Stored at its moment, and each permitted
/// feed gains the token. The caller holds both values. `None`, with nothing changed, exactly where
/// the id isn't being stored for the session, or the desk's posts, with what a feed had gained
/// before, are 2^62. Takes no memory.
pub fn settle_both<L: Ledger>(
    shard: &mut Shard,
    desk: &mut CountedDesk<L>,
    share: &mut Share<L>,
    article: &Unsettled<'_>,
) -> Option<Posted>
    requires { 0 < share.old.parts }
    ensures storing { IfSome result (λ posted.
        OfClaim (Keeps shard.old) article.now.id.now
        (λ claim. is_storing_for article.now.session claim ≡ true)) }
    ensures settled { IfSome result (λ posted. ChangesClaim (Keeps shard.old) (Keeps shard.new)
        article.now.id.now (after_settle article.now.session (token_view article.now.token)
        article.now.moment)) }
    ensures gained { IfSome result (λ posted. (sizes : List ℕ) (feeds : ℕ → Feed)
        → KeepsFeeds (desk_of desk.old) sizes feeds
        → KeepsFeeds (desk_of desk.new) sizes
        (gaining feeds article.now.permitted.now.items (token_view article.now.token))) }
    ensures posted { IfSome result (IsPostOf article.now.id.now article.now.session
        article.now.token article.now.permitted.now.items) }
    ensures counted { IfSome result (λ posted. (share.new.amount ≡ share.old.amount + 1)
        × (posts_of desk.new ≡ posts_of desk.old + 1)) }
    ensures before { before_of desk.new ≡ before_of desk.old }
    ensures why { result ≡ None → (2 ^ 62 ≤ before_of desk.old + posts_of desk.old)
        ⊎ OfClaim (Keeps shard.old) article.now.id.now
        (λ claim. is_storing_for article.now.session claim ≡ false) }
    ensures same { result ≡ None → KeepsClaims (Keeps shard.old) (Keeps shard.new)
        × (desk.new ≡ desk.old) × (share.new.amount ≡ share.old.amount) }
    ensures parts { share.new.parts ≡ share.old.parts }
{
    if desk.is_full() {
        return None;
    }
    let Unsettled {
        id,
        session,
        token,
        permitted,
        moment,
    } = *article;
    match shard.settle(id, session, token, moment) {
        Some(settled) => {
            desk.post(share, permitted, settled);
            Some(Posted::of(id, session, token, permitted))
        }
        None => None,
    }
}
