//! What an audit of the posts says.
ghost use Rattle.std.specs.Prelude.{◌≡◌, IfSome, length, map};
ghost use Rattle.std.proofs.Props.{props};
ghost use Rattle.id_history.specs.Expiry.{passed_view};
ghost use Rattle.live_jobs.specs.Desks.{posts_in};
ghost use Rattle.post_history.specs.Remembering.{AreInOrder, ArePostedOnce};

use cyc_buffer::Front;
use live_jobs::Totals;
use post_history::{AllPosts, Naming, PostHistory};

/// The history of all posts, on which the desk and the shards agree, and fronts of the buffers
/// where ids are forgotten, in the order of these: two of the posts are of one message-id, or one
/// is of an id that the relay had stored when it began, only where the earlier one's token is
/// passed by a front.
#[derive(Drop)]
pub struct PostedOnce<J: Naming> {
    pub history: PostHistory<J>,
    pub fronts: Vec<Front>,
    pub ghost once: { ∥ ArePostedOnce (map passed_view fronts.items) J.began history ∥₁ },
    pub ghost in_order: { AreInOrder fronts.items },
}

/// Whether the desk and the shards agree on the history of posts.
#[derive(Drop)]
pub enum Audit<J: Naming> {
    /// They do.
    Once(PostedOnce<J>),
    /// They don't, which only a fault of the program brings about.
    Differs,
}

/// What the desk is closed with: the totals of the writers, and all posts that it made, where it
/// has lost none.
#[derive(Drop)]
pub(crate) struct Closed<J: Naming> {
    pub(crate) totals: Totals,
    pub(crate) posts: Option<AllPosts<J>>,
    ghost as_many: { IfSome posts (λ all. length all.history ≡ posts_in totals.posted) } by { Prim.hlevel props },
}

impl<J: Naming> Audit<J> {
    ghost use Rattle.std.specs.Prelude.{◌↔◌, IsTrue, None};
    ghost use Rattle.relay_live.specs.Audits.{history_of};

    /// Whether they don't.
    pub fn differs(&self) -> bool
        ensures { IsTrue result ↔ (history_of self.now ≡ None) }
    {
        match self {
            Audit::Once(_) => false,
            Audit::Differs => true,
        }
    }
}
