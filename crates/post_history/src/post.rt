//! A post, for contracts alone.
use cyc_token::Token;
use nntp_text::MsgId;
use std::snapshot::Snapshot;

/// An article that was settled and posted: its message-id, the session that sent it, the token
/// under which it is stored, and the numbers of the feeds that gain this. No value of it is kept.
#[derive(Drop)]
pub struct Post {
    pub id: Snapshot<MsgId>,
    pub session: u64,
    pub token: Token,
    pub permitted: Snapshot<Vec<u16>>,
}

impl Post {
    ghost use Rattle.post_history.specs.Posts.{IsPostOf};

    /// The post of these.
    pub fn of(id: &MsgId, session: u64, token: Token, permitted: &Vec<u16>) -> Post
        ensures { IsPostOf id.now session token permitted.now.items result }
    {
        Post {
            id: Snapshot::of(id),
            session,
            token,
            permitted: Snapshot::of(permitted),
        }
    }
}
