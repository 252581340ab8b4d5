//! Room for a reply, which is taken before it is known what the reply says.
ghost use Rattle.std.specs.Prelude.{◌≡◌, ◌+◌, ◌*◌, ◌≤◌, length, map, vec_capacity, IfOk};
ghost use Rattle.news_terms.specs.Reply.{QueueFollows, reply_text};
ghost use Rattle.nntp_text.specs.Reply.{item_view, reply_room, reply_view, room_of};
ghost use Rattle.peer_session.specs.Said.{IsReply};

use cyc_token::Token;
use nntp_text::{ITEM_ROOM, REPLY_ROOM, Reply, put_reply};
use std::alloc::{AllocError, Global};
use std::marker::Model;

/// Room for a reply that shows nothing of an article, and for so many items of a queue. A contract
/// sees how many, and not the octets.
#[derive(Drop)]
pub(crate) struct Room {
    octets: Vec<u8>,
    items: usize,
}

impl Model for Room {
    ghost use Rattle.std.specs.Prelude.{ℕ};
    ghost use Rattle.peer_session.specs.Room.{IsRoom};

    ghost Value = { ℕ };

    ghost view = { λ room. room.items };

    ghost invariant = { λ room. IsRoom room.octets room.items };
}

impl Room {
    /// Room for a reply that shows no article, and so many items of a queue.
    pub(crate) fn for_items(alloc: Global, items: u16) -> Result<Room, AllocError>
        ensures { IfOk result (λ room. room ≡ items) }
    {
        let items = usize::from(items);
        let octets = Vec::with_capacity(alloc, REPLY_ROOM + items * ITEM_ROOM)?;
        Ok(Room { octets, items })
    }

    /// The octets of a reply that shows no article and no queue.
    pub(crate) fn say(self, reply: Reply<'_>) -> Vec<u8>
        requires { room_of reply ≡ reply_room }
        ensures octets { IsReply result.items (reply_view reply.entry) }
        ensures room { vec_capacity result ≡ reply_room + 53 * self }
    {
        let mut octets = self.octets;
        put_reply(&mut octets, &reply);
        octets
    }

    /// The octets of a reply that shows what was taken of a queue: the items that there is room
    /// for.
    pub(crate) fn say_queue(self, missed: u64, items: &[(u64, Token)]) -> Vec<u8>
        ensures { length items.now ≤ self
            → IsReply result.items (QueueFollows missed (map item_view items.now)) }
    {
        let mut octets = self.octets;
        let shown = &items[..items.len().min(self.items)];
        put_reply(&mut octets, &Reply::QueueFollows(missed, shown));
        octets
    }
}
