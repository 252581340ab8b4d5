//! A fetch in progress.
ghost use Rattle.std.specs.Prelude.{◌≡◌, ◌+◌, ◌<◌, ◌≤◌, ◌*◌, ◌++◌, true, max, take, false, None};
ghost use Rattle.std.specs.Prelude.{IsOk, OnOk, OnErr, vec_len, vec_capacity};
ghost use Rattle.cyc_token.specs.Token.{token_view};
ghost use Rattle.news_terms.specs.BlockImage.{chunk_size};
ghost use Rattle.news_terms.specs.Places.{size_of};
ghost use Rattle.relay_model.specs.Fetches.{Fetched};
ghost use Rattle.relay_model.specs.Hears.{turns_of};
ghost use Rattle.article_fetch.specs.Fetch.{asked_view, FoundAs, HearsBlock, new_fetch};
ghost use Rattle.article_fetch.specs.Fetch.{prepared_fetch, StaysSame};
ghost use Rattle.article_fetch.specs.Given.{HearsAny};
ghost use Rattle.article_fetch.specs.Inside.{most_due};
ghost use Rattle.article_fetch.specs.Inside as terms;
ghost use Rattle.article_fetch.specs.Malformed.{SaysFault};

use crate::asked::Asked;
use crate::chunk::Chunk;
use crate::shown::last_reply;
use cyc_token::Token;
use line_words::put_octets;
use nntp_text::REPLY_ROOM;
use std::alloc::{AllocError, Global};
use std::marker::Model;
use std::mem;
use stream_cut::stuffed_room;

/// A fetch in progress, with the octets that it has gathered. In each turn it is prepared, and then
/// hears what was read of the next block, until it answers; behind its answer it is of no use.
pub struct Reading {
    alloc: Global,
    asked: Asked,
    token: Token,
    /// The blocks that were heard.
    had: u32,
    gathered: Vec<u8>,
    /// Room for the reply, which isn't begun before the last block.
    room: Vec<u8>,
    /// Whether memory is there for whatever comes of the next block.
    prepared: bool,
}

// Written out, so that no crate above proves anew how each part is let go.
impl Drop for Reading {
    fn drop(self) {
        let Reading {
            alloc: _,
            asked: _,
            token: _,
            had: _,
            gathered: _,
            room: _,
            prepared: _,
        } = self;
    }
}

impl Model for Reading {
    ghost use Rattle.cyc_token.specs.Token.{token_view};
    ghost use Rattle.article_fetch.specs.Fetch.{asked_view, Fetch};
    ghost use Rattle.article_fetch.specs.Inside.{IsReading};

    ghost Value = { Fetch };

    ghost view = { λ r. record {
      asked = asked_view r.asked;
      token = token_view r.token;
      had = r.had;
      gathered = r.gathered.items;
      prepared = r.prepared;
    } };

    ghost invariant = { λ r.
        IsReading (asked_view r.asked) (token_view r.token) r.had r.gathered r.room r.prepared };
}

impl Reading {
    /// A fetch of which nothing is read yet. It takes no memory.
    pub fn new(alloc: Global, asked: Asked, token: Token) -> Reading
        ensures { result ≡ new_fetch (asked_view asked) (token_view token) }
    {
        Reading {
            alloc,
            asked,
            token,
            had: 0,
            gathered: Vec::new(alloc),
            room: Vec::new(alloc),
            prepared: false,
        }
    }

    /// The token whose article is read.
    pub fn token(&self) -> Token
        ensures { token_view result ≡ self.now.token }
    {
        self.token
    }

    /// How many blocks were heard: the number of the next one, counted from 0.
    pub fn had(&self) -> u32
        ensures value { result ≡ self.now.had }
        ensures within { result < max 1 (size_of self.now.token.length) }
    {
        self.had
    }

    /// Takes all the memory that hearing the next block can need: for its octets behind those
    /// gathered, and where it is the last for the whole reply. What a token says of its length
    /// takes no memory before blocks are found (`IsReading`). A fetch that is prepared takes none.
    pub fn prepare(&mut self) -> Result<(), AllocError>
        ensures ok { OnOk result (self.new ≡ prepared_fetch self.old) }
        ensures err { OnErr result (self.new ≡ self.old) }
        ensures again { self.old.prepared ≡ true → IsOk result }
    {
        if self.prepared {
            return Ok(());
        }
        make_room(&mut self.gathered, self.asked.octets_due())?;
        let most = most_said(&self.asked, &self.token, self.had, self.gathered.len());
        self.room.reserve_exact(most)?;
        self.prepared = true;
        Ok(())
    }

    /// Hears what was read of the next block: None where the fetch goes on, else the octets of its
    /// reply (docs/FORMATS.md, Replies). It takes no memory. A fetch that isn't prepared hears
    /// nothing.
    pub fn hear(&mut self, chunk: Chunk<'_>) -> Option<Vec<u8>>
        ensures heard { (found : Fetched) → self.old.prepared ≡ true
            → FoundAs self.old chunk.entry found → HearsBlock self.old found result self.new }
        ensures same { self.old.prepared ≡ true → StaysSame self.old result self.new }
        ensures given { self.old.prepared ≡ true → HearsAny self.old chunk.entry result self.new }
        ensures fault { self.old.prepared ≡ true → SaysFault self.old chunk.entry result }
        ensures deaf { self.old.prepared ≡ false → (result ≡ None) × (self.new ≡ self.old) }
    {
        if self.prepared {
            self.hear_prepared(chunk)
        } else {
            None
        }
    }

    /// The same of a fetch that is prepared.
    fn hear_prepared(&mut self, chunk: Chunk<'_>) -> Option<Vec<u8>>
        requires { self.old.prepared ≡ true }
        ensures heard { (found : Fetched) → FoundAs self.old chunk.entry found
            → HearsBlock self.old found result self.new }
        ensures same { StaysSame self.old result self.new }
        ensures given { HearsAny self.old chunk.entry result self.new }
        ensures fault { SaysFault self.old chunk.entry result }
    {
        self.prepared = false;
        let mut text = mem::replace(&mut self.gathered, Vec::new(self.alloc));
        if let Chunk::Found(octets) = &chunk {
            gather(&mut text, &self.asked, octets.as_slice());
            let turns = self.asked.turns(&self.token);
            if self.had + 1 < turns {
                self.had += 1;
                self.gathered = text;
                return None;
            }
        }
        let room = mem::replace(&mut self.room, Vec::new(self.alloc));
        Some(last_reply(room, &self.asked, self.token, &chunk, &text))
    }
}

/// Makes room for so many octets more. Where there is none, the room becomes twice the octets that
/// are there and one that many more, so that a long text is copied a few times only.
fn make_room(text: &mut Vec<u8>, due: usize) -> Result<(), AllocError>
    requires { due ≤ chunk_size }
    ensures items { text.new.items ≡ text.old.items }
    ensures len { vec_len text.new ≡ vec_len text.old }
    ensures ok { OnOk result (vec_len text.new + due ≤ vec_capacity text.new) }
    ensures within { vec_capacity text.new
        ≤ max (vec_capacity text.old) (2 * vec_len text.old + due) }
    ensures err { OnErr result (vec_capacity text.new ≡ vec_capacity text.old) }
    ensures enough { vec_len text.old + due ≤ vec_capacity text.old → IsOk result }
{
    let had = text.len();
    if due <= text.capacity() - had {
        return Ok(());
    }
    text.reserve_exact(had + due)
}

/// The most octets of the reply that may come of the next block, once so many were had and so many
/// octets are gathered.
fn most_said(asked: &Asked, token: &Token, had: u32, gathered: usize) -> usize
    requires had { had < turns_of (asked_view asked.now) (token_view token.now) }
    requires gathered { gathered ≤ chunk_size * had }
    ensures { result ≡ terms.most_said (asked_view asked.now) (token_view token.now) had gathered }
{
    if asked.turns(token) == had + 1 {
        REPLY_ROOM + stuffed_room(gathered + asked.octets_due())
    } else {
        REPLY_ROOM
    }
}

/// Gathers what is shown of a block's octets.
fn gather(text: &mut Vec<u8>, asked: &Asked, octets: &[u8])
    requires { vec_len text.old + most_due (asked_view asked.now) ≤ vec_capacity text.old }
    ensures items { text.new.items
        ≡ text.old.items ++ take (most_due (asked_view asked.now)) octets.now }
    ensures capacity { vec_capacity text.new ≡ vec_capacity text.old }
{
    let due = octets.len().min(asked.octets_due());
    put_octets(text, &octets[..due]);
}
