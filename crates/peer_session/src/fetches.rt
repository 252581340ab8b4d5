//! Fetches by message-id and by token, and what was taken of a queue.
ghost use Rattle.std.specs.Prelude.{◌≡◌, ◌≢◌, ◌≤◌, Option, Some, None, IfOk, IsOk, OnErr};
ghost use Rattle.std.specs.Prelude.{option_map, length, map, true};
ghost use Rattle.article_fetch.specs.Fetch.{FoundAs};
ghost use Rattle.cyc_token.specs.Token.{token_view};
ghost use Rattle.cyc_token.specs.declared.Token.{Token};
ghost use Rattle.feed_queue.specs.declared.desk.Taken.{Taken};
ghost use Rattle.news_terms.specs.Reply.{QueueFollows};
ghost use Rattle.nntp_text.specs.Command.{part_view};
ghost use Rattle.nntp_text.specs.Reply.{item_view};
ghost use Rattle.relay_model.specs.Fetches.{Fetched};
ghost use Rattle.relay_model.specs.Hears.{look_heard, says};
ghost use Rattle.relay_model.specs.State as model;
ghost use Rattle.relay_model.specs.State.{in_phase};
ghost use Rattle.peer_session.specs.Asking.{IsReadingAsked, TakesReading};
ghost use Rattle.peer_session.specs.Given.{ReadAnyIs};
ghost use Rattle.peer_session.specs.Hearing.{HeardIs, HeardUnless, ReadHeardIs, ReadUnless};
ghost use Rattle.peer_session.specs.Session.{passed, session_view};

use crate::phase::{Due, Phase, Todo};
use crate::room::Room;
use crate::session::Session;
use crate::steps::{Answer, Step};
use article_fetch::{Asked, Chunk, Reading};
use nntp_text::{MsgId, Part, Reply};
use std::alloc::AllocError;
use std::mem;

/// What is due of a fetch: its next block.
pub(crate) fn reading_due(reading: &mut Reading) -> Result<Due, AllocError>
    ensures due { IfOk result (IsReadingAsked reading.old reading.new) }
    ensures err { OnErr result (reading.new ≡ reading.old) }
    ensures free { reading.old.prepared ≡ true → IsOk result }
{
    reading.prepare()?;
    Ok(Due {
        todo: Todo::ReadOn,
        read: 0,
        step: Step::Read(reading.token(), reading.had()),
    })
}

impl Session {
    /// Where the id is stored its token is fetched from the next turn on.
    pub(crate) fn hear_look(
        &mut self,
        read: usize,
        part: Part,
        id: MsgId,
        room: Room,
        answer: Answer<'_>,
    ) -> Vec<u8>
        ensures { HeardUnless
            ((told : Option Token) → answer.entry ≡ Answer.Look told
            → self.old.phase ≡ Phase.Ready
            → HeardIs result.items self.old (look_heard (passed read self.old) (part_view part) id
            (option_map token_view told)) self.new)
            ((told : Option Token) → answer.entry ≢ Answer.Look told)
            result.items self.old self.new }
    {
        match answer {
            Answer::Look(Some(token)) => {
                drop(answer);
                self.cutter.pass(read);
                let asked = Asked::OfId(part, id);
                self.enter(Phase::Fetches(Reading::new(self.alloc, asked, token)));
                Vec::new(self.alloc)
            }
            Answer::Look(None) => {
                drop(answer);
                self.cutter.pass(read);
                room.say(Reply::NoArticle)
            }
            _ => self.unheard(answer),
        }
    }

    /// The first block of a token.
    pub(crate) fn hear_first(
        &mut self,
        read: usize,
        reading: Reading,
        answer: Answer<'_>,
    ) -> Vec<u8>
        ensures { ReadUnless
            ((chunk : Chunk) (found : Fetched) → answer.entry ≡ Answer.Chunk chunk
            → FoundAs reading chunk found → reading.prepared ≡ true → self.old.phase ≡ Phase.Ready
            → ReadHeardIs result.items self.old (passed read self.old) reading found self.new)
            ((chunk : Chunk) → answer.entry ≡ Answer.Chunk chunk → reading.prepared ≡ true
            → self.old.phase ≡ Phase.Ready
            → ReadAnyIs result.items self.old (passed read self.old) reading chunk self.new)
            ((chunk : Chunk) → answer.entry ≢ Answer.Chunk chunk)
            result.items self.old self.new }
    {
        match answer {
            Answer::Chunk(chunk) => {
                self.cutter.pass(read);
                self.hear_block(reading, chunk)
            }
            _ => self.unheard(answer),
        }
    }

    /// The fetch that is under way; the session is ready then.
    fn take_reading(&mut self) -> Option<Reading>
        ensures { TakesReading self.old result self.new }
    {
        match mem::replace(&mut self.phase, Phase::Ready) {
            Phase::Fetches(reading) => Some(reading),
            other => {
                self.enter(other);
                None
            }
        }
    }

    /// The next block of a fetch.
    pub(crate) fn hear_next(&mut self, answer: Answer<'_>) -> Vec<u8>
        ensures { ReadUnless
            ((reading : Reading) (chunk : Chunk) (found : Fetched)
            → answer.entry ≡ Answer.Chunk chunk → self.old.phase ≡ Phase.Fetches reading
            → FoundAs reading chunk found → reading.prepared ≡ true
            → self.old.cutter.dropped ≡ 0
            → ReadHeardIs result.items self.old (in_phase (session_view self.old) model.Ready)
            reading found self.new)
            ((reading : Reading) (chunk : Chunk) → answer.entry ≡ Answer.Chunk chunk
            → self.old.phase ≡ Phase.Fetches reading → reading.prepared ≡ true
            → self.old.cutter.dropped ≡ 0
            → ReadAnyIs result.items self.old (in_phase (session_view self.old) model.Ready)
            reading chunk self.new)
            ((chunk : Chunk) → answer.entry ≢ Answer.Chunk chunk)
            result.items self.old self.new }
    {
        match answer {
            Answer::Chunk(chunk) => match self.take_reading() {
                Some(reading) => self.hear_block(reading, chunk),
                None => Vec::new(self.alloc),
            },
            _ => self.unheard(answer),
        }
    }

    /// A block of a fetch: it goes on, or what it found is said.
    fn hear_block(&mut self, mut reading: Reading, chunk: Chunk<'_>) -> Vec<u8>
        ensures heard { (found : Fetched) → FoundAs reading chunk.entry found
            → reading.prepared ≡ true → self.old.phase ≡ Phase.Ready
            → self.old.cutter.dropped ≡ 0
            → ReadHeardIs result.items self.old (session_view self.old) reading found self.new }
        ensures given { reading.prepared ≡ true → self.old.phase ≡ Phase.Ready
            → self.old.cutter.dropped ≡ 0
            → ReadAnyIs result.items self.old (session_view self.old) reading chunk.entry self.new }
    {
        match reading.hear(chunk) {
            Some(octets) => octets,
            None => {
                self.enter(Phase::Fetches(reading));
                Vec::new(self.alloc)
            }
        }
    }

    /// What was taken of a feed's queue.
    pub(crate) fn hear_queue(&mut self, read: usize, room: Room, answer: Answer<'_>) -> Vec<u8>
        ensures { HeardUnless
            ((taken : Taken) → answer.entry ≡ Answer.Queue taken
            → length taken.items.items ≤ room → self.old.phase ≡ Phase.Ready
            → HeardIs result.items self.old (says (passed read self.old)
            (QueueFollows taken.missed (map item_view taken.items.items))) self.new)
            ((taken : Taken) → answer.entry ≢ Answer.Queue taken)
            result.items self.old self.new }
    {
        match answer {
            Answer::Queue(taken) => {
                self.cutter.pass(read);
                room.say_queue(taken.missed, &taken.items)
            }
            _ => self.unheard(answer),
        }
    }
}
