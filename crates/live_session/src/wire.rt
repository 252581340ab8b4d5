//! A connection, as its session's thread has it.
ghost use Rattle.std.specs.Prelude.{◌≡◌, [], Some, true, false, is_some, unwrap_or};
ghost use Rattle.live_session.specs.Carried.{CarriesOn, CarriesSame, Lasts, carried, finish_of};
ghost use Rattle.live_session.specs.Carried.{is_break, part_finish};
ghost use Rattle.live_session.specs.Carried as words;
ghost use Rattle.live_session.specs.Counts.{turns_in, untold_in};
ghost use Rattle.live_session.specs.declared.wire.Finish.TheVariants as finishes;
ghost use Rattle.live_wire.specs.Tally.{after_reply};
ghost use Rattle.peer_session.specs.Session.{has_parted};

use crate::live::Conversation;
use live_store::StorePremises;
use live_wire::{Hears, Says, say_all};

/// How a session ended.
#[derive(Clone, Copy)]
pub enum Finish {
    /// After QUIT (RFC 3977 section 5.4).
    Quit,
    /// The input ended, a read or a write failed, or memory was refused.
    Broken,
    /// After the reply 400, or that to a line that is too long.
    Fault,
    /// After 2^40 turns.
    TurnsSpent,
    /// The gate let no further command in.
    Held,
}

/// A connection: the replies that are to be written, the room for what is read, and how it ended,
/// once it has.
#[derive(Drop)]
pub(crate) struct Wire<H: Hears, W: Says> {
    pub(crate) reader: H,
    pub(crate) writer: W,
    pub(crate) outbox: Vec<u8>,
    pub(crate) piece: Vec<u8>,
    pub(crate) finish: Option<Finish>,
}

/// Whether the connection is broken.
pub(crate) fn is_broken(finish: &Option<Finish>) -> bool
    ensures { result ≡ words.is_broken finish.now }
{
    matches!(finish, Some(Finish::Broken))
}

/// Writes what waits.
pub(crate) fn flush<H: Hears, W: Says>(wire: &mut Wire<H, W>)
    ensures same { CarriesSame
        (carried (H.heard wire.old.reader) (W.said wire.old.writer) wire.old.outbox wire.old.finish)
        (carried (H.heard wire.new.reader) (W.said wire.new.writer)
        wire.new.outbox wire.new.finish) }
    ensures none { wire.new.outbox.items ≡ [] }
    ensures ends { Lasts wire.old.finish wire.new.finish }
{
    if is_broken(&wire.finish) {
        wire.outbox.clear();
        return;
    }
    match say_all(&mut wire.writer, &wire.outbox) {
        Ok(()) => wire.outbox.clear(),
        Err(_) => {
            wire.outbox.clear();
            wire.finish = Some(Finish::Broken);
        }
    }
}

/// What a session said is to be written. Where it leaves, that was its last reply.
fn put<H: Hears, W: Says>(wire: &mut Wire<H, W>, said: Vec<u8>, leaves: bool)
    ensures on { CarriesOn
        (carried (H.heard wire.old.reader) (W.said wire.old.writer) wire.old.outbox wire.old.finish)
        (carried (H.heard wire.new.reader) (W.said wire.new.writer) wire.new.outbox wire.new.finish)
        [] said.items leaves }
    ensures ends { Lasts wire.old.finish wire.new.finish }
{
    if said.is_empty() {
        return;
    }
    if leaves {
        wire.finish = parted(wire.finish, &said);
        append(wire, said);
        return;
    }
    append(wire, said);
}

/// What a session said is counted, of an article that was known when it was sent or not, and is to
/// be written.
pub(crate) fn say<J: StorePremises, H: Hears, W: Says>(
    talk: &mut Conversation<J, H, W>,
    said: Vec<u8>,
    was_known: bool,
)
    ensures on { CarriesOn
        (carried (H.heard talk.old.wire.reader) (W.said talk.old.wire.writer)
        talk.old.wire.outbox talk.old.wire.finish)
        (carried (H.heard talk.new.wire.reader) (W.said talk.new.wire.writer)
        talk.new.wire.outbox talk.new.wire.finish)
        [] said.items (has_parted talk.old.live.session) }
    ensures ends { Lasts talk.old.wire.finish talk.new.wire.finish }
    ensures live { talk.new.live ≡ talk.old.live }
    ensures turns { turns_in talk.new.counts ≡ turns_in talk.old.counts }
    ensures counted { untold_in talk.new.counts
        ≡ after_reply was_known said.items (untold_in talk.old.counts) }
{
    talk.counts.say(&said, was_known);
    put(&mut talk.wire, said, talk.live.session.has_parted());
}

/// How the connection ends once the last reply is said.
fn parted(finish: Option<Finish>, said: &[u8]) -> Option<Finish>
    ensures { result ≡ part_finish finish said.now }
{
    match finish {
        None | Some(Finish::Quit) | Some(Finish::Fault) => Some(finish_by(said)),
        other => other,
    }
}

/// How a session ends by its last reply.
fn finish_by(said: &[u8]) -> Finish
    ensures { result ≡ finish_of said.now }
{
    if said.starts_with(b"205") {
        Finish::Quit
    } else {
        Finish::Fault
    }
}

/// The octets join what is to be written. Where there is no memory for that, what was there before
/// is written first.
fn append<H: Hears, W: Says>(wire: &mut Wire<H, W>, said: Vec<u8>)
    ensures on { CarriesOn
        (carried (H.heard wire.old.reader) (W.said wire.old.writer) wire.old.outbox wire.old.finish)
        (carried (H.heard wire.new.reader) (W.said wire.new.writer) wire.new.outbox wire.new.finish)
        [] said.items false }
    ensures ends { Lasts wire.old.finish wire.new.finish }
{
    if wire.outbox.is_empty() {
        wire.outbox = said;
        return;
    }
    match wire.outbox.extend_from_slice(&said) {
        Ok(()) => {}
        Err(_) => {
            flush(wire);
            wire.outbox = said;
        }
    }
}

/// The connection ends so, if it hasn't ended before. It is broken off only once nothing waits,
/// since what waits then isn't written any more.
pub(crate) fn stop<H: Hears, W: Says>(wire: &mut Wire<H, W>, finish: Finish)
    requires ends { is_break finish ≡ true }
    requires none { finish ≡ finishes.Broken → wire.old.outbox.items ≡ [] }
    ensures same { CarriesSame
        (carried (H.heard wire.old.reader) (W.said wire.old.writer) wire.old.outbox wire.old.finish)
        (carried (H.heard wire.new.reader) (W.said wire.new.writer)
        wire.new.outbox wire.new.finish) }
    ensures ended { is_some wire.new.finish ≡ true }
    ensures finish { wire.new.finish ≡ Some (unwrap_or wire.old.finish finish) }
    ensures waiting { wire.new.outbox ≡ wire.old.outbox }
{
    if wire.finish.is_none() {
        wire.finish = Some(finish);
    }
}
