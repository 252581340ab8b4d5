//! Entries that wait until they are appended.
ghost use Rattle.std.specs.Prelude.{◌≡◌, ◌≤◌, None, Some, IfOk};
ghost use Rattle.cyc_token.specs.Token.{token_view};
ghost use Rattle.live_journal.specs.Batches.{AreEntries, emptied, has_room, none_in};
ghost use Rattle.live_journal.specs.Batches.{with_entry, without_entry};
ghost use Rattle.live_journal.specs.Said.{IsSaid};
ghost use Rattle.relay_log.specs.Journal.{Refused, Stored};
ghost use Rattle.relay_model.specs.Terms.{last_moment};

use cyc_token::Token;
use nntp_text::MsgId;
use relay_log::{MOST_ENTRY_OCTETS, append_refused, append_stored};
use std::alloc::{AllocError, Global};
use std::marker::Model;
use std::mem;
use std::mem::size_of;
use std::snapshot::Snapshot;

/// Entries of a journal, whole, one behind the other, in room that is taken once.
#[derive(Drop)]
pub struct Batch {
    octets: Vec<u8>,
    left_out: u64,
}

impl Model for Batch {
    ghost use Rattle.std.specs.Prelude.{vec_capacity};
    ghost use Rattle.live_journal.specs.Batches.{AreEntries, Batch};

    ghost Value = { Batch };

    ghost view = { λ batch. record {
      octets = batch.octets.items;
      room = vec_capacity batch.octets;
      left_out = batch.left_out;
    } };

    ghost invariant = { λ batch. ∥ AreEntries batch.octets.items ∥₁ };
}

/// That an article was said to a journal: its message-id, its token where it was stored, and the
/// moment. Only what puts an entry into a batch, or leaves it out, makes one, for each time that it
/// does, and nothing copies one. Its parts are for contracts alone: it takes no memory.
pub struct Said {
    id: Snapshot<MsgId>,
    token: Snapshot<Option<Token>>,
    moment: Snapshot<u64>,
}

// Written out, so that no crate above proves anew how each part is let go.
impl Drop for Said {
    fn drop(self) {
        let Said {
            id: _,
            token: _,
            moment: _,
        } = self;
    }
}

// What its comment says of its memory.
const _: () = prove!(size_of::<Said>() == 0);

impl Said {
    /// Of these. Only this file can call it.
    fn of(id: &MsgId, token: Option<Token>, moment: u64) -> Said
        ensures { IsSaid id.now token moment result }
    {
        Said {
            id: Snapshot::of(id),
            token: Snapshot::of(&token),
            moment: Snapshot::of(&moment),
        }
    }
}

impl Batch {
    /// One without entries, with room for so many octets: all memory that it will have is taken
    /// here. With less room than for the longest entry, 279 octets, each entry is left out.
    pub fn new(alloc: Global, octets: usize) -> Result<Batch, AllocError>
        ensures { IfOk result (λ batch. batch ≡ none_in octets) }
    {
        Ok(Batch {
            octets: Vec::with_capacity(alloc, octets)?,
            left_out: 0,
        })
    }

    /// The octets of its entries.
    pub fn octets(&self) -> &[u8]
        ensures octets { result.now ≡ self.now.octets }

        // They are those of whole entries, each of which can be read.
        ensures entries { ∥ AreEntries result.now ∥₁ }
    {
        self.octets.as_slice()
    }

    /// How many entries were left out since it was empty, as there was no room for them, counted as
    /// far as there are numbers.
    pub fn left_out(&self) -> u64
        ensures { result ≡ self.now.left_out }
    {
        self.left_out
    }

    /// An article of the id was refused at this moment. It takes no memory.
    pub(crate) fn refused(&mut self, id: &MsgId, moment: u64) -> Said
        requires { moment ≤ last_moment }
        ensures put { self.new ≡ with_entry (Refused id.now moment) self.old }
        ensures said { IsSaid id.now None moment result }
    {
        if !self.has_room() || append_refused(&mut self.octets, id, moment).is_err() {
            self.leave_out();
        }
        Said::of(id, None, moment)
    }

    /// An article of the id was stored under the token at this moment. It takes no memory.
    pub(crate) fn stored(&mut self, id: &MsgId, token: &Token, moment: u64) -> Said
        requires { moment ≤ last_moment }
        ensures put { self.new ≡ with_entry (Stored id.now moment (token_view token.now)) self.old }
        ensures said { IsSaid id.now (Some token.now) moment result }
    {
        if !self.has_room() || append_stored(&mut self.octets, id, moment, token).is_err() {
            self.leave_out();
        }
        Said::of(id, Some(*token), moment)
    }

    /// Gives what it has, with the spare one in its place, whose entries are let go. It takes no
    /// memory.
    pub(crate) fn take(&mut self, spare: Batch) -> Batch
        ensures given { result ≡ self.old }
        ensures emptied { self.new ≡ emptied spare }
    {
        let mut empty = spare;
        empty.octets.clear();
        empty.left_out = 0;
        mem::replace(self, empty)
    }

    /// Whether there is room for one entry more, whichever it is.
    fn has_room(&self) -> bool
        ensures { result ≡ has_room self.now }
    {
        self.octets.capacity() - self.octets.len() >= MOST_ENTRY_OCTETS
    }

    /// An entry is left out.
    fn leave_out(&mut self)
        ensures { self.new ≡ without_entry self.old }
    {
        self.left_out = self.left_out.saturating_add(1);
    }
}
