ghost use Rattle.std.specs.Prelude.{◌≡◌, ◌≢◌, ◌^◌, ℕ, List, None, Some, is_some, option_map};
ghost use Rattle.std.specs.Prelude.{IsOk, IfOk, IfSome, OnOk, OnErr, ◌+◌, ◌≤◌, vec_len};
ghost use Rattle.std.specs.Prelude.{vec_capacity};
ghost use Rattle.std.specs.List.{AllByRecursion};
ghost use Rattle.cyc_token.specs.Token.{token_view};
ghost use Rattle.relay_model.specs.Claims.{Accepted, Claim, Unknown, offer_answer, after_offer};
ghost use Rattle.relay_model.specs.Claims.{take_answer, after_take, after_refuse, after_release};
ghost use Rattle.relay_model.specs.Claims.{after_forget, is_storing_for, after_settle, look_answer};
ghost use Rattle.relay_model.specs.Claims.{standing};
ghost use Rattle.id_history.specs.OnlyIds.{OnlyIds};

use crate::counts::Counts;
use crate::expiry::{has_run_out, is_over, is_passed};
use crate::kept::KeptId;
use crate::keys::{id_of, kept, text_of};
use cyc_buffer::Front;
use cyc_token::Token;
use nntp_text::MsgId;
use std::alloc::{AllocError, Global};
use std::collections::HashMap;
use std::hash::RandomState;

/// The answer to a session that offers the article of a message-id (RFC 4644 section 2.4).
#[derive(Clone, Copy)]
pub enum Offer {
    /// The session is to send it.
    Wanted,
    /// Another session was told to send it, or it is being stored.
    Later,
    /// It is stored or was refused.
    Seen,
}

/// The answer to a session that has an accepted article.
#[derive(Clone, Copy)]
pub enum Take {
    /// The session is to have it stored.
    Mine,
    /// It is being stored.
    Held,
    /// It is stored or was refused.
    Seen,
}

/// That an article was settled, which `Shard::settle` alone says, once for each article that is
/// stored. It can be neither copied nor dropped, and has to be spent.
#[must_use]
pub struct Settled {
    token: Token,
}

impl Settled {
    ghost use Rattle.id_history.specs.Answers.{token_of};

    /// Uses it up for its token.
    pub fn spend(self) -> Token
        ensures { result ≡ token_of self }
    {
        let Settled { token } = self;
        token
    }
}

/// What is known of a message-id. Where nothing is known, there is no entry.
#[derive(Clone, Copy)]
enum Entry {
    Offered { session: u64, since: u64 },
    Storing { session: u64 },
    Stored { token: Token, moment: u64 },
    Refused { moment: u64 },
}

impl Entry {
    ghost use Rattle.std.specs.Prelude.{if◌then◌else◌};
    ghost use Rattle.std.specs.Prelude.{map};
    ghost use Rattle.id_history.specs.Lasting.{claim_since};
    ghost use Rattle.id_history.specs.LastingIn.{kept_by, kept_with};
    ghost use Rattle.id_history.specs.Mark.{claim_of, entry_mark, mark_of};
    ghost use Rattle.id_history.specs.Counts.{Numbers};
    ghost use Rattle.id_history.specs.Expiry.{is_forgotten, passed_view};

    /// The counts of the one message-id.
    fn counts(&self) -> Counts
        ensures { Numbers result
            (λ test. if test (claim_of (entry_mark (Some self.now))) then 1 else 0) }
    {
        let mut counts = Counts::none();
        match self {
            Entry::Offered { .. } => counts.offered = 1,
            Entry::Storing { .. } => counts.storing = 1,
            Entry::Stored { .. } => counts.stored = 1,
            Entry::Refused { .. } => counts.refused = 1,
        }
        counts
    }

    /// Whether its message-id is forgotten.
    fn is_forgotten(&self, now: u64, remember: u64, fronts: &[Front]) -> bool
        ensures { result ≡ is_forgotten now remember (map passed_view fronts.now)
            (entry_mark (Some self.now)) }
    {
        match *self {
            Entry::Offered { .. } | Entry::Storing { .. } => false,
            Entry::Stored { token, moment } => {
                is_over(moment, remember, now) && is_passed(fronts, token)
            }
            Entry::Refused { moment } => is_over(moment, remember, now),
        }
    }

    /// The entry of an id that is stored under the token, or was refused, since the moment.
    fn since(token: Option<Token>, moment: u64) -> Entry
        ensures { entry_mark (Some result)
            ≡ mark_of (claim_since (option_map token_view token) moment) }
    {
        match token {
            Some(token) => Entry::Stored { token, moment },
            None => Entry::Refused { moment },
        }
    }

    /// The token and the moment of what lasts; nothing lasts of an offer, nor of what is being
    /// stored.
    fn fate(&self) -> Option<(Option<Token>, u64)>
        ensures { (id : List ℕ) → kept_with id result ≡ kept_by id self.now }
    {
        match *self {
            Entry::Offered { .. } | Entry::Storing { .. } => None,
            Entry::Stored { token, moment } => Some((Some(token), moment)),
            Entry::Refused { moment } => Some((None, moment)),
        }
    }
}

/// What is known of message-ids (docs/PROTOCOL.md, Claims). Sessions go by their numbers, moments
/// are seconds since 1970-01-01 00:00:00 UTC. The hasher has random keys, since peers choose the
/// message-ids.
pub struct Shard {
    entries: HashMap<String, Entry, RandomState>,
    alloc: Global,
    ghost ids: { OnlyIds entries },
}

// Written out, so that no crate above proves anew how each part is let go.
impl Drop for Shard {
    fn drop(self) {
        let Shard {
            entries: _,
            alloc: _,
        } = self;
    }
}

impl Shard {
    ghost use Rattle.id_history.specs.Answers.{offer_view, take_view, token_of};
    ghost use Rattle.id_history.specs.Mark.{entry_mark};
    ghost use Rattle.id_history.specs.Mark as mark;
    ghost use Rattle.id_history.specs.Marks.{SetsMark, SameMarks};
    ghost use Rattle.id_history.specs.Changes.{OfClaim, ChangesClaim, KeepsClaims};
    ghost use Rattle.id_history.specs.Shard.{mark_at, Keeps};
    ghost use Rattle.std.specs.Prelude.{map};
    ghost use Rattle.relay_model.specs.Claims.{after_expire};
    ghost use Rattle.id_history.specs.Counts.{AtMost, CountsOf};
    ghost use Rattle.id_history.specs.History.{IdFits};
    ghost use Rattle.id_history.specs.Views.{id_view};
    ghost use Rattle.id_history.specs.Expiry.{passed_view};
    ghost use Rattle.id_history.specs.Lasting.{claim_of_kept, GathersLasting};
    ghost use Rattle.id_history.specs.LastingIn.{lasting_count};

    /// A shard to which every message-id is unknown.
    pub fn new(alloc: Global, hasher: RandomState) -> Shard
        ensures { Keeps result (λ id. Unknown) }
    {
        Shard {
            entries: HashMap::with_hasher(alloc, hasher),
            alloc,
        }
    }

    /// The session offers the article of the id at this moment: an id that is unknown becomes its
    /// offer, and so does one whose offer has run out, where offers last so many seconds.
    pub fn offer(
        &mut self,
        id: &MsgId,
        session: u64,
        now: u64,
        lasting: Option<u64>,
    ) -> Result<Offer, AllocError>
        ensures answer { IfOk result (λ answer. OfClaim (Keeps self.old) id.now
            (λ claim. offer_view answer ≡ offer_answer session (standing lasting now claim))) }
        ensures claims { OnOk result (ChangesClaim (Keeps self.old) (Keeps self.new) id.now
            (λ claim. after_offer session now (standing lasting now claim))) }
        ensures err { OnErr result (KeepsClaims (Keeps self.old) (Keeps self.new)) }

        // An id that is known takes no memory.
        ensures known { OfClaim (Keeps self.old) id.now (λ claim. claim ≢ Unknown → IsOk result) }
    {
        let offered = Entry::Offered {
            session,
            since: now,
        };
        match self.entry(id) {
            None => {
                self.add(id, offered)?;
                Ok(Offer::Wanted)
            }
            Some(Entry::Offered { since, .. }) if has_run_out(lasting, since, now) => {
                self.change(id, offered);
                Ok(Offer::Wanted)
            }
            Some(Entry::Offered { session: other, .. }) if other == session => Ok(Offer::Wanted),
            Some(Entry::Offered { .. } | Entry::Storing { .. }) => Ok(Offer::Later),
            Some(Entry::Stored { .. } | Entry::Refused { .. }) => Ok(Offer::Seen),
        }
    }

    /// The session has an accepted article of the id: where the id is unknown or offered, to
    /// whomever, it is being stored for the session from now on.
    pub fn take(&mut self, id: &MsgId, session: u64) -> Result<Take, AllocError>
        ensures answer { IfOk result (λ answer. OfClaim (Keeps self.old) id.now
            (λ claim. take_view answer ≡ take_answer session claim)) }
        ensures claims { OnOk result ((article : Accepted)
            → ChangesClaim (Keeps self.old) (Keeps self.new) id.now (after_take session article)) }
        ensures err { OnErr result (KeepsClaims (Keeps self.old) (Keeps self.new)) }

        // An id that is known takes no memory.
        ensures known { OfClaim (Keeps self.old) id.now (λ claim. claim ≢ Unknown → IsOk result) }
    {
        match self.entry(id) {
            None => {
                self.add(id, Entry::Storing { session })?;
                Ok(Take::Mine)
            }
            Some(Entry::Offered { .. }) => {
                self.change(id, Entry::Storing { session });
                Ok(Take::Mine)
            }
            Some(Entry::Storing { .. }) => Ok(Take::Held),
            Some(Entry::Stored { .. } | Entry::Refused { .. }) => Ok(Take::Seen),
        }
    }

    /// The session's article of the id was refused at this moment: where the id is unknown, offered
    /// to the session, or its offer has run out, where offers last so many seconds, that is
    /// remembered.
    pub fn refuse(
        &mut self,
        id: &MsgId,
        session: u64,
        now: u64,
        lasting: Option<u64>,
    ) -> Result<(), AllocError>
        ensures claims { OnOk result (ChangesClaim (Keeps self.old) (Keeps self.new) id.now
            (λ claim. after_refuse session now (standing lasting now claim))) }
        ensures err { OnErr result (KeepsClaims (Keeps self.old) (Keeps self.new)) }

        // An id that is known takes no memory.
        ensures known { OfClaim (Keeps self.old) id.now (λ claim. claim ≢ Unknown → IsOk result) }
    {
        let refused = Entry::Refused { moment: now };
        match self.entry(id) {
            None => self.add(id, refused)?,
            Some(Entry::Offered { since, .. }) if has_run_out(lasting, since, now) => {
                self.change(id, refused);
            }
            Some(Entry::Offered { session: other, .. }) if other == session => {
                self.change(id, refused);
            }
            Some(_) => {}
        }
        Ok(())
    }

    /// The session's offer of the id ends, which takes no memory: another session's stays.
    pub fn release(&mut self, id: &MsgId, session: u64)
        ensures { ChangesClaim (Keeps self.old) (Keeps self.new) id.now (after_release session) }
    {
        match self.entry(id) {
            Some(Entry::Offered { session: other, .. }) if other == session => self.remove(id),
            _ => {}
        }
    }

    /// The session's article of the id is given up, which takes no memory: the id becomes unknown
    /// where it is being stored for the session.
    pub fn forget(&mut self, id: &MsgId, session: u64)
        ensures { ChangesClaim (Keeps self.old) (Keeps self.new) id.now (after_forget session) }
    {
        match self.entry(id) {
            Some(Entry::Storing { session: other }) if other == session => self.remove(id),
            _ => {}
        }
    }

    /// The session's article of the id has been stored under the token at this moment, which takes
    /// no memory. `None`, with nothing changed, exactly where the id isn't being stored for the
    /// session.
    pub fn settle(&mut self, id: &MsgId, session: u64, token: Token, now: u64) -> Option<Settled>
        ensures answer { OfClaim (Keeps self.old) id.now
            (λ claim. is_some result ≡ is_storing_for session claim) }
        ensures token { IfSome result (λ settled. token_of settled ≡ token) }
        ensures claims { ChangesClaim (Keeps self.old) (Keeps self.new) id.now
            (after_settle session (token_view token) now) }
    {
        match self.entry(id) {
            Some(Entry::Storing { session: other }) if other == session => {
                self.change(id, Entry::Stored { token, moment: now });
                Some(Settled { token })
            }
            _ => None,
        }
    }

    /// The token under which the article of the id is stored. It takes no memory.
    pub fn look(&self, id: &MsgId) -> Option<Token>
        ensures { OfClaim (Keeps self.now) id.now
            (λ claim. option_map token_view result ≡ look_answer claim) }
    {
        match self.entry(id) {
            Some(Entry::Stored { token, .. }) => Some(token),
            _ => None,
        }
    }

    /// How many message-ids are offered, being stored, stored and refused. It takes no memory.
    pub fn counts(&self) -> Counts
        ensures claims { (claims : List ℕ → Claim) → Keeps self.now claims
            → CountsOf claims result }

        // So those of many shards can be added.
        ensures few { AtMost (2 ^ 63) result }

        // As many ids last as are stored or were refused.
        ensures lasting { result.stored + result.refused ≡ lasting_count self.now }
    {
        let mut counts = Counts::none();
        for entry in self.entries.values() {
            counts = counts.plus(entry.counts());
        }
        counts
    }

    /// Forgets at this moment what was stored or refused so many seconds ago or earlier, of what
    /// was stored only what is gone by these fronts. It takes no memory.
    pub fn expire(&mut self, now: u64, remember: u64, fronts: &[Front])
        ensures { (claims : List ℕ → Claim) → Keeps self.old claims → Keeps self.new
            (λ id. after_expire now remember (map passed_view fronts.now) (claims id)) }
    {
        self.entries
            .retain(|_, entry| !entry.is_forgotten(now, remember, fronts));
    }

    /// Puts what lasts behind the list, in no order, for which there is room.
    pub(crate) fn append(&self, list: &mut Vec<KeptId>) -> Result<(), AllocError>
        requires { vec_len list.old + lasting_count self.now ≤ vec_capacity list.old }
        ensures gathers { OnOk result ((claims : List ℕ → Claim) → Keeps self.now claims
            → GathersLasting (map id_view list.old.items) (map id_view list.new.items) claims) }
        ensures fits { OnOk result (AllByRecursion IdFits (map id_view list.old.items)
            → AllByRecursion IdFits (map id_view list.new.items)) }
        ensures len { OnOk result
            (vec_len list.new ≡ vec_len list.old + lasting_count self.now) }
        ensures capacity { OnOk result (vec_capacity list.new ≡ vec_capacity list.old) }
    {
        for (text, entry) in self.entries.iter() {
            if let Some((token, moment)) = entry.fate() {
                let id = id_of(self.alloc, text.as_str())?;
                list.push_reserved(kept(id, token, moment));
            }
        }
        Ok(())
    }

    /// The id has what lasted of its claim.
    pub(crate) fn put(&mut self, one: KeptId) -> Result<(), AllocError>
        ensures claims { OnOk result (ChangesClaim (Keeps self.old) (Keeps self.new) one.id
            (λ claim. claim_of_kept (id_view one))) }
        ensures err { OnErr result (KeepsClaims (Keeps self.old) (Keeps self.new)) }
    {
        let entry = Entry::since(one.token, one.moment);
        self.insert(one.into_id(), entry)
    }

    /// The entry of the id.
    fn entry(&self, id: &MsgId) -> Option<Entry>
        ensures { entry_mark result ≡ mark_at self.now id.now }
    {
        self.entries.get(id.as_str()).copied()
    }

    /// Makes an entry for the id.
    fn add(&mut self, id: &MsgId, entry: Entry) -> Result<(), AllocError>
        ensures ok { OnOk result (SetsMark self.old self.new id.now (entry_mark (Some entry))) }
        ensures err { OnErr result (SameMarks self.old self.new) }
    {
        match id.copied(self.alloc) {
            Ok(copy) => self.insert(copy, entry),
            Err(error) => Err(error),
        }
    }

    /// Makes an entry for the id, which may have had another.
    fn insert(&mut self, id: MsgId, entry: Entry) -> Result<(), AllocError>
        ensures ok { OnOk result (SetsMark self.old self.new id (entry_mark (Some entry))) }
        ensures err { OnErr result (SameMarks self.old self.new) }
    {
        let _octets = id.as_bytes();
        self.entries.insert(id.into_string(), entry)?;
        Ok(())
    }

    /// Gives the id, which has an entry, another one.
    fn change(&mut self, id: &MsgId, entry: Entry)
        requires { mark_at self.old id.now ≢ mark.Unknown }
        ensures { SetsMark self.old self.new id.now (entry_mark (Some entry)) }
    {
        if let Some(kept) = self.entries.get_mut(text_of(id)) {
            *kept = entry;
        }
    }

    /// Takes the entry of the id away.
    fn remove(&mut self, id: &MsgId)
        ensures { SetsMark self.old self.new id.now mark.Unknown }
    {
        self.entries.remove(text_of(id));
    }
}
