ghost use Rattle.std.specs.Prelude.{◌≡◌, ◌≢◌, ◌<◌, ℕ, List, Some, is_some, length, map, option_map};
ghost use Rattle.std.specs.Prelude.{IsOk, IfOk, IfSome, OnOk, OnErr, ◌+◌, vec_len, vec_capacity};
ghost use Rattle.std.specs.List.{AllByRecursion};
ghost use Rattle.cyc_token.specs.Token.{token_view};
ghost use Rattle.relay_model.specs.Claims.{standing, Accepted, Claim, Unknown, offer_answer};
ghost use Rattle.relay_model.specs.Claims.{after_offer};
ghost use Rattle.relay_model.specs.Claims.{take_answer, after_take, after_refuse, after_release};
ghost use Rattle.relay_model.specs.Claims.{after_forget, is_storing_for, after_settle, look_answer};
ghost use Rattle.relay_model.specs.Run as run;
ghost use Rattle.relay_model.specs.Terms.{shard_count};
ghost use Rattle.id_history.specs.Answers.{offer_view, take_view, token_of};
ghost use Rattle.id_history.specs.Own.{OwnIds};
ghost use Rattle.id_history.specs.Changes.{OfClaim, ChangesClaim, KeepsClaims};
ghost use Rattle.id_history.specs.Expiry.{passed_view};

use crate::claims::{Offer, Settled, Shard, Take};
use crate::counts::Counts;
use crate::kept::KeptId;
use crate::lasting::{reserve, sort};
use cyc_buffer::Front;
use cyc_token::Token;
use nntp_text::MsgId;
use std::alloc::{AllocError, Global};
use std::hash::RandomState;
use std::io;
use std::random::RandomSource;

/// How many shards the message-ids are spread over.
pub const SHARD_COUNT: usize = 16;

/// The shard of a message-id: the sum of its octets modulo 16.
pub fn shard_of(id: &MsgId) -> usize
    ensures { result ≡ run.shard_of id.now }
{
    let mut shard = 0;
    for octet in id.as_bytes() {
        shard = (shard + usize::from(*octet)) % SHARD_COUNT;
    }
    shard
}

/// What is known of all message-ids, spread over sixteen shards by `shard_of`: each call is that of
/// the id's own shard, and says of all claims what `Shard` says of its own.
pub struct Shards {
    shards: Vec<Shard>,
    ghost sixteen: { length shards.items ≡ shard_count },
    ghost own: { OwnIds shards.items },
}

// Written out, so that no crate above proves anew how each part is let go.
impl Drop for Shards {
    fn drop(self) {
        let Shards { shards: _ } = self;
    }
}

impl Shards {
    ghost use Rattle.id_history.specs.Views.{id_view};
    ghost use Rattle.id_history.specs.History.{IdFits};
    ghost use Rattle.id_history.specs.Lasting.{AreLasting, claim_of_kept, lasting};
    ghost use Rattle.id_history.specs.LastingIn.{all_lasting};
    ghost use Rattle.id_history.specs.Shards.{KeepsAll, EachKeeps};
    ghost use Rattle.id_history.specs.Counts.{CountsOf};

    /// Shards to which every message-id is unknown. The hasher is seeded anew, since peers choose
    /// the message-ids; the error is that no seed was to be had, or memory.
    pub fn new(rt: &impl RandomSource, alloc: Global) -> io::Result<Shards>
        ensures { IfOk result (λ shards. KeepsAll shards (λ id. Unknown)) }
    {
        let hasher = RandomState::new(rt)?;
        Ok(Shards::seeded(alloc, hasher)?)
    }

    /// Shards with this hasher to which every message-id is unknown.
    fn seeded(alloc: Global, hasher: RandomState) -> Result<Shards, AllocError>
        ensures { IfOk result (λ shards. KeepsAll shards (λ id. Unknown)) }
    {
        let mut shards = Vec::with_capacity(alloc, SHARD_COUNT)?;
        for _ in 0..SHARD_COUNT {
            shards.push_reserved(Shard::new(alloc, hasher));
        }
        Ok(Shards { shards })
    }

    /// See `Shard::offer`.
    pub fn offer(
        &mut self,
        id: &MsgId,
        session: u64,
        now: u64,
        lasting: Option<u64>,
    ) -> Result<Offer, AllocError>
        ensures answer { IfOk result (λ answer. OfClaim (KeepsAll self.old) id.now
            (λ claim. offer_view answer ≡ offer_answer session (standing lasting now claim))) }
        ensures claims { OnOk result (ChangesClaim (KeepsAll self.old) (KeepsAll self.new) id.now
            (λ claim. after_offer session now (standing lasting now claim))) }
        ensures err { OnErr result (KeepsClaims (KeepsAll self.old) (KeepsAll self.new)) }

        // An id that is known takes no memory.
        ensures known { OfClaim (KeepsAll self.old) id.now
            (λ claim. claim ≢ Unknown → IsOk result) }
    {
        self.shards[shard_of(id)].offer(id, session, now, lasting)
    }

    /// See `Shard::take`.
    pub fn take(&mut self, id: &MsgId, session: u64) -> Result<Take, AllocError>
        ensures answer { IfOk result (λ answer. OfClaim (KeepsAll self.old) id.now
            (λ claim. take_view answer ≡ take_answer session claim)) }
        ensures claims { OnOk result ((article : Accepted)
            → ChangesClaim (KeepsAll self.old) (KeepsAll self.new) id.now
            (after_take session article)) }
        ensures err { OnErr result (KeepsClaims (KeepsAll self.old) (KeepsAll self.new)) }

        // An id that is known takes no memory.
        ensures known { OfClaim (KeepsAll self.old) id.now
            (λ claim. claim ≢ Unknown → IsOk result) }
    {
        self.shards[shard_of(id)].take(id, session)
    }

    /// See `Shard::refuse`.
    pub fn refuse(
        &mut self,
        id: &MsgId,
        session: u64,
        now: u64,
        lasting: Option<u64>,
    ) -> Result<(), AllocError>
        ensures claims { OnOk result (ChangesClaim (KeepsAll self.old) (KeepsAll self.new) id.now
            (λ claim. after_refuse session now (standing lasting now claim))) }
        ensures err { OnErr result (KeepsClaims (KeepsAll self.old) (KeepsAll self.new)) }

        // An id that is known takes no memory.
        ensures known { OfClaim (KeepsAll self.old) id.now
            (λ claim. claim ≢ Unknown → IsOk result) }
    {
        self.shards[shard_of(id)].refuse(id, session, now, lasting)
    }

    /// See `Shard::release`.
    pub fn release(&mut self, id: &MsgId, session: u64)
        ensures { ChangesClaim (KeepsAll self.old) (KeepsAll self.new) id.now
            (after_release session) }
    {
        self.shards[shard_of(id)].release(id, session);
    }

    /// See `Shard::forget`.
    pub fn forget(&mut self, id: &MsgId, session: u64)
        ensures { ChangesClaim (KeepsAll self.old) (KeepsAll self.new) id.now
            (after_forget session) }
    {
        self.shards[shard_of(id)].forget(id, session);
    }

    /// See `Shard::settle`.
    pub fn settle(&mut self, id: &MsgId, session: u64, token: Token, now: u64) -> Option<Settled>
        ensures answer { OfClaim (KeepsAll self.old) id.now
            (λ claim. is_some result ≡ is_storing_for session claim) }
        ensures token { IfSome result (λ settled. token_of settled ≡ token) }
        ensures claims { ChangesClaim (KeepsAll self.old) (KeepsAll self.new) id.now
            (after_settle session (token_view token) now) }
    {
        self.shards[shard_of(id)].settle(id, session, token, now)
    }

    /// See `Shard::look`.
    pub fn look(&self, id: &MsgId) -> Option<Token>
        ensures { OfClaim (KeepsAll self.now) id.now
            (λ claim. option_map token_view result ≡ look_answer claim) }
    {
        self.shards[shard_of(id)].look(id)
    }

    /// See `Shard::expire`: it goes through the ids of one of the sixteen.
    pub fn expire(&mut self, shard: usize, now: u64, remember: u64, fronts: &[Front])
        requires { shard < shard_count }
        ensures { (claims : List ℕ → Claim) → KeepsAll self.old claims → KeepsAll self.new
            (run.forgetting claims shard now (Some remember) (map passed_view fronts.now)) }
    {
        self.shards[shard].expire(now, remember, fronts);
    }

    /// The ids that are stored or were refused, rising by their octets. Each has room in the text
    /// of a history.
    pub fn entries(&self, alloc: Global) -> Result<Vec<KeptId>, AllocError>
        ensures lasting { IfOk result (λ entries. (claims : List ℕ → Claim)
            → KeepsAll self.now claims → AreLasting (map id_view entries.items) claims) }
        ensures fits { IfOk result (λ entries. AllByRecursion IdFits (map id_view entries.items)) }
        ensures room { IfOk result (λ entries. vec_capacity entries ≡ vec_len entries) }
    {
        let mut entries = Vec::new(alloc);
        reserve(&mut entries, self.counts())?;
        for shard in &self.shards {
            shard.gather(&mut entries)?;
        }
        sort(&mut entries);
        Ok(entries)
    }

    /// Shards that keep what was left of the claims of others, with this hasher.
    pub fn resume(
        alloc: Global,
        hasher: RandomState,
        entries: Vec<KeptId>,
    ) -> Result<Shards, AllocError>
        ensures { IfOk result (λ shards. (claims : List ℕ → Claim)
            → AreLasting (map id_view entries.items) claims
            → KeepsAll shards (λ id. lasting (claims id))) }
    {
        let mut shards = Shards::seeded(alloc, hasher)?;
        for one in entries {
            shards.put(one)?;
        }
        Ok(shards)
    }

    /// The id has what lasted of its claim.
    fn put(&mut self, one: KeptId) -> Result<(), AllocError>
        ensures { OnOk result (ChangesClaim (KeepsAll self.old) (KeepsAll self.new) one.id
            (λ claim. claim_of_kept (id_view one))) }
    {
        let shard = shard_of(&one.id);
        self.shards[shard].put(one)
    }

    /// The sixteen shards, in the order of `shard_of`, each with its own ids.
    pub fn into_shards(self) -> Vec<Shard>
        ensures sixteen { length result.items ≡ shard_count }
        ensures keeps { (claims : List ℕ → Claim) → KeepsAll self claims
            → EachKeeps result.items claims }
    {
        let Shards { shards } = self;
        shards
    }

    /// See `Shard::counts`: it adds those of all shards.
    pub fn counts(&self) -> Counts
        ensures claims { (claims : List ℕ → Claim) → KeepsAll self.now claims
            → CountsOf claims result }
        ensures lasting { result.stored + result.refused ≡ all_lasting self.now }
    {
        let mut counts = Counts::none();
        for shard in &self.shards {
            counts = counts.plus(shard.counts());
        }
        counts
    }
}
