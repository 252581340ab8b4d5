//! Laws of what a shard keeps: each is the contract of an empty body.
ghost use Rattle.std.specs.Prelude.{◌≡◌, ◌↔◌, ℕ, List, false};
ghost use Rattle.id_history.specs.History.{KeptId, Rises};
ghost use Rattle.relay_model.specs.Claims.{Claim, after_restart, is_storing};
ghost use Rattle.id_history.specs.Counts.{CountsOf};
ghost use Rattle.id_history.specs.Lasting.{AreLasting, lasting};
ghost use Rattle.id_history.specs.Mark.{mark_of};
ghost use Rattle.id_history.specs.Shard.{Keeps};
ghost use Rattle.id_history.specs.Shards.{KeepsAll};

use crate::{Counts, Shard, Shards};

/// Every shard keeps some claims, so nothing is said of it in vain.
pub fn keeps_some(shard: &Shard)
    ensures { (claims : List ℕ → Claim) × Keeps shard.now claims }
{}

/// Besides the claims that it keeps, a shard keeps those alone that differ from them in nothing
/// but articles and stages.
pub fn keeps_alike(shard: &Shard)
    ensures { (claims others : List ℕ → Claim) → Keeps shard.now claims
        → (Keeps shard.now others ↔ ((id : List ℕ) → mark_of (others id) ≡ mark_of (claims id))) }
{}

/// Sixteen shards keep some claims, too.
pub fn all_keep_some(shards: &Shards)
    ensures { (claims : List ℕ → Claim) × KeepsAll shards.now claims }
{}

/// Counts that are those of the same claims are the same, so claims have one number of each kind.
pub fn counts_are_of_claims(one: Counts, other: Counts)
    ensures { (claims : List ℕ → Claim) → CountsOf claims one → CountsOf claims other
        → one ≡ other }
{}

/// What is left of claims is one list.
pub fn one_is_left()
    ensures { (one other : List KeptId) (claims : List ℕ → Claim) → AreLasting one claims
        → AreLasting other claims → one ≡ other }
{}

/// Each list of ids that rise is what is left of some claims, so of shards that are resumed from it
/// something is said.
pub fn each_was_left()
    ensures { (entries : List KeptId) → Rises entries
        → (claims : List ℕ → Claim) × AreLasting entries claims }
{}

/// What a resume makes reads back as what it was given.
pub fn reads_back()
    ensures { (shards : Shards) (entries again : List KeptId) → Rises entries
        → ((claims : List ℕ → Claim) → AreLasting entries claims
        → KeepsAll shards (λ id. lasting (claims id)))
        → ((claims : List ℕ → Claim) → KeepsAll shards claims → AreLasting again claims)
        → again ≡ entries }
{}

/// Where an id isn't being stored, what is left of its claim is what a Restart leaves.
pub fn lasting_is_restarted()
    ensures { (claim : Claim) → is_storing claim ≡ false → lasting claim ≡ after_restart claim }
{}
