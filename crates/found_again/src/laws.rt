//! A law of the ids that are found, and worked examples: each is the contract of an empty body.
ghost use Rattle.std.specs.Prelude.{◌≡◌, ◌≢◌, ◌≤◌, ◌∷◌, [], ℕ, List, bytes_eq, count_by};
ghost use Rattle.std.specs.List.{AllZip};
ghost use Rattle.relay_model.specs.Crash.{Again, claimed};
ghost use Rattle.relay_model.specs.Terms.{Terms};
ghost use Rattle.found_again.specs.Claiming.{has_id};
ghost use Rattle.found_again.specs.Dealing.{dealt};
ghost use Rattle.found_again.specs.Rows.{dealt_from_fronts, three_buffers};
ghost use Rattle.found_again.specs.Texts.{IsText};

use crate::FoundText;

/// Where one of these texts has an id at most, as of those that were claimed, so it is of what is
/// found.
pub fn ids_are_once()
    ensures { (w : Terms) (texts : List FoundText) (again : List Again) (id : List ℕ)
        → AllZip (IsText w) texts again → count_by (has_id id) texts ≤ 1
        → count_by (λ (one : Again). bytes_eq id one.kept.id) (claimed again) ≤ 1 }
{}

/// Three buffers, dealt from the ends. Dealt from the fronts, two of one buffer would come last,
/// and the newest of the other not among the last two.
pub fn dealt_example()
    ensures ends { dealt three_buffers ≡ 1 ∷ 2 ∷ 3 ∷ 4 ∷ 5 ∷ [] }
    ensures uneven { dealt {X = ℕ} ((1 ∷ 2 ∷ 3 ∷ 4 ∷ []) ∷ (5 ∷ []) ∷ [])
        ≡ 1 ∷ 2 ∷ 3 ∷ 5 ∷ 4 ∷ [] }
    ensures fronts { dealt_from_fronts ((1 ∷ 2 ∷ 3 ∷ 4 ∷ []) ∷ (5 ∷ []) ∷ [])
        ≡ 1 ∷ 5 ∷ 2 ∷ 3 ∷ 4 ∷ [] }
    ensures differ { dealt {X = ℕ} ((1 ∷ 2 ∷ 3 ∷ 4 ∷ []) ∷ (5 ∷ []) ∷ [])
        ≢ dealt_from_fronts ((1 ∷ 2 ∷ 3 ∷ 4 ∷ []) ∷ (5 ∷ []) ∷ []) }
{}
