//! Laws of the places of articles, over whole lists of sizes.
ghost use Rattle.std.specs.Prelude.{◌≡◌, ◌≤◌, ◌++◌, ◌∷◌, ℕ, List, All, length, sum};
ghost use Rattle.std.specs.List.{concat};
ghost use Rattle.news_terms.specs.Places.{head_after, place_in_runs};
ghost use Rattle.relay_laws.specs.Cuts.{IsCutInto};

/// A list of sizes, each of which any run has room for, is cut into longest runs, in one way alone.
/// Each size goes to its run, behind the sizes before it there: where the next size of a list goes
/// is known from the sizes before it, whatever comes after.
pub fn longest_runs()
    ensures some { (room : ℕ → ℕ) (sizes : List ℕ) → All (λ size. (r : ℕ) → size ≤ room r) sizes
        → (runs : List (List ℕ)) × IsCutInto room sizes runs }
    ensures one { (room : ℕ → ℕ) (sizes : List ℕ) (one other : List (List ℕ))
        → IsCutInto room sizes one → IsCutInto room sizes other → one ≡ other }
    ensures placed { (room : ℕ → ℕ) (sizes : List ℕ) (earlier later : List (List ℕ))
        (before after : List ℕ) (size : ℕ)
        → IsCutInto room sizes (earlier ++ (before ++ size ∷ after) ∷ later)
        → place_in_runs room (head_after room (concat earlier ++ before)) size
        ≡ record { run = length earlier; used = sum before } }
{}
