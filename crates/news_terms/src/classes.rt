//! Storage classes: a law and worked examples.

ghost use Rattle.std.specs.Prelude.{◌≡◌, ◌++◌, ◌∷◌, [], ℕ, List, true, false, codes, map, All};
ghost use Rattle.std.specs.Prelude.{Some, None, IsTrue, IsFalse, option_map, replicate};
ghost use Rattle.news_terms.specs.Pattern.{worked_expression};
ghost use Rattle.news_terms.specs.StorageClass.{Entry, takes, takes_groups};
ghost use Rattle.news_terms.specs.StorageClass.{chosen_entry, is_at_most};

/// An article falls to the first entry whose conditions hold.
pub fn first_entry()
    ensures first { (before after : List Entry) (entry : Entry) (groups : List (List ℕ)) (size : ℕ)
        → All (λ other. IsFalse (takes other groups size)) before
        → IsTrue (takes entry groups size)
        → chosen_entry (before ++ entry ∷ after) groups size ≡ Some entry }
    ensures none { (entries : List Entry) (groups : List (List ℕ)) (size : ℕ)
        → All (λ other. IsFalse (takes other groups size)) entries
        → chosen_entry entries groups size ≡ None }
{}

/// The worked expression as an entry's newsgroups, and the choice between two entries by size.
pub fn class_examples()
    ensures groups { let any : Entry = record {
      smallest = 0;
      largest = None;
      newsgroups = worked_expression;
      exactmatch = false;
      class = 1;
      group = 0;
    } in
        map (takes_groups any)
        ((codes "comp.x" ∷ codes "alt.a" ∷ [])
        ∷ (codes "comp.x" ∷ codes "alt.binaries.b" ∷ [])
        ∷ (codes "alt.a" ∷ [])
        ∷ [])
        ≡ true ∷ false ∷ false ∷ [] }
    ensures every_group { let exact : Entry = record {
      smallest = 0;
      largest = None;
      newsgroups = worked_expression;
      exactmatch = true;
      class = 1;
      group = 0;
    } in
        map (takes_groups exact)
        ((codes "comp.x" ∷ codes "alt.a" ∷ []) ∷ (codes "comp.x" ∷ codes "comp.y" ∷ []) ∷ [])
        ≡ false ∷ true ∷ [] }
    ensures first_of_two { takes_groups (record {
      smallest = 0;
      largest = None;
      newsgroups = worked_expression;
      exactmatch = true;
      class = 1;
      group = 0;
    }) (codes "alt.a" ∷ codes "comp.x" ∷ []) ≡ false }
    ensures last_of_many { takes_groups (record {
      smallest = 0;
      largest = None;
      newsgroups = worked_expression;
      exactmatch = true;
      class = 1;
      group = 0;
    }) (replicate 9 (codes "comp.x") ++ codes "alt.a" ∷ []) ≡ false }
    ensures sizes { let small : Entry = record {
      smallest = 100;
      largest = Some 200;
      newsgroups = worked_expression;
      exactmatch = false;
      class = 1;
      group = 0;
    } in
        let large : Entry = record small { largest = None; class = 2 } in
        map (λ size. option_map (λ e. e.class)
        (chosen_entry (small ∷ large ∷ []) (codes "comp.x" ∷ []) size))
        (99 ∷ 100 ∷ 200 ∷ 201 ∷ [])
        ≡ None ∷ Some 1 ∷ Some 1 ∷ Some 2 ∷ [] }
    ensures no_limit { is_at_most None 0xFFFFFFFF ≡ true }
    ensures without_a_group { let any : Entry = record {
      smallest = 0;
      largest = None;
      newsgroups = worked_expression;
      exactmatch = false;
      class = 1;
      group = 0;
    } in
        map (λ entry. takes entry [] 0) (any ∷ record any { exactmatch = true } ∷ [])
        ≡ false ∷ false ∷ [] }
{}
