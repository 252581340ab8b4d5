//! Laws of what is told of names, computed. Nothing of the code stands on them.
ghost use Rattle.std.specs.Prelude.{◌≡◌, ◌∷◌, [], flat_map};
ghost use Rattle.history_names.specs.Changes.{changes_of, ended};
ghost use Rattle.history_names.specs.Examples as examples;

/// The worked history is told of so; under the same names, with rings that have room, nothing is.
pub fn worked_changes()
    ensures told { flat_map ended (changes_of examples.known examples.own examples.rings
        examples.kept) ≡ examples.told }
    ensures same { changes_of examples.known examples.known (3 ∷ 20 ∷ []) examples.kept ≡ [] }
{}
