//! Where groups go on where histories are taken by name.
ghost use Rattle.std.specs.Prelude.{◌≡◌, ◌<◌, ℕ, List, Some, length, map};
ghost use Rattle.std.specs.List.{AllByRecursion, AllZip, slice_get};
ghost use Rattle.id_history.specs.History.{Kept};
ghost use Rattle.named_history.specs.Naming.{buffer_count, in_turn, name_of, named};
ghost use Rattle.named_history.specs.Naming.{turn_by};
ghost use Rattle.relay_names.specs.Names.{GroupNames, Names};
ghost use Rattle.names_laws.specs.Staying.{AreGoneBefore, IsFirstAt, IsNowhere};

/// A group whose name was known goes on with the buffer at its turn, where it still has it.
pub fn group_goes_on()
    ensures { (known own : Names) (rings : List ℕ) (kept : Kept) (i k position place : ℕ)
        (group old : GroupNames) (buffer : List ℕ)
        → slice_get own.groups i ≡ Some group
        → IsFirstAt group.name k (map name_of known.groups)
        → slice_get known.groups k ≡ Some old → slice_get kept.positions k ≡ Some position
        → slice_get old.buffers position ≡ Some buffer → IsFirstAt buffer place group.buffers
        → slice_get (named known own rings kept).positions i ≡ Some place }
{}

/// Where that is gone, it goes on with the next in turn that it still has, once round; where it has
/// none of them, with its first buffer.
pub fn group_goes_on_in_turn()
    ensures next { (known own : List (List ℕ)) (position turn place : ℕ) (buffer : List ℕ)
        → slice_get (in_turn position known) turn ≡ Some buffer
        → AreGoneBefore turn (in_turn position known) own → IsFirstAt buffer place own
        → turn_by known position own ≡ place }
    ensures none { (known own : List (List ℕ)) (position : ℕ)
        → AreGoneBefore (length (in_turn position known)) (in_turn position known) own
        → turn_by known position own ≡ 0 }
{}

/// A group whose name wasn't known begins with its first buffer.
pub fn group_is_new()
    ensures { (known own : Names) (rings : List ℕ) (kept : Kept) (i : ℕ) (group : GroupNames)
        → slice_get own.groups i ≡ Some group
        → IsNowhere group.name (map name_of known.groups)
        → slice_get (named known own rings kept).positions i ≡ Some 0 }
{}

/// Each position is one of its group's buffers, where each group has some.
pub fn positions_are_places()
    ensures { (known own : Names) (rings : List ℕ) (kept : Kept)
        → AllByRecursion (λ group. 0 < buffer_count group) own.groups
        → AllZip (λ position m. position < m) (named known own rings kept).positions
        (map buffer_count own.groups) }
{}
