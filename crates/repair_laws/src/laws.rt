//! What follows for a relay that is found again.
ghost use Rattle.std.specs.Prelude.{◌≡◌, ℕ, Bool, List, Option, Some, length, slice_get};
ghost use Rattle.block_shelf.specs.Leaving.{AreLeftOf};
ghost use Rattle.block_shelf.specs.Openings.{Opening};
ghost use Rattle.block_shelf.specs.Stopping.{ArePositions};
ghost use Rattle.buffer_repair.specs.Finding.{remains_in};
ghost use Rattle.buffer_repair.specs.Keeping.{AreLeftOfGroups, KeepsFound, KeepsLeft};
ghost use Rattle.buffer_repair.specs.Keeping.{LeavesRecord, TellsBefore};
ghost use Rattle.buffer_repair.specs.Remains.{AreTurns, Remains, all_texts_left, courses_left};
ghost use Rattle.buffer_repair.specs.declared.found_set.FoundBufferSet.{FoundBufferSet};
ghost use Rattle.found_again.specs.Reading.{AreSameTexts};
ghost use Rattle.found_again.specs.declared.text.FoundText.{FoundText};
ghost use Rattle.news_terms.specs.Courses.{Course};
ghost use Rattle.news_terms.specs.Places.{Buffer, Group};
ghost use Rattle.news_terms.specs.Token.{Token};
ghost use Rattle.relay_conf.specs.Settings.{places_of_buffers, places_of_groups};
ghost use Rattle.relay_conf.specs.declared.settings.Buffers.{Buffers};
ghost use Rattle.relay_model.specs.Invariants.{IsWell};
ghost use Rattle.relay_model.specs.State.{Kept};
ghost use Rattle.relay_model.specs.Terms.{Terms};
ghost use Rattle.relay_model.specs.World.{World};
ghost use Rattle.repair_laws.specs.FoundAll.{AreAtPlaces, AreBuffersFound, AreClaimed, IsOfCrash};

use cyc_block::BlockStore;

/// Of a relay whose stores a crash has left, at each place lay one text at most: the histories of
/// its buffers say as many as it kept.
pub fn left_at_places<S: BlockStore>()
    ensures { (stores : List S) (w v : Terms) (saved : Token → Bool) (x : World)
        (openings : ℕ → Option Opening) → v.buffers ≡ w.buffers → v.groups ≡ w.groups
        → ((b : ℕ) (buffer : Buffer) → slice_get v.buffers b ≡ Some buffer → buffer.number ≡ b)
        → IsWell w x
        → AreLeftOf ⟦<S as BlockStore>⟧ stores v x.state.begun x.state.kept openings saved
        → AreAtPlaces x.state.kept }
{}

/// What a recovery says of the buffers that it finds, over stores that a crash has left of a relay
/// that was well, is what is asked of them.
pub fn recovered_are_found<S: BlockStore>()
    ensures { (settings : Buffers) (stores : List S)
        (found_set : FoundBufferSet S ⟦<S as BlockStore>⟧) (w v : Terms)
        (saved : Token → Bool) (x : World) (openings : ℕ → Option Opening)
        (ids : Token → List ℕ) (turns : ℕ → ℕ)
        → KeepsLeft ⟦<S as BlockStore>⟧ settings stores found_set
        → LeavesRecord settings found_set
        → AreLeftOfGroups ⟦<S as BlockStore>⟧ settings stores found_set
        → TellsBefore ⟦<S as BlockStore>⟧ settings stores found_set
        → v.buffers ≡ places_of_buffers settings → v.groups ≡ places_of_groups settings
        → v.buffers ≡ w.buffers → v.groups ≡ w.groups → AreTurns v.groups turns → IsWell w x
        → AreLeftOf ⟦<S as BlockStore>⟧ stores v x.state.begun x.state.kept openings saved
        → AreBuffersFound found_set w v saved x
        (courses_left v.groups turns (remains_in found_set))
        (all_texts_left ids (remains_in found_set)) }
{}

/// What is found and claimed is what a crash leaves of the relay that was.
pub fn found_is_of_crash<S: BlockStore>()
    ensures { (found_set : FoundBufferSet S ⟦<S as BlockStore>⟧) (w v : Terms)
        (saved : Token → Bool) (x : World) (begun : ℕ → Course) (kept left : List Kept)
        (claimed : List FoundText)
        → AreBuffersFound found_set w v saved x begun kept → AreClaimed v kept left claimed
        → IsOfCrash w v saved x begun left claimed }
{}

/// Buffers that were found again keep the same texts in whatever order, for whatever ids.
pub fn same_kept<S: BlockStore>()
    ensures { (found_set : FoundBufferSet S ⟦<S as BlockStore>⟧) (w : Terms)
        (begun : ℕ → Course) (kept other : List Kept) (failures : ℕ → ℕ)
        → KeepsFound found_set w begun kept failures → AreSameTexts kept other
        → KeepsFound found_set w begun other failures }
{}

/// The positions of groups that are found again are whose turn it is.
pub fn turns_are_positions()
    ensures { (groups : List Group) (turns : ℕ → ℕ) (all : List Remains) (positions : List ℕ)
        → length positions ≡ length groups
        → ((h : ℕ) (group : Group) → slice_get groups h ≡ Some group
        → slice_get positions h ≡ Some (turns h))
        → ArePositions groups (courses_left groups turns all) positions }
{}
