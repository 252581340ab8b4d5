//! Laws of groups and of writers' steps: each is the contract of an empty body.
ghost use Rattle.std.specs.Prelude.{◌≡◌, ℕ, List};
ghost use Rattle.buffer_group.specs.Groups.{blocks_in};
ghost use Rattle.buffer_group.specs.Steps.{step_tried};
ghost use Rattle.buffer_group.specs.Writers.{step_of};
ghost use Rattle.news_terms.specs.Places as places;
ghost use Rattle.relay_conf.specs.Places.{mode_view};
ghost use Rattle.relay_conf.specs.declared.cycbuff.Mode.{Mode};
ghost use Rattle.relay_model.specs.Terms.{Terms};
ghost use Rattle.relay_model.specs.World.{World};
ghost use Rattle.relay_model.specs.Writers.{Writes};

/// There is a group of the definitions for each mode and each list of blocks, so of every group
/// that is made something is said.
pub fn keep_some()
    ensures { (mode : Mode) (blocks : List ℕ) → (group : places.Group)
        × ((mode_view mode ≡ group.mode) × (blocks ≡ blocks_in group.buffers)) }
{}

/// Whatever comes of a Write, what it tries is the step that its writer's phase is followed by.
pub fn writes_try_steps()
    ensures { (w : Terms) (x : World) (g now : ℕ) (x' : World) (write : Writes w x g now x')
        → step_tried write ≡ step_of (x.work.writer g) }
{}
