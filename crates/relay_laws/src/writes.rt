//! Laws of writers: how many Writes a job takes, and that a Write has one outcome.
ghost use Rattle.std.specs.Prelude.{◌≡◌, ◌≢◌, ◌+◌, ◌<◌, ◌≤◌, ◌∷◌, [], ℕ, List, length, Some};
ghost use Rattle.relay_model.specs.Run.{Event, Step, Restart, Write};
ghost use Rattle.relay_model.specs.State.{Job};
ghost use Rattle.relay_model.specs.Terms.{Terms};
ghost use Rattle.relay_model.specs.World.{World, Fault, Output, Quiet, Refuses, Idle, Popped};
ghost use Rattle.relay_model.specs.World.{IsKept};
ghost use Rattle.relay_model.specs.World.{with_failures};
ghost use Rattle.relay_model.specs.Writers.{Writes, job_size};
ghost use Rattle.relay_facts.specs.Sound.{IsSound};
ghost use Rattle.relay_laws.specs.Laws.{Always, WritesWithin};
ghost use Rattle.relay_laws.specs.Counts.{FindsNoFault, IsOther, RunOfJob, WritesInTurn};
ghost use Rattle.relay_laws.specs.Counts.{writes_done, writes_left};

/// A Write that finds a job leaves one Write less, or fewer where it finds a fault. One that finds
/// none changes nothing.
pub fn one_write_less()
    ensures none { (w : Terms) (x x' : World) (g now : ℕ) → Writes w x g now x'
        → x.work.writer g ≡ Idle → x.work.queue g ≡ [] → x' ≡ x }
    ensures popped { (w : Terms) (x x' : World) (g now : ℕ) (job : Job) (rest : List Job)
        → Writes w x g now x' → x.work.writer g ≡ Idle → x.work.queue g ≡ job ∷ rest
        → x'.work.writer g ≡ Popped job }
    ensures less { (w : Terms) (x x' : World) (g now : ℕ) → Writes w x g now x'
        → x.work.writer g ≢ Idle → FindsNoFault x x' g
        → writes_left (x'.work.writer g) + 1 ≡ writes_left (x.work.writer g) }
    ensures fewer { (w : Terms) (x x' : World) (g now : ℕ) → Writes w x g now x'
        → x.work.writer g ≢ Idle → writes_left (x'.work.writer g) < writes_left (x.work.writer g) }
{}

/// A job of n blocks without a fault takes n + 5 Writes of its group: after these the writer is
/// idle, and after fewer it isn't.
pub fn writes_of_a_job()
    ensures all { (w : Terms) (x x' : World) (g : ℕ) (job : Job) (rest : List Job)
        (moments : List ℕ) → x.work.writer g ≡ Idle → x.work.queue g ≡ job ∷ rest
        → WritesInTurn w x g moments x' → length moments ≡ job_size job + 5
        → x'.work.writer g ≡ Idle }
    ensures fewer { (w : Terms) (x x' : World) (g : ℕ) (job : Job) (rest : List Job)
        (moments : List ℕ) → x.work.writer g ≡ Idle → x.work.queue g ≡ job ∷ rest
        → WritesInTurn w x g moments x' → 1 ≤ length moments → length moments < job_size job + 5
        → x'.work.writer g ≢ Idle }
{}

/// In every run, whatever other events stand between but a Restart that is done, refused ones too,
/// a job of n blocks without a fault takes n + 5 Writes of its group that find it, from its pop to
/// its answer, and fewer before the answer. The answer is that it was kept, to the session that
/// brought it.
pub fn writes_along_a_run()
    ensures left { (w : Terms) (x x' : World) (g : ℕ) (events : List Event)
        (outputs : List Output) → RunOfJob w g x events outputs x'
        → writes_done g events outputs + writes_left (x'.work.writer g)
        ≡ writes_left (x.work.writer g) }
    ensures all { (w : Terms) (x y x' : World) (g now : ℕ) (job : Job) (rest : List Job)
        (events : List Event) (outputs : List Output) → x.work.writer g ≡ Idle
        → x.work.queue g ≡ job ∷ rest → Step w x (Write g now) Quiet y
        → RunOfJob w g y events outputs x' → x'.work.writer g ≡ Idle
        → writes_done g (Write g now ∷ events) (Quiet ∷ outputs) ≡ job_size job + 5 }
    ensures fewer { (w : Terms) (x y x' : World) (g now : ℕ) (job : Job) (rest : List Job)
        (events : List Event) (outputs : List Output) → x.work.writer g ≡ Idle
        → x.work.queue g ≡ job ∷ rest → Step w x (Write g now) Quiet y
        → RunOfJob w g y events outputs x' → x'.work.writer g ≢ Idle
        → writes_done g (Write g now ∷ events) (Quiet ∷ outputs) < job_size job + 5 }
    ensures told { (w : Terms) (x y x' : World) (g now : ℕ) (job : Job) (rest : List Job)
        (events : List Event) (outputs : List Output) → x.work.writer g ≡ Idle
        → x.work.queue g ≡ job ∷ rest → Step w x (Write g now) Quiet y
        → RunOfJob w g y events outputs x' → x'.work.writer g ≡ Idle
        → x'.work.slot job.session ≡ Some IsKept }
{}

/// Only the Writes of a group move its writer, and a Restart that is done.
pub fn others_leave_writers()
    ensures others { (w : Terms) (x x' : World) (g : ℕ) (event : Event) (output : Output)
        → Step w x event output x' → IsOther g event → x'.work.writer g ≡ x.work.writer g }
    ensures refused { (w : Terms) (x x' : World) (g : ℕ) (fault : Fault)
        → Step w x Restart (Refuses fault) x' → x'.work.writer g ≡ x.work.writer g }
{}

/// Two Writes that find no fault, from one world and at one moment, lead to one world but for how
/// often devices have failed.
pub fn one_outcome()
    ensures { (w : Terms) (x y z : World) (g now : ℕ) → Writes w x g now y → Writes w x g now z
        → FindsNoFault x y g → FindsNoFault x z g
        → with_failures y x.work.failures ≡ with_failures z x.work.failures }
{}

/// No writer has written more blocks than its job has.
pub fn never_too_many()
    ensures { (w : Terms) → IsSound w → Always w WritesWithin }
{}
