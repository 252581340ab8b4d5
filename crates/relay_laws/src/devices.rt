//! Laws of devices: who may find one failing, and that no count of failures falls.
ghost use Rattle.std.specs.Prelude.{◌≡◌, ◌<◌, ◌+◌, ℕ, List, Some, false};
ghost use Rattle.news_terms.specs.Token.{Token};
ghost use Rattle.relay_model.specs.Claims.{is_storing};
ghost use Rattle.relay_model.specs.Fetches.{NotRead, fetched};
ghost use Rattle.relay_model.specs.Run.{Event, Open, Bytes, Break, Expire, Restart, Step};
ghost use Rattle.relay_model.specs.Run.{restarted};
ghost use Rattle.relay_model.specs.Shares.{Reading, ToRead};
ghost use Rattle.relay_model.specs.State.{Job};
ghost use Rattle.relay_model.specs.Terms.{Terms};
ghost use Rattle.relay_model.specs.World.{World, Output, Rises, Writing, Failed, Quiet, Refuses};
ghost use Rattle.relay_model.specs.World.{Memory, with_failures};
ghost use Rattle.relay_model.specs.Writers.{Writes, job_size, writer_at};

/// No step lowers how often a device has failed.
pub fn failures_never_fall()
    ensures { (w : Terms) (x y : World) (event : Event) (output : Output)
        → Step w x event output y → Rises x.work.failures y.work.failures }
{}

/// A read and a write fail by the device of the token's buffer.
pub fn own_devices_fail()
    ensures reads { (w : Terms) (x y : World) (token : Token)
        → Reading w x token (ToRead NotRead) y
        → x.work.failures token.buffer < y.work.failures token.buffer }
    ensures writes { (w : Terms) (x y : World) (g now : ℕ) (job : Job) (token : Token)
        (written : ℕ) → Writes w x g now y → x.work.writer g ≡ Writing job token written
        → y.work.writer g ≡ Failed job (Some token)
        → x.work.failures token.buffer < y.work.failures token.buffer }
{}

/// Only Turns, Writes and Restarts call devices: by any other event none fails.
pub fn others_call_no_device()
    ensures opened { (w : Terms) (x y : World) (s peer : ℕ) (output : Output)
        → Step w x (Open s peer) output y → y.work.failures ≡ x.work.failures }
    ensures came { (w : Terms) (x y : World) (s : ℕ) (piece : List ℕ) (output : Output)
        → Step w x (Bytes s piece) output y → y.work.failures ≡ x.work.failures }
    ensures broken { (w : Terms) (x y : World) (s : ℕ) (output : Output)
        → Step w x (Break s) output y → y.work.failures ≡ x.work.failures }
    ensures expired { (w : Terms) (x y : World) (shard now : ℕ) (output : Output)
        → Step w x (Expire shard now) output y → y.work.failures ≡ x.work.failures }
{}

/// A read may find what there is, a block may be written, and a Restart be done or want memory,
/// also where devices have failed meanwhile.
pub fn goes_on_all_the_same()
    ensures reads { (w : Terms) (x : World) (token : Token) (after : ℕ → ℕ)
        → Rises x.work.failures after
        → Reading w x token (ToRead (fetched w x.state token)) (with_failures x after) }
    ensures writes { (w : Terms) (x : World) (g now : ℕ) (job : Job) (token : Token)
        (written : ℕ) (after : ℕ → ℕ) → x.work.writer g ≡ Writing job token written
        → written < job_size job → Rises x.work.failures after → Writes w x g now
        (with_failures (writer_at x x.state g (Writing job token (written + 1))) after) }
    ensures restarts { (w : Terms) (x : World) (after : ℕ → ℕ)
        → ((id : List ℕ) → is_storing (x.state.claim id) ≡ false)
        → Rises x.work.failures after → Step w x Restart Quiet (restarted x after) }
    ensures wants_memory { (w : Terms) (x : World) (after : ℕ → ℕ)
        → Rises x.work.failures after
        → Step w x Restart (Refuses Memory) (with_failures x after) }
{}
