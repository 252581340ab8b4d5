//! Laws of what a drill does. Nothing of the code stands on them.
ghost use Rattle.std.specs.Prelude.{◌≡◌, ℕ, true, false, List, Option, Some, codes};
ghost use Rattle.std.specs.List.{list_any};
ghost use Rattle.article_verdict.specs.Config.{terms_of};
ghost use Rattle.relay_conf.specs.declared.settings.Config.{Config};
ghost use Rattle.relay_model.specs.Run.{Event};
ghost use Rattle.relay_model.specs.Terms.{Reason, Date, IdMismatch};
ghost use Rattle.relay_model.specs.World.{World, Rejects, Sent};
ghost use Rattle.relay_drill.specs.Laws.{LivesOn, RunsOn, is_crash, is_one_life};
ghost use Rattle.relay_drill.specs.Play.{Plays};
ghost use Rattle.relay_drill.specs.Print.{Told, answers_of, printed};
ghost use Rattle.relay_drill.specs.Script.{Line};
ghost use Rattle.relay_drill.specs.Todo.{Stand, Todo, lines_ask};

/// Whatever is done of a script in which nothing crashes is a run of the relay, by what its events
/// are answered; a report is no event.
pub fn plays_are_runs()
    ensures { (config : Config) (todo : Todo) (x : World) (events : List Event)
        (told : List Told) (y : Option World) (left : Todo) → is_one_life todo ≡ true
        → Plays config todo (Some x) events told y left
        → RunsOn (terms_of config) (Some x) events (answers_of told) y }
{}

/// In a script without a line `crash` nothing crashes.
pub fn crashes_are_lines()
    ensures { (groups : ℕ) (lines : List Line) (stand : Stand)
        → list_any is_crash lines ≡ false → is_one_life (lines_ask groups lines stand) ≡ true }
{}

/// Whatever is done of a script is one life of the relay after the other, with crashes between
/// them, as far as there is a world.
pub fn plays_are_lives()
    ensures { (config : Config) (todo : Todo) (x : Option World) (events : List Event)
        (told : List Told) (y : Option World) (left : Todo)
        → Plays config todo x events told y left
        → LivesOn (terms_of config) x events (answers_of told) y }
{}

/// The reason stands behind the reply by which an article is refused where reasons are told; where
/// they aren't, that reply is printed as any other.
pub fn reasons_are_told_where_asked()
    ensures told { printed true (Rejects 1 (codes "439 <b@x>\r\n") IdMismatch)
        ≡ codes "1 439 <b@x> reason=IdMismatch\n" }
    ensures of_ihave { printed true (Rejects 12 (codes "437 Rejected\r\n") Date)
        ≡ codes "12 437 Rejected reason=Date\n" }
    ensures untold { printed false (Rejects 1 (codes "439 <b@x>\r\n") IdMismatch)
        ≡ codes "1 439 <b@x>\n" }
    ensures as_sent { (session : ℕ) (octets : List ℕ) (reason : Reason)
        → printed false (Rejects session octets reason) ≡ printed false (Sent session octets) }
{}
