//! Laws of what is reported. Nothing of the code stands on them.
ghost use Rattle.std.specs.Prelude.{ℕ, List};
ghost use Rattle.article_verdict.specs.Config.{terms_of};
ghost use Rattle.relay_conf.specs.declared.settings.Config.{Config};
ghost use Rattle.relay_model.specs.Run.{Restart, Step};
ghost use Rattle.relay_model.specs.World.{Fault, Quiet, Refuses, World};
ghost use Rattle.relay_report.specs.Report.{ReportsOn, text_after_restart};

/// The report after a Restart that was done is the one before it, with no message-id offered; after
/// one that was refused it is the same.
pub fn restart_keeps_report()
    ensures done { (config : Config) (x y : World) (text : List ℕ)
        → (reports : ReportsOn config x.state text) → Step (terms_of config) x Restart Quiet y
        → ReportsOn config y.state (text_after_restart config x.state reports.ids) }
    ensures refused { (config : Config) (x y : World) (text : List ℕ) (fault : Fault)
        → ReportsOn config x.state text → Step (terms_of config) x Restart (Refuses fault) y
        → ReportsOn config y.state text }
{}
