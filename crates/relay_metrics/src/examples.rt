//! Worked expositions (docs/FORMATS.md, Metrics), computed.
ghost use Rattle.std.specs.Prelude.{◌≡◌};
ghost use Rattle.relay_metrics.specs.Examples as examples;
ghost use Rattle.relay_metrics.specs.Exposition.{exposition_of};

/// Of what a relay tells that is being repaired, of a whole report, of the line that a relay is
/// paused, and of lines that aren't all known.
pub fn worked_expositions()
    ensures recovering { exposition_of examples.recovering ≡ examples.recovering_metrics }
    ensures ring { exposition_of examples.ring ≡ examples.ring_metrics }
    ensures paused { exposition_of examples.paused ≡ examples.paused_metrics }
    ensures odd { exposition_of examples.odd ≡ examples.odd_metrics }
{}
