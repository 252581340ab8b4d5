//! A law of texts, beside those of `news_terms` that a text is one expression at most and has one
//! leftmost fault at most.
ghost use Rattle.std.specs.Prelude.{ℕ, List};
ghost use Rattle.uwild.specs.Readings.{HasReading};

/// Each text is an expression, or has a leftmost fault.
pub fn each_text_has_a_reading()
    ensures { (text : List ℕ) → HasReading text }
{}
