//! A law of texts, beside those of `news_terms` that a text is one article at most and has one
//! first fault at most.
ghost use Rattle.std.specs.Prelude.{ℕ, List};
ghost use Rattle.article_parse.specs.Readings.{HasReading};

/// Each text is an article's, or has a first fault.
pub fn each_text_has_a_reading()
    ensures { (text : List ℕ) → HasReading text }
{}
