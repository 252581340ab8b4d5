//! What the records of one life have to do with those of the next.
ghost use Rattle.std.specs.Prelude.{ℕ, List, Option, true};
ghost use Rattle.boxcar.specs.Table.{Shelves, Where};
ghost use Rattle.cyc_buffer.specs.History.{Article, History};
ghost use Rattle.live_store.specs.Started.{AreArticles, AreSaidAgain, IsThere, ShutWith};
ghost use Rattle.live_store.specs.Tied.{AreNumbered, article_token, number_at};
ghost use Rattle.live_store.specs.declared.writing.entering.Record.{Record};

/// What a record says after a start, one said before the stop: each live article has a record in
/// both registers, under its token and with one text.
pub fn restarted_is_handed_in()
    ensures { (before after : Shelves) (stop : ℕ) (heads blocks : List (List ℕ))
        (shut : ShutWith before stop heads blocks) (numbers : List (Option (Where Record)))
        → AreNumbered true after shut.history numbers
        → (cycle first : ℕ) (article : Article) → IsThere shut.history cycle first article
        → AreSaidAgain before after (article_token shut.history.buffer cycle first article)
        (number_at shut.numbers first) (number_at numbers first) }
{}

/// What is shut holds articles alone, so that a start of it is refused for memory or its device.
pub fn shut_are_articles()
    ensures { (register : Shelves) (stop : ℕ) (heads blocks : List (List ℕ))
        (shut : ShutWith register stop heads blocks) → AreArticles shut.history }
{}
