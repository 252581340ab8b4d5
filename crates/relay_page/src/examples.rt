//! Worked pages (docs/FORMATS.md, Page), computed.
ghost use Rattle.std.specs.Prelude.{◌≡◌, []};
ghost use Rattle.relay_page.specs.Examples as examples;
ghost use Rattle.relay_page.specs.Page.{page_of};

/// Of what a relay tells that is served, of what one tells that is being repaired, of the line that
/// one is paused, of lines that aren't all known, and of nothing.
pub fn worked_pages()
    ensures served { page_of examples.served ≡ examples.served_page }
    ensures recovering { page_of examples.recovering ≡ examples.recovering_page }
    ensures paused { page_of examples.paused ≡ examples.paused_page }
    ensures odd { page_of examples.odd ≡ examples.odd_page }
    ensures empty { page_of [] ≡ examples.empty_page }
{}
