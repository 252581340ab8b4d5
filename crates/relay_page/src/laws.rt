//! Laws of the page. Nothing of the code stands on them.
ghost use Rattle.std.specs.Prelude.{◌≡◌, ◌++◌, ◌∷◌, ◌<◌, ◌≤◌, ℕ, List, None, Some, length};
ghost use Rattle.std.specs.Prelude.{slice_get, true};
ghost use Rattle.std.specs.List.{list_all};
ghost use Rattle.relay_metrics.specs.Forms.{report_forms};
ghost use Rattle.relay_metrics.specs.Laws.{HasPart};
ghost use Rattle.relay_metrics.specs.Lines.{Line, report_lines};
ghost use Rattle.relay_page.specs.Bars.{hundredths};
ghost use Rattle.relay_page.specs.Figures.{Figure, figures_text, number_text};
ghost use Rattle.relay_page.specs.Laws.{AreHundredths, has_all_of};
ghost use Rattle.relay_page.specs.Page.{Section, other_sections, page_of};
ghost use Rattle.relay_page.specs.Rows.{buffer_row, oldest_of, row_of, size_at};
ghost use Rattle.relay_page.specs.Selected.{buffers_in, most_waiting, oldest_in, sizes_in};
ghost use Rattle.relay_page.specs.Text.{escaped, is_no_mark, text_read};

/// A name as text has no mark in it that could end the text, or the value of an attribute.
pub fn names_have_no_marks()
    ensures { (name : List ℕ) → list_all is_no_mark (escaped name) ≡ true }
{}

/// Whoever reads the text reads the name, and what stands behind it as it stands there.
pub fn names_are_read_as_they_are()
    ensures { (name rest : List ℕ)
        → text_read None (escaped name ++ rest) ≡ name ++ text_read None rest }
{}

/// Two names that differ are written differently.
pub fn names_that_differ_are_written_differently()
    ensures { (name other : List ℕ) → escaped name ≡ escaped other → name ≡ other }
{}

/// What a section has of a line of the report is on the page.
pub fn rows_are_there()
    ensures { (report : List ℕ) (line : Line) (front back : List Line) (section : Section)
        (before after : List Section)
        → report_lines report ≡ front ++ line ∷ back
        → other_sections ≡ before ++ section ∷ after
        → HasPart (page_of report)
        (row_of section.part (most_waiting (report_lines report)) line) }
{}

/// Each buffer is on the page, with the size at its place among the sizes, and with what is told of
/// its oldest article.
pub fn buffers_are_there()
    ensures { (report : List ℕ) (line : Line) (front back : List Line)
        → buffers_in (report_lines report) ≡ front ++ line ∷ back
        → HasPart (page_of report)
        (buffer_row (size_at (sizes_in (report_lines report)) (length front) line.name)
        (oldest_of (oldest_in (report_lines report)) line.name) line) }
{}

/// Each number of each form of line has a place on the page, where it stands as it is written.
pub fn each_number_has_a_figure()
    ensures all { list_all has_all_of report_forms ≡ true }
    ensures told { (line : Line) (number : List ℕ) (figure : Figure) (before after : List Figure)
        → slice_get line.numbers figure.place ≡ Some number
        → HasPart (figures_text (before ++ figure ∷ after) line) (number_text figure number) }
{}

/// A bar is never wider than its box, and where the part is less than the whole it is so many
/// hundredths wide as the part is, cut to a number.
pub fn bars_are_hundredths()
    ensures within { (part whole wide : ℕ) → hundredths part whole ≡ Some wide → wide ≤ 100 }
    ensures right { (part whole wide : ℕ) → hundredths part whole ≡ Some wide → part < whole
        → AreHundredths part whole wide }
    ensures full { (part whole : ℕ) → 0 < whole → whole ≤ part → hundredths part whole ≡ Some 100 }
{}
