//! Laws of the exposition. Nothing of the code stands on them.
ghost use Rattle.std.specs.Prelude.{◌≡◌, ◌++◌, ◌∷◌, ◌<◌, ◌^◌, ℕ, List, Some, codes, false};
ghost use Rattle.std.specs.Prelude.{slice_get};
ghost use Rattle.std.specs.Prelude.{true};
ghost use Rattle.std.specs.List.{list_all};
ghost use Rattle.relay_metrics.specs.Exposition.{exposition_of, sample_text};
ghost use Rattle.relay_metrics.specs.Families.{Family, report_families, value_in, value_of};
ghost use Rattle.relay_metrics.specs.Forms.{report_forms};
ghost use Rattle.relay_metrics.specs.Labels.{escaped, quoted};
ghost use Rattle.relay_metrics.specs.Laws.{HasPart, IsName, buffer_said, feed_said, ids_said};
ghost use Rattle.relay_metrics.specs.Laws.{tells, tells_all_of};
ghost use Rattle.relay_metrics.specs.Lines.{Line, report_lines, said_line};
ghost use Rattle.relay_report.specs.Figures.{NamedBuffer, NamedFeed};
ghost use Rattle.relay_report.specs.Text.{buffer_line, feed_line, ids_line};
ghost use Rattle.id_history.specs.declared.counts.Counts.{Counts};
ghost use Rattle.relay_metrics.specs.declared.families.Value.{Value};
ghost use Rattle.relay_metrics.specs.declared.lines.Subject.{Subject};

/// Whoever reads a label's value between its quotes reads the value: it doesn't end its quotes
/// early, and what follows them is what was put there.
pub fn values_are_read_as_they_are()
    ensures { (value rest : List ℕ)
        → quoted false (escaped value ++ 34 ∷ rest) ≡ Some (value, rest) }
{}

/// Two values that differ are written differently.
pub fn values_that_differ_are_written_differently()
    ensures { (value other : List ℕ) → escaped value ≡ escaped other → value ≡ other }
{}

/// Where a family has a value of a line of the report its sample is in the exposition.
pub fn samples_are_there()
    ensures { (report value : List ℕ) (line : Line) (front back : List Line) (family : Family)
        (before after : List Family)
        → report_lines report ≡ front ++ line ∷ back → report_families ≡ before ++ family ∷ after
        → value_in family line ≡ Some value
        → HasPart (exposition_of report) (sample_text family line.name value) }
{}

/// Each number of each form of line is told by a family, whose values are those numbers.
pub fn each_number_has_a_family()
    ensures told { list_all tells_all_of report_forms ≡ true }
    ensures values { (value : Value) (subject : Subject) (place : ℕ) (numbers : List (List ℕ))
        → tells value subject place ≡ true
        → value_of value subject numbers ≡ slice_get numbers place }
{}

/// The line that a report has of a buffer, without its LF, is read as what it says, as long as its
/// columns don't touch.
pub fn lines_of_buffers_are_read()
    ensures { (buffer : NamedBuffer) (line : List ℕ) → IsName buffer.name
        → buffer.figures.cycle < 10 ^ 10 → buffer.figures.front < 10 ^ 19
        → buffer.figures.begun < 10 ^ 10 → buffer.figures.stored < 10 ^ 10
        → buffer_line buffer ≡ line ++ codes "\n" → said_line line ≡ buffer_said buffer }
{}

/// So is that of a feed.
pub fn lines_of_feeds_are_read()
    ensures { (feed : NamedFeed) (line : List ℕ) → IsName feed.peer
        → feed.figures.waiting < 10 ^ 10 → feed.figures.gained < 10 ^ 19
        → feed.figures.overwritten < 10 ^ 10
        → feed_line feed ≡ line ++ codes "\n" → said_line line ≡ feed_said feed }
{}

/// So is that of the message-ids.
pub fn lines_of_ids_are_read()
    ensures { (ids : Counts) (line : List ℕ) → ids.offered < 10 ^ 10 → ids.storing < 10 ^ 10
        → ids.stored < 10 ^ 10 → ids.refused < 10 ^ 10
        → ids_line ids ≡ line ++ codes "\n" → said_line line ≡ ids_said ids }
{}
