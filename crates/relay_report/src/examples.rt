//! The worked reports (docs/FORMATS.md, Report), computed.
ghost use Rattle.std.specs.Prelude.{◌≡◌, ◌∷◌, [], codes, decimal, length, map};
ghost use Rattle.relay_report.specs.Figures.{buffer_view, feed_view};
ghost use Rattle.relay_report.specs.Examples.{buffer_a, feed_p2, stored_ids};
ghost use Rattle.relay_report.specs.Examples as examples;
ghost use Rattle.relay_report.specs.Text.{column, left_in, report_text, wide_column};
ghost use Rattle.relay_report.specs.Totals.{text_of_totals};

use crate::totals::Totals;

/// The reports after *first script* and after *ring*.
pub fn worked_reports()
    ensures first_script { report_text (buffer_a 1 ∷ []) (feed_p2 1 1 0 ∷ []) (stored_ids 1)
        ≡ examples.first_script }
    ensures ring { report_text (buffer_a 3 ∷ []) (feed_p2 0 3 1 ∷ []) (stored_ids 3)
        ≡ examples.ring }
{}

/// The totals after *first script*, whatever was counted beside their figures, are reported as the
/// relay is.
pub fn worked_totals(totals: &Totals)
    requires buffers { map buffer_view totals.now.figures.buffers.items ≡ buffer_a 1 ∷ [] }
    requires feeds { map feed_view totals.now.figures.feeds.items ≡ feed_p2 1 1 0 ∷ [] }
    requires ids { totals.now.figures.ids ≡ stored_ids 1 }
    ensures { text_of_totals totals.now ≡ examples.first_script }
{
    let _ = totals.accepted;
}

/// A name or a number that is longer than its column stands in full.
pub fn long_ones_stand_in_full()
    ensures name { left_in 16 (codes "a-rather-long-name") ≡ codes "a-rather-long-name" }
    ensures number { column 123456789012 ≡ codes "123456789012" }
    ensures full { column 12345678901 ≡ codes "12345678901" }
{}
