//! Overview lines: worked examples.

ghost use Rattle.std.specs.Prelude.{◌≡◌, ◌∷◌, [], codes, replicate};
ghost use Rattle.std.specs.Str.{byte};
ghost use Rattle.news_terms.specs.Article.{worked_article};
ghost use Rattle.news_terms.specs.Path.{updated_article};
ghost use Rattle.news_terms.specs.Overview.{overview_line, overview_of, without_tabs, line_count};

/// The line of the worked article A(a, 1) as it is stored, which has no References.
pub fn overview_examples()
    ensures worked { overview_line (updated_article (codes "relay.example") (codes "one.example")
        (worked_article (byte "a") 1))
        ≡ codes "0\tt\ta@x.example\tFri, 01 Jan 2021 00:00:00 +0000\t<a@x>\t\t164\t1" }
    ensures long_text { overview_of (codes "Subject")
        (record { name = codes "Subject"; content = byte " " ∷ replicate 500 97 } ∷ [])
        ≡ replicate 500 97 }
    ensures tab_is_space { without_tabs (codes "a\tb") ≡ codes "a b" }
{}

/// The line of an article with References beside Xref: each part is that of its own field, the
/// first of its name, unfolded. The octets are those of the article with its names and line ends.
pub fn overview_fields_examples()
    ensures own_fields { overview_line (record {
      fields =
          record { name = codes "Xref"; content = codes " x" }
          ∷ record { name = codes "References"; content = codes " <r@x>" }
          ∷ record { name = codes "Message-ID"; content = codes " <m@x>" }
          ∷ record { name = codes "Date"; content = codes " d" }
          ∷ record { name = codes "From"; content = codes " f" }
          ∷ record { name = codes "Subject"; content = codes " s\r\n\tt " }
          ∷ record { name = codes "References"; content = codes " <q@x>" }
          ∷ [];
      body = codes "one\r\ntwo\r\n";
    }) ≡ codes "0\ts t \tf\td\t<m@x>\t<r@x>\t113\t2" }
    ensures no_fields { overview_line (record { fields = []; body = [] })
        ≡ codes "0\t\t\t\t\t\t2\t0" }
    ensures no_last_end { line_count (codes "one\r\ntwo") ≡ 1 }
{}
