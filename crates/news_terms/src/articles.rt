//! Articles: laws and worked examples.

ghost use Rattle.std.specs.Prelude.{◌≡◌, ◌++◌, ◌∷◌, [], ◌↔◌, ℕ, List, true, false, codes, length};
ghost use Rattle.std.specs.Prelude.{take, drop, remove, map, Some, IsTrue, IsFalse, slice_index};
ghost use Rattle.std.specs.Prelude.{replicate};
ghost use Rattle.std.specs.List.{list_any, AllByRecursion};
ghost use Rattle.std.specs.Str.{byte};
ghost use Rattle.news_terms.specs.Article.{Article, Fault, Nul, BareCrLf, NoBlankLine};
ghost use Rattle.news_terms.specs.Article.{BadHeader, Missing, Twice, Path, Subject, IsLaidOut};
ghost use Rattle.news_terms.specs.Article.{IsArticleText, IsFirstFault, HasEmptyLine, HasBadHeader};
ghost use Rattle.news_terms.specs.Article.{article_text, worked_article, begins_field};
ghost use Rattle.news_terms.specs.Article.{carriage_return, line_feed, are_header_lines};
ghost use Rattle.news_terms.specs.Article.{first_content, has_empty_line, header_lines, is_folded};
ghost use Rattle.news_terms.specs.Article.{is_newsgroup_name, is_paired, message_id, newsgroups};
ghost use Rattle.news_terms.specs.Article.{newsgroups_in, trimmed, unfolded, is_of_line_end};
ghost use Rattle.news_terms.specs.Article.{Date, From, MessageId, Newsgroups, InjectionDate};
ghost use Rattle.news_terms.specs.Article.{EmptyField, BadId, BadGroups, faults_in_order, name_of};
ghost use Rattle.news_terms.specs.Article.{is_field_name, is_set_off, contents_of};
ghost use Rattle.news_terms.specs.Article.{content_or_empty, StandsRightly, Repeats, LeavesEmpty};
ghost use Rattle.news_terms.specs.Article.{HasBadGroups, HasBadId, HasNul, IsField};

/// A text is laid out as one article at most.
pub fn one_reading()
    ensures { (text : List ℕ) (a b : Article) → IsLaidOut text a → IsLaidOut text b → a ≡ b }
{}

/// The fault of a text is one, and an article's text has none.
pub fn one_fault()
    ensures one { (text : List ℕ) (f g : Fault) → IsFirstFault text f → IsFirstFault text g
        → f ≡ g }
    ensures none { (text : List ℕ) (a : Article) (fault : Fault) → IsArticleText text a
        → ¬ IsFirstFault text fault }
{}

/// The tests of a whole text say what the text is made of.
pub fn text_tests()
    ensures paired { (text : List ℕ) → IsTrue (is_paired text)
        ↔ ((k : ℕ) → (slice_index (0 ∷ text) k ≡ carriage_return)
        ↔ (slice_index text k ≡ line_feed)) }
    ensures empty_line { (text : List ℕ) → IsTrue (has_empty_line text) ↔ HasEmptyLine text }
    ensures laid_out_line { (text : List ℕ) (a : Article) → IsLaidOut text a → HasEmptyLine text }
    ensures laid_out_header { (text : List ℕ) (a : Article) → IsLaidOut text a
        → ¬ HasBadHeader text }
{}

/// Of a content of an article no CR and no LF is left once it is unfolded, as they stand in pairs
/// alone.
pub fn unfolded_is_one_line()
    ensures { (text : List ℕ) (a : Article) → IsLaidOut text a
        → AllByRecursion (λ f. IsFalse (list_any is_of_line_end (unfolded f.content))) a.fields }
{}

/// The worked article A(a, 1) is one, also with an optional field that is empty, without a body and
/// with one that no CRLF ends; and so is one of two newsgroups, with other fields that repeat.
pub fn accepted_examples()
    ensures worked { IsArticleText (article_text (worked_article (byte "a") 1))
        (worked_article (byte "a") 1) }
    ensures empty_optional_field { let a = worked_article (byte "a") 1 in
        let b = record a { fields = record { name = codes "Keywords"; content = [] } ∷ a.fields } in
        IsArticleText (codes "Keywords:\r\n" ++ article_text a) b }
    ensures many_fields { let a : Article = record {
      fields =
          record { name = codes "PATH"; content = codes " one.example!x" }
          ∷ record { name = codes "from"; content = codes "\r\n a@x.example" }
          ∷ record { name = codes "Newsgroups"; content = codes " misc.test, alt.test" }
          ∷ record { name = codes "Subject"; content = codes " t" }
          ∷ record { name = codes "Message-ID"; content = codes " <a@x> " }
          ∷ record { name = codes "Date"; content = codes " d" }
          ∷ record { name = codes "Injection-Date"; content = codes "\td" }
          ∷ record { name = codes "Received"; content = codes " 1" }
          ∷ record { name = codes "Received"; content = codes " 2" }
          ∷ [];
      body = 0xE4 ∷ [];
    } in
        IsArticleText (article_text a) a }
    ensures no_body { let a = record (worked_article (byte "a") 1) { body = [] } in
        IsArticleText (article_text a) a }
    ensures unended_body { let a = record (worked_article (byte "a") 1) { body = codes "x" } in
        IsArticleText (article_text a) a }
{}

/// The first fault of texts made from the worked article A(a, 1).
pub fn fault_examples()
    ensures ends_inside_header { IsFirstFault
        (take 100 (article_text (worked_article (byte "a") 1))) NoBlankLine }
    ensures line_without_colon { IsFirstFault
        (codes "Lines 1\r\n" ++ article_text (worked_article (byte "a") 1)) BadHeader }
    ensures bare_line_feed { IsFirstFault
        (article_text (worked_article (byte "a") 1) ++ codes "\n") BareCrLf }
    ensures octet_zero { IsFirstFault (article_text (worked_article (byte "a") 1) ++ 0 ∷ []) Nul }
    ensures no_subject { let a = worked_article (byte "a") 1 in
        IsFirstFault (article_text (record a { fields = remove a.fields 3 })) (Missing Subject) }
    ensures two_paths { let a = worked_article (byte "a") 1 in
        IsFirstFault (codes "Path: x\r\n" ++ article_text a) (Twice Path) }
    ensures no_date_and_no_from { let a = worked_article (byte "a") 1 in
        IsFirstFault (article_text (record a { fields = remove (remove a.fields 5) 1 }))
        (Missing Date) }
{}

/// The order in which the faults are tried, and the names of the fields that are looked at.
pub fn order_examples()
    ensures faults { faults_in_order
        ≡ Nul ∷ BareCrLf ∷ NoBlankLine ∷ BadHeader
        ∷ Missing Date ∷ Twice Date ∷ EmptyField Date
        ∷ Missing From ∷ Twice From ∷ EmptyField From
        ∷ Missing MessageId ∷ Twice MessageId ∷ EmptyField MessageId
        ∷ Missing Newsgroups ∷ Twice Newsgroups ∷ EmptyField Newsgroups
        ∷ Missing Path ∷ Twice Path ∷ EmptyField Path
        ∷ Missing Subject ∷ Twice Subject ∷ EmptyField Subject
        ∷ Twice InjectionDate ∷ EmptyField InjectionDate ∷ BadId ∷ BadGroups ∷ [] }
    ensures names { map name_of
        (Date ∷ From ∷ MessageId ∷ Newsgroups ∷ Path ∷ Subject ∷ InjectionDate ∷ [])
        ≡ codes "Date" ∷ codes "From" ∷ codes "Message-ID" ∷ codes "Newsgroups" ∷ codes "Path"
        ∷ codes "Subject" ∷ codes "Injection-Date" ∷ [] }
{}

/// What may stand as a field's name and behind its colon, and which of two fields is read.
pub fn field_examples()
    ensures first_and_last_octet { is_field_name (codes "!~") ≡ true }
    ensures past_last_octet { is_field_name (0x7F ∷ []) ≡ false }
    ensures past_ascii { is_field_name (codes "a" ++ 0xE4 ∷ []) ≡ false }
    ensures space_in_name { is_field_name (codes "a b") ≡ false }
    ensures colon_in_name { is_field_name (codes "a:b") ≡ false }
    ensures no_name { is_field_name (codes "") ≡ false }
    ensures nothing_behind_colon { is_set_off (codes "") ≡ true }
    ensures space_behind_colon { is_set_off (codes " x") ≡ true }
    ensures tab_behind_colon { is_set_off (codes "\tx") ≡ true }
    ensures folded_behind_colon { is_set_off (codes "\r\n x") ≡ true }
    ensures name_behind_colon { is_set_off (codes "x") ≡ false }
    ensures long_content_past_ascii { IsField
        (record { name = codes "Subject"; content = byte " " ∷ replicate 1000 0xE4 }) }
    ensures both_in_order { contents_of (codes "A")
        (record { name = codes "a"; content = codes "1" }
        ∷ record { name = codes "b"; content = codes "2" }
        ∷ record { name = codes "A"; content = codes "3" } ∷ [])
        ≡ codes "1" ∷ codes "3" ∷ [] }
    ensures first_of_two { first_content (codes "A")
        (record { name = codes "a"; content = codes "1" }
        ∷ record { name = codes "A"; content = codes "3" } ∷ [])
        ≡ Some (codes "1") }
    ensures other_lengths { contents_of (codes "Ab")
        (record { name = codes "A"; content = codes "1" }
        ∷ record { name = codes "Abc"; content = codes "2" } ∷ []) ≡ [] }
    ensures none { content_or_empty (codes "A") (record { name = codes "b"; content = codes "2" }
        ∷ []) ≡ [] }
{}

/// Line ends are pairs, and a folded line continues its field.
pub fn line_examples()
    ensures nul_at_first { HasNul (0 ∷ codes "a") }
    ensures no_nul { ¬ HasNul (1 ∷ 8 ∷ 0x7F ∷ 0x80 ∷ 0xFF ∷ []) }
    ensures bare_line_feed { is_paired (codes "a\nb") ≡ false }
    ensures bare_carriage_return { is_paired (codes "a\rb\r\n") ≡ false }
    ensures ends_in_carriage_return { is_paired (codes "a\r") ≡ false }
    ensures two_carriage_returns { is_paired (codes "a\r\r\n") ≡ false }
    ensures pair { is_paired (codes "a\r\nb") ≡ true }
    ensures folded { is_folded (codes "\r\n one.example!x") ≡ true }
    ensures folded_by_tab { is_folded (codes " a\r\n\tb") ≡ true }
    ensures not_folded { is_folded (codes " a\r\nb") ≡ false }
    ensures empty_line_in_content { is_folded (codes " a\r\n\r\n b") ≡ false }
    ensures header { header_lines (codes "Path: a\r\n b\r\n\r\nbody\r\n")
        ≡ codes "Path: a" ∷ codes " b" ∷ [] }
    ensures no_colon { are_header_lines (codes "Path a" ∷ []) ≡ false }
    ensures no_colon_later { are_header_lines (codes "Path: a" ∷ codes "b" ∷ []) ≡ false }
    ensures no_space { begins_field (codes "Path:a") ≡ false }
    ensures space_in_name { begins_field (codes "Path : a") ≡ false }
    ensures ends_at_colon { begins_field (codes "Path:") ≡ true }
    ensures continues_nothing { are_header_lines (codes " b" ∷ codes "Path: a" ∷ []) ≡ false }
{}

/// Contents, trimmed and cut.
pub fn content_examples()
    ensures unfolds { unfolded (codes "\r\n one.example!x") ≡ codes "one.example!x" }
    ensures keeps_second_space { unfolded (codes "  a ") ≡ codes " a " }
    ensures takes_first_tab { unfolded (codes "\ta\t") ≡ codes "a\t" }
    ensures unfolds_twice { unfolded (codes " a\r\n\tb\r\n c") ≡ codes "a\tb c" }
    ensures keeps_bare_ends { unfolded (codes " a\nb\rc\r") ≡ codes "a\nb\rc\r" }
    ensures keeps_outer_pair { unfolded (codes "\r\r\n\n") ≡ codes "\r\n" }
    ensures trims { trimmed (codes " \t a b\t ") ≡ codes "a b" }
    ensures cuts { newsgroups_in (codes " comp.x ,\r\n\talt.a")
        ≡ codes "comp.x" ∷ codes "alt.a" ∷ [] }
    ensures keeps_form_feed { trimmed (11 ∷ 97 ∷ 12 ∷ []) ≡ 11 ∷ 97 ∷ 12 ∷ [] }
    ensures keeps_case { newsgroups_in (codes "Alt.A") ≡ codes "Alt.A" ∷ [] }
    ensures cuts_many { newsgroups_in (codes "a,b,c,d,e,f")
        ≡ codes "a" ∷ codes "b" ∷ codes "c" ∷ codes "d" ∷ codes "e" ∷ codes "f" ∷ [] }
    ensures cuts_empty { newsgroups_in (codes " alt.a, ") ≡ codes "alt.a" ∷ [] ∷ [] }
    ensures name { is_newsgroup_name (codes "comp.lang.c++") ≡ true }
    ensures one_component { is_newsgroup_name (codes "junk") ≡ true }
    ensures empty_component { is_newsgroup_name (codes "comp..x") ≡ false }
    ensures empty_name { is_newsgroup_name (codes "") ≡ false }
    ensures every_mark { is_newsgroup_name (codes "alt.a_b-c") ≡ true }
    ensures capitals_and_digits { is_newsgroup_name (codes "Alt.OS2.9") ≡ true }
    ensures other_mark { is_newsgroup_name (codes "alt.a/b") ≡ false }
    ensures bad_at_last { is_newsgroup_name (codes "a.b.c.d.e.f.g/") ≡ false }
    ensures bad_at_first { is_newsgroup_name (codes "/a") ≡ false }
    ensures other_marks { map (λ c. is_newsgroup_name (c ∷ [])) (codes "*,=@^` ")
        ≡ replicate 7 false }
    ensures mark_first { is_newsgroup_name (codes "+a.-b._c") ≡ true }
    ensures long_component { is_newsgroup_name (replicate 72 (byte "a")) ≡ true }
    ensures past_ascii { is_newsgroup_name (codes "alt." ++ 0xE4 ∷ []) ≡ false }
    ensures begins_with_dot { is_newsgroup_name (codes ".alt") ≡ false }
    ensures ends_with_dot { is_newsgroup_name (codes "alt.") ≡ false }
{}

/// What fields by themselves may be, and their faults.
pub fn field_fault_examples()
    ensures injection_date_may_stand { StandsRightly InjectionDate 1 }
    ensures three_fields { Repeats Path (record { name = codes "Path"; content = codes " x" }
        ∷ record { name = codes "Path"; content = codes " y" }
        ∷ record { name = codes "path"; content = codes " x" } ∷ []) }
    ensures white_alone { LeavesEmpty Subject
        (record { name = codes "Subject"; content = codes " \r\n\t" } ∷ []) }
    ensures white_around_id { message_id
        (record { name = codes "Message-ID"; content = codes " \t<a@x>\t " } ∷ [])
        ≡ codes "<a@x>" }
    ensures case_of_id { message_id (record { name = codes "Message-ID"; content = codes " <A@x>" }
        ∷ []) ≡ codes "<A@x>" }
    ensures no_bracket { HasBadId
        (record { name = codes "Message-ID"; content = codes " a@x>" } ∷ []) }
    ensures first_group_is_bad { HasBadGroups
        (record { name = codes "Newsgroups"; content = codes " alt.,alt.a" } ∷ []) }
    ensures one_bad_group { HasBadGroups
        (record { name = codes "Newsgroups"; content = codes " alt.a,alt." } ∷ []) }
{}

/// The worked article A(a, 1).
pub fn worked_article_examples()
    ensures header { length (article_text (record (worked_article (byte "a") 1) { body = [] }))
        ≡ 146 }
    ensures text { length (article_text (worked_article (byte "a") 1)) ≡ 149 }
    ensures id { message_id (worked_article (byte "a") 1).fields ≡ codes "<a@x>" }
    ensures groups { newsgroups (worked_article (byte "a") 1).fields ≡ codes "misc.test" ∷ [] }
    ensures any_case { first_content (codes "subject") (worked_article (byte "a") 1).fields
        ≡ Some (codes " t") }
    ensures other_id { message_id (worked_article (byte "b") 1).fields ≡ codes "<b@x>" }
    ensures body { (worked_article (byte "b") 3).body ≡ codes "xxx\r\n" }
{}
