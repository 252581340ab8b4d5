//! Patterns: laws and worked examples.

ghost use Rattle.std.specs.Prelude.{◌≡◌, ◌++◌, ◌∷◌, [], ◌↔◌, ℕ, List, true, false, codes, map, All};
ghost use Rattle.std.specs.Prelude.{IsTrue, Some, None, replicate};
ghost use Rattle.std.specs.Str.{byte};
ghost use Rattle.news_terms.specs.Pattern.{ExpressionFault, Item, Matches, Marked, Match, Fail};
ghost use Rattle.news_terms.specs.Pattern.{Poison, Star};
ghost use Rattle.news_terms.specs.Pattern.{AnyOctet, Literal, Escaped, OneOf, NoneOf, OpenSet};
ghost use Rattle.news_terms.specs.Pattern.{EmptySet, BadRange, DanglingEscape, NonAscii};
ghost use Rattle.news_terms.specs.Pattern.{IsExpressionText, HasLeftmostFault, matches, verdict};
ghost use Rattle.news_terms.specs.Pattern.{worked_expression, is_item, is_marked, permits};
ghost use Rattle.news_terms.specs.Pattern.{set_fault};

/// A text is one expression at most.
pub fn one_expression()
    ensures { (text : List ℕ) (a b : List Marked) → IsExpressionText text a
        → IsExpressionText text b
        → a ≡ b }
{}

/// A text that is an expression has no fault.
pub fn expression_without_fault()
    ensures { (text : List ℕ) (expression : List Marked) (fault : ExpressionFault)
        → IsExpressionText text expression
        → ¬ HasLeftmostFault text fault }
{}

/// The leftmost fault of a text is one.
pub fn one_fault()
    ensures { (text : List ℕ) (a b : ExpressionFault) → HasLeftmostFault text a
        → HasLeftmostFault text b
        → a ≡ b }
{}

/// The test of a pattern says what its parts say.
pub fn matching_tests()
    ensures { (pattern : List Item) (name : List ℕ) → IsTrue (matches pattern name)
        ↔ Matches pattern name }
{}

/// The last pattern that matches decides, and where none does the verdict is Fail.
pub fn last_decides()
    ensures last { (before after : List Marked) (m : Marked) (name : List ℕ)
        → Matches m.pattern name
        → All (λ other. ¬ Matches other.pattern name) after
        → verdict (before ++ m ∷ after) name ≡ m.mark }
    ensures none { (expression : List Marked) (name : List ℕ)
        → All (λ other. ¬ Matches other.pattern name) expression
        → verdict expression name ≡ Fail }
{}

/// Single patterns, and the verdicts of an expression.
pub fn match_examples()
    ensures verdicts { map (verdict worked_expression)
        (codes "comp.x" ∷ codes "alt.a" ∷ codes "alt.binaries.b" ∷ [])
        ≡ Match ∷ Fail ∷ Poison ∷ [] }
    ensures no_pattern { verdict [] (codes "comp.x") ≡ Fail }
    ensures star_in_middle { matches (Literal (byte "a") ∷ Star ∷ Literal (byte "b") ∷ [])
        (codes "axbab") ≡ true }
    ensures star_for_nothing { matches (Star ∷ Star ∷ []) (codes "") ≡ true }
    ensures one_octet { matches (AnyOctet ∷ AnyOctet ∷ []) (codes "a") ≡ false }
    ensures dot_is_an_octet { matches (AnyOctet ∷ []) (codes ".") ≡ true }
    ensures case_counts { matches (Literal (byte "a") ∷ []) (codes "A") ≡ false }
    ensures comma_in_set { matches
        (Literal (byte "a") ∷ OneOf (codes ",b") ∷ Literal (byte "c") ∷ []) (codes "a,c") ≡ true }
    ensures range { matches (OneOf (codes "a-c-z") ∷ []) (codes "b") ≡ true }
    ensures dash_after_range { matches (OneOf (codes "a-c-z") ∷ []) (codes "-") ≡ true }
    ensures not_in_range { matches (OneOf (codes "a-c-z") ∷ []) (codes "d") ≡ false }
    ensures reverse { matches (NoneOf (codes "a-c") ∷ []) (codes "d") ≡ true }
    ensures escaped { matches (Escaped (byte "*") ∷ []) (codes "*") ≡ true }
{}

/// Sets: which octets they have, each by its verdict of the names `a` to `d` and `-`.
pub fn set_examples()
    ensures two { map (matches (OneOf (codes "bc") ∷ []))
        (codes "a" ∷ codes "b" ∷ codes "c" ∷ codes "d" ∷ codes "-" ∷ [])
        ≡ false ∷ true ∷ true ∷ false ∷ false ∷ [] }
    ensures three { map (matches (OneOf (codes "abd") ∷ []))
        (codes "a" ∷ codes "b" ∷ codes "c" ∷ codes "d" ∷ codes "-" ∷ [])
        ≡ true ∷ true ∷ false ∷ true ∷ false ∷ [] }
    ensures one { map (matches (OneOf (codes "b") ∷ []))
        (codes "a" ∷ codes "b" ∷ codes "c" ∷ codes "d" ∷ codes "-" ∷ [])
        ≡ false ∷ true ∷ false ∷ false ∷ false ∷ [] }
    ensures range { map (matches (OneOf (codes "b-c") ∷ []))
        (codes "a" ∷ codes "b" ∷ codes "c" ∷ codes "d" ∷ codes "-" ∷ [])
        ≡ false ∷ true ∷ true ∷ false ∷ false ∷ [] }
    ensures dash_first { map (matches (OneOf (codes "-b") ∷ []))
        (codes "a" ∷ codes "b" ∷ codes "c" ∷ codes "d" ∷ codes "-" ∷ [])
        ≡ false ∷ true ∷ false ∷ false ∷ true ∷ [] }
    ensures range_from_dash { map (matches (OneOf (codes "--b") ∷ []))
        (codes "a" ∷ codes "b" ∷ codes "c" ∷ codes "d" ∷ codes "-" ∷ [])
        ≡ true ∷ true ∷ false ∷ false ∷ true ∷ [] }
    ensures dash_last { map (matches (OneOf (codes "b-") ∷ []))
        (codes "a" ∷ codes "b" ∷ codes "c" ∷ codes "d" ∷ codes "-" ∷ [])
        ≡ false ∷ true ∷ false ∷ false ∷ true ∷ [] }
    ensures range_in_middle { map (matches (OneOf (codes "ac-d") ∷ []))
        (codes "a" ∷ codes "b" ∷ codes "c" ∷ codes "d" ∷ codes "-" ∷ [])
        ≡ true ∷ false ∷ true ∷ true ∷ false ∷ [] }
    ensures last_of_many { matches (OneOf (codes "abcdefgh") ∷ []) (codes "h") ≡ true }
    ensures capital { matches (OneOf (codes "a-c") ∷ []) (codes "B") ≡ false }
    ensures reverse_of_two { map (matches (NoneOf (codes "bc") ∷ []))
        (codes "a" ∷ codes "b" ∷ codes "c" ∷ codes "d" ∷ codes "-" ∷ [])
        ≡ true ∷ false ∷ false ∷ true ∷ true ∷ [] }
    ensures no_octet { map (matches (NoneOf (codes "b") ∷ [])) (codes "" ∷ codes "ac" ∷ [])
        ≡ false ∷ false ∷ [] }
    ensures fault_of_first_range { set_fault (codes "z-a" ++ 0xE4 ∷ []) ≡ Some BadRange }
    ensures fault_past_ascii_first { set_fault (0xE4 ∷ codes "z-a") ≡ Some NonAscii }
    ensures fault_of_range_past_ascii { set_fault (0xE5 ∷ byte "-" ∷ 0xE4 ∷ []) ≡ Some BadRange }
    ensures range_of_one { set_fault (codes "a-a") ≡ None }
{}

/// What can be written: octets that stand for themselves, sets, and a pattern without a mark.
pub fn written_examples()
    ensures special { map (λ c. is_item (Literal c)) (codes "*?[\\,")
        ≡ false ∷ false ∷ false ∷ false ∷ false ∷ [] }
    ensures plain { map (λ c. is_item (Literal c)) (codes "]!@^-~")
        ≡ true ∷ true ∷ true ∷ true ∷ true ∷ true ∷ [] }
    ensures past_ascii { map (λ c. is_item (Escaped c)) (0x7F ∷ 0x80 ∷ []) ≡ true ∷ false ∷ [] }
    ensures control { map is_item (Literal 0 ∷ Literal (byte " ") ∷ OneOf (0 ∷ 0x7F ∷ []) ∷ [])
        ≡ true ∷ true ∷ true ∷ [] }
    ensures special_in_set { map is_item (OneOf (codes "*?[\\,") ∷ NoneOf (codes "[\\") ∷ [])
        ≡ true ∷ true ∷ [] }
    ensures reversed { map is_item
        (OneOf (codes "^a") ∷ NoneOf (codes "^a") ∷ OneOf (codes "a^") ∷ [])
        ≡ false ∷ true ∷ true ∷ [] }
    ensures marks { map (λ c. is_marked (record { mark = Match; pattern = Literal c ∷ [] }))
        (codes "!@a") ≡ false ∷ false ∷ true ∷ [] }
    ensures without_mark { map (λ item. is_marked (record { mark = Match; pattern = item ∷ [] }))
        (Star ∷ AnyOctet ∷ Escaped (byte "@") ∷ OneOf (codes "!") ∷ NoneOf (codes "!") ∷ [])
        ≡ true ∷ true ∷ true ∷ true ∷ true ∷ [] }
    ensures behind_a_mark { map (λ c. is_marked (record { mark = Fail; pattern = Literal c ∷ [] }))
        (codes "!@a") ≡ true ∷ true ∷ true ∷ [] }
{}

/// What an expression permits: a group that matches, and none that is poison.
pub fn permitting_examples()
    ensures some_match { permits worked_expression (codes "alt.a" ∷ codes "comp.x" ∷ []) ≡ true }
    ensures none_matches { permits worked_expression (codes "alt.a" ∷ []) ≡ false }
    ensures poison { permits worked_expression (codes "comp.x" ∷ codes "alt.binaries.b" ∷ [])
        ≡ false }
    ensures match_at_last { permits worked_expression
        (codes "alt.a" ∷ codes "alt.b" ∷ codes "alt.c" ∷ codes "alt.d" ∷ codes "comp.x" ∷ [])
        ≡ true }
    ensures poison_at_first { permits worked_expression
        (codes "alt.binaries.b" ∷ codes "comp.x" ∷ []) ≡ false }
    ensures poison_at_last { permits worked_expression
        (replicate 9 (codes "comp.x") ++ codes "alt.binaries.b" ∷ []) ≡ false }
    ensures no_group { permits worked_expression [] ≡ false }
{}

/// Expressions as they are written.
pub fn expression_examples()
    ensures three_patterns { IsExpressionText (codes "*,!alt.*,@alt.binaries.*") worked_expression }
    ensures comma_in_set { IsExpressionText (codes "a[,b]c")
        (record {
          mark = Match;
          pattern = Literal (byte "a") ∷ OneOf (codes ",b") ∷ Literal (byte "c") ∷ [];
        } ∷ []) }
    ensures empty { IsExpressionText [] (record { mark = Match; pattern = [] } ∷ []) }
    ensures escaped_comma { IsExpressionText (codes "\\,")
        (record { mark = Match; pattern = Escaped (byte ",") ∷ [] } ∷ []) }
    ensures escaped_mark { IsExpressionText (codes "\\!a,@!?[^a]")
        (record { mark = Match; pattern = Escaped (byte "!") ∷ Literal (byte "a") ∷ [] }
        ∷ record {
          mark = Poison;
          pattern = Literal (byte "!") ∷ AnyOctet ∷ NoneOf (codes "a") ∷ [];
        } ∷ []) }
{}

/// The leftmost fault of a text that is no expression.
pub fn fault_examples()
    ensures range_upside_down { HasLeftmostFault (codes "[z-a]") BadRange }
    ensures empty_set { HasLeftmostFault (codes "[]") EmptySet }
    ensures empty_reverse { HasLeftmostFault (codes "x,[^]") EmptySet }
    ensures open_set { HasLeftmostFault (codes "[ab") OpenSet }
    ensures open_set_of_nothing { HasLeftmostFault (codes "[") OpenSet }
    ensures dangling { HasLeftmostFault (codes "a\\") DanglingEscape }
    ensures past_ascii { HasLeftmostFault (codes "!" ++ 0xE4 ∷ codes "[]") NonAscii }
    ensures first_past_ascii { HasLeftmostFault (0x80 ∷ []) NonAscii }
    ensures escaped_past_ascii { HasLeftmostFault (codes "\\" ++ 0xE4 ∷ []) NonAscii }
    ensures set_past_ascii { HasLeftmostFault (codes "[a" ++ 0xE4 ∷ codes "]") NonAscii }
    ensures reverse_upside_down { HasLeftmostFault (codes "[^z-a]") BadRange }
    ensures two_at_one_octet { HasLeftmostFault (codes "[" ++ 0xE4 ∷ codes "-a]") BadRange }
{}
