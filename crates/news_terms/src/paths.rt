//! Path: laws and worked examples.

ghost use Rattle.std.specs.Prelude.{◌≡◌, ◌∷◌, ◌++◌, [], true, false, codes, length, map, Some};
ghost use Rattle.std.specs.Prelude.{None, List, ℕ, IsTrue};
ghost use Rattle.std.specs.Str.{byte, str_eq_ignore_ascii_case};
ghost use Rattle.news_terms.specs.Article.{Article, IsArticleText, contents_of, article_text};
ghost use Rattle.news_terms.specs.Article.{worked_article};
ghost use Rattle.news_terms.specs.Path.{is_agent, IsUpdateOf, Loops, path_pieces, tail_entry};
ghost use Rattle.news_terms.specs.Path.{path_identities, HasBadPath, is_posted};
ghost use Rattle.news_terms.specs.Path.{leftmost_identity, has_identity, updated_content};
ghost use Rattle.news_terms.specs.Path.{updated_field, updated_article};

/// The update changes the content of Path alone.
pub fn update_keeps()
    ensures names { (own expected : List ℕ) (a : Article)
        → map (λ f. f.name) (updated_article own expected a).fields
        ≡ map (λ f. f.name) a.fields }
    ensures other_contents { (own expected name : List ℕ) (a : Article)
        → str_eq_ignore_ascii_case name (codes "Path") ≡ false
        → contents_of name (updated_article own expected a).fields ≡ contents_of name a.fields }
    ensures body { (own expected : List ℕ) (a : Article)
        → (updated_article own expected a).body ≡ a.body }
{}

/// A text has one update.
pub fn one_update()
    ensures { (own expected t u v : List ℕ) → IsUpdateOf own expected t u
        → IsUpdateOf own expected t v
        → u ≡ v }
{}

/// The update of an article is an article.
pub fn update_is_article()
    ensures { (own expected text : List ℕ) (a : Article) → IsTrue (is_agent own)
        → IsTrue (is_agent expected)
        → IsArticleText text a
        → IsArticleText (article_text (updated_article own expected a))
        (updated_article own expected a) }
{}

/// An updated Path begins with the own identity, and so the article loops if it comes again.
pub fn update_loops()
    ensures leftmost { (own expected content : List ℕ) → IsTrue (is_agent own)
        → leftmost_identity (updated_content own expected content) ≡ Some own }
    ensures loops { (own expected content : List ℕ) → IsTrue (is_agent own)
        → Loops own (updated_content own expected content) }
{}

/// Pieces, identities and loops.
pub fn identity_examples()
    ensures pieces { path_pieces (codes " a! b\r\n\t!x") ≡ codes "a" ∷ codes "b" ∷ codes "x" ∷ [] }
    ensures other_marks { path_pieces (codes "a,b:c/d%e!x")
        ≡ codes "a,b:c/d%e" ∷ codes "x" ∷ [] }
    ensures tail { tail_entry (codes "one.example!x") ≡ Some (codes "x") }
    ensures identities { path_identities (codes "a!!.MISMATCH.b!c!.POSTED.h!d!x")
        ≡ codes "a" ∷ codes "c" ∷ [] }
    ensures marks_in_identities { path_identities (codes "a/b:1!c_d!x")
        ≡ codes "a/b:1" ∷ codes "c_d" ∷ [] }
    ensures posted_in_full { path_identities (codes "a!.POSTEDLY!b!x")
        ≡ codes "a" ∷ codes "b" ∷ [] }
    ensures posted_in_case { path_identities (codes "a!.posted!b!x") ≡ codes "a" ∷ codes "b" ∷ [] }
    ensures posted_alone { path_identities (codes "a!.POSTED!b!x") ≡ codes "a" ∷ [] }
    ensures posted_twice { path_identities (codes "a!.POSTED.h!b!.POSTED!c!x") ≡ codes "a" ∷ [] }
    ensures posted_tail { path_identities (codes "a!b!.POSTED") ≡ codes "a" ∷ codes "b" ∷ [] }
    ensures tail_alone { path_identities (codes "x") ≡ [] }
    ensures leftmost { leftmost_identity (codes "one.example!x") ≡ Some (codes "one.example") }
    ensures leftmost_is_empty { leftmost_identity (codes "!a!x") ≡ Some [] }
    ensures none_leftmost { leftmost_identity (codes "x") ≡ None }
    ensures tail_is_no_loop { has_identity (codes "relay.example")
        (codes "one.example!relay.example") ≡ false }
    ensures posted_is_no_loop { has_identity (codes "relay.example")
        (codes "one.example!.POSTED.h!relay.example!x") ≡ false }
    ensures loop_behind_others { has_identity (codes "relay.example")
        (codes "a!b!c!d!e!f!g!h!relay.example!x") ≡ true }
    ensures longer_is_no_loop { has_identity (codes "relay.example")
        (codes "relay.example.org!my.relay.example!x") ≡ false }
    ensures any_case_is_loop { has_identity (codes "relay.example")
        (codes "one.example!Relay.Example!x") ≡ true }
{}

/// What an agent may be called, and which octets a Path may have.
pub fn agent_examples()
    ensures agent { is_agent (codes "relay.example") ≡ true }
    ensures first_and_last_octet { is_agent (0x22 ∷ 0x7E ∷ []) ≡ true }
    ensures marks { is_agent (codes "a_b/c:1@d") ≡ true }
    ensures nothing { is_agent (codes "") ≡ false }
    ensures dot_first { is_agent (codes ".relay") ≡ false }
    ensures bang { is_agent (codes "relay!x") ≡ false }
    ensures space { is_agent (codes "relay x") ≡ false }
    ensures past_last_octet { is_agent (codes "a" ++ 0x7F ∷ []) ≡ false }
    ensures past_ascii { is_agent (codes "a" ++ 0xE4 ∷ []) ≡ false }
    ensures posted { map is_posted (codes ".POSTED" ∷ codes ".POSTED.h" ∷ codes ".POSTED." ∷ [])
        ≡ true ∷ true ∷ true ∷ [] }
    ensures not_posted { map is_posted (codes "POSTED" ∷ codes ".POSTEDh" ∷ codes "a.POSTED" ∷ [])
        ≡ false ∷ false ∷ false ∷ [] }
    ensures white_is_no_fault { ¬ HasBadPath (codes " a!\t~\r\n x") }
    ensures past_printable { HasBadPath (codes " a!" ++ 0x7F ∷ codes "!x") }
    ensures path_past_ascii { HasBadPath (codes " a!" ++ 0xE4 ∷ codes "!x") }
    ensures form_feed { HasBadPath (12 ∷ codes "a!x") }
    ensures bad_at_first { HasBadPath (0x7F ∷ codes "a!x") }
    ensures octet_zero { HasBadPath (codes " a!" ++ 0 ∷ codes "!x") }
{}

/// The update of a Path that came from one.example.
pub fn update_examples()
    ensures matching { updated_content (codes "relay.example") (codes "one.example")
        (codes " one.example!x")
        ≡ codes "relay.example!!one.example!x" }
    ensures any_case { updated_content (codes "relay.example") (codes "one.example")
        (codes " ONE.example!x")
        ≡ codes "relay.example!!ONE.example!x" }
    ensures expected_in_any_case { updated_content (codes "relay.example") (codes "One.Example")
        (codes " one.example!x")
        ≡ codes "relay.example!!one.example!x" }
    ensures mismatch { updated_content (codes "relay.example") (codes "one.example")
        (codes " three.example!x")
        ≡ codes "relay.example!.MISMATCH.one.example!three.example!x" }
    ensures mismatch_as_configured { updated_content (codes "Relay.Example") (codes "One.Example")
        (codes " x") ≡ codes "Relay.Example!.MISMATCH.One.Example!x" }
    ensures longer { updated_content (codes "relay.example") (codes "one.example")
        (codes " one.example.org!x")
        ≡ codes "relay.example!.MISMATCH.one.example!one.example.org!x" }
    ensures no_identity { updated_content (codes "relay.example") (codes "one.example") (codes " x")
        ≡ codes "relay.example!.MISMATCH.one.example!x" }
    ensures folded { updated_field (codes "relay.example") (codes "one.example")
        (record { name = codes "Path"; content = codes "\r\n one.example!x" })
        ≡ record { name = codes "Path"; content = codes " relay.example!!one.example!x" } }
    ensures name_in_any_case { updated_field (codes "relay.example") (codes "one.example")
        (record { name = codes "PATH"; content = codes "\t one.example!x\r\n\ty " })
        ≡ record { name = codes "PATH"; content = codes " relay.example!!one.example!x\r\n\ty " } }
    ensures other_field { updated_field (codes "relay.example") (codes "one.example")
        (record { name = codes "Paths"; content = codes " one.example!x" })
        ≡ record { name = codes "Paths"; content = codes " one.example!x" } }
    ensures whole_text { IsUpdateOf (codes "relay.example") (codes "one.example")
        (article_text (worked_article (byte "a") 1))
        (codes "Path: relay.example!!one.example!not-for-mail\r\nFrom: a@x.example\r\n"
        ++ codes "Newsgroups: misc.test\r\nSubject: t\r\nMessage-ID: <a@x>\r\n"
        ++ codes "Date: Fri, 01 Jan 2021 00:00:00 +0000\r\n\r\nx\r\n") }
    ensures worked { length
        (article_text (updated_article (codes "relay.example") (codes "one.example")
        (worked_article (byte "a") 1))) ≡ 164 }
{}
