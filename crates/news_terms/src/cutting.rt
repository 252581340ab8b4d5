//! Laws and worked examples of lines and blocks.
ghost use Rattle.std.specs.Prelude.{◌≡◌, ◌↔◌, ℕ, ◌+◌, ◌≤◌, ◌++◌, List, [], ◌∷◌, replicate};
ghost use Rattle.std.specs.Prelude.{length, codes, Some, None};
ghost use Rattle.news_terms.specs.Lines.{first_line, next_line, crlf, spelled};
ghost use Rattle.news_terms.specs.Lines.{CutsLine, IsLine, AreLines};
ghost use Rattle.news_terms.specs.Lines as lines;
ghost use Rattle.news_terms.specs.Blocks.{first_block, next_block, stuffed, unstuffed, dot};
ghost use Rattle.news_terms.specs.Blocks.{CutsBlock, stuffed_room};
ghost use Rattle.news_terms.specs.Blocks as blocks;

/// The first line is the shortest that the stream begins with, and there is none only where no line
/// and rest make up the stream.
pub fn first_line_law()
    ensures exact { (stream line rest : List ℕ) →
        (first_line stream ≡ Some (line, rest)) ↔ CutsLine stream line rest }
    ensures none { (stream : List ℕ) →
        (first_line stream ≡ None) ↔ ((line rest : List ℕ) → ¬ CutsLine stream line rest) }
    ensures grows { (stream line rest more : List ℕ) → first_line stream ≡ Some (line, rest) →
        first_line (stream ++ more) ≡ Some (line, rest ++ more) }
{}

/// A line is what has no CRLF in it: with its own CRLF after it, that one is the first.
pub fn line_law()
    ensures cut { (line : List ℕ) → IsLine line ↔ CutsLine (line ++ crlf) line [] }
    ensures last { (line : List ℕ) → IsLine line
        ↔ ((front after : List ℕ) → line ++ crlf ≡ front ++ 13 ∷ 10 ∷ after → after ≡ []) }
{}

/// The first block is the one that the stream begins with, and there is none only where no lines
/// and rest make up the stream.
pub fn first_block_law()
    ensures exact { (stream : List ℕ) (lines : List (List ℕ)) (rest : List ℕ) →
        (first_block stream ≡ Some (lines, rest)) ↔ CutsBlock stream lines rest }
    ensures none { (stream : List ℕ) → (first_block stream ≡ None)
        ↔ ((lines : List (List ℕ)) (rest : List ℕ) → ¬ CutsBlock stream lines rest) }
    ensures grows { (stream : List ℕ) (lines : List (List ℕ)) (rest more : List ℕ) →
        first_block stream ≡ Some (lines, rest) →
        first_block (stream ++ more) ≡ Some (lines, rest ++ more) }
{}

/// The next line, and that it is too long, stay when more octets come.
pub fn next_line_grows()
    ensures cut { (stream line rest more : List ℕ) → next_line stream ≡ lines.Cut line rest →
        next_line (stream ++ more) ≡ lines.Cut line (rest ++ more) }
    ensures too_long { (stream more : List ℕ) → next_line stream ≡ lines.TooLong →
        next_line (stream ++ more) ≡ lines.TooLong }
{}

/// The next block, and that it is oversize, stay when more octets come.
pub fn next_block_grows()
    ensures whole { (limit : ℕ) (stream text rest more : List ℕ) →
        next_block limit stream ≡ blocks.Whole text rest →
        next_block limit (stream ++ more) ≡ blocks.Whole text (rest ++ more) }
    ensures oversize { (limit : ℕ) (stream rest more : List ℕ) →
        next_block limit stream ≡ blocks.Oversize rest →
        next_block limit (stream ++ more) ≡ blocks.Oversize (rest ++ more) }
{}

/// The block that sends a text of lines is the first of any stream that it begins, and stands for
/// that text.
pub fn stuffing_law()
    ensures { (lines : List (List ℕ)) (rest : List ℕ) → AreLines lines → (sent : List (List ℕ))
        × (first_block (stuffed (spelled lines) ++ rest) ≡ Some (sent, rest))
        × (unstuffed sent ≡ spelled lines) }
{}

/// The block that sends a text is at most a third longer than the text, and six octets.
pub fn stuffed_is_bounded()
    ensures { (text : List ℕ) → length (stuffed text) ≤ stuffed_room (length text) }
{}

/// A line ends at the first CRLF; a bare LF or CR ends none.
pub fn line_examples()
    ensures first { first_line (codes "QUIT" ++ crlf ++ codes "x")
        ≡ Some (codes "QUIT", codes "x") }
    ensures no_end { first_line (codes "QUIT") ≡ None }
    ensures empty { first_line crlf ≡ Some ([], []) }
    ensures bare_line_feed { first_line (97 ∷ 10 ∷ 98 ∷ 13 ∷ 10 ∷ [])
        ≡ Some (97 ∷ 10 ∷ 98 ∷ [], []) }
    ensures two_returns { first_line (13 ∷ 13 ∷ 10 ∷ []) ≡ Some (13 ∷ [], []) }
    ensures whole { next_line (codes "STAT" ++ crlf) ≡ lines.Cut (codes "STAT") [] }
    ensures part { next_line (codes "STAT" ++ 13 ∷ []) ≡ lines.Incomplete }
{}

/// A line of 512 octets with its CRLF is served, one of 513 is too long.
pub fn long_lines()
    ensures longest { next_line (replicate 510 97 ++ crlf) ≡ lines.Cut (replicate 510 97) [] }
    ensures too_long { next_line (replicate 511 97 ++ crlf) ≡ lines.TooLong }
    ensures no_end { next_line (replicate 512 97) ≡ lines.TooLong }
    ensures not_yet { next_line (replicate 511 97) ≡ lines.Incomplete }
{}

/// Lines of dots: each that begins with one has one more in the block.
pub fn dots()
    ensures sent { stuffed (codes "." ++ crlf ++ codes "..x" ++ crlf ++ codes "." ++ crlf)
        ≡ codes ".." ++ crlf ++ codes "...x" ++ crlf ++ codes ".." ++ crlf ++ codes "." ++ crlf }
    ensures received { next_block 100
        (codes ".." ++ crlf ++ codes "...x" ++ crlf ++ codes ".." ++ crlf
        ++ codes "." ++ crlf ++ codes "STAT")
        ≡ blocks.Whole (codes "." ++ crlf ++ codes "..x" ++ crlf ++ codes "." ++ crlf)
        (codes "STAT") }
    ensures are_lines { AreLines (codes "." ∷ [] ∷ codes "a\nb" ∷ []) }
    ensures empty_text { stuffed [] ≡ codes "." ++ crlf }
    ensures empty_block { next_block 100 (codes "." ++ crlf) ≡ blocks.Whole [] [] }
    ensures invented_dot { next_block 100 (codes ".x" ++ crlf ++ codes "." ++ crlf)
        ≡ blocks.Whole (codes "x" ++ crlf) [] }
    ensures unended { stuffed (codes "a") ≡ codes "a" ++ crlf ++ codes "." ++ crlf }
    ensures room_for_one { length (stuffed (codes ".")) ≡ stuffed_room 1 }
    ensures room_for_two { length (stuffed (codes "." ++ crlf ++ codes ".")) ≡ stuffed_room 4 }
{}

/// The limit is of the text without its dots: met it is whole, passed by one octet it is oversize.
pub fn block_limit()
    ensures met { next_block 3 (codes "..x" ++ crlf ++ codes "." ++ crlf ++ codes "y")
        ≡ blocks.Oversize (codes "y") }
    ensures within { next_block 4 (codes "..x" ++ crlf ++ codes "." ++ crlf ++ codes "y")
        ≡ blocks.Whole (codes ".x" ++ crlf) (codes "y") }
    ensures unfinished { next_block 4 (codes "..x" ++ crlf ++ codes ".") ≡ blocks.Unfinished }
{}
