//! What the next line and the next block of a stream are, said of its octets.
ghost use Rattle.std.specs.Prelude.{◌≡◌, ◌↔◌, ◌<◌, ◌≤◌, ℕ, List, length};
ghost use Rattle.news_terms.specs.Lines.{next_line};
ghost use Rattle.news_terms.specs.Lines as lines;
ghost use Rattle.news_terms.specs.Blocks.{next_block, CutsBlock};
ghost use Rattle.news_terms.specs.Blocks as blocks;
ghost use Rattle.stream_cut.specs.Cuts.{BeginsLine, HasLongLine, HasNoLine, BeginsBlock};

/// Where a command line is due: a line within the limit at the front of the stream, more octets
/// than one may have, or less than a line (RFC 3977 section 3.1).
pub fn next_line_law()
    ensures line { (stream line rest : List ℕ) →
        (next_line stream ≡ lines.Cut line rest) ↔ BeginsLine stream line rest }
    ensures too_long { (stream : List ℕ) → (next_line stream ≡ lines.TooLong) ↔ HasLongLine stream }
    ensures incomplete { (stream : List ℕ) →
        (next_line stream ≡ lines.Incomplete) ↔ HasNoLine stream }
{}

/// Where a block is due: one at the front of the stream whose text is within the limit, one whose
/// text is past it, or none (RFC 3977 section 3.1.1).
pub fn next_block_law()
    ensures whole { (limit : ℕ) (stream text rest : List ℕ) →
        (next_block limit stream ≡ blocks.Whole text rest)
        ↔ (BeginsBlock stream text rest × (length text ≤ limit)) }
    ensures oversize { (limit : ℕ) (stream rest : List ℕ) →
        (next_block limit stream ≡ blocks.Oversize rest)
        ↔ ((text : List ℕ) × BeginsBlock stream text rest × (limit < length text)) }
    ensures unfinished { (limit : ℕ) (stream : List ℕ) →
        (next_block limit stream ≡ blocks.Unfinished)
        ↔ ((lines : List (List ℕ)) (rest : List ℕ) → ¬ CutsBlock stream lines rest) }
{}
