//! Settings: worked examples of what buffers and groups may be.
ghost use Rattle.std.specs.Prelude.{[], ◌∷◌};
ghost use Rattle.news_terms.specs.Settings.{IsSoundBuffer, AreSound};
ghost use Rattle.news_terms.specs.Places.{Interleave};
ghost use Rattle.news_terms.specs.PlaceExamples.{eight, six, one_of_eight, eight_then_six};

/// A buffer's number is below 256, and it has 1 to 4,194,304 blocks.
pub fn buffer_examples()
    ensures least { IsSoundBuffer (record { number = 0; blocks = 1; first_cycle = 0 }) }
    ensures greatest { IsSoundBuffer (record { number = 255; blocks = 4194304; first_cycle = 7 }) }
    ensures number_past_octet { ¬ IsSoundBuffer
        (record { number = 256; blocks = 1; first_cycle = 0 }) }
    ensures no_block { ¬ IsSoundBuffer (record { number = 0; blocks = 0; first_cycle = 0 }) }
    ensures one_block_more { ¬ IsSoundBuffer
        (record { number = 0; blocks = 4194305; first_cycle = 0 }) }
{}

/// Numbers are the buffers' own, and a group has some buffers of the list, none of them twice.
pub fn group_examples()
    ensures both_in_a_group { AreSound (eight ∷ six ∷ []) (eight_then_six ∷ []) }
    ensures no_group { AreSound (eight ∷ six ∷ []) [] }
    ensures two_groups { AreSound (eight ∷ six ∷ [])
        (one_of_eight ∷ record { mode = Interleave; buffers = six ∷ [] } ∷ []) }
    ensures number_twice { ¬ AreSound (eight ∷ record six { number = 0 } ∷ []) [] }
    ensures unsound_buffer { ¬ AreSound (record eight { blocks = 0 } ∷ []) [] }
    ensures no_buffer { ¬ AreSound (eight ∷ [])
        (record { mode = Interleave; buffers = [] } ∷ []) }
    ensures unlisted { ¬ AreSound (eight ∷ []) (eight_then_six ∷ []) }
    ensures other_blocks { ¬ AreSound (eight ∷ [])
        (record { mode = Interleave; buffers = record eight { blocks = 7 } ∷ [] } ∷ []) }
    ensures in_two_groups { ¬ AreSound (eight ∷ []) (one_of_eight ∷ one_of_eight ∷ []) }
    ensures twice_in_a_group { ¬ AreSound (eight ∷ [])
        (record { mode = Interleave; buffers = eight ∷ eight ∷ [] } ∷ []) }
{}
