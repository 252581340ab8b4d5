//! Laws and worked examples of message-ids.
ghost use Rattle.std.specs.Prelude.{◌≡◌, ◌≢◌, ℕ, ◌-◌, ◌≤◌, ◌↔◌, List, ◌++◌, codes, length, take};
ghost use Rattle.std.specs.Prelude.{slice_index, All, Some, None, replicate, ◌∷◌};
ghost use Rattle.news_terms.specs.MessageId.{id_fault, IsMessageId};
ghost use Rattle.news_terms.specs.MessageId as ids;

/// The faults in the order of trial.
pub fn id_examples()
    ensures shortest { id_fault (codes "<a>") ≡ None }
    ensures empty { id_fault (codes "<>") ≡ Some ids.Length }
    ensures longest { id_fault (codes "<" ++ replicate 248 97 ++ codes ">") ≡ None }
    ensures too_long { id_fault (codes "<" ++ replicate 249 97 ++ codes ">") ≡ Some ids.Length }
    ensures opened_twice { id_fault (codes "<a<b>") ≡ None }
    ensures closed_early { id_fault (codes "<a>b>") ≡ Some ids.Brackets }
    ensures not_opened { id_fault (codes "a@x>") ≡ Some ids.Brackets }
    ensures not_closed { id_fault (codes "<a@x") ≡ Some ids.Brackets }
    ensures space { id_fault (codes "<a b>") ≡ Some ids.Octet }
    ensures first_and_last_octet { id_fault (codes "<!~>") ≡ None }
    ensures past_last_octet { id_fault (codes "<" ++ 0x7F ∷ codes ">") ≡ Some ids.Octet }
    ensures brackets_before_octets { id_fault (codes "<a b") ≡ Some ids.Brackets }
    ensures length_before_brackets { id_fault (codes "a ") ≡ Some ids.Length }
{}

/// A text has no fault exactly where it is a message-id, and else the first fault in that order:
/// the length, then the brackets, then the octets (RFC 3977 section 3.6).
pub fn fault_laws()
    ensures accepted { (text : List ℕ) → (id_fault text ≡ None) ↔ IsMessageId text }
    ensures length { (text : List ℕ) → (id_fault text ≡ Some ids.Length)
        ↔ ¬ ((3 ≤ length text) × (length text ≤ 250)) }
    ensures brackets { (text : List ℕ) → (id_fault text ≡ Some ids.Brackets)
        ↔ ((3 ≤ length text) × (length text ≤ 250)
        × ¬ ((slice_index text 0 ≡ 60) × (slice_index text (length text - 1) ≡ 62)
        × All (λ c. c ≢ 62) (take (length text - 1) text))) }
    ensures octet { (text : List ℕ) → (id_fault text ≡ Some ids.Octet)
        ↔ ((3 ≤ length text) × (length text ≤ 250)
        × (slice_index text 0 ≡ 60) × (slice_index text (length text - 1) ≡ 62)
        × All (λ c. c ≢ 62) (take (length text - 1) text)
        × ¬ All (λ c. (33 ≤ c) × (c ≤ 126)) text) }
{}
