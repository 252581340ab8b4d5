//! In which order the texts of several buffers are thought to have come.
ghost use Rattle.std.specs.Prelude.{◌≡◌, ◌++◌, ◌≤◌, ℕ, All, map, flat_map, IfOk, OnOk};
ghost use Rattle.std.specs.Prelude.{IsPermutation};
ghost use Rattle.news_terms.specs.Ring.{last_of};
ghost use Rattle.found_again.specs.Dealing.{HasNewest, IsWithin, but_last, dealt, longest};
ghost use Rattle.found_again.specs.Lists.{texts_of, all_of};

use crate::text::FoundText;
use std::alloc::{AllocError, Global};

/// Puts the texts of all buffers in one order, those thought the newest last. Within a buffer they
/// are in the order of their places; over buffers they are dealt from the ends, so that the newest
/// of each are among the newest.
pub fn deal(alloc: Global, per_buffer: Vec<Vec<FoundText>>) -> Result<Vec<FoundText>, AllocError>
    ensures order { IfOk result (λ texts. texts.items ≡ dealt (map texts_of per_buffer.items)) }

    // So each text is there once, and those of a buffer are in its order.
    ensures once { IfOk result (λ texts. IsPermutation (all_of per_buffer.items) texts.items) }
    ensures within { IfOk result (λ texts.
        All (λ buffer. IsWithin (texts_of buffer) texts.items) per_buffer.items) }

    // The newest of each buffer are among the newest.
    ensures newest { IfOk result (λ texts. (k : ℕ)
        → k ≤ longest (map texts_of per_buffer.items)
        → HasNewest k (map texts_of per_buffer.items) texts.items) }
{
    let mut newest_first = Vec::new(alloc);
    let mut left = per_buffer;
    for _ in 0..longest(&left) {
        deal_round(&mut left, &mut newest_first)?;
        // A buffer without a text is asked no more, so that all takes as long as there are texts.
        left.retain(|buffer| !buffer.is_empty());
    }
    newest_first.reverse();
    Ok(newest_first)
}

/// How many texts the buffer has that has most.
fn longest(buffers: &[Vec<FoundText>]) -> usize
    ensures { result ≡ longest (map texts_of buffers.now) }
{
    let mut most = 0;
    for buffer in buffers {
        most = most.max(buffer.len());
    }
    most
}

/// Each buffer in turn gives its last text, where it has one.
fn deal_round(
    buffers: &mut Vec<Vec<FoundText>>,
    newest_first: &mut Vec<FoundText>,
) -> Result<(), AllocError>
    ensures left { OnOk result
        (map texts_of buffers.new.items ≡ map but_last (map texts_of buffers.old.items)) }
    ensures given { OnOk result (newest_first.new.items
        ≡ newest_first.old.items ++ flat_map (last_of 1) (map texts_of buffers.old.items)) }
{
    for place in 0..buffers.len() {
        if let Some(text) = buffers[place].pop() {
            newest_first.push(text)?;
        }
    }
    Ok(())
}
